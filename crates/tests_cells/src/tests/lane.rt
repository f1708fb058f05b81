ghost use Rattle.std.specs.Prelude.{◌≡◌, [], Some, IfOk, IfSome};
ghost use Rattle.std.specs.Arc.{arc_value};
ghost use Rattle.crossbeam_queue.specs.Passes.{IsPassOf};
ghost use Rattle.px_mail.specs.Mailbox.{key_of, posted_by};
ghost use Rattle.tests_cells.specs.Gains.{IsGain, IsNew, Sends};

use px_annals::{LaneEntry, Recorder};
use px_cell::{Boxes, LaneCell, LaneEnds, LanePasses};
use px_chmap::Map;
use px_ends::{DeviceShape, MemDevice};
use px_header::SinkSpec;
use px_lane::Lane;
use px_mail::{Full, Mailbox, PostPass, Shared};
use px_msg::{FactorList, InputFactors, Msg, Notice};
use px_sample::{Format, Spec};
use px_stream::Stream;
use px_types::{InputId, Mem, NoMemory, Text};
use px_vol::Factors;
use std::alloc::Global;
use std::sync::{Arc, Wait};
use std::thread;

pub type Inbox = Arc<Mailbox<Msg<Stream>>>;

pub type Cell<E> = LaneCell<MemDevice, E>;

// 16 bits, mono.
const SPEC: Spec = Spec {
    format: Format::S16Le,
    channels: 1,
    rate: 48_000,
};

const SHAPE: DeviceShape = DeviceShape {
    frame: 2,
    rate: 48_000,
    guard: 10,
    depth: 100,
};

// A mixer of a sink of that spec, over a device in memory.
fn mixer(alloc: Global) -> Mem<Lane<MemDevice>>
    ensures { IfOk result IsNew }
{
    let Some(map) = Map::new(&[0]) else {
        return Err(NoMemory);
    };
    let sink = SinkSpec {
        name: Text::copied(alloc, b"a")?,
        spec: SPEC,
        map,
        guard: 10,
        depth: 100,
    };
    Lane::new(alloc, &sink, MemDevice::new(alloc, &SHAPE)?)
}

/// A cell with this recorder, its inbox, and the posting end of that.
pub fn opened<E: Recorder<LaneEntry> + Drop>(
    alloc: Global,
    recorder: E,
) -> Mem<(Cell<E>, Inbox, PostPass<Msg<Stream>>)>
    requires { IfSome (E.visible recorder) (λ entries. entries ≡ []) }
    ensures pass { IfOk result (λ made. IsPassOf (arc_value made.1).queue made.2.pass) }
    ensures sends { IfOk result (λ made. Sends (key_of made.2.pass) (posted_by made.2.pass)) }
{
    let Shared {
        mailbox,
        twin,
        post,
        take,
    } = Shared::<Msg<Stream>>::new(alloc, SPEC)?;
    let outbox = Shared::<Notice<Stream>>::new(alloc, ())?;
    let ends = LaneEnds {
        boxes: Boxes {
            inbox: mailbox,
            outbox: outbox.mailbox,
        },
        passes: LanePasses {
            take,
            post: outbox.post,
        },
    };
    let lane = mixer(alloc)?;
    let cell = LaneCell::new(alloc, lane, recorder, ends)?;
    Ok((cell, twin, post))
}

/// Factors for input `number`.
pub fn factors_for(alloc: Global, number: u32) -> Mem<Msg<Stream>>
    ensures { IfOk result IsGain }
{
    let Some(factors) = Factors::new(&[65_536]) else {
        return Err(NoMemory);
    };
    let mut list = Vec::new(alloc);
    list.push(InputFactors {
        input: InputId(number),
        factors,
    })?;
    Ok(Msg::Factors(FactorList::from_vec(list)))
}

/// Posts one message, again for as long as the inbox is full.
#[tactic(auto, using(crate::proofs::Gains::lawful_next, crate::proofs::Gains::sends_next))]
pub fn sent<R: Wait>(
    rt: &R,
    inbox: &Mailbox<Msg<Stream>>,
    post: &mut PostPass<Msg<Stream>>,
    message: Msg<Stream>,
)
    requires pass { IsPassOf inbox.now.queue post.old.pass }
    requires sends { Sends (key_of post.old.pass) (posted_by post.old.pass) }
    requires gain { IsGain message }
    ensures pass { IsPassOf inbox.now.queue post.new.pass }
    ensures sends { Sends (key_of post.new.pass) (posted_by post.new.pass) }
{
    let mut message = message;
    for _ in rt.forever() {
        match inbox.post(rt, post, message) {
            Ok(()) => return,
            Err(Full(back)) => {
                message = back;
                thread::yield_now();
            }
        }
    }
}
