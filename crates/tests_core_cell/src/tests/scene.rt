ghost use Rattle.std.specs.Prelude.{◌≡◌, map, IfOk};
ghost use Rattle.std.specs.Arc.{arc_value};
ghost use Rattle.crossbeam_queue.specs.Passes.{IsPassOf};
ghost use Rattle.px_header.specs.HeaderRules.{IsHeader};
ghost use Rattle.px_core_cell.specs.Cell.{ends_of};
ghost use Rattle.px_core_cell.specs.History.{Begins, fresh_ends};

use px_cell::{CellCore, CoreEnd, CoreEnds};
use px_core::Core;
use px_ends::{Calls, MemSource};
use px_header::{Header, SinkSpec};
use px_mail::{Mailbox, PostPass, Shared, TakePass};
use px_msg::{Msg, Notice};
use px_session::{Reader, Step};
use px_stream::Stream;
use px_types::{Mem, NoMemory, SinkId, Text};
use std::alloc::Global;
use std::sync::{Arc, Wait};

pub(crate) const OUT: SinkId = SinkId(0);

// The sink's side of its mailboxes.
#[derive(Drop)]
pub(crate) struct Mixer {
    pub inbox: Arc<Mailbox<Msg<Stream>>>,
    pub outbox: Arc<Mailbox<Notice<Stream>>>,
    pub take: TakePass<Msg<Stream>>,
    pub post: PostPass<Notice<Stream>>,
    pub ghost takes: { IsPassOf (arc_value inbox).queue take.pass },
    pub ghost posts: { IsPassOf (arc_value outbox).queue post.pass },
}

// A core before its first step, with its ends and the sink's side of the mailboxes.
#[derive(Drop)]
pub(crate) struct Scene {
    pub core: CellCore,
    pub ends: CoreEnds,
    pub mixer: Mixer,
}

// A header of one sink `out`: S16LE, mono, 48,000 frames a second, guard 10, depth 100.
fn header(alloc: Global) -> Mem<Text> {
    let mut bytes = Vec::new(alloc);
    bytes.extend_from_slice(b"PRS1")?;
    bytes.extend_from_slice(&[0; 256])?;
    bytes.extend_from_slice(b"\x01\x03out\x03\x01\0\0\xBB\x80\0\0\0\0\x0A\0\0\0\x64")?;
    Ok(Text::from_vec(bytes))
}

// The two sides of a sink's mailboxes.
fn sides(alloc: Global, sink: &SinkSpec) -> Mem<(CoreEnd, Mixer)>
    ensures { IfOk result (λ made. ends_of made.0 ≡ fresh_ends sink.now) }
{
    let inbox = Shared::<Msg<Stream>>::new(alloc, sink.spec)?;
    let outbox = Shared::<Notice<Stream>>::new(alloc, ())?;
    let end = CoreEnd::new(inbox.mailbox, outbox.twin, inbox.post, outbox.take);
    let mixer = Mixer {
        inbox: inbox.twin,
        outbox: outbox.mailbox,
        take: inbox.take,
        post: outbox.post,
    };
    Ok((end, mixer))
}

// The sides of all sinks' mailboxes: the core's ends, and the last sink's own side.
fn all_sides(alloc: Global, sinks: &[SinkSpec]) -> Mem<(CoreEnds, Option<Mixer>)>
    ensures { IfOk result (λ made. map ends_of made.0.items ≡ map fresh_ends sinks.now) }
{
    let mut ends = Vec::new(alloc);
    let mut last = None;
    for sink in sinks {
        let (end, mixer) = sides(alloc, sink)?;
        ends.push(end)?;
        last = Some(mixer);
    }
    Ok((ends, last))
}

fn set_up(alloc: Global, header: &Header) -> Mem<Scene>
    requires { IsHeader header.now }
    ensures { IfOk result (λ scene. Begins scene.core.state (map ends_of scene.ends.items)) }
{
    let (ends, last) = all_sides(alloc, header.sinks.as_slice())?;
    let Some(mixer) = last else {
        return Err(NoMemory);
    };
    let core = Core::new(alloc, header, None)?;
    Ok(Scene { core, ends, mixer })
}

// The header at the front of a source.
fn first_header(reader: &mut Reader, source: &mut MemSource) -> Mem<Header>
    ensures { IfOk result IsHeader }
{
    match reader.next(source) {
        Ok(Step::Header(header)) => Ok(header),
        _ => Err(NoMemory),
    }
}

fn header_read(alloc: Global) -> Mem<Header>
    ensures { IfOk result IsHeader }
{
    let mut source = MemSource::new(header(alloc)?, Calls::none(alloc));
    first_header(&mut Reader::new(alloc)?, &mut source)
}

pub(crate) fn new_scene(alloc: Global) -> Mem<Scene>
    ensures { IfOk result (λ scene. Begins scene.core.state (map ends_of scene.ends.items)) }
{
    set_up(alloc, &header_read(alloc)?)
}

// The sink's next message.
pub(crate) fn taken<R: Wait>(rt: &R, mixer: &mut Mixer) -> Option<Msg<Stream>> {
    let Mixer { inbox, take, .. } = mixer;
    inbox.take(rt, take)
}
