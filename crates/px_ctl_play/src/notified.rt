//! Notices from a sink about a live stream (PulseAudio: `sink_input_process_msg` and the callbacks of
//! `pulsecore/protocol-native.c`; which notices fit is own).

ghost use Rattle.std.specs.Prelude.{◌≡◌, IfOk};
ghost use Rattle.px_ctl_play.specs.Notified.{bytes_asked, message_of, notified};

use crate::data::frame_size;
use crate::refusals::goes_on;
use px_flat::Group;
use px_msg::Msg;
use px_outcome::{Connection, Input, StepOutcome};
use px_tag::Packet;
use px_types::{Mem, NoMemory};
use std::alloc::Global;

/// A notice from a sink about a stream.
#[derive(Clone, Copy, Debug, PartialEq, Eq)]
pub enum News {
    /// The sink requests this number of frames.
    Request(u32),
    /// Overflow: data written to it didn't fit.
    Overflow,
    /// Underrun: it has run out of frames.
    Underflow,
    /// It plays.
    Started,
}

/// The size of `frames` frames in bytes, saturated to 32 bits. Takes no memory.
pub(crate) fn bytes_asked(x: &Input, frames: u32) -> u32
    ensures { result ≡ bytes_asked x.now frames }
{
    let bytes = u64::from(frames) * frame_size(x.spec) as u64;
    bytes.min(0xFFFF_FFFF) as u32
}

// The message to the client for this notice.
fn message_of(alloc: Global, news: News, x: &Input) -> px_tag::Mem<Packet>
    ensures { IfOk result (λ packet. packet ≡ message_of news x.now) }
{
    match news {
        News::Request(frames) => px_reply::request(alloc, x.stream, bytes_asked(x, frames)),
        News::Overflow => px_reply::overflow(alloc, x.stream),
        News::Underflow => px_reply::underflow(alloc, x.stream),
        News::Started => px_reply::started(alloc, x.stream),
    }
}

/// A sink sends a notice about an input of its own: the message is sent to the connection of the input, where that is live,
/// unless the input has ended.
pub fn notify<P: Drop>(
    alloc: Global,
    input: Option<Input>,
    owner: Option<Connection>,
    news: News,
) -> Mem<StepOutcome<Msg<P>, Group>>
    ensures { IfOk result (λ outcome. outcome ≡ notified input owner news) }
{
    match (input, owner) {
        (Some(x), Some(owner)) if goes_on(&x) => match message_of(alloc, news, &x) {
            Ok(packet) => StepOutcome::notifying(alloc, owner.conn, packet),
            Err(_) => Err(NoMemory),
        },
        _ => Ok(StepOutcome::idle(alloc)),
    }
}
