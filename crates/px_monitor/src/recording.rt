//! A record stream, and how many a connection has created.

ghost use Rattle.std.specs.Prelude.{◌≡◌, ◌≤◌};
ghost use Rattle.px_monitor.specs.Create.{fragsize_of};

use px_sample::Spec;
use px_types::{ConnId, SinkId};

// The most bytes of a data frame. Own.
const MAX_FRAGMENT: u32 = 65_536;

/// A record stream of a connection: `stream` is its number there, `output` the index of its source output, `sink` the sink whose
/// monitor it records, `fragsize` the bytes of a data frame.
#[derive(Clone, Copy, Debug, PartialEq, Eq)]
pub struct Recording {
    pub conn: ConnId,
    pub stream: u32,
    pub output: u32,
    pub sink: SinkId,
    pub fragsize: u32,
}

/// How many record streams a connection has created.
#[derive(Clone, Copy, Debug, PartialEq, Eq)]
pub struct Count {
    pub conn: ConnId,
    pub streams: u32,
}

/// The bytes of a data frame, where the client asks for `asked` of them: whole frames of the source, at least one. Takes no memory.
pub(crate) fn fragsize_of(spec: &Spec, asked: u32) -> u32
    requires some { 1 ≤ spec.now.channels }
    requires few { spec.now.channels ≤ 32 }
    ensures value { result ≡ fragsize_of spec.now asked }
    ensures some { 1 ≤ result }
    ensures few { result ≤ 65536 }
{
    let frame = spec.frame_size() as u32;
    let most = asked.min(MAX_FRAGMENT);
    frame.max(most / frame * frame)
}
