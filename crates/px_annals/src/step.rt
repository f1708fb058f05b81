//! Steps of the core, as plain numbers and bytes.

use crate::notice::PlainNotice;
use px_types::Text;

/// What a frame of a connection has: a control packet, or data for a channel, at an offset in bytes that a seek mode counts from.
#[derive(Debug, Drop)]
pub enum PlainBody {
    Control {
        bytes: Text,
    },
    Write {
        stream: u32,
        offset: i64,
        seek: u8,
        bytes: Text,
    },
}

/// A step of the core. `at` is an offset in a connection's bytes; `Broken` has the number of the rule that they break; `Out` hands a number
/// of messages out to a sink.
#[derive(Debug, Drop)]
pub enum PlainStep {
    Connect { conn: u32 },
    Frame { conn: u32, at: u64, body: PlainBody },
    Broken { conn: u32, fault: u8, at: u64 },
    Close { conn: u32 },
    Cut { conn: u32 },
    Sweep,
    Notice { sink: u8, notice: PlainNotice },
    Out { sink: u8, count: u64 },
}
