//! Notices from a sink to the core, as plain numbers and bytes.

use crate::stream::{PlainRun, PlainStream};

/// A notice from a sink about the input with an index. `write` and `read` are indices, in frames, and `buffered` is frames.
#[derive(Debug, Drop)]
pub enum PlainNotice {
    Request {
        input: u32,
        frames: u32,
    },
    Overflow {
        input: u32,
    },
    Underflow {
        input: u32,
    },
    Started {
        input: u32,
    },
    Drained {
        input: u32,
        tag: u32,
    },
    Detached {
        input: u32,
        parcel: PlainStream,
    },
    Latency {
        input: u32,
        tag: u32,
        write: i64,
        read: i64,
        buffered: u32,
        playing: bool,
        run: PlainRun,
    },
}
