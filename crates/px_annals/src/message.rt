//! Messages from the core to a sink, as plain numbers and bytes.

use crate::items::{Items, Numbers};
use crate::stream::PlainStream;
use px_types::Text;

/// The factors of one input, in 16.16, one a channel of its sink.
#[derive(Debug, Drop)]
pub struct PlainFactors {
    pub input: u32,
    pub factors: Numbers,
}

/// The factors of several inputs.
pub type PlainFactorList = Items<PlainFactors>;

/// A message to a sink about the input with an index. `attr` is maxlength, tlength, prebuf and minreq, in frames; `seek` and `offset` give
/// the place where frames are written, in frames.
#[derive(Debug, Drop)]
pub enum PlainMsg {
    New {
        input: u32,
        format: u8,
        channels: u8,
        rate: u32,
        feed: Numbers,
        factors: Numbers,
        attr: [u32; 4],
        corked: bool,
    },
    Attach {
        input: u32,
        parcel: PlainStream,
        feed: Numbers,
        factors: Numbers,
    },
    Detach {
        input: u32,
    },
    Write {
        input: u32,
        seek: u8,
        offset: i64,
        frames: u32,
        bytes: Text,
    },
    Cork {
        input: u32,
        on: bool,
    },
    Flush {
        input: u32,
    },
    Trigger {
        input: u32,
    },
    Prebuf {
        input: u32,
    },
    Drain {
        input: u32,
        tag: u32,
    },
    Attr {
        input: u32,
        attr: [u32; 4],
    },
    Factors(PlainFactorList),
    Query {
        input: u32,
        tag: u32,
    },
}

/// Messages, in order.
pub type PlainMsgs = Items<PlainMsg>;
