// The messages to a stream.
use px_block::Blocks;
use px_chmap::Feed;
use px_model::Attr;
use px_vol::Factors;

/// A message to a stream that is there, once its sink has found it: the kinds of `Msg` without the input.
#[derive(Debug, Drop)]
pub enum StreamMsg {
    /// It has come from another sink, and gets this feed and these factors.
    Attach {
        feed: Feed,
        factors: Factors,
    },
    /// Frames: the mode of the seek as on the wire, 0 to 3, its offset in frames, how many frames they are, and their bytes.
    Write {
        seek: u8,
        offset: i64,
        frames: u32,
        bytes: Blocks,
    },
    /// It is corked or uncorked.
    Cork {
        on: bool,
    },
    /// What it holds is dropped.
    Flush,
    /// It plays without waiting for prebuf.
    Trigger,
    /// It prebuffers again.
    Prebuf,
    /// The tag is answered once all frames are played.
    Drain {
        tag: u32,
    },
    /// New buffer attributes, in frames, repaired.
    Attr {
        attr: Attr,
    },
    /// New factors, one a channel of the sink.
    Factors {
        factors: Factors,
    },
    /// The sink answers the tag; the stream doesn't change.
    Query {
        tag: u32,
    },
}

/// The outcome of a message.
#[derive(Clone, Copy, Debug, PartialEq, Eq)]
pub enum Applied {
    /// No notice is due.
    Quiet,
    /// Overflow: a write was refused.
    Overflow,
}
