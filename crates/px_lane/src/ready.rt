// A message with all the memory that it needs.

use px_chmap::Feed;
use px_msg::FactorList;
use px_stream::{Stream, StreamMsg};
use px_types::InputId;
use px_vol::Factors;

/// A message with all the memory that it needs.
#[derive(Debug, Drop)]
pub(crate) enum Ready {
    /// A new stream comes.
    Insert {
        input: InputId,
        stream: Stream,
    },
    /// A stream comes from another sink, with a feed and factors for this one.
    Join {
        input: InputId,
        parcel: Stream,
        feed: Feed,
        factors: Factors,
    },
    /// A stream leaves.
    Remove(InputId),
    /// A stream is changed.
    Change {
        input: InputId,
        change: StreamMsg,
    },
    /// Some inputs get new factors.
    Each(FactorList),
    /// A query with this tag, answered by a Latency notice.
    Answer {
        input: InputId,
        tag: u32,
    },
}
