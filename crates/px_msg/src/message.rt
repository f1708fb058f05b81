//! Messages from the core to a sink.

ghost use Rattle.px_msg.specs.Parcels.{IsMessageWith};

use crate::factors::FactorList;
use px_block::Blocks;
use px_chmap::Feed;
use px_model::Attr;
use px_sample::Spec;
use px_types::InputId;
use px_vol::Factors;

/// What a new stream starts with.
#[derive(Debug, Drop)]
pub struct NewStream {
    /// Its index as a sink input.
    pub input: InputId,
    /// The sample spec of what is written to it.
    pub spec: Spec,
    /// The stream channel that feeds each sink channel.
    pub feed: Feed,
    /// The factor for each sink channel.
    pub factors: Factors,
    /// Its buffer attributes, in frames, repaired.
    pub attr: Attr,
    /// Whether it starts corked.
    pub corked: bool,
}

/// A message from the core to a sink (PulseAudio: the messages of `pa_sink_input` and of the playback stream, `pulsecore/protocol-native.c`). `P` is
/// the type of a parcel: a stream on its way from one sink to another.
#[derive(Debug, Drop)]
pub enum Msg<P> {
    /// A new stream.
    New(NewStream),
    /// A stream comes from another sink, and gets this feed and these factors.
    Attach {
        input: InputId,
        parcel: P,
        feed: Feed,
        factors: Factors,
    },
    /// A stream leaves.
    Detach {
        input: InputId,
    },
    /// Frames for a stream: the mode of the seek as on the wire, 0 to 3, its offset in frames, how many frames they
    /// are, and their bytes.
    Write {
        input: InputId,
        seek: u8,
        offset: i64,
        frames: u32,
        bytes: Blocks,
    },
    /// A stream is corked or uncorked.
    Cork {
        input: InputId,
        on: bool,
    },
    /// What a stream holds is dropped.
    Flush {
        input: InputId,
    },
    /// A stream plays without waiting for prebuf.
    Trigger {
        input: InputId,
    },
    /// A stream prebuffers again.
    Prebuf {
        input: InputId,
    },
    /// The tag is answered once all frames are played.
    Drain {
        input: InputId,
        tag: u32,
    },
    /// New buffer attributes, in frames, repaired.
    Attr {
        input: InputId,
        attr: Attr,
    },
    /// New factors for some inputs.
    Factors(FactorList),
    /// The tag is answered by a Latency notice.
    Query {
        input: InputId,
        tag: u32,
    },
}

impl<P> Msg<P> {
    /// The message with `give` applied to its parcel, if it has one. Takes no memory of its own.
    pub fn with_parcel<Q, F: FnOnce(P) -> Q>(self, give: F) -> Msg<Q>
        requires { F.IsAlwaysCallable give }
        ensures { IsMessageWith (F.post give) self result }
    {
        match self {
            Msg::New(stream) => Msg::New(stream),
            Msg::Attach {
                input,
                parcel,
                feed,
                factors,
            } => Msg::Attach {
                input,
                parcel: give(parcel),
                feed,
                factors,
            },
            Msg::Detach { input } => Msg::Detach { input },
            Msg::Write {
                input,
                seek,
                offset,
                frames,
                bytes,
            } => Msg::Write {
                input,
                seek,
                offset,
                frames,
                bytes,
            },
            Msg::Cork { input, on } => Msg::Cork { input, on },
            Msg::Flush { input } => Msg::Flush { input },
            Msg::Trigger { input } => Msg::Trigger { input },
            Msg::Prebuf { input } => Msg::Prebuf { input },
            Msg::Drain { input, tag } => Msg::Drain { input, tag },
            Msg::Attr { input, attr } => Msg::Attr { input, attr },
            Msg::Factors(factors) => Msg::Factors(factors),
            Msg::Query { input, tag } => Msg::Query { input, tag },
        }
    }
}
