//! Notices from a sink to the core.

ghost use Rattle.px_msg.specs.Parcels.{IsNoticeWith};

use px_model::Run;
use px_types::InputId;

/// A notice from a sink to the core (PulseAudio: the messages of the playback stream, `pulsecore/protocol-native.c`). `P` is the type of a parcel: a
/// stream on its way from one sink to another.
#[derive(Debug, Drop)]
pub enum Notice<P> {
    /// A stream asks for `frames` frames.
    Request {
        input: InputId,
        frames: u32,
    },
    /// A write was refused: past the limit, or at no index.
    Overflow {
        input: InputId,
    },
    /// A stream that played has run out.
    Underflow {
        input: InputId,
    },
    /// A stream that was silent plays.
    Started {
        input: InputId,
    },
    /// All frames written before the drain are played.
    Drained {
        input: InputId,
        tag: u32,
    },
    /// A stream has left the sink, and is handed over.
    Detached {
        input: InputId,
        parcel: P,
    },
    /// Where a stream stands: its write index, its read index once all rendered frames are given, the frames that
    /// wait in the sink's buffer, whether it plays then, and its run then, all in frames.
    Latency {
        input: InputId,
        tag: u32,
        write: i64,
        read: i64,
        buffered: u32,
        playing: bool,
        run: Run,
    },
}

impl<P> Notice<P> {
    /// The notice with `give` applied to its parcel, if it has one. Takes no memory of its own.
    pub fn with_parcel<Q, F: FnOnce(P) -> Q>(self, give: F) -> Notice<Q>
        requires { F.IsAlwaysCallable give }
        ensures { IsNoticeWith (F.post give) self result }
    {
        match self {
            Notice::Request { input, frames } => Notice::Request { input, frames },
            Notice::Overflow { input } => Notice::Overflow { input },
            Notice::Underflow { input } => Notice::Underflow { input },
            Notice::Started { input } => Notice::Started { input },
            Notice::Drained { input, tag } => Notice::Drained { input, tag },
            Notice::Detached { input, parcel } => Notice::Detached {
                input,
                parcel: give(parcel),
            },
            Notice::Latency {
                input,
                tag,
                write,
                read,
                buffered,
                playing,
                run,
            } => Notice::Latency {
                input,
                tag,
                write,
                read,
                buffered,
                playing,
                run,
            },
        }
    }
}
