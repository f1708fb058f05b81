//! A stream on its way from one sink to another, as the core carries it.
ghost use Rattle.std.specs.Prelude.{◌≡◌};
ghost use Rattle.px_msg.specs.View.{message_of, notice_for};
ghost use Rattle.px_lane.specs.Lists.{plain_message, plain_notice};

use px_msg::{Msg, Notice, Parcel};
use px_sample::Spec;
use px_stream::Stream;
use std::marker::Model;

/// A stream between two sinks (PulseAudio: a sink input between `pa_sink_input_start_move` and `pa_sink_input_finish_move`). Contracts see the stream
/// alone, without its spare room.
#[derive(Debug, Drop)]
pub struct Carried {
    stream: Stream,
}

impl Model for Carried {
    ghost use Rattle.px_model.specs.Stream.{Stream};

    ghost Value = { Stream };

    ghost view = { λ c. c.stream.stream };
}

impl Parcel for Carried {
    ghost use Rattle.px_model.specs.Stream.{Stream as Plain};

    ghost spec_of = { Plain.spec };

    fn spec(&self) -> Spec {
        self.stream.spec()
    }
}

/// Converts a message of the core for the sink's mixer: a carried stream becomes a stream. Takes no memory.
pub(crate) fn taken_over(message: Msg<Carried>) -> Msg<Stream>
    ensures { plain_message result ≡ message_of (λ s. s) message }
{
    message.with_parcel(|carried| carried.stream)
}

/// Converts a notice of a sink's mixer for the core: a stream that leaves is carried. Takes no memory.
pub(crate) fn handed_over(notice: Notice<Stream>) -> Notice<Carried>
    ensures { result ≡ notice_for (plain_notice notice) }
{
    notice.with_parcel(|stream| Carried { stream })
}
