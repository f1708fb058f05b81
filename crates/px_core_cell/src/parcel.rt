//! A stream that moves from one sink to another, as the core under the lock carries it.

ghost use Rattle.std.specs.Prelude.{◌≡◌, IfOk};
ghost use Rattle.px_core_cell.specs.Parcel.{seen_message, seen_notice};

use px_annals::PlainStream;
use px_core::Core;
use px_msg::{Msg, Notice, Parcel};
use px_sample::Spec;
use px_stream::Stream;
use px_types::Mem;
use std::alloc::Global;
use std::marker::Model;

/// A stream between two sinks (PulseAudio: a sink input between `pa_sink_input_start_move` and `pa_sink_input_finish_move`). Contracts see
/// it as a history has it: its plain numbers and bytes.
#[derive(Debug, Drop)]
pub struct Carried {
    stream: Stream,
}

/// The core of a live server.
pub type CellCore = Core<Carried>;

impl Model for Carried {
    ghost use Rattle.px_annals.specs.declared.stream.PlainStream.{PlainStream};
    ghost use Rattle.px_core_cell.specs.Parcel.{plain_parcel};

    ghost Value = { PlainStream };

    ghost view = { λ c. plain_parcel c.stream };
}

impl Parcel for Carried {
    ghost use Rattle.px_core_cell.specs.Parcel.{spec_of};

    ghost spec_of = { spec_of };

    fn spec(&self) -> Spec {
        self.stream.spec()
    }
}

impl Carried {
    /// The whole stream, as plain numbers and bytes.
    pub(crate) fn plain(&self, alloc: Global) -> Mem<PlainStream>
        ensures { IfOk result (λ plain. plain ≡ self.now) }
    {
        self.stream.plain(alloc)
    }
}

/// A message of the core in the form for its sink's mixer: the parcel becomes a stream again. Takes no memory.
pub(crate) fn taken_over(message: Msg<Carried>) -> Msg<Stream>
    ensures { seen_message result ≡ message }
{
    message.with_parcel(|carried| carried.stream)
}

/// A message that a full mailbox handed back, in the core's form. Takes no memory.
pub(crate) fn taken_back(message: Msg<Stream>) -> Msg<Carried>
    ensures { result ≡ seen_message message }
{
    message.with_parcel(|stream| Carried { stream })
}

/// A notice of a sink's mixer in the core's form: a detached stream becomes a parcel. Takes no memory.
pub(crate) fn handed_over(notice: Notice<Stream>) -> Notice<Carried>
    ensures { result ≡ seen_notice notice }
{
    notice.with_parcel(|stream| Carried { stream })
}
