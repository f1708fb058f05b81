//! What a serving call hands back, with its statuses.

ghost use Rattle.std.specs.Prelude.{◌≡◌, ◌⊎◌, ℕ, false, true, IfSome, IsSome, None};
ghost use Rattle.px_workers.specs.declared.stop.Stop.TheVariants.{Memory, Over};
ghost use Rattle.px_server.specs.Causes.{status_of_record, status_of_fault, decided, undecided};
ghost use Rattle.px_server.specs.Hosted.{stop_by};
ghost use Rattle.px_tape.specs.Tape.{turns_in, total, at_sink, events_at};

use px_annals::RecordFault;
use px_ends::{Host, HostFault};
use px_tape::{Events, SinkTurns, Tape};
use px_types::{SinkId, Status};
use px_workers::{SinkFault, Stop};
use std::alloc::Global;

/// What the host made for a sink, once its worker has ended.
#[derive(Debug, Drop)]
pub struct LanePart<D, R> {
    pub sink: SinkId,
    pub device: D,
    pub recorder: R,
}

/// What a serving call hands back: its status, the parts of its sinks in their order, and the core's recorder, where the host made one and there was
/// memory for the core. Where a tape was asked for, the events of the server are there too, if there was room for them.
#[derive(Drop)]
pub struct Served<H: Host> {
    pub status: Status,
    pub lanes: Vec<LanePart<H::D, H::R>>,
    pub core: Option<H::C>,
    pub tape: Option<Events>,
}

/// The stop for a host's fault.
pub(crate) fn stop_by(fault: HostFault) -> Stop
    ensures { result ≡ stop_by fault }
{
    match fault {
        HostFault::NoMemory => Stop::Memory,
        HostFault::Failed => Stop::Host,
    }
}

/// The status of a recorder's fault.
pub(crate) fn status_of_record(fault: RecordFault) -> Status
    ensures { result ≡ status_of_record fault }
{
    match fault {
        RecordFault::NoMemory => Status::Memory,
        RecordFault::Full { .. } => Status::HistoryFull,
        RecordFault::Failed => Status::Host,
    }
}

/// The status for a fault of a sink's worker, where there is one.
pub(crate) fn status_of_fault(sink_fault: SinkFault) -> Option<Status>
    ensures { result ≡ status_of_fault sink_fault }
{
    match sink_fault {
        SinkFault::Nothing => None,
        SinkFault::Stopped => Some(Status::Device),
        SinkFault::Unrecorded(fault) => Some(status_of_record(fault)),
    }
}

/// The status of a call by what made it stop, the first fault of the core's recorder, and the status of the sinks' workers.
pub(crate) fn decided(stop: Stop, fault: Option<RecordFault>, sink_fault: Option<Status>) -> Status
    ensures { result ≡ decided stop fault sink_fault }
{
    match stop {
        Stop::Over => match fault {
            Some(fault) => status_of_record(fault),
            None => sink_fault.unwrap_or(Status::Ok),
        },
        Stop::Memory => Status::Memory,
        Stop::Host => Status::Host,
        Stop::Unrecorded(_) => match fault {
            Some(fault) => status_of_record(fault),
            None => Status::Memory,
        },
    }
}

/// The status of a call that has made no core, by what made it stop.
pub(crate) fn undecided(stop: Stop) -> Status
    ensures { result ≡ undecided stop }
{
    match stop {
        Stop::Host => Status::Host,
        Stop::Over | Stop::Memory | Stop::Unrecorded(_) => Status::Memory,
    }
}

/// The events of a tape, where there is one. Where memory runs out for them, a call that nothing else has stopped ends with `Memory`.
pub(crate) fn woven(
    alloc: Global,
    taped: bool,
    tape: Tape,
    turns: Vec<SinkTurns>,
    stop: Stop,
) -> (Option<Events>, Stop)
    ensures none { taped ≡ false → result.0 ≡ None }
    ensures turns { IfSome result.0 (λ events. turns_in events ≡ total turns.items) }
    ensures sinks { IfSome result.0 (λ events. (at : ℕ) → at_sink at events ≡ events_at at turns.items) }
    ensures whole { taped ≡ true → result.1 ≡ Over → IsSome result.0 }
    ensures stop { (result.1 ≡ stop) ⊎ ((stop ≡ Over) × (result.1 ≡ Memory)) }
{
    if !taped {
        return (None, stop);
    }
    match tape.into_events(alloc, turns) {
        Ok(events) => (Some(events), stop),
        Err(_) => match stop {
            Stop::Over => (None, Stop::Memory),
            other => (None, other),
        },
    }
}
