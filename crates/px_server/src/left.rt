//! What is left of sinks not owned by a running worker.
ghost use Rattle.std.specs.Prelude.{◌≡◌, ◌+◌, ◌≤◌, ◌<◌, ◌++◌, ◌∷◌, [], List, Option, None, length, map, IfSome, vec_len, vec_capacity};
ghost use Rattle.px_annals.specs.declared.entry.CoreEntry.{CoreEntry as Entry};
ghost use Rattle.px_annals.specs.declared.stream.PlainStream.{PlainStream};
ghost use Rattle.px_state.specs.State.{State};
ghost use Rattle.px_header.specs.declared.header.SinkSpec.{SinkSpec};
ghost use Rattle.px_core_cell.specs.Boxes.{boxes_of};
ghost use Rattle.px_core_cell.specs.Cause.{IsCaused};
ghost use Rattle.px_core_cell.specs.Cell.{ends_of};
ghost use Rattle.px_core_cell.specs.History.{IsAgreed};
ghost use Rattle.px_lane_cell.specs.History.{unturned};
ghost use Rattle.px_workers.specs.declared.sink_state.SinkFault.{SinkFault as Seen};
ghost use Rattle.px_server.specs.Delivered.{IsDelivered};
ghost use Rattle.px_workers.specs.Working.{start_at, start_of, IsHonest};
ghost use Rattle.px_server.specs.Parts.{worked, unworked, starts_of, IsPart, AreParts, AreAgreed};
ghost use Rattle.px_server.specs.Serving.{first_met};
ghost use Rattle.px_server.specs.Taped.{AreTaping, AreTurnsOf};
ghost use Rattle.px_server.specs.Mailboxes.{boxes_at, boxes_in};
ghost use Rattle.px_tape.specs.Tape.{Turns};

use crate::served::{LanePart, status_of_fault};
use px_annals::{CoreEntry, LaneEntry, RecordFault, Recorder};
use px_cell::{
    CoreEnd, CoreEnds, CoreParts, LaneCell, LaneCellParts, LaneEnds, LanePasses, Seats, StepLog,
};
use px_ends::{Device, Outlet};
use px_shared::CoreHandle;
use px_tape::SinkTurns;
use px_types::{SinkId, Status};
use px_workers::SinkState;
use std::collections::VecDeque;
use std::sync::Wait;

// Takes a sink apart, where there is no core.
fn part_of<D: Device + Drop, E: Recorder<LaneEntry> + Drop>(idle: SinkState<D, E>) -> LanePart<D, E>
    ensures { (began : State PlainStream) → IsPart began None D.now E.visible E.faults E.fulls (unworked idle) result }
{
    let parts = idle.cell.into_parts();
    LanePart {
        sink: idle.sink,
        device: parts.lane.into_device(),
        recorder: parts.recorder,
    }
}

/// Takes the sinks apart, where there is no core. Takes no memory.
pub(crate) fn hand_back<D: Device + Drop, E: Recorder<LaneEntry> + Drop>(
    idle: &mut VecDeque<SinkState<D, E>>,
    lanes: &mut Vec<LanePart<D, E>>,
)
    requires none { lanes.old.items ≡ [] }
    requires room { length idle.old.items ≤ vec_capacity lanes.old }
    ensures { (began : State PlainStream) → AreParts began None D.now E.visible E.faults E.fulls (map unworked idle.old.items) lanes.new.items }
{
    while let Some(sink) = idle.pop_front() {
        lanes.push(part_of(sink)).unwrap();
    }
}

// Takes a sink apart, and closes its mailboxes with the core's ends of them.
fn closed<D: Device + Drop, E: Recorder<LaneEntry> + Drop>(
    sink: SinkId,
    cell: LaneCell<D, E>,
    end: CoreEnd,
) -> LanePart<D, E>
    requires { boxes_at cell.ends ≡ boxes_of end }
    ensures part { (began : State PlainStream) (sink_fault : Seen) → IsHonest D.now E.faults E.fulls cell sink_fault
        → IsPart began None D.now E.visible E.faults E.fulls (worked (start_at sink cell.lane.sink) sink_fault) result }
    ensures delivered { (began : State PlainStream) (entries : List Entry) → IsAgreed began entries sink.0 (ends_of end)
        → IfSome (E.visible result.recorder) (IsDelivered began entries sink (unturned cell.lane.sink)) }
    ensures recorder { (result.sink ≡ sink) × (result.recorder ≡ cell.recorder) }
{
    let LaneCellParts {
        lane,
        recorder,
        ends,
        ..
    } = cell.into_parts();
    let LaneEnds {
        boxes,
        passes: LanePasses { take, post },
    } = ends;
    boxes.inbox.close(end.post, take);
    boxes.outbox.close(post, end.take);
    LanePart {
        sink,
        device: lane.into_device(),
        recorder,
    }
}

// Appends the turns of one more sink, where there is a tape.
fn add_turns(turns: &mut Vec<SinkTurns>, made: Option<SinkTurns>)
    requires { vec_len turns.old < vec_capacity turns.old }
    ensures room { (vec_len turns.new ≤ vec_len turns.old + 1) × (vec_capacity turns.old ≤ vec_capacity turns.new) }
    ensures more { IfSome made (λ t. turns.new.items ≡ turns.old.items ++ t ∷ []) }
{
    if let Some(made) = made {
        turns.push(made).unwrap();
    }
}

// Takes the sinks apart, closes their mailboxes with the core's ends of them, and gives the status of the first fault of their workers. The turns
// that they made for a tape are appended. Takes no memory.
fn close_all<D: Device + Drop, E: Recorder<LaneEntry> + Drop>(
    idle: &mut VecDeque<SinkState<D, E>>,
    ends: CoreEnds,
    lanes: &mut Vec<LanePart<D, E>>,
    turns: &mut Vec<SinkTurns>,
) -> Option<Status>
    requires boxes { map boxes_in idle.old.items ≡ map boxes_of ends.items }
    requires none { lanes.old.items ≡ [] }
    requires room { length idle.old.items ≤ vec_capacity lanes.old }
    requires no_turns { turns.old.items ≡ [] }
    requires turns_room { length idle.old.items ≤ vec_capacity turns.old }
    ensures turns { AreTaping idle.old.items → AreTurnsOf E.visible lanes.new.items turns.new.items }
    ensures sink_fault { result ≡ first_met (map unworked idle.old.items) }
    ensures parts { (began : State PlainStream) (core : Option (List Entry)) → AreAgreed began core idle.old.items ends.items
        → AreParts began core D.now E.visible E.faults E.fulls (map unworked idle.old.items) lanes.new.items }
{
    let mut ends = VecDeque::from_vec(ends);
    let mut first = None;
    while let Some(
        SinkState {
            sink,
            cell,
            sink_fault,
            turns: made,
        },
    ) = idle.pop_front()
    {
        let Some(end) = ends.pop_front() else {
            unreachable!()
        };
        first = first.or(status_of_fault(sink_fault));
        add_turns(turns, made);
        lanes.push(closed(sink, cell, end)).unwrap();
    }
    first
}

/// What the core's lock guarded besides its ends of the mailboxes, and the status of the first fault of the sinks' workers.
#[derive(Drop)]
pub(crate) struct CoreLeft<C> {
    pub recorder: C,
    pub fault: Option<RecordFault>,
    pub sink_fault: Option<Status>,
}

// What the core's lock guarded besides the core itself.
fn without_core<C: Recorder<CoreEntry> + Drop>(parts: CoreParts<C>) -> (StepLog<C>, CoreEnds)
    ensures log { result.0 ≡ parts.log }
    ensures ends { result.1 ≡ parts.ends }
{
    let CoreParts { core, log, ends } = parts;
    drop(core);
    (log, ends)
}

/// What is left of the core, and of the sinks (`close_all`), by a handle with all shares. Takes no memory.
pub(crate) fn close_with<R, D, E, C, L, O>(
    handle: CoreHandle<R, C, L, O>,
    idle: &mut VecDeque<SinkState<D, E>>,
    lanes: &mut Vec<LanePart<D, E>>,
    turns: &mut Vec<SinkTurns>,
) -> CoreLeft<C>
where
    R: Wait + Copy + Drop,
    D: Device + Drop,
    E: Recorder<LaneEntry> + Drop,
    C: Recorder<CoreEntry> + Drop,
    L: Seats,
    O: Outlet + Drop,
    requires seats { handle.seat.parts ≡ L.all }
    requires sinks { (sinks : List SinkSpec) × (map start_of idle.old.items ≡ starts_of sinks) }
    requires boxes { map boxes_in idle.old.items ≡ L.boxes }
    requires none { lanes.old.items ≡ [] }
    requires room { length idle.old.items ≤ vec_capacity lanes.old }
    requires no_turns { turns.old.items ≡ [] }
    requires turns_room { length idle.old.items ≤ vec_capacity turns.old }
    ensures turns { AreTaping idle.old.items → AreTurnsOf E.visible lanes.new.items turns.new.items }
    ensures sink_fault { result.sink_fault ≡ first_met (map unworked idle.old.items) }
    ensures parts { AreParts L.began (C.visible result.recorder) D.now E.visible E.faults E.fulls (map unworked idle.old.items) lanes.new.items }
    ensures caused { IsCaused result.fault (C.faults result.recorder) (C.fulls result.recorder) }
{
    let (log, ends) = without_core(handle.into_core());
    let sink_fault = close_all(idle, ends, lanes, turns);
    CoreLeft {
        recorder: log.recorder,
        fault: log.fault,
        sink_fault,
    }
}
