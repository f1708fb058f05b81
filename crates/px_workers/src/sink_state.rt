//! A sink of the server, and its turns.
ghost use Rattle.std.specs.Prelude.{◌≡◌, ◌<◌, true, Some, length};
ghost use Rattle.px_types.specs.declared.ids.SinkId.{SinkId};
ghost use Rattle.px_lane_cell.specs.History.{unturned};
ghost use Rattle.px_workers.specs.declared.sink_state.SinkFault.TheVariants.{Nothing};
ghost use Rattle.px_workers.specs.Working.{IsHonest, AreTaped, Notes, GoesOn};

use px_annals::{LaneEntry, RecordFault, Recorder};
use px_block::BlockSource;
use px_ends::Device;
use px_lane::Turned;
use px_lane_cell::{CellFault, LaneCell};
use px_tape::{SinkTurns, Tape};
use px_types::SinkId;
use std::alloc::Global;
use std::marker::Model;
use std::sync::{Mutex, Wait};

/// The first fault that a sink's worker came upon.
#[derive(Clone, Copy, Debug, PartialEq, Eq)]
pub enum SinkFault {
    /// Nothing.
    Nothing,
    /// The sink's device has failed, and the sink has stopped.
    Stopped,
    /// The sink's recorder wasn't ready.
    Unrecorded(RecordFault),
}

/// The outcome of a turn.
#[derive(Clone, Copy, PartialEq, Eq)]
pub(crate) enum TurnOutcome {
    /// It was made, and the sink's device consumed this number of frames in it, `None` where it failed in this turn or before.
    Made(Option<u32>),
    /// It wasn't made, as memory ran out; the next one may be.
    NotYet,
    /// It wasn't made, and no more can be.
    Ended,
}

// Runs one turn of a cell. Its first fault is noted in `sink_fault`.
fn turn_once<W, D, E, B>(
    rt: &W,
    alloc: Global,
    cell: &mut LaneCell<D, E>,
    sink_fault: &mut SinkFault,
    blocks: &mut B,
) -> TurnOutcome
where
    W: Wait,
    D: Device + Drop,
    E: Recorder<LaneEntry> + Drop,
    B: BlockSource,
    ensures noted { Notes E.visible result cell.old.recorder cell.new.recorder cell.new.taken }
    ensures honest { IsHonest D.now E.faults E.fulls cell.old sink_fault.old → IsHonest D.now E.faults E.fulls cell.new sink_fault.new }
    ensures start { unturned cell.new.lane.sink ≡ unturned cell.old.lane.sink }
    ensures boxes { cell.new.ends.boxes ≡ cell.old.ends.boxes }
{
    match cell.turn(rt, alloc, blocks) {
        Ok(Turned::Played { frames, .. }) => TurnOutcome::Made(Some(frames)),
        Ok(Turned::Stopped { .. }) => {
            if *sink_fault == SinkFault::Nothing {
                *sink_fault = SinkFault::Stopped;
            }
            TurnOutcome::Made(None)
        }
        Err(CellFault::NoMemory) => TurnOutcome::NotYet,
        Err(CellFault::Worn { .. }) => TurnOutcome::Ended,
        Err(CellFault::Recorder(fault)) => {
            if *sink_fault == SinkFault::Nothing {
                *sink_fault = SinkFault::Unrecorded(fault);
            }
            if fault == RecordFault::NoMemory {
                TurnOutcome::NotYet
            } else {
                TurnOutcome::Ended
            }
        }
    }
}

// Takes room for one more turn on the tape. False where there is no memory.
fn is_ready(tape: &mut Tape, turns: &mut SinkTurns) -> bool
    ensures tape { result ≡ true → length tape.new.marks < tape.new.capacity }
    ensures own { result ≡ true → length turns.new.turns < turns.new.capacity }
    ensures turns { turns.new.turns ≡ turns.old.turns }
    ensures same { (turns.new.sink ≡ turns.old.sink) × (turns.new.failed ≡ turns.old.failed) }
{
    match tape.ready(1) {
        Ok(()) => match turns.ready() {
            Ok(()) => true,
            Err(_) => false,
        },
        Err(_) => false,
    }
}

// Runs one turn of a cell, which goes onto the tape where it was made. The tape is locked meanwhile, and has room for it before.
fn turn_taped<W, D, E, B>(
    rt: &W,
    alloc: Global,
    tape: &Mutex<Tape>,
    turns: &mut SinkTurns,
    cell: &mut LaneCell<D, E>,
    sink_fault: &mut SinkFault,
    blocks: &mut B,
) -> TurnOutcome
where
    W: Wait,
    D: Device + Drop,
    E: Recorder<LaneEntry> + Drop,
    B: BlockSource,
    ensures taped { (sink : SinkId) → AreTaped E.visible sink cell.old.recorder (Some turns.old) → AreTaped E.visible sink cell.new.recorder (Some turns.new) }
    ensures honest { IsHonest D.now E.faults E.fulls cell.old sink_fault.old → IsHonest D.now E.faults E.fulls cell.new sink_fault.new }
    ensures start { unturned cell.new.lane.sink ≡ unturned cell.old.lane.sink }
    ensures boxes { cell.new.ends.boxes ≡ cell.old.ends.boxes }
{
    let mut tape = tape.lock(rt);
    if !is_ready(&mut tape, turns) {
        return TurnOutcome::NotYet;
    }
    match turn_once(rt, alloc, cell, sink_fault, blocks) {
        TurnOutcome::Made(consumed) => {
            tape.add_turn(turns, consumed, cell.taken());
            TurnOutcome::Made(consumed)
        }
        TurnOutcome::NotYet => TurnOutcome::NotYet,
        TurnOutcome::Ended => TurnOutcome::Ended,
    }
}

/// A sink with its mixer, the first fault that its worker came upon, and, where there is a tape, the turns that it has made. Outside of its
/// worker it is a sink not owned by a running worker.
#[derive(Drop)]
pub struct SinkState<D: Device, E: Recorder<LaneEntry>> {
    pub sink: SinkId,
    pub cell: LaneCell<D, E>,
    pub sink_fault: SinkFault,
    pub turns: Option<SinkTurns>,
}

impl<D: Device, E: Recorder<LaneEntry>> Model for SinkState<D, E> {
    ghost use Rattle.px_workers.specs.Working.{Unworked, IsHonest, AreTaped};

    ghost Value = { Unworked D E };

    ghost view = { λ l. record { sink = l.sink; cell = l.cell; sink_fault = l.sink_fault; turns = l.turns } };

    ghost invariant = { λ l. IsHonest D.now E.faults E.fulls l.cell l.sink_fault × AreTaped E.visible l.sink l.cell.recorder l.turns };
}

impl<D: Device + Drop, E: Recorder<LaneEntry> + Drop> SinkState<D, E> {
    /// A sink before its worker has started.
    pub fn new(sink: SinkId, cell: LaneCell<D, E>, turns: Option<SinkTurns>) -> SinkState<D, E>
        requires honest { IsHonest D.now E.faults E.fulls cell Nothing }
        requires taped { AreTaped E.visible sink cell.recorder turns }
        ensures { result ≡ record { sink = sink; cell = cell; sink_fault = Nothing; turns = turns } }
    {
        SinkState {
            sink,
            cell,
            sink_fault: SinkFault::Nothing,
            turns,
        }
    }

    /// Runs one turn, which goes onto the tape where there is one.
    pub(crate) fn turn<W: Wait, B: BlockSource>(
        &mut self,
        rt: &W,
        alloc: Global,
        tape: &Mutex<Tape>,
        blocks: &mut B,
    ) -> TurnOutcome
        ensures { GoesOn self.old self.new }
    {
        match &mut self.turns {
            Some(turns) => turn_taped(
                rt,
                alloc,
                tape,
                turns,
                &mut self.cell,
                &mut self.sink_fault,
                blocks,
            ),
            None => turn_once(rt, alloc, &mut self.cell, &mut self.sink_fault, blocks),
        }
    }
}
