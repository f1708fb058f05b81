//! The work of one sink: its turns.
ghost use Rattle.std.specs.Prelude.{◌≡◌};
ghost use Rattle.px_workers.specs.Working.{GoesOn};

use crate::gate::Gate;
use crate::job::Job;
use crate::sink_state::{SinkState, TurnOutcome};
use crate::worker::Worker;
use px_annals::{LaneEntry, Recorder};
use px_ends::Device;
use px_worker_api::{CoreStop, Handle};

// The places of a mailbox: a turn that took this many messages found its inbox full.
const FULL: u32 = 256;

// The turns that a sink makes once the clients have gone: by the program's gate a tenth of a second, in which the frames that couldn't change any
// more are played.
const LAST_TURNS: u32 = 20;

/// The work of one sink: its turns, and the notices of each turn, which go to the core.
#[derive(Drop)]
pub(crate) struct SinkWork<W: Handle, D: Device, E: Recorder<LaneEntry>, G> {
    pub worker: Worker<W, G>,
    pub state: SinkState<D, E>,
}

impl<W, D, E, G> SinkWork<W, D, E, G>
where
    W: Handle,
    D: Device + Drop,
    E: Recorder<LaneEntry> + Drop,
    G: Gate + Drop,
{
    /// The handle and the sink, where no thread does the work.
    pub(crate) fn into_parts(self) -> (W, SinkState<D, E>)
        ensures handle { result.0 ≡ self.worker.handle }
        ensures state { result.1 ≡ self.state }
    {
        let SinkWork { worker, state } = self;
        (worker.handle, state)
    }

    // Gives the core the notices of a turn. Where the turn took a full inbox, the messages that were left in the core are posted first.
    fn give_notices(&mut self) -> Result<(), CoreStop>
        ensures parts { W.parts self.new.worker.handle ≡ W.parts self.old.worker.handle }
        ensures state { self.new.state ≡ self.old.state }
    {
        if self.state.cell.taken() == FULL {
            self.worker.handle.post(self.state.sink)?;
        }
        if self.state.cell.given() == 0 {
            return Ok(());
        }
        self.worker.handle.notices(self.state.sink)
    }

    // Runs one turn and gives the core its notices; false where no more turns can be made.
    fn turn(&mut self) -> bool
        ensures parts { W.parts self.new.worker.handle ≡ W.parts self.old.worker.handle }
        ensures goes { GoesOn self.old.state self.new.state }
    {
        let rt = self.worker.handle.rt();
        let alloc = self.worker.handle.alloc();
        let tape = self.worker.handle.tape();
        let outcome = self.state.turn(&rt, alloc, tape, &mut self.worker.blocks);
        outcome != TurnOutcome::Ended && self.give_notices().is_ok()
    }

    // Runs one turn; false once the clients are gone and `left` further turns are done.
    fn next_turn(&mut self, left: &mut u32) -> bool
        ensures parts { W.parts self.new.worker.handle ≡ W.parts self.old.worker.handle }
        ensures goes { GoesOn self.old.state self.new.state }
    {
        self.worker.gate.before_turn(self.state.sink);
        if !self.turn() {
            return false;
        }
        if self.worker.handle.is_stopping() {
            if *left == 0 {
                return false;
            }
            *left -= 1;
        }
        true
    }

    // Runs all turns, until the clients have gone and their last frames were played.
    fn run(&mut self)
        ensures parts { W.parts self.new.worker.handle ≡ W.parts self.old.worker.handle }
        ensures goes { GoesOn self.old.state self.new.state }
    {
        let rt = self.worker.handle.rt();
        let mut left = LAST_TURNS;
        for _ in rt.forever() {
            if !self.next_turn(&mut left) {
                return;
            }
        }
        unreachable!()
    }
}

impl<W, D, E, G> Job for SinkWork<W, D, E, G>
where
    W: Handle + Send,
    W::Blocks: Send,
    D: Device + Drop + Send,
    E: Recorder<LaneEntry> + Drop + Send,
    G: Gate + Drop + Send + Sync,
{
    ghost use Rattle.std.specs.Prelude.{◌≡◌, refl};
    ghost use Rattle.px_workers.specs.Working.{GoesOn};

    ghost keeps = { λ before after. (W.parts after.worker.handle ≡ W.parts before.worker.handle) × GoesOn before.state after.state };

    fn work(&mut self) {
        self.run();
    }

    ghost keeps_itself = { λ job. (refl, record { start = refl; boxes = refl; tapes = refl }) };
}
