//! The log of the steps done under the core's lock: their count and their record.

ghost use Rattle.std.specs.Prelude.{◌≡◌, ◌+◌, ◌-◌, ◌^◌, ◌<◌, OnOk, MatchResult};
ghost use Rattle.std.proofs.Props.{props};
ghost use Rattle.px_annals.specs.History.{noted};
ghost use Rattle.px_annals.specs.Size.{size_of_core_entry};
ghost use Rattle.px_core_cell.specs.Cause.{IsCaused, ReadyFails, Says, IsCalm};

use crate::step::StepFault;
use px_annals::{CoreEntry, RecordFault, Recorder};

/// The recorder of the core's history with its first fault, the number of steps done, and whether a sweep is owed: each step
/// that is neither a sweep nor the handing out of messages owes one, until the next sweep.
#[derive(Drop)]
pub struct StepLog<C: Recorder<CoreEntry>> {
    pub recorder: C,
    pub fault: Option<RecordFault>,
    pub steps: u64,
    pub owed: bool,
    pub ghost caused: { IsCaused fault (C.faults recorder) (C.fulls recorder) } by { Prim.hlevel props },
}

impl<C: Recorder<CoreEntry>> StepLog<C> {
    /// Reserves room in the recorder for an entry of `bytes` bytes. Its first fault is noted.
    pub(crate) fn ready(&mut self, bytes: usize) -> Result<(), StepFault>
        ensures takes { OnOk result (C.takes self.new.recorder bytes) }
        ensures visible { C.visible self.new.recorder ≡ C.visible self.old.recorder }
        ensures fault { MatchResult result (λ _. self.new.fault ≡ self.old.fault) (λ e. ReadyFails e self.old.fault self.new.fault) }
        ensures steps { self.new.steps ≡ self.old.steps }
        ensures owed { self.new.owed ≡ self.old.owed }
        ensures said { Says C.limit C.visible C.faults C.fulls result self.old.recorder self.new.recorder }
    {
        match self.recorder.ready(bytes) {
            Ok(()) => Ok(()),
            Err(why) => {
                self.fault = self.fault.or(Some(why));
                Err(StepFault::Recorder(why))
            }
        }
    }

    /// Notes a step that was done, and sets whether a sweep is owed. Takes no memory.
    pub(crate) fn note(&mut self, entry: CoreEntry, owed: bool)
        requires takes { C.takes self.old.recorder (size_of_core_entry entry) }
        requires steps { self.old.steps < 2 ^ 64 - 1 }
        ensures visible { C.visible self.new.recorder ≡ noted entry (C.visible self.old.recorder) }
        ensures fault { self.new.fault ≡ self.old.fault }
        ensures steps { self.new.steps ≡ self.old.steps + 1 }
        ensures owed { self.new.owed ≡ owed }
        ensures calm { IsCalm C.limit C.visible C.faults C.fulls self.old.recorder self.new.recorder }
    {
        self.recorder.note(entry);
        self.steps += 1;
        self.owed = owed;
    }
    /// Counts a step that was done and whose entry nobody keeps, and sets whether a sweep is owed. Takes no memory.
    pub(crate) fn count(&mut self, owed: bool)
        requires { self.old.steps < 2 ^ 64 - 1 }
        ensures recorder { self.new.recorder ≡ self.old.recorder }
        ensures fault { self.new.fault ≡ self.old.fault }
        ensures steps { self.new.steps ≡ self.old.steps + 1 }
        ensures owed { self.new.owed ≡ owed }
    {
        self.steps += 1;
        self.owed = owed;
    }
}
