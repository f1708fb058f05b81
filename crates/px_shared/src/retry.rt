//! A worker's steps of the core, made again while a sweep is owed or memory is short.

ghost use Rattle.std.specs.Prelude.{◌≡◌};
ghost use Rattle.px_core_cell.specs.Step.{IsAsked, HandsBack};

use crate::handle::CoreHandle;
use crate::retryable::{RetryableStep, core_step_of};
use crate::step::{Stepped, step_queued, step_taped};
use px_annals::{CoreEntry, RecordFault, Recorder};
use px_core_cell::{CoreStep, Seats, StepFault};
use px_ends::Outlet;
use px_types::{Mem, NoMemory};
use px_worker_api::CoreStop;
use std::sync::Wait;
use std::thread::yield_now;

// Whether a sweep is over: one that found no memory isn't.
fn is_swept(swept: Result<Stepped, StepFault>) -> Result<bool, CoreStop> {
    match swept {
        Ok(_) | Err(StepFault::Owed(_)) => Ok(true),
        Err(StepFault::NoMemory) | Err(StepFault::Recorder(RecordFault::NoMemory)) => Ok(false),
        Err(StepFault::Worn) => Err(CoreStop::Worn),
        Err(StepFault::Recorder(fault)) => Err(CoreStop::Unrecorded(fault)),
    }
}

impl<R: Wait + Copy, C: Recorder<CoreEntry> + Drop, L: Seats, O: Outlet + Drop> CoreHandle<
    R,
    C,
    L,
    O,
> {
    // Makes a step once, which goes onto the tape where there is one.
    fn step_once(&mut self, step: CoreStep) -> Result<Stepped, StepFault>
        requires lawful { IsAsked step }
        ensures seat { self.new.seat.parts ≡ self.old.seat.parts }
        ensures back { HandsBack step result }
    {
        if self.shared.taped {
            step_taped(&self.rt, self.alloc, &self.shared, step, &mut self.seat)
        } else {
            step_queued(&self.rt, self.alloc, &self.shared, step, &mut self.seat)
        }
    }

    /// Makes the sweep that `stepped` still owes, again until there is memory.
    pub(crate) fn sweep_owed(&mut self, stepped: Stepped) -> Result<(), CoreStop>
        ensures seat { self.new.seat.parts ≡ self.old.seat.parts }
    {
        match stepped {
            Stepped::Done => self.sweep(),
            Stepped::Swept | Stepped::Posted | Stepped::Nothing => Ok(()),
        }
    }

    // Sweeps, again until there is memory.
    fn sweep(&mut self) -> Result<(), CoreStop>
        ensures seat { self.new.seat.parts ≡ self.old.seat.parts }
    {
        let rt = self.rt;
        for _ in rt.forever() {
            if is_swept(self.step_once(CoreStep::Sweep))? {
                return Ok(());
            }
            yield_now();
        }
        unreachable!()
    }

    /// Makes a step. Where a sweep is owed, that is made first. Without memory the step is given up.
    pub(crate) fn step(&mut self, step: CoreStep) -> Result<Mem<Stepped>, CoreStop>
        requires lawful { IsAsked step }
        ensures seat { self.new.seat.parts ≡ self.old.seat.parts }
    {
        let rt = self.rt;
        let mut step = step;
        for _ in rt.forever() {
            match self.step_once(step) {
                Ok(stepped) => return Ok(Ok(stepped)),
                Err(StepFault::NoMemory) | Err(StepFault::Recorder(RecordFault::NoMemory)) => {
                    return Ok(Err(NoMemory));
                }
                Err(StepFault::Worn) => return Err(CoreStop::Worn),
                Err(StepFault::Recorder(fault)) => return Err(CoreStop::Unrecorded(fault)),
                Err(StepFault::Owed(back)) => {
                    self.sweep()?;
                    step = back;
                }
            }
        }
        unreachable!()
    }

    /// Makes a step, again until there is memory.
    pub(crate) fn step_until_memory(&mut self, step: RetryableStep) -> Result<Stepped, CoreStop>
        ensures seat { self.new.seat.parts ≡ self.old.seat.parts }
    {
        let rt = self.rt;
        for _ in rt.forever() {
            match self.step(core_step_of(step))? {
                Ok(stepped) => return Ok(stepped),
                Err(NoMemory) => yield_now(),
            }
        }
        unreachable!()
    }
}
