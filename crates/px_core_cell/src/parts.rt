//! The content of the core's lock, and its steps.

ghost use Rattle.std.specs.Prelude.{◌≡◌, ◌-◌, ◌^◌, ◌<◌, Some, true, length, slice_get, Ok, Err, IfOk, MatchResult, map};
ghost use Rattle.px_header.specs.declared.header.SinkSpec.{SinkSpec};
ghost use Rattle.px_core.specs.Consistency.{IsConsistent};
ghost use Rattle.px_core_cell.specs.declared.step.CoreStep.TheVariants as asked;
ghost use Rattle.px_core_cell.specs.Cell.{ends_of, logged_of, cell_of, calls_of, calls_in};
ghost use Rattle.px_core_cell.specs.History.{IsHeard, IsSound, first_cell};
ghost use Rattle.px_core_cell.specs.Boxes.{boxes_of};
ghost use Rattle.px_core_cell.specs.Cause.{Says, StepSays};
ghost use Rattle.px_core_cell.specs.Parcel.{spec_of};
ghost use Rattle.px_core_cell.specs.Step.{is_own, waits, IsAsked, IsFree, OwnGives, NoticeGives, OutGives, NowhereGives, FreeGives, StepGives, OutStops, NoticeStops, Stops, IsNothing};

use crate::ends::{CoreEnd, CoreEnds};
use crate::kept::{notice_kept, own_kept};
use crate::log::StepLog;
use crate::parcel::CellCore;
use crate::step::{CoreStep, StepFault};
use crate::unkept::{notice_unkept, own_unkept};
use px_annals::{CoreEntry, PlainStep, Recorder};
use px_core::Effects;
use px_types::SinkId;
use std::alloc::Global;
use std::sync::Wait;

/// The core, the log of its steps, and its ends of each sink's mailboxes.
#[derive(Drop)]
pub struct CoreParts<C: Recorder<CoreEntry>> {
    pub core: CellCore,
    pub log: StepLog<C>,
    pub ends: CoreEnds,
}

// Does a step without a sink; its entry is recorded where the recorder keeps entries.
fn own_step<C: Recorder<CoreEntry>>(
    alloc: Global,
    core: &mut CellCore,
    log: &mut StepLog<C>,
    step: CoreStep,
) -> Result<Effects, StepFault>
    requires own { is_own step ≡ true }
    requires asked { IsAsked step }
    requires countable { log.old.steps < 2 ^ 64 - 1 }
    ensures gives { OwnGives C.visible step (logged_of core.old.state log.old) (logged_of core.new.state log.new) result }
    ensures said { Says C.limit C.visible C.faults C.fulls result log.old.recorder log.new.recorder }
{
    if log.recorder.keeps() {
        own_kept(alloc, core, log, step)
    } else {
        own_unkept(alloc, core, log, step)
    }
}

// Does the step of a sink's next notice, if there is one; its entry is recorded where the recorder keeps entries.
fn notice_step<C: Recorder<CoreEntry>, R: Wait>(
    rt: &R,
    alloc: Global,
    core: &mut CellCore,
    log: &mut StepLog<C>,
    end: &mut CoreEnd,
    sink: SinkId,
) -> Result<Option<Effects>, StepFault>
    requires countable { log.old.steps < 2 ^ 64 - 1 }
    requires exists { sink.0 < length core.old.state.sinks }
    ensures gives { NoticeGives C.visible sink.0 (logged_of core.old.state log.old) (logged_of core.new.state log.new) (ends_of end.old) (ends_of end.new) result }
    ensures stops { NoticeStops (calls_of end.old) (calls_of end.new) result }
    ensures said { StepSays C.limit C.visible C.faults C.fulls result log.old.recorder log.new.recorder }
    ensures boxes { boxes_of end.new ≡ boxes_of end.old }
{
    if log.recorder.keeps() {
        notice_kept(rt, alloc, core, log, end, sink)
    } else {
        notice_unkept(rt, core, log, end, sink)
    }
}

// Posts the messages queued for a sink to its inbox.
fn out_step<C: Recorder<CoreEntry>, R: Wait>(
    rt: &R,
    alloc: Global,
    core: &mut CellCore,
    log: &mut StepLog<C>,
    end: &mut CoreEnd,
    sink: SinkId,
) -> Result<Effects, StepFault>
    requires countable { log.old.steps < 2 ^ 64 - 1 }
    requires consistent { IsConsistent spec_of core.old.state }
    requires heard { (s : SinkSpec) × (slice_get core.old.state.sinks sink.0 ≡ Some s) × IsHeard core.old.state sink.0 s (ends_of end.old) }
    ensures gives { OutGives C.visible sink (logged_of core.old.state log.old) (logged_of core.new.state log.new) (ends_of end.old) (ends_of end.new) result }
    ensures stops { OutStops sink core.new.state (calls_of end.old) (calls_of end.new) result }
    ensures said { Says C.limit C.visible C.faults C.fulls result log.old.recorder log.new.recorder }
    ensures boxes { boxes_of end.new ≡ boxes_of end.old }
{
    log.ready(64)?;
    let count = end.post_waiting(rt, core, sink);
    let owed = log.owed;
    log.note(
        CoreEntry {
            step: PlainStep::Out {
                sink: sink.0,
                count,
            },
        },
        owed,
    );
    Ok(Effects::new(alloc))
}

// The step that posts nothing, to a sink that doesn't exist.
fn nowhere_step<C: Recorder<CoreEntry>>(
    alloc: Global,
    log: &mut StepLog<C>,
    sink: SinkId,
) -> Result<Effects, StepFault>
    requires countable { log.old.steps < 2 ^ 64 - 1 }
    ensures gives { NowhereGives C.visible sink.0 log.old log.new result }
    ensures said { Says C.limit C.visible C.faults C.fulls result log.old.recorder log.new.recorder }
{
    log.ready(64)?;
    let owed = log.owed;
    log.note(
        CoreEntry {
            step: PlainStep::Out {
                sink: sink.0,
                count: 0,
            },
        },
        owed,
    );
    Ok(Effects::new(alloc))
}

impl<C: Recorder<CoreEntry>> CoreParts<C> {
    /// Those of a core before its first step, with a recorder that never failed and never was full. Takes no memory.
    pub(crate) fn new(core: CellCore, recorder: C, ends: CoreEnds) -> CoreParts<C>
        requires { (C.faults recorder ≡ 0) × (C.fulls recorder ≡ 0) }
        ensures cell { cell_of result ≡ first_cell core.state recorder (map ends_of ends.items) }
        ensures ends { result.ends ≡ ends }
    {
        CoreParts {
            core,
            log: StepLog {
                recorder,
                fault: None,
                steps: 0,
                owed: false,
            },
            ends,
        }
    }

    // Does the step of a sink's notice, where more steps can be counted.
    fn notice<R: Wait>(
        &mut self,
        rt: &R,
        alloc: Global,
        sink: SinkId,
    ) -> Result<Option<Effects>, StepFault>
        requires countable { self.old.log.steps < 2 ^ 64 - 1 }
        requires sound { IsSound (cell_of self.old) }
        ensures gives { FreeGives C.visible (asked.Notice sink) (cell_of self.old) (cell_of self.new) result }
        ensures stops { Stops (asked.Notice sink) self.new.core.state (calls_in self.old) (calls_in self.new) result }
        ensures said { StepSays C.limit C.visible C.faults C.fulls result self.old.log.recorder self.new.log.recorder }
        ensures boxes { map boxes_of self.new.ends.items ≡ map boxes_of self.old.ends.items }
    {
        let CoreParts { core, log, ends } = self;
        let place = sink.0 as usize;
        if place < ends.len() {
            notice_step(rt, alloc, core, log, &mut ends[place], sink)
        } else {
            Ok(None)
        }
    }

    // Does the step that posts the messages queued for a sink, where more steps can be counted.
    fn out<R: Wait>(&mut self, rt: &R, alloc: Global, sink: SinkId) -> Result<Effects, StepFault>
        requires countable { self.old.log.steps < 2 ^ 64 - 1 }
        requires sound { IsSound (cell_of self.old) }
        ensures gives { MatchResult result (λ effects. FreeGives C.visible (asked.Out sink) (cell_of self.old) (cell_of self.new) (Ok (Some effects))) (λ e. FreeGives C.visible (asked.Out sink) (cell_of self.old) (cell_of self.new) (Err e)) }
        ensures stops { IfOk result (λ effects. Stops (asked.Out sink) self.new.core.state (calls_in self.old) (calls_in self.new) (Ok (Some effects))) }
        ensures said { Says C.limit C.visible C.faults C.fulls result self.old.log.recorder self.new.log.recorder }
        ensures boxes { map boxes_of self.new.ends.items ≡ map boxes_of self.old.ends.items }
    {
        let CoreParts { core, log, ends } = self;
        let place = sink.0 as usize;
        if place < ends.len() {
            out_step(rt, alloc, core, log, &mut ends[place], sink)
        } else {
            nowhere_step(alloc, log, sink)
        }
    }

    // Does a step without a sink, where more steps can be counted.
    fn own(&mut self, alloc: Global, step: CoreStep) -> Result<Effects, StepFault>
        requires own { is_own step ≡ true }
        requires asked { IsAsked step }
        requires countable { self.old.log.steps < 2 ^ 64 - 1 }
        ensures gives { MatchResult result (λ effects. FreeGives C.visible step (cell_of self.old) (cell_of self.new) (Ok (Some effects))) (λ e. FreeGives C.visible step (cell_of self.old) (cell_of self.new) (Err e)) }
        ensures said { Says C.limit C.visible C.faults C.fulls result self.old.log.recorder self.new.log.recorder }
        ensures boxes { map boxes_of self.new.ends.items ≡ map boxes_of self.old.ends.items }
    {
        let CoreParts { core, log, ends: _ } = self;
        own_step(alloc, core, log, step)
    }

    // Does a step for which no sweep is owed, where more steps can be counted.
    fn free_step<R: Wait>(
        &mut self,
        rt: &R,
        alloc: Global,
        step: CoreStep,
    ) -> Result<Option<Effects>, StepFault>
        requires asked { IsAsked step }
        requires countable { self.old.log.steps < 2 ^ 64 - 1 }
        requires sound { IsSound (cell_of self.old) }
        ensures gives { FreeGives C.visible step (cell_of self.old) (cell_of self.new) result }
        ensures stops { Stops step self.new.core.state (calls_in self.old) (calls_in self.new) result }
        ensures said { StepSays C.limit C.visible C.faults C.fulls result self.old.log.recorder self.new.log.recorder }
        ensures nothing { IsNothing step result }
        ensures boxes { map boxes_of self.new.ends.items ≡ map boxes_of self.old.ends.items }
    {
        match step {
            CoreStep::Notice(sink) => self.notice(rt, alloc, sink),
            CoreStep::Out(sink) => match self.out(rt, alloc, sink) {
                Ok(effects) => Ok(Some(effects)),
                Err(fault) => Err(fault),
            },
            step => match self.own(alloc, step) {
                Ok(effects) => Ok(Some(effects)),
                Err(fault) => Err(fault),
            },
        }
    }

    /// Does a step, as `CoreState::step` states.
    pub(crate) fn step<R: Wait>(
        &mut self,
        rt: &R,
        alloc: Global,
        step: CoreStep,
    ) -> Result<Option<Effects>, StepFault>
        requires asked { IsAsked step }
        requires sound { IsSound (cell_of self.old) }
        ensures gives { StepGives C.visible step (cell_of self.old) (cell_of self.new) result }
        ensures stops { Stops step self.new.core.state (calls_in self.old) (calls_in self.new) result }
        ensures said { StepSays C.limit C.visible C.faults C.fulls result self.old.log.recorder self.new.log.recorder }
        ensures nothing { IsNothing step result }
        ensures boxes { map boxes_of self.new.ends.items ≡ map boxes_of self.old.ends.items }
    {
        if self.log.owed && waits(&step) {
            return Err(StepFault::Owed(step));
        }
        if self.log.steps == u64::MAX {
            return Err(StepFault::Worn);
        }
        self.free_step(rt, alloc, step)
    }
}

/// Whether a step waits for an owed sweep.
pub(crate) fn waits(step: &CoreStep) -> bool
    ensures { result ≡ waits step.now }
{
    !matches!(step, CoreStep::Sweep | CoreStep::Out(_))
}
