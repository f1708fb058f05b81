//! The content of the core's lock, with its invariants.

ghost use Rattle.std.specs.Prelude.{◌≡◌, [], map, IfSome};
ghost use Rattle.px_core_cell.specs.Cause.{StepSays};
ghost use Rattle.px_core_cell.specs.Cell.{ends_of, calls_of, cell_of};
ghost use Rattle.px_core_cell.specs.History.{Begins, IsCell, first_cell};
ghost use Rattle.px_core_cell.specs.Step.{IsAsked, StepGives, Stops};

use crate::ends::CoreEnds;
use crate::parcel::CellCore;
use crate::parts::CoreParts;
use crate::step::{CoreStep, StepFault};
use px_annals::{CoreEntry, Recorder};
use px_core::Effects;
use std::alloc::Global;
use std::marker::Model;
use std::snapshot::Snapshot;
use std::sync::Wait;

/// The core with its history (PulseAudio's `pa_core` has none; own). Contracts see the state that it began with and where it
/// stands: its state, its recorder, the number of steps done, the messages and notices that went through each sink's
/// mailboxes, and for each call at these whether it found room or a notice. Where the recorder's content is visible, the
/// state is the replay of the entries from the beginning, one entry a step; an entry that hands out messages names exactly as
/// many as left, and the sink of a notice exists.
#[derive(Drop)]
pub struct CoreState<C: Recorder<CoreEntry>> {
    began: Snapshot<CellCore>,
    parts: CoreParts<C>,
}

impl<C: Recorder<CoreEntry>> Model for CoreState<C> {
    ghost use Rattle.px_core_cell.specs.Cell.{cell_of, calls_in};
    ghost use Rattle.px_core_cell.specs.History.{Course, IsCell};

    ghost Value = { Course C };

    ghost view = { λ s. record { began = s.began.value.state; cell = cell_of s.parts; calls = calls_in s.parts } };

    ghost invariant = { λ s. IsCell C.visible s.began.value.state (cell_of s.parts) };
}

impl<C: Recorder<CoreEntry>> CoreState<C> {
    /// A core before its first step, with a recorder that holds nothing where its content is visible, and mailboxes that
    /// have moved nothing, each inbox for its sink's sample spec. Takes no memory.
    pub fn new(core: CellCore, recorder: C, ends: CoreEnds) -> CoreState<C>
        requires begins { Begins core.state (map ends_of ends.items) }
        requires none { IfSome (C.visible recorder) (λ entries. entries ≡ []) }
        requires unfailed { (C.faults recorder ≡ 0) × (C.fulls recorder ≡ 0) }
        ensures { result ≡ record { began = core.state; cell = first_cell core.state recorder (map ends_of ends.items); calls = map calls_of ends.items } }
    {
        CoreState {
            began: Snapshot::of(&core),
            parts: CoreParts::new(core, recorder, ends),
        }
    }

    /// Does one step. A step that is neither a sweep nor the handing out of messages is handed back while a sweep is owed;
    /// at most 2^64 - 1 steps can be counted. `None` for the notice of a sink that doesn't exist, or that holds no notice
    /// and whose outbox was found empty. Messages are handed out until the queue is empty or the inbox is found full. A step
    /// that is done is noted by one entry, and answered by the core's effects.
    pub fn step<R: Wait>(
        &mut self,
        rt: &R,
        alloc: Global,
        step: CoreStep,
    ) -> Result<Option<Effects>, StepFault>
        requires asked { IsAsked step }
        ensures gives { StepGives C.visible step self.old.cell self.new.cell result }
        ensures stops { Stops step self.new.cell.logged.state self.old.calls self.new.calls result }
        ensures said { StepSays C.limit C.visible C.faults C.fulls result self.old.cell.logged.recorder self.new.cell.logged.recorder }
        ensures began { self.new.began ≡ self.old.began }
        ensures history { IsCell C.visible self.new.began self.new.cell }
    {
        self.parts.step(rt, alloc, step)
    }

    /// The number of steps done. Takes no memory.
    pub fn steps(&self) -> u64
        ensures { result ≡ self.now.cell.logged.steps }
    {
        self.parts.log.steps
    }

    /// All its parts. Takes no memory.
    pub fn into_parts(self) -> CoreParts<C>
        ensures parts { cell_of result ≡ self.cell }
        ensures history { IsCell C.visible self.began (cell_of result) }
    {
        self.parts
    }
}
