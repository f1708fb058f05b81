//! The core's lock.

ghost use Rattle.std.specs.Prelude.{◌≡◌, ◌+◌, ◌<◌, ◌≤◌, [], Some, map, IfSome, MatchResult, MatchOption};
ghost use Rattle.px_core_cell.specs.Boxes.{boxes_of};
ghost use Rattle.px_core_cell.specs.Cell.{ends_of, cell_of};
ghost use Rattle.px_core_cell.specs.History.{Begins, IsCell};
ghost use Rattle.px_core_cell.specs.Cause.{IsCaused};
ghost use Rattle.px_core_cell.specs.Step.{IsAsked, HandsBack, IsNothing};
ghost use Rattle.px_core_cell.specs.Seat.{Counts};

use crate::ends::CoreEnds;
use crate::parcel::CellCore;
use crate::parts::CoreParts;
use crate::seat::{CoreSeat, Seats};
use crate::step::{CoreStep, StepFault};
use px_annals::{CoreEntry, Recorder};
use px_core::Effects;
use px_types::SinkId;
use std::alloc::Global;
use std::marker::Model;
use std::mem;
use std::sync::ledger::{Blank, Book, Share};
use std::sync::{Mutex, Wait};

// A core with the book of its steps.
#[derive(Drop)]
struct Live<C: Recorder<CoreEntry>, L: Seats> {
    parts: CoreParts<C>,
    book: Book<L>,
}

impl<C: Recorder<CoreEntry>, L: Seats> Model for Live<C, L> {
    ghost use Rattle.std.specs.Prelude.{◌≡◌, map};
    ghost use Rattle.px_core_cell.specs.Boxes.{boxes_of};
    ghost use Rattle.px_core_cell.specs.Cell.{Cell, cell_of};
    ghost use Rattle.px_core_cell.specs.History.{IsCell};

    ghost Value = { Cell C };

    ghost view = { λ l. cell_of l.parts };

    ghost invariant = { λ l. IsCell C.visible L.began (cell_of l.parts) × (l.book.total ≡ l.parts.log.steps) × (L.parts ≡ L.all) × (map boxes_of l.parts.ends.items ≡ L.boxes) };
}

// All parts of a ledger.
#[derive(Drop)]
struct Whole<L: Seats> {
    share: Share<L>,
}

impl<L: Seats> Model for Whole<L> {
    ghost use Rattle.std.specs.Prelude.{◌≡◌, ℕ};

    ghost Value = { ℕ };

    ghost view = { λ w. w.share.amount };

    ghost invariant = { λ w. (w.share.parts ≡ L.all) × (L.parts ≡ L.all) };
}

impl<C: Recorder<CoreEntry>, L: Seats> Live<C, L> {
    // Does one step, and counts it in the seat where it is done.
    fn step<R: Wait>(
        &mut self,
        rt: &R,
        alloc: Global,
        step: CoreStep,
        seat: &mut CoreSeat<L>,
    ) -> Result<Option<Effects>, StepFault>
        requires { IsAsked step }
        ensures counts { Counts result seat.old seat.new }
        ensures parts { seat.new.parts ≡ seat.old.parts }
        ensures back { HandsBack step result }
        ensures nothing { IsNothing step result }
    {
        let answer = self.parts.step(rt, alloc, step)?;
        if answer.is_some() {
            self.book.add(&mut seat.share, 1);
        }
        Ok(answer)
    }

    // Hands out to each of the first `sinks` sinks the messages queued for it. A sink for which none is queued has no step.
    fn post_all<R: Wait>(
        &mut self,
        rt: &R,
        alloc: Global,
        sinks: u8,
        seat: &mut CoreSeat<L>,
    ) -> Result<(), StepFault>
        ensures { seat.new.parts ≡ seat.old.parts }
    {
        for sink in 0..sinks {
            if self.parts.core.outgoing(SinkId(sink)) > 0 {
                self.step(rt, alloc, CoreStep::Out(SinkId(sink)), seat)?;
            }
        }
        Ok(())
    }

    // No seat counts more steps than were done.
    fn audit(&mut self, seat: &mut CoreSeat<L>)
        ensures { (self.new ≡ self.old) × (seat.new ≡ seat.old) × (seat.old.steps ≤ self.old.logged.steps) }
    {
        self.book.audit(&mut seat.share);
    }
}

// A seat and all parts can't exist at once.
fn meet<L: Seats>(seat: &mut CoreSeat<L>, whole: &mut Whole<L>)
    ensures { ⊥ }
{
    seat.share.give(&mut whole.share, 0, 0);
}

// The core until it is taken; then all parts.
#[derive(Drop)]
enum Slot<C: Recorder<CoreEntry>, L: Seats> {
    Live(Live<C, L>),
    Taken(Whole<L>),
}

/// The core under its lock (PulseAudio runs `pa_core` in one thread, its main loop; own). Whenever the lock is free, its
/// content agrees with its history.
#[derive(Drop)]
pub struct CoreCell<C: Recorder<CoreEntry>, L: Seats> {
    slot: Mutex<Slot<C, L>>,
}

impl<C: Recorder<CoreEntry> + Drop, L: Seats> CoreCell<C, L> {
    /// A core before its first step under a lock, as by `CoreState::new`, and a seat with all parts. Takes no memory.
    pub fn new(
        blank: Blank,
        core: CellCore,
        recorder: C,
        ends: CoreEnds,
    ) -> (CoreCell<C, L>, CoreSeat<L>)
        requires name { blank.name ≡ L.name }
        requires parts { (blank.parts ≡ L.parts) × (L.parts ≡ L.all) × (0 < L.all) }
        requires began { core.state ≡ L.began }
        requires begins { Begins core.state (map ends_of ends.items) }
        requires boxes { map boxes_of ends.items ≡ L.boxes }
        requires none { IfSome (C.visible recorder) (λ entries. entries ≡ []) }
        requires unfailed { (C.faults recorder ≡ 0) × (C.fulls recorder ≡ 0) }
        ensures { result.1 ≡ record { parts = L.all; steps = 0 } }
    {
        let (book, share) = blank.open::<L>();
        let parts = CoreParts::new(core, recorder, ends);
        (
            CoreCell {
                slot: Mutex::new(Slot::Live(Live { parts, book })),
            },
            CoreSeat { share },
        )
    }

    /// Takes the lock and does one step, as `CoreState::step` states. The seat counts one more exactly where the answer is
    /// `Ok(Some)`. `Owed` hands back exactly the step given. `None` is returned for the notice of a sink alone.
    pub fn step<R: Wait>(
        &self,
        rt: &R,
        alloc: Global,
        step: CoreStep,
        seat: &mut CoreSeat<L>,
    ) -> Result<Option<Effects>, StepFault>
        requires { IsAsked step }
        ensures counts { Counts result seat.old seat.new }
        ensures back { HandsBack step result }
        ensures nothing { IsNothing step result }
    {
        let mut slot = self.slot.lock(rt);
        match &mut *slot {
            Slot::Live(live) => live.step(rt, alloc, step, seat),
            Slot::Taken(whole) => {
                meet(seat, whole);
                unreachable!()
            }
        }
    }

    /// Takes the lock once and hands out to each of the first `sinks` sinks the messages queued for it, as the step `Out` does. A sink for
    /// which none is queued has no step. Where a step can't be made, the messages of its sink and of those after it stay queued.
    pub fn post_all<R: Wait>(
        &self,
        rt: &R,
        alloc: Global,
        sinks: u8,
        seat: &mut CoreSeat<L>,
    ) -> Result<(), StepFault>
        ensures { seat.new.parts ≡ seat.old.parts }
    {
        let mut slot = self.slot.lock(rt);
        match &mut *slot {
            Slot::Live(live) => live.post_all(rt, alloc, sinks, seat),
            Slot::Taken(whole) => {
                meet(seat, whole);
                unreachable!()
            }
        }
    }

    /// Takes the lock and hands out its content, for the seat with all parts. At least as many steps were done as the seat
    /// counts.
    pub fn take_parts<R: Wait>(&self, rt: &R, seat: CoreSeat<L>) -> CoreParts<C>
        requires { seat.parts ≡ L.all }
        ensures history { IsCell C.visible L.began (cell_of result) }
        ensures boxes { map boxes_of result.ends.items ≡ L.boxes }
        ensures steps { seat.steps ≤ result.log.steps }
        ensures caused { IsCaused result.log.fault (C.faults result.log.recorder) (C.fulls result.log.recorder) }
    {
        let mut seat = seat;
        let mut slot = self.slot.lock(rt);
        match &mut *slot {
            Slot::Live(live) => live.audit(&mut seat),
            Slot::Taken(whole) => meet(&mut seat, whole),
        }
        let CoreSeat { share } = seat;
        match mem::replace(&mut *slot, Slot::Taken(Whole { share })) {
            Slot::Live(Live { parts, book: _ }) => parts,
            Slot::Taken(_) => unreachable!(),
        }
    }
}
