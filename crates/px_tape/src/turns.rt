//! The turns that a sink made.
ghost use Rattle.std.specs.Prelude.{◌≡◌, ℕ, ◌+◌, ◌≤◌, ◌<◌, false, cond, ◌++◌, ◌∷◌, [], length, OnOk, IfSome, IsNone};
ghost use Rattle.px_session.specs.declared.event.Event.TheVariants.{Stop};
ghost use Rattle.px_tape.specs.Tape.{turns_in, total, count_of, at_sink, stop_in, frames_in, failed_after, events_in, events_at, events_next};

use crate::events::Events;
use px_types::{Mem, SinkId};
use std::alloc::Global;
use std::collections::VecDeque;
use std::marker::Model;

/// A turn of a sink: the frames that its device consumed, `None` where it failed in this turn or before, and the messages that it took.
#[derive(Clone, Copy, Debug, PartialEq, Eq)]
pub(crate) struct Turn {
    pub consumed: Option<u32>,
    pub take: u32,
}

/// A turn of the sink with index `sink`, as it goes onto the tape; `stops` says that the device failed in it, and not before.
#[derive(Clone, Copy, Debug, PartialEq, Eq)]
pub(crate) struct NextTurn {
    pub sink: u8,
    pub frames: u32,
    pub take: u32,
    pub stops: bool,
}

/// The turns that one sink made, in their order. Contracts see the sink's index, the turns, whether the device failed before these, and the number
/// of turns that there is room for.
#[derive(Debug, Drop)]
pub struct SinkTurns {
    sink: u8,
    turns: VecDeque<Turn>,
    failed: bool,
}

impl Model for SinkTurns {
    ghost use Rattle.std.specs.VecDeque.{deque_capacity};
    ghost use Rattle.px_tape.specs.Tape.{Turns};

    ghost Value = { Turns };

    ghost view = { λ s. record { sink = s.sink; turns = s.turns.items; failed = s.failed; capacity = deque_capacity s.turns } };
}

impl SinkTurns {
    /// No turns of this sink yet. Takes no memory.
    pub fn new(alloc: Global, sink: SinkId) -> SinkTurns
        ensures none { (result.turns ≡ []) × (result.failed ≡ false) }
        ensures sink { result.sink ≡ sink.0 }
    {
        SinkTurns {
            sink: sink.0,
            turns: VecDeque::new(alloc),
            failed: false,
        }
    }

    /// Takes the room for one more turn.
    pub fn ready(&mut self) -> Mem<()>
        ensures room { OnOk result (length self.new.turns < self.new.capacity) }
        ensures turns { self.new.turns ≡ self.old.turns }
        ensures sink { self.new.sink ≡ self.old.sink }
        ensures failed { self.new.failed ≡ self.old.failed }
    {
        self.turns.reserve(1)?;
        Ok(())
    }

    /// Appends a turn. Takes no memory.
    pub(crate) fn push(&mut self, consumed: Option<u32>, take: u32)
        requires { length self.old.turns < self.old.capacity }
        ensures turns { self.new.turns ≡ self.old.turns ++ (record { consumed = consumed; take = take }) ∷ [] }
        ensures sink { self.new.sink ≡ self.old.sink }
        ensures failed { self.new.failed ≡ self.old.failed }
    {
        self.turns.push_back_reserved(Turn { consumed, take });
    }

    /// The sink's index.
    pub(crate) fn sink(&self) -> u8
        ensures { result ≡ self.now.sink }
    {
        self.sink
    }

    // Removes the first turn that is left.
    fn next(&mut self) -> Option<NextTurn>
        ensures events { events_in self.old ≡ events_next result ++ events_in self.new }
        ensures own { IfSome result (λ next. next.sink ≡ self.old.sink) }
        ensures sink { self.new.sink ≡ self.old.sink }
        ensures count { length self.old.turns ≡ count_of result + length self.new.turns }
        ensures none { IsNone result → self.new.turns ≡ [] }
    {
        let Turn { consumed, take } = self.turns.pop_front()?;
        Some(self.to_tape(consumed, take))
    }

    // A turn as it goes onto the tape, after which the device has failed where it failed in this turn or before.
    fn to_tape(&mut self, consumed: Option<u32>, take: u32) -> NextTurn
        ensures stops { cond result.stops (Stop (record { 0 = result.sink }) ∷ []) [] ≡ stop_in self.old.sink self.old.failed consumed }
        ensures turn { (result.frames ≡ frames_in consumed) × (result.take ≡ take) × (result.sink ≡ self.old.sink) }
        ensures failed { self.new.failed ≡ failed_after self.old.failed consumed }
        ensures same { (self.new.sink ≡ self.old.sink) × (self.new.turns ≡ self.old.turns) }
    {
        let failed = self.failed;
        match consumed {
            Some(frames) => NextTurn {
                sink: self.sink,
                frames,
                take,
                stops: false,
            },
            None => {
                self.failed = true;
                NextTurn {
                    sink: self.sink,
                    frames: 0,
                    take,
                    stops: !failed,
                }
            }
        }
    }
}

/// Removes the next turn of a sink, where it has one more.
pub(crate) fn next_turn(turns: &mut [SinkTurns], sink: u8) -> Option<NextTurn>
    ensures events { (at : ℕ) → events_at at turns.old ≡ at_sink at (events_next result) ++ events_at at turns.new }
    ensures own { IfSome result (λ next. next.sink ≡ sink) }
    ensures count { total turns.old ≡ count_of result + total turns.new }
{
    match turns.split_first_mut() {
        None => None,
        Some((first, rest)) => {
            if first.sink() == sink {
                first.next()
            } else {
                next_turn(rest, sink)
            }
        }
    }
}

// Appends the turns of one sink that are left.
fn add_left(events: &mut Events, turns: SinkTurns) -> Mem<()>
    ensures count { OnOk result (turns_in events.new ≡ turns_in events.old + length turns.turns) }
    ensures events { OnOk result (events.new ≡ events.old ++ events_in turns) }
{
    let mut turns = turns;
    while let Some(turn) = turns.next() {
        events.push_turn(turn)?;
    }
    Ok(())
}

/// Appends all turns that are left, sink by sink.
pub(crate) fn add_all_left(events: &mut Events, turns: Vec<SinkTurns>) -> Mem<()>
    ensures count { OnOk result (turns_in events.new ≡ turns_in events.old + total turns.items) }
    ensures events { OnOk result ((at : ℕ) → at_sink at events.new ≡ at_sink at events.old ++ events_at at turns.items) }
{
    let mut turns = VecDeque::from_vec(turns);
    while let Some(of_sink) = turns.pop_front() {
        add_left(events, of_sink)?;
    }
    Ok(())
}
