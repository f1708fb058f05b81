//! The order of a tape's events.
ghost use Rattle.std.specs.Prelude.{◌≡◌, ℕ, ◌+◌, ◌≤◌, ◌<◌, ◌++◌, ◌∷◌, [], length, map, vec_len, vec_capacity, IfOk, OnOk};
ghost use Rattle.std.specs.List.{AllByRecursion};
ghost use Rattle.px_session.specs.EventRules.{IsEvent};
ghost use Rattle.px_tape.specs.declared.tape.Mark.TheVariants.{Made, TurnOf};
ghost use Rattle.px_tape.specs.Tape.{turns_in, total, at_sink, events_at, AreOthers, IsMark};

use crate::events::Events;
use crate::turns::{SinkTurns, add_all_left, next_turn};
use px_session::Event;
use px_types::Mem;
use std::alloc::Global;
use std::collections::VecDeque;
use std::marker::Model;

/// A mark on a tape.
#[derive(Debug, Drop)]
pub(crate) enum Mark {
    /// An event of the core.
    Made(Event),
    /// The next turn of the sink with this index.
    TurnOf(u8),
}

/// What a live server has made, in its order: events of the core, and marks for the turns of its sinks, which each sink records itself. (PulseAudio
/// records none; own.)
#[derive(Debug, Drop)]
pub struct Tape {
    marks: Vec<Mark>,
}

impl Model for Tape {
    ghost use Rattle.std.specs.Prelude.{vec_capacity};
    ghost use Rattle.std.specs.List.{AllByRecursion};
    ghost use Rattle.px_tape.specs.Tape.{Taped, IsMark};

    ghost Value = { Taped };

    ghost view = { λ t. record { marks = t.marks.items; capacity = vec_capacity t.marks } };

    ghost invariant = { λ t. AllByRecursion IsMark t.marks.items };
}

// Appends the event that a mark stands for.
fn add_mark(events: &mut Events, mark: Mark, turns: &mut [SinkTurns]) -> Mem<()>
    requires { IsMark mark }
    ensures count { OnOk result (turns_in events.new + total turns.new ≡ turns_in events.old + total turns.old) }
    ensures events { OnOk result ((at : ℕ) → at_sink at events.new ++ events_at at turns.new ≡ at_sink at events.old ++ events_at at turns.old) }
{
    match mark {
        Mark::Made(event) => events.push(event),
        Mark::TurnOf(sink) => match next_turn(turns, sink) {
            Some(turn) => events.push_turn(turn),
            None => Ok(()),
        },
    }
}

// Appends marks for events of the core, for which there is room.
fn add_made(marks: &mut Vec<Mark>, events: Vec<Event>)
    requires { vec_len marks.old + length events.items ≤ vec_capacity marks.old }
    ensures { marks.new.items ≡ marks.old.items ++ map Made events.items }
{
    let mut left = VecDeque::from_vec(events);
    while let Some(event) = left.pop_front() {
        marks.push(Mark::Made(event)).unwrap();
    }
}

impl Tape {
    /// An empty tape. Takes no memory.
    pub fn new(alloc: Global) -> Tape
        ensures { result.marks ≡ [] }
    {
        Tape {
            marks: Vec::new(alloc),
        }
    }

    /// Takes the room for `more` events.
    pub fn ready(&mut self, more: usize) -> Mem<()>
        ensures room { OnOk result (length self.new.marks + more ≤ self.new.capacity) }
        ensures marks { self.new.marks ≡ self.old.marks }
    {
        self.marks.reserve(more)?;
        Ok(())
    }

    /// Appends the events of a step of the core, none of which is a turn or a stop of a sink. Takes no memory.
    pub fn add(&mut self, events: Events)
        requires room { length self.old.marks + length events ≤ self.old.capacity }
        requires others { AreOthers events }
        ensures { self.new.marks ≡ self.old.marks ++ map Made events }
    {
        add_made(&mut self.marks, events.into_vec());
    }

    /// Appends a turn of a sink that took `take` messages. Its device consumed `consumed` frames, `None` where it failed in this turn or before. Takes
    /// no memory.
    pub fn add_turn(&mut self, turns: &mut SinkTurns, consumed: Option<u32>, take: u32)
        requires room { length self.old.marks < self.old.capacity }
        requires own_room { length turns.old.turns < turns.old.capacity }
        ensures marks { self.new.marks ≡ self.old.marks ++ TurnOf turns.old.sink ∷ [] }
        ensures turns { turns.new.turns ≡ turns.old.turns ++ (record { consumed = consumed; take = take }) ∷ [] }
        ensures sink { turns.new.sink ≡ turns.old.sink }
        ensures failed { turns.new.failed ≡ turns.old.failed }
    {
        self.marks.push(Mark::TurnOf(turns.sink())).unwrap();
        turns.push(consumed, take);
    }

    /// The events of the tape of sinks that made these turns: each turn is one event, with a stop before the first turn of a sink in which its device
    /// failed; no other event is a turn or a stop.
    pub fn into_events(self, alloc: Global, turns: Vec<SinkTurns>) -> Mem<Events>
        ensures count { IfOk result (λ events. turns_in events ≡ total turns.items) }
        ensures sinks { IfOk result (λ events. (at : ℕ) → at_sink at events ≡ events_at at turns.items) }
    {
        let mut turns = turns;
        let mut left = VecDeque::from_vec(self.marks);
        let mut events = Events::new(alloc);
        while let Some(mark) = left.pop_front() {
            add_mark(&mut events, mark, &mut turns)?;
        }
        add_all_left(&mut events, turns)?;
        Ok(events)
    }
}
