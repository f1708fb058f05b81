//! Held messages of inputs that have arrived are released: they are queued for the sink that their input is on. Nothing takes
//! memory.

ghost use Rattle.std.specs.Prelude.{◌≡◌, ◌+◌, ◌++◌, ℕ, Some, replicate, IsTrue};
ghost use Rattle.std.specs.VecDeque.{deque_len};
ghost use Rattle.px_outcome.specs.declared.change.Change.TheVariants.{Released};
ghost use Rattle.px_state.specs.Change.{committed};
ghost use Rattle.px_state.specs.Out.{first_of};
ghost use Rattle.px_state.specs.Release.{releasing_oldest};
ghost use Rattle.px_state.specs.Tables.{state_of, HasRoom};

use crate::change::CoreChange;
use crate::delayed;
use crate::tables::Tables;
use px_outcome::{Change, Input};
use px_types::InputId;
use std::collections::VecDeque;

// Whether a change releases a message of an input.
fn is_release<P>(change: &CoreChange<P>, index: InputId) -> bool
    ensures { IsTrue result → change.now ≡ Released index }
{
    match change {
        Change::Released(of) => of.0 == index.0,
        _ => false,
    }
}

// Whether the first change releases a message of an input.
fn begins_with_release<P>(changes: &VecDeque<CoreChange<P>>, index: InputId) -> bool
    ensures { IsTrue result → first_of changes.now.items ≡ Some (Released index) }
{
    match changes.front() {
        None => false,
        Some(change) => is_release(change, index),
    }
}

/// Removes the changes at the front that release a message of an input, and returns their number.
pub(crate) fn take_releases<P: Drop>(changes: &mut VecDeque<CoreChange<P>>, index: InputId) -> usize
    ensures items { changes.old.items ≡ replicate result (Released index) ++ changes.new.items }
    ensures len { result + deque_len changes.new ≡ deque_len changes.old }
{
    let mut count = 0;
    while begins_with_release(changes, index) {
        drop(changes.pop_front());
        count += 1;
    }
    count
}

// Queues the oldest `count` held messages of an input for the sink that it is on.
fn release_of<P: Drop>(tables: &mut Tables<P>, x: &Input, count: usize)
    requires { HasRoom count tables.old }
    ensures state { state_of tables.new ≡ releasing_oldest x.now count (state_of tables.old) }
    ensures room { (n : ℕ) → HasRoom (n + count) tables.old → HasRoom n tables.new }
{
    delayed::release(
        &mut tables.delayed,
        &mut tables.posted,
        x.index,
        x.sink,
        count,
    );
}

/// The same for the input with an index: it is what `count` changes do that release a message of it, one after the other.
/// Takes `count` places of the room.
pub(crate) fn release<P: Drop>(tables: &mut Tables<P>, index: InputId, count: usize)
    requires { HasRoom count tables.old }
    ensures state { state_of tables.new ≡ committed (state_of tables.old) (replicate count (Released index)) }
    ensures room { (n : ℕ) → HasRoom (n + count) tables.old → HasRoom n tables.new }
{
    match tables.inputs.input_of(index) {
        None => {}
        Some(x) => release_of(tables, &x, count),
    }
}
