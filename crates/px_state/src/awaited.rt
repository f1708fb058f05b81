//! The requests that are answered later: they are removed once answered, or once their stream has ended. Nothing takes
//! memory.

ghost use Rattle.std.specs.Prelude.{◌≡◌, ◌≤◌};
ghost use Rattle.std.specs.List.{position};
ghost use Rattle.std.specs.VecDeque.{deque_len, deque_capacity};
ghost use Rattle.px_outcome.specs.Waiting.{is_drain};
ghost use Rattle.px_state.specs.State.{is_as, waiting_of_others};
ghost use Rattle.px_state.specs.Change.{drop_first};

use px_outcome::{Awaited, Waiting};
use px_types::InputId;
use std::collections::VecDeque;

// Whether a request is a DRAIN, not a latency request.
fn is_drain(w: &Waiting) -> bool
    ensures { result ≡ is_drain w.now.awaited }
{
    match w.awaited {
        Awaited::Drained => true,
        Awaited::Latency(_) => false,
    }
}

// Whether two requests are equal: same input, same tag, same kind.
fn is_as(w: &Waiting, other: &Waiting) -> bool
    ensures { result ≡ is_as w.now other.now }
{
    other.input.0 == w.input.0 && other.tag == w.tag && is_drain(other) == is_drain(w)
}

// The place of the first request that equals `w`.
fn place_of(waiting: &VecDeque<Waiting>, w: &Waiting) -> Option<usize>
    ensures { result ≡ position (is_as w.now) waiting.now.items }
{
    waiting.iter().position(|other| is_as(w, other))
}

/// Removes the first request that equals `w`: it is answered.
pub(crate) fn answer(waiting: &mut VecDeque<Waiting>, w: &Waiting)
    ensures items { waiting.new.items ≡ drop_first (is_as w.now) waiting.old.items }
    ensures capacity { deque_capacity waiting.new ≡ deque_capacity waiting.old }
    ensures len { deque_len waiting.new ≤ deque_len waiting.old }
{
    if let Some(place) = place_of(waiting, w) {
        waiting.remove(place);
    }
}

/// Removes the requests of an input that has ended.
pub(crate) fn remove_input(waiting: &mut VecDeque<Waiting>, input: InputId)
    ensures items { waiting.new.items ≡ waiting_of_others waiting.old.items input }
    ensures capacity { deque_capacity waiting.new ≡ deque_capacity waiting.old }
    ensures len { deque_len waiting.new ≤ deque_len waiting.old }
{
    waiting.retain(|w| w.input.0 != input.0);
}
