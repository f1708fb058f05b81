//! The messages of moving inputs: they are held until the new sink has the stream.

ghost use Rattle.std.specs.Prelude.{◌≡◌, ◌≤◌, ◌+◌, ◌∷◌, ℕ, List, length, vec_capacity};
ghost use Rattle.std.specs.VecDeque.{deque_capacity};
ghost use Rattle.px_state.specs.declared.delayed.Delayed.{Delayed as Late};
ghost use Rattle.px_state.specs.Delayed.{is_of, delayed_of, delayed_of_others};
ghost use Rattle.px_state.specs.Release.{firsts, without_firsts, all_posted_to, held_past, posted_past, left_past};
ghost use Rattle.px_state.specs.Tables.{lists_of, HavePlaces};

use crate::queues;
use px_msg::Msg;
use px_types::{InputId, SinkId};
use std::collections::VecDeque;
use std::mem::replace;

/// A message that is held while its input moves.
#[derive(Drop)]
pub struct Delayed<P> {
    pub input: InputId,
    pub message: Msg<P>,
}

/// The number of held messages of an input. Takes no memory.
pub fn delayed_count<P>(delayed: &[Delayed<P>], input: InputId) -> usize
    ensures { result ≡ length (delayed_of delayed.now input) }
{
    delayed.iter().filter(|d| d.input.0 == input.0).count()
}

// Takes the first held message: it is queued for the sink where it is the input's and at least one of `left` is still to be
// queued, and else goes after the others. Returns how many are then still to be queued.
fn pass_first<P: Drop>(
    held: &mut VecDeque<Delayed<P>>,
    posted: &mut [VecDeque<Msg<P>>],
    input: InputId,
    sink: SinkId,
    left: usize,
) -> usize
    requires { HavePlaces left posted.old }
    ensures held { (d : Late P) (rest : List (Late P)) → held.old.items ≡ d ∷ rest → held.new.items ≡ held_past input left d rest }
    ensures posted { (d : Late P) (rest : List (Late P)) → held.old.items ≡ d ∷ rest → lists_of posted.new ≡ posted_past input sink left d (lists_of posted.old) }
    ensures left { (d : Late P) (rest : List (Late P)) → held.old.items ≡ d ∷ rest → result ≡ left_past input left d }
    ensures room { (n : ℕ) → HavePlaces (n + left) posted.old → HavePlaces (n + result) posted.new }
    ensures capacity { deque_capacity held.new ≡ deque_capacity held.old }
{
    match held.pop_front() {
        None => left,
        Some(d) => {
            if left > 0 && d.input.0 == input.0 {
                queues::post(posted, sink, d.message);
                left - 1
            } else {
                held.push_back_reserved(d);
                left
            }
        }
    }
}

// Passes each held message once, in order: so the others are in order again at the end.
fn pass_all<P: Drop>(
    held: &mut VecDeque<Delayed<P>>,
    posted: &mut [VecDeque<Msg<P>>],
    input: InputId,
    sink: SinkId,
    count: usize,
)
    requires { HavePlaces count posted.old }
    ensures held { held.new.items ≡ without_firsts (is_of input) held.old.items count }
    ensures posted { lists_of posted.new ≡ all_posted_to sink.0 (firsts (is_of input) held.old.items count) (lists_of posted.old) }
    ensures room { (n : ℕ) → HavePlaces (n + count) posted.old → HavePlaces n posted.new }
    ensures capacity { deque_capacity held.new ≡ deque_capacity held.old }
{
    let mut left = count;
    for _seen in 0..held.len() {
        left = pass_first(held, posted, input, sink, left);
    }
}

/// Removes the oldest `count` held messages of an input, or all of them where there are fewer, and appends them to a sink's
/// queue, in one pass. Takes no memory.
pub(crate) fn release<P: Drop>(
    delayed: &mut Vec<Delayed<P>>,
    posted: &mut [VecDeque<Msg<P>>],
    input: InputId,
    sink: SinkId,
    count: usize,
)
    requires { HavePlaces count posted.old }
    ensures items { delayed.new.items ≡ without_firsts (is_of input) delayed.old.items count }
    ensures posted { lists_of posted.new ≡ all_posted_to sink.0 (firsts (is_of input) delayed.old.items count) (lists_of posted.old) }
    ensures room { (n : ℕ) → HavePlaces (n + count) posted.old → HavePlaces n posted.new }
    ensures capacity { vec_capacity delayed.new ≡ vec_capacity delayed.old }
    ensures len { length delayed.new.items ≤ length delayed.old.items }
{
    let none = Vec::new(*delayed.allocator());
    let mut held = VecDeque::from_vec(replace(delayed, none));
    pass_all(&mut held, posted, input, sink, count);
    replace(delayed, held.into_vec()).destroy_empty();
}

/// Drops the held messages of an ended input. Takes no memory.
pub(crate) fn remove_input<P: Drop>(delayed: &mut Vec<Delayed<P>>, input: InputId)
    ensures items { delayed.new.items ≡ delayed_of_others delayed.old.items input }
    ensures capacity { vec_capacity delayed.new ≡ vec_capacity delayed.old }
    ensures len { length delayed.new.items ≤ length delayed.old.items }
{
    delayed.retain(|d| d.input.0 != input.0);
}
