//! The messages for the sinks: a queue for each sink.

ghost use Rattle.std.specs.Prelude.{◌≡◌, ◌<◌, ◌+◌, ◌∷◌, ◌++◌, [], ℕ, length, drop, get_or, set, IsSome, IsNone, OnOk};
ghost use Rattle.std.specs.Option.{option_to_list};
ghost use Rattle.std.specs.VecDeque.{deque_len, deque_capacity};
ghost use Rattle.px_state.specs.Change.{posted_to};
ghost use Rattle.px_state.specs.Out.{first_of, rest_of, room_for, room_past, with_less_room};
ghost use Rattle.px_state.specs.Tables.{lists_of, rooms_of, HavePlaces};

use px_msg::Msg;
use px_types::{Mem, SinkId};
use std::collections::VecDeque;
use std::mem::replace;

/// Appends a message to a sink's queue. Takes no memory.
pub(crate) fn post<P: Drop>(queues: &mut [VecDeque<Msg<P>>], sink: SinkId, msg: Msg<P>)
    requires { HavePlaces 1 queues.old }
    ensures posted { lists_of queues.new ≡ posted_to sink.0 msg (lists_of queues.old) }
    ensures room { (n : ℕ) → HavePlaces (n + 1) queues.old → HavePlaces n queues.new }
{
    let place = sink.0 as usize;
    if place < queues.len() {
        queues[place].push_back_reserved(msg);
    }
}

/// The number of messages queued for a sink. Takes no memory.
pub(crate) fn count<P>(queues: &[VecDeque<Msg<P>>], sink: SinkId) -> usize
    ensures { result ≡ length (get_or (lists_of queues.now) sink.0 []) }
{
    let place = sink.0 as usize;
    if place < queues.len() {
        queues[place].len()
    } else {
        0
    }
}

/// Removes and returns the first message queued for a sink: its place is room for one more. Takes no memory.
pub(crate) fn take_first<P>(queues: &mut [VecDeque<Msg<P>>], sink: SinkId) -> Option<Msg<P>>
    ensures first { result ≡ first_of (get_or (lists_of queues.old) sink.0 []) }
    ensures rest { IsSome result → lists_of queues.new ≡ set (lists_of queues.old) sink.0 (rest_of (get_or (lists_of queues.old) sink.0 [])) }
    ensures none { IsNone result → lists_of queues.new ≡ lists_of queues.old }
    ensures room { rooms_of queues.new ≡ room_past result sink (rooms_of queues.old) }
{
    let place = sink.0 as usize;
    if place < queues.len() {
        take_front(&mut queues[place])
    } else {
        None
    }
}

// Removes the first item of a queue, if there is one. A queue that is empty then begins at the front of its room again: so
// messages that come and go stay in a small part of it, however long the queue once was. Takes no memory.
fn take_front<T>(queue: &mut VecDeque<T>) -> Option<T>
    ensures items { queue.old.items ≡ option_to_list result ++ queue.new.items }
    ensures rest { queue.new.items ≡ drop 1 queue.old.items }
    ensures len { deque_len queue.new + length (option_to_list result) ≡ deque_len queue.old }
    ensures capacity { deque_capacity queue.new ≡ deque_capacity queue.old }
{
    let first = queue.pop_front();
    begin_anew(queue);
    first
}

// Lets a queue that is empty begin at the front of its room again.
fn begin_anew<T>(queue: &mut VecDeque<T>)
    ensures items { queue.new.items ≡ queue.old.items }
    ensures len { deque_len queue.new ≡ deque_len queue.old }
    ensures capacity { deque_capacity queue.new ≡ deque_capacity queue.old }
{
    if queue.is_empty() {
        let none = VecDeque::new(*queue.allocator());
        let room = replace(queue, none).into_vec();
        replace(queue, VecDeque::from_vec(room)).destroy_empty();
    }
}

/// Puts a message at the front of a sink's queue. Takes no memory.
pub(crate) fn put_first<P: Drop>(queues: &mut [VecDeque<Msg<P>>], sink: SinkId, msg: Msg<P>)
    requires { 0 < room_for sink (rooms_of queues.old) }
    ensures lists { lists_of queues.new ≡ set (lists_of queues.old) sink.0 (msg ∷ get_or (lists_of queues.old) sink.0 []) }
    ensures room { rooms_of queues.new ≡ with_less_room sink (rooms_of queues.old) }
{
    let place = sink.0 as usize;
    if place < queues.len() {
        queues[place].push_front_reserved(msg);
    }
}

/// Reserves room for `more` further messages in each queue. No message changes.
pub(crate) fn reserve<P>(queues: &mut [VecDeque<Msg<P>>], more: usize) -> Mem<()>
    ensures lists { lists_of queues.new ≡ lists_of queues.old }
    ensures room { OnOk result (HavePlaces more queues.new) }
{
    for place in 0..queues.len() {
        queues[place].reserve(more)?;
    }
    Ok(())
}
