// The messages of a turn, with all the memory that they need.
ghost use Rattle.std.specs.Prelude.{ℕ, ◌≡◌, ◌≤◌, ◌+◌, ◌-◌, ◌++◌, ◌∷◌, [], List, length, map, take, drop, flat_map, MatchOption, IfOk, OnOk, OnErr, slice_get};
ghost use Rattle.std.specs.List.{AllByRecursion, sum_by};
ghost use Rattle.std.specs.Option.{option_map};
ghost use Rattle.std.specs.VecDeque.{deque_capacity};
ghost use Rattle.px_model.specs.Frame.{SampleSpec};
ghost use Rattle.px_model.specs.Stream.{Stream as Plain};
ghost use Rattle.px_model.specs.Message.{Message};
ghost use Rattle.px_model.specs.Sink.{Input as Stands};
ghost use Rattle.px_model.specs.Turn.{inputs_with, message_notices, inputs_with_all, all_message_notices};
ghost use Rattle.px_lane.specs.Lists.{plain_message, messages_of};
ghost use Rattle.px_stream.specs.HeldStream.{HeldStream};
ghost use Rattle.px_lane.specs.Needed.{blocks_of};
ghost use Rattle.px_lane.specs.Unaltered.{MixesSame};
ghost use Rattle.px_lane.specs.Taking.{CanTake, CanTakeAll, streams_of, IsRoomy, BringsRoom, HasRoomLeft, IsReadyFor};

use crate::ready::Ready;
use px_msg::Msg;
use px_stream::{Stream, StreamMsg};
use std::collections::VecDeque;
use std::marker::Model;

/// The messages of a turn, in order, with all the memory that they need.
#[derive(Debug, Drop)]
pub struct Prepared {
    items: VecDeque<Msg<Stream>>,
    // the stream of each new input, in order
    streams: VecDeque<Stream>,
    room: u32,
    block_room: u32,
}

impl Model for Prepared {
    ghost use Rattle.std.specs.Prelude.{◌≡◌, map, flat_map};
    ghost use Rattle.std.specs.VecDeque.{deque_capacity};
    ghost use Rattle.std.specs.List.{AllByRecursion};
    ghost use Rattle.px_lane.specs.Lists.{messages_of};
    ghost use Rattle.px_stream.specs.HeldStream.{HeldStream};
    ghost use Rattle.px_lane.specs.Room.{ReadyMessages};
    ghost use Rattle.px_lane.specs.Taking.{streams_of, IsRoomy, BringsRoom};

    ghost Value = { ReadyMessages };

    ghost view = { λ p. record { messages = messages_of p.items.items; room = p.room; block_room = p.block_room; capacity = deque_capacity p.items } };

    ghost invariant = { λ p.
        (map HeldStream.stream p.streams.items ≡ flat_map streams_of (messages_of p.items.items))
        × AllByRecursion (IsRoomy p.room p.block_room) p.streams.items
        × AllByRecursion (BringsRoom p.room p.block_room) p.items.items };
}

impl Prepared {
    /// These messages, with the stream of each new input, in order. Each of these streams and parcels has room for `room` messages with `block_room`
    /// blocks in all. Takes no memory.
    pub(crate) fn new(
        items: VecDeque<Msg<Stream>>,
        streams: VecDeque<Stream>,
        room: u32,
        block_room: u32,
    ) -> Prepared
        requires streams { map HeldStream.stream streams.items ≡ flat_map streams_of (messages_of items.items) }
        requires streams_room { AllByRecursion (IsRoomy room block_room) streams.items }
        requires parcels_room { AllByRecursion (BringsRoom room block_room) items.items }
        ensures { result ≡ record { messages = messages_of items.items; room = room; block_room = block_room; capacity = deque_capacity items } }
    {
        Prepared {
            items,
            streams,
            room,
            block_room,
        }
    }

    /// The empty list of the messages, once all are taken: it begins at the front of its memory again. Takes no memory.
    pub(crate) fn into_items(self) -> VecDeque<Msg<Stream>>
        ensures messages { messages_of result.items ≡ self.messages }
        ensures capacity { deque_capacity result ≡ self.capacity }
    {
        VecDeque::from_vec(self.items.into_vec())
    }

    /// The message at place `at`, from 0; `None` exactly where there are at most `at` messages.
    pub fn get(&self, at: usize) -> Option<&Msg<Stream>>
        ensures { option_map (λ message. plain_message message.now) result ≡ slice_get self.now.messages at }
    {
        self.items.get(at)
    }

    /// Takes the first message. Takes no memory.
    pub(crate) fn next(&mut self) -> Option<Ready>
        ensures value { MatchOption result ((self.old.messages ≡ []) × (self.new.messages ≡ [])) (λ ready.
            (m : Message Plain) × (self.old.messages ≡ m ∷ self.new.messages) × IsReadyFor ready m × HasRoomLeft self.old.room self.old.block_room ready) }
        ensures room { self.new.room ≡ self.old.room }
        ensures block_room { self.new.block_room ≡ self.old.block_room }
        ensures capacity { self.new.capacity ≡ self.old.capacity }
    {
        match self.items.pop_front() {
            Some(message) => Some(ready(message, &mut self.streams)),
            None => None,
        }
    }
}

// The first message with its memory: a New takes the first of `streams`.
fn ready(message: Msg<Stream>, streams: &mut VecDeque<Stream>) -> Ready
    requires streams { take (length (streams_of (plain_message message))) (map HeldStream.stream streams.old.items) ≡ streams_of (plain_message message) }
    ensures ready { IsReadyFor result (plain_message message) }
    ensures streams { map HeldStream.stream streams.new.items ≡ drop (length (streams_of (plain_message message))) (map HeldStream.stream streams.old.items) }
    ensures room { (room kept : ℕ) → AllByRecursion (IsRoomy room kept) streams.old.items → BringsRoom room kept message → HasRoomLeft room kept result × AllByRecursion (IsRoomy room kept) streams.new.items }
{
    match message {
        Msg::New(fresh) => Ready::Insert {
            input: fresh.input,
            stream: streams.pop_front().unwrap(),
        },
        Msg::Attach {
            input,
            parcel,
            feed,
            factors,
        } => Ready::Join {
            input,
            parcel,
            feed,
            factors,
        },
        Msg::Detach { input } => Ready::Remove(input),
        Msg::Write {
            input,
            seek,
            offset,
            frames,
            bytes,
        } => Ready::Change {
            input,
            change: StreamMsg::Write {
                seek,
                offset,
                frames,
                bytes,
            },
        },
        Msg::Cork { input, on } => Ready::Change {
            input,
            change: StreamMsg::Cork { on },
        },
        Msg::Flush { input } => Ready::Change {
            input,
            change: StreamMsg::Flush,
        },
        Msg::Trigger { input } => Ready::Change {
            input,
            change: StreamMsg::Trigger,
        },
        Msg::Prebuf { input } => Ready::Change {
            input,
            change: StreamMsg::Prebuf,
        },
        Msg::Drain { input, tag } => Ready::Change {
            input,
            change: StreamMsg::Drain { tag },
        },
        Msg::Attr { input, attr } => Ready::Change {
            input,
            change: StreamMsg::Attr { attr },
        },
        Msg::Factors(list) => Ready::Each(list),
        Msg::Query { input, tag } => Ready::Answer { input, tag },
    }
}
