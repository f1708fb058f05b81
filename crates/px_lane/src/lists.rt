// The lists of messages and of notices that a turn takes and fills.
ghost use Rattle.std.specs.Prelude.{◌≡◌, ◌≤◌, ◌<◌, ◌+◌, ◌++◌, [], ◌∷◌, length, map, flat_map, MatchOption, IfOk, OnOk, OnErr, OnSome, slice_get};
ghost use Rattle.std.specs.Option.{option_map};
ghost use Rattle.std.specs.List.{AllByRecursion, sum_by};
ghost use Rattle.std.specs.VecDeque.{deque_len, deque_capacity};
ghost use Rattle.px_model.specs.Turn.{BringsStream};
ghost use Rattle.px_stream.specs.HeldStream.{HeldStream};
ghost use Rattle.px_lane.specs.Inputs.{inputs_of};
ghost use Rattle.px_lane.specs.Needed.{needed, blocks_of, Opens};
ghost use Rattle.px_lane.specs.Taking.{streams_of, IsRoomy, BringsRoom};
ghost use Rattle.px_lane.specs.Lists.{plain_message, plain_notice, messages_of};

use crate::input::Input;
use crate::inputs::Inputs;
use crate::memory::{blocks_in, needed_by_inputs, needed_by_messages, opened, reserve_parcels};
use crate::prepared::Prepared;
use px_msg::{Msg, Notice};
use px_stream::Stream;
use px_types::{Mem, NoMemory};
use std::alloc::Global;
use std::collections::VecDeque;
use std::marker::Model;
use std::mem::replace;

/// Notices from a sink to the core, in order.
#[derive(Debug, Drop)]
pub struct NoticeList {
    items: VecDeque<Notice<Stream>>,
}

impl Model for NoticeList {
    ghost use Rattle.std.specs.VecDeque.{deque_capacity};
    ghost use Rattle.px_lane.specs.Lists.{BoundedNotices, notices_of};

    ghost Value = { BoundedNotices };

    ghost view = { λ list. record { notices = notices_of list.items.items; capacity = deque_capacity list.items } };
}

impl NoticeList {
    /// No notices. Takes no memory.
    pub fn new(alloc: Global) -> NoticeList
        ensures { result.notices ≡ [] }
    {
        NoticeList {
            items: VecDeque::new(alloc),
        }
    }

    /// How many there are.
    pub fn len(&self) -> usize
        ensures { result ≡ length self.now.notices }
    {
        self.items.len()
    }

    /// Makes room for `notices` more notices. Without memory nothing changes.
    pub fn reserve(&mut self, notices: usize) -> Mem<()>
        ensures value { self.new.notices ≡ self.old.notices }
        ensures ok { OnOk result (length self.new.notices + notices ≤ self.new.capacity) }
        ensures capacity { self.old.capacity ≤ self.new.capacity }
    {
        self.items.reserve(notices)?;
        Ok(())
    }

    /// Appends a notice, where there is room for it. Takes no memory.
    pub fn push(&mut self, notice: Notice<Stream>)
        requires { length self.old.notices < self.old.capacity }
        ensures value { self.new.notices ≡ self.old.notices ++ plain_notice notice ∷ [] }
        ensures capacity { self.new.capacity ≡ self.old.capacity }
    {
        self.items.push_back_reserved(notice);
    }

    /// Takes the first notice. Its room stays, so that it can be put back.
    pub fn pop_front(&mut self) -> Option<Notice<Stream>>
        ensures room { OnSome result (length self.new.notices < self.new.capacity) }
        ensures value { MatchOption result ((self.old.notices ≡ []) × (self.new.notices ≡ [])) (λ first. self.old.notices ≡ plain_notice first ∷ self.new.notices) }
        ensures capacity { self.new.capacity ≡ self.old.capacity }
    {
        let first = self.items.pop_front();
        begin_anew(&mut self.items);
        first
    }

    /// Puts a notice in front of the others, where there is room for it. Takes no memory.
    pub fn push_front(&mut self, notice: Notice<Stream>)
        requires { length self.old.notices < self.old.capacity }
        ensures value { self.new.notices ≡ plain_notice notice ∷ self.old.notices }
        ensures capacity { self.new.capacity ≡ self.old.capacity }
    {
        self.items.push_front_reserved(notice);
    }
}

// Restarts an empty queue at the front of its memory: so notices that come and go use a small part of it, however many once waited. Takes no memory.
fn begin_anew<T>(queue: &mut VecDeque<T>)
    ensures items { queue.new.items ≡ queue.old.items }
    ensures len { deque_len queue.new ≡ deque_len queue.old }
    ensures capacity { deque_capacity queue.new ≡ deque_capacity queue.old }
{
    if queue.is_empty() {
        let none = VecDeque::new(*queue.allocator());
        let room = replace(queue, none).into_vec();
        replace(queue, VecDeque::from_vec(room)).destroy_empty();
    }
}

/// Messages from the core to a sink, in order.
#[derive(Debug, Drop)]
pub struct MsgList {
    items: VecDeque<Msg<Stream>>,
}

impl Model for MsgList {
    ghost use Rattle.std.specs.List.{AllByRecursion};
    ghost use Rattle.std.specs.VecDeque.{deque_capacity};
    ghost use Rattle.px_model.specs.Turn.{BringsStream};
    ghost use Rattle.px_lane.specs.Lists.{BoundedMessages, messages_of};

    ghost Value = { BoundedMessages };

    ghost view = { λ list. record { messages = messages_of list.items.items; capacity = deque_capacity list.items } };

    ghost invariant = { λ list. AllByRecursion BringsStream (messages_of list.items.items) };
}

impl MsgList {
    /// No messages. Takes no memory.
    pub fn new(alloc: Global) -> MsgList
        ensures { result.messages ≡ [] }
    {
        MsgList {
            items: VecDeque::new(alloc),
        }
    }

    /// How many there are. Each parcel in them is a well-formed stream.
    pub fn len(&self) -> usize
        ensures count { result ≡ length self.now.messages }
        ensures parcels { AllByRecursion BringsStream self.now.messages }
    {
        self.items.len()
    }

    /// Makes room for `messages` more messages. Without memory nothing changes.
    pub fn reserve(&mut self, messages: usize) -> Mem<()>
        ensures value { self.new.messages ≡ self.old.messages }
        ensures ok { OnOk result (length self.new.messages + messages ≤ self.new.capacity) }
        ensures capacity { self.old.capacity ≤ self.new.capacity }
    {
        self.items.reserve(messages)?;
        Ok(())
    }

    /// Appends a message, where there is room for it. Takes no memory.
    pub fn push(&mut self, message: Msg<Stream>)
        requires { length self.old.messages < self.old.capacity }
        ensures value { self.new.messages ≡ self.old.messages ++ plain_message message ∷ [] }
        ensures capacity { self.new.capacity ≡ self.old.capacity }
    {
        brings_stream(&message);
        self.items.push_back_reserved(message);
    }

    /// The message at place `at`, from 0; `None` exactly where there are at most `at` messages.
    pub fn get(&self, at: usize) -> Option<&Msg<Stream>>
        ensures { option_map (λ message. plain_message message.now) result ≡ slice_get self.now.messages at }
    {
        self.items.get(at)
    }

    /// Takes all the memory of a turn with these messages: the stream of each new input, room for all messages in each stream that is there or comes,
    /// and room in `out` for every notice of the turn. The list is empty then. Without memory nothing changes that is visible to contracts: the
    /// messages stay.
    pub(crate) fn prepare(
        &mut self,
        alloc: Global,
        inputs: &mut Inputs,
        out: &mut NoticeList,
    ) -> Mem<Prepared>
        requires { AllByRecursion Opens self.old.messages }
        ensures inputs { inputs.new.inputs ≡ inputs.old.inputs }
        ensures notices { out.new.notices ≡ out.old.notices }
        ensures messages { IfOk result (λ prepared. prepared.messages ≡ self.old.messages) }
        ensures parcels { AllByRecursion BringsStream self.old.messages }
        ensures room { IfOk result (λ prepared. (inputs.new.room ≡ length self.old.messages) × (prepared.room ≡ length self.old.messages)) }
        ensures block_room { IfOk result (λ prepared. (inputs.new.block_room ≡ sum_by blocks_of self.old.messages) × (prepared.block_room ≡ sum_by blocks_of self.old.messages)) }
        ensures capacity { OnOk result (length out.old.notices + needed inputs.old.inputs self.old.messages ≤ out.new.capacity) }
        ensures more { out.old.capacity ≤ out.new.capacity }
        ensures list { IfOk result (λ prepared. prepared.capacity ≡ self.old.capacity) }
        ensures empty { OnOk result (self.new.messages ≡ []) }
        ensures err { OnErr result (self.new ≡ self.old) }
    {
        let Ok(count) = u32::try_from(self.items.len()) else {
            return Err(NoMemory);
        };
        let (streams, blocks) = taken(alloc, self.items.make_contiguous(), count, inputs, out)?;
        let items = replace(&mut self.items, VecDeque::new(alloc));
        Ok(Prepared::new(items, streams, count, blocks))
    }

    /// Takes back the list whose messages a turn has applied, for its room. Takes no memory.
    pub fn give_back(&mut self, prepared: Prepared)
        requires taken { prepared.messages ≡ [] }
        requires empty { self.old.messages ≡ [] }
        ensures messages { self.new.messages ≡ [] }
        ensures capacity { self.new.capacity ≡ prepared.capacity }
    {
        self.items = prepared.into_items();
    }
}

// The parcel of a message is a well-formed stream.
fn brings_stream(message: &Msg<Stream>)
    ensures { BringsStream (plain_message message.now) }
{
    match message {
        Msg::Attach { parcel, .. } => {
            parcel.draining();
        }
        _ => {}
    }
}

// Takes a turn's memory for these messages: the stream of each new input, and the number of blocks that the messages bring.
fn taken(
    alloc: Global,
    messages: &mut [Msg<Stream>],
    count: u32,
    inputs: &mut Inputs,
    out: &mut NoticeList,
) -> Mem<(VecDeque<Stream>, u32)>
    requires { AllByRecursion Opens (messages_of messages.old) }
    ensures same { messages_of messages.new ≡ messages_of messages.old }
    ensures inputs { inputs.new.inputs ≡ inputs.old.inputs }
    ensures notices { out.new.notices ≡ out.old.notices }
    ensures streams { IfOk result (λ made. map HeldStream.stream made.0.items ≡ flat_map streams_of (messages_of messages.old)) }
    ensures blocks { IfOk result (λ made. made.1 ≡ sum_by blocks_of (messages_of messages.old)) }
    ensures streams_room { IfOk result (λ made. AllByRecursion (IsRoomy count made.1) made.0.items) }
    ensures parcels_room { IfOk result (λ made. AllByRecursion (BringsRoom count made.1) messages.new) }
    ensures room { OnOk result (inputs.new.room ≡ count) }
    ensures block_room { IfOk result (λ made. inputs.new.block_room ≡ made.1) }
    ensures more { out.old.capacity ≤ out.new.capacity }
    ensures capacity { OnOk result (length out.old.notices + needed inputs.old.inputs (messages_of messages.old) ≤ out.new.capacity) }
{
    let notices = needed_of(inputs.as_slice(), messages)?;
    let Some(blocks) = blocks_in(messages) else {
        return Err(NoMemory);
    };
    out.reserve(notices)?;
    inputs.reserve(count, blocks)?;
    let streams = opened(alloc, messages, count, blocks)?;
    reserve_parcels(messages, count, blocks)?;
    Ok((streams, blocks))
}

// The most notices that a turn gives. A number above what memory can hold counts as out of memory.
fn needed_of(inputs: &[Input], messages: &[Msg<Stream>]) -> Mem<usize>
    ensures { IfOk result (λ notices. notices ≡ needed (inputs_of inputs.now) (messages_of messages.now)) }
{
    let (Some(here), Some(more)) = (needed_by_inputs(inputs), needed_by_messages(messages)) else {
        return Err(NoMemory);
    };
    match here.checked_add(more) {
        Some(notices) => Ok(notices),
        None => Err(NoMemory),
    }
}
