// The memory that the messages of a turn take.
ghost use Rattle.std.specs.Prelude.{ℕ, ◌≡◌, ◌≤◌, ◌+◌, ◌++◌, [], length, map, flat_map, IfOk, OnOk, MatchOption, ⊤};
ghost use Rattle.std.specs.List.{AllByRecursion, sum_by};
ghost use Rattle.px_model.specs.Control.{new_stream};
ghost use Rattle.px_model.specs.Frame.{SampleSpec};
ghost use Rattle.px_model.specs.Orderly.{IsNewStream};
ghost use Rattle.px_msg.specs.View.{sample_spec, opened};
ghost use Rattle.px_stream.specs.HeldStream.{HeldStream};
ghost use Rattle.px_lane.specs.Inputs.{input_of, inputs_of, HasRoom};
ghost use Rattle.px_lane.specs.Lists.{plain_message, messages_of};
ghost use Rattle.px_lane.specs.Needed.{needed_by_input, needed_by, blocks_of, Opens};
ghost use Rattle.px_lane.specs.Taking.{streams_of, IsRoomy, BringsRoom};

use crate::input::Input;
use px_msg::{Msg, NewStream};
use px_stream::Stream;
use px_types::{Mem, NoMemory};
use std::alloc::Global;
use std::collections::VecDeque;

/// The most notices that a turn gives from the inputs that are there. `None` where that overflows.
pub(crate) fn needed_by_inputs(inputs: &[Input]) -> Option<usize>
    ensures { MatchOption result ⊤ (λ notices. notices ≡ sum_by needed_by_input (inputs_of inputs.now)) }
{
    let mut notices: usize = 0;
    for input in inputs {
        let more = input.stream.draining().checked_add(3)?;
        notices = notices.checked_add(more)?;
    }
    Some(notices)
}

/// The most notices that the messages add. `None` where that overflows.
pub(crate) fn needed_by_messages(messages: &[Msg<Stream>]) -> Option<usize>
    ensures { MatchOption result ⊤ (λ notices. notices ≡ sum_by needed_by (messages_of messages.now)) }
{
    let mut notices: usize = 0;
    for message in messages {
        let more = notices_of(message)?;
        notices = notices.checked_add(more)?;
    }
    Some(notices)
}

fn notices_of(message: &Msg<Stream>) -> Option<usize>
    ensures { MatchOption result ⊤ (λ notices. notices ≡ needed_by (plain_message message.now)) }
{
    match message {
        Msg::Attach { parcel, .. } => parcel.draining().checked_add(2),
        Msg::New(_) | Msg::Drain { .. } => Some(2),
        _ => Some(1),
    }
}

/// How many blocks the writes bring. `None` where that is above 32 bits.
pub(crate) fn blocks_in(messages: &[Msg<Stream>]) -> Option<u32>
    ensures { MatchOption result ⊤ (λ blocks. blocks ≡ sum_by blocks_of (messages_of messages.now)) }
{
    let mut blocks: u32 = 0;
    for message in messages {
        let more = blocks_of(message)?;
        blocks = blocks.checked_add(more)?;
    }
    Some(blocks)
}

fn blocks_of(message: &Msg<Stream>) -> Option<u32>
    ensures { MatchOption result ⊤ (λ blocks. blocks ≡ blocks_of (plain_message message.now)) }
{
    match message {
        Msg::Write { bytes, .. } => match u32::try_from(bytes.count()) {
            Ok(blocks) => Some(blocks),
            Err(_) => None,
        },
        _ => Some(0),
    }
}

/// The stream of each new input, in order, each with room for `room` messages with `blocks` blocks in all.
pub(crate) fn opened(
    alloc: Global,
    messages: &[Msg<Stream>],
    room: u32,
    blocks: u32,
) -> Mem<VecDeque<Stream>>
    requires { AllByRecursion Opens (messages_of messages.now) }
    ensures streams { IfOk result (λ streams. map HeldStream.stream streams.items ≡ flat_map streams_of (messages_of messages.now)) }
    ensures room { IfOk result (λ streams. AllByRecursion (IsRoomy room blocks) streams.items) }
{
    let mut streams = VecDeque::new(alloc);
    for message in messages {
        match message {
            Msg::New(fresh) => streams.push_back(stream_of(alloc, fresh, room, blocks)?)?,
            _ => {}
        }
    }
    Ok(streams)
}

fn stream_of(alloc: Global, fresh: &NewStream, room: u32, blocks: u32) -> Mem<Stream>
    requires { (sink : SampleSpec) × IsNewStream sink (opened fresh.now) }
    ensures stream { IfOk result (λ s. s.stream ≡ new_stream (sample_spec fresh.now.spec) fresh.now.feed fresh.now.factors fresh.now.attr fresh.now.corked) }
    ensures room { IfOk result (λ s. IsRoomy room blocks s) }
{
    let mut stream = Stream::new(alloc, fresh)?;
    stream.reserve(room, blocks)?;
    Ok(stream)
}

/// Makes room for `room` messages with `blocks` blocks in all in the parcel of each Attach.
pub(crate) fn reserve_parcels(messages: &mut [Msg<Stream>], room: u32, blocks: u32) -> Mem<()>
    ensures same { messages_of messages.new ≡ messages_of messages.old }
    ensures room { OnOk result (AllByRecursion (BringsRoom room blocks) messages.new) }
{
    for message in messages.iter_mut() {
        reserve_parcel(message, room, blocks)?;
    }
    Ok(())
}

fn reserve_parcel(message: &mut Msg<Stream>, room: u32, blocks: u32) -> Mem<()>
    ensures same { plain_message message.new ≡ plain_message message.old }
    ensures room { OnOk result (BringsRoom room blocks message.new) }
{
    match message {
        Msg::Attach { parcel, .. } => parcel.reserve(room, blocks),
        _ => Ok(()),
    }
}

/// Makes room for `room` messages with `blocks` blocks in all in each stream that is there.
pub(crate) fn reserve_inputs(inputs: &mut [Input], room: u32, blocks: u32) -> Mem<()>
    ensures same { inputs_of inputs.new ≡ inputs_of inputs.old }
    ensures held { (old held : ℕ) → AllByRecursion (HasRoom old held) inputs.old → AllByRecursion (HasRoom old held) inputs.new }
    ensures room { OnOk result (AllByRecursion (HasRoom room blocks) inputs.new) }
{
    if room == 0 && blocks == 0 {
        return Ok(());
    }
    for input in inputs.iter_mut() {
        input.stream.reserve(room, blocks)?;
    }
    Ok(())
}
