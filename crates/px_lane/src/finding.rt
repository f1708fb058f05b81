// Inputs sorted by index: finding one, and changing, inserting or removing it.
ghost use Rattle.std.specs.Prelude.{ℕ, ◌≡◌, ◌≤◌, ◌<◌, ◌+◌, ◌-◌, ◌*◌, ◌++◌, length, map, slice_index_or, vec_len, vec_capacity, IsTrue, IfOk, IfErr, MatchOption, None, Some};
ghost use Rattle.std.specs.List.{AllByRecursion};
ghost use Rattle.px_model.specs.Message.{Message};
ghost use Rattle.px_model.specs.Sink.{IsRising, stream_at, with_change, with_input, without_input};
ghost use Rattle.px_model.specs.Notice.{Notice as ModelNotice};
ghost use Rattle.px_model.specs.Turn.{with_each_factors, message_notices, latency_of, is_playing};
ghost use Rattle.px_msg.specs.View.{gains};
ghost use Rattle.px_model.specs.Applied.{applied};
ghost use Rattle.px_kept_mix.specs.Keeping.{AreSmall, IsAsLarge, SharesThere, SharesBetweenThere, AreLittleThere, SoundsOutside};
ghost use Rattle.px_stream.specs.Messages.{message_of, room_for, blocks_with};
ghost use Rattle.px_lane.specs.Taking.{AreFed, FactorsFit, SuitsAt, is_overflow, overflows_at};
ghost use Rattle.px_lane.specs.Inputs.{inputs_of, HasRoom};
ghost use Rattle.px_lane.specs.Lists.{plain_notice};
ghost use Rattle.px_lane.specs.Costs.{unaltered_there, has_others};
ghost use Rattle.px_lane.specs.Places.{AreBelow, IsAt, IsGap};
ghost use Rattle.px_lane.specs.declared.input.Input.{Input as DeclaredInput};

use crate::NoticeList;
use crate::altered::Altered;
use crate::input::Input;
use px_block::BlockSource;
use px_kept_mix::KeptMix;
use px_kernel::Steps;
use px_msg::{Notice, Run};
use px_sample::Spec;
use px_stream::{Applied, Stream, StreamMsg};
use px_types::InputId;
use px_vol::Factors;
use std::sync::ledger::Ledger;

// The place of an index where the indices of all inputs are consecutive, as they are until a stream leaves or goes to another sink.
fn place_if_consecutive(inputs: &[Input], index: InputId) -> usize {
    match inputs.first() {
        Some(first) => index.0.saturating_sub(first.index.0) as usize,
        None => 0,
    }
}

// Whether the input at `place` has this index.
fn is_at(inputs: &[Input], place: usize, index: InputId) -> bool
    ensures inside { IsTrue result → place < length inputs.now }
    ensures same { (d : DeclaredInput) → IsTrue result → (DeclaredInput.index (slice_index_or inputs.now place d)).0 ≡ index.0 }
{
    if place >= inputs.len() {
        return false;
    }
    inputs[place].index.0 == index.0
}

// How many inputs have a lower index. It is a binary search, unless the indices up to this one are consecutive.
fn place(inputs: &[Input], index: InputId) -> usize
    requires { IsRising (inputs_of inputs.now) }
    ensures below { AreBelow index.0 result inputs.now }
    ensures few { result ≤ length inputs.now }
    ensures end { (d : DeclaredInput) → result < length inputs.now → index.0 ≤ (DeclaredInput.index (slice_index_or inputs.now result d)).0 }
{
    let near = place_if_consecutive(inputs, index);
    if is_at(inputs, near, index) {
        return near;
    }
    halved(inputs, index)
}

// The same by binary search.
fn halved(inputs: &[Input], index: InputId) -> usize
    requires { IsRising (inputs_of inputs.now) }
    ensures below { AreBelow index.0 result inputs.now }
    ensures few { result ≤ length inputs.now }
    ensures end { (d : DeclaredInput) → result < length inputs.now → index.0 ≤ (DeclaredInput.index (slice_index_or inputs.now result d)).0 }
{
    let mut low = 0;
    let mut high = inputs.len();
    while low < high {
        let middle = low + (high - low) / 2;
        if inputs[middle].index.0 < index.0 {
            low = middle + 1;
        } else {
            high = middle;
        }
    }
    low
}

/// The place of this index, or else the place where it would be inserted.
pub(crate) fn find(inputs: &[Input], index: InputId) -> Result<usize, usize>
    requires { IsRising (inputs_of inputs.now) }
    ensures ok { IfOk result (λ place. IsAt index.0 place inputs.now) }
    ensures err { IfErr result (λ place. IsGap index.0 place inputs.now) }
    ensures few { IfOk result (λ place. place < length inputs.now) }
    ensures end { IfErr result (λ place. place ≤ length inputs.now) }
{
    let place = place(inputs, index);
    if place >= inputs.len() {
        return Err(place);
    }
    if inputs[place].index.0 == index.0 {
        return Ok(place);
    }
    Err(place)
}

/// Applies a message to the stream of this index, if it is there, with `mixed` frames mixed past its read index; answers whether a write was refused.
pub(crate) fn change_at<B: BlockSource>(
    inputs: &mut [Input],
    index: InputId,
    change: StreamMsg,
    mixed: u64,
    blocks: &mut B,
) -> bool
    requires rising { IsRising (inputs_of inputs.old) }
    requires room { AllByRecursion (HasRoom (room_for (message_of change)) (blocks_with (message_of change))) inputs.old }
    requires suits { SuitsAt (stream_at index.0 (inputs_of inputs.old)) (message_of change) }
    ensures inputs { inputs_of inputs.new ≡ with_change index.0 (applied mixed (message_of change)) (inputs_of inputs.old) }
    ensures overflows { result ≡ overflows_at mixed (message_of change) (stream_at index.0 (inputs_of inputs.old)) }
    ensures room { (room kept : ℕ) → AllByRecursion (HasRoom (room + room_for (message_of change)) (kept + blocks_with (message_of change))) inputs.old → AllByRecursion (HasRoom room kept) inputs.new }
{
    match find(inputs, index) {
        Err(_) => false,
        Ok(place) => {
            let input = &mut inputs[place];
            is_overflow(input.stream.apply(change, mixed, blocks))
        }
    }
}

/// Which of the next `mixed` frames a message alters to the stream of this index, if it is there.
pub(crate) fn altered_at(
    inputs: &[Input],
    index: InputId,
    change: &StreamMsg,
    mixed: u64,
) -> Altered
    requires rising { IsRising (inputs_of inputs.now) }
    requires suits { SuitsAt (stream_at index.0 (inputs_of inputs.now)) (message_of change.now) }
    ensures from { result.from ≡ unaltered_there mixed (message_of change.now) (stream_at index.0 (inputs_of inputs.now)) }
    ensures inside { result.to ≤ mixed }
    ensures sounds { SoundsOutside mixed result.from result.to (applied mixed (message_of change.now)) (stream_at index.0 (inputs_of inputs.now)) }
{
    match find(inputs, index) {
        Err(_) => Altered { from: mixed, to: 0 },
        Ok(place) => Altered::of(&inputs[place].stream, change, mixed),
    }
}

/// Whether the stream of this index, if it is there, has factors other than these.
pub(crate) fn has_others_at(inputs: &[Input], index: InputId, factors: &Factors) -> bool
    requires { IsRising (inputs_of inputs.now) }
    ensures { result ≡ has_others factors.now (stream_at index.0 (inputs_of inputs.now)) }
{
    match find(inputs, index) {
        Err(_) => false,
        Ok(place) => factors.values() != inputs[place].stream.factors().values(),
    }
}

/// Adds (`add`) the share of this index's stream, if it is there, to the kept sums from frame `from` on, or takes it away.
pub(crate) fn share_at<T: Ledger>(
    inputs: &[Input],
    index: InputId,
    sink: &Spec,
    from: u32,
    add: bool,
    kept: &mut KeptMix,
    steps: &mut Steps<T>,
)
    requires rising { IsRising (inputs_of inputs.now) }
    requires fed { AreFed sink.now.channels (inputs_of inputs.now) }
    requires channels { length kept.old.runs ≡ sink.now.channels }
    requires from { from ≤ kept.old.frames }
    requires room { AreSmall 258 kept.old }
    ensures large { IsAsLarge kept.old kept.new }
    ensures sums { SharesThere add sink.now (stream_at index.0 (inputs_of inputs.now)) from kept.old kept.new }
    ensures little { AreLittleThere sink.now (stream_at index.0 (inputs_of inputs.now)) from kept.old.frames }
    ensures ticks { steps.new ≤ steps.old + 2 * (sink.now.channels * (kept.old.frames - from)) }
{
    match find(inputs, index) {
        Err(_) => {}
        Ok(place) => kept.change(sink, &inputs[place].stream, from, add, steps),
    }
}

/// The same from frame `from` up to frame `to`.
pub(crate) fn share_between_at<T: Ledger>(
    inputs: &[Input],
    index: InputId,
    sink: &Spec,
    from: u32,
    to: u32,
    add: bool,
    kept: &mut KeptMix,
    steps: &mut Steps<T>,
)
    requires rising { IsRising (inputs_of inputs.now) }
    requires fed { AreFed sink.now.channels (inputs_of inputs.now) }
    requires channels { length kept.old.runs ≡ sink.now.channels }
    requires order { from ≤ to }
    requires inside { to ≤ kept.old.frames }
    requires room { AreSmall 258 kept.old }
    ensures large { IsAsLarge kept.old kept.new }
    ensures sums { SharesBetweenThere add sink.now (stream_at index.0 (inputs_of inputs.now)) from to kept.old kept.new }
    ensures little { AreLittleThere sink.now (stream_at index.0 (inputs_of inputs.now)) from to }
    ensures ticks { steps.new ≤ steps.old + 2 * (sink.now.channels * (to - from)) }
{
    match find(inputs, index) {
        Err(_) => {}
        Ok(place) => kept.change_between(sink, &inputs[place].stream, from, to, add, steps),
    }
}

fn is_overflow(applied: Applied) -> bool
    ensures { result ≡ is_overflow applied }
{
    matches!(applied, Applied::Overflow)
}

/// Inserts an input at its place, or replaces the one with its index. There is room for it.
pub(crate) fn open_at(items: &mut Vec<Input>, input: Input)
    requires rising { IsRising (inputs_of items.old.items) }
    requires free { vec_len items.old < vec_capacity items.old }
    ensures inputs { inputs_of items.new.items ≡ with_input input.index.0 input.stream.stream (inputs_of items.old.items) }
    ensures room { (room kept : ℕ) → HasRoom room kept input → AllByRecursion (HasRoom room kept) items.old.items → AllByRecursion (HasRoom room kept) items.new.items }
    ensures len { vec_len items.new ≤ vec_len items.old + 1 }
    ensures capacity { vec_capacity items.new ≡ vec_capacity items.old }
{
    match find(items.as_slice(), input.index) {
        Ok(place) => items[place] = input,
        Err(place) => items.insert(place, input).unwrap(),
    }
}

/// Removes the input of this index, if it is there.
pub(crate) fn close_at(items: &mut Vec<Input>, index: InputId) -> Option<Stream>
    requires { IsRising (inputs_of items.old.items) }
    ensures stream { MatchOption result (stream_at index.0 (inputs_of items.old.items) ≡ None) (λ s. stream_at index.0 (inputs_of items.old.items) ≡ Some s.stream) }
    ensures inputs { inputs_of items.new.items ≡ without_input index.0 (inputs_of items.old.items) }
    ensures room { (room kept : ℕ) → AllByRecursion (HasRoom room kept) items.old.items → AllByRecursion (HasRoom room kept) items.new.items }
    ensures len { vec_len items.new ≤ vec_len items.old }
    ensures capacity { vec_capacity items.new ≡ vec_capacity items.old }
{
    match find(items.as_slice(), index) {
        Err(_) => None,
        Ok(place) => {
            let Input { index: _, stream } = items.remove(place);
            Some(stream)
        }
    }
}

/// Pushes a Latency notice for the stream of this index, if it is there.
pub(crate) fn answer_at(
    inputs: &[Input],
    index: InputId,
    tag: u32,
    mixed: u64,
    buffered: u32,
    out: &mut NoticeList,
)
    requires rising { IsRising (inputs_of inputs.now) }
    requires capacity { length out.old.notices + length (message_notices mixed buffered (Message.query index.0 tag) (inputs_of inputs.now)) ≤ out.old.capacity }
    ensures notices { out.new.notices ≡ out.old.notices ++ message_notices mixed buffered (Message.query index.0 tag) (inputs_of inputs.now) }
    ensures capacity { out.new.capacity ≡ out.old.capacity }
{
    match find(inputs, index) {
        Err(_) => {}
        Ok(place) => out.push(latency(&inputs[place].stream, index, tag, mixed, buffered)),
    }
}

// The Latency notice of a stream, with `mixed` frames mixed past the horizon and `buffered` in the sink's buffer, for a query's tag.
fn latency(stream: &Stream, input: InputId, tag: u32, mixed: u64, buffered: u32) -> Notice<Stream>
    ensures { plain_notice result ≡ ModelNotice.latency input.0 tag (latency_of mixed buffered stream.now.stream) }
{
    let ahead = stream.ahead(mixed);
    Notice::Latency {
        input,
        tag,
        write: stream.write_index(),
        read: ahead.read,
        buffered,
        playing: !stream.corked() && is_playing(ahead.run),
        run: ahead.run,
    }
}

fn is_playing(run: Run) -> bool
    ensures { result ≡ is_playing run }
{
    matches!(run, Run::Playing(_))
}
