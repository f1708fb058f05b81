//! Makes changes, one after the other, in room that was reserved for them.

ghost use Rattle.std.specs.Prelude.{◌≡◌, ◌≤◌, ◌+◌, ◌∷◌, [], ℕ, length, vec_capacity, Some, IfOk, OnOk, OnErr};
ghost use Rattle.px_outcome.specs.declared.change.Change.TheVariants.{Made, Described, Leaves, Moves, Arrives, Released, Posted, Regrouped, Asked, Answered, Gone};
ghost use Rattle.px_header.specs.HeaderRules.{AreSinks};
ghost use Rattle.px_subscribe.specs.Moments.{AreShown};
ghost use Rattle.px_state.specs.Change.{changed, committed, inputs_noted, posting, delaying, posting_to_input, ending, departs, arrives};
ghost use Rattle.px_state.specs.Families.{IsOfInput};
ghost use Rattle.px_state.specs.State.{input_of};
ghost use Rattle.px_state.specs.Answered.{answered, answer_effects};
ghost use Rattle.px_state.specs.Tables.{state_of, HasRoom, HavePlaces};

use crate::change::CoreChange;
use crate::delayed::Delayed;
use crate::effects::Effects;
use crate::events::answer_effects;
use crate::release::{release, take_releases};
use crate::tables::Tables;
use crate::{awaited, clients, delayed, queues};
use px_flat::Group;
use px_input_table::InputTable;
use px_msg::Msg;
use px_outcome::{Change, Input, Standing, StepOutcome, Waiting};
use px_sinks::set_group;
use px_tag::PropList;
use px_types::{ConnId, InputId, Mem, SinkId};
use std::alloc::Global;
use std::collections::VecDeque;

/// Reserves room for `more` changes. The state stays.
pub(crate) fn reserve<P>(tables: &mut Tables<P>, more: usize) -> Mem<()>
    ensures state { state_of tables.new ≡ state_of tables.old }
    ensures room { OnOk result (HasRoom more tables.new) }
{
    tables.inputs.reserve(more)?;
    tables.lists.reserve(more)?;
    tables.waiting.reserve(more)?;
    tables.delayed.reserve(more)?;
    queues::reserve(&mut tables.posted, more)
}

// Appends a message to a sink's queue.
fn post<P: Drop>(tables: &mut Tables<P>, sink: SinkId, msg: Msg<P>)
    requires { HavePlaces 1 tables.old.posted.items }
    ensures state { state_of tables.new ≡ posting sink.0 msg (state_of tables.old) }
    ensures room { (n : ℕ) → HavePlaces (n + 1) tables.old.posted.items → HavePlaces n tables.new.posted.items }
    ensures inputs { tables.new.inputs ≡ tables.old.inputs }
    ensures lists { tables.new.lists ≡ tables.old.lists }
    ensures waiting { tables.new.waiting ≡ tables.old.waiting }
    ensures delayed { tables.new.delayed ≡ tables.old.delayed }
{
    queues::post(&mut tables.posted, sink, msg);
}

// Buffer attributes in a message to an input become the input's own.
fn note<P>(inputs: &mut InputTable, index: InputId, msg: &Msg<P>)
    ensures items { inputs.new.items ≡ inputs_noted index msg.now inputs.old.items }
    ensures len { length inputs.new.items ≤ length inputs.old.items }
    ensures places { inputs.new.places ≡ inputs.old.places }
    ensures streams { inputs.old.streams ≤ inputs.new.streams + 1 }
{
    match msg {
        Msg::Attr { attr, .. } => inputs.set_attr(index, *attr),
        _ => {}
    }
}

// Holds a message while its input moves.
fn delay<P: Drop>(tables: &mut Tables<P>, input: InputId, message: Msg<P>)
    requires { length tables.old.delayed.items + 1 ≤ vec_capacity tables.old.delayed }
    ensures state { state_of tables.new ≡ delaying input message (state_of tables.old) }
    ensures len { length tables.new.delayed.items ≡ length tables.old.delayed.items + 1 }
    ensures capacity { vec_capacity tables.new.delayed ≡ vec_capacity tables.old.delayed }
    ensures posted { tables.new.posted ≡ tables.old.posted }
    ensures inputs { tables.new.inputs ≡ tables.old.inputs }
    ensures lists { tables.new.lists ≡ tables.old.lists }
    ensures waiting { tables.new.waiting ≡ tables.old.waiting }
{
    tables.delayed.push_reserved(Delayed { input, message });
}

/// Posts a message to an input's sink where the input is settled there; holds it while the input moves. Takes one place of
/// the room.
pub(crate) fn post_to_input<P: Drop>(tables: &mut Tables<P>, x: &Input, msg: Msg<P>)
    requires { HasRoom 1 tables.old }
    ensures state { state_of tables.new ≡ posting_to_input x.now.standing x.now msg (state_of tables.old) }
    ensures room { (n : ℕ) → HasRoom (n + 1) tables.old → HasRoom n tables.new }
{
    match x.standing {
        Standing::Settled => {
            note(&mut tables.inputs, x.index, &msg);
            post(tables, x.sink, msg);
        }
        Standing::Moving(_) => {
            note(&mut tables.inputs, x.index, &msg);
            delay(tables, x.index, msg);
        }
        Standing::Leaving => {}
    }
}

// Posts a message about the input with an index.
fn post_by_index<P: Drop>(tables: &mut Tables<P>, index: InputId, msg: Msg<P>)
    requires { HasRoom 1 tables.old }
    ensures state { state_of tables.new ≡ changed (state_of tables.old) (Posted index msg) }
    ensures room { (n : ℕ) → HasRoom (n + 1) tables.old → HasRoom n tables.new }
{
    match tables.inputs.input_of(index) {
        None => {}
        Some(x) => post_to_input(tables, &x, msg),
    }
}

// Ends an input: a settled one's sink is to detach its stream. Its waiting requests and held messages are dropped.
fn end<P: Drop>(tables: &mut Tables<P>, x: &Input)
    requires { HasRoom 1 tables.old }
    ensures state { state_of tables.new ≡ ending x.now.standing x.now (state_of tables.old) }
    ensures room { (n : ℕ) → HasRoom (n + 1) tables.old → HasRoom n tables.new }
{
    match x.standing {
        Standing::Settled => {
            tables.inputs.leave(x.index);
            awaited::remove_input(&mut tables.waiting, x.index);
            delayed::remove_input(&mut tables.delayed, x.index);
            post(tables, x.sink, Msg::Detach { input: x.index });
        }
        Standing::Moving(_) => {
            tables.inputs.leave(x.index);
            awaited::remove_input(&mut tables.waiting, x.index);
            delayed::remove_input(&mut tables.delayed, x.index);
        }
        Standing::Leaving => {}
    }
}

// Ends the input with an index.
fn leave<P: Drop>(tables: &mut Tables<P>, index: InputId)
    requires { HasRoom 1 tables.old }
    ensures state { state_of tables.new ≡ changed (state_of tables.old) (Leaves index) }
    ensures room { (n : ℕ) → HasRoom (n + 1) tables.old → HasRoom n tables.new }
{
    match tables.inputs.input_of(index) {
        None => {}
        Some(x) => end(tables, &x),
    }
}

// Moves a settled input to a sink: the one that it is on is to detach its stream.
fn depart<P: Drop>(tables: &mut Tables<P>, x: &Input, to: SinkId)
    requires here { input_of tables.old.inputs.items x.now.index ≡ Some x.now }
    requires room { HasRoom 1 tables.old }
    ensures state { state_of tables.new ≡ departs to x.now.standing x.now (state_of tables.old) }
    ensures room { (n : ℕ) → HasRoom (n + 1) tables.old → HasRoom n tables.new }
{
    match x.standing {
        Standing::Settled => {
            tables.inputs.depart(x.index, to);
            post(tables, x.sink, Msg::Detach { input: x.index });
        }
        Standing::Moving(_) => {}
        Standing::Leaving => {}
    }
}

// Moves the input with an index to a sink.
fn depart_by_index<P: Drop>(tables: &mut Tables<P>, index: InputId, to: SinkId)
    requires { HasRoom 1 tables.old }
    ensures state { state_of tables.new ≡ changed (state_of tables.old) (Moves index to) }
    ensures room { (n : ℕ) → HasRoom (n + 1) tables.old → HasRoom n tables.new }
{
    match tables.inputs.input_of(index) {
        None => {}
        Some(x) => depart(tables, &x, to),
    }
}

// Settles a moving input on the sink that it moves to, and posts this message there.
fn arrive<P: Drop>(tables: &mut Tables<P>, x: &Input, msg: Msg<P>)
    requires here { input_of tables.old.inputs.items x.now.index ≡ Some x.now }
    requires room { HasRoom 1 tables.old }
    ensures state { state_of tables.new ≡ arrives x.now.standing x.now msg (state_of tables.old) }
    ensures room { (n : ℕ) → HasRoom (n + 1) tables.old → HasRoom n tables.new }
{
    match x.standing {
        Standing::Moving(to) => {
            tables.inputs.arrive(x.index, to);
            post(tables, to, msg);
        }
        Standing::Settled => {}
        Standing::Leaving => {}
    }
}

// Settles the input with an index on the sink that it moves to.
fn arrive_by_index<P: Drop>(tables: &mut Tables<P>, index: InputId, msg: Msg<P>)
    requires { HasRoom 1 tables.old }
    ensures state { state_of tables.new ≡ changed (state_of tables.old) (Arrives index msg) }
    ensures room { (n : ℕ) → HasRoom (n + 1) tables.old → HasRoom n tables.new }
{
    match tables.inputs.input_of(index) {
        None => {}
        Some(x) => arrive(tables, &x, msg),
    }
}

// Adds a new input, and posts the message with its stream to its sink.
fn make<P: Drop>(tables: &mut Tables<P>, x: Input, new: Msg<P>, streams: u32, inputs: u32)
    requires { HasRoom 1 tables.old }
    ensures state { state_of tables.new ≡ changed (state_of tables.old) (Made x new streams inputs) }
    ensures room { (n : ℕ) → HasRoom (n + 1) tables.old → HasRoom n tables.new }
{
    let sink = x.sink;
    px_input_table::set_streams(&mut tables.connections, x.conn, streams);
    tables.inputs.push(x);
    tables.inputs_made = inputs;
    post(tables, sink, new);
}

// Sets the property list of an input.
fn describe<P>(tables: &mut Tables<P>, index: InputId, list: PropList)
    requires { HasRoom 1 tables.old }
    ensures state { state_of tables.new ≡ changed (state_of tables.old) (Described index list) }
    ensures room { (n : ℕ) → HasRoom (n + 1) tables.old → HasRoom n tables.new }
{
    tables.lists.set(index, list);
}

// Sets the group of a sink, and posts this message to it.
fn regroup<P: Drop>(tables: &mut Tables<P>, sink: SinkId, group: Group, msg: Msg<P>)
    requires { HasRoom 1 tables.old }
    ensures state { state_of tables.new ≡ changed (state_of tables.old) (Regrouped sink group msg) }
    ensures room { (n : ℕ) → HasRoom (n + 1) tables.old → HasRoom n tables.new }
{
    set_group(&mut tables.groups, sink, group);
    post(tables, sink, msg);
}

// Adds a request to those that wait.
fn ask<P>(tables: &mut Tables<P>, w: Waiting)
    requires { HasRoom 1 tables.old }
    ensures state { state_of tables.new ≡ changed (state_of tables.old) (Asked w) }
    ensures room { (n : ℕ) → HasRoom (n + 1) tables.old → HasRoom n tables.new }
{
    tables.waiting.push_back_reserved(w);
}

// Removes an answered request from those that wait.
fn answer<P>(tables: &mut Tables<P>, w: &Waiting)
    ensures state { state_of tables.new ≡ changed (state_of tables.old) (Answered w.now) }
    ensures room { (n : ℕ) → HasRoom (n + 1) tables.old → HasRoom n tables.new }
{
    awaited::answer(&mut tables.waiting, w);
}

// Removes an ended input and its property list.
fn remove_input<P: Drop>(tables: &mut Tables<P>, index: InputId)
    requires { HasRoom 1 tables.old }
    ensures state { state_of tables.new ≡ changed (state_of tables.old) (Gone index) }
    ensures room { (n : ℕ) → HasRoom (n + 1) tables.old → HasRoom n tables.new }
{
    tables.inputs.remove(index);
    tables.lists.remove(index);
}

// Makes one change of an existing input, which takes one place of the room. Takes no memory.
fn apply_to_input<P: Drop>(tables: &mut Tables<P>, change: CoreChange<P>)
    requires family { IsOfInput change }
    requires room { HasRoom 1 tables.old }
    ensures state { state_of tables.new ≡ changed (state_of tables.old) change }
    ensures room { (n : ℕ) → HasRoom (n + 1) tables.old → HasRoom n tables.new }
{
    match change {
        Change::Described(index, list) => describe(tables, index, list),
        Change::Leaves(index) => leave(tables, index),
        Change::Moves(index, to) => depart_by_index(tables, index, to),
        Change::Arrives(index, msg) => arrive_by_index(tables, index, msg),
        Change::Released(index) => release(tables, index, 1),
        Change::Posted(index, msg) => post_by_index(tables, index, msg),
        Change::Gone(index) => remove_input(tables, index),
        _ => unreachable!(),
    }
}

/// Makes one change, which takes one place of the room. Takes no memory.
pub(crate) fn apply<P: Drop>(tables: &mut Tables<P>, change: CoreChange<P>)
    requires { HasRoom 1 tables.old }
    ensures state { state_of tables.new ≡ changed (state_of tables.old) change }
    ensures room { (n : ℕ) → HasRoom (n + 1) tables.old → HasRoom n tables.new }
{
    match change {
        Change::Authed(..)
        | Change::Named(..)
        | Change::Masked(..)
        | Change::Defaulted(_)
        | Change::Ended { .. }
        | Change::Forgotten(_) => clients::apply(tables, change),
        Change::Made {
            input,
            new,
            streams,
            inputs,
        } => make(tables, input, new, streams, inputs),
        Change::Described(..)
        | Change::Leaves(_)
        | Change::Moves(..)
        | Change::Arrives(..)
        | Change::Released(_)
        | Change::Posted(..)
        | Change::Gone(_) => apply_to_input(tables, change),
        Change::Regrouped(sink, group, msg) => regroup(tables, sink, group, msg),
        Change::Asked(w) => ask(tables, w),
        Change::Answered(w) => answer(tables, &w),
    }
}

// Makes the first change, and with one that releases a held message of an input all that follow it at once and do the same:
// they take one pass over those that are held. `changes` are those after it.
fn apply_first<P: Drop>(
    tables: &mut Tables<P>,
    change: CoreChange<P>,
    changes: &mut VecDeque<CoreChange<P>>,
)
    requires { HasRoom (length changes.old.items + 1) tables.old }
    ensures state { committed (state_of tables.new) changes.new.items ≡ committed (state_of tables.old) (change ∷ changes.old.items) }
    ensures room { HasRoom (length changes.new.items) tables.new }
    ensures len { length changes.new.items ≤ length changes.old.items }
{
    match change {
        Change::Released(index) => {
            let more = take_releases(changes, index);
            release(tables, index, more + 1);
        }
        _ => apply(tables, change),
    }
}

/// Makes all changes, in order. Takes no memory.
pub(crate) fn commit<P: Drop>(tables: &mut Tables<P>, changes: Vec<CoreChange<P>>)
    requires { HasRoom (length changes.items) tables.old }
    ensures state { state_of tables.new ≡ committed (state_of tables.old) changes.items }
{
    let mut changes = VecDeque::from_vec(changes);
    while let Some(change) = changes.pop_front() {
        apply_first(tables, change, &mut changes);
    }
}

// The effects of an outcome, with room for its changes. The state stays.
fn effects_with_room<P>(
    alloc: Global,
    asker: Option<ConnId>,
    tables: &mut Tables<P>,
    outcome: &StepOutcome<Msg<P>, Group>,
) -> Mem<Effects>
    requires sinks { AreSinks [] tables.old.sinks }
    requires before { AreShown tables.old.inputs.items }
    requires after { AreShown (answered (state_of tables.old) outcome.now).inputs }
    ensures effects { IfOk result (λ effects. effects ≡ answer_effects asker (state_of tables.old) outcome.now) }
    ensures state { state_of tables.new ≡ state_of tables.old }
    ensures room { OnOk result (HasRoom (length outcome.now.changes) tables.new) }
{
    let effects = answer_effects(alloc, asker, tables, outcome)?;
    reserve(tables, outcome.changes.len())?;
    Ok(effects)
}

/// Makes the changes of an outcome and returns its effects; the reply goes to `asker`. Where there is no memory for them
/// nothing has changed.
pub fn finish<P: Drop>(
    alloc: Global,
    tables: &mut Tables<P>,
    asker: Option<ConnId>,
    outcome: StepOutcome<Msg<P>, Group>,
) -> Mem<Effects>
    requires sinks { AreSinks [] tables.old.sinks }
    requires before { AreShown tables.old.inputs.items }
    requires after { AreShown (answered (state_of tables.old) outcome).inputs }
    ensures effects { IfOk result (λ effects. effects ≡ answer_effects asker (state_of tables.old) outcome) }
    ensures after { OnOk result (state_of tables.new ≡ answered (state_of tables.old) outcome) }
    ensures err { OnErr result (state_of tables.new ≡ state_of tables.old) }
{
    match effects_with_room(alloc, asker, tables, &outcome) {
        Ok(effects) => {
            commit(tables, outcome.changes);
            Ok(effects)
        }
        Err(error) => {
            drop(outcome);
            Err(error)
        }
    }
}
