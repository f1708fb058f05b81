//! Changes of an input in a list: the first with an index, where there is one, is changed or removed. Nothing takes memory.

ghost use Rattle.std.specs.Prelude.{◌≡◌, ◌≤◌, vec_len, vec_capacity};
ghost use Rattle.std.specs.List.{position};
ghost use Rattle.std.specs.Option.{option_map};
ghost use Rattle.px_outcome.specs.Input.{has_index, input_of};
ghost use Rattle.px_input_table.specs.Lists.{change_first, drop_first};
ghost use Rattle.px_input_table.specs.Inputs.{leaving, with_attr, on_way, moving_to, arrived_at};

use px_model::Attr;
use px_outcome::{Input, Standing, Way};
use px_types::{InputId, SinkId};

/// The input with an index. Takes no memory.
pub fn input_of(inputs: &[Input], index: InputId) -> Option<&Input>
    ensures { option_map (λ x. x.now) result ≡ input_of inputs.now index }
{
    inputs.iter().find(|x| x.index.0 == index.0)
}

// The place of the input with an index.
fn place_at(inputs: &[Input], index: InputId) -> Option<usize>
    ensures { result ≡ position (has_index index) inputs.now }
{
    inputs.iter().position(|x| x.index.0 == index.0)
}

/// Marks an input as ended.
pub fn leave(inputs: &mut Vec<Input>, index: InputId)
    ensures items { inputs.new.items ≡ change_first (has_index index) leaving inputs.old.items }
    ensures capacity { vec_capacity inputs.new ≡ vec_capacity inputs.old }
    ensures len { vec_len inputs.new ≡ vec_len inputs.old }
{
    if let Some(place) = place_at(inputs, index) {
        inputs[place].standing = Standing::Leaving;
    }
}

/// Sets an input's buffer attributes.
pub fn set_attr(inputs: &mut Vec<Input>, index: InputId, attr: Attr)
    ensures items { inputs.new.items ≡ change_first (has_index index) (with_attr attr) inputs.old.items }
    ensures capacity { vec_capacity inputs.new ≡ vec_capacity inputs.old }
    ensures len { vec_len inputs.new ≡ vec_len inputs.old }
{
    if let Some(place) = place_at(inputs, index) {
        inputs[place].attr = attr;
    }
}

/// Sets the `way` of an input's stream.
pub(crate) fn set_way(inputs: &mut Vec<Input>, index: InputId, way: Way)
    ensures items { inputs.new.items ≡ change_first (has_index index) (on_way way) inputs.old.items }
    ensures capacity { vec_capacity inputs.new ≡ vec_capacity inputs.old }
{
    if let Some(place) = place_at(inputs, index) {
        inputs[place].way = way;
    }
}

/// Sets the sink that an input moves to.
pub fn depart(inputs: &mut Vec<Input>, index: InputId, to: SinkId)
    ensures items { inputs.new.items ≡ change_first (has_index index) (moving_to to) inputs.old.items }
    ensures capacity { vec_capacity inputs.new ≡ vec_capacity inputs.old }
    ensures len { vec_len inputs.new ≡ vec_len inputs.old }
{
    if let Some(place) = place_at(inputs, index) {
        inputs[place].standing = Standing::Moving(to);
    }
}

/// Settles an input on a sink; the message with its stream is still to be handed out.
pub fn arrive(inputs: &mut Vec<Input>, index: InputId, to: SinkId)
    ensures items { inputs.new.items ≡ change_first (has_index index) (arrived_at to) inputs.old.items }
    ensures capacity { vec_capacity inputs.new ≡ vec_capacity inputs.old }
    ensures len { vec_len inputs.new ≡ vec_len inputs.old }
{
    if let Some(place) = place_at(inputs, index) {
        let x = &mut inputs[place];
        x.sink = to;
        x.standing = Standing::Settled;
        x.way = Way::Coming;
    }
}

/// Removes an input.
pub fn remove(inputs: &mut Vec<Input>, index: InputId)
    ensures items { inputs.new.items ≡ drop_first (has_index index) inputs.old.items }
    ensures capacity { vec_capacity inputs.new ≡ vec_capacity inputs.old }
    ensures len { vec_len inputs.new ≤ vec_len inputs.old }
{
    if let Some(place) = place_at(inputs.as_slice(), index) {
        inputs.remove(place);
    }
}
