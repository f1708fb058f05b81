//! The groups of volumes, one a sink.

ghost use Rattle.std.specs.Prelude.{◌≡◌, set, slice_get};
ghost use Rattle.std.specs.Option.{option_map};
ghost use Rattle.px_sinks.specs.Sinks.{group_named, group_under};

use px_flat::Group;
use px_outcome::{Input, Named};
use px_types::SinkId;

/// The group of a sink, where it exists. Takes no memory.
pub fn group_on(groups: &[Group], sink: SinkId) -> Option<&Group>
    ensures { option_map (λ g. g.now) result ≡ slice_get groups.now sink.0 }
{
    groups.get(sink.0 as usize)
}

/// The group of the named sink, where it exists. Takes no memory.
pub fn group_named<'a>(groups: &'a [Group], named: &Named) -> Option<&'a Group>
    ensures { option_map (λ g. g.now) result ≡ group_named groups.now named.now }
{
    match named {
        Named::Sink(target) => group_on(groups, target.index),
        Named::Unclear | Named::Unknown => None,
    }
}

/// The group of the sink that an input is on, where both exist. Takes no memory.
pub fn group_under<'a>(groups: &'a [Group], input: &Option<Input>) -> Option<&'a Group>
    ensures { option_map (λ g. g.now) result ≡ group_under groups.now input.now }
{
    match input {
        None => None,
        Some(x) => group_on(groups, x.sink),
    }
}

/// Sets the group of a sink. Takes no memory.
pub fn set_group(groups: &mut Vec<Group>, sink: SinkId, group: Group)
    ensures { groups.new.items ≡ set groups.old.items sink.0 group }
{
    let place = sink.0 as usize;
    if place < groups.len() {
        groups[place] = group;
    }
}
