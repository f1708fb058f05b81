//! The sinks of the header and their groups of volumes, as commands see them. It exports the look-ups: a sink by the index
//! or name in a command, its rate and depth, all sinks, and the group of a sink.
#![tactic(auto)]

mod groups;
mod targets;

pub use groups::{group_named, group_on, group_under, set_group};
pub use targets::{
    default_sink, depth_of, named_by, rate_of, rate_on, sink_of, target_at, targets_of,
};
