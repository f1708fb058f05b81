//! Flat volume groups: the volumes of a sink's inputs, of which the loudest sets the sink's own (PulseAudio's flat volumes). `channels` has
//! the arithmetic of per-channel numbers, `member` an input in its group, `group` the group, `laws` its laws.
#![tactic(auto)]

mod channels;
mod group;
mod laws;
mod member;
mod members;

pub use group::Group;
pub use laws::volumes_keep_inputs;
pub use member::{How, Member, Ratios};
