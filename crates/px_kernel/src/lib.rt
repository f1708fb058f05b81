//! The loops over samples, four at a time: adding a stream's share to sums, subtracting it, and clipping sums. `change` has the first two,
//! `clip` the third, `steps` the count of the samples that go through them.
#![tactic(auto)]

mod change;
mod clip;
mod steps;

pub use change::{add_scaled, sub_scaled};
pub use clip::clip_pack;
pub use steps::Steps;
