//! The sums of a mix that are kept from turn to turn, unclipped, so that a change costs no more than what it changes. `run` has the sums of
//! one channel, `runs` loops over those of all, `packing` and `stereo` the frames that they become, `cache` the whole.
#![tactic(auto)]

mod cache;
mod packing;
mod run;
mod runs;
mod stereo;

pub use cache::MixCache;
