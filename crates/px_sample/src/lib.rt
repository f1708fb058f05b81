//! Sample formats, and the work values that samples are mixed as. `format` has the formats and their sizes and widths, `spec` the sample
//! spec of a stream or a sink, `sample` reading and writing, `width` the conversion between widths. `coding` has the loops over samples,
//! `linear` and `g711` one sample of each format.
#![tactic(auto)]

mod coding;
mod format;
mod g711;
mod laws;
mod linear;
mod sample;
mod spec;
mod width;

pub use format::{Format, Width};
pub use laws::packing_gives_back;
pub use sample::{pack, unpack};
pub use spec::Spec;
pub use width::to_work;
