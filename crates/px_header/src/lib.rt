//! The header of a session: its cookie and its sinks, each with its sample spec, its speaker map and its limits, and the rules of
//! their fields. It exports `Header`, `SinkSpec` and `SinkSpecs`.
#![tactic(auto)]

mod header;

pub use header::{Header, SinkSpec, SinkSpecs};
