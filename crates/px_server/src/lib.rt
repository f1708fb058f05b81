//! The serving call of a live server: the core under its lock, with the workers of `px_workers`. `sinks` makes what the sinks need, `left` has what
//! is left of them, `served` what the call hands back, `handle` the workers' handle on the shared state, `closing` its end, and `call` the call
//! itself. It exports `serve` with `Served` and `LanePart`, and the workers' `Gate` with `PaceGate`.
#![tactic(auto)]

mod call;
mod closing;
mod handle;
mod left;
mod served;
mod sinks;

pub use call::serve;
pub use px_workers::{Gate, PaceGate};
pub use served::{LanePart, Served};
