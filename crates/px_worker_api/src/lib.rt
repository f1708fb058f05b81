//! The operations that a worker of a live server may perform on the shared state: `handle` has them as a trait, `out_queue` what a client's
//! output queue holds next. It exports `Handle` with `CoreStop`, and `Next` with `PartlySent`.
#![tactic(auto)]

mod handle;
mod out_queue;

pub use handle::{CoreStop, Handle};
pub use out_queue::{Next, PartlySent};
