//! The state that all workers of a live server share, and each worker's handle on it. `out_queues` has the packets that wait for clients, `shared`
//! the shared state, `step` one step of the core with what it adds to the queues and to the tape, `retryable` the steps that can be made again,
//! `retry` the steps that a handle makes until they are done, `after_step` what follows them, and `handle` the handle. It exports `Shared` and
//! `CoreHandle`.
#![tactic(auto)]

mod after_step;
mod handle;
mod out_queues;
mod retry;
mod retryable;
mod shared;
mod step;

pub use handle::CoreHandle;
pub use shared::Shared;
