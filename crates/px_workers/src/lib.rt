//! The workers of a live server: one for each sink and one for each client's link, from their start to their end. `gate` says when they go on, `stop`
//! why no more start, `job` what a job is, `handed` how it comes to its thread, `running` has a job in a thread of its own, `worker` what each worker
//! has, `sink_state` a sink with its turns, `link_work` and `sink_work` the work at a link and of a sink, `runs` the workers that run, `starting`
//! their starts, `hosting` what the host is asked for, and `serving` all of it. It exports `serve_all` with `Stop`, `SinkState` with `SinkFault`, and
//! `Gate` with `PaceGate`.
#![tactic(auto)]

mod gate;
mod handed;
mod hosting;
mod job;
mod link_work;
mod running;
mod runs;
mod serving;
mod sink_state;
mod sink_work;
mod starting;
mod stop;
mod worker;

pub use gate::{Gate, PaceGate};
pub use serving::serve_all;
pub use sink_state::{SinkFault, SinkState};
pub use stop::Stop;
