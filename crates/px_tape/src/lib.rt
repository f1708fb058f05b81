//! The tape of a live server: the steps of the core and the turns of the sinks that it made, in their order, as the events of a session. `events` has
//! lists of events, `pieces` a client's frames and faults as events, `turns` the turns that a sink made, and `tape` the order of all. It exports
//! `Events`, `SinkTurns` and `Tape`.
#![tactic(auto)]

mod events;
mod pieces;
mod tape;
mod turns;

pub use events::Events;
pub use tape::Tape;
pub use turns::SinkTurns;
