//! A sink's mixer over a device: its streams, their mix, and a turn. All the memory of a turn is taken before its first message (`MsgList::prepare`);
//! from then on nothing can fail but the device. `lane` has the turn over a device, `mixer` the sink without it, `remix` its frames mixed afresh,
//! `buffer` its bytes, `mixed` the inputs with the kept sums of their mix, `taking` the messages to them, `setting` their factors, `altered` which
//! mixed frames these alter, `adding` the frames that come, `inputs` the list of inputs, `lists` what a turn takes and gives, `rows` what some turns
//! cost. It exports `Lane` with `Turned` and `LaneFault`, `MsgList` and `NoticeList`, the law `turns_cost_this`, and what a lane is made of:
//! `SinkMixer` with `Input` and `Prepared`.
#![tactic(auto)]

mod adding;
mod altered;
mod buffer;
mod finding;
mod input;
mod inputs;
mod lane;
mod lists;
mod memory;
mod mixed;
mod mixer;
mod prepared;
mod ready;
mod remix;
mod rows;
mod setting;
mod taking;

pub use input::Input;
pub use lane::{Lane, LaneFault, Turned};
pub use lists::{MsgList, NoticeList};
pub use mixer::SinkMixer;
pub use prepared::Prepared;
pub use rows::turns_cost_this;
