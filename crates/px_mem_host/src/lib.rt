//! The host in memory, for tests of a live server: its links, its devices and its histories, with what it took back. It exports `MemHost` with what
//! it takes back (`Taken`, `Retired`), and `HostLink` of `SharedLink` with `LinkPlan` and `LinkPlans`, and of the links that it dials, with `DialPlan`.
#![tactic(auto)]

mod dialling;
mod host_link;
mod making;
mod memory_host;
mod plan;
mod shared_link;
mod taken;

pub use host_link::HostLink;
pub use memory_host::MemHost;
pub use plan::{DialPlan, LinkPlan, LinkPlans};
pub use shared_link::SharedLink;
pub use taken::{Retired, Taken};
