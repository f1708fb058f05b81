//! Mailboxes: ordered queues between two threads, which under every schedule deliver what was posted in order, each item once. `letter` is what a
//! mailbox may carry, `pass` the right of each of the two threads, `mailbox` the queue itself, `shared` a mailbox with both threads' handles and
//! passes.
#![tactic(auto)]

mod letter;
mod mailbox;
mod pass;
mod shared;
mod step;

pub use letter::Letter;
pub use mailbox::{Full, Mailbox};
pub use pass::{PostPass, TakePass};
pub use shared::Shared;
pub use step::{Account, Delivery};
