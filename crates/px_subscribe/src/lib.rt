//! Subscription events: the notifications of a step to the clients that subscribed. `event` has an event and the facilities
//! of a mask, `announce` the clients that are notified of it, `between` the events between two moments (`walk` of the infos,
//! `object`, of a facility); `scene` is a copy of
//! the parts of the server's state that infos and subscriptions read, to which a command's changes are made first, and
//! `moments` compares two of them. It exports these, and their laws.
#![tactic(auto)]

mod announce;
mod between;
mod copies;
mod event;
mod laws;
mod moments;
mod object;
mod quiet;
mod scene;
mod walk;

pub use announce::{Subscriber, announce_all};
pub use between::{Counts, Moment, events_between};
pub use event::{Event, Facility, Kind, hears};
pub use laws::events_say_what_became;
pub use quiet::{
    are_deaf, are_quiet, nobody_hears, quiet_changes_notify_nobody, the_deaf_are_not_notified,
};
pub use scene::Scene;
