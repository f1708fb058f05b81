//! The notification of clients of events (PulseAudio: `subscription_cb` of `pulsecore/protocol-native.c`).

ghost use Rattle.std.specs.Prelude.{◌≡◌, ◌++◌, ◌∷◌, List, IfOk, OnOk};
ghost use Rattle.px_subscribe.specs.declared.announce.Subscriber.{Subscriber};
ghost use Rattle.px_subscribe.specs.declared.event.Event.{Event};
ghost use Rattle.px_subscribe.specs.Announce.{announced, announced_all};

use crate::event::{Event, hears};
use px_outcome::Sending;
use px_types::{ConnId, Mem};
use std::alloc::Global;

/// A connection that subscribes to the facilities of a mask.
#[derive(Clone, Copy, Debug, PartialEq, Eq)]
pub struct Subscriber {
    pub conn: ConnId,
    pub mask: u32,
}

// Notifies one subscriber, where its mask has the facility of `event`.
fn notify_one(alloc: Global, sendings: &mut Vec<Sending>, one: &Subscriber, event: Event) -> Mem<()>
    ensures { OnOk result ((more : List Subscriber) → sendings.new.items ++ announced more event ≡ sendings.old.items ++ announced (one.now ∷ more) event) }
{
    if hears(one.mask, event.facility) {
        let packet = event.message(alloc)?;
        sendings.push(Sending {
            conn: one.conn,
            packet,
        })?;
    }
    Ok(())
}

// Notifies each subscriber whose mask has the facility of `event`.
fn announce(
    alloc: Global,
    sendings: &mut Vec<Sending>,
    subscribers: &[Subscriber],
    event: Event,
) -> Mem<()>
    ensures { OnOk result (sendings.new.items ≡ sendings.old.items ++ announced subscribers.now event) }
{
    for one in subscribers {
        notify_one(alloc, sendings, one, event)?;
    }
    Ok(())
}

// Notifies the subscribers of one more event.
fn announce_one(
    alloc: Global,
    sendings: &mut Vec<Sending>,
    subscribers: &[Subscriber],
    event: &Event,
) -> Mem<()>
    ensures { OnOk result ((more : List Event) →
        sendings.new.items ++ announced_all subscribers.now more ≡ sendings.old.items ++ announced_all subscribers.now (event.now ∷ more)) }
{
    announce(alloc, sendings, subscribers, *event)
}

/// Sends each event to the subscribers whose mask has its facility: the events in their order, and for each the subscribers
/// in theirs.
pub fn announce_all(
    alloc: Global,
    subscribers: &[Subscriber],
    events: &[Event],
) -> Mem<Vec<Sending>>
    ensures { IfOk result (λ sendings. sendings.items ≡ announced_all subscribers.now events.now) }
{
    let mut sendings = Vec::new(alloc);
    for event in events {
        announce_one(alloc, &mut sendings, subscribers, event)?;
    }
    Ok(sendings)
}
