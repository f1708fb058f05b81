//! The outcome of a step.

ghost use Rattle.std.specs.Prelude.{◌≡◌, IfOk};
ghost use Rattle.px_outcome.specs.Outcome.{idle, replied, changing, notifying};

use crate::change::Change;
use crate::sending::Sending;
use px_tag::Packet;
use px_types::{ConnId, Mem};
use std::alloc::Global;
use std::marker::Model;

/// The changes and packets of a step. Nothing has changed yet: the changes are made once there is room for all of them.
#[derive(Drop)]
pub struct StepOutcome<M, G> {
    /// The reply to the connection that made the request, not framed yet.
    pub reply: Option<Packet>,
    /// The errors for waiting requests, in the order of the requests.
    pub errors: Vec<Sending>,
    /// The other packets to clients.
    pub notified: Vec<Sending>,
    /// The changes, in order.
    pub changes: Vec<Change<M, G>>,
}

impl<M, G> Model for StepOutcome<M, G> {
    ghost use Rattle.px_outcome.specs.Outcome.{OutcomeParts};

    ghost Value = { OutcomeParts M G };

    ghost view = { λ p. record { reply = p.reply; errors = p.errors.items; notified = p.notified.items; changes = p.changes.items } };
}

impl<M, G> StepOutcome<M, G> {
    /// No changes and no packets. Takes no memory.
    pub fn idle(alloc: Global) -> StepOutcome<M, G>
        ensures { result ≡ idle }
    {
        StepOutcome::changing(alloc, Vec::new(alloc))
    }

    /// These changes and no packets. Takes no memory.
    pub fn changing(alloc: Global, changes: Vec<Change<M, G>>) -> StepOutcome<M, G>
        ensures { result ≡ changing changes.items }
    {
        StepOutcome {
            reply: None,
            errors: Vec::new(alloc),
            notified: Vec::new(alloc),
            changes,
        }
    }

    /// These changes, and `packet` as the reply. Takes no memory.
    pub fn replied(alloc: Global, packet: Packet, changes: Vec<Change<M, G>>) -> StepOutcome<M, G>
        ensures { result ≡ replied packet changes.items }
    {
        StepOutcome {
            reply: Some(packet),
            errors: Vec::new(alloc),
            notified: Vec::new(alloc),
            changes,
        }
    }
}

impl<M: Drop, G: Drop> StepOutcome<M, G> {
    /// No changes; `packet` goes to the connection `conn`.
    pub fn notifying(alloc: Global, conn: ConnId, packet: Packet) -> Mem<StepOutcome<M, G>>
        ensures { IfOk result (λ outcome. outcome ≡ notifying conn packet) }
    {
        let mut notified = Vec::new(alloc);
        notified.push(Sending { conn, packet })?;
        Ok(StepOutcome {
            reply: None,
            errors: Vec::new(alloc),
            notified,
            changes: Vec::new(alloc),
        })
    }
}
