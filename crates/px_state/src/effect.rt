//! The effects of a step on clients.

ghost use Rattle.std.specs.Prelude.{◌≡◌, ◌≢◌, ◌<◌, ◌≤◌, length, IfOk, IfSome};
ghost use Rattle.std.specs.Option.{option_to_list};
ghost use Rattle.px_types.specs.declared.limits.TheConstants.{MAX_PAYLOAD, CONTROL_CHANNEL};
ghost use Rattle.px_frame.specs.declared.frame.Body.TheVariants.{Write};
ghost use Rattle.px_frame.specs.Spelling.{spelling_of};
ghost use Rattle.px_state.specs.declared.effect.Effect.TheVariants.{Sent};
ghost use Rattle.px_state.specs.Effect.{framed, sent, closed_for, IsSendable};
ghost use Rattle.px_state.specs.Outcome.{closed_in};

use crate::change::CoreChange;
use px_frame::{Packet, write_data, write_packet};
use px_outcome::{Change, Reason};
use px_types::{ConnId, Mem, NoMemory};
use std::alloc::Global;

/// An effect of a step on a client.
#[derive(Debug, Drop)]
pub enum Effect {
    /// A whole frame goes to a client.
    Sent {
        conn: ConnId,
        packet: Packet,
    },
    /// A connection is ended by the server. Where the reason is a rule of the protocol, `fault` is the rule's number and `at`
    /// the offset in the connection's bytes; else both are 0.
    Closed {
        conn: ConnId,
        reason: Reason,
        fault: u8,
        at: u64,
    },
}

impl Effect {
    /// A control packet of 1 to 16,777,216 bytes goes to a client, as a whole frame (`pa_pstream_send_packet`).
    #[tactic(auto, unfolding(crate::specs::Effect::framed))]
    pub fn packet(alloc: Global, conn: ConnId, bytes: &[u8]) -> Mem<Effect>
        requires some { 0 < length bytes.now }
        requires few { length bytes.now ≤ MAX_PAYLOAD }
        ensures value { IfOk result (λ effect. effect ≡ sent conn bytes.now) }
        ensures sendable { IfOk result IsSendable }
    {
        match write_packet(alloc, bytes) {
            Ok(packet) => Ok(Effect::Sent { conn, packet }),
            Err(_) => Err(NoMemory),
        }
    }

    /// Sound goes to a client, as a whole frame (`pa_pstream_send_memblock`): 1 to 16,777,216 bytes for a stream other than
    /// 0xFFFFFFFF, at a byte offset from the origin of the seek mode, 0 to 3.
    pub fn data(
        alloc: Global,
        conn: ConnId,
        stream: u32,
        offset: i64,
        seek: u8,
        bytes: &[u8],
    ) -> Mem<Effect>
        requires some { 0 < length bytes.now }
        requires few { length bytes.now ≤ MAX_PAYLOAD }
        requires channel { stream ≢ CONTROL_CHANNEL }
        requires mode { seek ≤ 3 }
        ensures value { IfOk result (λ effect. effect ≡ Sent conn (spelling_of (Write stream offset seek bytes.now))) }
        ensures sendable { IfOk result IsSendable }
    {
        match write_data(alloc, stream, offset, seek, bytes) {
            Ok(packet) => Ok(Effect::Sent { conn, packet }),
            Err(_) => Err(NoMemory),
        }
    }
}

/// A connection is ended for a reason that isn't a rule of the protocol. Takes no memory.
pub fn closed_for(conn: ConnId, reason: Reason) -> Effect
    ensures value { result ≡ closed_for conn reason }
    ensures sendable { IsSendable result }
{
    Effect::Closed {
        conn,
        reason,
        fault: 0,
        at: 0,
    }
}

/// The end of a connection by the server, where the change is one. Takes no memory.
pub(crate) fn closed_in<P>(change: &CoreChange<P>) -> Option<Effect>
    ensures value { option_to_list result ≡ closed_in change.now }
    ensures sendable { IfSome result IsSendable }
{
    match change {
        Change::Ended {
            conn,
            reason: Some(reason),
            fault,
            at,
        } => Some(Effect::Closed {
            conn: *conn,
            reason: *reason,
            fault: *fault,
            at: *at,
        }),
        Change::Ended { reason: None, .. }
        | Change::Authed(..)
        | Change::Named(..)
        | Change::Masked(..)
        | Change::Defaulted(_)
        | Change::Made { .. }
        | Change::Described(..)
        | Change::Leaves(_)
        | Change::Moves(..)
        | Change::Arrives(..)
        | Change::Released(_)
        | Change::Posted(..)
        | Change::Regrouped(..)
        | Change::Asked(_)
        | Change::Answered(_)
        | Change::Gone(_)
        | Change::Forgotten(_) => None,
    }
}
