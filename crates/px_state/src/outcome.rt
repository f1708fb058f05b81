//! The outcomes of the core: of a request, and of a connection's end.

ghost use Rattle.std.specs.Prelude.{◌≡◌, IfOk};
ghost use Rattle.px_outcome.specs.Handled.{Handled, HandledAs};
ghost use Rattle.px_state.specs.Effect.{fault_code, fault_place};
ghost use Rattle.px_state.specs.Outcome.{CoreOutcome, refused, reply_fits, fitting, requested, broken_off};

use crate::change::alone;
use crate::effects::fits;
use px_flat::Group;
use px_msg::Msg;
use px_outcome::{Change, Reason, Refusal, StepOutcome};
use px_tag::{Packet, TagFault};
use px_types::{ConnId, ErrorCode, Mem, NoMemory};
use std::alloc::Global;

/// An error for the request under `tag`; nothing changes.
pub fn refused<P: Drop>(alloc: Global, tag: u32, code: ErrorCode) -> Mem<StepOutcome<Msg<P>, Group>>
    ensures { IfOk result (λ outcome. outcome ≡ refused tag code) }
{
    match px_reply::error(alloc, tag, code) {
        Ok(packet) => Ok(StepOutcome::replied(alloc, packet, Vec::new(alloc))),
        Err(_) => Err(NoMemory),
    }
}

// Whether a frame can carry the reply, where there is one.
fn reply_fits(reply: &Option<Packet>) -> bool
    ensures { result ≡ reply_fits reply.now }
{
    match reply {
        None => true,
        Some(packet) => fits(packet),
    }
}

// Replaces an outcome by a refusal where no frame can carry its reply.
fn fitting<P: Drop>(
    alloc: Global,
    tag: u32,
    outcome: StepOutcome<Msg<P>, Group>,
) -> Mem<StepOutcome<Msg<P>, Group>>
    ensures { IfOk result (λ made. made ≡ fitting tag outcome) }
{
    if reply_fits(&outcome.reply) {
        Ok(outcome)
    } else {
        refused(alloc, tag, ErrorCode::TooLarge)
    }
}

/// The result of a command's handler, for a request under a tag: its outcome where a frame can carry the reply, else an
/// error. `Err` where the handler found no memory.
pub fn requested<P: Drop>(
    alloc: Global,
    tag: u32,
    given: Result<StepOutcome<Msg<P>, Group>, Refusal>,
) -> Mem<StepOutcome<Msg<P>, Group>>
    ensures { (handled : Handled (CoreOutcome P)) → HandledAs given handled → IfOk result (λ outcome. outcome ≡ requested tag handled) }
{
    match given {
        Ok(outcome) => fitting(alloc, tag, outcome),
        Err(Refusal::Code(code)) => refused(alloc, tag, code),
        Err(Refusal::NoMemory) => Err(NoMemory),
    }
}

// The number of a fault in a packet, after the five of frame faults.
fn fault_code(fault: TagFault) -> u8
    ensures { result ≡ fault_code fault }
{
    match fault {
        TagFault::WrongTag { at: _ } => 6,
        TagFault::Short { at: _ } => 7,
        TagFault::BadValue { at: _ } => 8,
        TagFault::Left { at: _ } => 9,
    }
}

// Its place in the packet.
fn fault_place(fault: TagFault) -> usize
    ensures { result ≡ fault_place fault }
{
    match fault {
        TagFault::WrongTag { at }
        | TagFault::Short { at }
        | TagFault::BadValue { at }
        | TagFault::Left { at } => at,
    }
}

/// The connection is ended without a reply, for a fault in a packet whose first byte has this offset.
pub fn broken_off<P: Drop>(
    alloc: Global,
    conn: ConnId,
    at: u64,
    fault: TagFault,
) -> Mem<StepOutcome<Msg<P>, Group>>
    ensures { IfOk result (λ outcome. outcome ≡ broken_off conn at fault) }
{
    let end = Change::Ended {
        conn,
        reason: Some(Reason::Protocol),
        fault: fault_code(fault),
        at: at.saturating_add(fault_place(fault) as u64),
    };
    Ok(StepOutcome::changing(alloc, alone(alloc, end)?))
}
