//! How the effects of an event are shown, where a mode has made the event or left out bytes before it.

ghost use Rattle.std.specs.Prelude.{◌≡◌, ◌++◌, IfOk, IfSome, OnOk};
ghost use Rattle.std.specs.Option.{option_to_list};
ghost use Rattle.px_state.specs.declared.effect.Effect.TheVariants.{Closed};
ghost use Rattle.px_state.specs.Effect.{IsSendable};
ghost use Rattle.px_sieve.specs.Scene.{is_for_rule, shifted_one, shifted};

use px_outcome::Reason;
use px_state::{Effect, Effects};
use px_types::{ConnId, Mem};
use std::alloc::Global;
use std::collections::VecDeque;

/// How the effects of an event are shown.
#[derive(Clone, Copy, Debug, PartialEq, Eq)]
pub enum Shift {
    /// As they are.
    Unshifted,
    /// Where connection `conn` is ended for a rule of the protocol, `skipped` of its bytes were left out before: the offset is
    /// that in all its bytes.
    Moved { conn: ConnId, skipped: u64 },
    /// Where it is, it is for `fault` at the offset `at`.
    Faulted { conn: ConnId, fault: u8, at: u64 },
    /// Those on the connection aren't shown.
    Hidden(ConnId),
}

// Whether a connection is ended for a rule of the protocol. Takes no memory.
fn is_for_rule(reason: Reason) -> bool
    ensures { result ≡ is_for_rule reason }
{
    match reason {
        Reason::Protocol => true,
        Reason::Limit | Reason::Killed | Reason::Cut => false,
    }
}

// The end of a connection, as it is shown. Takes no memory.
fn shifted_end(shift: Shift, to: ConnId, reason: Reason, fault: u8, at: u64) -> Option<Effect>
    ensures value { option_to_list result ≡ shifted_one shift (Closed to reason fault at) }
    ensures sendable { IfSome result IsSendable }
{
    let conn = to;
    match shift {
        Shift::Moved { conn: of, skipped } if to.0 == of.0 && is_for_rule(reason) => {
            let at = at.saturating_add(skipped);
            Some(Effect::Closed {
                conn,
                reason,
                fault,
                at,
            })
        }
        Shift::Faulted {
            conn: of,
            fault,
            at,
        } if to.0 == of.0 && is_for_rule(reason) => Some(Effect::Closed {
            conn,
            reason,
            fault,
            at,
        }),
        Shift::Hidden(of) if to.0 == of.0 => None,
        _ => Some(Effect::Closed {
            conn,
            reason,
            fault,
            at,
        }),
    }
}

// An effect, as it is shown. Takes no memory.
fn shifted_one(shift: Shift, effect: Effect) -> Option<Effect>
    requires { IsSendable effect }
    ensures value { option_to_list result ≡ shifted_one shift effect }
    ensures sendable { IfSome result IsSendable }
{
    match effect {
        Effect::Closed {
            conn,
            reason,
            fault,
            at,
        } => shifted_end(shift, conn, reason, fault, at),
        Effect::Sent { conn, packet } => match shift {
            Shift::Hidden(of) if conn.0 == of.0 => None,
            _ => Some(Effect::Sent { conn, packet }),
        },
    }
}

// Appends an effect, if there is one.
fn push(effects: &mut Effects, effect: Option<Effect>) -> Mem<()>
    requires { IfSome effect IsSendable }
    ensures { OnOk result (effects.new ≡ effects.old ++ option_to_list effect) }
{
    match effect {
        Some(effect) => effects.push(effect),
        None => Ok(()),
    }
}

/// The effects of an event, as they are shown. Where they are shown as they are, it takes no memory.
pub fn shifted(alloc: Global, shift: Shift, effects: Effects) -> Mem<Effects>
    ensures { IfOk result (λ all. all ≡ shifted shift effects) }
{
    if let Shift::Unshifted = shift {
        return Ok(effects);
    }
    let mut all = Effects::new(alloc);
    let mut rest = VecDeque::from_vec(effects.into_vec());
    while let Some(effect) = rest.pop_front() {
        push(&mut all, shifted_one(shift, effect))?;
    }
    Ok(all)
}
