//! The effects of a step, in order.

ghost use Rattle.std.specs.Prelude.{◌≡◌, ◌<◌, ◌≤◌, ◌++◌, ◌∷◌, [], true, length, vec_capacity, List, OnOk, OnErr, IfOk, IfSome};
ghost use Rattle.std.specs.Option.{option_to_list};
ghost use Rattle.px_outcome.specs.declared.sending.Sending.{Sending};
ghost use Rattle.px_state.specs.Change.{Change};
ghost use Rattle.px_state.specs.Effect.{fits, sending, IsSendable, AreSendable};
ghost use Rattle.px_state.specs.Outcome.{reply_to_asker, sent_all, closed_all, outcome_effects};

use crate::change::CoreChange;
use crate::effect::{Effect, closed_in};
use px_flat::Group;
use px_msg::Msg;
use px_outcome::{Sending, StepOutcome};
use px_tag::Packet;
use px_types::limits::MAX_PAYLOAD;
use px_types::{ConnId, Mem};
use std::alloc::Global;
use std::marker::Model;

/// Effects in order. Contracts see them as a list. What goes to a client is one whole frame, of a control packet or of a
/// write, with 1 to 16,777,216 bytes of payload.
#[derive(Debug, Drop)]
pub struct Effects {
    effects: Vec<Effect>,
}

impl Model for Effects {
    ghost use Rattle.std.specs.Prelude.{List};
    ghost use Rattle.px_state.specs.declared.effect.Effect.{Effect};
    ghost use Rattle.px_state.specs.Effect.{AreSendable};

    ghost Value = { List Effect };

    ghost view = { λ e. e.effects.items };

    ghost invariant = { λ e. AreSendable e.effects.items };
}

impl Effects {
    /// No effects. Takes no memory.
    pub fn new(alloc: Global) -> Effects
        ensures { result ≡ [] }
    {
        Effects {
            effects: Vec::new(alloc),
        }
    }

    /// This effect alone.
    pub fn of(alloc: Global, effect: Effect) -> Mem<Effects>
        requires { IsSendable effect }
        ensures { IfOk result (λ effects. effects ≡ effect ∷ []) }
    {
        let mut effects = Effects::new(alloc);
        effects.push(effect)?;
        Ok(effects)
    }

    /// Appends an effect. After an `Err` the effect is dropped, and no other is.
    #[tactic(auto, using(crate::proofs::Sendable::more_sendable))]
    pub fn push(&mut self, effect: Effect) -> Mem<()>
        requires { IsSendable effect }
        ensures ok { OnOk result (self.new ≡ self.old ++ effect ∷ []) }
        ensures err { OnErr result (self.new ≡ self.old) }
    {
        self.effects.push(effect)?;
        Ok(())
    }

    /// Appends the effects of another list. After an `Err` those are dropped, and these stay as they were.
    #[tactic(auto, using(crate::proofs::Sendable::all_sendable))]
    pub fn append(&mut self, mut more: Effects) -> Mem<()>
        ensures ok { OnOk result (self.new ≡ self.old ++ more) }
        ensures err { OnErr result (self.new ≡ self.old) }
    {
        self.effects.append(&mut more.effects)?;
        Ok(())
    }

    /// The effects, in order. Takes no memory.
    pub fn as_slice(&self) -> &[Effect]
        ensures items { result.now ≡ self.now }
        ensures sendable { AreSendable result.now }
    {
        self.effects.as_slice()
    }

    /// The effects themselves, in order. Takes no memory.
    pub fn into_vec(self) -> Vec<Effect>
        ensures items { result.items ≡ self }
        ensures sendable { AreSendable result.items }
    {
        self.effects
    }
}

/// Room for one effect, reserved before the step that may cause it.
#[derive(Debug, Drop)]
pub struct EffectRoom {
    effects: Vec<Effect>,
    ghost none: { effects.items ≡ [] },
    ghost room: { 0 < vec_capacity effects },
}

impl EffectRoom {
    /// Room for an effect.
    pub fn new(alloc: Global) -> Mem<EffectRoom> {
        Ok(EffectRoom {
            effects: Vec::with_capacity(alloc, 1)?,
        })
    }

    /// This effect alone, or none. Takes no memory.
    pub fn hold(self, effect: Option<Effect>) -> Effects
        requires { IfSome effect IsSendable }
        ensures { result ≡ option_to_list effect }
    {
        let mut effects = self.effects;
        if let Some(effect) = effect {
            effects.push(effect).unwrap();
        }
        Effects { effects }
    }
}

/// Whether a frame can carry a packet. Takes no memory.
pub(crate) fn fits(packet: &Packet) -> bool
    ensures value { result ≡ fits packet.now }
    ensures some { result ≡ true → 0 < length packet.now }
    ensures few { result ≡ true → length packet.now ≤ 16777216 }
{
    let bytes = packet.as_slice();
    !bytes.is_empty() && bytes.len() <= MAX_PAYLOAD as usize
}

// Sends a packet to a connection, where a frame can carry it.
fn send(alloc: Global, effects: &mut Effects, conn: ConnId, packet: &Packet) -> Mem<()>
    ensures { OnOk result (effects.new ≡ effects.old ++ sending conn packet.now) }
{
    if fits(packet) {
        effects.push(Effect::packet(alloc, conn, packet.as_slice())?)?;
    }
    Ok(())
}

// Sends the reply to `asker`.
fn send_reply(
    alloc: Global,
    effects: &mut Effects,
    reply: &Option<Packet>,
    asker: Option<ConnId>,
) -> Mem<()>
    ensures { OnOk result (effects.new ≡ effects.old ++ reply_to_asker reply.now asker) }
{
    match reply {
        None => Ok(()),
        Some(packet) => match asker {
            None => Ok(()),
            Some(conn) => send(alloc, effects, conn, packet),
        },
    }
}

// Sends one of several packets.
fn send_one(alloc: Global, effects: &mut Effects, one: &Sending) -> Mem<()>
    ensures { OnOk result ((more : List Sending) → effects.new ++ sent_all more ≡ effects.old ++ sent_all (one.now ∷ more)) }
{
    send(alloc, effects, one.conn, &one.packet)
}

/// Sends each packet to its connection.
pub(crate) fn send_all(alloc: Global, effects: &mut Effects, sendings: &[Sending]) -> Mem<()>
    ensures { OnOk result (effects.new ≡ effects.old ++ sent_all sendings.now) }
{
    for one in sendings {
        send_one(alloc, effects, one)?;
    }
    Ok(())
}

// Adds the end of a connection, where the change is one.
fn close_one<P>(effects: &mut Effects, change: &CoreChange<P>) -> Mem<()>
    ensures { OnOk result ((more : List (Change P)) → effects.new ++ closed_all more ≡ effects.old ++ closed_all (change.now ∷ more)) }
{
    match closed_in(change) {
        None => Ok(()),
        Some(effect) => effects.push(effect),
    }
}

// Adds the ends of connections among changes.
fn close_all<P>(effects: &mut Effects, changes: &[CoreChange<P>]) -> Mem<()>
    ensures { OnOk result (effects.new ≡ effects.old ++ closed_all changes.now) }
{
    for change in changes {
        close_one(effects, change)?;
    }
    Ok(())
}

/// The packets to clients, and the ends of connections among changes.
pub(crate) fn notified_and_closed<P>(
    alloc: Global,
    notified: &[Sending],
    changes: &[CoreChange<P>],
) -> Mem<Effects>
    ensures { IfOk result (λ effects. effects ≡ sent_all notified.now ++ closed_all changes.now) }
{
    let mut effects = Effects::new(alloc);
    send_all(alloc, &mut effects, notified)?;
    close_all(&mut effects, changes)?;
    Ok(effects)
}

/// The effects of an outcome: the reply, the errors for waiting requests, the packets to clients, and the connections that
/// are ended.
pub(crate) fn outcome_effects<P>(
    alloc: Global,
    asker: Option<ConnId>,
    outcome: &StepOutcome<Msg<P>, Group>,
) -> Mem<Effects>
    ensures { IfOk result (λ effects. effects ≡ outcome_effects asker outcome.now) }
{
    let mut effects = Effects::new(alloc);
    send_reply(alloc, &mut effects, &outcome.reply, asker)?;
    send_all(alloc, &mut effects, &outcome.errors)?;
    send_all(alloc, &mut effects, &outcome.notified)?;
    close_all(&mut effects, &outcome.changes)?;
    Ok(effects)
}
