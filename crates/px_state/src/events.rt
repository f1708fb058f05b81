//! The subscription events of a step, computed before it is made: once it is, nothing may take memory.

ghost use Rattle.std.specs.Prelude.{◌≡◌, ◌++◌, ◌∷◌, [], ◌+◌, ◌<◌, IfOk, OnOk};
ghost use Rattle.px_header.specs.HeaderRules.{AreSinks};
ghost use Rattle.px_msg.specs.declared.message.Msg.{Msg as Message};
ghost use Rattle.px_outcome.specs.declared.change.Change.TheVariants.{Arrives};
ghost use Rattle.px_subscribe.specs.Moments.{AreShown};
ghost use Rattle.px_subscribe.specs.Scene.{scene_after, scene_arrived};
ghost use Rattle.px_state.specs.Answered.{answered, answer_effects};
ghost use Rattle.px_state.specs.Change.{committed};
ghost use Rattle.px_state.specs.Change.{joined};
ghost use Rattle.px_state.specs.Events.{scene_of, step_events};
ghost use Rattle.px_state.specs.Tables.{state_of};

use crate::change::CoreChange;
use crate::effects::{Effects, outcome_effects, send_all};
use crate::tables::Tables;
use px_flat::Group;
use px_msg::Msg;
use px_outcome::StepOutcome;
use px_subscribe::{Scene, are_deaf, are_quiet, nobody_hears};
use px_types::{ConnId, InputId, Mem};
use std::alloc::Global;

// The parts of the state that infos and subscriptions read.
fn scene_of<P>(alloc: Global, tables: &Tables<P>) -> Mem<Scene>
    ensures { IfOk result (λ scene. scene ≡ scene_of (state_of tables.now)) }
{
    Scene::of(
        alloc,
        &tables.names,
        &tables.connections,
        tables.inputs.as_slice(),
        &tables.lists,
        &tables.groups,
        tables.inputs_made,
    )
}

// Adds the subscription events that the changes will cause.
fn add_events<P>(
    alloc: Global,
    effects: &mut Effects,
    tables: &Tables<P>,
    changes: &[CoreChange<P>],
) -> Mem<()>
    requires sinks { AreSinks [] tables.now.sinks }
    requires before { AreShown tables.now.inputs.items }
    requires after { AreShown (committed (state_of tables.now) changes.now).inputs }
    ensures { OnOk result (effects.new ≡ effects.old ++ step_events (state_of tables.now) (committed (state_of tables.now) changes.now)) }
{
    if are_quiet(changes) {
        return Ok(());
    }
    if nobody_hears(tables.names.clients(), changes) {
        return Ok(());
    }
    let scene = scene_of(alloc, tables)?;
    let notified = scene.notified_of(alloc, tables.sinks.as_slice(), tables.clients_made, changes)?;
    send_all(alloc, effects, &notified)?;
    Ok(())
}

/// The effects of an outcome, and then the subscription events that its changes cause.
pub(crate) fn answer_effects<P>(
    alloc: Global,
    asker: Option<ConnId>,
    tables: &Tables<P>,
    outcome: &StepOutcome<Msg<P>, Group>,
) -> Mem<Effects>
    requires sinks { AreSinks [] tables.now.sinks }
    requires before { AreShown tables.now.inputs.items }
    requires after { AreShown (answered (state_of tables.now) outcome.now).inputs }
    ensures { IfOk result (λ effects. effects ≡ answer_effects asker (state_of tables.now) outcome.now) }
{
    let mut effects = outcome_effects(alloc, asker, outcome)?;
    add_events(alloc, &mut effects, tables, &outcome.changes)?;
    Ok(effects)
}

/// Adds the subscription events of an input's arrival at the sink that it moves to, and of the changes after that.
pub(crate) fn add_arrival_events<P>(
    alloc: Global,
    effects: &mut Effects,
    tables: &Tables<P>,
    input: InputId,
    later: &[CoreChange<P>],
) -> Mem<()>
    requires sinks { AreSinks [] tables.now.sinks }
    requires before { AreShown tables.now.inputs.items }
    requires after { AreShown (scene_after (scene_arrived input (scene_of (state_of tables.now))) later.now).inputs }
    ensures { OnOk result ((m : Message P) → effects.new ≡ effects.old ++ step_events (state_of tables.now) (committed (state_of tables.now) (Arrives input m ∷ later.now))) }
{
    if nobody_hears(tables.names.clients(), later) {
        return Ok(());
    }
    let scene = scene_of(alloc, tables)?;
    let sinks = tables.sinks.as_slice();
    let notified = scene.notified_arrived(alloc, sinks, tables.clients_made, input, later)?;
    send_all(alloc, effects, &notified)?;
    Ok(())
}

/// The subscription events of a client that connects.
pub fn joined_events<P>(alloc: Global, tables: &Tables<P>, conn: ConnId) -> Mem<Effects>
    requires sinks { AreSinks [] tables.now.sinks }
    requires shown { AreShown tables.now.inputs.items }
    requires room { tables.now.clients_made < 4294967295 }
    ensures { IfOk result (λ effects. effects ≡ step_events (state_of tables.now) (joined conn (state_of tables.now))) }
{
    if are_deaf(tables.names.clients()) {
        return Ok(Effects::new(alloc));
    }
    let client = tables.clients_made;
    let scene = scene_of(alloc, tables)?;
    let notified = scene.notified_joined(alloc, tables.sinks.as_slice(), client + 1, conn, client)?;
    let mut effects = Effects::new(alloc);
    send_all(alloc, &mut effects, &notified)?;
    Ok(effects)
}
