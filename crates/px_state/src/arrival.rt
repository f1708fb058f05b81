//! The arrival of a moving input at its new sink, with the parcel that the old one detached.

ghost use Rattle.std.specs.Prelude.{◌≡◌, ◌+◌, [], length, IfOk, IfErr, OnOk, OnErr, None};
ghost use Rattle.px_ctl_play.specs.Arrival.{arriving_with};
ghost use Rattle.px_header.specs.HeaderRules.{AreSinks};
ghost use Rattle.px_subscribe.specs.Moments.{AreShown};
ghost use Rattle.px_subscribe.specs.Scene.{scene_after, scene_arrived};
ghost use Rattle.px_state.specs.Answered.{answered, answer_effects};
ghost use Rattle.px_state.specs.Events.{scene_of};
ghost use Rattle.px_state.specs.Tables.{state_of, HasRoom};

use crate::commit::{apply, commit, reserve};
use crate::effects::{Effects, notified_and_closed};
use crate::events::add_arrival_events;
use crate::tables::Tables;
use px_ctl_play::Arrival;
use px_flat::Group;
use px_msg::Msg;
use px_outcome::Change;
use px_types::{InputId, Mem};
use std::alloc::Global;

// The effects of an arrival, whatever the parcel is.
fn arrival_effects<P>(
    alloc: Global,
    tables: &Tables<P>,
    input: InputId,
    made: &Arrival<Msg<P>, Group>,
) -> Mem<Effects>
    requires sinks { AreSinks [] tables.now.sinks }
    requires before { AreShown tables.now.inputs.items }
    requires after { AreShown (scene_after (scene_arrived input (scene_of (state_of tables.now))) made.now.later).inputs }
    ensures { IfOk result (λ effects. (parcel : P) → effects ≡ answer_effects None (state_of tables.now) (arriving_with input parcel made.now)) }
{
    let mut effects = notified_and_closed(alloc, &made.notified, &made.later)?;
    add_arrival_events(alloc, &mut effects, tables, input, &made.later)?;
    Ok(effects)
}

// The same, with room for the changes of the arrival. The state stays.
fn effects_with_room<P>(
    alloc: Global,
    tables: &mut Tables<P>,
    input: InputId,
    made: &Arrival<Msg<P>, Group>,
) -> Mem<Effects>
    requires sinks { AreSinks [] tables.old.sinks }
    requires before { AreShown tables.old.inputs.items }
    requires after { AreShown (scene_after (scene_arrived input (scene_of (state_of tables.old))) made.now.later).inputs }
    ensures effects { IfOk result (λ effects. (parcel : P) → effects ≡ answer_effects None (state_of tables.old) (arriving_with input parcel made.now)) }
    ensures state { state_of tables.new ≡ state_of tables.old }
    ensures room { OnOk result (HasRoom (length made.now.later + 1) tables.new) }
{
    let effects = arrival_effects(alloc, tables, input, made)?;
    reserve(tables, made.later.len() + 1)?;
    Ok(effects)
}

// Settles the input on its new sink with this parcel, and makes the changes after that. Takes no memory.
fn make_changes<P: Drop>(
    tables: &mut Tables<P>,
    input: InputId,
    parcel: P,
    made: Arrival<Msg<P>, Group>,
)
    requires { HasRoom (length made.later + 1) tables.old }
    ensures { state_of tables.new ≡ answered (state_of tables.old) (arriving_with input parcel made) }
{
    let message = Msg::Attach {
        input,
        parcel,
        feed: made.feed,
        factors: made.factors,
    };
    apply(tables, Change::Arrives(input, message));
    commit(tables, made.later);
}

/// Settles a moving input on its new sink with this parcel, makes the changes after that, and returns their effects. Where
/// there is no memory for them the parcel is handed back, and nothing has changed.
pub fn finish_arrival<P: Drop>(
    alloc: Global,
    tables: &mut Tables<P>,
    input: InputId,
    parcel: P,
    made: Arrival<Msg<P>, Group>,
) -> Result<Effects, P>
    requires sinks { AreSinks [] tables.old.sinks }
    requires before { AreShown tables.old.inputs.items }
    requires after { AreShown (answered (state_of tables.old) (arriving_with input parcel made)).inputs }
    ensures effects { IfOk result (λ effects. effects ≡ answer_effects None (state_of tables.old) (arriving_with input parcel made)) }
    ensures after { OnOk result (state_of tables.new ≡ answered (state_of tables.old) (arriving_with input parcel made)) }
    ensures back { IfErr result (λ back. back ≡ parcel) }
    ensures err { OnErr result (state_of tables.new ≡ state_of tables.old) }
{
    match effects_with_room(alloc, tables, input, &made) {
        Ok(effects) => {
            make_changes(tables, input, parcel, made);
            Ok(effects)
        }
        Err(_) => {
            drop(made);
            Err(parcel)
        }
    }
}
