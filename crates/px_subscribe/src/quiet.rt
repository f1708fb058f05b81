//! Changes that affect no info.

ghost use Rattle.std.specs.Prelude.{◌≡◌, ℕ, List, [], true};
ghost use Rattle.std.specs.List.{list_all};
ghost use Rattle.px_header.specs.declared.header.SinkSpec.{SinkSpec};
ghost use Rattle.px_flat.specs.FlatVolume.{FlatGroup};
ghost use Rattle.px_msg.specs.declared.message.Msg.{Msg};
ghost use Rattle.px_outcome.specs.declared.change.Change.{Change};
ghost use Rattle.px_subscribe.specs.Scene.{Scene, scene_after, scene_joined, is_quiet, are_quiet, is_maskless, are_deaf, nobody_hears};
ghost use Rattle.px_types.specs.declared.ids.ConnId.{ConnId};
ghost use Rattle.px_subscribe.specs.Moments.{notified_between};

use px_flat::Group;
use px_msg::Msg;
use px_names::Client;
use px_outcome::Change;

// Whether a change affects no info.
fn is_quiet<P>(change: &Change<Msg<P>, Group>) -> bool
    ensures { result ≡ is_quiet change.now }
{
    match change {
        Change::Authed(..)
        | Change::Released(_)
        | Change::Posted(..)
        | Change::Asked(_)
        | Change::Answered(_)
        | Change::Ended { .. } => true,
        Change::Named(..)
        | Change::Masked(..)
        | Change::Defaulted(_)
        | Change::Made { .. }
        | Change::Described(..)
        | Change::Leaves(_)
        | Change::Moves(..)
        | Change::Arrives(..)
        | Change::Regrouped(..)
        | Change::Gone(_)
        | Change::Forgotten(_) => false,
    }
}

/// Whether none of these changes affects an info: so it is for a step of data, of a request that is answered later or of an
/// answer to one. Takes no memory.
pub fn are_quiet<P>(changes: &[Change<Msg<P>, Group>]) -> bool
    ensures { result ≡ are_quiet changes.now }
{
    changes.iter().all(is_quiet)
}

// Whether a change sets no mask.
fn is_maskless<P>(change: &Change<Msg<P>, Group>) -> bool
    ensures { result ≡ is_maskless change.now }
{
    !matches!(change, Change::Masked(..))
}

// Whether none of these sets a mask.
fn are_maskless<P>(changes: &[Change<Msg<P>, Group>]) -> bool
    ensures { result ≡ list_all is_maskless changes.now }
{
    changes.iter().all(is_maskless)
}

/// Whether none of these clients subscribes to anything. Takes no memory.
pub fn are_deaf(clients: &[Client]) -> bool
    ensures { result ≡ are_deaf clients.now }
{
    clients.iter().all(|client| client.mask == 0)
}

/// Whether none of these clients subscribes to anything, and these changes leave it so. Takes no memory.
pub fn nobody_hears<P>(clients: &[Client], changes: &[Change<Msg<P>, Group>]) -> bool
    ensures { result ≡ nobody_hears clients.now changes.now }
{
    are_deaf(clients) && are_maskless(changes)
}

/// Where no client subscribes to anything, nobody is notified. It does nothing: its contract is the law. Source: own.
pub fn the_deaf_are_not_notified<P>()
    ensures changes { (sinks : List SinkSpec) (clients_made : ℕ) (s : Scene) (changes : List (Change (Msg P) FlatGroup)) → nobody_hears s.clients changes ≡ true
        → notified_between sinks clients_made s (scene_after s changes) ≡ [] }
    ensures joined { (sinks : List SinkSpec) (clients_made : ℕ) (s : Scene) (conn : ConnId) (client : ℕ) → are_deaf s.clients ≡ true
        → notified_between sinks clients_made s (scene_joined conn client s) ≡ [] }
{}

/// Changes that affect no info notify nobody. It does nothing: its contract is the law. Source: own.
pub fn quiet_changes_notify_nobody<P>()
    ensures quiet { (sinks : List SinkSpec) (clients_made : ℕ) (s : Scene) (changes : List (Change (Msg P) FlatGroup)) → are_quiet changes ≡ true
        → notified_between sinks clients_made s (scene_after s changes) ≡ [] }
    ensures same { (sinks : List SinkSpec) (clients_made : ℕ) (s : Scene) → notified_between sinks clients_made s s ≡ [] }
{}
