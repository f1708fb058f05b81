//! The changes of the core's state; every step is a list of them.

ghost use Rattle.std.specs.Prelude.{◌≡◌, ◌∷◌, [], IfOk};

use px_flat::Group;
use px_msg::Msg;
use px_outcome::Change;
use px_types::Mem;
use std::alloc::Global;

/// One change of the core's state, with the message that it posts to a sink. `P` is the type of a parcel: a stream that
/// moves from one sink to another.
pub type CoreChange<P> = Change<Msg<P>, Group>;

/// This change alone.
pub(crate) fn alone<P: Drop>(alloc: Global, change: CoreChange<P>) -> Mem<Vec<CoreChange<P>>>
    ensures { IfOk result (λ changes. changes.items ≡ change ∷ []) }
{
    let mut changes = Vec::new(alloc);
    changes.push(change)?;
    Ok(changes)
}
