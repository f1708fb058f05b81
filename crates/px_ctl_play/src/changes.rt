//! Lists of changes: of one, of two, and of one more.

ghost use Rattle.std.specs.Prelude.{◌≡◌, ◌++◌, ◌∷◌, [], IfOk};

use px_outcome::Change;
use px_types::Mem;
use std::alloc::Global;

/// These changes, followed by one more.
pub(crate) fn and_then<M: Drop, G: Drop>(
    changes: Vec<Change<M, G>>,
    next: Change<M, G>,
) -> Mem<Vec<Change<M, G>>>
    ensures { IfOk result (λ all. all.items ≡ changes.items ++ next ∷ []) }
{
    let mut all = changes;
    all.push(next)?;
    Ok(all)
}

/// This change alone.
pub(crate) fn one<M: Drop, G: Drop>(alloc: Global, change: Change<M, G>) -> Mem<Vec<Change<M, G>>>
    ensures { IfOk result (λ changes. changes.items ≡ change ∷ []) }
{
    and_then(Vec::new(alloc), change)
}

/// These two changes, in this order.
pub(crate) fn two<M: Drop, G: Drop>(
    alloc: Global,
    first: Change<M, G>,
    second: Change<M, G>,
) -> Mem<Vec<Change<M, G>>>
    ensures { IfOk result (λ changes. changes.items ≡ first ∷ second ∷ []) }
{
    match one(alloc, first) {
        Ok(changes) => and_then(changes, second),
        Err(error) => {
            drop(second);
            Err(error)
        }
    }
}
