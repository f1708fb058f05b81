//! The rights of the two threads at a mailbox.
ghost use Rattle.std.specs.Prelude.{◌≡◌, true, IsSome};
ghost use Rattle.crossbeam_queue.specs.Passes.{view};

use crate::letter::Letter;
use crate::step::Account;
use crossbeam_queue::Pass;

/// The right to post to one mailbox, which has exactly one such pass. It has no bytes. Its key and the list of all items posted are visible to
/// contracts.
#[derive(Drop)]
pub struct PostPass<T: Letter> {
    pub(crate) pass: Pass<T, Account<T, T::Key>>,
    ghost posts: { (view pass).posts ≡ true },
    ghost keyed: { IsSome (view pass).key },
}

/// The right to take from one mailbox, which has exactly one such pass. It has no bytes. Its key and the list of all items taken are visible to
/// contracts.
#[derive(Drop)]
pub struct TakePass<T: Letter> {
    pub(crate) pass: Pass<T, Account<T, T::Key>>,
    ghost takes: { (view pass).takes ≡ true },
    ghost keyed: { IsSome (view pass).key },
}
