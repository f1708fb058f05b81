//! A mailbox between two threads.
ghost use Rattle.std.specs.Prelude.{◌≡◌, [], Some, IfOk};
ghost use Rattle.std.specs.Arc.{arc_value};
ghost use Rattle.crossbeam_queue.specs.Passes.{IsPassOf};
ghost use Rattle.px_mail.specs.Mailbox.{key_of, posted_by, taken_by, stored_by, found_by};

use crate::letter::Letter;
use crate::mailbox::Mailbox;
use crate::pass::{PostPass, TakePass};
use px_types::Mem;
use std::alloc::Global;
use std::sync::Arc;

/// A mailbox of two threads, with a handle for each, and its two passes.
#[derive(Drop)]
pub struct Shared<T: Letter> {
    /// The mailbox, for one thread.
    pub mailbox: Arc<Mailbox<T>>,
    /// The same mailbox, for the other.
    pub twin: Arc<Mailbox<T>>,
    /// The right to post to it.
    pub post: PostPass<T>,
    /// The right to take from it.
    pub take: TakePass<T>,
}

impl<T: Letter + Drop> Shared<T> {
    /// An empty mailbox that delivers under the key. It takes all memory that the mailbox will need.
    pub fn new(alloc: Global, key: T::Key) -> Mem<Shared<T>>
        ensures one { IfOk result (λ made. arc_value made.twin ≡ arc_value made.mailbox) }
        ensures post { IfOk result (λ made. IsPassOf (arc_value made.mailbox).queue made.post.pass × (key_of made.post.pass ≡ Some key) × (posted_by made.post.pass ≡ [])) }
        ensures take { IfOk result (λ made. IsPassOf (arc_value made.mailbox).queue made.take.pass × (key_of made.take.pass ≡ Some key) × (taken_by made.take.pass ≡ [])) }
        ensures unused { IfOk result (λ made. (stored_by made.post.pass ≡ []) × (found_by made.take.pass ≡ [])) }
    {
        let (mailbox, post, take) = Mailbox::<T>::new(alloc, key)?;
        let mailbox = Arc::new(alloc, mailbox)?;
        let twin = Arc::try_clone(&mailbox)?;
        Ok(Shared {
            mailbox,
            twin,
            post,
            take,
        })
    }
}
