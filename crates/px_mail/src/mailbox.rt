//! The mailbox.
ghost use Rattle.std.specs.Prelude.{◌≡◌, ◌++◌, [], ◌∷◌, true, false, Some, IfOk, MatchOption, MatchResult};
ghost use Rattle.crossbeam_queue.specs.Fifo.{Held};
ghost use Rattle.crossbeam_queue.specs.Passes.{IsPassOf, ruled_capacity};
ghost use Rattle.px_mail.specs.Mailbox.{key_of, posted_by, taken_by, stored_by, found_by, IsLawful, IsHeldOf, GoesOn, Delivered};

use crate::letter::Letter;
use crate::pass::{PostPass, TakePass};
use crate::step::{
    Account, Delivery, Keyed, MakesPost, MakesTake, Posts, SawEmpty, SawFull, Takes, Total, Whole,
};
use crossbeam_queue::RuledArrayQueue;
use px_types::Mem;
use px_types::limits::MAILBOX_PLACES;
use std::alloc::Global;
use std::marker::Brand;
use std::sync::Wait;

/// The item that a full mailbox refused.
#[derive(Debug, Drop)]
pub struct Full<T>(pub T);

/// An ordered queue of at most 256 items from one thread to another (PulseAudio: `pulsecore/asyncmsgq.c`). Under every schedule the items posted are
/// those taken followed by those that it holds.
#[derive(Drop)]
pub struct Mailbox<T: Letter> {
    queue: RuledArrayQueue<T, Account<T, T::Key>, Delivery>,
    ghost room: { ruled_capacity queue ≡ 256 },
}

impl<T: Letter + Drop> Mailbox<T> {
    /// An empty mailbox that delivers under the key, and its two passes. It takes all memory that the mailbox will need.
    pub fn new(alloc: Global, key: T::Key) -> Mem<(Mailbox<T>, PostPass<T>, TakePass<T>)>
        ensures post { IfOk result (λ made. IsPassOf made.0.queue made.1.pass × (key_of made.1.pass ≡ Some key) × (posted_by made.1.pass ≡ [])) }
        ensures take { IfOk result (λ made. IsPassOf made.0.queue made.2.pass × (key_of made.2.pass ≡ Some key) × (taken_by made.2.pass ≡ [])) }
        ensures unused { IfOk result (λ made. (stored_by made.1.pass ≡ []) × (found_by made.2.pass ≡ [])) }
    {
        made::<T, Brand>(alloc, key)
    }

    /// Appends an item to all that was posted. A full mailbox hands it back, only where it held 256 items at one moment of this call, and nothing has
    /// changed. Takes no memory.
    pub fn post<R: Wait>(&self, rt: &R, pass: &mut PostPass<T>, item: T) -> Result<(), Full<T>>
        requires pass { IsPassOf self.now.queue pass.old.pass }
        requires lawful { IsLawful T.lawful (key_of pass.old.pass) (posted_by pass.old.pass ++ item ∷ []) }
        ensures pass { IsPassOf self.now.queue pass.new.pass × (key_of pass.new.pass ≡ key_of pass.old.pass) }
        ensures posted { MatchResult result (λ _. posted_by pass.new.pass ≡ posted_by pass.old.pass ++ item ∷ []) (λ full. (full.0 ≡ item) × (posted_by pass.new.pass ≡ posted_by pass.old.pass) × Held 256 (IsHeldOf (posted_by pass.old.pass))) }
        ensures stored { MatchResult result (λ _. stored_by pass.new.pass ≡ stored_by pass.old.pass ++ true ∷ []) (λ full. stored_by pass.new.pass ≡ stored_by pass.old.pass ++ false ∷ []) }
    {
        match self.queue.push_as::<Posts, R>(rt, &mut pass.pass, item) {
            Ok(()) => Ok(()),
            Err(item) => {
                self.queue.another::<SawFull>(&mut pass.pass);
                Err(Full(item))
            }
        }
    }

    /// Takes the oldest item that it holds. `None` only where the mailbox was empty at one moment of this call, and nothing has changed. Takes no
    /// memory.
    pub fn take<R: Wait>(&self, rt: &R, pass: &mut TakePass<T>) -> Option<T>
        requires pass { IsPassOf self.now.queue pass.old.pass }
        ensures pass { IsPassOf self.now.queue pass.new.pass × (key_of pass.new.pass ≡ key_of pass.old.pass) }
        ensures taken { MatchOption result ((taken_by pass.new.pass ≡ taken_by pass.old.pass) × Held 0 (λ held. IsLawful T.lawful (key_of pass.old.pass) (taken_by pass.old.pass ++ held))) (λ item. (taken_by pass.new.pass ≡ taken_by pass.old.pass ++ item ∷ []) × GoesOn T.lawful (key_of pass.old.pass) (taken_by pass.new.pass)) }
        ensures found { MatchOption result (found_by pass.new.pass ≡ found_by pass.old.pass ++ false ∷ []) (λ item. found_by pass.new.pass ≡ found_by pass.old.pass ++ true ∷ []) }
    {
        match self.queue.pop_as::<Takes, R>(rt, &mut pass.pass) {
            Some(item) => Some(item),
            None => {
                self.queue.another::<SawEmpty>(&mut pass.pass);
                None
            }
        }
    }

    /// Takes both passes, and shows that the items taken are a prefix of those posted. Items that the mailbox still holds stay there until it is
    /// dropped. Takes no memory.
    pub fn close(&self, post: PostPass<T>, take: TakePass<T>)
        requires post { IsPassOf self.now.queue post.pass }
        requires take { IsPassOf self.now.queue take.pass }
        ensures { Delivered T.lawful (key_of post.pass) (posted_by post.pass) (taken_by take.pass) }
    {
        let mut both = post.pass;
        self.queue.absorb::<Whole>(&mut both, take.pass);
        self.queue.learn_as::<Total>(&mut both);
    }
}

// The key is chosen by the call, since no type may name a value that is made as the program runs.
fn made<T: Letter + Drop, B: Keyed<T::Key>>(
    alloc: Global,
    key: T::Key,
) -> Mem<(Mailbox<T>, PostPass<T>, TakePass<T>)>
    requires { B.picked ≡ Some key }
    ensures post { IfOk result (λ made. IsPassOf made.0.queue made.1.pass × (key_of made.1.pass ≡ Some key) × (posted_by made.1.pass ≡ [])) }
    ensures take { IfOk result (λ made. IsPassOf made.0.queue made.2.pass × (key_of made.2.pass ≡ Some key) × (taken_by made.2.pass ≡ [])) }
    ensures unused { IfOk result (λ made. (stored_by made.1.pass ≡ []) × (found_by made.2.pass ≡ [])) }
{
    let (queue, mut maker) = RuledArrayQueue::<T, Account<T, T::Key>, Delivery>::ruled(
        alloc,
        MAILBOX_PLACES,
    )?;
    let post = queue.another::<MakesPost<B>>(&mut maker);
    let take = queue.another::<MakesTake>(&mut maker);
    Ok((
        Mailbox { queue },
        PostPass { pass: post },
        TakePass { pass: take },
    ))
}
