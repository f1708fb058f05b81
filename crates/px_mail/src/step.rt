//! The rule of a mailbox's queue and the kinds of step under it. These types are for the proofs alone: no value of them is made.
ghost use Rattle.std.specs.Prelude.{Option, ◌≡◌, ◌++◌, [], ◌∷◌};

use crate::letter::Letter;
use crossbeam_queue::protocol::{Join, Lesson, Outcome, Protocol, Split};
use std::collections::LinkedList;
use std::marker::{Brand, PhantomData};

/// What the holder of a pass may do, its key, what it has posted and taken, whether each post's item was stored, and whether each take found one.
pub struct Account<T, K> {
    pub posts: bool,
    pub takes: bool,
    pub key: Option<K>,
    pub posted: LinkedList<T>,
    pub taken: LinkedList<T>,
    pub stored: LinkedList<bool>,
    pub found: LinkedList<bool>,
}

/// The items posted are those taken followed by those held.
pub struct Delivery;

impl<T: Letter> Protocol<T, Account<T, T::Key>> for Delivery {
    ghost use Rattle.px_mail.specs.Mailbox.{Delivers, unkeyed};

    ghost holds = { Delivers T.lawful };

    ghost first = { unkeyed };
}

/// The key that a call chooses.
pub trait Keyed<K> {
    ghost picked: { Option K };
}

impl<K> Keyed<K> for Brand {
    ghost use Rattle.std.specs.Prelude.{None};

    ghost picked = { None };
}

/// A post pass is made, and the key is chosen.
pub struct MakesPost<B> {
    marker: PhantomData<B>,
}

impl<T, K, B: Keyed<K>> Split<Account<T, K>> for MakesPost<B> {
    ghost use Rattle.px_mail.specs.Mailbox.{poster, taker};

    ghost left = { λ v. taker B.picked v.taken };

    ghost right = { λ v. poster B.picked v.posted };
}

/// A take pass is made, and its maker may do nothing more.
pub struct MakesTake;

impl<T, K> Split<Account<T, K>> for MakesTake {
    ghost use Rattle.px_mail.specs.Mailbox.{idle, taker};

    ghost left = { λ v. idle };

    ghost right = { λ v. taker v.key v.taken };
}

/// An item is stored, or the mailbox is full.
pub struct Posts;

impl<T, K> Outcome<T, Account<T, K>> for Posts {
    ghost use Rattle.px_mail.specs.Mailbox.{after_posting};

    ghost then = { λ v item w. w ≡ after_posting v item };
}

impl<T, K> Lesson<T, Account<T, K>> for Posts {
    ghost use Rattle.px_mail.specs.Mailbox.{IsHeldOf};

    ghost fact = { λ v held. IsHeldOf v.posted held };
}

/// A post that found the mailbox full is recorded.
pub struct SawFull;

impl<T, K> Split<Account<T, K>> for SawFull {
    ghost use Rattle.px_mail.specs.Mailbox.{after_full, idle};

    ghost left = { λ v. after_full v };

    ghost right = { λ v. idle };
}

/// An item is taken, or the mailbox is empty.
pub struct Takes;

impl<T: Letter> Outcome<T, Account<T, T::Key>> for Takes {
    ghost use Rattle.px_mail.specs.Mailbox.{after_taking, GoesOn};

    ghost then = { λ v item w. (w ≡ after_taking v item) × GoesOn T.lawful v.key (v.taken ++ item ∷ []) };
}

impl<T: Letter> Lesson<T, Account<T, T::Key>> for Takes {
    ghost use Rattle.px_mail.specs.Mailbox.{IsLawful};

    ghost fact = { λ v held. IsLawful T.lawful v.key (v.taken ++ held) };
}

/// A take that found the mailbox empty is recorded.
pub struct SawEmpty;

impl<T, K> Split<Account<T, K>> for SawEmpty {
    ghost use Rattle.px_mail.specs.Mailbox.{after_empty, idle};

    ghost left = { λ v. after_empty v };

    ghost right = { λ v. idle };
}

/// The post pass absorbs the take pass.
pub struct Whole;

impl<T, K> Join<Account<T, K>> for Whole {
    ghost use Rattle.px_mail.specs.Mailbox.{closer, idle};

    ghost both = { λ v w. closer v.key v.posted w.taken };

    ghost spent = { idle };
}

/// What the holder of both passes knows.
pub struct Total;

impl<T: Letter> Lesson<T, Account<T, T::Key>> for Total {
    ghost use Rattle.px_mail.specs.Mailbox.{IsLawful};

    ghost fact = { λ v held. (v.posted ≡ v.taken ++ held) × IsLawful T.lawful v.key v.posted };
}
