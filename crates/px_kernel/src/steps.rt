// A count of steps.
ghost use Rattle.std.specs.Prelude.{◌≡◌, ◌+◌, ◌<◌};

use px_tick_key::Key;
use std::marker::Model;
use std::sync::ledger::{Blank, Book, Ledger, Share};

/// How many steps were taken. It takes no bytes and costs nothing at run time, and only `tick` changes it.
#[derive(Drop)]
pub struct Steps<T: Ledger> {
    book: Book<T>,
    share: Share<T>,
}

impl<T: Ledger> Model for Steps<T> {
    ghost use Rattle.std.specs.Prelude.{ℕ, ◌<◌};

    ghost Value = { ℕ };

    ghost view = { λ s. s.book.total };

    ghost invariant = { λ s. 0 < s.share.parts };
}

impl<T: Ledger> Steps<T> {
    /// A counter at 0. `Key` says who may make one.
    pub fn new(_: Key, blank: Blank) -> Steps<T>
        requires name { blank.name ≡ T.name }
        requires parts { blank.parts ≡ T.parts }
        requires some { 0 < T.parts }
        ensures { result ≡ 0 }
    {
        let (book, share) = blank.open::<T>();
        Steps { book, share }
    }

    /// Counts `steps` more steps.
    pub fn tick(&mut self, steps: u64)
        ensures { self.new ≡ self.old + steps }
    {
        self.book.add(&mut self.share, steps);
    }
}
