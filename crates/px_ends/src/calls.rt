// The numbers of the calls of an end in memory that are to fail, or to find it not ready.
ghost use Rattle.std.specs.Prelude.{◌≡◌, []};
ghost use Rattle.px_ends.specs.Memory.{is_listed};

use std::alloc::Global;
use std::marker::Model;

/// Numbers of calls, counted from 1 over all calls of one end.
#[derive(Debug, Drop)]
pub struct Calls {
    numbers: Vec<u64>,
}

impl Model for Calls {
    ghost use Rattle.std.specs.Prelude.{List, ℕ};

    ghost Value = { List ℕ };

    ghost view = { λ c. c.numbers.items };
}

impl Calls {
    /// No call. Takes no memory.
    pub fn none(alloc: Global) -> Calls
        ensures { result ≡ [] }
    {
        Calls {
            numbers: Vec::new(alloc),
        }
    }

    /// These calls. Takes no memory.
    pub fn from_vec(numbers: Vec<u64>) -> Calls
        ensures { result ≡ numbers.items }
    {
        Calls { numbers }
    }

    /// Whether the call of this number is listed.
    pub fn has(&self, number: u64) -> bool
        ensures { result ≡ is_listed self.now number }
    {
        self.numbers.iter().any(|listed| *listed == number)
    }
}
