//! The share of each thread that steps the core.

ghost use Rattle.std.specs.Prelude.{◌≡◌, ◌+◌, ◌<◌};

use std::marker::{Brand, Model};
use std::sync::ledger::{Ledger, Share};

/// The seats of one core: their ledger, the state that the core began with, and the mailboxes of its sinks.
pub trait Seats: Ledger {
    ghost use Rattle.std.specs.Prelude.{ℕ, List};
    ghost use Rattle.px_annals.specs.declared.stream.PlainStream.{PlainStream};
    ghost use Rattle.px_state.specs.State.{State};
    ghost use Rattle.px_core_cell.specs.Boxes.{Boxes};

    /// All its parts.
    ghost all: { ℕ };

    /// The state of the core before its first step.
    ghost began: { State PlainStream };

    /// The mailboxes of its sinks.
    ghost boxes: { List Boxes };
}

/// A share in the steps of a core. Contracts see its number of parts, and the number of steps done through it.
#[derive(Drop)]
pub struct CoreSeat<L: Seats> {
    pub(crate) share: Share<L>,
}

impl<L: Seats> Model for CoreSeat<L> {
    ghost use Rattle.std.specs.Prelude.{◌≡◌, ◌<◌};
    ghost use Rattle.px_core_cell.specs.Seat.{Seat};

    ghost Value = { Seat };

    ghost view = { λ s. record { parts = s.share.parts; steps = s.share.amount } };

    ghost invariant = { λ s. (0 < s.share.parts) × (L.parts ≡ L.all) };
}

impl<L: Seats> CoreSeat<L> {
    /// Splits off a seat of one part and no steps. Takes no memory.
    pub fn split(&mut self) -> CoreSeat<L>
        requires { 1 < self.old.parts }
        ensures split { result ≡ record { parts = 1; steps = 0 } }
        ensures parts { self.new.parts + 1 ≡ self.old.parts }
        ensures steps { self.new.steps ≡ self.old.steps }
    {
        CoreSeat {
            share: self.share.split_off(1, 0),
        }
    }

    /// Merges another seat of the same core into this one. Takes no memory.
    pub fn merge(&mut self, other: CoreSeat<L>)
        ensures parts { self.new.parts ≡ self.old.parts + other.parts }
        ensures steps { self.new.steps ≡ self.old.steps + other.steps }
    {
        let CoreSeat { share } = other;
        self.share.merge(share);
    }
}

impl Seats for Brand {
    ghost use Rattle.std.specs.Prelude.{[], None};

    ghost all = { 0 };

    ghost began = { record {
      names = record { cookie = []; sinks = []; fallback = record { 0 = 0 }; source = None; clients = [] };
      sinks = [];
      connections = [];
      inputs = [];
      lists = [];
      waiting = [];
      posted = [];
      delayed = [];
      groups = [];
      clients_made = 0;
      inputs_made = 0;
    } };

    ghost boxes = { [] };
}
