//! Recorders and their entries.

ghost use Rattle.std.specs.Prelude.{◌≡◌, ◌≤◌, ℕ, List, Option, None, IsFalse, OnOk};
ghost use Rattle.std.specs.Option.{option_map};
ghost use Rattle.px_annals.specs.History.{Limit, noted, sizes_by, SaysFull, ReadyCounts};

/// One turn or one step, as a recorder holds it.
pub trait Entry {
    /// Its size in bytes.
    ghost bytes: { Self → ℕ };

    /// Its size in a history: 64 bytes, 64 more for each message, and its own bytes; usize's last value where that is more.
    fn size(&self) -> usize
        ensures { result ≡ bytes self.now };
}

/// Why a recorder isn't ready. Its entries are unchanged.
#[derive(Clone, Copy, Debug, PartialEq, Eq)]
pub enum RecordFault {
    /// There was no memory for one more entry.
    NoMemory,
    /// It holds the most entries, or the most bytes, that it may: these.
    Full { entries: usize, bytes: usize },
    /// It failed.
    Failed,
}

/// Records a history, entry by entry. Its calls answered `Failed` and those answered `Full` are counted, and neither count ever falls.
/// Source: own.
pub trait Recorder<E: Entry> {
    /// The entries that it holds, in order, where they are visible.
    ghost visible: { Self → Option (List E) };

    /// How much it may hold, where that is limited.
    ghost limit: { Self → Option Limit };

    /// It can note an entry of this many bytes, without memory and without failing.
    ghost takes: { Self → ℕ → Type 0 };

    /// How many of its calls failed.
    ghost faults: { Self → ℕ };

    /// How many of its calls found it full.
    ghost fulls: { Self → ℕ };

    /// Whether it has a use for entries. Where it has none, its entries aren't visible, and none needs to be made for it.
    fn keeps(&self) -> bool
        ensures { IsFalse result → visible self.now ≡ None };

    /// Takes room for one more entry of at most `bytes` bytes. `Full` where the entries or the bytes that it holds reach their limit,
    /// whatever is asked for; an entry that is let in may pass the limit.
    fn ready(&mut self, bytes: usize) -> Result<(), RecordFault>
        ensures ok { OnOk result (takes self.new bytes) }
        ensures visible { visible self.new ≡ visible self.old }
        ensures limit { limit self.new ≡ limit self.old }
        ensures full { SaysFull result (limit self.old) (option_map (sizes_by E.bytes) (visible self.old)) }
        ensures counts { ReadyCounts result (faults self.old) (faults self.new) (fulls self.old) (fulls self.new) };

    /// Adds an entry after the others. Takes no memory.
    fn note(&mut self, entry: E)
        requires { takes self.old (E.bytes entry) }
        ensures visible { visible self.new ≡ noted entry (visible self.old) }
        ensures limit { limit self.new ≡ limit self.old }
        ensures faults { faults self.new ≡ faults self.old }
        ensures fulls { fulls self.new ≡ fulls self.old };

    /// If it can note an entry of `more` bytes, it can note a smaller one.
    ghost takes_less: { (r : Self) (more less : ℕ) → less ≤ more → takes r more → takes r less };
}
