// A history in memory, or none.
ghost use Rattle.std.specs.Prelude.{◌≡◌};
ghost use Rattle.px_host.specs.History.{keeps_in, fulls_of};

use px_annals::{Entry, MemRecorder, RecordFault, Recorder};

/// A recorder that stores its entries in memory, or drops them.
#[derive(Debug, Drop)]
pub enum History<E: Entry> {
    /// Entries are stored.
    InMemory(MemRecorder<E>),
    /// Entries are dropped.
    Discarded,
}

impl<E: Entry + Drop> History<E> {
    /// The number of calls that found it full.
    pub fn fulls(&self) -> u64
        ensures { result ≡ fulls_of self.now }
    {
        match self {
            History::InMemory(recorder) => recorder.fulls(),
            History::Discarded => 0,
        }
    }
}

impl<E: Entry + Drop> Recorder<E> for History<E> {
    ghost use Rattle.px_host.specs.History.{visible_in, limit_of, CanTake, fulls_of};

    ghost visible = { visible_in };

    ghost limit = { limit_of };

    ghost takes = { λ h bytes. CanTake h };

    ghost faults = { λ h. 0 };

    ghost fulls = { fulls_of };

    fn keeps(&self) -> bool
        ensures { result ≡ keeps_in self.now }
    {
        match self {
            History::InMemory(_) => true,
            History::Discarded => false,
        }
    }

    fn ready(&mut self, bytes: usize) -> Result<(), RecordFault> {
        match self {
            History::InMemory(recorder) => recorder.ready(bytes),
            History::Discarded => Ok(()),
        }
    }

    fn note(&mut self, entry: E) {
        match self {
            History::InMemory(recorder) => recorder.note(entry),
            History::Discarded => {}
        }
    }

    ghost takes_less = { λ h more less below can. can };
}
