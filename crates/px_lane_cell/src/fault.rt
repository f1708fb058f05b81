// Why a cell made no turn.

use px_annals::RecordFault;

/// Why there was no turn. The messages that were taken stay for the next call, and nothing else changes.
#[derive(Clone, Copy, Debug, PartialEq, Eq)]
pub enum CellFault {
    /// Out of memory.
    NoMemory,
    /// `filled` is more than 2^60, so that an index could pass its range.
    Worn { filled: u64 },
    /// The recorder isn't ready for one more entry; this is its answer.
    Recorder(RecordFault),
}
