//! Why a serving call stops.

use px_annals::RecordFault;

/// Why the serving call itself stops.
#[derive(Clone, Copy, Debug, PartialEq, Eq)]
pub enum Stop {
    /// No more links come.
    Over,
    /// Memory ran out.
    Memory,
    /// The host failed.
    Host,
    /// The core's recorder isn't ready for one more step.
    Unrecorded(RecordFault),
}
