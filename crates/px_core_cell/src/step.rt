//! The steps of the core under the lock, and the reasons why one isn't done.

use px_annals::RecordFault;
use px_frame::{Frame, FrameFault};
use px_types::{ConnId, NoMemory, SinkId};

/// A step of the core. The notice and the messages of the last two are those of that sink's mailboxes.
#[derive(Debug, Drop)]
pub enum CoreStep {
    /// A client connects.
    Connect(ConnId),
    /// A frame of a connection.
    Frame(ConnId, Frame),
    /// A fault in a connection's bytes, at an offset.
    Broken(ConnId, FrameFault, u64),
    /// A client has closed its connection.
    Close(ConnId),
    /// The server ends a connection for lack of memory.
    Cut(ConnId),
    /// The connections that have ended are removed.
    Sweep,
    /// A sink's next notice is taken from its outbox.
    Notice(SinkId),
    /// The messages queued for a sink are posted to its inbox.
    Out(SinkId),
}

/// Why a step wasn't done. But for `Owed` the step is dropped; the core is unchanged, nothing was noted, and a notice that
/// was taken is held for the next step of its kind.
#[derive(Debug, Drop)]
pub enum StepFault {
    /// Lack of memory.
    NoMemory,
    /// The count of steps has reached 2^64 - 1.
    Worn,
    /// The recorder wasn't ready.
    Recorder(RecordFault),
    /// A sweep is owed before this step, which is handed back.
    Owed(CoreStep),
}

impl From<NoMemory> for StepFault {
    ghost use Rattle.std.specs.Prelude.{◌≡◌};
    ghost use Rattle.px_core_cell.specs.declared.step.StepFault.TheVariants.{NoMemory as no_memory};

    ghost from_gives = { λ _ e. e ≡ no_memory };

    fn from(_want: NoMemory) -> StepFault {
        StepFault::NoMemory
    }
}
