//! How a run of the program ends.

ghost use Rattle.std.specs.Prelude.{◌≡◌};
ghost use Rattle.px_app.specs.Ending.{status_of};

use crate::refusal::Refusal;
use px_types::Status;

/// How a run of the program ends, for its status and the log's line.
#[derive(Clone, Copy, Debug, PartialEq, Eq)]
pub enum Ending {
    /// All was read and written.
    Done,
    /// The recorded session is refused.
    Refused(Refusal),
    /// The words of the command line aren't those of the usage text.
    Usage,
    /// Memory ran out.
    Memory,
    /// A read of the input failed.
    ReadFault,
    /// A write of the output or the log failed.
    WriteFault,
    /// No sink of the session's header has the name that was asked for.
    NoSuchSink,
}

impl Ending {
    /// The exit status of a run that ends so.
    pub fn status(self) -> Status
        ensures { result ≡ status_of self }
    {
        match self {
            Ending::Done => Status::Ok,
            Ending::Refused(_) => Status::Refused,
            Ending::Usage => Status::Usage,
            Ending::Memory => Status::Memory,
            Ending::ReadFault => Status::ReadFault,
            Ending::WriteFault => Status::WriteFault,
            Ending::NoSuchSink => Status::NoSuchSink,
        }
    }
}
