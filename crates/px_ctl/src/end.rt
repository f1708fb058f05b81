// How the command `ctl` ends.
ghost use Rattle.std.specs.Prelude.{◌≡◌, IfOk, string_bytes};
ghost use Rattle.px_ctl.specs.End.{client_status, status_of, is_done, line_of};

use px_client::ClientEnd;
use px_types::Status;
use std::alloc::{AllocError, Global};

/// How the command `ctl` ends, where its words are right.
#[derive(Clone, Copy, Debug, PartialEq, Eq)]
pub enum ControlEnd {
    /// The input isn't a cookie of 256 bytes: 256, or its length where it is shorter.
    Refused(usize),
    /// A read of the input failed.
    ReadFault,
    /// The client ended so; or the host had no link for it: `Memory`, or `Host`.
    Ended(ClientEnd),
}

// The exit status of a run whose client ended so.
fn client_status(end: ClientEnd) -> Status
    ensures { result ≡ client_status end }
{
    match end {
        ClientEnd::Ok => Status::Ok,
        ClientEnd::Memory => Status::Memory,
        ClientEnd::WriteFault => Status::WriteFault,
        ClientEnd::Host => Status::Host,
        ClientEnd::Denied(_) => Status::Denied,
        ClientEnd::BadReply(_) => Status::BadReply,
        ClientEnd::Gone => Status::Gone,
        ClientEnd::Silent => Status::Silent,
    }
}

impl ControlEnd {
    /// The exit status of a run that ends so.
    pub fn status(self) -> Status
        ensures { result ≡ status_of self }
    {
        match self {
            ControlEnd::Refused(_) => Status::Refused,
            ControlEnd::ReadFault => Status::ReadFault,
            ControlEnd::Ended(end) => client_status(end),
        }
    }

    // Whether the errand is done.
    pub(crate) fn is_done(self) -> bool
        ensures { result ≡ is_done self }
    {
        matches!(self, ControlEnd::Ended(ClientEnd::Ok))
    }

    // The log's line of it, with its line end. That of a client that did its errand isn't written.
    pub(crate) fn line(self, alloc: Global) -> Result<String, AllocError>
        ensures { IfOk result (λ line. string_bytes line ≡ line_of self) }
    {
        match self {
            ControlEnd::Refused(at) => format!(in alloc; "pulse_rw: refused at {at}: cookie\n"),
            ControlEnd::ReadFault => format!(in alloc; "pulse_rw: read failed\n"),
            ControlEnd::Ended(end) => {
                let text = end.log_text(alloc)?;
                format!(in alloc; "pulse_rw: {text}\n")
            }
        }
    }
}
