// How the client ends.

ghost use Rattle.std.specs.Prelude.{◌≡◌, IfOk, string_bytes};
ghost use Rattle.px_client.specs.Listing.{log_text};
ghost use Rattle.px_client.specs.declared.end.ClientEnd.TheVariants as ends;

use px_tag::NoMemory;
use std::alloc::{AllocError, Global};

/// How the client ends.
#[derive(Clone, Copy, Debug, PartialEq, Eq)]
pub enum ClientEnd {
    /// The errand is done, and what it lists is written.
    Ok,
    /// Want of memory.
    Memory,
    /// A write of the output failed.
    WriteFault,
    /// A call of the link failed.
    Host,
    /// The server refused a command, with this code of the protocol.
    Denied(u32),
    /// The server's bytes break a rule, or hold something else than the awaited answer, at this offset; or they are 2^30, the offset then,
    /// without the answer.
    BadReply(u64),
    /// The server closed the connection before its answer.
    Gone,
    /// The link wasn't ready 1,000,000 times in a row.
    Silent,
}

impl From<NoMemory> for ClientEnd {
    ghost from_gives = { λ _ e. e ≡ ends.Memory };

    fn from(_error: NoMemory) -> ClientEnd {
        ClientEnd::Memory
    }
}

impl ClientEnd {
    /// What the log says of it, without prefix and line end; nothing of `Ok`.
    pub fn log_text(self, alloc: Global) -> Result<String, AllocError>
        ensures { IfOk result (λ text. string_bytes text ≡ log_text self) }
    {
        match self {
            ClientEnd::Ok => format!(in alloc; ""),
            ClientEnd::Memory => format!(in alloc; "out of memory"),
            ClientEnd::WriteFault => format!(in alloc; "write failed"),
            ClientEnd::Host => format!(in alloc; "host failed"),
            ClientEnd::Denied(code) => format!(in alloc; "server refused {code}"),
            ClientEnd::BadReply(at) => format!(in alloc; "bad reply at {at}"),
            ClientEnd::Gone => format!(in alloc; "server gone"),
            ClientEnd::Silent => format!(in alloc; "server silent"),
        }
    }
}
