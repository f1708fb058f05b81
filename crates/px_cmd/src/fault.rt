//! Why a packet means no command.

ghost use Rattle.std.specs.Prelude.{◌≡◌};
ghost use Rattle.px_cmd.specs.declared.fault.CmdFault.TheVariants.{Protocol, NoMemory as OutOfMemory};

use px_tag::{NoMemory, TagFault};

/// Why a packet means no command: the first of these that holds. Own: PulseAudio ends the connection or answers without naming the byte.
#[derive(Clone, Copy, Debug, PartialEq, Eq)]
pub enum CmdFault {
    /// A field can't be read, or bytes are left; with the offset.
    Protocol(TagFault),
    /// The command's number, above 104.
    Unknown(u32),
    /// The command's number, which the server doesn't support.
    Unsupported(u32),
    /// Memory ran out for what the command holds.
    NoMemory,
}

impl From<TagFault> for CmdFault {
    ghost from_gives = { λ fault e. e ≡ Protocol fault };

    fn from(fault: TagFault) -> CmdFault {
        CmdFault::Protocol(fault)
    }
}

impl From<NoMemory> for CmdFault {
    ghost from_gives = { λ _ e. e ≡ OutOfMemory };

    fn from(_error: NoMemory) -> CmdFault {
        CmdFault::NoMemory
    }
}
