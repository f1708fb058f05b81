//! Packets to send to clients, and why the server ends a connection.

ghost use Rattle.std.specs.Prelude.{◌≡◌};
ghost use Rattle.px_outcome.specs.Outcome.{reason_code};

use px_tag::Packet;
use px_types::ConnId;

/// A packet, not framed yet, for a connection.
#[derive(Debug, Drop)]
pub struct Sending {
    pub conn: ConnId,
    pub packet: Packet,
}

/// Why the server has ended a connection.
#[derive(Clone, Copy, Debug, PartialEq, Eq)]
pub enum Reason {
    /// What it sent breaks a rule of the protocol.
    Protocol,
    /// No more connections are taken.
    Limit,
    /// Another client asked for it.
    Killed,
    /// There was no memory for it.
    Cut,
}

impl Reason {
    /// Its number in recorded sessions, 1 to 4. Own: PulseAudio has none.
    pub fn code(self) -> u8
        ensures { result ≡ reason_code self }
    {
        match self {
            Reason::Protocol => 1,
            Reason::Limit => 2,
            Reason::Killed => 3,
            Reason::Cut => 4,
        }
    }
}
