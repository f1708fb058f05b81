// The bytes of a packet.

ghost use Rattle.std.specs.Prelude.{◌≡◌, ◌+◌, ◌≤◌, ◌++◌, length, vec_len, vec_capacity};

use std::marker::Model;

/// A packet's bytes (`pa_packet`): the payload of a control frame, or a whole frame to be sent.
#[derive(Debug, Drop)]
pub struct Packet {
    bytes: Vec<u8>,
}

impl Model for Packet {
    ghost use Rattle.std.specs.Prelude.{ℕ, List};

    ghost Value = { List ℕ };

    ghost view = { λ p. p.bytes.items };
}

impl Packet {
    /// A packet of these bytes. Takes no memory.
    pub fn from_vec(bytes: Vec<u8>) -> Packet
        ensures { result ≡ bytes.items }
    {
        Packet { bytes }
    }

    /// Its bytes. Takes no memory.
    pub fn bytes(&self) -> &[u8]
        ensures { result.now ≡ self.now }
    {
        self.bytes.as_slice()
    }

    /// Its bytes, given away. Takes no memory.
    pub fn into_vec(self) -> Vec<u8>
        ensures { result.items ≡ self }
    {
        self.bytes
    }
}

/// Appends bytes that there is room for.
pub fn append(bytes: &mut Vec<u8>, more: &[u8])
    requires { vec_len bytes.old + length more.now ≤ vec_capacity bytes.old }
    ensures items { bytes.new.items ≡ bytes.old.items ++ more.now }
    ensures room { vec_capacity bytes.old ≤ vec_capacity bytes.new }
{
    bytes.extend_from_slice(more).unwrap();
}
