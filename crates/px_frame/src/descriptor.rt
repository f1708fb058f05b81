// The descriptor before a frame's payload.

ghost use Rattle.std.specs.Prelude.{◌≡◌, ℕ, ◌+◌, ◌≤◌, ◌<◌, take, drop, length, ◌++◌, ◌-◌, min};
ghost use Rattle.std.specs.Int.{to_be_bytes, w32};
ghost use Rattle.px_frame.specs.Descriptor.{descriptor_bytes, HasWords, broken_rule, byte_offset, seek_of};

use crate::fault::FrameFault;
use px_types::limits::{CONTROL_CHANNEL, MAX_PAYLOAD};

/// The length of a descriptor in bytes (`PA_PSTREAM_DESCRIPTOR_SIZE`).
pub const DESCRIPTOR_SIZE: usize = 20;

/// The five words of a descriptor, in their order on the wire.
#[derive(Clone, Copy, Debug, PartialEq, Eq)]
pub struct Descriptor {
    pub length: u32,
    pub channel: u32,
    pub offset_high: u32,
    pub offset_low: u32,
    pub flags: u32,
}

impl Descriptor {
    /// The descriptor that these bytes spell.
    pub fn from_bytes(bytes: &[u8; 20]) -> Descriptor
        ensures bytes { descriptor_bytes result ≡ bytes.now }
        ensures words { HasWords result }
    {
        Descriptor {
            length: word(bytes, 0),
            channel: word(bytes, 4),
            offset_high: word(bytes, 8),
            offset_low: word(bytes, 12),
            flags: word(bytes, 16),
        }
    }

    /// The first rule that it breaks, and the offset in it of that word.
    pub fn broken_rule(&self) -> Option<(FrameFault, u64)>
        ensures { result ≡ broken_rule self.now }
    {
        if self.length == 0 {
            return Some((FrameFault::ZeroLength, 0));
        }
        if self.length > MAX_PAYLOAD {
            return Some((FrameFault::TooLong, 0));
        }
        if self.channel == CONTROL_CHANNEL {
            if self.flags != 0 {
                return Some((FrameFault::PacketFlags, 16));
            }
            return None;
        }
        if self.flags >= 1 << 24 {
            return Some((FrameFault::SharedMemory, 16));
        }
        if self.seek() > 3 {
            return Some((FrameFault::SeekMode, 16));
        }
        None
    }

    /// The byte offset of a write: both offset words as one signed number.
    pub fn byte_offset(&self) -> i64
        ensures { result ≡ byte_offset self.now }
    {
        (u64::from(self.offset_high) * (1 << 32) + u64::from(self.offset_low)).cast_signed()
    }

    /// The seek mode of a write: the low byte of the flags.
    pub fn seek(&self) -> u8
        ensures { result ≡ seek_of self.now }
    {
        (self.flags % 256) as u8
    }
}

// The word whose four bytes begin at place `at`.
fn word(bytes: &[u8; 20], at: usize) -> u32
    requires { at + 4 ≤ 20 }
    ensures { to_be_bytes w32 result ≡ take 4 (drop at bytes.now) }
{
    u32::from_be_bytes([bytes[at], bytes[at + 1], bytes[at + 2], bytes[at + 3]])
}

// Copies the missing bytes of the descriptor, of which `got` are there, from the front of `rest`; answers how many.
pub fn fill(bytes: &mut [u8; 20], got: usize, rest: &[u8]) -> usize
    requires { got < 20 }
    ensures bytes { take (got + result) bytes.new ≡ take got bytes.old ++ take result rest.now }
    ensures count { result ≡ min (length rest.now) (20 - got) }
{
    let count = rest.len().min(DESCRIPTOR_SIZE - got);
    bytes[got..got + count].copy_from_slice(&rest[..count]);
    count
}
