//! The bytes of a header file, as a source of sessions.
ghost use Rattle.std.specs.Prelude.{◌≡◌, ◌<◌, Some, length, min, take};
ghost use Rattle.px_ends.specs.Bytes.{ReadGives, ReadCounts};

use px_ends::{Got, Source};
use px_types::Text;
use std::marker::Model;

/// A source of these bytes, no call of which fails. Contracts see the bytes that are left.
#[derive(Debug, Drop)]
pub(crate) struct FileBytes {
    bytes: Text,
    at: usize,
}

impl Model for FileBytes {
    ghost use Rattle.std.specs.Prelude.{◌≤◌, ℕ, List, length, drop};

    ghost Value = { List ℕ };

    ghost view = { λ f. drop f.at f.bytes };

    ghost invariant = { λ f. f.at ≤ length f.bytes };
}

// Copies the front of `from` to the front of `buffer`, as far as both reach, and returns the number of bytes.
fn copy_front(from: &[u8], buffer: &mut [u8]) -> usize
    ensures count { result ≡ min (length buffer.old) (length from.now) }
    ensures front { take result buffer.new ≡ take result from.now }
{
    let count = buffer.len().min(from.len());
    buffer[..count].copy_from_slice(&from[..count]);
    count
}

impl FileBytes {
    /// A source of all of these bytes. Takes no memory.
    pub(crate) fn new(bytes: Text) -> FileBytes
        ensures { result ≡ bytes }
    {
        FileBytes { bytes, at: 0 }
    }
}

impl Source for FileBytes {
    ghost use Rattle.std.specs.Prelude.{Some};

    ghost left = { λ f. Some f };

    ghost faults = { λ f. 0 };

    fn read(&mut self, buffer: &mut [u8]) -> Got
        requires { 0 < length buffer.old }
        ensures bytes { ReadGives result buffer.new (Some self.old) (Some self.new) }
        ensures count { ReadCounts result 0 0 }
    {
        let left = &self.bytes.as_slice()[self.at..];
        if left.is_empty() {
            return Got::End;
        }
        let count = copy_front(left, buffer);
        self.at += count;
        Got::Bytes(count)
    }
}
