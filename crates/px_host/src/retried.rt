// Reads and writes that a signal may interrupt.
ghost use Rattle.std.specs.Prelude.{◌<◌, ◌≤◌, length, IfOk};
ghost use Rattle.std.specs.Io.{ReadsAtMost};

use std::io;
use std::io::{ErrorKind, Read, Write};

// How many interrupted calls in a row are made again.
const RETRIES: usize = 1_000;

/// Reads once, or again where a signal interrupts it.
pub fn read<R: Read>(reader: &mut R, buffer: &mut [u8]) -> io::Result<usize>
    ensures { ReadsAtMost result buffer.new }
{
    for _ in 0..RETRIES {
        match reader.read(buffer) {
            Err(error) if error.kind() == ErrorKind::Interrupted => {}
            got => return got,
        }
    }
    reader.read(buffer)
}

/// Writes a front of `bytes`, or tries again where a signal interrupts it. A writer that takes none of them has failed.
pub fn write<W: Write>(writer: &mut W, bytes: &[u8]) -> io::Result<usize>
    requires { 0 < length bytes.now }
    ensures { IfOk result (λ count. (0 < count) × (count ≤ length bytes.now)) }
{
    for _ in 0..RETRIES {
        match writer.write(bytes) {
            Ok(0) => return Err(io::Error::new(ErrorKind::WriteZero, "no byte was taken")),
            Err(error) if error.kind() == ErrorKind::Interrupted => {}
            took => return took,
        }
    }
    Err(io::Error::from(ErrorKind::Interrupted))
}
