// Loops over reads and writes: fill a buffer, write all bytes.
ghost use Rattle.std.specs.Prelude.{◌≡◌, ℕ, ◌<◌, List, Option, length, OnOk, OnErr};
ghost use Rattle.px_ends.specs.Visible.{after_adding};
ghost use Rattle.px_types.specs.Faults.{Rose};
ghost use Rattle.px_ends.specs.Whole.{FillGives, FillCounts, AddsFront};

use crate::{Got, Sink, Source, Took};

/// What filling a buffer answers.
#[derive(Clone, Copy, Debug, PartialEq, Eq)]
pub enum Filled {
    /// Every place of the buffer was filled.
    Full,
    /// The source ended after this many bytes.
    Ended(usize),
    /// A read failed.
    Failed,
}

/// Reads into the buffer until it is full, the source ends or a read fails. Takes no memory.
pub fn fill<S: Source>(source: &mut S, buffer: &mut [u8]) -> Filled
    ensures bytes { FillGives result buffer.new (S.left source.old) (S.left source.new) }
    ensures count { FillCounts result (S.faults source.old) (S.faults source.new) }
{
    let mut filled = 0;
    while filled < buffer.len() {
        match source.read(&mut buffer[filled..]) {
            Got::Bytes(n) => filled += n,
            Got::End => return Filled::Ended(filled),
            Got::Failed => return Filled::Failed,
        }
    }
    Filled::Full
}

/// A write that failed: some of the bytes may have been taken, from their front.
#[derive(Clone, Copy, Debug, PartialEq, Eq)]
pub struct WriteFailed;

/// Writes all of the bytes. Takes no memory.
pub fn write_all<K: Sink>(sink: &mut K, bytes: &[u8]) -> Result<(), WriteFailed>
    ensures ok { OnOk result (K.held sink.new ≡ after_adding (K.held sink.old) bytes.now) }
    ensures ok_count { OnOk result (K.faults sink.new ≡ K.faults sink.old) }
    ensures err { OnErr result (AddsFront bytes.now (K.held sink.old) (K.held sink.new)) }
    ensures err_count { OnErr result (Rose (K.faults sink.old) (K.faults sink.new)) }
{
    let mut written = 0;
    while written < bytes.len() {
        match sink.write(&bytes[written..]) {
            Took::Bytes(n) => written += n,
            Took::Failed => return Err(WriteFailed),
        }
    }
    Ok(())
}
