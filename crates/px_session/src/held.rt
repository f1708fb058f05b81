//! The bytes that a reader has taken from its source and not used yet.

ghost use Rattle.std.specs.Prelude.{◌≡◌, ◌+◌, ◌-◌, ◌<◌, ◌≤◌, [], length, take, drop, vec_len, IfOk, IfErr, OnOk, OnErr};

use crate::fault::ReadError;
use px_ends::{Got, Source};
use px_types::Mem;
use std::alloc::Global;
use std::marker::Model;

/// The bytes of a buffer at first.
const BUFFER: usize = 65_536;

/// What asking a source for more answers.
#[derive(Clone, Copy, Debug, PartialEq, Eq)]
pub(crate) enum More {
    /// At least one byte came.
    Came,
    /// The source has ended.
    Ended,
}

/// Bytes of a source that are not used yet. Contracts see them as a list.
#[derive(Debug, Drop)]
pub(crate) struct Held {
    buffer: Vec<u8>,
    from: usize,
    to: usize,
}

impl Model for Held {
    ghost use Rattle.std.specs.Prelude.{List, ℕ, ◌-◌, ◌≤◌, length, take, drop};

    ghost Value = { List ℕ };

    ghost view = { λ h. take (h.to - h.from) (drop h.from h.buffer.items) };

    ghost invariant = { λ h. (h.from ≤ h.to) × (h.to ≤ length h.buffer.items) };
}

// Moves the bytes between `from` and `to` to the front.
fn move_to_front(buffer: &mut [u8], from: usize, to: usize)
    requires order { from ≤ to }
    requires inside { to ≤ length buffer.old }
    ensures { take (to - from) buffer.new ≡ take (to - from) (drop from buffer.old) }
{
    if from > 0 {
        buffer.copy_within(from..to, 0);
    }
}

// Makes room after the first `filled` bytes, which stay.
fn make_room(buffer: &mut Vec<u8>, filled: usize) -> Mem<()>
    requires { filled ≤ length buffer.old.items }
    ensures room { OnOk result (filled < length buffer.new.items) }
    ensures same { take filled buffer.new.items ≡ take filled buffer.old.items }
    ensures size { filled ≤ length buffer.new.items }
{
    if filled == buffer.len() {
        buffer.extend_from_slice(&[0; 4096])?;
    }
    Ok(())
}

impl Held {
    ghost use Rattle.px_session.specs.Held.{MoreGives, ReadCounts, IsNoRefusal};

    /// Holds no bytes, and has a buffer of 64 KiB.
    pub(crate) fn new(alloc: Global) -> Mem<Held>
        ensures { IfOk result (λ held. held ≡ []) }
    {
        Ok(Held {
            buffer: vec![in alloc; 0; BUFFER]?,
            from: 0,
            to: 0,
        })
    }

    /// The bytes.
    pub(crate) fn as_slice(&self) -> &[u8]
        ensures { result.now ≡ self.now }
    {
        &self.buffer[self.from..self.to]
    }

    /// Drops the first `count` bytes.
    pub(crate) fn use_front(&mut self, count: usize)
        requires { count ≤ length self.old }
        ensures { self.new ≡ drop count self.old }
    {
        self.from += count;
    }

    /// Takes more bytes from the source, with one read.
    pub(crate) fn more<S: Source>(&mut self, input: &mut S) -> Result<More, ReadError>
        ensures gives { MoreGives result self.old self.new (S.left input.old) (S.left input.new) }
        ensures counts { ReadCounts result (S.faults input.old) (S.faults input.new) }
        ensures faults { IfErr result IsNoRefusal }
    {
        move_to_front(&mut self.buffer, self.from, self.to);
        self.to -= self.from;
        self.from = 0;
        make_room(&mut self.buffer, self.to)?;
        match input.read(&mut self.buffer[self.to..]) {
            Got::Bytes(n) => {
                self.to += n;
                Ok(More::Came)
            }
            Got::End => Ok(More::Ended),
            Got::Failed => Err(ReadError::Failed),
        }
    }
}
