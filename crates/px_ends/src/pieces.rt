//! Output gathered in memory until a piece is full.

ghost use Rattle.std.specs.Prelude.{◌≡◌, ◌≤◌, ◌++◌, [], length, IsTrue, OnOk, OnErr, ◌↔◌};
ghost use Rattle.px_ends.specs.Bytes.{WriteTakes, WriteCounts};
ghost use Rattle.px_ends.specs.Visible.{after_adding};
ghost use Rattle.px_ends.specs.Whole.{AddsFront};
ghost use Rattle.px_types.specs.Faults.{Rose};
ghost use Rattle.px_ends.specs.Pieces.{PIECE};

use crate::bytes::{Sink, Took};
use crate::whole::{WriteFailed, write_all};
use std::alloc::Global;
use std::marker::Model;

/// The bytes of a full piece: 64 KiB.
const PIECE: usize = 65_536;

/// Bytes that wait to be written. It is a sink that takes all bytes of a write, and holds them until they are flushed; a write fails only
/// for want of memory. Contracts see what waits, and the count of writes that failed.
#[derive(Drop)]
pub struct Pieces {
    bytes: Vec<u8>,
    faults: u64,
}

impl Model for Pieces {
    ghost use Rattle.px_ends.specs.Pieces.{Waiting};

    ghost Value = { Waiting };

    ghost view = { λ p. record { bytes = p.bytes.items; faults = p.faults } };
}

impl Pieces {
    /// Holds nothing. Takes no memory.
    pub fn new(alloc: Global) -> Pieces
        ensures { result ≡ record { bytes = []; faults = 0 } }
    {
        Pieces {
            bytes: Vec::new(alloc),
            faults: 0,
        }
    }

    /// Whether at least 64 KiB wait, a full piece to write. Takes no memory.
    pub fn is_piece(&self) -> bool
        ensures { IsTrue result ↔ (PIECE ≤ length self.now.bytes) }
    {
        self.bytes.len() >= PIECE
    }

    /// Writes all that waits; the memory stays for later bytes. After `WriteFailed` the output took a front of it, and the rest is dropped.
    /// Takes no memory.
    pub fn flush<K: Sink>(&mut self, output: &mut K) -> Result<(), WriteFailed>
        ensures ok { OnOk result (K.held output.new ≡ after_adding (K.held output.old) self.old.bytes) }
        ensures ok_count { OnOk result (K.faults output.new ≡ K.faults output.old) }
        ensures err { OnErr result (AddsFront self.old.bytes (K.held output.old) (K.held output.new)) }
        ensures err_count { OnErr result (Rose (K.faults output.old) (K.faults output.new)) }
        ensures empty { self.new.bytes ≡ [] }
        ensures faults { self.new.faults ≡ self.old.faults }
    {
        let written = write_all(output, self.bytes.as_slice());
        self.bytes.clear();
        written
    }
}

impl Sink for Pieces {
    ghost use Rattle.std.specs.Prelude.{Some, ◌<◌};

    ghost held = { λ p. Some p.bytes };

    ghost faults = { λ p. p.faults };

    fn write(&mut self, bytes: &[u8]) -> Took
        requires { 0 < length bytes.now }
        ensures bytes { WriteTakes result bytes.now (Some self.old.bytes) (Some self.new.bytes) }
        ensures count { WriteCounts result self.old.faults self.new.faults }
    {
        match self.bytes.extend_from_slice(bytes) {
            Ok(()) => Took::Bytes(bytes.len()),
            Err(_) => {
                self.faults = self.faults.saturating_add(1);
                Took::Failed
            }
        }
    }
}
