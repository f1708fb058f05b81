//! An input that gives one byte a read, an output that takes one byte a write, and what a run needs of its runtime.

use px_ends::{Calls, Got, MemSink, MemSource, Sink, Source, Took};
use px_types::{Mem, Text};
use std::alloc::Global;
use std::rt::Clock;
use std::sync::Wait;
use std::thread::Threads;

/// A runtime that the whole program may have.
pub trait Machine: AllocGlobal + Threads + Wait + Clock + Copy + Drop + Send + Sync + 'static {}

impl<R: AllocGlobal + Threads + Wait + Clock + Copy + Drop + Send + Sync + 'static> Machine for R {}

// The call of this number, counted from 1; 0 for none.
fn call(alloc: Global, number: u64) -> Mem<Calls> {
    let mut calls = Vec::new(alloc);
    calls.push(number)?;
    Ok(Calls::from_vec(calls))
}

/// A source of these bytes, as many a read as there is room for, whose read number `failing` fails; 0 for none.
pub fn at_once(alloc: Global, bytes: Vec<u8>, failing: u64) -> Mem<MemSource> {
    let calls = call(alloc, failing)?;
    Ok(MemSource::new(Text::from_vec(bytes), calls))
}

#[derive(Drop)]
pub struct Drip {
    inner: MemSource,
}

/// A source of these bytes, one a read, whose read number `failing` fails; 0 for none.
pub fn dripping(alloc: Global, bytes: Vec<u8>, failing: u64) -> Mem<Drip> {
    Ok(Drip {
        inner: at_once(alloc, bytes, failing)?,
    })
}

impl Source for Drip {
    ghost use Rattle.std.specs.Prelude.{Some, ◌<◌, length};
    ghost use Rattle.px_ends.specs.Bytes.{ReadGives, ReadCounts};

    ghost left = { λ s. Some s.inner.left };

    ghost faults = { λ s. s.inner.faults };

    fn read(&mut self, buffer: &mut [u8]) -> Got
        requires { 0 < length buffer.old }
        ensures bytes { ReadGives result buffer.new (Some self.old.inner.left) (Some self.new.inner.left) }
        ensures count { ReadCounts result self.old.inner.faults self.new.inner.faults }
    {
        self.inner.read(&mut buffer[..1])
    }
}

#[derive(Drop)]
pub struct Trickle {
    inner: MemSink,
}

/// A sink with room for `room` bytes that takes one byte a write, and whose write number `failing` fails; 0 for none.
pub fn trickling(alloc: Global, room: usize, failing: u64) -> Mem<Trickle> {
    let calls = call(alloc, failing)?;
    Ok(Trickle {
        inner: MemSink::new(alloc, room, calls)?,
    })
}

impl Trickle {
    pub fn bytes(&self) -> &[u8] {
        self.inner.bytes()
    }
}

impl Sink for Trickle {
    ghost use Rattle.std.specs.Prelude.{Some, ◌<◌, length};
    ghost use Rattle.px_ends.specs.Bytes.{WriteTakes, WriteCounts};

    ghost held = { λ s. Some s.inner.held };

    ghost faults = { λ s. s.inner.faults };

    fn write(&mut self, bytes: &[u8]) -> Took
        requires { 0 < length bytes.now }
        ensures bytes { WriteTakes result bytes.now (Some self.old.inner.held) (Some self.new.inner.held) }
        ensures count { WriteCounts result self.old.inner.faults self.new.inner.faults }
    {
        self.inner.write(&bytes[..1])
    }
}
