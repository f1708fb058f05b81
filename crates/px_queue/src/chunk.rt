// A chunk: part of a block on a shelf, laid at a byte index.
ghost use Rattle.std.specs.Prelude.{◌≡◌, ◌+◌, ◌-◌, ◌<◌, ◌≤◌, ◌^◌};
ghost use Rattle.px_queue.specs.Laid.{TOP};

use std::marker::Model;

/// A `pa_memchunk`: `len` bytes of the block under `key`, from byte `place` of it on, laid at byte index `at`.
#[derive(Clone, Copy, Debug)]
pub(crate) struct Chunk {
    at: u128,
    key: usize,
    place: u32,
    len: u32,
}

impl Model for Chunk {
    ghost use Rattle.std.specs.Prelude.{◌≤◌, ◌+◌, ◌^◌, ◌<◌};
    ghost use Rattle.px_queue.specs.Laid.{Laid, TOP};

    ghost Value = { Laid };

    ghost view = { λ c. record { at = c.at; key = c.key; place = c.place; len = c.len } };

    ghost invariant = { λ c. (c.at + c.len ≤ TOP) × (c.place + c.len < 2 ^ 32) };

    ghost inverse = { λ c. record { at = c.at; key = c.key; place = c.place; len = c.len } };
}

impl Chunk {
    /// The first `len` bytes of the block under `key`.
    pub(crate) fn new(at: u128, key: usize, len: u32) -> Chunk
        requires { at + len ≤ TOP }
        ensures { result ≡ record { at = at; key = key; place = 0; len = len } }
    {
        Chunk {
            at,
            key,
            place: 0,
            len,
        }
    }

    /// The byte index at which it begins.
    pub(crate) fn first(&self) -> u128
        ensures value { result ≡ self.now.at }
        ensures few { result ≤ TOP }
    {
        self.at
    }

    /// The byte index at which it ends, one past its last byte.
    pub(crate) fn end(&self) -> u128
        ensures value { result ≡ self.now.at + self.now.len }
        ensures few { result ≤ TOP }
    {
        self.at + self.len as u128
    }

    /// The key of its block.
    pub(crate) fn key(&self) -> usize
        ensures { result ≡ self.now.key }
    {
        self.key
    }

    /// The place in its block at which it begins.
    pub(crate) fn place(&self) -> usize
        ensures value { result ≡ self.now.place }
        ensures few { result + self.now.len < 2 ^ 32 }
    {
        self.place as usize
    }

    /// How many bytes it has.
    pub(crate) fn len(&self) -> usize
        ensures { result ≡ self.now.len }
    {
        self.len as usize
    }

    /// The part of it before byte index `to`, which lies inside.
    pub(crate) fn head(&self, to: u128) -> Chunk
        requires from { self.now.at ≤ to }
        requires to { to ≤ self.now.at + self.now.len }
        ensures { result ≡ record self.now { len = to - self.now.at } }
    {
        Chunk {
            at: self.at,
            key: self.key,
            place: self.place,
            len: (to - self.at) as u32,
        }
    }

    /// The part of it from byte index `from` on, which lies inside.
    pub(crate) fn tail(&self, from: u128) -> Chunk
        requires from { self.now.at ≤ from }
        requires to { from ≤ self.now.at + self.now.len }
        ensures { result ≡ record self.now { at = from; place = self.now.place + (from - self.now.at); len = self.now.len - (from - self.now.at) } }
    {
        let cut = (from - self.at) as u32;
        Chunk {
            at: from,
            key: self.key,
            place: self.place + cut,
            len: self.len - cut,
        }
    }

    /// The chunk with the next `bytes` bytes of its block added at its end.
    pub(crate) fn longer(&self, bytes: u32) -> Chunk
        requires top { self.now.at + self.now.len + bytes ≤ TOP }
        requires block { self.now.place + self.now.len + bytes < 2 ^ 32 }
        ensures { result ≡ record self.now { len = self.now.len + bytes } }
    {
        Chunk {
            at: self.at,
            key: self.key,
            place: self.place,
            len: self.len + bytes,
        }
    }
}
