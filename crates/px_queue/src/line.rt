// A queue of chunks in one piece of memory.
ghost use Rattle.std.specs.Prelude.{◌≡◌, ◌+◌, ◌-◌, ◌<◌, ◌≤◌, ◌^◌, ◌==◌, [], ◌∷◌, ◌++◌, length, take, drop, slice_index_or, vec_len, vec_capacity, OnOk, ◌↔◌, IsSome};
ghost use Rattle.std.specs.Option.{option_to_list};

use crate::chunk::Chunk;
use std::alloc::{AllocError, Global};
use std::marker::Model;

/// How many chunks may have gone from the front before the others move there: few enough that they stay near it.
const MOST_GONE: usize = 32;

/// Chunks in order, which come at the back and go at the front. The `gone` places of those that left stay free at first, and the others move there
/// once as many are gone as are left. So a line of few chunks stays at the front of its memory, however large that is, where a ring would go through
/// all of it.
#[derive(Debug, Drop)]
pub(crate) struct Line {
    chunks: Vec<Chunk>,
    gone: usize,
}

impl Model for Line {
    ghost use Rattle.std.specs.Prelude.{◌≤◌, drop, vec_len, vec_capacity};
    ghost use Rattle.px_queue.specs.Laid.{Lined};

    ghost Value = { Lined };

    ghost view = { λ l. record { items = drop l.gone l.chunks.items; capacity = vec_capacity l.chunks } };

    ghost invariant = { λ l. l.gone ≤ vec_len l.chunks };
}

impl Line {
    /// No chunks, without room. Takes no memory.
    pub(crate) fn new(alloc: Global) -> Line
        ensures items { result.items ≡ [] }
        ensures capacity { result.capacity ≡ 0 }
    {
        Line {
            chunks: Vec::new(alloc),
            gone: 0,
        }
    }

    /// The number of chunks.
    pub(crate) fn len(&self) -> usize
        ensures value { result ≡ length self.now.items }
        ensures few { result < 2 ^ 63 }
    {
        self.chunks.len() - self.gone
    }

    /// Whether there is none.
    pub(crate) fn is_empty(&self) -> bool
        ensures { result ≡ (length self.now.items == 0) }
    {
        self.chunks.len() == self.gone
    }

    /// Chunk `k`, from 0.
    pub(crate) fn get(&self, k: usize) -> Chunk
        requires { k < length self.now.items }
        ensures { result ≡ slice_index_or self.now.items k result }
    {
        self.chunks[self.gone + k]
    }

    /// Takes the first chunk out.
    pub(crate) fn pop_front(&mut self) -> Option<Chunk>
        ensures items { self.old.items ≡ option_to_list result ++ self.new.items }
        ensures variant { IsSome result ↔ (0 < length self.old.items) }
        ensures capacity { self.new.capacity ≡ self.old.capacity }
    {
        if self.is_empty() {
            return None;
        }
        let first = self.chunks[self.gone];
        self.gone += 1;
        if self.gone >= MOST_GONE && self.gone >= self.len() {
            move_up(&mut self.chunks, self.gone);
            self.gone = 0;
        }
        Some(first)
    }

    /// Takes the last chunk out.
    pub(crate) fn pop_back(&mut self) -> Option<Chunk>
        ensures items { self.old.items ≡ self.new.items ++ option_to_list result }
        ensures variant { IsSome result ↔ (0 < length self.old.items) }
        ensures capacity { self.new.capacity ≡ self.old.capacity }
        ensures few { self.old.capacity < 2 ^ 63 }
    {
        if self.is_empty() {
            return None;
        }
        self.chunks.pop()
    }

    /// Appends a chunk, where there is room. Takes no memory.
    pub(crate) fn push_back_reserved(&mut self, chunk: Chunk)
        requires { length self.old.items < self.old.capacity }
        ensures items { self.new.items ≡ self.old.items ++ chunk ∷ [] }
        ensures capacity { self.new.capacity ≡ self.old.capacity }
    {
        self.gone = make_room(&mut self.chunks, self.gone, 1);
        self.chunks.push_reserved(chunk);
    }

    /// Puts a chunk before the others, where there is room. Takes no memory.
    pub(crate) fn push_front_reserved(&mut self, chunk: Chunk)
        requires { length self.old.items < self.old.capacity }
        ensures items { self.new.items ≡ chunk ∷ self.old.items }
        ensures capacity { self.new.capacity ≡ self.old.capacity }
        ensures few { self.new.capacity < 2 ^ 63 }
    {
        if self.gone == 0 {
            self.gone = free_front(&mut self.chunks, 1, chunk);
        }
        self.gone -= 1;
        self.chunks[self.gone] = chunk;
    }

    /// Moves the last `count` chunks of `other` to the front of this line, where there is room. Takes no memory.
    pub(crate) fn take_back(&mut self, other: &mut Line, count: usize)
        requires some { 1 ≤ count }
        requires there { count ≤ length other.old.items }
        requires room { length self.old.items + count ≤ self.old.capacity }
        ensures items { self.new.items ≡ drop (length other.old.items - count) other.old.items ++ self.old.items }
        ensures left { other.new.items ≡ take (length other.old.items - count) other.old.items }
        ensures capacity { self.new.capacity ≡ self.old.capacity }
        ensures other_capacity { other.new.capacity ≡ other.old.capacity }
    {
        let from = other.chunks.len() - count;
        self.gone = free_places(&mut self.chunks, self.gone, count, other.chunks[from]);
        put_before(&mut self.chunks, self.gone, &other.chunks[from..]);
        self.gone -= count;
        other.chunks.truncate(from);
    }

    /// Moves the first `count` chunks of `other` to the back of this line, where there is room. Takes no memory.
    pub(crate) fn take_front(&mut self, other: &mut Line, count: usize)
        requires there { count ≤ length other.old.items }
        requires room { length self.old.items + count ≤ self.old.capacity }
        ensures items { self.new.items ≡ self.old.items ++ take count other.old.items }
        ensures left { other.new.items ≡ drop count other.old.items }
        ensures capacity { self.new.capacity ≡ self.old.capacity }
        ensures other_capacity { other.new.capacity ≡ other.old.capacity }
    {
        self.gone = make_room(&mut self.chunks, self.gone, count);
        let end = other.gone + count;
        append_all(&mut self.chunks, &other.chunks[other.gone..end]);
        other.gone = end;
    }

    /// Makes room for `more` more chunks, and for half as many as are there, so that moves to the front stay rare. Without memory nothing changes.
    pub(crate) fn reserve(&mut self, more: usize) -> Result<(), AllocError>
        ensures items { self.new.items ≡ self.old.items }
        ensures capacity { self.old.capacity ≤ self.new.capacity }
        ensures ok { OnOk result (length self.new.items + more ≤ self.new.capacity) }
        ensures few { self.new.capacity < 2 ^ 63 }
    {
        if more > self.chunks.capacity() - self.chunks.len() {
            move_up(&mut self.chunks, self.gone);
            self.gone = 0;
        }
        self.chunks
            .reserve(more.saturating_add(self.chunks.len() / 2))
    }
}

// Drops the first `gone` chunks, and moves the others to the front.
fn move_up(chunks: &mut Vec<Chunk>, gone: usize)
    requires { gone ≤ vec_len chunks.old }
    ensures items { chunks.new.items ≡ drop gone chunks.old.items }
    ensures capacity { vec_capacity chunks.new ≡ vec_capacity chunks.old }
{
    let left = chunks.len() - gone;
    chunks.copy_within(gone.., 0);
    chunks.truncate(left);
}

// Makes room for `more` more chunks at the back, where the first `gone` chunks may go for it, and answers how many of those are left.
fn make_room(chunks: &mut Vec<Chunk>, gone: usize, more: usize) -> usize
    requires there { gone ≤ vec_len chunks.old }
    requires room { vec_len chunks.old - gone + more ≤ vec_capacity chunks.old }
    ensures room { vec_len chunks.new + more ≤ vec_capacity chunks.new }
    ensures fits { result ≤ vec_len chunks.new }
    ensures items { drop result chunks.new.items ≡ drop gone chunks.old.items }
    ensures capacity { vec_capacity chunks.new ≡ vec_capacity chunks.old }
{
    if more <= chunks.capacity() - chunks.len() {
        return gone;
    }
    move_up(chunks, gone);
    0
}

// Appends these chunks, for which there is room.
fn append_all(chunks: &mut Vec<Chunk>, part: &[Chunk])
    requires { vec_len chunks.old + length part.now ≤ vec_capacity chunks.old }
    ensures items { chunks.new.items ≡ chunks.old.items ++ part.now }
    ensures capacity { vec_capacity chunks.new ≡ vec_capacity chunks.old }
{
    for k in 0..part.len() {
        chunks.push_reserved(part[k]);
    }
}

// Makes at least `count` free places in front of the chunks, where `gone` are free, and answers how many there are. Those that are new hold copies of
// `chunk`.
fn free_places(chunks: &mut Vec<Chunk>, gone: usize, count: usize, chunk: Chunk) -> usize
    requires there { gone ≤ vec_len chunks.old }
    requires room { vec_len chunks.old - gone + count ≤ vec_capacity chunks.old }
    ensures enough { count ≤ result }
    ensures fits { result ≤ vec_len chunks.new }
    ensures items { drop result chunks.new.items ≡ drop gone chunks.old.items }
    ensures capacity { vec_capacity chunks.new ≡ vec_capacity chunks.old }
{
    if count <= gone {
        return gone;
    }
    gone + free_front(chunks, count - gone, chunk)
}

// Puts these chunks into the last of the `gone` free places in front.
fn put_before(chunks: &mut Vec<Chunk>, gone: usize, part: &[Chunk])
    requires there { gone ≤ vec_len chunks.old }
    requires room { length part.now ≤ gone }
    ensures len { vec_len chunks.new ≡ vec_len chunks.old }
    ensures items { drop (gone - length part.now) chunks.new.items ≡ part.now ++ drop gone chunks.old.items }
    ensures capacity { vec_capacity chunks.new ≡ vec_capacity chunks.old }
{
    chunks[gone - part.len()..gone].copy_from_slice(part);
}

// Moves the chunks away from the front, and answers by how many places: `least` or more, and half as many as there are chunks, as far as there is room,
// so that chunks put in front one after another seldom move them. The free places hold copies of `chunk`.
fn free_front(chunks: &mut Vec<Chunk>, least: usize, chunk: Chunk) -> usize
    requires { vec_len chunks.old + least ≤ vec_capacity chunks.old }
    ensures some { least ≤ result }
    ensures fits { result ≤ vec_len chunks.new }
    ensures items { drop result chunks.new.items ≡ chunks.old.items }
    ensures capacity { vec_capacity chunks.new ≡ vec_capacity chunks.old }
{
    let len = chunks.len();
    let places = (len / 2 + 1).max(least).min(chunks.capacity() - len);
    for _ in 0..places {
        chunks.push_reserved(chunk);
    }
    chunks.copy_within(..len, places);
    places
}
