// A list of chunks that changes mostly near where it changed last.
ghost use Rattle.std.specs.Prelude.{◌≡◌, ◌+◌, ◌<◌, ◌≤◌, ◌^◌, ◌==◌, [], ◌∷◌, ◌++◌, length, take, drop, min, slice_index_or, OnOk, ◌↔◌, IsSome};
ghost use Rattle.std.specs.Option.{option_to_list};

use crate::chunk::Chunk;
use crate::line::Line;
use std::alloc::{AllocError, Global};
use std::marker::Model;

/// Chunks in order, in two parts (a gap buffer, as text editors have): the first `count` are those before a place among them (`before`), and the others
/// those after it (`behind`). They lie in `left` and `right`, which meet where a chunk came or went last: that place moves only when one comes or goes
/// elsewhere, by as many chunks as lie between. Parting and joining the list moves none.
#[derive(Debug, Drop)]
pub(crate) struct GapBuffer {
    left: Line,
    right: Line,
    count: usize,
}

impl Model for GapBuffer {
    ghost use Rattle.std.specs.Prelude.{◌++◌, ◌+◌, ◌≤◌, length, take, drop, min};
    ghost use Rattle.px_queue.specs.Laid.{Parted};

    ghost Value = { Parted };

    ghost view = { λ b. record {
      before = take b.count (b.left.items ++ b.right.items);
      behind = drop b.count (b.left.items ++ b.right.items);
      capacity = min b.left.capacity b.right.capacity;
    } };

    ghost invariant = { λ b. (b.count ≤ length b.left.items + length b.right.items)
        × (length b.left.items + length b.right.items ≤ min b.left.capacity b.right.capacity) };
}

impl GapBuffer {
    /// No chunks, without room. Takes no memory.
    pub(crate) fn new(alloc: Global) -> GapBuffer
        ensures { result ≡ record { before = []; behind = []; capacity = 0 } }
    {
        GapBuffer {
            left: Line::new(alloc),
            right: Line::new(alloc),
            count: 0,
        }
    }

    /// The number of chunks in `before`.
    pub(crate) fn len(&self) -> usize
        ensures { result ≡ length self.now.before }
    {
        self.count
    }

    /// Whether `before` is empty.
    pub(crate) fn is_empty(&self) -> bool
        ensures { result ≡ (length self.now.before == 0) }
    {
        self.count == 0
    }

    /// Chunk `k` of `before`, from 0.
    pub(crate) fn get(&self, k: usize) -> Chunk
        requires { k < length self.now.before }
        ensures { result ≡ slice_index_or self.now.before k result }
    {
        let near = self.left.len();
        if k < near {
            self.left.get(k)
        } else {
            self.right.get(k - near)
        }
    }

    /// Leaves the first `count` chunks in `before`.
    pub(crate) fn part(&mut self, count: usize)
        requires { count ≤ length self.old.before }
        ensures before { self.new.before ≡ take count self.old.before }
        ensures behind { self.new.behind ≡ drop count self.old.before ++ self.old.behind }
        ensures capacity { self.new.capacity ≡ self.old.capacity }
    {
        self.count = count;
    }

    /// Moves `behind` to `before`.
    pub(crate) fn join(&mut self)
        ensures before { self.new.before ≡ self.old.before ++ self.old.behind }
        ensures behind { self.new.behind ≡ [] }
        ensures capacity { self.new.capacity ≡ self.old.capacity }
    {
        self.count = self.left.len() + self.right.len();
    }

    /// Takes the first chunk of `before` out.
    pub(crate) fn pop_front(&mut self) -> Option<Chunk>
        ensures items { self.old.before ≡ option_to_list result ++ self.new.before }
        ensures variant { IsSome result ↔ (0 < length self.old.before) }
        ensures behind { self.new.behind ≡ self.old.behind }
        ensures capacity { self.new.capacity ≡ self.old.capacity }
    {
        if self.count == 0 {
            return None;
        }
        self.count -= 1;
        if self.left.is_empty() {
            self.right.pop_front()
        } else {
            self.left.pop_front()
        }
    }

    /// Takes the last chunk of `before` out.
    pub(crate) fn pop_back(&mut self) -> Option<Chunk>
        ensures items { self.old.before ≡ self.new.before ++ option_to_list result }
        ensures variant { IsSome result ↔ (0 < length self.old.before) }
        ensures behind { self.new.behind ≡ self.old.behind }
        ensures capacity { self.new.capacity ≡ self.old.capacity }
        ensures few { self.old.capacity < 2 ^ 63 }
    {
        meet(&mut self.left, &mut self.right, self.count);
        let last = self.left.pop_back();
        self.count = self.left.len();
        last
    }

    /// Appends a chunk to `before`, where there is room. Takes no memory.
    pub(crate) fn push_back_reserved(&mut self, chunk: Chunk)
        requires { length self.old.before + length self.old.behind < self.old.capacity }
        ensures items { self.new.before ≡ self.old.before ++ chunk ∷ [] }
        ensures behind { self.new.behind ≡ self.old.behind }
        ensures capacity { self.new.capacity ≡ self.old.capacity }
    {
        meet(&mut self.left, &mut self.right, self.count);
        self.left.push_back_reserved(chunk);
        self.count = self.left.len();
    }

    /// Puts a chunk before all others, into `before`, where there is room. Takes no memory.
    pub(crate) fn push_front_reserved(&mut self, chunk: Chunk)
        requires { length self.old.before + length self.old.behind < self.old.capacity }
        ensures items { self.new.before ≡ chunk ∷ self.old.before }
        ensures behind { self.new.behind ≡ self.old.behind }
        ensures capacity { self.new.capacity ≡ self.old.capacity }
    {
        self.left.push_front_reserved(chunk);
        self.count += 1;
    }

    /// Puts a chunk before those of `behind`, where there is room. Takes no memory.
    pub(crate) fn push_behind_reserved(&mut self, chunk: Chunk)
        requires { length self.old.before + length self.old.behind < self.old.capacity }
        ensures before { self.new.before ≡ self.old.before }
        ensures items { self.new.behind ≡ chunk ∷ self.old.behind }
        ensures capacity { self.new.capacity ≡ self.old.capacity }
    {
        meet(&mut self.left, &mut self.right, self.count);
        self.right.push_front_reserved(chunk);
    }

    /// Makes room for `more` more chunks. Without memory nothing changes.
    pub(crate) fn reserve(&mut self, more: usize) -> Result<(), AllocError>
        ensures before { self.new.before ≡ self.old.before }
        ensures behind { self.new.behind ≡ self.old.behind }
        ensures capacity { self.old.capacity ≤ self.new.capacity }
        ensures ok { OnOk result (length self.new.before + length self.new.behind + more ≤ self.new.capacity) }
        ensures few { self.new.capacity < 2 ^ 63 }
    {
        let others = self.right.len();
        self.left.reserve(others.saturating_add(more))?;
        let others = self.left.len();
        self.right.reserve(others.saturating_add(more))
    }
}

// Moves chunks between both lines, which have room for all, until the first `count` of all lie in `left`.
fn meet(left: &mut Line, right: &mut Line, count: usize)
    requires there { count ≤ length left.old.items + length right.old.items }
    requires room { length left.old.items + length right.old.items ≤ min left.old.capacity right.old.capacity }
    ensures left { left.new.items ≡ take count (left.old.items ++ right.old.items) }
    ensures right { right.new.items ≡ drop count (left.old.items ++ right.old.items) }
    ensures left_capacity { left.new.capacity ≡ left.old.capacity }
    ensures right_capacity { right.new.capacity ≡ right.old.capacity }
{
    let len = left.len();
    if count < len {
        right.take_back(left, len - count);
    } else if count > len {
        left.take_front(right, count - len);
    }
}
