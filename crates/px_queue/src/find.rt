// Finding bytes by their indices, to copy or lend them.
ghost use Rattle.std.specs.Prelude.{◌≡◌, ℕ, ◌+◌, ◌-◌, ◌<◌, ◌≤◌, length, min, take, slice_get, slice_index_or, IsTrue, IsSome, None};
ghost use Rattle.px_queue.specs.Pieces.{Piece, byte_in, byte_at, end_of, Rise};
ghost use Rattle.px_queue.specs.Laid.{TOP};

use crate::chunks::Chunks;

impl Chunks {
    /// How many bytes from byte index `from` on are held without a gap, at most `most`.
    pub(crate) fn run(&self, from: u128, most: usize) -> usize
        requires rising { Rise 0 TOP self.now.before }
        requires top { from ≤ TOP }
        ensures few { result ≤ most }
        ensures held { (j : ℕ) → j < result → IsSome (byte_at self.now.before (from + j)) }
        ensures end { result < most → byte_at self.now.before (from + result) ≡ None }
    {
        let mut near = 0;
        let mut count = 0;
        while count < most {
            let (place, more) = self.part_at(near, from + count as u128, most - count);
            if more == 0 {
                return count;
            }
            count += more;
            near = place.saturating_add(1);
        }
        count
    }

    /// Fills `out` with the bytes from byte index `from` on, all of which are held.
    pub(crate) fn copy_from(&self, from: u128, out: &mut [u8])
        requires rising { Rise 0 TOP self.now.before }
        requires top { from ≤ TOP }
        requires held { (j : ℕ) → j < length out.old → IsSome (byte_at self.now.before (from + j)) }
        ensures { (j : ℕ) → j < length out.old → byte_at self.now.before (from + j) ≡ slice_get out.new j }
    {
        let mut near = 0;
        let mut count = 0;
        while count < out.len() {
            let at = from + count as u128;
            let (place, more) = self.part_at(near, at, out.len() - count);
            self.copy(place, at, &mut out[count..count + more]);
            count += more;
            near = place.saturating_add(1);
        }
    }

    /// Lends the bytes from byte index `from` on that lie in one block, at most `most`: none where no byte is held there.
    pub(crate) fn lend(&self, from: u128, most: usize) -> &[u8]
        requires { Rise 0 TOP self.now.before }
        ensures few { length result.now ≤ most }
        ensures bytes { (j : ℕ) → j < length result.now → byte_at self.now.before (from + j) ≡ slice_get result.now j }
        ensures none { length result.now ≡ 0 → 0 < most → byte_at self.now.before from ≡ None }
    {
        let (place, len) = self.part_at(0, from, most);
        if len == 0 {
            return &[];
        }
        self.bytes(place, from, len)
    }

    /// How many byte indices from `from` on hold no byte, at most `most`.
    pub(crate) fn gap(&self, from: u128, most: usize) -> usize
        requires { Rise 0 TOP self.now.before }
        ensures few { result ≤ most }
        ensures none { (j : ℕ) → j < result → byte_at self.now.before (from + j) ≡ None }
        ensures some { result ≡ 0 → 0 < most → IsSome (byte_at self.now.before from) }
    {
        let place = self.ended(0, from);
        if place == self.len() {
            return most;
        }
        let first = self.first(place);
        if first <= from {
            return 0;
        }
        least(most, first - from)
    }

    /// Takes room for more bytes in the block that ends at byte index `at`, where it has few bytes and no other has such room, if there is memory.
    pub(crate) fn open_at(&mut self, at: u128)
        requires { Rise 0 TOP self.old.before }
        ensures { self.new ≡ self.old }
    {
        if self.is_open() {
            return;
        }
        let count = self.ended(0, at);
        if count > 0 && self.end(count - 1) == at {
            self.open(count - 1);
        }
    }

    // The number of the chunk with byte `from`, and how many of its bytes follow from there on, at most `most`: 0 where no byte is held there. It
    // tries first whether `near` chunks end before.
    fn part_at(&self, near: usize, from: u128, most: usize) -> (usize, usize)
        requires { Rise 0 TOP self.now.before }
        ensures few { result.1 ≤ most }
        ensures some { 0 < result.1 → result.0 < length self.now.before }
        ensures first { (d : Piece) → 0 < result.1 → (slice_index_or self.now.before result.0 d).at ≤ from }
        ensures inside { (d : Piece) → 0 < result.1 → from + result.1 ≤ end_of (slice_index_or self.now.before result.0 d) }
        ensures bytes { (d : Piece) (j : ℕ) → j < result.1 → byte_at self.now.before (from + j) ≡ byte_in (slice_index_or self.now.before result.0 d) (from + j) }
        ensures held { (j : ℕ) → j < result.1 → IsSome (byte_at self.now.before (from + j)) }
        ensures none { result.1 ≡ 0 → 0 < most → byte_at self.now.before from ≡ None }
    {
        let place = self.ended(near, from);
        if place == self.len() {
            return (place, 0);
        }
        if self.first(place) > from {
            return (place, 0);
        }
        (place, least(most, self.end(place) - from))
    }

    // How many chunks end at or before byte index `from`; they rise, so these are the first ones. `near` is tried first.
    fn ended(&self, near: usize, from: u128) -> usize
        requires { Rise 0 TOP self.now.before }
        ensures few { result ≤ length self.now.before }
        ensures before { Rise 0 from (take result self.now.before) }
        ensures behind { (d : Piece) → result < length self.now.before → from < end_of (slice_index_or self.now.before result d) }
    {
        if self.parts(near, from) {
            near
        } else {
            self.halved(from)
        }
    }

    // Whether exactly `near` chunks end at or before byte index `from`, and more follow.
    fn parts(&self, near: usize, from: u128) -> bool
        requires { Rise 0 TOP self.now.before }
        ensures more { IsTrue result → near < length self.now.before }
        ensures before { IsTrue result → Rise 0 from (take near self.now.before) }
        ensures behind { (d : Piece) → IsTrue result → from < end_of (slice_index_or self.now.before near d) }
    {
        if near >= self.len() {
            return false;
        }
        if self.end(near) <= from {
            return false;
        }
        if near == 0 {
            return true;
        }
        self.end(near - 1) <= from
    }

    // How many chunks end at or before byte index `from`, by binary search.
    fn halved(&self, from: u128) -> usize
        requires { Rise 0 TOP self.now.before }
        ensures few { result ≤ length self.now.before }
        ensures before { Rise 0 from (take result self.now.before) }
        ensures behind { (d : Piece) → result < length self.now.before → from < end_of (slice_index_or self.now.before result d) }
    {
        let mut low = 0;
        let mut high = self.len();
        while low < high {
            let middle = low + (high - low) / 2;
            if self.end(middle) <= from {
                low = middle + 1;
            } else {
                high = middle;
            }
        }
        low
    }
    /// How many chunks begin before byte index `at`, by binary search.
    pub(crate) fn begun(&self, at: u128) -> usize
        ensures few { result ≤ length self.now.before }
        ensures before { (d : Piece) → 0 < result → (slice_index_or self.now.before (result - 1) d).at < at }
        ensures behind { (d : Piece) → result < length self.now.before → at ≤ (slice_index_or self.now.before result d).at }
    {
        let mut low = 0;
        let mut high = self.len();
        while low < high {
            let middle = low + (high - low) / 2;
            if self.first(middle) < at {
                low = middle + 1;
            } else {
                high = middle;
            }
        }
        low
    }
}

// The lesser of both.
fn least(most: usize, bytes: u128) -> usize
    ensures { result ≡ min most bytes }
{
    if bytes < most as u128 {
        bytes as usize
    } else {
        most
    }
}
