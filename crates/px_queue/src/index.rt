// Indices of a stream.
ghost use Rattle.std.specs.Prelude.{◌≡◌, pos, ◌+ℤ◌, ◌-ℤ◌, ◌<ℤ◌, ◌≤ℤ◌, ◌*◌, ◌^◌, ◌≤◌, IsOk, IfOk, IfErr, IsTrue, IsFalse, int_lt, ◌↔◌};
ghost use Rattle.px_model.specs.Index.{FIRST, LAST, above, onward, is_index, IsIndex};
ghost use Rattle.px_queue.specs.Framed.{byte_index};
ghost use Rattle.px_queue.specs.Laid.{TOP};

use px_types::limits::MAX_INDEX;
use std::marker::Model;

/// An index of a stream: the number of a frame, from -2^60 to 2^60.
#[derive(Clone, Copy, Debug)]
pub(crate) struct Index {
    frame: i64,
}

impl Model for Index {
    ghost use Rattle.std.specs.Prelude.{ℤ};
    ghost use Rattle.px_model.specs.Index.{IsIndex};

    ghost Value = { ℤ };

    ghost view = { λ i. i.frame };

    ghost invariant = { λ i. IsIndex i.frame };

    ghost inverse = { λ z. record { frame = z } };
}

impl Index {
    /// Index 0.
    pub(crate) fn zero() -> Index
        ensures { result ≡ pos 0 }
    {
        Index { frame: 0 }
    }

    /// The least index, -2^60.
    pub(crate) fn first() -> Index
        ensures { result ≡ FIRST }
    {
        Index {
            frame: -(MAX_INDEX as i64),
        }
    }

    /// The greatest index, 2^60.
    pub(crate) fn last() -> Index
        ensures { result ≡ LAST }
    {
        Index {
            frame: MAX_INDEX as i64,
        }
    }

    /// The index as a number.
    pub(crate) fn number(self) -> i64
        ensures { result ≡ self }
    {
        self.frame
    }

    /// How many frames the index lies above `other`, 0 where it doesn't.
    pub(crate) fn above(self, other: Index) -> u64
        ensures { result ≡ above self other }
    {
        if self.frame > other.frame {
            (self.frame - other.frame) as u64
        } else {
            0
        }
    }

    /// Whether the index lies below `other`.
    pub(crate) fn is_below(self, other: Index) -> bool
        ensures { result ≡ int_lt self other }
    {
        self.frame < other.frame
    }

    /// Whether the index lies more than `frames` above `number`.
    pub(crate) fn is_past(self, number: i64, frames: i64) -> bool
        ensures { result ≡ int_lt frames (self -ℤ number) }
    {
        self.passes(number, frames)
    }

    // The same, stated as two inequalities of numbers.
    fn passes(self, number: i64, frames: i64) -> bool
        ensures yes { IsTrue result → frames <ℤ (self -ℤ number) }
        ensures no { IsFalse result → (self -ℤ number) ≤ℤ frames }
    {
        self.frame as i128 - number as i128 > frames as i128
    }

    /// The index `offset` frames past it, or before it where `offset` is negative; an error with that number where it is no index.
    pub(crate) fn shifted(self, offset: i64) -> Result<Index, i128>
        ensures is { IsOk result ↔ IsTrue (is_index (self +ℤ offset)) }
        ensures ok { IfOk result (λ index. index ≡ self +ℤ offset) }
        ensures err { IfErr result (λ number. number ≡ self +ℤ offset) }
    {
        let frame = self.frame as i128 + offset as i128;
        if frame < -(MAX_INDEX as i128) || frame > MAX_INDEX as i128 {
            return Err(frame);
        }
        Ok(Index {
            frame: frame as i64,
        })
    }

    /// The index `frames` frames past it; an error with that number where it is no index.
    pub(crate) fn after(self, frames: u32) -> Result<Index, i128>
        ensures is { IsOk result ↔ IsTrue (is_index (onward self frames)) }
        ensures ok { IfOk result (λ index. index ≡ onward self frames) }
        ensures err { IfErr result (λ number. number ≡ onward self frames) }
    {
        let frame = self.frame as i128 + frames as i128;
        if frame > MAX_INDEX as i128 {
            return Err(frame);
        }
        Ok(Index {
            frame: frame as i64,
        })
    }

    /// The index `frames` frames past it, which is in range.
    pub(crate) fn onward(self, frames: u64) -> Index
        requires { IsIndex (onward self frames) }
        ensures { result ≡ onward self frames }
    {
        Index {
            frame: self.frame + frames as i64,
        }
    }

    /// The byte index of the first byte of this frame, where each frame has `size` bytes.
    pub(crate) fn byte_index(self, size: u32) -> u128
        ensures value { result ≡ byte_index size self }
        ensures few { result ≤ TOP }
    {
        first_byte(self.above(Index::first()), size)
    }
}

// The byte index of the first byte of frame `number`, counted from the least index on.
fn first_byte(number: u64, size: u32) -> u128
    requires { number ≤ 2 ^ 61 }
    ensures value { result ≡ number * size }
    ensures few { result ≤ TOP }
{
    number as u128 * size as u128
}
