//! A place in a packet, and the readers of the parts of items.

ghost use Rattle.std.specs.Prelude.{◌≡◌, ◌<◌, ◌≤◌, ◌==◌, length, position, IfOk, IfSome};
ghost use Rattle.std.specs.Int.{w32, w64};
ghost use Rattle.px_tag.specs.Place.{offset_of, Gives};
ghost use Rattle.px_tag.specs.Seen.{place_of};
ghost use Rattle.px_tag.specs.Reading.{next_at, tagged_at, field_at, bytes_at, string_at};

use crate::fault::TagFault;

/// What is left of a packet of `size` bytes.
#[derive(Clone, Copy)]
pub(crate) struct Place<'a> {
    pub(crate) size: usize,
    pub(crate) rest: &'a [u8],
}

/// The index of the first zero byte.
fn zero_byte(bytes: &[u8]) -> Option<usize>
    ensures first { result ≡ position (λ byte. byte == 0) bytes.now }
    ensures within { IfSome result (λ index. index < length bytes.now) }
{
    bytes.iter().position(|byte| *byte == 0)
}

impl<'a> Place<'a> {
    /// The offset of the first byte that is left. What is left is a part of the packet, so this never
    /// saturates.
    pub(crate) fn offset(self) -> usize
        ensures { result ≡ offset_of (place_of self.entry) }
    {
        self.size.saturating_sub(self.rest.len())
    }

    /// The place in the same packet that is before `rest`.
    fn before(self, rest: &'a [u8]) -> Place<'a>
        ensures { place_of result ≡ record { size = self.entry.size; rest = rest.now } }
    {
        Place {
            size: self.size,
            rest,
        }
    }

    /// The place after the next `count` bytes, and these bytes.
    #[tactic(auto, unfolding(crate::specs::Reading::bytes_at))]
    pub(crate) fn bytes(self, count: usize) -> Result<(&'a [u8], Place<'a>), TagFault>
        ensures value { Gives (λ read. (read.0.now, place_of read.1)) result (bytes_at count (place_of self.entry)) }
        ensures count { IfOk result (λ read. length read.0.now ≡ count) }
        ensures shorter { IfOk result (λ read. length read.1.rest.now ≤ length self.entry.rest.now) }
    {
        if self.rest.len() < count {
            return Err(TagFault::Short { at: self.size });
        }
        let (bytes, rest) = self.rest.split_at(count);
        Ok((bytes, self.before(rest)))
    }

    /// One byte.
    #[tactic(auto, unfolding(crate::specs::Reading::next_at))]
    pub(crate) fn next(self) -> Result<(u8, Place<'a>), TagFault>
        ensures value { Gives (λ read. (read.0, place_of read.1)) result (next_at (place_of self.entry)) }
        ensures shorter { IfOk result (λ read. length read.1.rest.now < length self.entry.rest.now) }
    {
        match self.rest {
            [] => Err(TagFault::Short { at: self.size }),
            [byte, rest @ ..] => Ok((*byte, self.before(rest))),
        }
    }

    /// The place after the tag byte.
    #[tactic(auto, unfolding(crate::specs::Reading::tagged_at))]
    pub(crate) fn tagged(self, tag: u8) -> Result<Place<'a>, TagFault>
        ensures value { Gives place_of result (tagged_at tag (place_of self.entry)) }
        ensures shorter { IfOk result (λ read. length read.rest.now < length self.entry.rest.now) }
    {
        let (byte, place) = self.next()?;
        if byte != tag {
            return Err(TagFault::WrongTag { at: self.offset() });
        }
        Ok(place)
    }

    /// A number of four bytes.
    #[tactic(auto, unfolding(crate::specs::Reading::field_at))]
    pub(crate) fn four(self) -> Result<(u32, Place<'a>), TagFault>
        ensures value { Gives (λ read. (read.0, place_of read.1)) result (field_at w32 (place_of self.entry)) }
        ensures shorter { IfOk result (λ read. length read.1.rest.now ≤ length self.entry.rest.now) }
    {
        if self.rest.len() < 4 {
            return Err(TagFault::Short { at: self.size });
        }
        let (front, rest) = self.rest.split_at(4);
        let number = u32::from_be_bytes([front[0], front[1], front[2], front[3]]);
        Ok((number, self.before(rest)))
    }

    /// A number of eight bytes.
    #[tactic(auto, unfolding(crate::specs::Reading::field_at))]
    pub(crate) fn eight(self) -> Result<(u64, Place<'a>), TagFault>
        ensures { Gives (λ read. (read.0, place_of read.1)) result (field_at w64 (place_of self.entry)) }
    {
        if self.rest.len() < 8 {
            return Err(TagFault::Short { at: self.size });
        }
        let (front, rest) = self.rest.split_at(8);
        let number = u64::from_be_bytes([
            front[0], front[1], front[2], front[3], front[4], front[5], front[6], front[7],
        ]);
        Ok((number, self.before(rest)))
    }

    /// The bytes before the next zero byte, and the place after that.
    #[tactic(auto, unfolding(crate::specs::Reading::string_at))]
    pub(crate) fn string(self) -> Result<(&'a [u8], Place<'a>), TagFault>
        ensures value { Gives (λ read. (read.0.now, place_of read.1)) result (string_at (place_of self.entry)) }
        ensures shorter { IfOk result (λ read. length read.1.rest.now ≤ length self.entry.rest.now) }
    {
        match zero_byte(self.rest) {
            None => Err(TagFault::Short { at: self.size }),
            Some(end) => Ok((&self.rest[..end], self.before(&self.rest[end + 1..]))),
        }
    }
}
