//! A place in a session, and the readers of fields there.

ghost use Rattle.std.specs.Prelude.{◌≡◌, ◌≤◌, ◌^◌, length, IfOk};

use crate::fault::{Cause, ReadError};
use crate::form::Form;
use px_types::limits::MAX_SESSION;

/// The bytes of a session that are there, from an offset on.
#[derive(Clone, Copy)]
pub(crate) struct Place<'a> {
    pub(crate) at: u64,
    pub(crate) rest: &'a [u8],
    ghost within: { at ≤ 2 ^ 40 },
}

impl<'a> Place<'a> {
    ghost use Rattle.px_session.specs.Place.{available, short_at, bytes_at, no_field, Fails, Gives};
    ghost use Rattle.px_session.specs.Field.{byte_at, word_at, number_at, count_at, broken_at};
    ghost use Rattle.std.specs.Int.{w64};
    ghost use Rattle.px_session.specs.Seen.{place_of};

    /// How many of the bytes that are left lie within the limit.
    fn available(self) -> usize
        ensures { result ≡ available (place_of self.entry) }
    {
        self.rest.len().min((MAX_SESSION - self.at) as usize)
    }

    /// The refusal where fewer bytes are available than needed.
    fn short(self) -> ReadError
        ensures { Fails result (no_field (short_at (place_of self.entry))) }
    {
        let end = self.at + self.rest.len() as u64;
        if MAX_SESSION <= end {
            ReadError::Refused {
                at: MAX_SESSION,
                cause: Cause::Endless,
            }
        } else {
            ReadError::Refused {
                at: end,
                cause: Cause::Truncated,
            }
        }
    }

    /// The refusal of a header's field that begins here.
    pub(crate) fn broken(self) -> ReadError
        ensures { Fails result (no_field (broken_at (place_of self.entry))) }
    {
        ReadError::Refused {
            at: self.at,
            cause: Cause::Header,
        }
    }

    /// The next `count` bytes, and the place after them.
    #[tactic(auto, unfolding(crate::specs::Place::bytes_at))]
    pub(crate) fn bytes(self, count: usize) -> Result<(&'a [u8], Place<'a>), ReadError>
        ensures gives { Gives (λ read. (read.0.now, place_of read.1)) result (bytes_at count (place_of self.entry)) }
        ensures length { IfOk result (λ read. length read.0.now ≡ count) }
    {
        if self.available() < count {
            return Err(self.short());
        }
        let (bytes, rest) = self.rest.split_at(count);
        Ok((
            bytes,
            Place {
                at: self.at + count as u64,
                rest,
            },
        ))
    }

    /// A byte.
    #[tactic(auto, unfolding(crate::specs::Field::byte_at, crate::specs::Place::and_then))]
    pub(crate) fn byte(self) -> Result<(u8, Place<'a>), ReadError>
        ensures { Gives (λ read. (read.0, place_of read.1)) result (byte_at (place_of self.entry)) }
    {
        let (bytes, after) = self.bytes(1)?;
        Ok((bytes[0], after))
    }

    /// A number of four bytes.
    #[tactic(auto, unfolding(crate::specs::Field::number_at, crate::specs::Place::and_then))]
    pub(crate) fn word(self) -> Result<(u32, Place<'a>), ReadError>
        ensures { Gives (λ read. (read.0, place_of read.1)) result (word_at (place_of self.entry)) }
    {
        let (bytes, after) = self.bytes(4)?;
        Ok((
            u32::from_be_bytes([bytes[0], bytes[1], bytes[2], bytes[3]]),
            after,
        ))
    }

    // A number of eight bytes.
    #[tactic(auto, unfolding(crate::specs::Field::number_at, crate::specs::Place::and_then))]
    fn long(self) -> Result<(u64, Place<'a>), ReadError>
        ensures { Gives (λ read. (read.0, place_of read.1)) result (number_at w64 (place_of self.entry)) }
    {
        let (bytes, after) = self.bytes(8)?;
        Ok((
            u64::from_be_bytes([
                bytes[0], bytes[1], bytes[2], bytes[3], bytes[4], bytes[5], bytes[6], bytes[7],
            ]),
            after,
        ))
    }

    /// A count or a length of this form.
    pub(crate) fn count(self, form: Form) -> Result<(u64, Place<'a>), ReadError>
        ensures { Gives (λ read. (read.0, place_of read.1)) result (count_at form (place_of self.entry)) }
    {
        match form {
            Form::One => {
                let (count, after) = self.word()?;
                Ok((u64::from(count), after))
            }
            Form::Two => self.long(),
        }
    }
}
