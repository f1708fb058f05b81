//! Why a session is refused, and why it could not be read or written.

use px_ends::WriteFailed;
use px_types::NoMemory;
use std::alloc::{AllocError, AllocFailed};
use thiserror::Error;

/// Why a session is refused: the first rule that its bytes break, from left to right. Own: PulseAudio records no sessions.
#[derive(Clone, Copy, Debug, PartialEq, Eq, Error)]
pub enum Cause {
    /// The first four bytes, or all of a shorter input, aren't a prefix of `PRS1` or of `PRS2`. At byte 0.
    #[error("magic")]
    Magic,
    /// A field of the header breaks its rule. At the field's first byte.
    #[error("header")]
    Header,
    /// The input ends inside the session. At the input's length.
    #[error("truncated")]
    Truncated,
    /// 2^40 bytes were read and the session goes on. At byte 2^40.
    #[error("endless")]
    Endless,
    /// A byte follows the end byte. At that byte.
    #[error("trailing")]
    Trailing,
    /// No event of the session's form has this kind. At its kind byte.
    #[error("kind {0}")]
    Kind(u8),
    /// A Bytes event has this length, which is above 65,536, or, in the second form, above 1,048,576. At its kind byte.
    #[error("too long {0}")]
    TooLong(u64),
}

/// Why a reader gives nothing more.
#[derive(Clone, Copy, Debug, PartialEq, Eq, Error)]
pub enum ReadError {
    /// The bytes are no session.
    #[error("refused at {at}: {cause}")]
    Refused {
        /// The offset from the session's first byte.
        at: u64,
        cause: Cause,
    },
    /// A read of the source failed.
    #[error("read failed")]
    Failed,
    /// Want of memory.
    #[error("out of memory")]
    NoMemory,
}

/// Why a writer stopped.
#[derive(Clone, Copy, Debug, PartialEq, Eq, Error)]
pub enum WriteError {
    /// A write of the sink failed. Some of the bytes may have been taken, from their front.
    #[error("write failed")]
    Failed,
}

impl From<NoMemory> for ReadError {
    ghost use Rattle.std.specs.Prelude.{◌≡◌};
    ghost use Rattle.px_session.specs.declared.fault.ReadError.TheVariants as error;

    ghost from_gives = { λ _ e. e ≡ error.NoMemory };

    fn from(_: NoMemory) -> Self {
        ReadError::NoMemory
    }
}

impl From<AllocError> for ReadError {
    ghost use Rattle.std.specs.Prelude.{◌≡◌};
    ghost use Rattle.px_session.specs.declared.fault.ReadError.TheVariants as error;

    ghost from_gives = { λ _ e. e ≡ error.NoMemory };

    fn from(_: AllocError) -> Self {
        ReadError::NoMemory
    }
}

impl<T: Drop> From<AllocFailed<T>> for ReadError {
    ghost use Rattle.std.specs.Prelude.{◌≡◌};
    ghost use Rattle.px_session.specs.declared.fault.ReadError.TheVariants as error;

    ghost from_gives = { λ _ e. e ≡ error.NoMemory };

    fn from(_: AllocFailed<T>) -> Self {
        ReadError::NoMemory
    }
}

impl From<WriteFailed> for WriteError {
    ghost use Rattle.std.specs.Prelude.{◌≡◌};
    ghost use Rattle.px_session.specs.declared.fault.WriteError.TheVariants as error;

    ghost from_gives = { λ _ e. e ≡ error.Failed };

    fn from(_: WriteFailed) -> Self {
        WriteError::Failed
    }
}
