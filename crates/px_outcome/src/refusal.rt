//! The checks of a command: each refuses it with its own error code, or passes.

ghost use Rattle.std.specs.Prelude.{◌≡◌};
ghost use Rattle.px_outcome.specs.declared.refusal.Refusal.TheVariants.{NoMemory as OutOfMemory};
ghost use Rattle.px_outcome.specs.Handled.{check, present};

use px_types::{ErrorCode, NoMemory};
use std::alloc::{AllocError, AllocFailed};

/// Why a command is refused. Nothing has changed.
#[derive(Clone, Copy, Debug, PartialEq, Eq)]
pub enum Refusal {
    /// The client is sent this error.
    Code(ErrorCode),
    /// There was no memory for it.
    NoMemory,
}

impl From<NoMemory> for Refusal {
    ghost from_gives = { λ _ e. e ≡ OutOfMemory };

    fn from(_error: NoMemory) -> Refusal {
        Refusal::NoMemory
    }
}

impl From<px_tag::NoMemory> for Refusal {
    ghost from_gives = { λ _ e. e ≡ OutOfMemory };

    fn from(_error: px_tag::NoMemory) -> Refusal {
        Refusal::NoMemory
    }
}

impl From<AllocError> for Refusal {
    ghost from_gives = { λ _ e. e ≡ OutOfMemory };

    fn from(_error: AllocError) -> Refusal {
        Refusal::NoMemory
    }
}

impl<T: Drop> From<AllocFailed<T>> for Refusal {
    ghost from_gives = { λ _ e. e ≡ OutOfMemory };

    fn from(_error: AllocFailed<T>) -> Refusal {
        Refusal::NoMemory
    }
}

/// Passes where `holds`, else refuses with `code`. Takes no memory.
pub fn check(holds: bool, code: ErrorCode) -> Result<(), Refusal>
    ensures { result ≡ check holds code }
{
    if holds {
        Ok(())
    } else {
        Err(Refusal::Code(code))
    }
}

/// The value where there is one, else refuses with `code`. Takes no memory.
pub fn present<A>(value: Option<A>, code: ErrorCode) -> Result<A, Refusal>
    ensures { result ≡ present value code }
{
    match value {
        Some(value) => Ok(value),
        None => Err(Refusal::Code(code)),
    }
}
