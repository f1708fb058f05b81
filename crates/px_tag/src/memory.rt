//! The answer where memory runs out.

use std::alloc::{AllocError, AllocFailed};

/// Memory ran out. The call that answers it has changed nothing. Own: PulseAudio aborts.
#[derive(Clone, Copy, Debug, PartialEq, Eq)]
pub struct NoMemory;

/// The answer of a call that takes memory.
pub type Mem<T> = Result<T, NoMemory>;

impl From<AllocError> for NoMemory {
    fn from(_error: AllocError) -> NoMemory {
        NoMemory
    }
}

impl<T: Drop> From<AllocFailed<T>> for NoMemory {
    fn from(_error: AllocFailed<T>) -> NoMemory {
        NoMemory
    }
}
