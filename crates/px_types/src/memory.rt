// Want of memory, the one answer that may come at any call which allocates.
use std::alloc::{AllocError, AllocFailed};
use std::error::Error;
use std::fmt;

/// Want of memory. The call that answers it says what state it leaves.
#[derive(Clone, Copy, Debug, PartialEq, Eq)]
pub struct NoMemory;

/// The answer of a call that can fail only for want of memory.
pub type Mem<T> = Result<T, NoMemory>;

impl fmt::Display for NoMemory {
    fn fmt<W: fmt::Write>(&self, f: &mut fmt::Formatter<W>) -> fmt::Result {
        f.write_str("out of memory")
    }
}

impl Error for NoMemory {}

impl From<AllocError> for NoMemory {
    fn from(_: AllocError) -> Self {
        NoMemory
    }
}

impl<T: Drop> From<AllocFailed<T>> for NoMemory {
    fn from(_: AllocFailed<T>) -> Self {
        NoMemory
    }
}
