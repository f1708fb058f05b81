//! A step that was found in the bytes at hand.

use crate::event::Step;
use crate::form::Form;

/// A step that was read from the bytes at hand.
#[derive(Debug, Drop)]
pub(crate) struct Found {
    pub(crate) form: Form,
    pub(crate) step: Step,
    /// How many of the bytes it takes.
    pub(crate) used: usize,
    /// The offset after it.
    pub(crate) at: u64,
}
