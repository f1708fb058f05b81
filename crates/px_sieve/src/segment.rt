//! The segments of a connection's bytes.

use px_frame::{Frame, FrameFault};
use px_types::Text;

/// A segment of a connection's bytes.
#[derive(Debug, Drop)]
pub enum Segment {
    /// A whole frame.
    Whole(Frame),
    /// A descriptor that breaks a rule.
    Faulty {
        /// Its bytes.
        twenty: Text,
        fault: FrameFault,
        /// The offset in the connection's bytes of the word that breaks the rule.
        at: u64,
    },
}
