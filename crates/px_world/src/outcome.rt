//! What an event did.

use px_core::Effects;
use px_ends::Played;

/// What an event did.
#[derive(Debug, Drop)]
pub struct Outcome {
    /// What the core's steps did to the outside, in order.
    pub effects: Effects,
    /// The bytes that a sink's device has consumed, and their number of frames: 0 but for a turn.
    pub played: Played,
    pub frames: u32,
    /// How many frames were filled on a sink that this event stopped, from its first frame: `None` but for the turn whose device
    /// failed.
    pub stopped: Option<u64>,
}
