//! A sieve before a world: of the frames that clients send, it hands a mode of the program those that the mode handles itself,
//! and passes the others on, each as an event of its own. It exports `Sieve` and `Piece`, `Shift` and `shifted` for how the
//! effects of such an event are shown, `spelled` for the bytes of a frame, and the laws of the lists that a mode makes of events and replies.
#![tactic(auto)]

mod law;
mod line;
mod piece;
mod rest;
mod segment;
mod shift;
mod sieve;

pub use law::scenes_join;
pub use piece::Piece;
pub use px_world::spelled;
pub use shift::{Shift, shifted};
pub use sieve::Sieve;
