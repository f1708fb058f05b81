//! The mixer of a sink as its worker runs it, with the mailboxes to and from the core and the history of its turns. `ends` has the mailboxes and the
//! passes, `plain` a message as plain numbers and bytes, `moving` what goes through the mailboxes, `turning` a turn with its entry, `cell` the cell.
//! It exports `LaneCell` with `CellFault` and `LaneCellParts`, `LaneEnds` with `Boxes` and `LanePasses`, and `plain_message`.
#![tactic(auto)]

mod cell;
mod ends;
mod fault;
mod moving;
mod plain;
mod turning;

pub use cell::{LaneCell, LaneCellParts};
pub use ends::{Boxes, LaneEnds, LanePasses};
pub use fault::CellFault;
pub use plain::plain_message;
