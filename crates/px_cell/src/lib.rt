//! The cells of a live server: a sink's mixer and the core, each with its mailboxes and its history. A lane's cell has one owner, the
//! worker of its sink; the core's cell is a lock. Each is a crate of its own, so that the two are proved side by side; this one
//! exports both.
#![tactic(auto)]

pub use px_core_cell::{
    Carried, CellCore, CoreCell, CoreEnd, CoreEnds, CoreParts, CoreSeat, CoreState, CoreStep,
    Seats, StepFault, StepLog,
};
pub use px_lane_cell::{
    Boxes, CellFault, LaneCell, LaneCellParts, LaneEnds, LanePasses, plain_message,
};
