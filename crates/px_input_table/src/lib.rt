//! The existing sink inputs, in rising index; the live ones are found by their streams without a walk. It exports the table,
//! the changes of an input in it or in a list, and the changes of a connection in a list.
#![tactic(auto)]

mod connections;
mod input_table;
mod inputs;
mod standing;

pub use connections::{forget, mark, set_streams, set_version};
pub use input_table::InputTable;
pub use inputs::{arrive, depart, input_of, leave, remove, set_attr};
pub use standing::goes_on;
