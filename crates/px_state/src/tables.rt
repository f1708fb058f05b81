//! The tables that hold the state.

use crate::delayed::Delayed;
use px_flat::Group;
use px_header::SinkSpecs;
use px_input_table::InputTable;
use px_msg::Msg;
use px_names::{InputLists, Names};
use px_outcome::{Connection, Waiting};
use std::collections::VecDeque;

/// The state of the core. `P` is the type of a parcel: a stream that moves from one sink to another.
#[derive(Drop)]
pub struct Tables<P> {
    pub names: Names,
    /// In order of index.
    pub sinks: SinkSpecs,
    /// In order of connecting.
    pub connections: Vec<Connection>,
    /// In rising index.
    pub inputs: InputTable,
    /// The property lists of the inputs.
    pub lists: InputLists,
    /// The requests that are answered later, in the order of the requests.
    pub waiting: VecDeque<Waiting>,
    /// The messages queued for each sink, in order.
    pub posted: Vec<VecDeque<Msg<P>>>,
    /// The messages held while their inputs move, in order.
    pub delayed: Vec<Delayed<P>>,
    /// The group of volumes of each sink.
    pub groups: Vec<Group>,
    /// The number of clients that were ever made, and of inputs.
    pub clients_made: u32,
    pub inputs_made: u32,
}
