//! The changes of the server's state; every step is a list of them.

use crate::input::Input;
use crate::sending::Reason;
use crate::waiting::Waiting;
use px_tag::PropList;
use px_types::{ConnId, InputId, SinkId};

/// One change of the server's state, together with the message that it posts to a sink, if any. `M` is the type of a message
/// to a sink, `G` that of a sink's group of volumes.
#[derive(Drop)]
pub enum Change<M, G> {
    /// A connection has presented the server's cookie, and agreed on a version.
    Authed(ConnId, u16),
    /// Sets the property list of a connection's client.
    Named(ConnId, PropList),
    /// Sets the facilities that a connection's client subscribes to, a bit each.
    Masked(ConnId, u32),
    /// Sets the default sink.
    Defaulted(SinkId),
    /// A connection has a new input; sets the numbers of its next stream and of the next input. `new` is posted to its sink.
    Made {
        input: Input,
        new: M,
        streams: u32,
        inputs: u32,
    },
    /// Sets the property list of an input.
    Described(InputId, PropList),
    /// An input has ended. Where it was settled its sink is to detach its stream. Its waiting requests and held messages are
    /// dropped.
    Leaves(InputId),
    /// A settled input is to move to this sink. The one that it is on is to detach its stream.
    Moves(InputId, SinkId),
    /// The sink that an input moves to is to have its stream: this message is posted to it. The input is settled there.
    Arrives(InputId, M),
    /// The oldest message held for an input while it moved is queued for the sink that it is on.
    Released(InputId),
    /// Posts this message to an input's sink, after the input has arrived where it moves. Buffer attributes in it become the
    /// input's.
    Posted(InputId, M),
    /// Sets a sink's group, and posts the factors that it gives to the sink.
    Regrouped(SinkId, G, M),
    /// A request waits: it is answered later.
    Asked(Waiting),
    /// A waiting request is answered now: the first that equals this one is removed.
    Answered(Waiting),
    /// An ended input and its property list are removed.
    Gone(InputId),
    /// A live connection has ended: by the server for a reason, or by the client. Where the reason is a rule of the
    /// protocol, `fault` is the rule's number and `at` the offset in the connection's bytes; else both are 0.
    Ended {
        conn: ConnId,
        reason: Option<Reason>,
        fault: u8,
        at: u64,
    },
    /// An ended connection and its client are removed.
    Forgotten(ConnId),
}
