//! What no mixer enters of the events of a world, for a world with other mixers: the core and the doors of its connections, and the messages and notices
//! between the core and a sink.

pub use crate::connections::{bytes, close, connect, cut};
pub use crate::doors::Doors;
pub use crate::parcel::Carried;
pub use crate::playing::shape_of;
pub use crate::run::silent;
pub use crate::sinks::{collect_from, silence};
pub use crate::stepping::{WorldCore, swept, take_messages};
