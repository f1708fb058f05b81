//! What goes between the core and a sink's mixer: messages to the mixer, notices from it. `message` and `notice` are these, `factors` the factors of
//! several inputs, `attributes` the repair of buffer attributes, `parcel` what the core reads of a stream on its way from one sink to another, and
//! `letter` which lists of them are lawful.
#![tactic(auto)]

mod attributes;
mod factors;
mod law;
mod letter;
mod message;
mod notice;
mod parcel;

pub use attributes::{in_bytes, repair};
pub use factors::{FactorList, InputFactors};
pub use law::views_agree;
pub use letter::lawful_messages_go_on;
pub use message::{Msg, NewStream};
pub use notice::Notice;
pub use parcel::Parcel;
pub use px_model::{Attr, Run};
