//! The items of PulseAudio's tagstruct, the alphabet of the native protocol: each is read exactly where its one spelling is in a packet,
//! and written in that spelling. Property lists stay in order.
#![tactic(auto)]

mod fault;
mod law;
mod memory;
mod mode;
mod packet;
mod place;
mod proplist;
mod raw;
mod reader;
mod stands;
mod tag;
mod writer;

pub use fault::{ListFault, TagFault};
pub use law::one_spelling;
pub use memory::{Mem, NoMemory};
pub use mode::Mode;
pub use packet::Packet;
pub use proplist::PropList;
pub use raw::{CHANNELS_MAX, RawMap, RawSpec, RawVolume, TimeVal};
pub use reader::TagReader;
pub use writer::TagWriter;
