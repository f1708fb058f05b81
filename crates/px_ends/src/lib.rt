//! The outside as traits, each with its visible content and a count of faults that never falls, and their forms in memory for replays and
//! tests. It exports `Source`, `Sink`, `Link`, `Outlet`, `Clock`, `Device` and `Host`, their answers and shapes, `Calls`, `MemSource`,
//! `MemSink`, `MemLink`, `MemClock`, `MemDevice` with `Played`, `NoHost` and `NoOutlet`, `Pieces` for output that is gathered and written
//! in few calls, and the loops that fill a buffer or write all bytes.
#![tactic(auto)]

mod bytes;
mod calls;
mod clock;
mod device;
mod device_buffer;
mod host;
mod link;
mod memory_clock;
mod memory_device;
mod memory_link;
mod memory_sink;
mod memory_source;
mod no_host;
mod no_outlet;
mod pieces;
mod played;
mod whole;

pub use bytes::{Got, Sink, Source, Took};
pub use calls::Calls;
pub use clock::Clock;
pub use device::{Device, DeviceFault, DeviceShape};
pub use host::{Accepted, Connected, HeaderRead, Host, HostFault, ServeOptions};
pub use link::{Link, Outlet, Recv, Sent};
pub use memory_clock::{MemClock, Moments};
pub use memory_device::MemDevice;
pub use memory_link::MemLink;
pub use memory_sink::MemSink;
pub use memory_source::MemSource;
pub use no_host::NoHost;
pub use no_outlet::NoOutlet;
pub use pieces::Pieces;
pub use played::Played;
pub use whole::{Filled, WriteFailed, fill, write_all};
