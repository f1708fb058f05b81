//! A worker's handle on the shared state.
ghost use Rattle.std.specs.Prelude.{◌≡◌, ℕ, ◌+◌, ◌<◌, IfOk, OnErr};
ghost use Rattle.px_frame.specs.Frame.{IsBody};

use crate::out_queue::Next;
use px_annals::RecordFault;
use px_block::BlockSource;
use px_frame::{Frame, FrameFault};
use px_tape::Tape;
use px_types::{ConnId, Mem, SinkId};
use std::alloc::Global;
use std::sync::{Mutex, Wait};

/// Why the core makes no more steps.
#[derive(Clone, Copy, Debug, PartialEq, Eq)]
pub enum CoreStop {
    /// Its counter of steps is at its maximum.
    Worn,
    /// Its recorder isn't ready for one more.
    Unrecorded(RecordFault),
}

/// The operations that a worker may perform on the shared server state: the core, with the worker's shares in its steps, the output queue of
/// each client, used blocks, and the tape. A call may wait for the locks of these, and for memory. Own.
pub trait Handle: Drop + 'static {
    /// The runtime that it waits with.
    type Rt: Wait + Copy + 'static;

    /// The half of a client's link that sends.
    type Outlet: 'static;

    /// Where a worker's blocks come from.
    type Blocks: BlockSource + Drop + 'static;

    /// How many shares in the core's steps it has.
    ghost parts: { Self → ℕ };

    /// The runtime.
    fn rt(&self) -> Self::Rt;

    /// The allocator.
    fn alloc(&self) -> Global;

    /// Another handle with one share of this one's. Where there is no memory there is none.
    fn another(&mut self) -> Mem<Self>
        requires { 1 < parts self.old }
        ensures ok { IfOk result (λ other. (parts other ≡ 1) × (parts self.new + 1 ≡ parts self.old)) }
        ensures err { OnErr result (parts self.new ≡ parts self.old) };

    /// Takes another handle's shares.
    fn take_back(&mut self, other: Self)
        ensures { parts self.new ≡ parts self.old + parts other };

    /// A source of blocks for one worker.
    fn blocks(&self) -> Mem<Self::Blocks>;

    /// The tape. Where there is one, it is locked during each step of the core and during each turn of a sink.
    fn tape(&self) -> &Mutex<Tape>;

    /// Lets the sinks' workers end.
    fn stop_sinks(&self);

    /// Whether the sinks' workers may end.
    fn is_stopping(&self) -> bool;

    /// Opens an output queue for the client `conn`, with the half of its link that sends, where it has one.
    fn open_queue(&mut self, conn: ConnId, outlet: Option<Self::Outlet>) -> Mem<()>
        ensures { parts self.new ≡ parts self.old };

    /// Drops the output queue of the client `conn`, and shuts the half of its link that sends.
    fn close_queue(&mut self, conn: ConnId)
        ensures { parts self.new ≡ parts self.old };

    /// Whether the client `conn` has an output queue.
    fn has_queue(&self, conn: ConnId) -> bool;

    /// Whether a client's own worker may have to send what waits for it. Else each worker that makes a step sends the packets of that step.
    fn worker_sends(&self) -> bool;

    /// Takes out the first packet of a client's output queue, for the client's own worker.
    fn next_packet(&mut self, conn: ConnId) -> Next
        ensures { parts self.new ≡ parts self.old };

    /// Connects the client `conn`.
    fn connect(&mut self, conn: ConnId) -> Result<(), CoreStop>
        ensures { parts self.new ≡ parts self.old };

    /// Ends the connection of the client `conn`, by the server.
    fn cut(&mut self, conn: ConnId) -> Result<(), CoreStop>
        ensures { parts self.new ≡ parts self.old };

    /// Notes that the client `conn` has closed its connection.
    fn close(&mut self, conn: ConnId) -> Result<(), CoreStop>
        ensures { parts self.new ≡ parts self.old };

    /// Gives the core a frame of the client `conn`. A frame that finds no memory ends its connection.
    fn frame(&mut self, conn: ConnId, frame: Frame) -> Result<(), CoreStop>
        requires { IsBody frame.body }
        ensures { parts self.new ≡ parts self.old };

    /// Gives the core a fault in the bytes of the client `conn`, at the offset `at`. A fault that finds no memory ends the connection too.
    fn broken(&mut self, conn: ConnId, fault: FrameFault, at: u64) -> Result<(), CoreStop>
        ensures { parts self.new ≡ parts self.old };

    /// Posts to a sink what waits for it. Where there is no memory it waits for the next time.
    fn post(&mut self, sink: SinkId) -> Result<(), CoreStop>
        ensures { parts self.new ≡ parts self.old };

    /// Gives the core all notices that wait in a sink's outbox. After the last one, connections that found no memory end, what waits for the
    /// sinks is posted, and what waits for the clients is sent.
    fn notices(&mut self, sink: SinkId) -> Result<(), CoreStop>
        ensures { parts self.new ≡ parts self.old };
}
