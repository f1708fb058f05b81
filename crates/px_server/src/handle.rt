//! The workers' handle on the shared state: each call is the core handle's own. It is a type of its own, so that where a handle is passed on the
//! check loads none of the crates below that handle.
ghost use Rattle.std.specs.Prelude.{◌≡◌};

use px_annals::{CoreEntry, Recorder};
use px_cell::Seats;
use px_ends::Outlet;
use px_frame::{Frame, FrameFault};
use px_pool::PoolSeat;
use px_shared::CoreHandle;
use px_tape::Tape;
use px_types::{ConnId, Mem, SinkId};
use px_worker_api::{CoreStop, Handle, Next};
use std::alloc::Global;
use std::sync::{Mutex, Wait};

/// The core handle, as the workers have it.
#[derive(Drop)]
pub(crate) struct WorkerHandle<R, C: Recorder<CoreEntry>, L: Seats, O> {
    pub core: CoreHandle<R, C, L, O>,
}

impl<R, C, L, O> Handle for WorkerHandle<R, C, L, O>
where
    R: Wait + Copy + Drop + 'static,
    C: Recorder<CoreEntry> + Drop + 'static,
    L: Seats + 'static,
    O: Outlet + Drop + 'static,
{
    type Rt = R;

    type Outlet = O;

    type Blocks = PoolSeat<R>;

    ghost parts = { λ h. h.core.seat.parts };

    fn rt(&self) -> R {
        self.core.rt
    }

    fn alloc(&self) -> Global {
        self.core.alloc
    }

    fn another(&mut self) -> Mem<WorkerHandle<R, C, L, O>> {
        let core = self.core.another()?;
        Ok(WorkerHandle { core })
    }

    fn take_back(&mut self, other: WorkerHandle<R, C, L, O>) {
        self.core.seat.merge(other.core.seat);
    }

    fn blocks(&self) -> Mem<PoolSeat<R>> {
        self.core.blocks()
    }

    fn tape(&self) -> &Mutex<Tape> {
        self.core.tape()
    }

    fn stop_sinks(&self) {
        self.core.stop_sinks();
    }

    fn is_stopping(&self) -> bool {
        self.core.is_stopping()
    }

    fn open_queue(&mut self, conn: ConnId, outlet: Option<O>) -> Mem<()>
        ensures { self.new.core.seat.parts ≡ self.old.core.seat.parts }
    {
        self.core.open_queue(conn, outlet)
    }

    fn close_queue(&mut self, conn: ConnId) {
        self.core.close_queue(conn);
    }

    fn has_queue(&self, conn: ConnId) -> bool {
        self.core.has_queue(conn)
    }

    fn worker_sends(&self) -> bool {
        self.core.worker_sends()
    }

    fn next_packet(&mut self, conn: ConnId) -> Next {
        self.core.next_packet(conn)
    }

    fn connect(&mut self, conn: ConnId) -> Result<(), CoreStop> {
        self.core.connect(conn)
    }

    fn cut(&mut self, conn: ConnId) -> Result<(), CoreStop> {
        self.core.cut(conn)
    }

    fn close(&mut self, conn: ConnId) -> Result<(), CoreStop> {
        self.core.close(conn)
    }

    fn frame(&mut self, conn: ConnId, frame: Frame) -> Result<(), CoreStop> {
        self.core.frame(conn, frame)
    }

    fn broken(&mut self, conn: ConnId, fault: FrameFault, at: u64) -> Result<(), CoreStop> {
        self.core.broken(conn, fault, at)
    }

    fn post(&mut self, sink: SinkId) -> Result<(), CoreStop> {
        self.core.post(sink)
    }

    fn notices(&mut self, sink: SinkId) -> Result<(), CoreStop> {
        self.core.notices(sink)
    }
}
