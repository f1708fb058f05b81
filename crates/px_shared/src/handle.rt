//! A worker's handle on the shared state.

ghost use Rattle.std.specs.Prelude.{◌≡◌, ◌+◌, ◌<◌, map, IfOk, OnErr};
ghost use Rattle.px_frame.specs.Frame.{IsBody};
ghost use Rattle.px_core_cell.specs.Boxes.{boxes_of};
ghost use Rattle.px_core_cell.specs.Cause.{IsCaused};
ghost use Rattle.px_core_cell.specs.Cell.{cell_of};
ghost use Rattle.px_core_cell.specs.History.{IsCell};

use crate::retryable::RetryableStep;
use crate::shared::Shared;
use crate::step::{Stepped, notices_queued};
use px_annals::{CoreEntry, Recorder};
use px_core_cell::{CoreParts, CoreSeat, CoreStep, Seats};
use px_ends::Outlet;
use px_frame::{Frame, FrameFault};
use px_pool::{Pool, PoolSeat};
use px_tape::Tape;
use px_types::{ConnId, Mem, NoMemory, SinkId};
use px_worker_api::{CoreStop, Next};
use std::alloc::Global;
use std::mem;
use std::sync::atomic::Ordering;
use std::sync::{Arc, Mutex, Wait};

/// A worker's handle on the shared state, with its shares in the core's steps.
#[derive(Drop)]
pub struct CoreHandle<R, C: Recorder<CoreEntry>, L: Seats, O> {
    pub rt: R,
    pub alloc: Global,
    pub shared: Arc<Shared<C, L, O>>,
    pub seat: CoreSeat<L>,
}

impl<R: Wait + Copy, C: Recorder<CoreEntry> + Drop, L: Seats, O: Outlet + Drop> CoreHandle<
    R,
    C,
    L,
    O,
> {
    /// Takes out what lies under the core's lock, by a handle with all shares.
    pub fn into_core(self) -> CoreParts<C>
        requires { self.seat.parts ≡ L.all }
        ensures history { IsCell C.visible L.began (cell_of result) }
        ensures boxes { map boxes_of result.ends.items ≡ L.boxes }
        ensures caused { IsCaused result.log.fault (C.faults result.log.recorder) (C.fulls result.log.recorder) }
    {
        let CoreHandle {
            rt,
            shared,
            seat,
            ..
        } = self;
        shared.core.take_parts(&rt, seat)
    }

    /// Takes out the tape: an empty one is left in its place.
    pub fn take_tape(&self) -> Tape {
        let mut tape = self.shared.tape.lock(&self.rt);
        mem::replace(&mut *tape, Tape::new(self.alloc))
    }

    /// Another handle with one share of this one's. Where there is no memory there is none.
    pub fn another(&mut self) -> Mem<CoreHandle<R, C, L, O>>
        requires { 1 < self.old.seat.parts }
        ensures ok { IfOk result (λ other. (other.seat.parts ≡ 1) × (self.new.seat.parts + 1 ≡ self.old.seat.parts)) }
        ensures err { OnErr result (self.new.seat.parts ≡ self.old.seat.parts) }
    {
        let shared = Arc::try_clone(&self.shared)?;
        Ok(CoreHandle {
            rt: self.rt,
            alloc: self.alloc,
            shared,
            seat: self.seat.split(),
        })
    }

    /// A source of blocks for one worker.
    pub fn blocks(&self) -> Mem<PoolSeat<R>> {
        match Pool::seat(&self.rt, &self.shared.pool) {
            Ok(seat) => Ok(seat),
            Err(_) => Err(NoMemory),
        }
    }

    /// The tape. Where there is one, it is locked during each step of the core and during each turn of a sink.
    pub fn tape(&self) -> &Mutex<Tape> {
        &self.shared.tape
    }

    /// Lets the sinks' workers end.
    pub fn stop_sinks(&self) {
        self.shared.stopping.store(true, Ordering::SeqCst);
    }

    /// Whether the sinks' workers may end.
    pub fn is_stopping(&self) -> bool {
        self.shared.stopping.load(Ordering::SeqCst)
    }

    /// Opens an output queue for the client `conn`, with the half of its link that sends, where it has one.
    pub fn open_queue(&mut self, conn: ConnId, outlet: Option<O>) -> Mem<()>
        ensures seat { self.new.seat.parts ≡ self.old.seat.parts }
    {
        let mut queues = self.shared.queues.lock(&self.rt);
        let opened = queues.open(conn, outlet);
        self.shared.note_senders(&queues);
        opened
    }

    /// Drops the output queue of the client `conn`, and shuts the half of its link that sends.
    pub fn close_queue(&mut self, conn: ConnId)
        ensures seat { self.new.seat.parts ≡ self.old.seat.parts }
    {
        let mut queues = self.shared.queues.lock(&self.rt);
        queues.close(conn);
        self.shared.note_senders(&queues);
    }

    /// Whether the client `conn` has an output queue.
    pub fn has_queue(&self, conn: ConnId) -> bool {
        self.shared.queues.lock(&self.rt).has(conn)
    }

    /// Whether a client's own worker may have to send what waits for it. Else each worker that makes a step sends the packets of that step.
    pub fn worker_sends(&self) -> bool {
        self.shared.worker_sends.load(Ordering::SeqCst) > 0
    }

    /// Takes out the first packet of a client's output queue, for the client's own worker.
    pub fn next_packet(&mut self, conn: ConnId) -> Next
        ensures seat { self.new.seat.parts ≡ self.old.seat.parts }
    {
        let mut queues = self.shared.queues.lock(&self.rt);
        let next = queues.next(conn);
        self.shared.note_senders(&queues);
        next
    }

    /// Connects the client `conn`.
    pub fn connect(&mut self, conn: ConnId) -> Result<(), CoreStop>
        ensures seat { self.new.seat.parts ≡ self.old.seat.parts }
    {
        let stepped = self.step_until_memory(RetryableStep::Connect(conn))?;
        self.after_step(stepped)
    }

    /// Ends the connection of the client `conn`, by the server.
    pub fn cut(&mut self, conn: ConnId) -> Result<(), CoreStop>
        ensures seat { self.new.seat.parts ≡ self.old.seat.parts }
    {
        let stepped = self.step_until_memory(RetryableStep::Cut(conn))?;
        self.after_step(stepped)
    }

    /// Notes that the client `conn` has closed its connection.
    pub fn close(&mut self, conn: ConnId) -> Result<(), CoreStop>
        ensures seat { self.new.seat.parts ≡ self.old.seat.parts }
    {
        let stepped = self.step_until_memory(RetryableStep::Close(conn))?;
        self.after_step(stepped)
    }

    /// Gives the core a frame of the client `conn`. A frame that finds no memory ends its connection.
    pub fn frame(&mut self, conn: ConnId, frame: Frame) -> Result<(), CoreStop>
        requires { IsBody frame.body }
        ensures seat { self.new.seat.parts ≡ self.old.seat.parts }
    {
        match self.step(CoreStep::Frame(conn, frame))? {
            Ok(stepped) => self.after_step(stepped),
            Err(NoMemory) => self.cut(conn),
        }
    }

    /// Gives the core a fault in the bytes of the client `conn`, at the offset `at`. A fault that finds no memory ends the connection too.
    pub fn broken(&mut self, conn: ConnId, fault: FrameFault, at: u64) -> Result<(), CoreStop>
        ensures seat { self.new.seat.parts ≡ self.old.seat.parts }
    {
        match self.step(CoreStep::Broken(conn, fault, at))? {
            Ok(stepped) => self.after_step(stepped),
            Err(NoMemory) => self.cut(conn),
        }
    }

    /// Gives the core all notices that wait in a sink's outbox. After the last one, connections that found no memory end, what waits for the
    /// sinks is posted, and what waits for the clients is sent.
    pub fn notices(&mut self, sink: SinkId) -> Result<(), CoreStop>
        ensures seat { self.new.seat.parts ≡ self.old.seat.parts }
    {
        match self.notices_at_once(sink)? {
            Stepped::Nothing => Ok(()),
            Stepped::Done => self.notices_left(sink),
            stepped => self.deliver(stepped),
        }
    }

    // Gives the core the notices of a sink's outbox, all of them under one lock where there is no tape, and else the first: `Nothing` where there
    // was none, `Done` where some may be left.
    fn notices_at_once(&mut self, sink: SinkId) -> Result<Stepped, CoreStop>
        ensures seat { self.new.seat.parts ≡ self.old.seat.parts }
    {
        if !self.shared.taped {
            return Ok(notices_queued(&self.rt, self.alloc, &self.shared, sink, &mut self.seat));
        }
        if self.notice(sink)? {
            Ok(Stepped::Done)
        } else {
            Ok(Stepped::Nothing)
        }
    }

    // Gives the core the notices left in a sink's outbox, one by one, and then does what follows the last.
    fn notices_left(&mut self, sink: SinkId) -> Result<(), CoreStop>
        ensures seat { self.new.seat.parts ≡ self.old.seat.parts }
    {
        let rt = self.rt;
        for _ in rt.forever() {
            if !self.notice(sink)? {
                return self.deliver(Stepped::Swept);
            }
        }
        unreachable!()
    }

    // Gives the core the next notice of a sink's outbox, and makes the sweep that this owes. False where there was none.
    fn notice(&mut self, sink: SinkId) -> Result<bool, CoreStop>
        ensures seat { self.new.seat.parts ≡ self.old.seat.parts }
    {
        let stepped = self.step_until_memory(RetryableStep::Notice(sink))?;
        self.sweep_owed(stepped)?;
        Ok(stepped != Stepped::Nothing)
    }
}
