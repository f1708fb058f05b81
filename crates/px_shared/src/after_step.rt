//! What follows a step of the core: the sweep that it owes, the ends of connections that found no memory, the messages that wait for the sinks, and
//! the packets that wait for the clients.

ghost use Rattle.std.specs.Prelude.{◌≡◌};

use crate::handle::CoreHandle;
use crate::out_queues::PendingSend;
use crate::retryable::RetryableStep;
use crate::step::Stepped;
use px_annals::{CoreEntry, Recorder};
use px_core_cell::{CoreStep, Seats};
use px_ends::Outlet;
use px_types::{ConnId, SinkId};
use px_worker_api::{CoreStop, PartlySent};
use std::sync::Wait;
use std::sync::atomic::Ordering;

impl<R: Wait + Copy, C: Recorder<CoreEntry> + Drop, L: Seats, O: Outlet + Drop> CoreHandle<
    R,
    C,
    L,
    O,
> {
    /// What follows a step: the sweep that `stepped` owes, and what it leaves for sinks and clients.
    pub(crate) fn after_step(&mut self, stepped: Stepped) -> Result<(), CoreStop>
        ensures seat { self.new.seat.parts ≡ self.old.seat.parts }
    {
        self.sweep_owed(stepped)?;
        self.deliver(stepped)
    }

    /// Ends the connections that found no memory, posts what waits for the sinks unless `stepped` has, and sends what waits for the clients.
    pub(crate) fn deliver(&mut self, stepped: Stepped) -> Result<(), CoreStop>
        ensures seat { self.new.seat.parts ≡ self.old.seat.parts }
    {
        self.cut_out_of_memory()?;
        self.post_left(stepped)?;
        self.send();
        Ok(())
    }

    // Ends the connections of clients in whose queues a packet found no memory.
    fn cut_out_of_memory(&mut self) -> Result<(), CoreStop>
        ensures seat { self.new.seat.parts ≡ self.old.seat.parts }
    {
        let rt = self.rt;
        for _ in rt.forever() {
            match self.client_out_of_memory() {
                Some(conn) => self.end(conn)?,
                None => return Ok(()),
            }
        }
        unreachable!()
    }

    // A client in whose queue a packet found no memory. Each thread checks after its own step only, so it waits for no other thread's step.
    fn client_out_of_memory(&mut self) -> Option<ConnId>
        ensures seat { self.new.seat.parts ≡ self.old.seat.parts }
    {
        if !self.shared.out_of_memory.load(Ordering::SeqCst) {
            return None;
        }
        let mut queues = self.shared.queues.lock(&self.rt);
        let conn = queues.take_out_of_memory();
        if conn.is_none() {
            self.shared.out_of_memory.store(false, Ordering::SeqCst);
        }
        conn
    }

    // Ends a client's connection, makes the sweep that this owes, and posts what then waits for the sinks.
    fn end(&mut self, conn: ConnId) -> Result<(), CoreStop>
        ensures seat { self.new.seat.parts ≡ self.old.seat.parts }
    {
        let cut = self.step_until_memory(RetryableStep::Cut(conn))?;
        self.sweep_owed(cut)?;
        self.post_left(cut)
    }

    // Posts to each sink what waits for it, unless `stepped` has.
    fn post_left(&mut self, stepped: Stepped) -> Result<(), CoreStop>
        ensures seat { self.new.seat.parts ≡ self.old.seat.parts }
    {
        if stepped == Stepped::Posted {
            return Ok(());
        }
        self.post_all()
    }

    // Posts to each sink what waits for it.
    fn post_all(&mut self) -> Result<(), CoreStop>
        ensures seat { self.new.seat.parts ≡ self.old.seat.parts }
    {
        for sink in 0..self.shared.sinks {
            self.post(SinkId(sink))?;
        }
        Ok(())
    }

    /// Posts to a sink what waits for it. Where there is no memory it waits for the next time.
    pub fn post(&mut self, sink: SinkId) -> Result<(), CoreStop>
        ensures seat { self.new.seat.parts ≡ self.old.seat.parts }
    {
        let _posted = self.step(CoreStep::Out(sink))?;
        Ok(())
    }

    // Sends what waits for the clients, as far as their links are ready. Nothing is locked while a packet is sent.
    fn send(&mut self)
        ensures seat { self.new.seat.parts ≡ self.old.seat.parts }
    {
        if !self.shared.waiting.load(Ordering::SeqCst) {
            return;
        }
        self.shared.waiting.store(false, Ordering::SeqCst);
        let rt = self.rt;
        let mut next = self.next_pending();
        for _ in rt.forever() {
            let Some(pending) = next else {
                return;
            };
            let (conn, outlet, partly_sent) = pending.run();
            next = self.put_back(conn, outlet, partly_sent);
        }
        unreachable!()
    }

    // The next packet that waits for a client and that any worker may send.
    fn next_pending(&mut self) -> Option<PendingSend<O>>
        ensures seat { self.new.seat.parts ≡ self.old.seat.parts }
    {
        self.shared.queues.lock(&self.rt).take_out()
    }

    // Puts back the outlet that a pending send had, with the packet that it has sent in part, and takes the next packet that waits.
    fn put_back(
        &mut self,
        conn: ConnId,
        outlet: O,
        partly_sent: Option<PartlySent>,
    ) -> Option<PendingSend<O>>
        ensures seat { self.new.seat.parts ≡ self.old.seat.parts }
    {
        let mut queues = self.shared.queues.lock(&self.rt);
        queues.put_back(conn, outlet, partly_sent);
        self.shared.note_senders(&queues);
        queues.take_out()
    }
}
