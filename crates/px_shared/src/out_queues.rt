//! The output queues: the packets that wait for each client, in the order in which the core's steps gave them.
ghost use Rattle.std.specs.Prelude.{◌≡◌, ◌++◌, ◌∷◌, [], OnOk, OnErr};

use px_core::{Effect, Effects};
use px_ends::{Outlet, Sent};
use px_frame::Packet;
use px_types::{ConnId, Mem};
use px_worker_api::{Next, PartlySent};
use std::alloc::Global;
use std::collections::VecDeque;
use std::mem;

// Who sends what waits for a client.
#[derive(Drop)]
enum Sender<O> {
    // Any worker that has made a step, through this half of the link.
    Anyone(O),
    // A worker that is sending, and has that half.
    Busy,
    // The client's own worker: the link wasn't ready, or has no half that sends.
    Own(Option<O>),
}

// The output queue of one client.
#[derive(Drop)]
struct OutQueue<O> {
    conn: ConnId,
    sender: Sender<O>,
    // The packet before `packets`, where it is sent in part: the client's own worker sends the rest.
    partly_sent: Option<PartlySent>,
    packets: VecDeque<Packet>,
    // Nothing more comes.
    ended: bool,
    // There was no memory for a packet.
    out_of_memory: bool,
}

/// A packet taken out of a client's queue, with the half of its link that sends it.
#[derive(Drop)]
pub(crate) struct PendingSend<O> {
    conn: ConnId,
    outlet: O,
    packet: Packet,
}

impl<O: Outlet + Drop> PendingSend<O> {
    /// Sends the packet. The outlet goes back into the client's queue, with the packet where the link took it only in part.
    pub(crate) fn run(self) -> (ConnId, O, Option<PartlySent>) {
        let PendingSend {
            conn,
            mut outlet,
            packet,
        } = self;
        let count = packet.bytes().len();
        let sent = sent_of(&mut outlet, packet.bytes());
        let partly_sent = if sent == count {
            None
        } else {
            Some(PartlySent { packet, sent })
        };
        (conn, outlet, partly_sent)
    }
}

// Sends `bytes` as far as the link is ready, and returns how many were sent.
fn sent_of<O: Outlet>(outlet: &mut O, bytes: &[u8]) -> usize {
    if bytes.is_empty() {
        return 0;
    }
    match outlet.send(bytes) {
        Sent::Bytes(count) => count,
        Sent::NotYet | Sent::Failed => 0,
    }
}

impl<O: Outlet + Drop> OutQueue<O> {
    // Takes out the first packet that waits, with the outlet, where any worker may send it.
    fn take_out(&mut self) -> Option<PendingSend<O>> {
        match mem::replace(&mut self.sender, Sender::Busy) {
            Sender::Anyone(outlet) => match self.packets.pop_front() {
                Some(packet) => Some(PendingSend {
                    conn: self.conn,
                    outlet,
                    packet,
                }),
                None => {
                    self.sender = Sender::Anyone(outlet);
                    None
                }
            },
            other => {
                self.sender = other;
                None
            }
        }
    }

    // Puts back the outlet. A packet that was sent in part is then the client's own worker's to send.
    fn put_back(&mut self, outlet: O, partly_sent: Option<PartlySent>) {
        self.sender = if partly_sent.is_some() {
            Sender::Own(Some(outlet))
        } else {
            Sender::Anyone(outlet)
        };
        self.partly_sent = partly_sent;
        self.shut_where_done();
    }

    // Shuts the outlet where nothing waits and nothing more comes.
    fn shut_where_done(&mut self) {
        if self.ended && self.packets.is_empty() {
            if let Sender::Anyone(outlet) = &mut self.sender {
                outlet.shut();
            }
        }
    }

    // Shuts the outlet, unless a worker is sending through it: that worker shuts it when it puts it back.
    fn shut(&mut self) {
        match &mut self.sender {
            Sender::Anyone(outlet) | Sender::Own(Some(outlet)) => outlet.shut(),
            Sender::Busy | Sender::Own(None) => {}
        }
    }

    // The client's own worker sends from now on.
    fn reserve_for_worker(&mut self) {
        self.sender = match mem::replace(&mut self.sender, Sender::Busy) {
            Sender::Anyone(outlet) => Sender::Own(Some(outlet)),
            other => other,
        };
    }

    // Any worker sends from now on, where the link has a half that sends.
    fn release_to_anyone(&mut self) {
        self.sender = match mem::replace(&mut self.sender, Sender::Busy) {
            Sender::Own(Some(outlet)) => Sender::Anyone(outlet),
            other => other,
        };
    }

    // Takes out the first packet, for the client's own worker, which then sends all that waits.
    fn next(&mut self) -> Next {
        if matches!(&self.sender, Sender::Busy) {
            return Next::Nothing;
        }
        if let Some(partly_sent) = self.partly_sent.take() {
            return Next::Packet(partly_sent);
        }
        if let Some(packet) = self.packets.pop_front() {
            self.reserve_for_worker();
            return Next::Packet(PartlySent { packet, sent: 0 });
        }
        self.release_to_anyone();
        if self.ended {
            Next::Ended
        } else {
            Next::Nothing
        }
    }
}

/// The output queues of all clients.
#[derive(Drop)]
pub(crate) struct OutQueues<O> {
    alloc: Global,
    queues: Vec<OutQueue<O>>,
}

impl<O: Outlet + Drop> OutQueues<O> {
    /// No queues. Takes no memory.
    pub(crate) fn new(alloc: Global) -> OutQueues<O> {
        OutQueues {
            alloc,
            queues: Vec::new(alloc),
        }
    }

    /// Opens a queue for the client `conn`, with the half of its link that sends, where it has one.
    pub(crate) fn open(&mut self, conn: ConnId, outlet: Option<O>) -> Mem<()> {
        let packets = VecDeque::new(self.alloc);
        let sender = match outlet {
            Some(outlet) => Sender::Anyone(outlet),
            None => Sender::Own(None),
        };
        self.queues.push(OutQueue {
            conn,
            sender,
            partly_sent: None,
            packets,
            ended: false,
            out_of_memory: false,
        })?;
        Ok(())
    }

    /// Drops the queue of the client `conn` with all that waits in it, and shuts its outlet. Takes no memory.
    pub(crate) fn close(&mut self, conn: ConnId) {
        if let Some(at) = self.queues.iter().position(|queue| queue.conn == conn) {
            self.queues.remove(at).shut();
        }
    }

    /// The number of clients whose own worker has to send what waits for them. Takes no memory.
    pub(crate) fn worker_senders(&self) -> usize {
        self.queues
            .iter()
            .filter(|queue| matches!(&queue.sender, Sender::Own(_)))
            .count()
    }

    /// Whether the client `conn` has a queue. Takes no memory.
    pub(crate) fn has(&self, conn: ConnId) -> bool {
        self.queues.iter().any(|queue| queue.conn == conn)
    }

    /// Takes out the first packet of a client's queue. A client without a queue has ended. Takes no memory.
    pub(crate) fn next(&mut self, conn: ConnId) -> Next {
        match self.queues.iter_mut().find(|queue| queue.conn == conn) {
            Some(queue) => queue.next(),
            None => Next::Ended,
        }
    }

    /// A client in whose queue a packet found no memory; each is returned once. Takes no memory.
    pub(crate) fn take_out_of_memory(&mut self) -> Option<ConnId> {
        let queue = self.queues.iter_mut().find(|queue| queue.out_of_memory)?;
        queue.out_of_memory = false;
        Some(queue.conn)
    }

    /// Appends the effects of a step to the queues. A packet that finds no memory marks its queue. Whether there was memory for all.
    pub(crate) fn put(&mut self, effects: Effects) -> bool {
        let mut whole = true;
        for effect in effects.into_vec() {
            if !self.put_one(effect) {
                whole = false;
            }
        }
        whole
    }

    /// Takes out the next packet that any worker may send; its client's outlet is out until it is put back. Takes no memory.
    pub(crate) fn take_out(&mut self) -> Option<PendingSend<O>> {
        for queue in self.queues.iter_mut() {
            if let Some(pending) = queue.take_out() {
                return Some(pending);
            }
        }
        None
    }

    /// Puts back a client's outlet, with the packet that was sent in part. Where the client's queue is gone, the outlet is shut. Takes no
    /// memory.
    pub(crate) fn put_back(
        &mut self,
        conn: ConnId,
        mut outlet: O,
        partly_sent: Option<PartlySent>,
    ) {
        match self.queues.iter_mut().find(|queue| queue.conn == conn) {
            Some(queue) => queue.put_back(outlet, partly_sent),
            None => outlet.shut(),
        }
    }

    // Appends one effect. Whether there was memory for it.
    fn put_one(&mut self, effect: Effect) -> bool {
        match effect {
            Effect::Sent { conn, packet } => {
                if let Some(queue) = self.queues.iter_mut().find(|queue| queue.conn == conn) {
                    if queue.packets.push_back(packet).is_err() {
                        queue.out_of_memory = true;
                        return false;
                    }
                }
            }
            Effect::Closed { conn, .. } => {
                if let Some(queue) = self.queues.iter_mut().find(|queue| queue.conn == conn) {
                    queue.ended = true;
                    queue.shut_where_done();
                }
            }
        }
        true
    }
}
