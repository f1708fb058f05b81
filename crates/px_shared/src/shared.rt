//! The state that all workers of a server share.

ghost use Rattle.std.specs.Prelude.{◌≡◌};

use crate::out_queues::OutQueues;
use px_annals::{CoreEntry, Recorder};
use px_core_cell::{CoreCell, Seats};
use px_ends::Outlet;
use px_pool::Pool;
use px_tape::Tape;
use std::alloc::Global;
use std::sync::atomic::{AtomicBool, AtomicUsize, Ordering};
use std::sync::{Arc, Mutex};

/// The state that all workers share: the core, the packets that wait for each client with the half of its link that sends, used blocks, and the
/// tape, with flags that are read without a lock. Where there is a tape, it is locked during each step of the core and during each turn of a
/// sink.
#[derive(Drop)]
pub struct Shared<C: Recorder<CoreEntry>, L: Seats, O> {
    pub core: CoreCell<C, L>,
    pub(crate) queues: Mutex<OutQueues<O>>,
    // True where a packet found no memory in some client's queue. It changes under the queues' lock, and is read without it.
    pub(crate) out_of_memory: AtomicBool,
    // True where a packet may wait that nobody has tried to send. It is set under the queues' lock.
    pub(crate) waiting: AtomicBool,
    // The number of clients whose own worker has to send what waits for them. It changes under the queues' lock, and is read without it.
    pub(crate) worker_sends: AtomicUsize,
    pub(crate) pool: Arc<Pool>,
    // True once the sinks' workers may end.
    pub(crate) stopping: AtomicBool,
    pub(crate) sinks: u8,
    pub tape: Mutex<Tape>,
    pub(crate) taped: bool,
}

impl<C: Recorder<CoreEntry>, L: Seats, O: Outlet + Drop> Shared<C, L, O> {
    /// A core of `sinks` sinks, with no clients, and a pool for blocks; `taped` says whether its steps go onto the tape. Takes no memory.
    pub fn new(
        alloc: Global,
        core: CoreCell<C, L>,
        pool: Arc<Pool>,
        sinks: u8,
        taped: bool,
    ) -> Shared<C, L, O>
        ensures { result.core ≡ core }
    {
        Shared {
            core,
            queues: Mutex::new(OutQueues::new(alloc)),
            out_of_memory: AtomicBool::new(false),
            waiting: AtomicBool::new(false),
            worker_sends: AtomicUsize::new(0),
            pool,
            stopping: AtomicBool::new(false),
            sinks,
            tape: Mutex::new(Tape::new(alloc)),
            taped,
        }
    }

    // Notes how many clients' own workers have to send, as `queues` has them.
    pub(crate) fn note_senders(&self, queues: &OutQueues<O>) {
        self.worker_sends
            .store(queues.worker_senders(), Ordering::SeqCst);
    }
}
