//! Workers side by side.
ghost use Rattle.px_header.specs.HeaderRules.{IsHeader};

use super::hosts::{Machine, header, header_read, host, nothing_sent, one_client};
use px_header::Header;
use px_mem_host::MemHost;
use px_server::{Gate, serve};
use px_types::{ConnId, Mem, SinkId, Status};
use std::rt::Clock;
use std::sync::Arc;
use std::sync::atomic::{AtomicBool, Ordering};
use std::thread::sleep;
use std::time::Duration;

// A rendezvous: the first turn of sink 0 waits until a packet was answered, and the worker of the first packet waits until a turn of sink 0 has
// begun. On one thread whichever comes first waits for itself.
#[derive(Drop)]
struct Meeting<R> {
    rt: R,
    begun: AtomicBool,
    answered: AtomicBool,
    turn_met: AtomicBool,
    packet_met: AtomicBool,
}

impl<R: Clock> Meeting<R> {
    fn new(rt: R) -> Meeting<R> {
        Meeting {
            rt,
            begun: AtomicBool::new(false),
            answered: AtomicBool::new(false),
            turn_met: AtomicBool::new(false),
            packet_met: AtomicBool::new(false),
        }
    }

    fn pause(&self, milliseconds: u64) {
        sleep(&self.rt, Duration::from_millis(milliseconds));
    }

    // Looks at `sign` up to a million times, a millisecond apart, until it is there, and notes in `met` that it was.
    fn wait_for(&self, sign: &AtomicBool, met: &AtomicBool) {
        for _ in 0..1_000_000u32 {
            if sign.load(Ordering::SeqCst) {
                met.store(true, Ordering::SeqCst);
                return;
            }
            self.pause(1);
        }
    }

    // Whether both waits ended by the other's sign.
    fn met(&self) -> bool {
        self.turn_met.load(Ordering::SeqCst) && self.packet_met.load(Ordering::SeqCst)
    }
}

impl<R: Clock> Gate for Meeting<R> {
    fn before_turn(&self, sink: SinkId) {
        if sink == SinkId(0) && !self.begun.swap(true, Ordering::SeqCst) {
            self.wait_for(&self.answered, &self.turn_met);
        } else {
            self.pause(5);
        }
    }

    fn after_packet(&self, _conn: ConnId) {
        if !self.answered.swap(true, Ordering::SeqCst) {
            self.wait_for(&self.begun, &self.packet_met);
        }
    }
}

// A host of one client.
fn host_of_one<R: Machine>(rt: &R) -> Mem<MemHost<R>> {
    let links = one_client(rt.alloc(), 0, nothing_sent(rt.alloc())?)?;
    host(rt, header(rt.alloc())?, links, 0, 1000, 0)
}

// The status of a server of a header, whose turns and packets this gate holds.
fn status_of<R: Machine>(
    rt: &R,
    read: &Header,
    host: &mut MemHost<R>,
    gate: Arc<Meeting<R>>,
) -> Status
    requires { IsHeader read.now }
{
    serve(rt, rt.alloc(), read, None, host, gate, false).status
}

// The status of that server with one client.
fn ended<R: Machine>(rt: &R, read: &Header, gate: Arc<Meeting<R>>) -> Mem<Status>
    requires { IsHeader read.now }
{
    let mut host = host_of_one(rt)?;
    Ok(status_of(rt, read, &mut host, gate))
}

#[test]
fn a_sink_and_a_client_are_served_side_by_side(rt: HostRuntime) -> Mem<()> {
    let gate = Arc::new(rt.alloc(), Meeting::new(rt))?;
    let read = header_read(rt.alloc())?;
    let status = ended(&rt, &read, Arc::try_clone(&gate)?);
    assert!(rt; status == Ok(Status::Ok) && gate.met());
    Ok(())
}
