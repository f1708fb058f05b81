//! A core whose history fills while a client is served.
ghost use Rattle.std.specs.Prelude.{◌≤◌, length, IfOk};
ghost use Rattle.px_header.specs.HeaderRules.{IsHeader};

use super::hosts::{Machine, REPLY, client, header, header_read, hello, nothing_sent};
use px_ends::Calls;
use px_header::Header;
use px_mem_host::{LinkPlans, MemHost};
use px_server::{Gate, Served, serve};
use px_types::{ConnId, Mem, SinkId, Status, Text};
use std::alloc::Global;
use std::rt::Clock;
use std::sync::Arc;
use std::thread::sleep;
use std::time::Duration;

// The bytes that the recorders hold: the core's is full after 20 of the client's packets, a sink's only after 15,625 turns.
const MOST_BYTES: usize = 1_000_000;

// The packets that the client sends after AUTH.
const PACKETS: u32 = 40;

// Holds each turn for 10 milliseconds: a sink's recorder is full after 156 seconds at the earliest.
#[derive(Drop)]
struct Slow<R> {
    rt: R,
}

impl<R: Clock> Gate for Slow<R> {
    fn before_turn(&self, _sink: SinkId) {
        sleep(&self.rt, Duration::from_millis(10));
    }

    fn after_packet(&self, _conn: ConnId) {}
}

// Appends a SET_CLIENT_NAME with one property of 50,000 bytes, in its frame.
fn add_naming(bytes: &mut Vec<u8>) -> Mem<()> {
    bytes.extend_from_slice(b"\0\0\xc3\x69\xff\xff\xff\xff\0\0\0\0\0\0\0\0\0\0\0\0")?;
    bytes.extend_from_slice(b"L\0\0\0\x09L\0\0\0\x01Pta\0L\0\0\xc3\x50x\0\0\xc3\x50")?;
    bytes.extend_from_slice(&[7; 50_000])?;
    bytes.push(b'N')?;
    Ok(())
}

// What the client sends: AUTH and `PACKETS` packets of over 50,000 bytes each.
fn said(alloc: Global) -> Mem<Text> {
    let mut bytes = hello(alloc)?.into_vec();
    for _ in 0..PACKETS {
        add_naming(&mut bytes)?;
    }
    Ok(Text::from_vec(bytes))
}

// One client that sends all of it.
fn talker(alloc: Global) -> Mem<LinkPlans>
    ensures { IfOk result (λ plans. length plans ≤ 65535) }
{
    let mut plans = Vec::new(alloc);
    let said = said(alloc)?;
    plans.push(client(alloc, said, REPLY.len(), 0, nothing_sent(alloc)?)?)?;
    Ok(LinkPlans::from_vec(plans))
}

// A host of that client, whose recorders hold `MOST_BYTES` bytes.
fn host_of_talker<R: Machine>(rt: &R) -> Mem<MemHost<R>> {
    let alloc = rt.alloc();
    let links = talker(alloc)?;
    let (most, none) = (usize::MAX, Calls::none(alloc));
    MemHost::new(
        *rt,
        alloc,
        header(alloc)?,
        links,
        0,
        0,
        most,
        MOST_BYTES,
        none,
    )
}

// Whether a serving call ended because its core's history was full, which had some entries by then, while no sink's ever was.
fn core_was_full<R: Machine>(served: &Served<MemHost<R>>) -> bool {
    let Some(core) = &served.core else {
        return false;
    };
    let core_filled = core.len() > 20 && core.fulls() > 0;
    let sinks_had_room = served.lanes.len() == 1
        && served.lanes.iter().all(|lane| lane.recorder.len() > 0 && lane.recorder.fulls() == 0);
    served.status == Status::HistoryFull && core_filled && sinks_had_room
}

// Whether a server of this host ends so.
fn ends_full<R: Machine>(rt: &R, read: &Header, host: &mut MemHost<R>) -> Mem<bool>
    requires { IsHeader read.now }
{
    let gate = Arc::new(rt.alloc(), Slow { rt: *rt })?;
    let served = serve(rt, rt.alloc(), read, None, host, gate, false);
    Ok(core_was_full(&served))
}

// Whether a server of that client ends so.
fn fills<R: Machine>(rt: &R, read: &Header) -> Mem<bool>
    requires { IsHeader read.now }
{
    let mut host = host_of_talker(rt)?;
    ends_full(rt, read, &mut host)
}

#[test]
fn a_core_whose_history_fills_ends_the_server_with_that(rt: HostRuntime) -> Mem<()> {
    let read = header_read(rt.alloc())?;
    assert!(rt; matches!(fills(&rt, &read), Ok(true)));
    Ok(())
}
