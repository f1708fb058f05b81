//! Hosts in memory with one client.
ghost use Rattle.std.specs.Prelude.{◌≤◌, length, IfOk};
ghost use Rattle.px_header.specs.HeaderRules.{IsHeader};

use px_app::{header_in, run};
use px_ends::{Calls, MemSink, MemSource};
use px_header::Header;
use px_mem_host::{LinkPlan, LinkPlans, MemHost};
use px_types::{Mem, NoMemory, Status, Text};
use std::alloc::Global;
use std::rt::Clock;
use std::sync::{Arc, Mutex, Wait};
use std::thread::Threads;

/// A runtime that the whole program may have.
pub trait Machine: AllocGlobal + Threads + Wait + Clock + Copy + Drop + Send + Sync + 'static {}

impl<R: AllocGlobal + Threads + Wait + Clock + Copy + Drop + Send + Sync + 'static> Machine for R {}

/// What a client that sends AUTH is sent: the reply, in its frame.
pub const REPLY: &[u8; 35] =
    b"\0\0\0\x0f\xff\xff\xff\xff\0\0\0\0\0\0\0\0\0\0\0\0L\0\0\0\x02L\0\0\0\0L\0\0\0\x12";

/// A header of one sink `out`, in S16LE, mono, of guard 10 and depth 100, with a cookie of zeros: 280 bytes.
pub fn header(alloc: Global) -> Mem<Text> {
    let mut bytes = Vec::new(alloc);
    bytes.extend_from_slice(b"PRS1")?;
    bytes.extend_from_slice(&[0; 256])?;
    bytes.extend_from_slice(b"\x01\x03out\x03\x01\0\0\xbb\x80\0\0\0\0\x0a\0\0\0\x64")?;
    Ok(Text::from_vec(bytes))
}

/// The header that these bytes are.
pub fn header_read(alloc: Global) -> Mem<Header>
    ensures { IfOk result IsHeader }
{
    match header_in(alloc, header(alloc)?) {
        Ok(header) => Ok(header),
        Err(_) => Err(NoMemory),
    }
}

/// The AUTH of a client of version 35 with that cookie, in its frame: 296 bytes.
pub fn hello(alloc: Global) -> Mem<Text> {
    let mut bytes = Vec::new(alloc);
    bytes.extend_from_slice(b"\0\0\x01\x14\xff\xff\xff\xff\0\0\0\0\0\0\0\0\0\0\0\0")?;
    bytes.extend_from_slice(b"L\0\0\0\x08L\0\0\0\0L\xc0\0\0\x23x\0\0\x01\0")?;
    bytes.extend_from_slice(&[0; 256])?;
    Ok(Text::from_vec(bytes))
}

/// The empty list of what one client is sent, for its test.
pub fn nothing_sent(alloc: Global) -> Mem<Arc<Mutex<Text>>> {
    Ok(Arc::new(alloc, Mutex::new(Text::from_vec(Vec::new(alloc))))?)
}

fn listed(alloc: Global, numbers: &[u64]) -> Mem<Calls> {
    let mut list = Vec::new(alloc);
    list.extend_from_slice(numbers)?;
    Ok(Calls::from_vec(list))
}

/// A client that sends `bytes`, and hangs up once it was sent `end_after` bytes. Its link is late at its calls 1 and 3, and fails at `failing`; 0 for
/// none.
pub fn client(
    alloc: Global,
    bytes: Text,
    end_after: usize,
    failing: u64,
    sent: Arc<Mutex<Text>>,
) -> Mem<LinkPlan> {
    Ok(LinkPlan {
        bytes,
        room: 9999,
        late: listed(alloc, &[1, 3])?,
        fail: listed(alloc, &[failing])?,
        end_after,
        sent,
    })
}

/// One client that sends AUTH, and hangs up once it was sent the reply.
pub fn one_client(alloc: Global, failing: u64, sent: Arc<Mutex<Text>>) -> Mem<LinkPlans>
    ensures { IfOk result (λ plans. length plans ≤ 65535) }
{
    let mut plans = Vec::new(alloc);
    let client = client(alloc, hello(alloc)?, REPLY.len(), failing, sent)?;
    plans.push(client)?;
    Ok(LinkPlans::from_vec(plans))
}

/// A host with these bytes as header file, whose devices consume `frames` frames at a sync, whose recorders hold `entries` entries, and whose call
/// number `failing` fails; 0 for none.
pub fn host<R: Machine>(
    rt: &R,
    header: Text,
    links: LinkPlans,
    frames: u32,
    entries: usize,
    failing: u64,
) -> Mem<MemHost<R>>
    requires { length links ≤ 65535 }
{
    let alloc = rt.alloc();
    let (most, calls) = (usize::MAX, listed(alloc, &[failing])?);
    MemHost::new(
        *rt, alloc, header, links, frames, 100_000, entries, most, calls,
    )
}

/// The status of a run by the words of a line, with this input.
pub fn ended<R: Machine>(
    rt: &R,
    line: &str,
    input: Text,
    output: &mut MemSink,
    log: &mut MemSink,
    host: &mut MemHost<R>,
) -> Mem<Status> {
    let alloc = rt.alloc();
    let mut words = Vec::new(alloc);
    for word in line.split(' ') {
        words.push(String::from_str(alloc, word)?)?;
    }
    let mut input = MemSource::new(input, Calls::none(alloc));
    Ok(run(rt, &words, &mut input, output, log, host))
}
