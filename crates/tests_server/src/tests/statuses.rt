ghost use Rattle.std.specs.Prelude.{◌≤◌, length};

use super::hosts::{Machine, REPLY, ended, header, host, nothing_sent, one_client};
use px_ends::{Calls, MemSink};
use px_mem_host::{LinkPlans, MemHost, Taken};
use px_types::Status::{HistoryFull, Host, Refused, Usage, WriteFault};
use px_types::{Mem, Status, Text};
use std::alloc::Global;
use std::sync::Arc;

// The status of a server by these words, where no output can be written.
fn unwritten<R: Machine>(
    rt: &R,
    words: &str,
    log: &mut MemSink,
    host: &mut MemHost<R>,
) -> Mem<Status> {
    let input = Text::from_vec(Vec::new(rt.alloc()));
    let mut output = MemSink::new(rt.alloc(), 0, Calls::none(rt.alloc()))?;
    ended(rt, words, input, &mut output, log, host)
}

// The status of that server, if its log has just this line.
fn ends<R: Machine>(
    rt: &R,
    words: &str,
    host: &mut MemHost<R>,
    line: &[u8],
) -> Mem<Option<Status>> {
    let mut log = MemSink::new(rt.alloc(), 199, Calls::none(rt.alloc()))?;
    let status = unwritten(rt, words, &mut log, host)?;
    Ok((log.bytes() == line).then_some(status))
}

const PLAIN: &str = "serve --header h --socket s --out o --accept 1";

const PAPER: &str = "serve --header h --socket s --out o --accept 1 --history paper";

const TAPED: &str = "serve --header h --socket s --out o --accept 1 --tape";

// The words, the size of the header file, with a zero after its 280 bytes, the entries that the recorders hold, the number of the host's call that
// fails, 0 for none, and how the server ends: its status, and its log's line without the name and the line feed.
type Row = (&'static str, usize, usize, u64, Status, &'static [u8]);

const USAGE: &[u8] =
    b"usage: replay [--raw SINK | --monitor | --samples | --ramp FRAMES], summary, convert, gen NUMBER COUNT, serve OPTIONS, ctl --socket PATH COMMAND";

// Where the tape can't be written and the host fails, the host's fault decides.
const ROWS: [Row; 6] = [
    (PLAIN, 280, 0, 0, HistoryFull, b"history full"),
    (PLAIN, 4, 9, 0, Refused, b"refused at 4: truncated"),
    (PLAIN, 281, 9, 0, Refused, b"refused at 280: trailing"),
    (PAPER, 280, 9, 0, Usage, USAGE),
    (TAPED, 280, 99, 0, WriteFault, b"write failed"),
    (TAPED, 280, 99, 6, Host, b"host failed"),
];

fn line_of(alloc: Global, said: &[u8]) -> Mem<Vec<u8>> {
    let mut line = Vec::new(alloc);
    line.extend_from_slice(b"pulse_rw: ")?;
    line.extend_from_slice(said)?;
    line.push(b'\n')?;
    Ok(line)
}

fn serves<R: Machine>(rt: &R, row: &Row) -> Mem<bool> {
    let (words, length, entries, failing, status, said) = *row;
    let line = line_of(rt.alloc(), said)?;
    let mut bytes = header(rt.alloc())?.into_vec();
    bytes.push(0)?;
    bytes.truncate(length);
    let links = one_client(rt.alloc(), 0, nothing_sent(rt.alloc())?)?;
    let mut host = host(rt, Text::from_vec(bytes), links, 0, entries, failing)?;
    Ok(ends(rt, words, &mut host, line.as_slice()) == Ok(Some(status)))
}

#[test]
fn a_server_says_why_it_ends(rt: HostRuntime) {
    assert!(rt; ROWS.iter().all(|row| matches!(serves(&rt, row), Ok(true))));
}

// A start, a sink's device, its recorder and its thread, the core's recorder, a client, its thread, and the end of the clients.
#[test]
fn a_server_ends_where_its_host_fails(rt: HostRuntime) {
    assert!(rt;
        (1..9).all(|call| {
            matches!(
                serves(&rt, &(PLAIN, 280, 9999, call, Status::Host, b"host failed")),
                Ok(true)
            )
        })
    );
}

// A host got back the one sink that it made, and the core's recorder.
fn is_whole(taken: &Taken) -> bool {
    taken.started.len() == 1 && taken.parts.len() == 1 && taken.core_recorders.len() == 1
}

// Whether a server of these clients ends with Ok, and its host gets all back.
fn ends_whole<R: Machine>(rt: &R, links: LinkPlans) -> Mem<bool>
    requires { length links ≤ 65535 }
{
    let mut host = host(rt, header(rt.alloc())?, links, 0, 9999, 0)?;
    let is_well = ends(rt, PLAIN, &mut host, b"") == Ok(Some(Status::Ok));
    Ok(is_well && is_whole(&host.into_taken()))
}

// Whether a server ends with Ok whose client's link fails at call `failing`, and was sent `wanted`.
fn sends<R: Machine>(rt: &R, failing: u64, wanted: &[u8]) -> Mem<bool> {
    let sent = nothing_sent(rt.alloc())?;
    let links = one_client(rt.alloc(), failing, Arc::try_clone(&sent)?)?;
    let is_well = ends_whole(rt, links)?;
    let is_sent = sent.lock(rt).as_slice() == wanted;
    Ok(is_well && is_sent)
}

#[test]
fn a_client_is_sent_its_reply_alone_and_nothing_where_its_link_fails(rt: HostRuntime) {
    assert!(rt; matches!(sends(&rt, 0, REPLY), Ok(true)) && matches!(sends(&rt, 2, b""), Ok(true)));
}
