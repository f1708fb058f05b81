//! Control clients of a host in memory, whose servers are lists of frames.
use super::hosts::{Machine, REPLY, ended, header, host};
use px_ends::{Calls, MemSink};
use px_mem_host::{DialPlan, HostLink, LinkPlans, MemHost};
use px_types::Status::{BadReply, Denied, Gone, Host, Ok as Fine, Refused};
use px_types::{Mem, Status, Text};
use std::alloc::Global;

// The reply to SET_CLIENT_NAME, with client index 0, in its frame.
const NAMED: &[u8] =
    b"\0\0\0\x0f\xff\xff\xff\xff\0\0\0\0\0\0\0\0\0\0\0\0L\0\0\0\x02L\0\0\0\x01L\0\0\0\0";

// The reply to a command with tag 2 that has no fields.
const DONE: &[u8] = b"\0\0\0\x0a\xff\xff\xff\xff\0\0\0\0\0\0\0\0\0\0\0\0L\0\0\0\x02L\0\0\0\x02";

// The error 5 with tag 2, and with tag 3.
const NO_ENTITY: &[u8] =
    b"\0\0\0\x0f\xff\xff\xff\xff\0\0\0\0\0\0\0\0\0\0\0\0L\0\0\0\0L\0\0\0\x02L\0\0\0\x05";

const ANOTHERS: &[u8] =
    b"\0\0\0\x0f\xff\xff\xff\xff\0\0\0\0\0\0\0\0\0\0\0\0L\0\0\0\0L\0\0\0\x03L\0\0\0\x05";

// A subscription event.
const EVENT: &[u8] =
    b"\0\0\0\x14\xff\xff\xff\xff\0\0\0\0\0\0\0\0\0\0\0\0L\0\0\0\x42L\xff\xff\xff\xffL\0\0\0\x02L\0\0\0\0";

// A list of one input: its index 0, name `a`, no module, client 0, sink 0, S16LE, mono, full volume, not muted, no properties.
const LISTED: &[u8] =
    b"\0\0\0\x48\xff\xff\xff\xff\0\0\0\0\0\0\0\0\0\0\0\0L\0\0\0\x02L\0\0\0\x02L\0\0\0\0ta\0L\xff\xff\xff\xffL\0\0\0\0L\0\0\0\0a\x03\x01\0\0\xbb\x80m\x01\0v\x01\0\x01\0\0U\0\0\0\0\0\0\0\0U\0\0\0\0\0\0\0\0NN0PN";

// The command that sets the volume of input 0 to 32768, in its frame.
const VOLUME: &[u8] =
    b"\0\0\0\x15\xff\xff\xff\xff\0\0\0\0\0\0\0\0\0\0\0\0L\0\0\0\x25L\0\0\0\x02L\0\0\0\0v\x01\0\0\x80\0";

// The words, what the server sends before it hangs up, the status, and what the output and the log gain.
struct Row {
    words: &'static str,
    pieces: &'static [&'static [u8]],
    status: Status,
    listed: &'static [u8],
    line: &'static [u8],
}

// The offset of a frame is that of its packet.
const ROWS: [Row; 9] = [
    Row {
        words: "ctl --socket s volume 0 32768",
        pieces: &[REPLY, NAMED, DONE],
        status: Fine,
        listed: b"",
        line: b"",
    },
    Row {
        words: "ctl --socket s list",
        pieces: &[REPLY, NAMED, LISTED],
        status: Fine,
        listed: b"input 0 sink 0 volume 65536 mute no\n",
        line: b"",
    },
    Row {
        words: "ctl --socket s volume 9 1",
        pieces: &[REPLY, NAMED, NO_ENTITY],
        status: Denied,
        listed: b"",
        line: b"pulse_rw: server refused 5\n",
    },
    Row {
        words: "ctl --socket s mute 0 off",
        pieces: &[REPLY, EVENT, NAMED, EVENT, DONE],
        status: Fine,
        listed: b"",
        line: b"",
    },
    Row {
        words: "ctl --socket s sink-volume out 1",
        pieces: &[REPLY, DONE],
        status: BadReply,
        listed: b"",
        line: b"pulse_rw: bad reply at 55\n",
    },
    Row {
        words: "ctl --socket s move 0 out",
        pieces: &[REPLY, NAMED, ANOTHERS],
        status: BadReply,
        listed: b"",
        line: b"pulse_rw: bad reply at 90\n",
    },
    Row {
        words: "ctl --socket s kill 0",
        pieces: &[REPLY, NAMED, LISTED],
        status: BadReply,
        listed: b"",
        line: b"pulse_rw: bad reply at 90\n",
    },
    Row {
        words: "ctl --socket s list",
        pieces: &[REPLY],
        status: Gone,
        listed: b"",
        line: b"pulse_rw: server gone\n",
    },
    Row {
        words: "ctl --socket s list",
        pieces: &[b"\0\0\0\x0f\0\0\0\0"],
        status: Gone,
        listed: b"",
        line: b"pulse_rw: server gone\n",
    },
];

// A server that sends these pieces, and takes what it is sent.
fn server(alloc: Global, pieces: &[&[u8]]) -> Mem<DialPlan> {
    let mut bytes = Vec::new(alloc);
    for piece in pieces {
        bytes.extend_from_slice(piece)?;
    }
    let (late, fail) = (Calls::none(alloc), Calls::none(alloc));
    Ok(DialPlan {
        bytes: Text::from_vec(bytes),
        room: 999,
        late,
        fail,
    })
}

// A host that dials the servers, and accepts no client.
fn dialling<R: Machine>(rt: &R, servers: Vec<DialPlan>) -> Mem<MemHost<R>> {
    let alloc = rt.alloc();
    let none = LinkPlans::from_vec(Vec::new(alloc));
    let mut host = host(rt, header(alloc)?, none, 0, 9, 0)?;
    host.set_dials(servers);
    Ok(host)
}

// The status of a run by these words with an input of `length` zeros, if the output and the log gain just these bytes.
fn gains<R: Machine>(
    rt: &R,
    words: &str,
    length: usize,
    host: &mut MemHost<R>,
    gained: (&[u8], &[u8]),
) -> Mem<Option<Status>> {
    let alloc = rt.alloc();
    let input = Text::from_vec(vec![in alloc; 0u8; length]?);
    let mut output = MemSink::new(alloc, 999, Calls::none(alloc))?;
    let mut log = MemSink::new(alloc, 999, Calls::none(alloc))?;
    let status = ended(rt, words, input, &mut output, &mut log, host)?;
    let (listed, line) = gained;
    Ok((output.bytes() == listed && log.bytes() == line).then_some(status))
}

fn answers<R: Machine>(rt: &R, row: &Row) -> Mem<bool> {
    let alloc = rt.alloc();
    let mut servers = Vec::new(alloc);
    servers.push(server(alloc, row.pieces)?)?;
    let mut host = dialling(rt, servers)?;
    Ok(gains(rt, row.words, 256, &mut host, (row.listed, row.line)) == Ok(Some(row.status)))
}

#[test]
fn a_control_client_says_what_the_server_answers(rt: HostRuntime) {
    assert!(rt; ROWS.iter().all(|row| matches!(answers(&rt, row), Ok(true))));
}

// Whether the one link that was taken back was sent bytes that end so.
fn was_sent<R: Machine>(host: &MemHost<R>, last: &[u8]) -> bool {
    match host.hung() {
        [HostLink::Dialled(link)] => link.sent().ends_with(last),
        _ => false,
    }
}

fn sends<R: Machine>(rt: &R) -> Mem<bool> {
    let alloc = rt.alloc();
    let mut servers = Vec::new(alloc);
    servers.push(server(alloc, &[REPLY, NAMED, DONE])?)?;
    let mut host = dialling(rt, servers)?;
    let status = gains(
        rt,
        "ctl --socket s volume 0 32768",
        256,
        &mut host,
        (b"", b""),
    );
    Ok(status == Ok(Some(Fine)) && was_sent(&host, VOLUME))
}

#[test]
fn a_volume_is_sent_byte_for_byte(rt: HostRuntime) {
    assert!(rt; matches!(sends(&rt), Ok(true)));
}

// The length of the input, the status and the log's line, where no server listens.
const ALONE: [(usize, Status, &[u8]); 3] = [
    (256, Host, b"pulse_rw: host failed\n"),
    (255, Refused, b"pulse_rw: refused at 255: cookie\n"),
    (257, Refused, b"pulse_rw: refused at 256: cookie\n"),
];

fn ends_alone<R: Machine>(rt: &R, row: &(usize, Status, &[u8])) -> Mem<bool> {
    let (length, status, line) = *row;
    let mut host = dialling(rt, Vec::new(rt.alloc()))?;
    let gained = gains(rt, "ctl --socket s list", length, &mut host, (b"", line));
    Ok(gained == Ok(Some(status)))
}

#[test]
fn a_control_client_without_a_cookie_or_a_server_says_so(rt: HostRuntime) {
    assert!(rt;
        ALONE
            .iter()
            .all(|row| matches!(ends_alone(&rt, row), Ok(true)))
    );
}
