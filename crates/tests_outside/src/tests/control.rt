//! A server at a real socket, and control clients of it.
use px_app::run;
use px_ends::{Calls, MemSink, MemSource};
use px_host::SystemHost;
use px_types::Status::{Denied, Ok as Fine};
use px_types::{Mem, Status, Text};
use std::alloc::Global;
use std::fs::File;
use std::io::{Eprint, ErrorKind};
use std::os::unix::net::UnixStream;
use std::rt::{Clock, Files, Net};
use std::sync::Wait;
use std::thread::{Threads, sleep};
use std::time::Duration;
use std::{fs, io, thread};

/// A runtime that the whole program may have.
trait Machine: AllocGlobal
    + Threads
    + Wait
    + Clock
    + Net
    + Files<File = File>
    + Eprint
    + Copy
    + Drop
    + Send
    + Sync
    + 'static {}

impl<R> Machine for R
where
    R: AllocGlobal
        + Threads
        + Wait
        + Clock
        + Net
        + Files<File = File>
        + Eprint
        + Copy
        + Drop
        + Send
        + Sync
        + 'static,
{}

// A server for those who look whether it listens, and for the clients of `CLIENTS`.
const SERVER: &str =
    "serve --header control/header --socket control/socket --out control --accept 6";

// The words of each client, its status, and what its log gains. There are no inputs.
const CLIENTS: [(&str, Status, &[u8]); 5] = [
    ("ctl --socket control/socket list", Fine, b""),
    (
        "ctl --socket control/socket sink-volume out 32768",
        Fine,
        b"",
    ),
    (
        "ctl --socket control/socket sink-volume in 32768",
        Denied,
        b"pulse_rw: server refused 5\n",
    ),
    (
        "ctl --socket control/socket volume 9 1",
        Denied,
        b"pulse_rw: server refused 5\n",
    ),
    (
        "ctl --socket control/socket kill 9",
        Denied,
        b"pulse_rw: server refused 5\n",
    ),
];

// A header of one sink `out`, in S16LE, mono, with a cookie of zeros.
fn header(alloc: Global) -> io::Result<Vec<u8>> {
    let mut bytes = Vec::new(alloc);
    bytes.extend_from_slice(b"PRS1")?;
    bytes.extend_from_slice(&[0; 256])?;
    bytes.extend_from_slice(b"\x01\x03out\x03\x01\0\0\xbb\x80\0\0\0\0\x0a\0\0\0\x64")?;
    Ok(bytes)
}

// Connects and hangs up, again for up to ten seconds until the server listens.
fn listens<R: Net + Clock>(rt: &R) -> io::Result<()> {
    for _ in 0..10_000u32 {
        if UnixStream::connect(rt, "control/socket").is_ok() {
            return Ok(());
        }
        sleep(rt, Duration::from_millis(1));
    }
    Err(io::Error::from(ErrorKind::TimedOut))
}

// The status of a run by the words of a line, with an input of 256 zeros; nothing is to be printed.
fn ended<R: Machine>(rt: &R, line: &str, log: &mut MemSink) -> Mem<Status> {
    let alloc = rt.alloc();
    let mut words = Vec::new(alloc);
    for word in line.split(' ') {
        words.push(String::from_str(alloc, word)?)?;
    }
    let cookie = Text::from_vec(vec![in alloc; 0u8; 256]?);
    let mut input = MemSource::new(cookie, Calls::none(alloc));
    let mut output = MemSink::new(alloc, 0, Calls::none(alloc))?;
    let mut host = SystemHost::new(alloc, *rt);
    Ok(run(rt, &words, &mut input, &mut output, log, &mut host))
}

// Whether a run by these words has this status, and its log gains just this line.
fn ends<R: Machine>(rt: &R, words: &str, status: Status, line: &[u8]) -> Mem<bool> {
    let mut log = MemSink::new(rt.alloc(), 99, Calls::none(rt.alloc()))?;
    let ended = ended(rt, words, &mut log)?;
    Ok(ended == status && log.bytes() == line)
}

// Whether all clients end as they should, once the server listens.
fn all_end<R: Machine>(rt: &R) -> io::Result<bool> {
    listens(rt)?;
    Ok(
        CLIENTS.iter().all(|(words, status, line)| matches!(
            ends(rt, words, *status, line),
            Ok(true)
        )),
    )
}

// The clients in a thread of their own, one after the other, and the server that they have.
#[test]
fn control_clients_have_their_answers_over_a_socket(rt: HostRuntime) -> io::Result<()> {
    let _made = fs::create_dir(&rt, "control");
    fs::write(&rt, "control/header", header(rt.alloc())?)?;
    let (clients, server) = thread::join(
        &rt,
        move || matches!(all_end(&rt), Ok(true)),
        move || ends(&rt, SERVER, Fine, b""),
    );
    assert!(rt; clients && matches!(server, Ok(true)));
    Ok(())
}
