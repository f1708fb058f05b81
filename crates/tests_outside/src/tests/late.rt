//! A client at a real socket that sends all its requests before it reads.
use px_app::run;
use px_ends::{Calls, MemSink, MemSource};
use px_host::SystemHost;
use px_types::{Mem, Status, Text};
use std::alloc::Global;
use std::fs::File;
use std::io::{Eprint, ErrorKind, Read, Write};
use std::os::unix::net::UnixStream;
use std::rt::{Clock, Files, Net};
use std::sync::Wait;
use std::thread::{Threads, sleep};
use std::time::Duration;
use std::{fs, io, thread};

const LINE: &str = "serve --header late/header --socket late/socket --out late --accept 1";

// The bytes of the client's one property. A list of clients has it, so a socket that is nearly full takes that reply only in part.
const PROPERTY: usize = 60_000;

// The bytes of a long packet that are read before a pause: more than a socket takes in one piece, so that there is room for a piece in it then.
const LONG: usize = 40_000;

// The tags from 2 up to `LISTED` are those of GET_CLIENT_INFO_LIST, those from there up to `ASKED` of GET_SERVER_INFO: more bytes than the buffers
// of a socket hold, so a server that waits until the client reads never gets all of them.
const LISTED: u32 = 42;

const ASKED: u32 = 12_042;

// A header of one sink `out`, in S16LE, mono, of guard 10 and depth 100, with a cookie of zeros.
fn header(alloc: Global) -> io::Result<Vec<u8>> {
    let mut bytes = Vec::new(alloc);
    bytes.extend_from_slice(b"PRS1")?;
    bytes.extend_from_slice(&[0; 256])?;
    bytes.extend_from_slice(b"\x01\x03out\x03\x01\0\0\xbb\x80\0\0\0\0\x0a\0\0\0\x64")?;
    Ok(bytes)
}

// Appends the descriptor of a packet of `length` bytes.
fn add_descriptor(bytes: &mut Vec<u8>, length: u32) -> io::Result<()> {
    bytes.extend_from_slice(&length.to_be_bytes())?;
    bytes.extend_from_slice(b"\xff\xff\xff\xff\0\0\0\0\0\0\0\0\0\0\0\0")?;
    Ok(())
}

// Appends the AUTH of a client of version 13, with tag 0.
fn add_auth(bytes: &mut Vec<u8>) -> io::Result<()> {
    add_descriptor(bytes, 276)?;
    bytes.extend_from_slice(b"L\0\0\0\x08L\0\0\0\0L\0\0\0\x0dx\0\0\x01\0")?;
    bytes.extend_from_slice(&[0; 256])?;
    Ok(())
}

// The value of the client's property: the numbers up to 250, again and again.
fn property(alloc: Global) -> io::Result<Vec<u8>> {
    let mut bytes = Vec::new(alloc);
    let mut byte: u8 = 0;
    for _ in 0..PROPERTY {
        bytes.push(byte)?;
        byte = byte.wrapping_add(1) % 251;
    }
    Ok(bytes)
}

// Appends a SET_CLIENT_NAME with that property, with tag 1.
fn add_naming(alloc: Global, bytes: &mut Vec<u8>) -> io::Result<()> {
    add_descriptor(bytes, 60_025)?;
    bytes.extend_from_slice(b"L\0\0\0\x09L\0\0\0\x01Pta\0L\0\0\xea\x60x\0\0\xea\x60")?;
    bytes.extend_from_slice(property(alloc)?.as_slice())?;
    bytes.push(b'N')?;
    Ok(())
}

// Appends a request that has no more than its command, and this tag.
fn add_request(bytes: &mut Vec<u8>, command: u8, tag: u32) -> io::Result<()> {
    add_descriptor(bytes, 10)?;
    bytes.extend_from_slice(&[b'L', 0, 0, 0, command, b'L'])?;
    bytes.extend_from_slice(&tag.to_be_bytes())?;
    Ok(())
}

// All that the client sends.
fn requests(alloc: Global) -> io::Result<Vec<u8>> {
    let mut bytes = Vec::new(alloc);
    add_auth(&mut bytes)?;
    add_naming(alloc, &mut bytes)?;
    for tag in 2..LISTED {
        add_request(&mut bytes, 28, tag)?;
    }
    for tag in LISTED..ASKED {
        add_request(&mut bytes, 20, tag)?;
    }
    Ok(bytes)
}

// Connects, again for up to ten seconds until the server listens.
fn connected<R: Net + Clock>(rt: &R) -> io::Result<UnixStream> {
    for _ in 0..10_000u32 {
        if let Ok(wire) = UnixStream::connect(rt, "late/socket") {
            return Ok(wire);
        }
        sleep(rt, Duration::from_millis(1));
    }
    Err(io::Error::from(ErrorKind::TimedOut))
}

// Sends all requests. A call that waits for 20 seconds fails.
fn asked<R: Net + Clock>(rt: &R, bytes: &[u8]) -> io::Result<UnixStream> {
    let mut wire = connected(rt)?;
    let most = Some(Duration::from_secs(20));
    wire.set_write_timeout(most)?;
    wire.set_read_timeout(most)?;
    wire.write_all(bytes)?;
    Ok(wire)
}

// The client's end of the socket, with the last packet that came, whose bytes are the first `length` of `body`.
#[derive(Drop)]
struct Replies<R> {
    rt: R,
    wire: UnixStream,
    body: Vec<u8>,
    length: usize,
}

// Fills `body`, a long one with a pause in it, in which the server sends a part of the next packet.
fn fill<R: Clock>(rt: &R, wire: &mut UnixStream, body: &mut [u8]) -> io::Result<()> {
    if body.len() <= LONG {
        return wire.read_exact(body);
    }
    let (front, rest) = body.split_at_mut(LONG);
    wire.read_exact(front)?;
    sleep(rt, Duration::from_millis(5));
    wire.read_exact(rest)
}

// Fills the first `length` bytes of `body`, which must have as many.
fn fill_front<R: Clock>(
    rt: &R,
    wire: &mut UnixStream,
    body: &mut [u8],
    length: usize,
) -> io::Result<()> {
    if length > body.len() {
        return Err(io::Error::from(ErrorKind::InvalidData));
    }
    let (front, _) = body.split_at_mut(length);
    fill(rt, wire, front)
}

impl<R: Clock> Replies<R> {
    // Reads the next packet.
    fn read(&mut self) -> io::Result<()> {
        let mut descriptor = [0u8; 20];
        self.wire.read_exact(&mut descriptor)?;
        let [first, second, third, fourth, ..] = descriptor;
        self.length = u32::from_be_bytes([first, second, third, fourth]) as usize;
        fill_front(
            &self.rt,
            &mut self.wire,
            self.body.as_mut_slice(),
            self.length,
        )
    }

    // What stands in the last packet after its tag, where it is the reply with this one.
    fn content(&self, tag: u32) -> Option<&[u8]> {
        let body = self.body.get(..self.length)?;
        body.strip_prefix(b"L\0\0\0\x02L")?
            .strip_prefix(&tag.to_be_bytes())
    }

    // Whether the next packet is the reply with this tag.
    fn is_next(&mut self, tag: u32) -> io::Result<bool> {
        self.read()?;
        Ok(self.content(tag).is_some())
    }

    // Whether the next packets are the replies with these tags, in order, and have this content.
    fn are_next(&mut self, from: u32, to: u32, content: &[u8]) -> io::Result<bool> {
        for tag in from..to {
            self.read()?;
            if !matches!(self.content(tag), Some(found) if found == content) {
                return Ok(false);
            }
        }
        Ok(true)
    }
}

// Whether `piece` stands in `content`; not where it is empty.
fn stands_in(piece: &[u8], content: &[u8]) -> bool {
    !piece.is_empty() && content.windows(piece.len()).any(|window| window == piece)
}

// Whether the next packets are the replies with the tags from `from` up to `to`, in order, all with the same content, in which `piece` stands.
fn are_same<R: Clock>(
    alloc: Global,
    replies: &mut Replies<R>,
    from: u32,
    to: u32,
    piece: &[u8],
) -> io::Result<bool> {
    if !replies.is_next(from)? {
        return Ok(false);
    }
    let mut content = Vec::new(alloc);
    content.extend_from_slice(replies.content(from).unwrap_or(&[]))?;
    Ok(stands_in(piece, &content) && replies.are_next(from.saturating_add(1), to, &content)?)
}

// Whether all replies come, in order.
fn come<R: Clock>(alloc: Global, replies: &mut Replies<R>) -> io::Result<bool> {
    let property = property(alloc)?;
    Ok(
        replies.is_next(0)?
            && replies.is_next(1)?
            && are_same(alloc, replies, 2, LISTED, &property)?
            && are_same(alloc, replies, LISTED, ASKED, b"tout\0")?,
    )
}

// Whether all replies come to the client at this socket.
fn come_to<R: AllocGlobal + Clock + Copy + Drop>(rt: &R, wire: UnixStream) -> io::Result<bool> {
    let alloc = rt.alloc();
    let body = vec![in alloc; 0u8; 131_072]?;
    let mut replies = Replies {
        rt: *rt,
        wire,
        body,
        length: 0,
    };
    come(alloc, &mut replies)
}

// Whether all replies come to a client that has sent all requests before it reads.
fn reads_late<R: AllocGlobal + Net + Clock + Copy + Drop>(rt: &R) -> io::Result<bool> {
    let bytes = requests(rt.alloc())?;
    let wire = asked(rt, &bytes)?;
    come_to(rt, wire)
}

// The status of a server by these words.
fn status_by<R>(rt: &R, words: &[String], log: &mut MemSink) -> Mem<Status>
where
    R: AllocGlobal
        + Threads
        + Wait
        + Clock
        + Net
        + Files<File = File>
        + Eprint
        + Copy
        + Drop
        + Send
        + Sync
        + 'static,
{
    let alloc = rt.alloc();
    let none = Text::from_vec(Vec::new(alloc));
    let mut input = MemSource::new(none, Calls::none(alloc));
    let mut output = MemSink::new(alloc, 0, Calls::none(alloc))?;
    let mut host = SystemHost::new(alloc, *rt);
    Ok(run(rt, words, &mut input, &mut output, log, &mut host))
}

// The status of a server by the words of `LINE`.
fn served<R>(rt: &R) -> Mem<Status>
where
    R: AllocGlobal
        + Threads
        + Wait
        + Clock
        + Net
        + Files<File = File>
        + Eprint
        + Copy
        + Drop
        + Send
        + Sync
        + 'static,
{
    let mut words = Vec::new(rt.alloc());
    for word in LINE.split(' ') {
        words.push(String::from_str(rt.alloc(), word)?)?;
    }
    let mut log = MemSink::new(rt.alloc(), 99, Calls::none(rt.alloc()))?;
    status_by(rt, &words, &mut log)
}

// A client in a thread of its own, and the server that it has. A folder that is there from an earlier run is used again.
#[test]
fn a_client_that_reads_late_gets_all_replies_whole_and_in_order(rt: HostRuntime) -> io::Result<()> {
    let _made = fs::create_dir(&rt, "late");
    fs::write(&rt, "late/header", header(rt.alloc())?)?;
    let (came, status) = thread::join(
        &rt,
        move || matches!(reads_late(&rt), Ok(true)),
        move || served(&rt),
    );
    assert!(rt; came && status == Ok(Status::Ok));
    Ok(())
}
