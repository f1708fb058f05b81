use super::ends::{Machine, at_once, dripping, trickling};
use px_app::run;
use px_ends::{Calls, MemSink, NoHost, Sink, Source};
use px_types::{Mem, Status};
use std::alloc::Global;

/// A header of one sink `out`, of guard 10 and depth 100, and a client of version 35 that sends AUTH with the cookie, in one event: 590 bytes, and
/// the end byte.
pub fn session(alloc: Global) -> Mem<Vec<u8>> {
    let mut bytes = Vec::new(alloc);
    bytes.extend_from_slice(b"PRS1")?;
    bytes.extend_from_slice(&[0; 256])?;
    bytes.extend_from_slice(b"\x01\x03out\x03\x01\0\0\xbb\x80\0\0\0\0\x0a\0\0\0\x64")?;
    bytes.extend_from_slice(
        b"\x01\0\0\0\x01\x02\0\0\0\x01\0\0\x01\x28\0\0\x01\x14\xff\xff\xff\xff",
    )?;
    bytes.extend_from_slice(
        b"\0\0\0\0\0\0\0\0\0\0\0\0L\0\0\0\x08L\0\0\0\0L\xc0\0\0\x23x\0\0\x01\0",
    )?;
    bytes.extend_from_slice(&[0; 257])?;
    Ok(bytes)
}

// The record of the one reply, and the end byte.
const OUTPUT: &[u8; 45] =
    b"\x01\0\0\0\x01\0\0\0\x23\0\0\0\x0f\xff\xff\xff\xff\0\0\0\0\0\0\0\0\0\0\0\0L\0\0\0\x02L\0\0\0\0L\0\0\0\x12\0";

// The status of a replay of these ends.
fn ended<R: Machine, S: Source, K: Sink, L: Sink>(
    rt: &R,
    input: &mut S,
    output: &mut K,
    log: &mut L,
) -> Mem<Status> {
    let alloc = rt.alloc();
    let mut words = Vec::new(alloc);
    words.push(String::from_str(alloc, "replay")?)?;
    Ok(run(rt, &words, input, output, log, &mut NoHost::new()))
}

// What a run gives: its status, the number of bytes of the output, and the log's line.
type Gives = (Status, usize, &'static [u8]);

// Whether these are the first `length` bytes of `whole`.
fn is_front(bytes: &[u8], whole: &[u8], length: usize) -> bool {
    whole.starts_with(bytes) && bytes.len() == length
}

// Whether a run over this input, with room for the given numbers of bytes in the output and the log, gives that.
fn reads<R: Machine, S: Source>(
    rt: &R,
    input: &mut S,
    rooms: &[usize; 2],
    gives: &Gives,
) -> Mem<bool> {
    let (status, length, line) = *gives;
    let [room, more] = *rooms;
    let mut output = MemSink::new(rt.alloc(), room, Calls::none(rt.alloc()))?;
    let mut log = MemSink::new(rt.alloc(), more, Calls::none(rt.alloc()))?;
    let ended = ended(rt, input, &mut output, &mut log) == Ok(status);
    Ok(ended && is_front(output.bytes(), OUTPUT, length) && log.bytes() == line)
}

// How the input gives its bytes: one a read, or all in one read.
#[derive(Clone, Copy, PartialEq, Eq)]
enum Pieces {
    Bytes,
    Whole,
}

// Whether a run whose read number `read` fails gives that.
fn read_fails<R: Machine>(rt: &R, row: &Row, read: u64) -> Mem<bool> {
    let (pieces, _, rooms, gives) = row;
    let alloc = rt.alloc();
    if *pieces == Pieces::Bytes {
        let mut input = dripping(alloc, session(alloc)?, read)?;
        return reads(rt, &mut input, rooms, gives);
    }
    let mut input = at_once(alloc, session(alloc)?, read)?;
    reads(rt, &mut input, rooms, gives)
}

// Pieces of the input; the numbers of reads, from the first up to the one before the last, each of which fails in a run of its own; the rooms of the
// output and the log; and what the run gives.
type Row = (Pieces, [u64; 2], [usize; 2], Gives);

const READ: &[u8] = b"pulse_rw: read failed\n";

// Each read that is made, of the session's 591 bytes and after the last; the one past it isn't made. The reply of 44 bytes is there once the event of
// AUTH was read whole. Where the pending output can't be written after a read that failed, the status is of the first cause; where the log fails
// within its line, it is `WriteFault`.
const ROWS: [Row; 9] = [
    (Pieces::Bytes, [0, 1], [45, 0], (Status::Ok, 45, b"")),
    (
        Pieces::Bytes,
        [1, 591],
        [45, 99],
        (Status::ReadFault, 0, READ),
    ),
    (
        Pieces::Bytes,
        [591, 593],
        [45, 99],
        (Status::ReadFault, 44, READ),
    ),
    (Pieces::Bytes, [593, 594], [45, 0], (Status::Ok, 45, b"")),
    (
        Pieces::Whole,
        [1, 2],
        [45, 99],
        (Status::ReadFault, 0, READ),
    ),
    (
        Pieces::Whole,
        [2, 3],
        [45, 99],
        (Status::ReadFault, 44, READ),
    ),
    (Pieces::Whole, [3, 4], [45, 0], (Status::Ok, 45, b"")),
    (
        Pieces::Bytes,
        [591, 592],
        [7, 99],
        (Status::ReadFault, 7, READ),
    ),
    (
        Pieces::Bytes,
        [1, 2],
        [45, 9],
        (Status::WriteFault, 0, b"pulse_rw:"),
    ),
];

// Whether each of the row's runs gives what the row says.
fn holds<R: Machine>(rt: &R, row: &Row) -> bool {
    let [first, end] = row.1;
    (first..end).all(|read| matches!(read_fails(rt, row, read), Ok(true)))
}

const WRITE: &[u8] = b"pulse_rw: write failed\n";

// Whether the run gives the first `length` bytes of the output where its writes take `length` bytes in all, in one write or one byte a write, and the
// next one fails.
fn write_fails<R: Machine>(rt: &R, length: usize) -> Mem<bool> {
    let alloc = rt.alloc();
    let gives = (Status::WriteFault, length, WRITE);
    let at_once = reads(
        rt,
        &mut at_once(alloc, session(alloc)?, 0)?,
        &[length, 99],
        &gives,
    )?;
    let mut input = dripping(alloc, session(alloc)?, 0)?;
    let mut output = trickling(alloc, 45, (length as u64).saturating_add(1))?;
    let mut log = MemSink::new(alloc, 99, Calls::none(alloc))?;
    let ended = ended(rt, &mut input, &mut output, &mut log) == Ok(Status::WriteFault);
    Ok(at_once && ended && is_front(output.bytes(), OUTPUT, length) && log.bytes() == WRITE)
}

const TRAILING: &[u8; 35] = b"pulse_rw: refused at 591: trailing\n";

// Whether a run over the session and a byte 0 after its end byte ends with `WriteFault`, and without an end byte, where the log takes the first
// `length` bytes of its line, one a write, and the next write fails.
fn log_fails<R: Machine>(rt: &R, length: usize) -> Mem<bool> {
    let alloc = rt.alloc();
    let mut bytes = session(alloc)?;
    bytes.push(0)?;
    let mut input = at_once(alloc, bytes, 0)?;
    let mut output = MemSink::new(alloc, 45, Calls::none(alloc))?;
    let mut log = trickling(alloc, 35, (length as u64).saturating_add(1))?;
    let ended = ended(rt, &mut input, &mut output, &mut log) == Ok(Status::WriteFault);
    Ok(ended && is_front(output.bytes(), OUTPUT, 44) && is_front(log.bytes(), TRAILING, length))
}

#[test]
fn runs_end_where_a_call_fails(rt: HostRuntime) {
    assert!(rt;
        ROWS.iter().all(|row| holds(&rt, row))
            && (0..45).all(|length| matches!(write_fails(&rt, length), Ok(true)))
            && (0..35).all(|length| matches!(log_fails(&rt, length), Ok(true)))
    );
}
