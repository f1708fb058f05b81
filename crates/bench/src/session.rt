// A session's events.
use px_ends::{Calls, MemSource, Source};
use px_session::{Event, ReadError, Reader, Step};
use px_types::{Mem, NoMemory, Text};
use std::alloc::Global;

// The bytes of an event.
const PAYLOAD: usize = 65_536;

// A header, a connection that sends `events` events, and the end byte.
fn session(alloc: Global, events: u32) -> Mem<Vec<u8>> {
    let payload = vec![in alloc; 7u8; PAYLOAD]?;
    let mut bytes = Vec::new(alloc);
    bytes.extend_from_slice(b"PRS1")?;
    bytes.extend_from_slice(&[0u8; 256])?;
    bytes.extend_from_slice(
        b"\x01\x03out\x03\x01\x00\x00\xbb\x80\x00\x00\x00\x00\x0a\x00\x00\x00\x64",
    )?;
    bytes.extend_from_slice(b"\x01\x00\x00\x00\x01")?;
    for _ in 0..events {
        bytes.extend_from_slice(b"\x02\x00\x00\x00\x01\x00\x01\x00\x00")?;
        bytes.extend_from_slice(&payload)?;
    }
    bytes.push(0)?;
    Ok(bytes)
}

// A number of events, and of their bytes.
#[derive(Clone, Copy)]
struct Count {
    events: u64,
    bytes: u64,
}

// The count with one more event.
fn counted(before: Count, event: &Event) -> Count {
    let mut count = before;
    count.events = count.events.wrapping_add(1);
    if let Event::Bytes(_, bytes) = event {
        count.bytes = count.bytes.wrapping_add(bytes.len() as u64);
    }
    count
}

// Reads the session to its end, and counts.
fn read<S: Source>(alloc: Global, source: &mut S) -> Result<Count, ReadError> {
    let mut reader = Reader::new(alloc)?;
    let mut count = Count {
        events: 0,
        bytes: 0,
    };
    for _ in 0..u64::MAX {
        match reader.next(source)? {
            Step::Header(_) => {}
            Step::Event(event) => count = counted(count, &event),
            Step::End => break,
        }
    }
    Ok(count)
}

// The counts of a session of `events` events.
fn counts(alloc: Global, events: u32) -> Mem<Count> {
    let session = session(alloc, events)?;
    let mut source = MemSource::new(Text::from_vec(session), Calls::none(alloc));
    match read(alloc, &mut source) {
        Ok(count) => Ok(count),
        Err(_) => Err(NoMemory),
    }
}

/// Reads a session of `events` Bytes events of 64 KiB, made in memory; the line has the numbers of events and bytes. Takes memory.
pub fn session_line(alloc: Global, events: u32) -> Mem<String> {
    let count = counts(alloc, events)?;
    Ok(format!(in alloc; "{} events, {} bytes", count.events, count.bytes)?)
}
