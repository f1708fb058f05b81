use px_ends::{
    Calls, Filled, Got, Link, MemLink, MemSink, MemSource, Recv, Sent, Sink, Source, Took, fill,
    write_all,
};
use px_types::{Mem, NoMemory, Text};
use std::alloc::Global;

fn listed(alloc: Global, numbers: &[u64]) -> Mem<Calls> {
    let mut list = Vec::new(alloc);
    list.extend_from_slice(numbers)?;
    Ok(Calls::from_vec(list))
}

// A source of ten bytes whose calls of these numbers fail.
fn ten(alloc: Global, failing: &[u64]) -> Mem<MemSource> {
    let failing = listed(alloc, failing)?;
    Ok(MemSource::new(Text::copied(alloc, b"0123456789")?, failing))
}

// Three bytes, a fault, a buffer of four that is filled, one that the end cuts short, and the end.
fn reads<S: Source>(source: &mut S) -> bool {
    let mut three = [0u8; 3];
    let mut four = [0u8; 4];
    source.read(&mut three) == Got::Bytes(3)
        && three.as_slice() == b"012".as_slice()
        && fill(source, &mut four) == Filled::Failed
        && fill(source, &mut four) == Filled::Full
        && four.as_slice() == b"3456".as_slice()
        && fill(source, &mut four) == Filled::Ended(3)
        && &four[..3] == b"789".as_slice()
        && source.read(&mut four) == Got::End
}

// Room for five bytes: three, a fault, two of three, and then a fault.
fn writes<K: Sink>(sink: &mut K) -> bool {
    sink.write(b"abc") == Took::Bytes(3)
        && write_all(sink, b"def").is_err()
        && sink.write(b"def") == Took::Bytes(2)
        && sink.write(b"f") == Took::Failed
}

#[test]
fn a_source_and_a_sink_go_on_after_a_call_that_failed(rt: HostRuntime) -> Mem<()> {
    let alloc = rt.alloc();
    let read = reads(&mut ten(alloc, &[2])?);
    let mut sink = MemSink::new(alloc, 5, listed(alloc, &[2])?)?;
    assert!(rt; read && writes(&mut sink) && sink.bytes() == b"abcde".as_slice());
    Ok(())
}

// The calls in both directions are counted together: the first fails, the second and the fourth aren't ready.
fn exchanges<L: Link>(link: &mut L) -> bool {
    let mut buffer = [0u8; 8];
    link.recv(&mut buffer) == Recv::Failed
        && link.recv(&mut buffer) == Recv::NotYet
        && link.send(b"abcd") == Sent::Bytes(3)
        && link.send(b"d") == Sent::NotYet
        && link.send(b"d") == Sent::Failed
        && link.recv(&mut buffer) == Recv::Bytes(2)
        && &buffer[..2] == b"hi".as_slice()
        && link.recv(&mut buffer) == Recv::End
}

// A link of two bytes and room for three, late at its calls 2 and 4, which fails at its first.
fn link(alloc: Global) -> Mem<MemLink> {
    let late = listed(alloc, &[1, 2, 4])?;
    let failing = listed(alloc, &[1])?;
    MemLink::new(alloc, Text::copied(alloc, b"hi")?, 3, late, failing)
}

// No memory has `usize::MAX` bytes; the result is `NoMemory`.
fn has_no_room(alloc: Global) -> bool {
    matches!(
        MemSink::new(alloc, usize::MAX, Calls::none(alloc)),
        Err(NoMemory)
    )
}

#[test]
fn a_link_is_late_and_fails_and_goes_on(rt: HostRuntime) -> Mem<()> {
    let mut link = link(rt.alloc())?;
    let exchanged = exchanges(&mut link) && link.sent() == b"abc".as_slice();
    assert!(rt; exchanged && has_no_room(rt.alloc()));
    Ok(())
}
