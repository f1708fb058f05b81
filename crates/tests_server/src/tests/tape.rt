//! A server's tape, replayed.
ghost use Rattle.std.specs.Prelude.{◌≤◌, length, IfOk};

use super::hosts::{Machine, client, ended, hello, host, nothing_sent};
use px_ends::{Calls, MemSink};
use px_mem_host::{LinkPlans, MemHost, Retired, Taken};
use px_types::{Mem, Status, Text};
use std::alloc::Global;

// The bytes that a client is sent up to the reply to its DRAIN: those of AUTH, CREATE_PLAYBACK_STREAM, STARTED and DRAIN_PLAYBACK_STREAM.
const DRAINED: usize = 195;

// A header of two sinks, `out` and `two`, in S16LE, mono, of guard 10 and depth 100.
fn two_sinks(alloc: Global) -> Mem<Text> {
    let mut bytes = Vec::new(alloc);
    bytes.extend_from_slice(b"PRS1")?;
    bytes.extend_from_slice(&[0; 256])?;
    bytes.extend_from_slice(b"\x02")?;
    for name in [b"out", b"two"] {
        bytes.push(3)?;
        bytes.extend_from_slice(name)?;
        bytes.extend_from_slice(b"\x03\x01\0\0\xbb\x80\0\0\0\0\x0a\0\0\0\x64")?;
    }
    Ok(Text::from_vec(bytes))
}

// What a client sends that plays 100 frames of one sample on a sink: AUTH, CREATE_PLAYBACK_STREAM, the frames, and DRAIN_PLAYBACK_STREAM.
fn player(alloc: Global, sink: &[u8], sample: &[u8]) -> Mem<Text> {
    let mut bytes = Vec::new(alloc);
    bytes.extend_from_slice(hello(alloc)?.as_slice())?;
    bytes.extend_from_slice(b"\0\0\0\x49\xff\xff\xff\xff\0\0\0\0\0\0\0\0\0\0\0\0")?;
    bytes.extend_from_slice(b"L\0\0\0\x03L\0\0\0\x01a\x03\x01\0\0\xbb\x80m\x01\0")?;
    bytes.extend_from_slice(b"L\xff\xff\xff\xfft")?;
    bytes.extend_from_slice(sink)?;
    bytes.extend_from_slice(
        b"\0L\xff\xff\xff\xff0L\0\0\x0f\xa0L\0\0\0\0L\0\0\x07\xd0L\xff\xff\xff\xff",
    )?;
    bytes.extend_from_slice(b"v\x01\0\x01\0\x00000000000PN")?;
    bytes.extend_from_slice(b"\0\0\0\xc8\0\0\0\0\0\0\0\0\0\0\0\0\0\0\0\0")?;
    for _ in 0..100u32 {
        bytes.extend_from_slice(sample)?;
    }
    bytes.extend_from_slice(b"\0\0\0\x0f\xff\xff\xff\xff\0\0\0\0\0\0\0\0\0\0\0\0")?;
    bytes.extend_from_slice(b"L\0\0\0\x0cL\0\0\0\x02L\0\0\0\0")?;
    Ok(Text::from_vec(bytes))
}

// Two clients, one a sink, each of which hangs up once it was sent the reply to its DRAIN.
fn clients(alloc: Global) -> Mem<LinkPlans>
    ensures { IfOk result (λ plans. length plans ≤ 65535) }
{
    let mut plans = Vec::new(alloc);
    let first = player(alloc, b"out", b"\xe8\x03")?;
    plans.push(client(alloc, first, DRAINED, 0, nothing_sent(alloc)?)?)?;
    let second = player(alloc, b"two", b"\x30\xf8")?;
    plans.push(client(alloc, second, DRAINED, 0, nothing_sent(alloc)?)?)?;
    Ok(LinkPlans::from_vec(plans))
}

// Whether a run by the words of a line, which writes to this output, ends with Ok.
fn ends_well<R: Machine>(
    rt: &R,
    line: &str,
    input: Text,
    output: &mut MemSink,
    host: &mut MemHost<R>,
) -> Mem<bool> {
    let mut log = MemSink::new(rt.alloc(), 99, Calls::none(rt.alloc()))?;
    let status = ended(rt, line, input, output, &mut log, host);
    status.map(|status| status == Status::Ok)
}

// What a run by the words of a line writes to its output, if it ends with Ok.
fn output_of<R: Machine>(
    rt: &R,
    line: &str,
    input: Text,
    host: &mut MemHost<R>,
) -> Mem<Option<Text>> {
    let mut output = MemSink::new(rt.alloc(), 1_000_000, Calls::none(rt.alloc()))?;
    if ends_well(rt, line, input, &mut output, host)? {
        Text::copied(rt.alloc(), output.bytes()).map(Some)
    } else {
        Ok(None)
    }
}

// What a replay of a tape writes by the words of a line, if it ends with Ok.
fn replayed<R: Machine>(rt: &R, line: &str, tape: Text) -> Mem<Option<Text>> {
    let none = Text::from_vec(Vec::new(rt.alloc()));
    let links = LinkPlans::from_vec(Vec::new(rt.alloc()));
    let mut host = host(rt, none, links, 0, 0, 0)?;
    output_of(rt, line, tape, &mut host)
}

// Whether the tape, replayed, gives the bytes that a sink's device has played, and the client's frames are among them.
fn replays_to<R: Machine>(rt: &R, tape: &Text, line: &str, part: &mut Retired) -> Mem<bool> {
    let copy = Text::copied(rt.alloc(), tape.as_slice())?;
    let Some(raw) = replayed(rt, line, copy)? else {
        return Ok(false);
    };
    let played = part.device.take_played(rt.alloc())?;
    Ok(raw.as_slice() == played.as_slice() && raw.len() >= 200)
}

// Whether the tape, replayed, gives what the devices of two sinks have played.
fn both_replay<R: Machine>(rt: &R, tape: &Text, parts: &mut [Retired]) -> Mem<bool> {
    let [first, second] = parts else {
        return Ok(false);
    };
    Ok(
        replays_to(rt, tape, "replay --raw out", first)?
            && replays_to(rt, tape, "replay --raw two", second)?,
    )
}

// The tape of a server, if it ends with Ok, and what its host took back.
fn taped<R: Machine>(rt: &R, clients: LinkPlans) -> Mem<(Option<Text>, Taken)>
    requires { length clients ≤ 65535 }
{
    let mut host = host(rt, two_sinks(rt.alloc())?, clients, 10, 1_000_000, 0)?;
    let line = "serve --header h --socket s --out o --accept 2 --tape";
    let none = Text::from_vec(Vec::new(rt.alloc()));
    let tape = output_of(rt, line, none, &mut host);
    let taken = host.into_taken();
    tape.map(|tape| (tape, taken))
}

// Two clients of two sinks whose devices consume 10 frames a turn, with a tape.
fn is_replayed<R: Machine>(rt: &R) -> Mem<bool> {
    let (tape, taken) = taped(rt, clients(rt.alloc())?)?;
    let mut parts = taken.parts;
    match tape {
        Some(tape) => both_replay(rt, &tape, parts.as_mut_slice()),
        None => Ok(false),
    }
}

#[test]
fn a_tape_replays_to_what_was_played(rt: HostRuntime) {
    assert!(rt; matches!(is_replayed(&rt), Ok(true)));
}
