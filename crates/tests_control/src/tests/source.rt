use super::steps::{AUTH, CLIENT, Stub, answered, new_core};
use px_core::{Core, Effect, Effects};
use px_names::SourceName;
use px_types::{Mem, NoMemory, Text};
use std::alloc::Global;

// GET_SERVER_INFO with tag 5.
const SERVER_INFO: &[u8] = b"L\0\0\0\x14L\0\0\0\x05";

// The frame of its reply: a payload of 59 bytes in the control channel, with the null string for the default source.
const WITHOUT: &[u8] =
    b"\0\0\0\x3B\xFF\xFF\xFF\xFF\0\0\0\0\0\0\0\0\0\0\0\0L\0\0\0\x02L\0\0\0\x05tpulse_rw\0t1\0tpulse\0tlocalhost\0a\x03\x01\0\0\xBB\x80tout\0NL\0\0\0\0";

// And where the server tells a default source: 8 bytes more.
const WITH: &[u8] =
    b"\0\0\0\x43\xFF\xFF\xFF\xFF\0\0\0\0\0\0\0\0\0\0\0\0L\0\0\0\x02L\0\0\0\x05tpulse_rw\0t1\0tpulse\0tlocalhost\0a\x03\x01\0\0\xBB\x80tout\0tsilence\0L\0\0\0\0";

// The name of a default source.
fn silence(alloc: Global) -> Mem<SourceName> {
    match SourceName::read(Text::copied(alloc, b"silence")?) {
        Some(name) => Ok(name),
        None => Err(NoMemory),
    }
}

// Whether the effects are this frame to the client, and nothing else.
fn are_frame(effects: &Effects, frame: &[u8]) -> bool {
    match effects.as_slice() {
        [
            Effect::Sent {
                conn: CLIENT,
                packet,
            },
        ] => packet.bytes() == frame,
        _ => false,
    }
}

// A client of version 13 authenticates and asks for the server's info: whether it is sent this frame.
fn hears(alloc: Global, core: &mut Core<Stub>, frame: &[u8]) -> Mem<bool> {
    let admitted = core.admit(CLIENT).is_ok() || core.admit(CLIENT).is_ok();
    let accepted = answered(alloc, core, AUTH, &[0; 256])?;
    let effects = answered(alloc, core, SERVER_INFO, b"")?;
    Ok(admitted && accepted.as_slice().len() == 1 && are_frame(&effects, frame))
}

fn is_sent(alloc: Global, source: Option<&SourceName>, frame: &[u8]) -> Mem<bool> {
    let mut core = new_core(alloc, source)?;
    Ok(matches!(hears(alloc, &mut core, frame), Ok(true)))
}

#[test]
fn the_default_source_is_told_where_it_has_a_name(rt: HostRuntime) {
    let alloc = rt.alloc();
    let name = silence(alloc);
    assert!(rt; matches!(is_sent(alloc, None, WITHOUT), Ok(true)));
    assert!(rt; matches!(&name, Ok(name) if matches!(is_sent(alloc, Some(name), WITH), Ok(true))));
}

// Whether these bytes are the name of a source.
fn is_name(alloc: Global, bytes: &[u8]) -> Mem<bool> {
    Ok(SourceName::read(Text::copied(alloc, bytes)?).is_some())
}

// All of these are, or none of them is.
fn are_names(alloc: Global, all: [&[u8]; 2], wanted: bool) -> bool {
    all.iter().all(|bytes| matches!(is_name(alloc, bytes), Ok(is) if is == wanted))
}

#[test]
fn a_name_has_1_to_64_visible_characters(rt: HostRuntime) {
    let alloc = rt.alloc();
    assert!(rt; are_names(alloc, [b"!", &[0x7E; 64]], true));
    assert!(rt; are_names(alloc, [b"", &[0x7E; 65]], false));
    assert!(rt; are_names(alloc, [b"a b", b"a\x7F"], false));
}
