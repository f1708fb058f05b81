use px_annals::{
    CoreEntry, Entry, LaneEntry, MemRecorder, NoRecorder, PlainBody, PlainMsg, PlainMsgs,
    PlainStep, RecordFault, Recorder,
};
use px_types::{Mem, Text};
use std::alloc::Global;

// Notes a step of 64 bytes where the recorder is ready for it.
fn notes_a_step<R: Recorder<CoreEntry>>(recorder: &mut R) -> Result<(), RecordFault> {
    let step = PlainStep::Sweep;
    recorder.ready(64)?;
    recorder.note(CoreEntry { step });
    Ok(())
}

// A recorder with room for `room` entries and `most` bytes is full after its last entry, or the one that passes its bytes.
fn is_full_at(alloc: Global, room: usize, most: usize, entries: usize) -> Mem<bool> {
    let mut recorder = MemRecorder::new(alloc, room, most)?;
    let mut held = true;
    for _ in 0..entries {
        held = notes_a_step(&mut recorder).is_ok() && held;
    }
    let bytes = entries.saturating_mul(64);
    let full = Err(RecordFault::Full { entries, bytes });
    let there = entries == 0 || recorder.entry(entries - 1).is_some();
    Ok(
        held && there
            && notes_a_step(&mut recorder) == full
            && recorder.ready(0) == full
            && recorder.len() == entries
            && recorder.entry(entries).is_none(),
    )
}

// Room for entries and bytes, and the number of entries until it is full.
const ROOMS: [(usize, usize, usize); 6] = [
    (2, 100, 2),
    (2, 1000, 2),
    (9, 100, 2),
    (1, 64, 1),
    (0, 100, 0),
    (2, 0, 0),
];

#[test]
fn a_recorder_is_full_at_its_last_entry_or_past_its_bytes(rt: HostRuntime) {
    assert!(rt;
        notes_a_step(&mut NoRecorder).is_ok()
            && ROOMS.iter().all(|(room, most, entries)| {
                matches!(is_full_at(rt.alloc(), *room, *most, *entries), Ok(true))
            })
    );
}

// The sizes of a packet of 40 bytes, and of a turn of two messages of which one has three bytes.
fn sizes(alloc: Global) -> Mem<(usize, usize)> {
    let bytes = Text::copied(alloc, &[7; 40])?;
    let body = PlainBody::Control { bytes };
    let step = PlainStep::Frame {
        conn: 1,
        at: 280,
        body,
    };
    let packet = CoreEntry { step }.size();
    let bytes = Text::copied(alloc, b"abc")?;
    let mut messages = Vec::with_capacity(alloc, 2)?;
    messages.push(PlainMsg::Cork { input: 0, on: true })?;
    messages.push(PlainMsg::Write {
        input: 0,
        seek: 0,
        offset: 0,
        frames: 3,
        bytes,
    })?;
    let turn = LaneEntry {
        consumed: Some(4),
        messages: PlainMsgs::from_vec(messages),
    };
    Ok((packet, turn.size()))
}

#[test]
fn a_message_counts_and_so_do_its_bytes(rt: HostRuntime) {
    assert!(rt; sizes(rt.alloc()) == Ok((104, 195)));
}
