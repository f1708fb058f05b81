use px_ends::{Calls, Device, DeviceFault, DeviceShape, MemClock, MemSink, Moments};
use px_paced::PacedSink;
use px_types::Mem;
use std::alloc::Global;

// Mono in 16 bits, with room for a hundred frames.
const SHAPE: DeviceShape = DeviceShape {
    frame: 2,
    rate: 48_000,
    guard: 10,
    depth: 100,
};

type Paced = PacedSink<MemSink, MemClock>;

const TEN: &[u64] = &[0, 1_000, 10_000];

const ONE: &[u64] = &[0, 1_000];

const MINUTE: &[u64] = &[7, 60_000_007];

const STOP: Result<u64, DeviceFault> = Err(DeviceFault);

// The clock's moments, the sink's room and the number of its write that fails, 0 for none; the result of each sync, the number of bytes written by
// then, and of frames skipped.
type Row = (
    &'static [u64],
    usize,
    u64,
    &'static [Result<u64, DeviceFault>],
    usize,
    u64,
);

// 48 frames are due after a millisecond and 480 after ten, of 100 in the buffer. After a failed sync each fails, and no byte is written.
const ROWS: [Row; 7] = [
    (ONE, 200, 0, &[Ok(0), Ok(48)], 96, 0),
    (TEN, 200, 0, &[Ok(0), Ok(48), Ok(100)], 200, 380),
    (TEN, 200, 0, &[Ok(0), Ok(48), Ok(100), Ok(100)], 200, 380),
    (MINUTE, 200, 0, &[Ok(0), Ok(100), Ok(100)], 200, 2_879_900),
    (TEN, 200, 1, &[Ok(0), STOP, STOP], 0, 0),
    (TEN, 200, 2, &[Ok(0), Ok(48), STOP, STOP], 96, 0),
    (TEN, 150, 0, &[Ok(0), Ok(48), STOP], 150, 0),
];

fn listed(alloc: Global, numbers: &[u64]) -> Mem<Vec<u64>> {
    let mut list = Vec::new(alloc);
    list.extend_from_slice(numbers)?;
    Ok(list)
}

// Bytes with the values of their places.
fn numbers() -> [u8; 200] {
    let mut bytes = [0u8; 200];
    for number in 0..200 {
        bytes[number] = number as u8;
    }
    bytes
}

// Whether the syncs of a device have these results.
fn answers_so(device: &mut Paced, answers: &[Result<u64, DeviceFault>]) -> bool {
    let mut right = true;
    for answer in answers {
        right = device.sync() == *answer && right;
    }
    right
}

// A device with a hundred frames in its buffer, whose bytes have the values of their places.
fn filled(alloc: Global, row: &Row) -> Mem<Paced> {
    let (moments, room, failing, ..) = row;
    let calls = Calls::from_vec(listed(alloc, &[*failing])?);
    let clock = MemClock::new(Moments::from_vec(listed(alloc, moments)?));
    let mut device = PacedSink::new(alloc, &SHAPE, MemSink::new(alloc, *room, calls)?, clock)?;
    device.put(0, &numbers());
    Ok(device)
}

// Whether it plays as in `row`.
fn plays_so(device: &mut Paced, row: &Row) -> bool {
    let (.., answers, written, skipped) = row;
    answers_so(device, answers)
        && numbers().starts_with(device.out().bytes())
        && device.out().bytes().len() == *written
        && device.skipped() == *skipped
}

// Whether a device with a hundred frames in its buffer plays as in `row`.
fn plays(alloc: Global, row: &Row) -> Mem<bool> {
    let mut device = filled(alloc, row)?;
    Ok(plays_so(&mut device, row))
}

#[test]
fn what_is_due_is_played_and_what_is_missing_is_skipped(rt: HostRuntime) {
    assert!(rt;
        ROWS.iter()
            .all(|row| matches!(plays(rt.alloc(), row), Ok(true)))
    );
}
