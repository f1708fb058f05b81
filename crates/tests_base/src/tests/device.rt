use px_ends::{Device, DeviceFault, DeviceShape, MemDevice};
use px_types::Mem;
use std::alloc::Global;

// Mono in 16 bits, one frame of guard, four of depth.
const SMALL: DeviceShape = DeviceShape {
    frame: 2,
    rate: 48_000,
    guard: 1,
    depth: 4,
};

// An unarmed sync consumes nothing; then a sync of two frames, a put past the guard, and a run of three frames.
fn played(alloc: Global) -> Mem<MemDevice> {
    let mut device = MemDevice::new(alloc, &SMALL)?;
    device.put(0, b"aabbccdd");
    device.sync().unwrap();
    device.arm(2)?;
    device.sync().unwrap();
    device.put(3, b"CCDDEE");
    device.run_on(2, 3)?;
    Ok(device)
}

// Whether just these bytes were played since the last take.
fn gives(alloc: Global, device: &mut MemDevice, bytes: &[u8]) -> bool {
    matches!(device.take_played(alloc), Ok(played) if played.as_slice() == bytes)
}

// Two frames, one more at the end of the run, and none; what was played is taken once, and the device stays stopped.
fn ends(alloc: Global, device: &mut MemDevice) -> bool {
    let run = device.sync() == Ok(4) && device.sync() == Ok(5) && device.sync() == Ok(5);
    device.stop_next();
    let stopped = device.sync() == Err(DeviceFault);
    run && stopped
        && gives(alloc, device, b"aabbccCCDD")
        && gives(alloc, device, b"")
        && device.sync() == Err(DeviceFault)
}

#[test]
fn a_device_in_memory_plays_what_was_put(rt: HostRuntime) -> Mem<()> {
    assert!(rt; ends(rt.alloc(), &mut played(rt.alloc())?));
    Ok(())
}
