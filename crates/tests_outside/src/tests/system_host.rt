use px_ends::{
    Accepted, Device, DeviceShape, HeaderRead, Host, HostFault, Link, Recv, ServeOptions,
};
use px_host::SystemHost;
use px_types::{Mem, Text};
use std::alloc::Global;
use std::io::Write;
use std::os::unix::net::UnixStream;
use std::{fs, io};

// Mono in 16 bits.
const SHAPE: DeviceShape = DeviceShape {
    frame: 2,
    rate: 48_000,
    guard: 10,
    depth: 100,
};

// A host for one client.
fn options(alloc: Global) -> Mem<ServeOptions> {
    Ok(ServeOptions {
        header: Text::copied(alloc, b"header")?,
        socket: Text::copied(alloc, b"socket")?,
        out: Text::copied(alloc, b"sound")?,
        accept: 1,
        memory: true,
    })
}

fn starts<H: Host>(alloc: Global, host: &mut H) -> bool {
    let Ok(options) = options(alloc) else {
        return false;
    };
    matches!(host.start(alloc, &options), HeaderRead::Bytes(text) if text.as_slice() == b"PRS1".as_slice())
}

fn hears<L: Link + Drop>(mut link: L) -> bool {
    let mut buffer = [0u8; 4];
    link.recv(&mut buffer) == Recv::Bytes(2)
        && &buffer[..2] == b"hi".as_slice()
        && link.recv(&mut buffer) == Recv::NotYet
}

// One client is accepted and received from, and no other.
fn accepts<H: Host>(alloc: Global, host: &mut H, client: &UnixStream) -> bool {
    let mut wire = client;
    let written = matches!(wire.write(b"hi"), Ok(2));
    let heard = match host.accept(alloc) {
        Accepted::Link(link) => hears(link),
        Accepted::Over | Accepted::NoMemory | Accepted::Failed => false,
    };
    written && heard && matches!(host.accept(alloc), Accepted::Over)
}

// A device that plays into a file of its sink's name, and a fault for one outside of the folder.
fn makes<H: Host>(alloc: Global, host: &mut H) -> bool {
    let plays = match host.device(alloc, b"front", &SHAPE) {
        Ok(mut device) => device.sync() == Ok(0),
        Err(_) => false,
    };
    let outside = host.device(alloc, b"../front", &SHAPE);
    plays
        && matches!(outside, Err(HostFault::Failed))
        && host.lane_recorder(alloc).is_ok()
        && host.core_recorder(alloc).is_ok()
}

// Serves one client.
fn serves<H: Host>(rt: HostRuntime, host: &mut H) -> io::Result<bool> {
    let started = starts(rt.alloc(), host);
    let client = UnixStream::connect(&rt, "socket")?;
    Ok(started && accepts(rt.alloc(), host, &client) && makes(rt.alloc(), host))
}

// Whether another host starts.
fn another_starts(rt: HostRuntime) -> bool {
    starts(rt.alloc(), &mut SystemHost::new(rt.alloc(), rt))
}

// One client is served, while no other host can start.
fn serves_alone(rt: HostRuntime) -> io::Result<bool> {
    let mut host = SystemHost::new(rt.alloc(), rt);
    let served = serves(rt, &mut host)?;
    Ok(served && !another_starts(rt))
}

// While one host listens no other can, and after it another does.
#[test]
fn a_client_is_heard_a_sink_has_a_file_and_a_stale_socket_is_replaced(
    rt: HostRuntime,
) -> io::Result<()> {
    fs::write(&rt, "header", b"PRS1")?;
    fs::create_dir(&rt, "sound")?;
    let served = serves_alone(rt)?;
    let again = another_starts(rt);
    assert!(rt; served && again && matches!(fs::exists(&rt, "sound/front.raw"), Ok(true)));
    Ok(())
}
