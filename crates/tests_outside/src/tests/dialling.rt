//! A host that dials a server, which is itself.
use px_ends::{Accepted, Connected, HeaderRead, Host, Link, Recv, Sent, ServeOptions};
use px_host::SystemHost;
use px_types::{Mem, Text};
use std::alloc::Global;
use std::{fs, io};

// A host for one client.
fn options(alloc: Global) -> Mem<ServeOptions> {
    Ok(ServeOptions {
        header: Text::copied(alloc, b"dialled/header")?,
        socket: Text::copied(alloc, b"dialled/socket")?,
        out: Text::copied(alloc, b"dialled")?,
        accept: 1,
        memory: false,
    })
}

// Starts the host.
fn starts<H: Host>(alloc: Global, host: &mut H) -> bool {
    let Ok(options) = options(alloc) else {
        return false;
    };
    matches!(host.start(alloc, &options), HeaderRead::Bytes(_))
}

// A link that waits for its peer, and that sends two bytes.
fn waits_and_sends<L: Link>(link: &mut L) -> bool {
    let mut buffer = [0u8; 4];
    link.recv(&mut buffer) == Recv::NotYet && link.send(b"hi") == Sent::Bytes(2)
}

// Dials the socket, and hangs up.
fn dials<H: Host>(alloc: Global, host: &mut H) -> bool {
    match host.connect(alloc, b"dialled/socket") {
        Connected::Link(mut link) => {
            let sent = waits_and_sends(&mut link);
            host.hang_up(link);
            sent
        }
        Connected::NoMemory | Connected::Failed => false,
    }
}

// A link that gives two bytes and then the end.
fn hears<L: Link + Drop>(mut link: L) -> bool {
    let mut buffer = [0u8; 4];
    link.recv(&mut buffer) == Recv::Bytes(2)
        && &buffer[..2] == b"hi".as_slice()
        && link.recv(&mut buffer) == Recv::End
}

// Accepts the client that has gone.
fn accepts<H: Host>(alloc: Global, host: &mut H) -> bool {
    match host.accept(alloc) {
        Accepted::Link(link) => hears(link),
        Accepted::Over | Accepted::NoMemory | Accepted::Failed => false,
    }
}

// What is sent over a dialled link arrives, and then its end; where nobody listens a connect fails.
fn dials_itself<H: Host>(alloc: Global, host: &mut H) -> bool {
    starts(alloc, host)
        && dials(alloc, host)
        && accepts(alloc, host)
        && matches!(host.connect(alloc, b"dialled/nowhere"), Connected::Failed)
}

#[test]
fn a_dialled_link_waits_shortly_sends_and_ends_when_it_is_hung_up(
    rt: HostRuntime,
) -> io::Result<()> {
    fs::create_dir(&rt, "dialled")?;
    fs::write(&rt, "dialled/header", b"PRS1")?;
    let mut host = SystemHost::new(rt.alloc(), rt);
    assert!(rt; dials_itself(rt.alloc(), &mut host));
    Ok(())
}
