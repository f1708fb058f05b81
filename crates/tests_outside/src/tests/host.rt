use px_ends::{Clock, Link, Outlet, Recv, Sent};
use px_host::{SystemClock, UnixLink};
use std::os::unix::net::UnixStream;
use std::thread::Threads;
use std::{io, thread};

// Whether two moments come in order.
fn goes_on<C: Clock>(clock: &mut C) -> bool {
    let first = clock.now();
    first > 0 && first <= clock.now()
}

#[test]
fn the_system_has_a_clock(rt: HostRuntime) {
    assert!(rt; goes_on(&mut SystemClock::new(rt)));
}

const MEBIBYTE: usize = 1_048_576;

// Whether a mebibyte of sevens is sent.
fn sends<L: Link>(link: &mut L) -> bool {
    let mut left = MEBIBYTE;
    for _ in 0..MEBIBYTE {
        if left == 0 {
            return true;
        }
        match link.send(&[7u8; 4096][..left.min(4096)]) {
            Sent::Bytes(count) => left -= count,
            Sent::NotYet | Sent::Failed => return false,
        }
    }
    left == 0
}

// Whether a mebibyte of sevens is received.
fn receives<L: Link>(link: &mut L) -> bool {
    let mut piece = [0u8; 4096];
    let mut left = MEBIBYTE;
    for _ in 0..MEBIBYTE {
        match link.recv(&mut piece) {
            Recv::Bytes(count) if piece[..count].iter().any(|byte| *byte != 7) => return false,
            Recv::Bytes(count) if count < left => left -= count,
            Recv::Bytes(count) => return count == left,
            Recv::End | Recv::NotYet | Recv::Failed => return false,
        }
    }
    false
}

// One end sends and then receives, in a thread of its own, and the other in the opposite order; then the first end is gone.
fn exchange<R: Threads>(rt: &R, near: UnixStream, far: UnixStream) -> bool {
    let (first, second) = thread::join(
        rt,
        move || {
            let mut link = UnixLink::new(near);
            sends(&mut link) && receives(&mut link)
        },
        move || {
            let mut link = UnixLink::new(far);
            let all = receives(&mut link) && sends(&mut link);
            all && link.recv(&mut [0u8; 1]) == Recv::End
        },
    );
    first && second
}

#[test]
fn a_mebibyte_goes_both_ways_through_a_socket(rt: HostRuntime) -> io::Result<()> {
    let (near, far) = UnixStream::pair(&rt)?;
    assert!(rt; exchange(&rt, near, far));
    Ok(())
}

// What a link's outlet sends comes to its peer, and once the outlet is shut both find the end.
fn goes_out(near: UnixStream, far: UnixStream) -> bool {
    let mut link = UnixLink::new(near);
    let mut peer = UnixLink::new(far);
    let mut buffer = [0u8; 4];
    let Some(mut outlet) = link.outlet() else {
        return false;
    };
    let sent = outlet.send(b"hi") == Sent::Bytes(2);
    let came = peer.recv(&mut buffer) == Recv::Bytes(2) && &buffer[..2] == b"hi".as_slice();
    outlet.shut();
    sent && came && peer.recv(&mut buffer) == Recv::End && link.recv(&mut buffer) == Recv::End
}

#[test]
fn a_link_has_an_outlet_that_ends_both(rt: HostRuntime) -> io::Result<()> {
    let (near, far) = UnixStream::pair(&rt)?;
    assert!(rt; goes_out(near, far));
    Ok(())
}
