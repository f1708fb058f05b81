// A connection over a socket, to a client or to a server, and its sending half.
ghost use Rattle.std.specs.Prelude.{◌≡◌, ◌<◌, length, None};
ghost use Rattle.px_ends.specs.Links.{SendTakes};

use px_ends::{Link, Outlet, Recv, Sent};
use std::io;
use std::io::{ErrorKind, Read, Write};
use std::net::Shutdown;
use std::os::unix::net::UnixStream;
use std::time::Duration;

/// How long a receive of a client's link waits, in milliseconds: what waits for the client is tried that often.
pub(crate) const PATIENCE: u64 = 100;

// How long it waits, in milliseconds, where other threads send for the client and it was ready for all that they had.
const IDLE: u64 = 1_000;

/// A link over a socket. A call that would block, on a socket that doesn't block or only for a time, finds the link not ready.
#[derive(Drop)]
pub struct UnixLink {
    stream: UnixStream,
    // Whether other threads send for its client, so that a receive waits longer while nothing waits to be sent.
    idles: bool,
    faults: u64,
    ends: u64,
    not_yets: u64,
    fault: Option<io::Error>,
}

/// The sending half of a link, over the link's own socket.
#[derive(Drop)]
pub struct Outgoing {
    stream: UnixStream,
    faults: u64,
    not_yets: u64,
}

// Whether a call would block, or a signal interrupted it: it is made again later.
fn is_waiting(kind: ErrorKind) -> bool {
    matches!(
        kind,
        ErrorKind::WouldBlock | ErrorKind::TimedOut | ErrorKind::Interrupted
    )
}

// Sends a front of `bytes`. A socket that takes none of them has failed; `fault` keeps the system's cause.
fn send(stream: &mut UnixStream, bytes: &[u8], fault: &mut Option<io::Error>) -> Sent
    requires { 0 < length bytes.now }
    ensures { SendTakes result bytes.now None None }
{
    match stream.write(bytes) {
        Ok(count) if count > 0 => Sent::Bytes(count),
        Ok(_) => Sent::Failed,
        Err(error) if is_waiting(error.kind()) => Sent::NotYet,
        Err(error) => {
            *fault = Some(error);
            Sent::Failed
        }
    }
}

// Whether a send of `count` bytes that answered `sent` took all of them.
fn is_whole(sent: Sent, count: usize) -> bool {
    matches!(sent, Sent::Bytes(taken) if taken >= count)
}

// Has receives over the socket wait for this many milliseconds from the next one on, those of its other half too. Where that can't be set, they
// wait as long as before.
fn wait_for(stream: &UnixStream, millis: u64) {
    let _set = stream.set_read_timeout(Some(Duration::from_millis(millis)));
}

impl UnixLink {
    /// A link over a socket, none of whose calls has failed. Takes no memory.
    pub fn new(stream: UnixStream) -> UnixLink
        ensures { (result.faults ≡ 0) × (result.ends ≡ 0) × (result.not_yets ≡ 0) }
    {
        UnixLink {
            stream,
            idles: false,
            faults: 0,
            ends: 0,
            not_yets: 0,
            fault: None,
        }
    }

    // Why its last call that failed did, taken out of it.
    pub(crate) fn take_fault(&mut self) -> Option<io::Error>
        ensures { (self.new.faults ≡ self.old.faults) × (self.new.ends ≡ self.old.ends) × (self.new.not_yets ≡ self.old.not_yets) }
    {
        self.fault.take()
    }

    /// How often its calls failed.
    pub fn faults(&self) -> u64
        ensures { result ≡ self.now.faults }
    {
        self.faults
    }

    /// How often its calls answered the end.
    pub fn ends(&self) -> u64
        ensures { result ≡ self.now.ends }
    {
        self.ends
    }

    /// How often its calls found it not ready.
    pub fn not_yets(&self) -> u64
        ensures { result ≡ self.now.not_yets }
    {
        self.not_yets
    }

    /// The sending half of the link. `None` where the system has no descriptor to spare. Takes no memory.
    pub fn outlet(&self) -> Option<Outgoing> {
        self.outgoing().ok()
    }

    // The sending half of the link, or why there is none.
    pub(crate) fn outgoing(&self) -> io::Result<Outgoing> {
        Ok(Outgoing {
            stream: self.stream.try_clone()?,
            faults: 0,
            not_yets: 0,
        })
    }

    // The sending half of the link, for other threads, or why there is none. From then on a receive waits longer while nothing waits to be sent.
    pub(crate) fn share(&mut self) -> io::Result<Outgoing>
        ensures { (self.new.faults ≡ self.old.faults) × (self.new.ends ≡ self.old.ends) × (self.new.not_yets ≡ self.old.not_yets) }
    {
        let outgoing = self.outgoing()?;
        self.idles = true;
        wait_for(&self.stream, IDLE);
        Ok(outgoing)
    }

    // Sets how long a receive waits, after a send of `count` bytes that answered `sent`.
    fn wait_after(&self, sent: Sent, count: usize) {
        if !self.idles {
            return;
        }
        if is_whole(sent, count) {
            wait_for(&self.stream, IDLE);
        } else {
            wait_for(&self.stream, PATIENCE);
        }
    }
}

impl Link for UnixLink {
    ghost use Rattle.std.specs.Prelude.{None};

    ghost left = { λ _. None };

    ghost sent = { λ _. None };

    ghost counts = { λ l. record { faults = l.faults; ends = l.ends; not_yets = l.not_yets } };

    fn recv(&mut self, buffer: &mut [u8]) -> Recv {
        match self.stream.read(buffer) {
            Ok(0) => {
                self.ends = self.ends.saturating_add(1);
                Recv::End
            }
            Ok(count) => Recv::Bytes(count),
            Err(error) => {
                if is_waiting(error.kind()) {
                    self.not_yets = self.not_yets.saturating_add(1);
                    Recv::NotYet
                } else {
                    self.faults = self.faults.saturating_add(1);
                    self.fault = Some(error);
                    Recv::Failed
                }
            }
        }
    }

    fn send(&mut self, bytes: &[u8]) -> Sent {
        let sent = send(&mut self.stream, bytes, &mut self.fault);
        match sent {
            Sent::Bytes(_) => {}
            Sent::NotYet => self.not_yets = self.not_yets.saturating_add(1),
            Sent::Failed => self.faults = self.faults.saturating_add(1),
        }
        self.wait_after(sent, bytes.len());
        sent
    }
}

impl Outlet for Outgoing {
    ghost use Rattle.std.specs.Prelude.{None};

    ghost sent = { λ _. None };

    ghost counts = { λ o. record { faults = o.faults; ends = 0; not_yets = o.not_yets } };

    fn send(&mut self, bytes: &[u8]) -> Sent {
        let sent = send(&mut self.stream, bytes, &mut None);
        match sent {
            Sent::Bytes(_) => {}
            Sent::NotYet => self.not_yets = self.not_yets.saturating_add(1),
            Sent::Failed => self.faults = self.faults.saturating_add(1),
        }
        // the rest is the link's own worker's to send, which tries at the end of each receive
        if !is_whole(sent, bytes.len()) {
            wait_for(&self.stream, PATIENCE);
        }
        sent
    }

    // A socket that can't be shut is shut already, or its peer has gone.
    fn shut(&mut self) {
        let _shut = self.stream.shutdown(Shutdown::Both);
    }
}
