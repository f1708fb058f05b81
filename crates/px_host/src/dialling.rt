// Connecting to a server's socket.
ghost use Rattle.std.specs.Prelude.{◌≡◌, IfOk};

use crate::UnixLink;
use crate::faults::or_print;
use std::io;
use std::io::Eprint;
use std::os::unix::net::UnixStream;
use std::rt::Net;
use std::time::Duration;

// How long a call of a dialled link waits, in milliseconds: a client that gives up after a number of calls that find it not ready does so in minutes.
const HASTE: u64 = 1;

// Connects to the server at a path.
fn connected<R: Net>(rt: &R, path: &str) -> io::Result<UnixLink>
    ensures { IfOk result (λ link. (link.faults ≡ 0) × (link.ends ≡ 0) × (link.not_yets ≡ 0)) }
{
    let stream = UnixStream::connect(rt, path)?;
    stream.set_read_timeout(Some(Duration::from_millis(HASTE)))?;
    stream.set_write_timeout(Some(Duration::from_millis(HASTE)))?;
    Ok(UnixLink::new(stream))
}

/// Connects to the server that listens at the socket `path`. A call of the link waits 1 ms at most: then the link isn't ready. What fails is printed on
/// standard error, with the path.
pub fn dial<R: Net + Eprint>(rt: &R, path: &str) -> io::Result<UnixLink>
    ensures { IfOk result (λ link. (link.faults ≡ 0) × (link.ends ≡ 0) × (link.not_yets ≡ 0)) }
{
    or_print(rt, "cannot connect to", path, connected(rt, path))
}
