// The socket that a host listens at.
ghost use Rattle.std.specs.Prelude.{◌≡◌, IfOk, string_bytes};

use crate::UnixLink;
use crate::faults::or_print;
use crate::unix_link::PATIENCE;
use std::alloc::Global;
use std::io::{Eprint, ErrorKind};
use std::os::unix::fs::{FileTypeExt, PermissionsExt};
use std::os::unix::net::{UnixListener, UnixStream};
use std::rt::{Files, Net};
use std::time::Duration;
use std::{fs, io};

// The most bytes of a socket's path on Linux.
const MAX_PATH: usize = 107;

// How long a send waits, in milliseconds: the sending worker may hold up others.
const HASTE: u64 = 1;

/// A listener at the socket `path`. What fails is printed on standard error, with the path.
#[derive(Drop)]
pub struct Listening {
    listener: UnixListener,
    path: String,
}

// Removes the socket at `path` if nobody listens there. Otherwise that is a fault.
fn remove_stale<R: Files + Net>(rt: &R, path: &str) -> io::Result<()> {
    match UnixStream::connect(rt, path) {
        Ok(_) => Err(io::Error::new(ErrorKind::AddrInUse, "a server listens there already")),
        Err(error) if error.kind() == ErrorKind::ConnectionRefused => fs::remove_file(rt, path),
        Err(error) => Err(error),
    }
}

// Makes `path` free for a socket. A path that can't be looked at is left to the bind, which fails too if that matters.
fn free<R: Files + Net>(rt: &R, path: &str) -> io::Result<()> {
    match fs::symlink_metadata(rt, path) {
        Ok(found) if found.file_type().is_socket() => remove_stale(rt, path),
        Ok(_) => Err(io::Error::new(ErrorKind::AlreadyExists, "another file is there")),
        Err(_) => Ok(()),
    }
}

// A listener at a path, which is open to its owner alone from then on.
fn listen<R: Files + Net>(rt: &R, path: &str) -> io::Result<UnixListener> {
    if path.len() > MAX_PATH {
        return Err(io::Error::new(
            ErrorKind::InvalidInput,
            "a socket's path has at most 107 bytes",
        ));
    }
    free(rt, path)?;
    let listener = UnixListener::bind(rt, path)?;
    fs::set_permissions(rt, path, fs::Permissions::from_mode(0o600))?;
    Ok(listener)
}

// Accepts a client; no call of its link waits long.
fn connected(listener: &UnixListener) -> io::Result<UnixLink> {
    let (stream, _) = listener.accept()?;
    stream.set_read_timeout(Some(Duration::from_millis(PATIENCE)))?;
    stream.set_write_timeout(Some(Duration::from_millis(HASTE)))?;
    Ok(UnixLink::new(stream))
}

impl Listening {
    /// Listens at a path, which is open to its owner alone from then on. A socket there at which nobody listens is replaced; one at which a server
    /// listens is a fault, and so is any other file.
    pub fn at<R: Files + Net + Eprint>(rt: &R, alloc: Global, path: &str) -> io::Result<Listening>
        ensures { IfOk result (λ listening. string_bytes listening.path ≡ path.now) }
    {
        let listener = or_print(rt, "cannot listen at", path, listen(rt, path))?;
        let path = String::from_str(alloc, path)?;
        Ok(Listening { listener, path })
    }

    /// The path of its socket.
    pub fn path(&self) -> &str
        ensures { result.now ≡ string_bytes self.now.path }
    {
        self.path.as_str()
    }

    /// Accepts a client.
    pub fn accept<R: Eprint>(&self, rt: &R) -> io::Result<UnixLink> {
        let accepted = connected(&self.listener);
        or_print(rt, "cannot accept a client at", self.path(), accepted)
    }
}
