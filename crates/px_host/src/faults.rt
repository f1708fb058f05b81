// What the host prints of its own faults.
ghost use Rattle.std.specs.Prelude.{◌≡◌};

use std::io;
use std::io::{Eprint, ErrorKind};

/// The same answer. A fault is printed on standard error, in a line with `what` failed, the `path` and the system's cause; want of memory, which is no
/// fault, isn't. A line that can't be written is lost. Takes no memory.
pub fn or_print<T, R: Eprint>(
    rt: &R,
    what: &str,
    path: &str,
    answer: io::Result<T>,
) -> io::Result<T>
    ensures { result ≡ answer }
{
    if let Err(error) = &answer {
        if error.kind() != ErrorKind::OutOfMemory {
            let _lost = eprintln!(rt; "pulse_rw: {what} {path}: {error}");
        }
    }
    answer
}
