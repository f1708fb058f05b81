// The cookie in the input.
ghost use Rattle.std.specs.Prelude.{◌≡◌, length};
ghost use Rattle.px_ctl.specs.Control.{ReadsCookie};

use crate::end::ControlEnd;
use px_ends::{Filled, Source, fill};

/// The bytes of a cookie.
pub(crate) const COOKIE: usize = 256;

/// Reads the cookie that the input must be into the front of a buffer, which has room for one byte more. Takes no memory.
pub(crate) fn read_cookie<S: Source>(input: &mut S, buffer: &mut [u8]) -> Result<(), ControlEnd>
    requires { length buffer.old ≡ 257 }
    ensures size { length buffer.new ≡ 257 }
    ensures read { ReadsCookie result buffer.new (S.left input.old) (S.left input.new) (S.faults input.old) (S.faults input.new) }
{
    match fill(input, buffer) {
        Filled::Full => Err(ControlEnd::Refused(COOKIE)),
        Filled::Ended(length) if length == COOKIE => Ok(()),
        Filled::Ended(length) => Err(ControlEnd::Refused(length)),
        Filled::Failed => Err(ControlEnd::ReadFault),
    }
}
