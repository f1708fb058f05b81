//! The header of a file.
ghost use Rattle.std.specs.Prelude.{◌≡◌, ℕ, List, [], length, None, Ok, IfOk};
ghost use Rattle.px_header.specs.HeaderRules.{IsHeader};
ghost use Rattle.px_app.specs.HeaderFile.{FirstGives, HeaderGives};

use crate::serve::source::FileBytes;
use px_header::Header;
use px_session::{Cause, ReadError, Reader, Step};
use px_types::Text;
use std::alloc::Global;

// Reads the header at the front of a file of these bytes; the error is the first rule that they break. The reader has read nothing before.
fn first_header(reader: &mut Reader, bytes: Text) -> Result<Header, ReadError>
    requires { reader.old ≡ record { at = 0; ahead = []; begun = None } }
    ensures gives { FirstGives result bytes reader.new.at }
    ensures lawful { IfOk result IsHeader }
{
    match reader.next(&mut FileBytes::new(bytes)) {
        Ok(Step::Header(header)) => Ok(header),
        Ok(Step::Event(_)) => unreachable!(),
        Ok(Step::End) => unreachable!(),
        Err(e) => Err(e),
    }
}

// The header, which ends at offset `end` of a file of `size` bytes, where nothing follows it; else the error is `Trailing`.
fn whole(header: Header, end: u64, size: u64) -> Result<Header, ReadError>
    requires { IsHeader header }
    ensures gives { (bytes : List ℕ) → length bytes ≡ size → FirstGives (Ok header) bytes end → HeaderGives result bytes }
    ensures lawful { IfOk result IsHeader }
{
    if end == size {
        Ok(header)
    } else {
        Err(ReadError::Refused {
            at: end,
            cause: Cause::Trailing,
        })
    }
}

/// Reads a header file of these bytes, of either form; the error is the first rule that they break. Bytes after a header are refused at the first of them.
pub fn header_in(alloc: Global, bytes: Text) -> Result<Header, ReadError>
    ensures gives { HeaderGives result bytes }
    ensures lawful { IfOk result IsHeader }
{
    let size = bytes.len() as u64;
    let mut reader = Reader::new(alloc)?;
    match first_header(&mut reader, bytes) {
        Ok(header) => whole(header, reader.at(), size),
        Err(e) => Err(e),
    }
}
