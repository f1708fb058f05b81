//! The two commands of record streams, read from packets.

ghost use Rattle.std.specs.Prelude.{◌≡◌};
ghost use Rattle.px_cmd.specs.Packet.{Answers};
ghost use Rattle.px_monitor.specs.Command.{CREATE, DELETE, request_at};

use crate::fields::{RecordFields, create};
use crate::{CREATE_RECORD_STREAM, DELETE_RECORD_STREAM};
use px_cmd::CmdFault;
use px_tag::TagReader;
use std::alloc::Global;

/// A command of record streams. The stream's number is that in the reply to its CREATE_RECORD_STREAM.
#[derive(Drop)]
pub enum Request {
    Create(RecordFields),
    Delete(u32),
}

// The fields of CREATE_RECORD_STREAM, up to the packet's end.
#[tactic(auto, unfolding(crate::specs::Command::request_at))]
fn read_create(alloc: Global, reader: &mut TagReader, version: u16) -> Result<Request, CmdFault>
    ensures { Answers (λ request. request) result (request_at version CREATE reader.old) }
{
    let whole = create(alloc, reader, version)?;
    reader.end()?;
    Ok(Request::Create(whole.fields))
}

// The field of DELETE_RECORD_STREAM, up to the packet's end.
#[tactic(auto, unfolding(crate::specs::Command::request_at))]
fn read_delete(reader: &mut TagReader, version: u16) -> Result<Request, CmdFault>
    ensures { Answers (λ request. request) result (request_at version DELETE reader.old) }
{
    let stream = reader.number()?;
    reader.end()?;
    Ok(Request::Delete(stream))
}

/// The command with this number, whose fields begin where the reader is and take all that is left of the packet, by the connection's
/// `version`: those below 13 are read as 13, those above 18 as 18. Each other number is `Unsupported`. Takes memory for a name and a
/// property list.
#[tactic(auto, unfolding(crate::specs::Command::request_at))]
pub fn read_request(
    alloc: Global,
    number: u32,
    reader: &mut TagReader,
    version: u16,
) -> Result<Request, CmdFault>
    ensures { Answers (λ request. request) result (request_at version number reader.old) }
{
    match number {
        CREATE_RECORD_STREAM => read_create(alloc, reader, version),
        DELETE_RECORD_STREAM => read_delete(reader, version),
        _ => Err(CmdFault::Unsupported(number)),
    }
}
