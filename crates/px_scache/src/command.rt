//! The commands of the sample cache, read from packets.

ghost use Rattle.std.specs.Prelude.{◌≡◌};
ghost use Rattle.px_cmd.specs.Packet.{Answers};
ghost use Rattle.px_scache.specs.Command.{CREATE_UPLOAD, DELETE_UPLOAD, FINISH_UPLOAD, PLAY, REMOVE, request_at};

use crate::fields::{PlayFields, UploadFields, play, text, upload};
use crate::{
    CREATE_UPLOAD_STREAM, DELETE_UPLOAD_STREAM, FINISH_UPLOAD_STREAM, PLAY_SAMPLE, REMOVE_SAMPLE,
};
use px_cmd::{CmdFault, Text};
use px_tag::TagReader;
use std::alloc::Global;

/// A command of the sample cache. The stream's number is that in the reply to its CREATE_UPLOAD_STREAM; the name to remove is `None` for
/// the null string.
#[derive(Drop)]
pub enum Request {
    Upload(UploadFields),
    Delete(u32),
    Finish(u32),
    Play(PlayFields),
    Remove(Option<Text>),
}

// The fields of CREATE_UPLOAD_STREAM, up to the packet's end.
#[tactic(auto, unfolding(crate::specs::Command::request_at))]
fn read_upload(alloc: Global, reader: &mut TagReader) -> Result<Request, CmdFault>
    ensures { Answers (λ request. request) result (request_at CREATE_UPLOAD reader.old) }
{
    let fields = upload(alloc, reader)?;
    reader.end()?;
    Ok(Request::Upload(fields))
}

// The field of DELETE_UPLOAD_STREAM, up to the packet's end.
#[tactic(auto, unfolding(crate::specs::Command::request_at))]
fn read_delete(reader: &mut TagReader) -> Result<Request, CmdFault>
    ensures { Answers (λ request. request) result (request_at DELETE_UPLOAD reader.old) }
{
    let stream = reader.number()?;
    reader.end()?;
    Ok(Request::Delete(stream))
}

// The field of FINISH_UPLOAD_STREAM, up to the packet's end.
#[tactic(auto, unfolding(crate::specs::Command::request_at))]
fn read_finish(reader: &mut TagReader) -> Result<Request, CmdFault>
    ensures { Answers (λ request. request) result (request_at FINISH_UPLOAD reader.old) }
{
    let stream = reader.number()?;
    reader.end()?;
    Ok(Request::Finish(stream))
}

// The fields of PLAY_SAMPLE, up to the packet's end.
#[tactic(auto, unfolding(crate::specs::Command::request_at))]
fn read_play(alloc: Global, reader: &mut TagReader) -> Result<Request, CmdFault>
    ensures { Answers (λ request. request) result (request_at PLAY reader.old) }
{
    let fields = play(alloc, reader)?;
    reader.end()?;
    Ok(Request::Play(fields))
}

// The field of REMOVE_SAMPLE, up to the packet's end.
#[tactic(auto, unfolding(crate::specs::Command::request_at))]
fn read_remove(alloc: Global, reader: &mut TagReader) -> Result<Request, CmdFault>
    ensures { Answers (λ request. request) result (request_at REMOVE reader.old) }
{
    let name = text(alloc, reader)?;
    reader.end()?;
    Ok(Request::Remove(name))
}

/// The command with this number, whose fields begin where the reader is and take all that is left of the packet, at every version of the
/// protocol. Each other number is `Unsupported`. Takes memory for names and a property list.
#[tactic(auto, unfolding(crate::specs::Command::request_at))]
pub fn read_request(alloc: Global, number: u32, reader: &mut TagReader) -> Result<Request, CmdFault>
    ensures { Answers (λ request. request) result (request_at number reader.old) }
{
    match number {
        CREATE_UPLOAD_STREAM => read_upload(alloc, reader),
        DELETE_UPLOAD_STREAM => read_delete(reader),
        FINISH_UPLOAD_STREAM => read_finish(reader),
        PLAY_SAMPLE => read_play(alloc, reader),
        REMOVE_SAMPLE => read_remove(alloc, reader),
        _ => Err(CmdFault::Unsupported(number)),
    }
}
