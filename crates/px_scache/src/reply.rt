//! The replies.

ghost use Rattle.std.specs.Prelude.{◌≡◌, ◌++◌, IfOk};
ghost use Rattle.px_tag.specs.Item.{number};
ghost use Rattle.px_reply.specs.Front.{reply_to};
ghost use Rattle.px_scache.specs.Play.{played_reply};

use px_tag::{Mem, Packet, TagWriter};
use std::alloc::Global;

/// The reply to CREATE_UPLOAD_STREAM: the stream's number, the bytes that the sample has.
pub(crate) fn created(alloc: Global, tag: u32, stream: u32, length: u32) -> Mem<Packet>
    ensures { IfOk result (λ packet. packet ≡ reply_to tag ++ number stream ++ number length) }
{
    let mut writer = TagWriter::new(alloc);
    writer.number(2)?;
    writer.number(tag)?;
    writer.number(stream)?;
    writer.number(length)?;
    Ok(writer.finish())
}

/// The reply to PLAY_SAMPLE: the index of the sink input.
pub fn played(alloc: Global, tag: u32, input: u32) -> Mem<Packet>
    ensures { IfOk result (λ packet. packet ≡ played_reply tag input) }
{
    let mut writer = TagWriter::new(alloc);
    writer.number(2)?;
    writer.number(tag)?;
    writer.number(input)?;
    Ok(writer.finish())
}
