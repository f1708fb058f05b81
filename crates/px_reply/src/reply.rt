//! Replies with one number or none, and errors.

ghost use Rattle.std.specs.Prelude.{◌≡◌, ◌++◌, IfOk};
ghost use Rattle.px_tag.specs.Item.{number};
ghost use Rattle.px_types.specs.ErrorCode.{code_of};
ghost use Rattle.px_reply.specs.Front.{reply_to, refusal};

use px_tag::{Mem, Packet, TagWriter};
use px_types::ErrorCode;
use std::alloc::Global;

// A reply without fields.
pub(crate) fn reply(alloc: Global, tag: u32) -> Mem<TagWriter>
    ensures { IfOk result (λ writer. writer ≡ reply_to tag) }
{
    let mut writer = TagWriter::new(alloc);
    writer.number(2)?;
    writer.number(tag)?;
    Ok(writer)
}

// A reply of one number.
fn of_number(alloc: Global, tag: u32, value: u32) -> Mem<Packet>
    ensures { IfOk result (λ packet. packet ≡ reply_to tag ++ number value) }
{
    let mut writer = reply(alloc, tag)?;
    writer.number(value)?;
    Ok(writer.finish())
}

/// The error with this code, for the command with this tag.
pub fn error(alloc: Global, tag: u32, code: ErrorCode) -> Mem<Packet>
    ensures { IfOk result (λ packet. packet ≡ refusal tag (code_of code)) }
{
    let mut writer = TagWriter::new(alloc);
    writer.number(0)?;
    writer.number(tag)?;
    writer.number(code.code())?;
    Ok(writer.finish())
}

/// A reply without fields.
pub fn plain(alloc: Global, tag: u32) -> Mem<Packet>
    ensures { IfOk result (λ packet. packet ≡ reply_to tag) }
{
    Ok(reply(alloc, tag)?.finish())
}

/// The reply to AUTH: the server's version.
pub fn auth(alloc: Global, tag: u32, version: u32) -> Mem<Packet>
    ensures { IfOk result (λ packet. packet ≡ reply_to tag ++ number version) }
{
    of_number(alloc, tag, version)
}

/// The reply to SET_CLIENT_NAME: the client's index.
pub fn client_index(alloc: Global, tag: u32, client: u32) -> Mem<Packet>
    ensures { IfOk result (λ packet. packet ≡ reply_to tag ++ number client) }
{
    of_number(alloc, tag, client)
}

/// The reply to LOOKUP_SINK: the sink's index.
pub fn sink_index(alloc: Global, tag: u32, sink: u32) -> Mem<Packet>
    ensures { IfOk result (λ packet. packet ≡ reply_to tag ++ number sink) }
{
    of_number(alloc, tag, sink)
}
