//! Steps as plain numbers and bytes.

ghost use Rattle.std.specs.Prelude.{◌≡◌, ◌++◌, ◌∷◌, List, IfOk, OnOk};
ghost use Rattle.std.specs.List.{concat};
ghost use Rattle.px_block.specs.HeldBlock.{HeldBlock, contents};
ghost use Rattle.px_core_cell.specs.Plain.{plain_run, plain_notice, plain_body};

use crate::parcel::Carried;
use px_annals::{PlainBody, PlainNotice, PlainRun};
use px_block::Block;
use px_frame::Body;
use px_msg::{Notice, Run};
use px_types::{Mem, Text};
use std::alloc::Global;

// The number of frames that a stream has played or been silent.
fn plain_run(run: Run) -> PlainRun
    ensures { result ≡ plain_run run }
{
    match run {
        Run::Quiet(frames) => PlainRun::Quiet(frames),
        Run::Playing(frames) => PlainRun::Playing(frames),
    }
}

// Appends the bytes of one block.
fn copy_block(bytes: &mut Text, block: &Block) -> Mem<()>
    ensures { OnOk result ((more : List HeldBlock) → bytes.new ++ concat (contents more) ≡ bytes.old ++ concat (contents (block.now ∷ more))) }
{
    bytes.extend(block.bytes())
}

// A copy of the bytes of blocks.
fn copied(alloc: Global, blocks: &[Block]) -> Mem<Text>
    ensures { IfOk result (λ copy. copy ≡ concat (contents blocks.now)) }
{
    let mut bytes = Text::from_vec(Vec::new(alloc));
    for block in blocks {
        copy_block(&mut bytes, block)?;
    }
    Ok(bytes)
}

/// A copy of a frame's body in plain form.
pub(crate) fn plain_body(alloc: Global, body: &Body) -> Mem<PlainBody>
    ensures { IfOk result (λ plain. plain ≡ plain_body body.now) }
{
    match body {
        Body::Control(packet) => Ok(PlainBody::Control {
            bytes: Text::copied(alloc, packet.bytes())?,
        }),
        Body::Write {
            stream,
            offset,
            seek,
            bytes,
        } => Ok(PlainBody::Write {
            stream: *stream,
            offset: *offset,
            seek: *seek,
            bytes: copied(alloc, bytes.as_slice())?,
        }),
    }
}

/// The plain form of a sink's notice.
pub(crate) fn plain_notice(alloc: Global, notice: &Notice<Carried>) -> Mem<PlainNotice>
    ensures { IfOk result (λ plain. plain ≡ plain_notice notice.now) }
{
    match notice {
        Notice::Request { input, frames } => Ok(PlainNotice::Request {
            input: input.0,
            frames: *frames,
        }),
        Notice::Overflow { input } => Ok(PlainNotice::Overflow { input: input.0 }),
        Notice::Underflow { input } => Ok(PlainNotice::Underflow { input: input.0 }),
        Notice::Started { input } => Ok(PlainNotice::Started { input: input.0 }),
        Notice::Drained { input, tag } => Ok(PlainNotice::Drained {
            input: input.0,
            tag: *tag,
        }),
        Notice::Detached { input, parcel } => Ok(PlainNotice::Detached {
            input: input.0,
            parcel: parcel.plain(alloc)?,
        }),
        Notice::Latency {
            input,
            tag,
            write,
            read,
            buffered,
            playing,
            run,
        } => Ok(PlainNotice::Latency {
            input: input.0,
            tag: *tag,
            write: *write,
            read: *read,
            buffered: *buffered,
            playing: *playing,
            run: plain_run(*run),
        }),
    }
}
