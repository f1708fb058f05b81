//! The canonical spelling of frames.

ghost use Rattle.std.specs.Prelude.{◌≡◌, ◌<◌, ◌≤◌, ◌^◌, length, IfOk};
ghost use Rattle.px_types.specs.declared.limits.TheConstants.{MAX_PAYLOAD};
ghost use Rattle.px_frame.specs.Frame.{IsBody};
ghost use Rattle.px_frame.specs.Spelling.{spelling_of};

use px_block::Blocks;
use px_frame::{Body, write_data, write_packet};
use px_types::{Mem, NoMemory, Text};
use std::alloc::Global;

// The bytes of blocks, in one list.
fn joined(alloc: Global, blocks: &Blocks) -> Mem<Vec<u8>>
    requires { length blocks.now < 2 ^ 64 }
    ensures { IfOk result (λ bytes. bytes.items ≡ blocks.now) }
{
    let mut bytes = Vec::with_capacity(alloc, blocks.len())?;
    let held = blocks.as_slice();
    for block in held {
        bytes.extend_from_slice(block.bytes())?;
    }
    Ok(bytes)
}

/// The bytes of a frame with this body, with all bits clear that mean nothing.
pub fn spelled(alloc: Global, body: &Body) -> Mem<Text>
    requires { IsBody body.now }
    ensures { IfOk result (λ text. text ≡ spelling_of body.now) }
{
    let frame = match body {
        Body::Control(packet) => write_packet(alloc, packet.bytes()),
        Body::Write {
            stream,
            offset,
            seek,
            bytes,
        } => {
            let bytes = joined(alloc, bytes)?;
            write_data(alloc, *stream, *offset, *seek, bytes.as_slice())
        }
    };
    match frame {
        Ok(frame) => Ok(Text::from_vec(frame.into_vec())),
        Err(_) => Err(NoMemory),
    }
}
