// Frames to be sent.

ghost use Rattle.std.specs.Prelude.{◌≡◌, ◌≢◌, ◌+◌, ◌<◌, ◌≤◌, [], ◌∷◌, ◌++◌, length, IfOk, None};
ghost use Rattle.px_types.specs.declared.limits.TheConstants.{MAX_PAYLOAD, CONTROL_CHANNEL};
ghost use Rattle.px_frame.specs.declared.frame.Body.TheVariants.{Control, Write};
ghost use Rattle.px_frame.specs.Descriptor.{descriptor_bytes, control_descriptor, data_descriptor};
ghost use Rattle.px_frame.specs.Reading.{IsRead, Unfinished};

use crate::descriptor::{DESCRIPTOR_SIZE, Descriptor};
use crate::packet::{Packet, append};
use px_block::Mem;
use px_types::limits::CONTROL_CHANNEL;
use std::alloc::Global;

/// The frame of a control packet (`pa_pstream_send_packet`): a descriptor on channel 0xFFFFFFFF with offset and
/// flags 0, and these 1 to 16,777,216 bytes.
pub fn write_packet(alloc: Global, bytes: &[u8]) -> Mem<Packet>
    requires some { 0 < length bytes.now }
    requires few { length bytes.now ≤ MAX_PAYLOAD }
    ensures spelling { IfOk result (λ packet. packet
        ≡ descriptor_bytes (control_descriptor (length bytes.now)) ++ bytes.now) }
    ensures frame { IfOk result (λ packet.
        IsRead packet (record { at = 20; body = Control bytes.now } ∷ []) Unfinished) }
{
    let descriptor = Descriptor {
        length: bytes.len() as u32,
        channel: CONTROL_CHANNEL,
        offset_high: 0,
        offset_low: 0,
        flags: 0,
    };
    framed(alloc, &descriptor, bytes)
}

/// The frame of a write to a stream (`pa_pstream_send_memblock`): 1 to 16,777,216 bytes, for a stream other than 0xFFFFFFFF, with a byte
/// offset from the origin of the seek mode, 0 to 3.
pub fn write_data(alloc: Global, stream: u32, offset: i64, seek: u8, bytes: &[u8]) -> Mem<Packet>
    requires some { 0 < length bytes.now }
    requires few { length bytes.now ≤ MAX_PAYLOAD }
    requires channel { stream ≢ CONTROL_CHANNEL }
    requires mode { seek ≤ 3 }
    ensures spelling { IfOk result (λ packet. packet
        ≡ descriptor_bytes (data_descriptor (length bytes.now) stream offset seek) ++ bytes.now) }
    ensures frame { IfOk result (λ packet.
        IsRead packet (record { at = 20; body = Write stream offset seek bytes.now } ∷ []) Unfinished) }
{
    let bits = offset.cast_unsigned();
    let descriptor = Descriptor {
        length: bytes.len() as u32,
        channel: stream,
        offset_high: (bits / (1 << 32)) as u32,
        offset_low: (bits % (1 << 32)) as u32,
        flags: u32::from(seek),
    };
    framed(alloc, &descriptor, bytes)
}

// A descriptor and its payload.
fn framed(alloc: Global, descriptor: &Descriptor, payload: &[u8]) -> Mem<Packet>
    requires { length payload.now ≤ MAX_PAYLOAD }
    ensures { IfOk result (λ packet. packet ≡ descriptor_bytes descriptor.now ++ payload.now) }
{
    let mut bytes = Vec::with_capacity(alloc, DESCRIPTOR_SIZE + payload.len())?;
    append(&mut bytes, &descriptor.length.to_be_bytes());
    append(&mut bytes, &descriptor.channel.to_be_bytes());
    append(&mut bytes, &descriptor.offset_high.to_be_bytes());
    append(&mut bytes, &descriptor.offset_low.to_be_bytes());
    append(&mut bytes, &descriptor.flags.to_be_bytes());
    append(&mut bytes, payload);
    Ok(Packet::from_vec(bytes))
}
