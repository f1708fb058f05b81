ghost use Rattle.std.specs.Prelude.{IfOk};
ghost use Rattle.px_core_cell.specs.Step.{IsAsked};

use px_cell::CoreStep;
use px_frame::{Body, Frame, Packet};
use px_types::{ConnId, Mem};
use std::alloc::Global;

// AUTH of version 13, up to the cookie.
pub(crate) const AUTH: &[u8] = b"L\0\0\0\x08L\0\0\0\x01L\0\0\0\x0Dx\0\0\x01\0";

// CREATE_PLAYBACK_STREAM on the default sink: S16LE, mono, no prebuffering, the rest left to the server.
pub(crate) const CREATE: &[u8] =
    b"L\0\0\0\x03L\0\0\0\x02a\x03\x01\0\0\xBB\x80m\x01\0L\xFF\xFF\xFF\xFFNL\xFF\xFF\xFF\xFF0L\xFF\xFF\xFF\xFFL\0\0\0\0L\xFF\xFF\xFF\xFFL\0\0\0\0v\x01\0\x01\0\x00000000000PN";

// DRAIN_PLAYBACK_STREAM, up to the last byte of its tag, and what follows it: the client's first stream.
pub(crate) const DRAIN: &[u8] = b"L\0\0\0\x0CL\0\0\0";

pub(crate) const STREAM: &[u8] = b"L\0\0\0\0";

// A frame of a control packet, in two pieces.
pub(crate) fn framed(alloc: Global, conn: ConnId, packet: &[u8], more: &[u8]) -> Mem<CoreStep>
    ensures { IfOk result IsAsked }
{
    let mut bytes = Vec::new(alloc);
    bytes.extend_from_slice(packet)?;
    bytes.extend_from_slice(more)?;
    if bytes.is_empty() || bytes.len() > 400 {
        return Ok(CoreStep::Sweep);
    }
    let body = Body::Control(Packet::from_vec(bytes));
    Ok(CoreStep::Frame(conn, Frame { at: 20, body }))
}
