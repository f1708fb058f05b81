//! A client's frames and faults, as events.
ghost use Rattle.std.specs.Prelude.{◌≡◌, ℕ, List, ◌++◌, ◌∷◌, [], IfOk, OnOk, OnErr};
ghost use Rattle.std.specs.List.{concat};
ghost use Rattle.px_block.specs.HeldBlock.{HeldBlock, contents};
ghost use Rattle.px_frame.specs.Frame.{IsBody};
ghost use Rattle.px_frame.specs.Reading.{IsRead, Unfinished, Broken};
ghost use Rattle.px_tape.specs.Tape.{AreOthers, ArePieces, all_bytes};

use crate::events::Events;
use px_block::Block;
use px_frame::{Body, FrameFault, write_data, write_packet};
use px_session::Event;
use px_types::limits::MAX_EVENT_BYTES;
use px_types::{ConnId, Mem, NoMemory, Text};
use std::alloc::Global;

// The bytes of a client as events, split at the most bytes that an event has room for.
fn cut(alloc: Global, conn: ConnId, bytes: &[u8]) -> Mem<Events>
    ensures pieces { IfOk result (ArePieces conn) }
    ensures bytes { IfOk result (λ events. all_bytes events ≡ bytes.now) }
{
    let mut events = Events::new(alloc);
    let mut rest = bytes;
    while !rest.is_empty() {
        let (piece, left) = rest.split_at(rest.len().min(MAX_EVENT_BYTES));
        events.push(Event::Bytes(conn, Text::copied(alloc, piece)?))?;
        rest = left;
    }
    Ok(events)
}

// Appends the bytes of one block.
fn copy_block(bytes: &mut Text, block: &Block) -> Mem<()>
    ensures { OnOk result ((more : List HeldBlock) → bytes.new ++ concat (contents more) ≡ bytes.old ++ concat (contents (block.now ∷ more))) }
{
    bytes.extend(block.bytes())
}

// A copy of the bytes of blocks.
fn copied(alloc: Global, blocks: &[Block]) -> Mem<Text>
    ensures { IfOk result (λ copy. copy ≡ concat (contents blocks.now)) }
{
    let mut bytes = Text::from_vec(Vec::new(alloc));
    for block in blocks {
        copy_block(&mut bytes, block)?;
    }
    Ok(bytes)
}

// The bytes of a frame with this body.
fn spelled(alloc: Global, body: &Body) -> Mem<Text>
    requires { IsBody body.now }
    ensures { IfOk result (λ bytes. IsRead bytes (record { at = 20; body = body.now } ∷ []) Unfinished) }
{
    let packet = match body {
        Body::Control(packet) => write_packet(alloc, packet.bytes()),
        Body::Write {
            stream,
            offset,
            seek,
            bytes,
        } => {
            let bytes = copied(alloc, bytes.as_slice())?;
            write_data(alloc, *stream, *offset, *seek, bytes.as_slice())
        }
    };
    match packet {
        Ok(packet) => Ok(Text::from_vec(packet.into_vec())),
        Err(_) => Err(NoMemory),
    }
}

// The twenty bytes of a descriptor that breaks this rule, and no earlier one.
fn fault_bytes(fault: FrameFault) -> [u8; 20]
    ensures { (at : ℕ) × IsRead result [] (Broken fault at) }
{
    match fault {
        FrameFault::ZeroLength => [0; 20],
        FrameFault::TooLong => [2, 0, 0, 0, 0, 0, 0, 0, 0, 0, 0, 0, 0, 0, 0, 0, 0, 0, 0, 0],
        FrameFault::PacketFlags => [
            0, 0, 0, 1, 255, 255, 255, 255, 0, 0, 0, 0, 0, 0, 0, 0, 0, 0, 0, 1,
        ],
        FrameFault::SharedMemory => [0, 0, 0, 1, 0, 0, 0, 0, 0, 0, 0, 0, 0, 0, 0, 0, 1, 0, 0, 0],
        FrameFault::SeekMode => [0, 0, 0, 1, 0, 0, 0, 0, 0, 0, 0, 0, 0, 0, 0, 0, 0, 0, 0, 4],
    }
}

impl Events {
    /// A client's frame: bytes that are read as one frame with this body, and nothing else.
    pub fn frame(alloc: Global, conn: ConnId, body: &Body) -> Mem<Events>
        requires { IsBody body.now }
        ensures pieces { IfOk result (ArePieces conn) }
        ensures others { IfOk result AreOthers }
        ensures bytes { IfOk result (λ events. IsRead (all_bytes events) (record { at = 20; body = body.now } ∷ []) Unfinished) }
    {
        let bytes = spelled(alloc, body)?;
        cut(alloc, conn, bytes.as_slice())
    }

    /// A fault in a client's bytes: twenty bytes that aren't read as a frame, but end with this fault.
    pub fn fault(alloc: Global, conn: ConnId, fault: FrameFault) -> Mem<Events>
        ensures pieces { IfOk result (ArePieces conn) }
        ensures others { IfOk result AreOthers }
        ensures bytes { IfOk result (λ events. (at : ℕ) × IsRead (all_bytes events) [] (Broken fault at)) }
    {
        cut(alloc, conn, &fault_bytes(fault))
    }
}
