// The part of the current frame that has come.

ghost use Rattle.std.specs.Prelude.{◌≡◌, ◌≢◌, ℕ, ◌+◌, ◌<◌, ◌≤◌, List, [], ◌++◌, length, nat_eq, take, IfOk, None};
ghost use Rattle.px_types.specs.declared.limits.TheConstants.{CONTROL_CHANNEL};
ghost use Rattle.px_frame.specs.Descriptor.{broken_rule, descriptor_bytes};
ghost use Rattle.px_frame.specs.Frame.{body_of};
ghost use Rattle.px_frame.specs.Stage.{IsPart, IsStep, IsWhole, held_of};

use crate::descriptor::{DESCRIPTOR_SIZE, Descriptor, fill};
use crate::fault::FrameFault;
use crate::frame::{Body, Frame};
use crate::packet::{Packet, append};
use px_block::{BlockSource, Blocks, Mem};
use px_types::limits::CONTROL_CHANNEL;
use std::alloc::Global;

/// The part of a frame that has come.
#[derive(Drop)]
pub enum Part {
    /// The first bytes of its descriptor, not yet all.
    Head {
        bytes: [u8; 20],
        got: usize,
    },
    /// Its descriptor, and bytes of a control packet, of which some are missing.
    Control {
        descriptor: Descriptor,
        bytes: Vec<u8>,
        missing: usize,
    },
    /// Its descriptor, and bytes for a stream, of which some are missing.
    Write {
        descriptor: Descriptor,
        bytes: Blocks,
        missing: usize,
    },
}

/// The result of taking some bytes.
#[derive(Drop)]
pub enum Step {
    /// `taken` bytes were taken, and at most one frame became whole.
    On {
        part: Part,
        start: u64,
        taken: usize,
        frame: Option<Frame>,
    },
    /// The descriptor breaks a rule.
    Broken {
        fault: FrameFault,
        at: u64,
    },
}

impl Part {
    /// No byte of a frame has come.
    pub fn new() -> Part
        ensures held { held_of result ≡ [] }
        ensures part { IsPart result }
    {
        Part::Head {
            bytes: [0; 20],
            got: 0,
        }
    }

    /// Whether no byte of a frame has come. Takes no memory.
    pub fn is_new(&self) -> bool
        requires { IsPart self.now }
        ensures { result ≡ nat_eq (length (held_of self.now)) 0 }
    {
        match self {
            Part::Head { got, .. } => *got == 0,
            Part::Control { .. } => false,
            Part::Write { .. } => false,
        }
    }
}

/// Takes at least one byte of the piece into the frame that began at `start`.
pub fn advance<B: BlockSource>(
    alloc: Global,
    part: Part,
    start: u64,
    piece: &[u8],
    source: &mut B,
) -> Mem<Step>
    requires part { IsPart part }
    requires some { 0 < length piece.now }
    ensures { IfOk result (IsStep start (held_of part) piece.now) }
{
    match part {
        Part::Head { bytes, got } => head_step(alloc, bytes, got, start, piece),
        Part::Control {
            descriptor,
            bytes,
            missing,
        } => Ok(control_step(descriptor, bytes, missing, start, piece)),
        Part::Write {
            descriptor,
            bytes,
            missing,
        } => write_step(descriptor, bytes, missing, start, piece, source),
    }
}

// Takes bytes of the descriptor.
fn head_step(alloc: Global, mut bytes: [u8; 20], got: usize, start: u64, piece: &[u8]) -> Mem<Step>
    requires got { got < 20 }
    requires some { 0 < length piece.now }
    ensures { IfOk result (IsStep start (take got bytes) piece.now) }
{
    let count = fill(&mut bytes, got, piece);
    let got = got + count;
    if got < DESCRIPTOR_SIZE {
        return Ok(waiting(Part::Head { bytes, got }, start, count));
    }
    let descriptor = Descriptor::from_bytes(&bytes);
    if let Some((fault, place)) = descriptor.broken_rule() {
        let at = start.saturating_add(place);
        return Ok(Step::Broken { fault, at });
    }
    let part = payload_part(alloc, descriptor)?;
    Ok(waiting(part, start, count))
}

// A step that completes no frame.
fn waiting(part: Part, start: u64, taken: usize) -> Step
    ensures { result ≡ Step.On part start taken None }
{
    Step::On {
        part,
        start,
        taken,
        frame: None,
    }
}

// The part with a whole descriptor and no payload. A control packet's room is taken here.
fn payload_part(alloc: Global, descriptor: Descriptor) -> Mem<Part>
    requires { broken_rule descriptor ≡ None }
    ensures part { IfOk result IsPart }
    ensures held { IfOk result (λ part. held_of part ≡ descriptor_bytes descriptor) }
{
    let missing = descriptor.length as usize;
    if descriptor.channel == CONTROL_CHANNEL {
        Ok(Part::Control {
            descriptor,
            bytes: Vec::with_capacity(alloc, missing)?,
            missing,
        })
    } else {
        Ok(Part::Write {
            descriptor,
            bytes: Blocks::new(alloc),
            missing,
        })
    }
}

// Takes bytes of a control packet.
fn control_step(
    descriptor: Descriptor,
    mut bytes: Vec<u8>,
    missing: usize,
    start: u64,
    piece: &[u8],
) -> Step
    requires part { IsPart (Part.Control descriptor bytes missing) }
    requires some { 0 < length piece.now }
    ensures { IsStep start (descriptor_bytes descriptor ++ bytes.items) piece.now result }
{
    let count = piece.len().min(missing);
    append(&mut bytes, &piece[..count]);
    if count < missing {
        let part = Part::Control {
            descriptor,
            bytes,
            missing: missing - count,
        };
        return waiting(part, start, count);
    }
    let body = Body::Control(Packet::from_vec(bytes));
    whole(&descriptor, body, start, count)
}

// Takes bytes for a stream.
fn write_step<B: BlockSource>(
    descriptor: Descriptor,
    mut bytes: Blocks,
    missing: usize,
    start: u64,
    piece: &[u8],
    source: &mut B,
) -> Mem<Step>
    requires part { IsPart (Part.Write descriptor bytes missing) }
    requires some { 0 < length piece.now }
    ensures { IfOk result (IsStep start (descriptor_bytes descriptor ++ bytes) piece.now) }
{
    let most = piece.len().min(missing);
    let count = bytes.put(source, &piece[..most])?;
    if count < missing {
        let part = Part::Write {
            descriptor,
            bytes,
            missing: missing - count,
        };
        return Ok(waiting(part, start, count));
    }
    let body = write_body(&descriptor, bytes);
    Ok(whole(&descriptor, body, start, count))
}

// The body of a frame for a stream. Its bytes hold no more memory than they need.
fn write_body(descriptor: &Descriptor, mut bytes: Blocks) -> Body
    requires { descriptor.now.channel ≢ CONTROL_CHANNEL }
    ensures { result ≡ body_of descriptor.now bytes }
{
    bytes.fit();
    Body::Write {
        stream: descriptor.channel,
        offset: descriptor.byte_offset(),
        seek: descriptor.seek(),
        bytes,
    }
}

// The frame became whole, and the next begins after it.
fn whole(descriptor: &Descriptor, body: Body, start: u64, taken: usize) -> Step
    ensures { IsWhole descriptor.now body start taken result }
{
    let at = start.saturating_add(20);
    Step::On {
        part: Part::new(),
        start: at.saturating_add(u64::from(descriptor.length)),
        taken,
        frame: Some(Frame { at, body }),
    }
}
