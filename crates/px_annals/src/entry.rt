//! The entries of the two kinds of histories, and their sizes. No call takes memory.

ghost use Rattle.std.specs.Prelude.{◌≡◌, ◌+◌, List, ◌∷◌};
ghost use Rattle.px_annals.specs.declared.stream.PlainFrame.{PlainFrame};
ghost use Rattle.px_annals.specs.declared.message.PlainMsg.{PlainMsg};
ghost use Rattle.px_annals.specs.Size.{at_most, bytes_of_frames, bytes_of_stream, bytes_of_message, bytes_of_notice, bytes_of_body, bytes_of_step, size_of_messages, size_of_lane_entry, size_of_core_entry};

use crate::message::{PlainMsg, PlainMsgs};
use crate::notice::PlainNotice;
use crate::recorder::Entry;
use crate::step::{PlainBody, PlainStep};
use crate::stream::{PlainFrame, PlainStream};

/// A turn of a sink's mixer: how many frames its sync consumed, `None` where the device is stopped, and the messages that it took.
#[derive(Debug, Drop)]
pub struct LaneEntry {
    pub consumed: Option<u32>,
    pub messages: PlainMsgs,
}

/// A step of the core.
#[derive(Debug, Drop)]
pub struct CoreEntry {
    pub step: PlainStep,
}

// Adds the bytes of one frame to `bytes`.
#[tactic(auto, using(crate::proofs::Size::more_frames))]
fn with_frame(bytes: usize, frame: &PlainFrame) -> usize
    ensures { (more : List PlainFrame) → at_most (result + bytes_of_frames more) ≡ at_most (bytes + bytes_of_frames (frame.now ∷ more)) }
{
    bytes.saturating_add(frame.bytes.len())
}

// The bytes of frames.
fn bytes_of_frames(frames: &[PlainFrame]) -> usize
    ensures { result ≡ at_most (bytes_of_frames frames.now) }
{
    let mut bytes: usize = 0;
    for frame in frames {
        bytes = with_frame(bytes, frame);
    }
    bytes
}

// The bytes of a stream.
fn bytes_of_stream(stream: &PlainStream) -> usize
    ensures { result ≡ at_most (bytes_of_stream stream.now) }
{
    bytes_of_frames(stream.queue.frames.as_slice())
}

// The bytes of a message.
fn bytes_of_message(message: &PlainMsg) -> usize
    ensures { result ≡ at_most (bytes_of_message message.now) }
{
    match message {
        PlainMsg::Attach { parcel, .. } => bytes_of_stream(parcel),
        PlainMsg::Write { bytes, .. } => bytes.len(),
        PlainMsg::New { .. }
        | PlainMsg::Detach { .. }
        | PlainMsg::Cork { .. }
        | PlainMsg::Flush { .. }
        | PlainMsg::Trigger { .. }
        | PlainMsg::Prebuf { .. }
        | PlainMsg::Drain { .. }
        | PlainMsg::Attr { .. }
        | PlainMsg::Factors(_)
        | PlainMsg::Query { .. } => 0,
    }
}

// Adds the size of one message to `bytes`.
#[tactic(auto, using(crate::proofs::Size::more_messages))]
fn with_message(bytes: usize, message: &PlainMsg) -> usize
    ensures { (more : List PlainMsg) → at_most (result + size_of_messages more) ≡ at_most (bytes + size_of_messages (message.now ∷ more)) }
{
    bytes
        .saturating_add(64)
        .saturating_add(bytes_of_message(message))
}

// The size of all messages.
fn size_of_messages(messages: &[PlainMsg]) -> usize
    ensures { result ≡ at_most (size_of_messages messages.now) }
{
    let mut bytes: usize = 0;
    for message in messages {
        bytes = with_message(bytes, message);
    }
    bytes
}

// The bytes of a notice.
fn bytes_of_notice(notice: &PlainNotice) -> usize
    ensures { result ≡ at_most (bytes_of_notice notice.now) }
{
    match notice {
        PlainNotice::Detached { parcel, .. } => bytes_of_stream(parcel),
        PlainNotice::Request { .. }
        | PlainNotice::Overflow { .. }
        | PlainNotice::Underflow { .. }
        | PlainNotice::Started { .. }
        | PlainNotice::Drained { .. }
        | PlainNotice::Latency { .. } => 0,
    }
}

// The bytes of a frame of a connection.
fn bytes_of_body(body: &PlainBody) -> usize
    ensures { result ≡ at_most (bytes_of_body body.now) }
{
    match body {
        PlainBody::Control { bytes } => bytes.len(),
        PlainBody::Write { bytes, .. } => bytes.len(),
    }
}

// The bytes of a step.
fn bytes_of_step(step: &PlainStep) -> usize
    ensures { result ≡ at_most (bytes_of_step step.now) }
{
    match step {
        PlainStep::Frame { body, .. } => bytes_of_body(body),
        PlainStep::Notice { notice, .. } => bytes_of_notice(notice),
        PlainStep::Connect { .. }
        | PlainStep::Broken { .. }
        | PlainStep::Close { .. }
        | PlainStep::Cut { .. }
        | PlainStep::Sweep
        | PlainStep::Out { .. } => 0,
    }
}

impl Entry for LaneEntry {
    ghost bytes = { size_of_lane_entry };

    fn size(&self) -> usize {
        size_of_messages(self.messages.as_slice()).saturating_add(64)
    }
}

impl Entry for CoreEntry {
    ghost bytes = { size_of_core_entry };

    fn size(&self) -> usize {
        bytes_of_step(&self.step).saturating_add(64)
    }
}
