//! The answers to the server's own commands.

ghost use Rattle.std.specs.Prelude.{◌≡◌, ◌∷◌, List, IfOk};
ghost use Rattle.px_cmd.specs.Packet.{head_at, HeadGives};
ghost use Rattle.px_reply.specs.Front.{refusal};
ghost use Rattle.px_state.specs.declared.effect.Effect.{Effect as Done};
ghost use Rattle.px_cache_world.specs.Answered.{packet_in, verdict_of, made_at, refused_at, created_of, or_later, created_by, play_reply, tag_in, HasStream};

use crate::own::is_hidden;
use px_cmd::Head;
use px_state::Effect;
use px_tag::{Packet, TagFault, TagReader, TagWriter};
use px_types::{ErrorCode, Mem, NoMemory};
use std::alloc::Global;

// The commands of an error and of a reply.
const ERROR: u32 = 0;

const REPLY: u32 = 2;

/// The tag of each of the server's own commands but DRAIN, whose tag is the number of its stream. No stream has this number.
pub(crate) const NO_STREAM: u32 = 0xFFFF_FFFF;

/// Whether a packet answers the command with a tag: by a reply, by an error, or not.
#[derive(Clone, Copy, Debug, PartialEq, Eq)]
pub(crate) enum Verdict {
    Replied(u32),
    Failed(u32),
    Other,
}

/// The answer to CREATE_PLAYBACK_STREAM.
#[derive(Clone, Copy, Debug, PartialEq, Eq)]
pub(crate) enum Created {
    /// The stream and its sink input.
    Made { stream: u32, input: u32 },
    /// The code of an error.
    Refused(u32),
    Unanswered,
}

// The command's number and the tag.
#[tactic(auto, unfolding(px_cmd::specs::Packet::head_at))]
fn front(reader: &mut TagReader) -> Result<Head, TagFault>
    ensures { HeadGives (λ head. (head.command, head.tag)) result reader.new (head_at reader.old) }
{
    let command = reader.number()?;
    let tag = reader.number()?;
    Ok(Head { command, tag })
}

// The packet of a whole frame.
fn packet_in(frame: &[u8]) -> &[u8]
    ensures { result.now ≡ packet_in frame.now }
{
    &frame[frame.len().min(20)..]
}

/// What the packet of a whole frame answers. Takes no memory.
#[tactic(auto, unfolding(crate::specs::Answered::verdict_of))]
pub(crate) fn verdict_of(frame: &[u8]) -> Verdict
    ensures { result ≡ verdict_of frame.now }
{
    match front(&mut TagReader::new(packet_in(frame))) {
        Ok(
            Head {
                command: REPLY,
                tag,
            },
        ) => Verdict::Replied(tag),
        Ok(
            Head {
                command: ERROR,
                tag,
            },
        ) => Verdict::Failed(tag),
        _ => Verdict::Other,
    }
}

// The stream and the sink input of the reply.
fn made_at(reader: &mut TagReader) -> Created
    ensures value { result ≡ made_at reader.old }
    ensures stream { HasStream result }
{
    let Ok(stream) = reader.number() else {
        return Created::Unanswered;
    };
    let Ok(input) = reader.number() else {
        return Created::Unanswered;
    };
    if stream == NO_STREAM {
        return Created::Unanswered;
    }
    Created::Made { stream, input }
}

// The code of the error.
fn refused_at(reader: &mut TagReader) -> Created
    ensures value { result ≡ refused_at reader.old }
    ensures stream { HasStream result }
{
    match reader.number() {
        Ok(code) => Created::Refused(code),
        Err(_) => Created::Unanswered,
    }
}

// What the packet of a whole frame answers to CREATE_PLAYBACK_STREAM.
#[tactic(auto, unfolding(crate::specs::Answered::created_of))]
fn created_of(frame: &[u8]) -> Created
    ensures value { result ≡ created_of frame.now }
    ensures stream { HasStream result }
{
    let mut reader = TagReader::new(packet_in(frame));
    match front(&mut reader) {
        Ok(head) => {
            if head.tag != NO_STREAM {
                return Created::Unanswered;
            }
            match head.command {
                REPLY => made_at(&mut reader),
                ERROR => refused_at(&mut reader),
                _ => Created::Unanswered,
            }
        }
        Err(_) => Created::Unanswered,
    }
}

// The answer that an effect is.
fn created_one(effect: &Effect) -> Created
    ensures value { (more : List Done) → created_by (effect.now ∷ more) ≡ or_later result (created_by more) }
    ensures stream { HasStream result }
{
    match effect {
        Effect::Sent { conn, packet } => {
            if is_hidden(*conn) {
                created_of(packet.bytes())
            } else {
                Created::Unanswered
            }
        }
        Effect::Closed { .. } => Created::Unanswered,
    }
}

/// The first answer to CREATE_PLAYBACK_STREAM among effects. Takes no memory.
pub(crate) fn created_by(effects: &[Effect]) -> Created
    ensures value { result ≡ created_by effects.now }
    ensures stream { HasStream result }
{
    for effect in effects {
        match created_one(effect) {
            Created::Unanswered => {}
            created => return created,
        }
    }
    Created::Unanswered
}

// An error with a code.
fn refused(alloc: Global, tag: u32, code: u32) -> px_tag::Mem<Packet>
    ensures { IfOk result (λ packet. packet ≡ refusal tag code) }
{
    let mut writer = TagWriter::new(alloc);
    writer.number(ERROR)?;
    writer.number(tag)?;
    writer.number(code)?;
    Ok(writer.finish())
}

/// What PLAY_SAMPLE is answered: the sink input, or the error. Where the server's own connection was closed instead it is `BadState`.
pub(crate) fn play_reply(alloc: Global, tag: u32, created: Created) -> Mem<Packet>
    ensures { IfOk result (λ packet. packet ≡ play_reply tag created) }
{
    let answer = match created {
        Created::Made { stream: _, input } => px_scache::played(alloc, tag, input),
        Created::Refused(code) => refused(alloc, tag, code),
        Created::Unanswered => px_reply::error(alloc, tag, ErrorCode::BadState),
    };
    match answer {
        Ok(packet) => Ok(packet),
        Err(_) => Err(NoMemory),
    }
}

/// The tag of a client's command. Takes no memory.
#[tactic(auto, unfolding(crate::specs::Answered::tag_in))]
pub(crate) fn tag_in(packet: &[u8]) -> u32
    ensures { result ≡ tag_in packet.now }
{
    match front(&mut TagReader::new(packet)) {
        Ok(head) => head.tag,
        Err(_) => 0,
    }
}
