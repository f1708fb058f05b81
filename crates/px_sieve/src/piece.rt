//! The pieces that a sieve hands out.

ghost use Rattle.std.specs.Prelude.{◌≡◌};
ghost use Rattle.px_sieve.specs.Piece.{command_in, is_among, is_own, is_command, is_reply, sorted, asks};
ghost use Rattle.px_sieve.specs.Standing.{IsPossible, IsPossiblePiece};
ghost use Rattle.px_sieve.specs.declared.segment.Segment.TheVariants.{Whole};

use crate::segment::Segment;
use px_cmd::number::AUTH;
use px_frame::{Body, Frame};
use px_tag::TagReader;
use px_types::Text;

// The command of a reply.
const REPLY: u32 = 2;

/// A piece of a connection's bytes, as it is handed out.
#[derive(Debug, Drop)]
pub enum Piece {
    /// A control frame that the world handles.
    Pass(Frame),
    /// The bytes of a descriptor that breaks a rule.
    Broken(Text),
    /// A control frame of one of the mode's own commands, from a connection that is let in.
    Own(Frame),
    /// A data frame.
    Write(Frame),
}

// The command of a control packet. Takes no memory.
fn command_in(packet: &[u8]) -> Option<u32>
    ensures { result ≡ command_in packet.now }
{
    match TagReader::new(packet).number() {
        Ok(command) => Some(command),
        Err(_) => None,
    }
}

// Whether a control packet is the mode's own. Takes no memory.
fn is_own(own: &[u32], let_in: bool, packet: &[u8]) -> bool
    ensures { result ≡ is_own own.now let_in packet.now }
{
    if !let_in {
        return false;
    }
    match command_in(packet) {
        Some(command) => own.contains(&command),
        None => false,
    }
}

// Whether a control packet has this command. Takes no memory.
fn is_command(number: u32, packet: &[u8]) -> bool
    ensures { result ≡ is_command number (command_in packet.now) }
{
    match command_in(packet) {
        Some(command) => command == number,
        None => false,
    }
}

/// Whether a whole frame is a reply. Takes no memory.
pub(crate) fn is_reply(frame: &[u8]) -> bool
    ensures { result ≡ is_reply frame.now }
{
    is_command(REPLY, &frame[frame.len().min(20)..])
}

/// Whether a segment is an AUTH that is passed on. Takes no memory.
pub(crate) fn asks(own: &[u32], let_in: bool, segment: &Segment) -> bool
    ensures { result ≡ asks own.now let_in segment.now }
{
    match segment {
        Segment::Whole(frame) => match &frame.body {
            Body::Control(packet) => {
                is_command(AUTH, packet.bytes()) && !is_own(own, let_in, packet.bytes())
            }
            Body::Write { .. } => false,
        },
        Segment::Faulty { .. } => false,
    }
}

// What becomes of a frame. Takes no memory.
fn sort_frame(own: &[u32], let_in: bool, frame: Frame) -> Piece
    requires { IsPossible (Whole frame) }
    ensures value { result ≡ sorted own.now let_in (Whole frame) }
    ensures possible { IsPossiblePiece result }
{
    match &frame.body {
        Body::Write { .. } => Piece::Write(frame),
        Body::Control(packet) => {
            if is_own(own, let_in, packet.bytes()) {
                Piece::Own(frame)
            } else {
                Piece::Pass(frame)
            }
        }
    }
}

/// What becomes of a segment. Takes no memory.
pub(crate) fn sort(own: &[u32], let_in: bool, segment: Segment) -> Piece
    requires { IsPossible segment }
    ensures value { result ≡ sorted own.now let_in segment }
    ensures possible { IsPossiblePiece result }
{
    match segment {
        Segment::Whole(frame) => sort_frame(own, let_in, frame),
        Segment::Faulty { twenty, .. } => Piece::Broken(twenty),
    }
}
