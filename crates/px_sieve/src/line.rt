//! One connection of a sieve.

ghost use Rattle.std.specs.Prelude.{◌≡◌, ◌++◌, [], ◌∷◌, All, map, OnOk, IfSome, Some, length, ◌<◌};
ghost use Rattle.std.specs.List.{AllByRecursion};
ghost use Rattle.px_types.specs.declared.ids.ConnId.{ConnId};
ghost use Rattle.px_frame.specs.Frame.{IsBody};
ghost use Rattle.px_frame.specs.Progress.{GivesBodies};
ghost use Rattle.px_sieve.specs.declared.segment.Segment.TheVariants.{Whole, Faulty};
ghost use Rattle.px_sieve.specs.Sieve.{Heard, heard_more, unheard, first_taken, first_of};
ghost use Rattle.px_sieve.specs.Standing.{Hears, Adds, IsPossible};

use crate::rest::{Rest, go_on};
use crate::segment::Segment;
use px_block::BlockSource;
use px_frame::{Decoder, Frame, FrameError, FrameFault, Frames};
use px_types::{ConnId, Mem, NoMemory, Text};
use std::alloc::Global;
use std::collections::VecDeque;
use std::mem;

/// A connection's number with the decoder of its bytes, and what isn't handed out yet.
#[derive(Drop)]
pub(crate) struct Line {
    pub conn: ConnId,
    pub decoder: Decoder,
    pub rest: Rest,
    pub waiting: VecDeque<Segment>,
    pub let_in: bool,
}

/// A connection that nothing was heard of. Takes no memory.
pub(crate) fn unheard(alloc: Global, conn: ConnId) -> Line
    ensures hears { Hears result (unheard conn) }
    ensures possible { AllByRecursion IsPossible result.waiting.items }
{
    Line {
        conn,
        decoder: Decoder::new(alloc),
        rest: Rest {
            count: 0,
            first: Vec::new(alloc),
        },
        waiting: VecDeque::new(alloc),
        let_in: false,
    }
}

// Appends frames.
fn add_frames(waiting: &mut VecDeque<Segment>, frames: Vec<Frame>) -> Mem<()>
    requires possible { AllByRecursion IsPossible waiting.old.items }
    requires bodies { All (λ f. IsBody f.body) frames.items }
    ensures items { OnOk result (waiting.new.items ≡ waiting.old.items ++ map Whole frames.items) }
    ensures possible { AllByRecursion IsPossible waiting.new.items }
{
    let mut frames = VecDeque::from_vec(frames);
    while let Some(frame) = frames.pop_front() {
        waiting.push_back(Segment::Whole(frame))?;
    }
    Ok(())
}

// Appends frames, and then the descriptor that breaks a rule.
fn add_broken(
    alloc: Global,
    rest: &mut Rest,
    waiting: &mut VecDeque<Segment>,
    frames: Vec<Frame>,
    fault: FrameFault,
    at: u64,
) -> Mem<()>
    requires possible { AllByRecursion IsPossible waiting.old.items }
    requires bodies { All (λ f. IsBody f.body) frames.items }
    ensures items { OnOk result (waiting.new.items ≡ waiting.old.items ++ (map Whole frames.items ++ Faulty rest.old.first.items fault at ∷ [])) }
    ensures possible { AllByRecursion IsPossible waiting.new.items }
{
    add_frames(waiting, frames)?;
    let twenty = Text::from_vec(mem::replace(&mut rest.first, Vec::new(alloc)));
    waiting.push_back(Segment::Faulty { twenty, fault, at })?;
    Ok(())
}

// Adds what a feed of `bytes` gave.
fn add_given(
    alloc: Global,
    rest: &mut Rest,
    waiting: &mut VecDeque<Segment>,
    bytes: &[u8],
    given: Result<Frames, FrameError>,
) -> Mem<()>
    requires possible { AllByRecursion IsPossible waiting.old.items }
    requires bodies { GivesBodies given }
    ensures adds { OnOk result (Adds rest.old waiting.old.items bytes.now given rest.new waiting.new.items) }
    ensures possible { AllByRecursion IsPossible waiting.new.items }
{
    match given {
        Ok(frames) => {
            go_on(rest, alloc, bytes, frames.as_slice())?;
            add_frames(waiting, frames.into_vec())
        }
        Err(FrameError::Fault { frames, fault, at }) => {
            go_on(rest, alloc, bytes, frames.as_slice())?;
            add_broken(alloc, rest, waiting, frames.into_vec(), fault, at)
        }
        Err(FrameError::Failed { fault: _, at: _ }) => Ok(()),
        Err(FrameError::NoMemory) => Err(NoMemory),
    }
}

/// The next bytes of the connection arrive. After an `Err` it isn't used again.
pub(crate) fn hear<B: BlockSource>(
    line: &mut Line,
    alloc: Global,
    bytes: &[u8],
    blocks: &mut B,
) -> Mem<()>
    requires { AllByRecursion IsPossible line.old.waiting.items }
    ensures hears { OnOk result ((h : Heard) → Hears line.old h → Hears line.new (heard_more bytes.now h)) }
    ensures possible { AllByRecursion IsPossible line.new.waiting.items }
    ensures same { line.new.conn ≡ line.old.conn }
{
    let given = line.decoder.feed(bytes, blocks);
    add_given(alloc, &mut line.rest, &mut line.waiting, bytes, given)?;
    Ok(())
}

/// Takes the first segment that waits, with whether the connection is let in. Takes no memory.
pub(crate) fn take_first(line: &mut Line) -> Option<(Segment, bool)>
    requires { AllByRecursion IsPossible line.old.waiting.items }
    ensures hears { (h : Heard) → Hears line.old h → Hears line.new (first_taken h) }
    ensures first { (h : Heard) → Hears line.old h → result ≡ first_of (Some h) }
    ensures possible { AllByRecursion IsPossible line.new.waiting.items }
    ensures segment { IfSome result (λ first. IsPossible first.0) }
    ensures fewer { IfSome result (λ _. length line.new.waiting.items < length line.old.waiting.items) }
{
    match line.waiting.pop_front() {
        Some(segment) => Some((segment, line.let_in)),
        None => None,
    }
}
