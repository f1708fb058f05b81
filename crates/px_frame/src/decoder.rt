// The decoder of a connection's bytes.

ghost use Rattle.std.specs.Prelude.{◌≡◌, ℕ, ◌+◌, List, [], ◌∷◌, ◌++◌, ◌↔◌, IfOk, OnOk, length, Some, option_map};
ghost use Rattle.std.specs.Option.{option_to_list};
ghost use Rattle.px_frame.specs.declared.frame.Frame.{Frame};
ghost use Rattle.px_frame.specs.declared.fault.FrameFault.{FrameFault};
ghost use Rattle.px_frame.specs.Frame.{IsBody, offset_at};
ghost use Rattle.px_frame.specs.Progress.{Within, Stopped, Lost, HasFed, Answers, Leaves, GivesBodies, next_start, passed_over};
ghost use Rattle.px_frame.specs.Spelling.{spelling_of, HasNumbers};
ghost use Rattle.px_frame.specs.Run.{IsRun, IsRemaining, answer_of, end_of};
ghost use Rattle.px_frame.specs.Stage.{IsPart, held_of};

use crate::fault::{FrameError, FrameFault};
use crate::frame::{Body, Frame, Frames};
use crate::stage::{Part, Step, advance};
use px_block::{BlockSource, Mem};
use std::alloc::Global;
use std::marker::Model;
use std::mem;

/// The state of a decoder.
#[derive(Drop)]
pub enum Stage {
    /// In a frame.
    Within(Part),
    /// After a fault.
    Failed { fault: FrameFault, at: u64 },
    /// Lost: there was no memory.
    Lost,
}

/// Takes the frames out of one connection's bytes (`do_read` in `pulsecore/pstream.c`). It holds the bytes of at most one frame. A contract
/// sees its state: within a frame, after a fault, or lost.
#[derive(Drop)]
pub struct Decoder {
    alloc: Global,
    start: u64,
    stage: Stage,
}

impl Model for Decoder {
    ghost use Rattle.px_frame.specs.Progress.{Progress};

    ghost Value = { Progress };

    ghost use Rattle.px_frame.specs.Run.{IsStage, progress_of};

    ghost view = { λ d. progress_of d.start d.stage };

    ghost invariant = { λ d. IsStage d.stage };
}

impl Decoder {
    /// A decoder that hasn't been fed yet. Takes no memory.
    pub fn new(alloc: Global) -> Decoder
        ensures value { result ≡ Within 0 [] }
        ensures fed { HasFed result [] [] }
    {
        Decoder {
            alloc,
            start: 0,
            stage: Stage::Within(Part::new()),
        }
    }

    /// Takes the next bytes of the connection, in whatever pieces they come, and gives the frames that are now whole. A `Fault` gives those
    /// before it, with the offset of the word that breaks a rule, and all later bytes are ignored: each later feed answers `Failed` with
    /// the same fault. After `NoMemory` frames may be lost, and each later feed answers it again. Payload bytes are copied once, into a
    /// packet whose room is taken when its descriptor is whole, or into blocks of `blocks`.
    pub fn feed<B: BlockSource>(
        &mut self,
        piece: &[u8],
        blocks: &mut B,
    ) -> Result<Frames, FrameError>
        // For any bytes fed before, and the frames that they gave.
        ensures answers { (fed : List ℕ) (before : List Frame) → HasFed self.old fed before
            → Answers fed before piece.now result }
        ensures leaves { (fed : List ℕ) (before : List Frame) → HasFed self.old fed before
            → Leaves self.new fed before piece.now result }
        // Each frame has 1 to 16,777,216 bytes, and one for a stream has a stream's channel and a known seek mode.
        ensures bodies { GivesBodies result }
        // Answers `Failed` exactly where an earlier feed answered that fault.
        ensures failed { (fault : FrameFault) (at : ℕ) →
            (self.old ≡ Stopped fault at) ↔ (result ≡ Err (FrameError.Failed fault at)) }
        ensures stays { (fault : FrameFault) (at : ℕ) → self.old ≡ Stopped fault at → self.new ≡ self.old }
        ensures lost { self.old ≡ Lost → (result ≡ Err FrameError.NoMemory) × (self.new ≡ Lost) }
    {
        match mem::replace(&mut self.stage, Stage::Lost) {
            Stage::Within(part) => {
                let run = take_piece(self.alloc, part, self.start, piece, blocks)?;
                self.stand(run)
            }
            Stage::Failed { fault, at } => {
                self.stage = Stage::Failed { fault, at };
                Err(FrameError::Failed { fault, at })
            }
            Stage::Lost => Err(FrameError::NoMemory),
        }
    }

    /// Passes over a frame that isn't fed, as if its spelling were, and gives the offset of its payload. `None` where the decoder doesn't stand
    /// between two frames: then nothing changes. Takes no memory.
    pub fn pass_over(&mut self, body: &Body) -> Option<u64>
        requires { IsBody body.now }
        ensures at { result ≡ option_map (λ start. offset_at (start + 20)) (next_start self.old) }
        ensures new { self.new ≡ passed_over (length (spelling_of body.now)) self.old }
        // What a feed of the spelling would give, and leave.
        ensures answers { (at : ℕ) (fed : List ℕ) (before : List Frame) → result ≡ Some at → HasFed self.old fed before
            → Answers fed before (spelling_of body.now) (Ok (record { at = at; body = body.now } ∷ [])) }
        ensures leaves { (at : ℕ) (fed : List ℕ) (before : List Frame) → result ≡ Some at → HasFed self.old fed before
            → Leaves self.new fed before (spelling_of body.now) (Ok (record { at = at; body = body.now } ∷ [])) }
    {
        self.step_over(body)
    }

    // Passes over a frame, and gives the offset of its payload.
    fn step_over(&mut self, body: &Body) -> Option<u64>
        requires { IsBody body.now }
        ensures at { result ≡ option_map (λ start. offset_at (start + 20)) (next_start self.old) }
        ensures new { self.new ≡ passed_over (length (spelling_of body.now)) self.old }
        ensures numbers { HasNumbers body.now }
    {
        let bytes = payload_len(body);
        let Stage::Within(part) = &self.stage else {
            return None;
        };
        if !part.is_new() {
            return None;
        }
        let at = self.start.saturating_add(20);
        self.start = at.saturating_add(bytes);
        Some(at)
    }

    // Takes the state at the end of the run, and answers what it brought.
    fn stand(&mut self, run: Run) -> Result<Frames, FrameError>
        requires { IsRemaining run }
        ensures answer { result ≡ answer_of run }
        ensures stands { self.new ≡ end_of run }
    {
        match run {
            Run::Fed {
                frames,
                part,
                start,
            } => {
                self.start = start;
                self.stage = Stage::Within(part);
                Ok(frames)
            }
            Run::Broken { frames, fault, at } => {
                self.stage = Stage::Failed { fault, at };
                Err(FrameError::Fault { frames, fault, at })
            }
        }
    }
}

// The bytes of a body's payload. Takes no memory.
fn payload_len(body: &Body) -> u64
    requires { IsBody body.now }
    ensures size { 20 + result ≡ length (spelling_of body.now) }
    ensures numbers { HasNumbers body.now }
{
    match body {
        Body::Control(packet) => packet.bytes().len() as u64,
        Body::Write {
            stream,
            offset,
            bytes,
            ..
        } => {
            // their types say what numbers they are
            let _numbers = (*stream, *offset);
            bytes.len() as u64
        }
    }
}

/// The result of a whole piece.
#[derive(Drop)]
pub enum Run {
    /// These frames, and a part of the next, which begins at `start`.
    Fed {
        frames: Frames,
        part: Part,
        start: u64,
    },
    /// These frames, and then a descriptor that breaks a rule.
    Broken {
        frames: Frames,
        fault: FrameFault,
        at: u64,
    },
}

// Takes the whole piece, or what comes before a fault.
fn take_piece<B: BlockSource>(
    alloc: Global,
    part: Part,
    start: u64,
    piece: &[u8],
    source: &mut B,
) -> Mem<Run>
    requires { IsPart part }
    ensures { IfOk result (IsRun start (held_of part) piece.now) }
{
    let mut frames = Frames::new(alloc);
    let mut part = part;
    let mut start = start;
    let mut rest = piece;
    while !rest.is_empty() {
        match advance(alloc, part, start, rest, source)? {
            Step::On {
                part: next,
                start: from,
                taken,
                frame,
            } => {
                part = next;
                start = from;
                rest = &rest[taken..];
                add(&mut frames, frame)?;
            }
            Step::Broken { fault, at } => return Ok(Run::Broken { frames, fault, at }),
        }
    }
    Ok(Run::Fed {
        frames,
        part,
        start,
    })
}

// Appends the frame, if there is one.
fn add(frames: &mut Frames, frame: Option<Frame>) -> Mem<()>
    ensures { OnOk result (frames.new ≡ frames.old ++ option_to_list frame) }
{
    match frame {
        Some(frame) => frames.push(frame),
        None => Ok(()),
    }
}
