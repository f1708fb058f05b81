// Decoding a whole stream, in whatever pieces.

ghost use Rattle.std.specs.Prelude.{ℕ, List, [], ◌++◌, map};
ghost use Rattle.std.specs.List.{concat};
ghost use Rattle.px_frame.specs.Progress.{HasFed, Answers};
ghost use Rattle.px_frame.specs.Reading.{IsRead, Unfinished};
ghost use Rattle.px_frame.specs.Run.{IsBehind, IsSoFar};

use crate::decoder::Decoder;
use crate::fault::FrameError;
use crate::frame::Frames;
use px_block::BlockSource;
use std::alloc::Global;

/// The frames of a stream that comes in these pieces, or with `Fault` those before its first fault; both depend on its bytes alone. It is
/// never `Failed`.
pub fn decode<B: BlockSource>(
    alloc: Global,
    pieces: &[&[u8]],
    blocks: &mut B,
) -> Result<Frames, FrameError>
    ensures { Answers [] [] (concat (map (λ piece. piece.now) pieces.now)) result }
{
    let mut decoder = Decoder::new(alloc);
    feed_all(alloc, &mut decoder, pieces, blocks)
}

// The frames of all these pieces, or the error after some frames.
fn feed_all<B: BlockSource>(
    alloc: Global,
    decoder: &mut Decoder,
    pieces: &[&[u8]],
    blocks: &mut B,
) -> Result<Frames, FrameError>
    requires { HasFed decoder.old [] [] }
    ensures { Answers [] [] (concat (map (λ piece. piece.now) pieces.now)) result }
{
    let mut all = Frames::new(alloc);
    for piece in pieces {
        all = more(decoder, all, piece, blocks)?;
    }
    Ok(all)
}

// The frames so far and those that this piece brings, or the error after them.
fn more<B: BlockSource>(
    decoder: &mut Decoder,
    mut all: Frames,
    piece: &[u8],
    blocks: &mut B,
) -> Result<Frames, FrameError>
    // For any bytes whose frames are those so far.
    ensures { (fed : List ℕ) → HasFed decoder.old fed all → IsRead fed all Unfinished
        → IsSoFar decoder.new (fed ++ piece.now) result }
{
    match decoder.feed(piece, blocks) {
        Ok(frames) => {
            all.append(frames)?;
            Ok(all)
        }
        Err(error) => Err(behind(all, error)),
    }
}

// Puts earlier frames before an error.
fn behind(mut all: Frames, error: FrameError) -> FrameError
    ensures { IsBehind all error result }
{
    match error {
        FrameError::Fault { frames, fault, at } => match all.append(frames) {
            Ok(()) => FrameError::Fault {
                frames: all,
                fault,
                at,
            },
            Err(_) => FrameError::NoMemory,
        },
        other => other,
    }
}
