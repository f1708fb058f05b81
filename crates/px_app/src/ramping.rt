//! The replay of a recorded session in a world with ramps.

ghost use Rattle.std.specs.Prelude.{◌≡◌, ◌≤◌};
ghost use Rattle.px_app.specs.Ends.{ends_of, log_end};
ghost use Rattle.px_app.specs.Played.{InputPlayed, InputCounted};
ghost use Rattle.px_app.specs.Ramp.{ramp_mode, Ramps};
ghost use Rattle.px_app.specs.Words.{LONGEST_RAMP};

use crate::ending::Ending;
use crate::log::report;
use crate::playing::play;
use crate::ramp_stage::Ramping;
use crate::reading::open;
use px_ends::{Sink, Source};
use px_types::Status;
use std::alloc::Global;

// Plays an input on the stage of a replay with ramps over `ramp` frames.
fn play_ramps<S: Source, K: Sink>(alloc: Global, ramp: u32, input: &mut S, output: &mut K) -> Ending
    requires some { 1 ≤ ramp }
    requires few { ramp ≤ LONGEST_RAMP }
    ensures played { InputPlayed ramp_mode ramp result
        (ends_of (S.left input.old) (S.faults input.old) (K.held output.old) (K.faults output.old))
        (ends_of (S.left input.new) (S.faults input.new) (K.held output.new) (K.faults output.new)) }
    ensures counted { InputCounted result
        (ends_of (S.left input.old) (S.faults input.old) (K.held output.old) (K.faults output.old))
        (ends_of (S.left input.new) (S.faults input.new) (K.held output.new) (K.faults output.new)) }
{
    match open(alloc, input) {
        Ok((reader, header)) => match Ramping::new(alloc, &header, ramp) {
            Ok(stage) => play(alloc, reader, stage, input, output),
            Err(_) => Ending::Memory,
        },
        Err(ended) => ended,
    }
}

/// Replays a recorded session in a world with ramps, where a volume that changes goes evenly to the new one over `ramp` frames, 1 to 65,536: reads it from
/// `input`, plays its events one by one, and writes to `output` a record for each effect and for the frames of each turn, in order, and then the
/// end byte. A status other than `Ok` has its line in `log`; where that line can't be written, the status is `WriteFault`.
///
/// `Refused` is the first rule of sessions that the bytes break, or the first event that names a state which the world hasn't; the log has the offset
/// and the cause, and the output the records of the events before. After `Memory`, `ReadFault` and `WriteFault` the output gained a front of what is
/// shown of the bytes that were read.
pub fn replay_ramp<S: Source, K: Sink, L: Sink>(
    alloc: Global,
    ramp: u32,
    input: &mut S,
    output: &mut K,
    log: &mut L,
) -> Status
    requires some { 1 ≤ ramp }
    requires few { ramp ≤ LONGEST_RAMP }
    ensures { Ramps ramp result
        (ends_of (S.left input.old) (S.faults input.old) (K.held output.old) (K.faults output.old))
        (ends_of (S.left input.new) (S.faults input.new) (K.held output.new) (K.faults output.new))
        (log_end (L.held log.old) (L.faults log.old)) (log_end (L.held log.new) (L.faults log.new)) }
{
    let ended = play_ramps(alloc, ramp, input, output);
    report(alloc, ended, log)
}
