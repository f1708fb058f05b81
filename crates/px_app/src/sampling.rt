//! The replay of a recorded session in a world with a sample cache.

ghost use Rattle.std.specs.Prelude.{◌≡◌};
ghost use Rattle.px_app.specs.Ends.{ends_of, log_end};
ghost use Rattle.px_app.specs.Samples.{sample_mode, Samples};
ghost use Rattle.px_app.specs.Played.{InputPlayed, InputCounted};

use crate::ending::Ending;
use crate::log::report;
use crate::playing::play;
use crate::reading::open;
use crate::sample_stage::Sampling;
use px_ends::{Sink, Source};
use px_types::Status;
use std::alloc::Global;

// Plays an input on the stage of a replay with a sample cache.
fn play_samples<S: Source, K: Sink>(alloc: Global, input: &mut S, output: &mut K) -> Ending
    ensures played { InputPlayed sample_mode tt result
        (ends_of (S.left input.old) (S.faults input.old) (K.held output.old) (K.faults output.old))
        (ends_of (S.left input.new) (S.faults input.new) (K.held output.new) (K.faults output.new)) }
    ensures counted { InputCounted result
        (ends_of (S.left input.old) (S.faults input.old) (K.held output.old) (K.faults output.old))
        (ends_of (S.left input.new) (S.faults input.new) (K.held output.new) (K.faults output.new)) }
{
    match open(alloc, input) {
        Ok((reader, header)) => match Sampling::new(alloc, &header) {
            Ok(stage) => play(alloc, reader, stage, input, output),
            Err(_) => Ending::Memory,
        },
        Err(ended) => ended,
    }
}

/// Replays a recorded session in a world with a sample cache, where clients can upload samples and have them played: reads it from `input`,
/// plays its events one by one, and writes to `output` a record for each effect and for the frames of each turn, in order, and then the end
/// byte. The server plays samples on a connection of its own, 0xFFFFFFFF: nothing on it is written, and events of that number are refused. A
/// status other than `Ok` has its line in `log`; where that line can't be written, the status is `WriteFault`.
///
/// `Refused` is the first rule of sessions that the bytes break, or the first event that names a state which the world hasn't; the log has the offset
/// and the cause, and the output the records of the events before. After `Memory`, `ReadFault` and `WriteFault` the output gained a front of what is
/// shown of the bytes that were read.
pub fn replay_samples<S: Source, K: Sink, L: Sink>(
    alloc: Global,
    input: &mut S,
    output: &mut K,
    log: &mut L,
) -> Status
    ensures { Samples result
        (ends_of (S.left input.old) (S.faults input.old) (K.held output.old) (K.faults output.old))
        (ends_of (S.left input.new) (S.faults input.new) (K.held output.new) (K.faults output.new))
        (log_end (L.held log.old) (L.faults log.old)) (log_end (L.held log.new) (L.faults log.new)) }
{
    let ended = play_samples(alloc, input, output);
    report(alloc, ended, log)
}
