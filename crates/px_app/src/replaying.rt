//! The replay of a recorded session.

ghost use Rattle.std.specs.Prelude.{◌≡◌};
ghost use Rattle.px_app.specs.Ends.{ends_of, log_end};
ghost use Rattle.px_app.specs.Played.{InputPlayed, InputCounted};
ghost use Rattle.px_app.specs.Replay.{Replays};
ghost use Rattle.px_app.specs.View.{shown_of, replay_mode};

use crate::ending::Ending;
use crate::log::report;
use crate::playing::play;
use crate::reading::open;
use crate::replay_stage::Replaying;
use crate::view::View;
use px_ends::{Sink, Source};
use px_types::Status;
use std::alloc::Global;

// Plays an input on the stage of a replay.
fn play_view<S: Source, K: Sink>(
    alloc: Global,
    view: View<'_>,
    input: &mut S,
    output: &mut K,
) -> Ending
    ensures played { InputPlayed replay_mode (shown_of view.entry) result
        (ends_of (S.left input.old) (S.faults input.old) (K.held output.old) (K.faults output.old))
        (ends_of (S.left input.new) (S.faults input.new) (K.held output.new) (K.faults output.new)) }
    ensures counted { InputCounted result
        (ends_of (S.left input.old) (S.faults input.old) (K.held output.old) (K.faults output.old))
        (ends_of (S.left input.new) (S.faults input.new) (K.held output.new) (K.faults output.new)) }
{
    match open(alloc, input) {
        Ok((reader, header)) => match Replaying::new(alloc, view, header) {
            Ok(stage) => play(alloc, reader, stage, input, output),
            Err(ended) => ended,
        },
        Err(ended) => ended,
    }
}

/// Replays a recorded session: reads it from `input`, plays its events one by one in a world of the session's header, and
/// writes to `output` a record for each effect and for the frames of each turn, in order, and then the end byte. A status other
/// than `Ok` has its line in `log`; where that line can't be written, the status is `WriteFault`.
///
/// `Refused` is the first rule of sessions that the bytes break, or the first event that names a state which the world hasn't; the log has the offset
/// and the cause, and the output the records of the events before. After `Memory`, `ReadFault` and `WriteFault` the output gained a front of what is
/// shown of the bytes that were read.
pub fn replay<S: Source, K: Sink, L: Sink>(
    alloc: Global,
    view: View<'_>,
    input: &mut S,
    output: &mut K,
    log: &mut L,
) -> Status
    ensures { Replays (shown_of view.entry) result
        (ends_of (S.left input.old) (S.faults input.old) (K.held output.old) (K.faults output.old))
        (ends_of (S.left input.new) (S.faults input.new) (K.held output.new) (K.faults output.new))
        (log_end (L.held log.old) (L.faults log.old)) (log_end (L.held log.new) (L.faults log.new)) }
{
    let ended = play_view(alloc, view, input, output);
    report(alloc, ended, log)
}
