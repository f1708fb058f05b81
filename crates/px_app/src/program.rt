//! The whole program.

ghost use Rattle.std.specs.Prelude.{◌≡◌, map, string_bytes};
ghost use Rattle.px_app.specs.Ends.{Ends, ends_of, log_end};
ghost use Rattle.px_app.specs.Outside.{outside_of};
ghost use Rattle.px_app.specs.Run.{IsUsage, DoesAlone, Does};
ghost use Rattle.px_app.specs.Words.{alone_in, command_in};

use crate::controlling::control_reported;
use crate::converting::convert;
use crate::ending::Ending;
use crate::log::report;
use crate::making::make;
use crate::monitoring::replay_monitor;
use crate::ramping::replay_ramp;
use crate::replaying::replay;
use crate::sampling::replay_samples;
use crate::serving::{is_serve, serve_reported};
use crate::words::{Words, meaning};
use px_ctl::is_ctl;
use px_ends::{Host, Sink, Source};
use px_types::Status;
use std::alloc::Global;
use std::rt::Clock;
use std::sync::Wait;
use std::thread::Threads;

// Reports that the words aren't those of the usage text.
fn refuse_words<L: Sink>(alloc: Global, log: &mut L) -> Status
    ensures { (ends : Ends) → IsUsage result ends ends (log_end (L.held log.old) (L.faults log.old)) (log_end (L.held log.new) (L.faults log.new)) }
{
    report(alloc, Ending::Usage, log)
}

// Does what words other than those of `serve` and `ctl` ask for.
fn run_alone<S: Source, K: Sink, L: Sink>(
    alloc: Global,
    words: &[String],
    input: &mut S,
    output: &mut K,
    log: &mut L,
) -> Status
    ensures { DoesAlone (alone_in (map string_bytes words.now)) result
        (ends_of (S.left input.old) (S.faults input.old) (K.held output.old) (K.faults output.old))
        (ends_of (S.left input.new) (S.faults input.new) (K.held output.new) (K.faults output.new))
        (log_end (L.held log.old) (L.faults log.old)) (log_end (L.held log.new) (L.faults log.new)) }
{
    match meaning(words) {
        Some(Words::Replay(view)) => replay(alloc, view, input, output, log),
        Some(Words::Monitor) => replay_monitor(alloc, input, output, log),
        Some(Words::Samples) => replay_samples(alloc, input, output, log),
        Some(Words::Ramp(frames)) => replay_ramp(alloc, frames, input, output, log),
        Some(Words::Convert) => convert(alloc, input, output, log),
        Some(Words::Gen { number, count }) => make(alloc, number, count, output, log),
        None => refuse_words(alloc, log),
    }
}

/// Runs the program by the words of its command line, and returns its status.
///
/// `replay`, `replay --raw SINK` and `summary` replay the session in `input`: see [`crate::replay`] and [`crate::View`].
/// `replay --monitor` replays it in a world with monitors: see [`crate::replay_monitor`]; `replay --samples` in a world with a sample cache: see
/// [`crate::replay_samples`]; `replay --ramp FRAMES`, 1 to 65,536 in decimal digits alone, in a world where volumes change by ramps: see
/// [`crate::replay_ramp`]. `convert` writes it in the second form: see [`crate::convert`]. `gen NUMBER COUNT` writes the session generated from a number of 64 bits and a count up to 1,000,000, both in decimal digits alone: see [`px_gen::generate`]. `serve` with
/// its options serves live clients on the sinks of the header that the host reads, and waits for them: see [`serve_by`] and [`px_server::serve`];
/// with `--tape` the output then gets a session of what was done. `ctl --socket PATH` and the words of an errand, `list`, `volume INPUT VALUE`,
/// `mute INPUT on` or `off`, `sink-volume NAME VALUE`, `move INPUT NAME` or `kill INPUT`, do that errand at the server that listens at the socket, with
/// the cookie in `input`, 256 bytes: see [`px_ctl::control`]. Other words are `Usage`, and then nothing is read, and only the log's line written.
/// Where the log's line can't be written, the status is `WriteFault`.
pub fn run<R, S, K, L, H>(
    rt: &R,
    words: &[String],
    input: &mut S,
    output: &mut K,
    log: &mut L,
    host: &mut H,
) -> Status
where
    R: AllocGlobal + Threads + Wait + Clock + Copy + Drop + Send + Sync + 'static,
    S: Source,
    K: Sink,
    L: Sink,
    H: Host,
    H::L: 'static,
    H::O: 'static,
    H::D: 'static,
    H::R: 'static,
    H::C: 'static,
    ensures { Does H.C.visible H.C.faults H.C.fulls H.D.now H.R.visible H.R.faults H.R.fulls H.L.left H.L.sent H.L.counts (command_in (map string_bytes words.now)) (map string_bytes words.now) result
        (outside_of (S.left input.old) (S.faults input.old) (K.held output.old) (K.faults output.old) (L.held log.old) (L.faults log.old) (H.now host.old) (H.dialled host.old))
        (outside_of (S.left input.new) (S.faults input.new) (K.held output.new) (K.faults output.new) (L.held log.new) (L.faults log.new) (H.now host.new) (H.dialled host.new)) }
{
    if is_serve(words) {
        serve_reported(rt, rt.alloc(), words, output, log, host)
    } else if is_ctl(words) {
        control_reported(rt.alloc(), words, input, output, log, host)
    } else {
        run_alone(rt.alloc(), words, input, output, log)
    }
}
