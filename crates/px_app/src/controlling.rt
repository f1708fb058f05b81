//! The command `ctl`, and what the log gains of it.

ghost use Rattle.std.specs.Prelude.{map, string_bytes};
ghost use Rattle.px_app.specs.Outside.{outside_of};
ghost use Rattle.px_app.specs.Controlling.{ControlledBy};

use crate::ending::Ending;
use crate::log::report;
use px_ctl::{WordsFault, control, read_control_words, report_control};
use px_ends::{Host, Sink, Source};
use px_types::Status;
use std::alloc::Global;

/// Carries out the command `ctl`, and reports how that ended.
pub(crate) fn control_reported<S, K, L, H>(
    alloc: Global,
    words: &[String],
    input: &mut S,
    output: &mut K,
    log: &mut L,
    host: &mut H,
) -> Status
where
    S: Source,
    K: Sink,
    L: Sink,
    H: Host,
    ensures { ControlledBy H.L.left H.L.sent H.L.counts (map string_bytes words.now) result
        (outside_of (S.left input.old) (S.faults input.old) (K.held output.old) (K.faults output.old) (L.held log.old) (L.faults log.old) (H.now host.old) (H.dialled host.old))
        (outside_of (S.left input.new) (S.faults input.new) (K.held output.new) (K.faults output.new) (L.held log.new) (L.faults log.new) (H.now host.new) (H.dialled host.new)) }
{
    match read_control_words(alloc, words) {
        Ok(said) => {
            let end = control(alloc, &said, input, output, host);
            report_control(alloc, end, log)
        }
        Err(WordsFault::Usage) => report(alloc, Ending::Usage, log),
        Err(WordsFault::NoMemory) => report(alloc, Ending::Memory, log),
    }
}
