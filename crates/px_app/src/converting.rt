//! The conversion of a recorded session to the second form.

ghost use Rattle.std.specs.Prelude.{◌≡◌};
ghost use Rattle.px_app.specs.Convert.{convert_mode, Converts};
ghost use Rattle.px_app.specs.Ends.{ends_of, log_end};
ghost use Rattle.px_app.specs.Played.{InputPlayed, InputCounted};

use crate::convert_stage::Converting;
use crate::ending::Ending;
use crate::log::report;
use crate::playing::play;
use crate::reading::open;
use px_ends::{Sink, Source};
use px_types::Status;
use std::alloc::Global;

// Plays an input on the stage of a conversion.
fn convert_input<S: Source, K: Sink>(alloc: Global, input: &mut S, output: &mut K) -> Ending
    ensures played { InputPlayed convert_mode tt result
        (ends_of (S.left input.old) (S.faults input.old) (K.held output.old) (K.faults output.old))
        (ends_of (S.left input.new) (S.faults input.new) (K.held output.new) (K.faults output.new)) }
    ensures counted { InputCounted result
        (ends_of (S.left input.old) (S.faults input.old) (K.held output.old) (K.faults output.old))
        (ends_of (S.left input.new) (S.faults input.new) (K.held output.new) (K.faults output.new)) }
{
    match open(alloc, input) {
        Ok((reader, header)) => play(alloc, reader, Converting::new(header), input, output),
        Err(ended) => ended,
    }
}

/// Converts a recorded session: reads it from `input`, in either form, and writes it to `output` in the second form, with the same header and the
/// same events. A status other than `Ok` has its line in `log`; where that line can't be written, the status is `WriteFault`.
///
/// No world runs, so that no event is refused for the state that it names. `Refused` is the first rule of sessions that the bytes break; the log
/// has the offset and the cause, and the output the header and the events before, without an end byte. After `Memory`, `ReadFault` and `WriteFault`
/// the output gained a front of what is written of the bytes that were read.
pub fn convert<S: Source, K: Sink, L: Sink>(
    alloc: Global,
    input: &mut S,
    output: &mut K,
    log: &mut L,
) -> Status
    ensures { Converts result
        (ends_of (S.left input.old) (S.faults input.old) (K.held output.old) (K.faults output.old))
        (ends_of (S.left input.new) (S.faults input.new) (K.held output.new) (K.faults output.new))
        (log_end (L.held log.old) (L.faults log.old)) (log_end (L.held log.new) (L.faults log.new)) }
{
    let ended = convert_input(alloc, input, output);
    report(alloc, ended, log)
}
