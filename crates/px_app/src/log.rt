//! The line that the log gains at the end of a run.

ghost use Rattle.std.specs.Prelude.{◌≡◌, ◌≢◌, ◌⊎◌};
ghost use Rattle.px_app.specs.Ending.{line_of, IsRefusal};
ghost use Rattle.px_app.specs.Ends.{log_end};
ghost use Rattle.px_app.specs.Report.{Logged, LogFailed, Reported};
ghost use Rattle.px_app.specs.declared.ending.Ending.TheVariants as ending;

use crate::ending::Ending;
use crate::refusal::refusal_line;
use px_ends::{Sink, write_all};
use px_types::Status;
use std::alloc::Global;

// The line of an ending other than a refusal, with its line end. Empty for `Done`.
fn fixed_line(ended: Ending) -> &'static [u8]
    requires { IsRefusal ended → ⊥ }
    ensures { result.now ≡ line_of ended }
{
    match ended {
        Ending::Done | Ending::Refused(_) => b"",
        Ending::Usage => {
            b"pulse_rw: usage: replay [--raw SINK | --monitor | --samples | --ramp FRAMES], summary, convert, gen NUMBER COUNT, serve OPTIONS, ctl --socket PATH COMMAND\n"
        }
        Ending::Memory => b"pulse_rw: out of memory\n",
        Ending::ReadFault => b"pulse_rw: read failed\n",
        Ending::WriteFault => b"pulse_rw: write failed\n",
        Ending::NoSuchSink => b"pulse_rw: no such sink\n",
    }
}

// Writes the line of an ending to the log.
fn write_line<L: Sink>(ended: Ending, line: &[u8], log: &mut L) -> Status
    requires line { line.now ≡ line_of ended }
    requires other { ended ≢ ending.Done }
    ensures { Logged ended result (log_end (L.held log.old) (L.faults log.old)) (log_end (L.held log.new) (L.faults log.new))
        ⊎ LogFailed ended result (log_end (L.held log.old) (L.faults log.old)) (log_end (L.held log.new) (L.faults log.new)) }
{
    match write_all(log, line) {
        Ok(()) => ended.status(),
        Err(_) => Status::WriteFault,
    }
}

/// Writes the log's line of how a run ended, if there is one, and returns the run's status. A refusal's line takes memory: where memory runs out, the
/// run ends with `Memory`. Where the log can't be written, the status is `WriteFault`.
pub fn report<L: Sink>(alloc: Global, ended: Ending, log: &mut L) -> Status
    ensures { Reported ended result (log_end (L.held log.old) (L.faults log.old)) (log_end (L.held log.new) (L.faults log.new)) }
{
    match ended {
        Ending::Done => Status::Ok,
        Ending::Refused(refusal) => match refusal_line(alloc, refusal) {
            Ok(line) => write_line(ended, line.as_bytes(), log),
            Err(_) => write_line(Ending::Memory, fixed_line(Ending::Memory), log),
        },
        _ => write_line(ended, fixed_line(ended), log),
    }
}
