// The line that the log gains of the command `ctl`.
ghost use Rattle.std.specs.Prelude.{◌≡◌};
ghost use Rattle.px_ctl.specs.End.{Logs, ControlReported};

use crate::end::ControlEnd;
use px_ends::{Sink, write_all};
use px_types::Status;
use std::alloc::Global;

// Writes the line of a status to the log.
fn write_line<G: Sink>(status: Status, line: &[u8], log: &mut G) -> Status
    ensures { Logs status line.now result (G.held log.old) (G.held log.new) (G.faults log.old) (G.faults log.new) }
{
    match write_all(log, line) {
        Ok(()) => status,
        Err(_) => Status::WriteFault,
    }
}

/// Writes the log's line of how the command `ctl` ended, if there is one, and returns the run's status. The line takes memory: where memory runs
/// out, the run ends with `Memory`. Where the log can't be written, the status is `WriteFault`.
pub fn report_control<G: Sink>(alloc: Global, end: ControlEnd, log: &mut G) -> Status
    ensures { ControlReported end result (G.held log.old) (G.held log.new) (G.faults log.old) (G.faults log.new) }
{
    if end.is_done() {
        return Status::Ok;
    }
    match end.line(alloc) {
        Ok(line) => write_line(end.status(), line.as_bytes(), log),
        Err(_) => write_line(Status::Memory, b"pulse_rw: out of memory\n", log),
    }
}
