//! The command `serve`, and what the log gains of it.

ghost use Rattle.std.specs.Prelude.{◌≡◌, map, string_bytes};
ghost use Rattle.px_app.specs.Ends.{log_end};
ghost use Rattle.px_app.specs.Tape.{out_end};
ghost use Rattle.px_app.specs.Serving.{line_of_status, StatusReported, Served};
ghost use Rattle.px_app.specs.Words.{is_serve};

use crate::ending::Ending;
use crate::log::report;
use crate::refusal::{Refusal, Why};
use crate::serve::{ServeEnd, serve_by};
use px_ends::{Host, Sink, write_all};
use px_types::Status;
use std::alloc::Global;
use std::rt::Clock;
use std::sync::Wait;
use std::thread::Threads;

/// Whether the words are those of `serve`: the first one is `serve`.
pub(crate) fn is_serve(words: &[String]) -> bool
    ensures { result ≡ is_serve (map string_bytes words.now) }
{
    match words {
        [word, ..] => word.as_str() == "serve",
        [] => false,
    }
}

// The line of a server's status, with its line end. Empty for `Ok`.
fn line_of_status(status: Status) -> &'static [u8]
    ensures { result.now ≡ line_of_status status }
{
    match status {
        Status::Memory => b"pulse_rw: out of memory\n",
        Status::Device => b"pulse_rw: device failed\n",
        Status::Host => b"pulse_rw: host failed\n",
        Status::HistoryFull => b"pulse_rw: history full\n",
        Status::WriteFault => b"pulse_rw: write failed\n",
        _ => b"",
    }
}

// Writes the line of a server's status to the log.
fn report_status<L: Sink>(status: Status, log: &mut L) -> Status
    ensures { StatusReported status result (log_end (L.held log.old) (L.faults log.old)) (log_end (L.held log.new) (L.faults log.new)) }
{
    match write_all(log, line_of_status(status)) {
        Ok(()) => status,
        Err(_) => Status::WriteFault,
    }
}

/// Carries out the command `serve`, and reports how that ended.
pub(crate) fn serve_reported<R, K, L, H>(
    rt: &R,
    alloc: Global,
    words: &[String],
    output: &mut K,
    log: &mut L,
    host: &mut H,
) -> Status
where
    R: Threads + Wait + Clock + Copy + Drop + Send + Sync + 'static,
    K: Sink,
    L: Sink,
    H: Host,
    H::L: 'static,
    H::O: 'static,
    H::D: 'static,
    H::R: 'static,
    H::C: 'static,
    ensures served { Served H.C.visible H.C.faults H.C.fulls H.D.now H.R.visible H.R.faults H.R.fulls (map string_bytes words.now) result (H.now host.old) (H.now host.new)
        (out_end (K.held output.old) (K.faults output.old)) (out_end (K.held output.new) (K.faults output.new))
        (log_end (L.held log.old) (L.faults log.old)) (log_end (L.held log.new) (L.faults log.new)) }
    ensures dialled { H.dialled host.new ≡ H.dialled host.old }
{
    match serve_by(rt, alloc, words, output, host) {
        ServeEnd::Usage => report(alloc, Ending::Usage, log),
        ServeEnd::Refused { at, cause } => {
            let refusal = Refusal {
                at,
                why: Why::Session(cause),
            };
            report(alloc, Ending::Refused(refusal), log)
        }
        ServeEnd::Ended(status) => report_status(status, log),
    }
}
