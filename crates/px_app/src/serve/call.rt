//! The `serve` command's call.
ghost use Rattle.std.specs.Prelude.{◌≡◌, map, option_map, string_bytes};
ghost use Rattle.px_app.specs.Tape.{WritesTape, faulted, out_end};
ghost use Rattle.px_header.specs.HeaderRules.{IsHeader};
ghost use Rattle.px_app.specs.Serves.{IsServing, ServesWith, ServesBy};

use crate::serve::back::{hand_core, hand_parts};
use crate::serve::header::header_in;
use crate::serve_words::{ServeWords, WordsFault, read_serve_words};
use px_ends::{HeaderRead, Host, Sink};
use px_header::Header;
use px_names::SourceName;
use px_server::{PaceGate, Served, serve};
use px_session::{Cause, ReadError};
use px_tape::Events;
use px_types::Status;
use std::alloc::Global;
use std::rt::Clock;
use std::sync::{Arc, Wait};
use std::thread::Threads;

/// How the command `serve` ended.
#[derive(Clone, Copy, Debug, PartialEq, Eq)]
pub enum ServeEnd {
    /// The words aren't those of `serve`.
    Usage,
    /// The header file isn't a header: the first rule that it breaks, and the offset.
    Refused { at: u64, cause: Cause },
    /// The serving call ended with this status, or its start failed with it.
    Ended(Status),
}

// The status of a call that ended with `status`, where a write of its tape fails: an earlier cause stays.
fn faulted(status: Status) -> Status
    ensures { result ≡ faulted status }
{
    match status {
        Status::Ok => Status::WriteFault,
        other => other,
    }
}

// Writes the tape of a call that ended with a status, where there is one.
fn write_tape<K: Sink>(
    header: &Header,
    tape: Option<Events>,
    output: &mut K,
    status: Status,
) -> Status
    requires { IsHeader header.now }
    ensures { WritesTape header.now tape (out_end (K.held output.old) (K.faults output.old)) (out_end (K.held output.new) (K.faults output.new)) status result }
{
    let Some(events) = tape else {
        return status;
    };
    match events.write(header, output) {
        Ok(()) => status,
        Err(_) => faulted(status),
    }
}

// Serves a header, hands back to the host all that it made, and writes the tape, where one is asked for.
fn serve_header<R, K, H>(
    rt: &R,
    alloc: Global,
    header: &Header,
    source: Option<&SourceName>,
    taped: bool,
    output: &mut K,
    host: &mut H,
    gate: Arc<PaceGate<R>>,
) -> Status
where
    R: Threads + Wait + Clock + Copy + Drop + Send + Sync + 'static,
    K: Sink,
    H: Host,
    H::L: 'static,
    H::O: 'static,
    H::D: 'static,
    H::R: 'static,
    H::C: 'static,
    requires { IsHeader header.now }
    ensures serves { IsServing H.C.visible H.C.faults H.C.fulls H.D.now H.R.visible H.R.faults H.R.fulls (option_map (λ name. name.now) source.entry) header.now taped (H.now host.old) (H.now host.new)
        (out_end (K.held output.old) (K.faults output.old)) (out_end (K.held output.new) (K.faults output.new)) result }
    ensures dialled { H.dialled host.new ≡ H.dialled host.old }
{
    let Served {
        status,
        lanes,
        core,
        tape,
    } = serve(rt, alloc, header, source, host, gate, taped);
    let cores = u8::from(core.is_some());
    hand_parts(host, lanes, cores);
    hand_core(host, core);
    write_tape(header, tape, output, status)
}

// Starts the host with the options of these words, and serves the header that it reads.
fn serve_with<R, K, H>(
    rt: &R,
    alloc: Global,
    said: &ServeWords,
    output: &mut K,
    host: &mut H,
    gate: Arc<PaceGate<R>>,
) -> ServeEnd
where
    R: Threads + Wait + Clock + Copy + Drop + Send + Sync + 'static,
    K: Sink,
    H: Host,
    H::L: 'static,
    H::O: 'static,
    H::D: 'static,
    H::R: 'static,
    H::C: 'static,
    ensures serves { ServesWith H.C.visible H.C.faults H.C.fulls H.D.now H.R.visible H.R.faults H.R.fulls said.now result (H.now host.old) (H.now host.new)
        (out_end (K.held output.old) (K.faults output.old)) (out_end (K.held output.new) (K.faults output.new)) }
    ensures dialled { H.dialled host.new ≡ H.dialled host.old }
{
    let bytes = match host.start(alloc, &said.options) {
        HeaderRead::Bytes(bytes) => bytes,
        HeaderRead::NoMemory => return ServeEnd::Ended(Status::Memory),
        HeaderRead::Failed => return ServeEnd::Ended(Status::Host),
    };
    match header_in(alloc, bytes) {
        Ok(header) => {
            let source = said.source.as_ref();
            let status = serve_header(rt, alloc, &header, source, said.tape, output, host, gate);
            ServeEnd::Ended(status)
        }
        Err(ReadError::Refused { at, cause }) => ServeEnd::Refused { at, cause },
        Err(_) => ServeEnd::Ended(Status::Memory),
    }
}

/// Carries out the command `serve`: starts the host with the words' options, serves the clients that it hands out on the sinks of the header that it
/// reads, and hands back to it all that it made. With `--tape` it then writes to the output what the server did, as a session that can be replayed.
/// See [`px_server::serve`] for the statuses; `WriteFault`, where a write of the tape fails, comes last of them. Words of another kind are `Usage`,
/// and then the host isn't called. (PulseAudio: `main` of daemon/main.c; it records nothing.)
pub fn serve_by<R, K, H>(
    rt: &R,
    alloc: Global,
    words: &[String],
    output: &mut K,
    host: &mut H,
) -> ServeEnd
where
    R: Threads + Wait + Clock + Copy + Drop + Send + Sync + 'static,
    K: Sink,
    H: Host,
    H::L: 'static,
    H::O: 'static,
    H::D: 'static,
    H::R: 'static,
    H::C: 'static,
    ensures serves { ServesBy H.C.visible H.C.faults H.C.fulls H.D.now H.R.visible H.R.faults H.R.fulls (map string_bytes words.now) result (H.now host.old) (H.now host.new)
        (out_end (K.held output.old) (K.faults output.old)) (out_end (K.held output.new) (K.faults output.new)) }
    ensures dialled { H.dialled host.new ≡ H.dialled host.old }
{
    let said = match read_serve_words(alloc, words) {
        Ok(said) => said,
        Err(WordsFault::Usage) => return ServeEnd::Usage,
        Err(WordsFault::NoMemory) => return ServeEnd::Ended(Status::Memory),
    };
    match Arc::new(alloc, PaceGate::new(*rt)) {
        Ok(gate) => serve_with(rt, alloc, &said, output, host, gate),
        Err(_) => ServeEnd::Ended(Status::Memory),
    }
}
