//! Why a recorded session is refused, and the log's line of it.

ghost use Rattle.std.specs.Prelude.{◌≡◌, IfOk, string_bytes};
ghost use Rattle.px_app.specs.Refusal.{cause_text, fault_text, why_text, refusal_line, number_of};

use px_session::{Cause, Event};
use px_world::WorldFault;
use std::alloc::{AllocError, Global};

/// Why a recorded session is refused. Own: PulseAudio records no sessions.
#[derive(Clone, Copy, Debug, PartialEq, Eq)]
pub enum Why {
    /// Its bytes break a rule of sessions.
    Session(Cause),
    /// An event names a state that the world hasn't.
    World {
        fault: WorldFault,
        /// The number of the event's connection, or of its sink.
        number: u32,
    },
}

/// Why a recorded session is refused, and where.
#[derive(Clone, Copy, Debug, PartialEq, Eq)]
pub struct Refusal {
    /// The offset from the session's first byte. For an event that the world doesn't admit it is that of the kind byte.
    pub at: u64,
    /// The first cause that was met.
    pub why: Why,
}

/// The number of the event's connection, or of its sink.
pub(crate) fn number_of(e: &Event) -> u32
    ensures { result ≡ number_of e.now }
{
    match e {
        Event::Connect(conn) | Event::Bytes(conn, _) | Event::Close(conn) | Event::Cut(conn) => {
            conn.0
        }
        Event::Turn { sink, .. } | Event::Collect { sink, .. } => u32::from(*sink),
        Event::Stop(sink) => u32::from(sink.0),
    }
}

fn cause_text(alloc: Global, cause: Cause) -> Result<String, AllocError>
    ensures { IfOk result (λ text. string_bytes text ≡ cause_text cause) }
{
    match cause {
        Cause::Magic => format!(in alloc; "magic"),
        Cause::Header => format!(in alloc; "header"),
        Cause::Truncated => format!(in alloc; "truncated"),
        Cause::Endless => format!(in alloc; "endless"),
        Cause::Trailing => format!(in alloc; "trailing"),
        Cause::Kind(kind) => format!(in alloc; "kind {kind}"),
        Cause::TooLong(size) => format!(in alloc; "too long {size}"),
    }
}

fn fault_text(alloc: Global, fault: WorldFault, number: u32) -> Result<String, AllocError>
    ensures { IfOk result (λ text. string_bytes text ≡ fault_text fault number) }
{
    match fault {
        WorldFault::Live => format!(in alloc; "live {number}"),
        WorldFault::NotLive => format!(in alloc; "not live {number}"),
        WorldFault::NoSink => format!(in alloc; "no sink {number}"),
        WorldFault::Worn => format!(in alloc; "worn {number}"),
        WorldFault::TooMany { asked, there } => format!(in alloc; "too many, {asked} of {there}"),
        WorldFault::NoMemory => format!(in alloc; "out of memory"),
    }
}

fn why_text(alloc: Global, why: Why) -> Result<String, AllocError>
    ensures { IfOk result (λ text. string_bytes text ≡ why_text why) }
{
    match why {
        Why::Session(cause) => cause_text(alloc, cause),
        Why::World { fault, number } => fault_text(alloc, fault, number),
    }
}

/// The log's line of a refusal, with its line end.
pub(crate) fn refusal_line(alloc: Global, refusal: Refusal) -> Result<String, AllocError>
    ensures { IfOk result (λ line. string_bytes line ≡ refusal_line refusal) }
{
    let at = refusal.at;
    let text = why_text(alloc, refusal.why)?;
    format!(in alloc; "pulse_rw: refused at {at}: {text}\n")
}
