//! A session that is generated from a number.

ghost use Rattle.std.specs.Prelude.{◌≡◌, ℕ, List, Option};
ghost use Rattle.px_app.specs.Ends.{ends_of, log_end};
ghost use Rattle.px_app.specs.Making.{Made, Generates, made_by};

use crate::ending::Ending;
use crate::log::report;
use px_ends::Sink;
use px_gen::generate;
use px_types::Status;
use std::alloc::Global;

// How generating a session ends, by the status of the generator.
fn made_by(status: Status) -> Ending
    ensures { result ≡ made_by status }
{
    match status {
        Status::Ok => Ending::Done,
        Status::Memory => Ending::Memory,
        _ => Ending::WriteFault,
    }
}

// Writes the session generated from `number` and `count`, and reports how that ended.
fn make_reported<K: Sink, L: Sink>(
    alloc: Global,
    number: u64,
    count: u32,
    output: &mut K,
    log: &mut L,
) -> Status
    ensures { (left : Option (List ℕ)) (read : ℕ) → Made number count result
        (ends_of left read (K.held output.old) (K.faults output.old)) (ends_of left read (K.held output.new) (K.faults output.new))
        (log_end (L.held log.old) (L.faults log.old)) (log_end (L.held log.new) (L.faults log.new)) }
{
    let ended = made_by(generate(alloc, number, count, output));
    report(alloc, ended, log)
}

/// Writes the session generated from `number` and `count`, and reports how that ended.
pub(crate) fn make<K: Sink, L: Sink>(
    alloc: Global,
    number: u64,
    count: u32,
    output: &mut K,
    log: &mut L,
) -> Status
    ensures { (left : Option (List ℕ)) (read : ℕ) → Generates number count result
        (ends_of left read (K.held output.old) (K.faults output.old)) (ends_of left read (K.held output.new) (K.faults output.new))
        (log_end (L.held log.old) (L.faults log.old)) (log_end (L.held log.new) (L.faults log.new)) }
{
    make_reported(alloc, number, count, output, log)
}
