// A session generated from a number and a count.

ghost use Rattle.std.specs.Prelude.{◌≡◌, ℕ, List, [], ◌++◌, Option, Some, OnOk};
ghost use Rattle.std.specs.List.{flat_map, AllByRecursion};
ghost use Rattle.px_session.specs.Spelling.{event};
ghost use Rattle.px_session.specs.Spelling as spelling;
ghost use Rattle.px_session.specs.Writing.{FitsHeader, FitsEvent};
ghost use Rattle.px_gen.specs.Generator.{form, step_events, step_state, steps, generated};
ghost use Rattle.px_gen.specs.Writing.{Writes, Counts, Gathered, GatheredBy, Leaves, Faults};

use crate::numbers::Numbers;
use crate::opening::{header, opening};
use crate::step::step;
use crate::writing::{FORM, Stop, write_events};
use px_ends::{Pieces, Sink};
use px_header::Header;
use px_session::{Event, write_end, write_header};
use px_types::Status;
use std::alloc::Global;

// Gathers the events of the next step.
#[tactic(auto, using(crate::proofs::Gathering::adds_none, crate::proofs::Fitting::step_fits))]
fn gather_step(alloc: Global, numbers: &mut Numbers, pieces: &mut Pieces) -> Result<(), Stop>
    ensures bytes { Writes result (flat_map (event form) (step_events numbers.old.state)) (Some pieces.old.bytes) (Some pieces.new.bytes) }
    ensures state { OnOk result (numbers.new.state ≡ step_state numbers.old.state) }
{
    let Ok(events) = step(alloc, numbers) else {
        return Err(Stop::NoMemory);
    };
    write_events(pieces, &events)
}

// Writes what waits once it has the size of a piece.
fn write_piece<K: Sink>(pieces: &mut Pieces, out: &mut K) -> Result<(), Stop>
    ensures bytes { (first : Option (List ℕ)) (given : List ℕ) → Gathered given first (K.held out.old) pieces.old.bytes → GatheredBy result given first (K.held out.new) pieces.new.bytes }
    ensures count { Counts result (K.faults out.old) (K.faults out.new) }
{
    if !pieces.is_piece() {
        return Ok(());
    }
    match pieces.flush(out) {
        Ok(()) => Ok(()),
        Err(_) => Err(Stop::Failed),
    }
}

// Gathers the events of the next step, and writes what waits once it has the size of a piece.
fn write_step<K: Sink>(
    alloc: Global,
    numbers: &mut Numbers,
    pieces: &mut Pieces,
    out: &mut K,
) -> Result<(), Stop>
    ensures bytes { (first : Option (List ℕ)) (given : List ℕ) → Gathered given first (K.held out.old) pieces.old.bytes
        → GatheredBy result (given ++ flat_map (event form) (step_events numbers.old.state)) first (K.held out.new) pieces.new.bytes }
    ensures count { Counts result (K.faults out.old) (K.faults out.new) }
    ensures state { OnOk result (numbers.new.state ≡ step_state numbers.old.state) }
{
    if let Err(_) = gather_step(alloc, numbers, pieces) {
        return Err(Stop::NoMemory);
    }
    write_piece(pieces, out)
}

// Gathers and writes the events of `count` steps.
#[tactic(auto, using(crate::proofs::Loops::behind_more))]
fn write_steps<K: Sink>(
    alloc: Global,
    numbers: &mut Numbers,
    count: u32,
    pieces: &mut Pieces,
    out: &mut K,
) -> Result<(), Stop>
    ensures bytes { (first : Option (List ℕ)) (given : List ℕ) → Gathered given first (K.held out.old) pieces.old.bytes
        → GatheredBy result (given ++ flat_map (event form) (steps count numbers.old.state)) first (K.held out.new) pieces.new.bytes }
    ensures count { Counts result (K.faults out.old) (K.faults out.new) }
{
    for _ in 0..count {
        if let Err(stop) = write_step(alloc, numbers, pieces, out) {
            return Err(stop);
        }
    }
    Ok(())
}

// Writes a header and the events after it.
#[tactic(auto, using(crate::proofs::Written::stops_first, crate::proofs::Written::goes_on))]
fn write_front<K: Sink>(out: &mut K, header: &Header, events: &[Event]) -> Result<(), Stop>
    requires header { FitsHeader header.now }
    requires events { AllByRecursion (FitsEvent form) events.now }
    ensures bytes { Writes result (spelling.header form header.now ++ flat_map (event form) events.now) (K.held out.old) (K.held out.new) }
{
    match write_header(FORM, out, header) {
        Ok(()) => write_events(out, events),
        Err(_) => Err(Stop::Failed),
    }
}

// Gathers and writes a session.
#[tactic(auto, using(crate::proofs::Fitting::header_fits, crate::proofs::Fitting::opening_fits))]
fn write_session<K: Sink>(
    alloc: Global,
    number: u64,
    count: u32,
    pieces: &mut Pieces,
    out: &mut K,
) -> Result<(), Stop>
    requires { pieces.old.bytes ≡ [] }
    ensures bytes { GatheredBy result (generated number count) (K.held out.old) (K.held out.new) pieces.new.bytes }
    ensures count { Counts result (K.faults out.old) (K.faults out.new) }
{
    let Ok(header) = header(alloc) else {
        return Err(Stop::NoMemory);
    };
    let Ok(events) = opening(alloc) else {
        return Err(Stop::NoMemory);
    };
    if let Err(_) = write_front(pieces, &header, events.as_slice()) {
        return Err(Stop::NoMemory);
    }
    let mut numbers = Numbers::new(number);
    if let Err(stop) = write_steps(alloc, &mut numbers, count, pieces, out) {
        return Err(stop);
    }
    match write_end(pieces) {
        Ok(()) => Ok(()),
        Err(_) => Err(Stop::NoMemory),
    }
}

// Writes the rest that waits, after a call with this result.
#[tactic(auto, using(crate::proofs::Gathering::ends_all, crate::proofs::Gathering::ends_short, crate::proofs::Gathering::is_cut, crate::proofs::Gathering::short_cut))]
fn finish<K: Sink>(done: Result<(), Stop>, pieces: &mut Pieces, out: &mut K) -> Result<(), Stop>
    ensures bytes { (first : Option (List ℕ)) (given : List ℕ) → GatheredBy done given first (K.held out.old) pieces.old.bytes → Writes result given first (K.held out.new) }
    ensures count { (before : ℕ) → Counts done before (K.faults out.old) → Counts result before (K.faults out.new) }
{
    match done {
        Ok(()) => match pieces.flush(out) {
            Ok(()) => Ok(()),
            Err(_) => Err(Stop::Failed),
        },
        Err(Stop::NoMemory) => match pieces.flush(out) {
            Ok(()) => Err(Stop::NoMemory),
            Err(_) => Err(Stop::Failed),
        },
        Err(Stop::Failed) => Err(Stop::Failed),
    }
}

/// Writes the session generated from a number and a count: a header of two sinks, four clients that play on them, `count` steps, each of one client's
/// frame and a turn of its sink of 64 frames, and the end byte. The same number and count give the same bytes.
///
/// `Ok`: all of it was written. `Memory`, where memory ran out, and `WriteFault`, where a write of `output` failed and was counted: a front of it was
/// written, maybe nothing. There is no other status. Own: PulseAudio records no sessions.
pub fn generate<K: Sink>(alloc: Global, number: u64, count: u32, output: &mut K) -> Status
    ensures bytes { Leaves result (generated number count) (K.held output.old) (K.held output.new) }
    ensures faults { Faults result (K.faults output.old) (K.faults output.new) }
{
    let mut pieces = Pieces::new(alloc);
    let done = write_session(alloc, number, count, &mut pieces, output);
    match finish(done, &mut pieces, output) {
        Ok(()) => Status::Ok,
        Err(Stop::NoMemory) => Status::Memory,
        Err(Stop::Failed) => Status::WriteFault,
    }
}
