//! One step of the core, with what it appends to the output queues and to the tape.

ghost use Rattle.std.specs.Prelude.{◌≡◌, ◌+◌, ◌≤◌, length, IfOk};
ghost use Rattle.px_core_cell.specs.Step.{IsAsked, HandsBack};
ghost use Rattle.px_shared.specs.Taped.{AreEventsOf};
ghost use Rattle.px_tape.specs.Tape.{AreOthers};

use crate::out_queues::OutQueues;
use crate::shared::Shared;
use px_annals::{CoreEntry, Recorder};
use px_core_cell::{CoreSeat, CoreStep, Seats, StepFault};
use px_ends::Outlet;
use px_tape::{Events, Tape};
use px_types::{Mem, SinkId};
use std::alloc::Global;
use std::sync::Wait;
use std::sync::atomic::Ordering;

// The events of a step on a tape. A sweep has none, since in a session each event is followed by one, and neither have messages that are
// posted.
fn events_of(alloc: Global, step: &CoreStep) -> Mem<Events>
    requires { IsAsked step.now }
    ensures events { IfOk result (AreEventsOf step.now) }
    ensures others { IfOk result AreOthers }
{
    match step {
        CoreStep::Connect(conn) => Events::connect(alloc, *conn),
        CoreStep::Frame(conn, frame) => Events::frame(alloc, *conn, &frame.body),
        CoreStep::Broken(conn, fault, _) => Events::fault(alloc, *conn, *fault),
        CoreStep::Close(conn) => Events::close(alloc, *conn),
        CoreStep::Cut(conn) => Events::cut(alloc, *conn),
        CoreStep::Notice(sink) => Events::notice(alloc, *sink),
        CoreStep::Sweep | CoreStep::Out(_) => Ok(Events::new(alloc)),
    }
}

/// The outcome of a step.
#[derive(Clone, Copy, Debug, PartialEq, Eq)]
pub(crate) enum Stepped {
    /// It was done.
    Done,
    /// It was done, and the sweep that it owed after it.
    Swept,
    /// It was done with its sweep, and what waited for the sinks was posted.
    Posted,
    /// There was nothing to do.
    Nothing,
}

// Makes a step, and appends its effects to the output queues. Whether there was something to do.
fn step_in<W: Wait, C: Recorder<CoreEntry> + Drop, L: Seats, O: Outlet + Drop>(
    rt: &W,
    alloc: Global,
    shared: &Shared<C, L, O>,
    queues: &mut OutQueues<O>,
    step: CoreStep,
    seat: &mut CoreSeat<L>,
) -> Result<bool, StepFault>
    requires lawful { IsAsked step }
    ensures seat { seat.new.parts ≡ seat.old.parts }
    ensures back { HandsBack step result }
{
    match shared.core.step(rt, alloc, step, seat)? {
        Some(effects) => {
            if !effects.as_slice().is_empty() {
                shared.waiting.store(true, Ordering::SeqCst);
            }
            if !queues.put(effects) {
                shared.out_of_memory.store(true, Ordering::SeqCst);
            }
            Ok(true)
        }
        None => Ok(false),
    }
}

// Makes the sweep that a step owes. Where that can't be, it is owed still.
fn sweep_in<W: Wait, C: Recorder<CoreEntry> + Drop, L: Seats, O: Outlet + Drop>(
    rt: &W,
    alloc: Global,
    shared: &Shared<C, L, O>,
    queues: &mut OutQueues<O>,
    seat: &mut CoreSeat<L>,
) -> Stepped
    ensures seat { seat.new.parts ≡ seat.old.parts }
{
    match step_in(rt, alloc, shared, queues, CoreStep::Sweep, seat) {
        Ok(_) => Stepped::Swept,
        Err(_) => Stepped::Done,
    }
}

// Makes a step, and the sweep that it owes, with the output queues locked.
fn step_swept<W: Wait, C: Recorder<CoreEntry> + Drop, L: Seats, O: Outlet + Drop>(
    rt: &W,
    alloc: Global,
    shared: &Shared<C, L, O>,
    queues: &mut OutQueues<O>,
    step: CoreStep,
    seat: &mut CoreSeat<L>,
) -> Result<Stepped, StepFault>
    requires lawful { IsAsked step }
    ensures seat { seat.new.parts ≡ seat.old.parts }
    ensures back { HandsBack step result }
{
    let owes = owes_sweep(&step);
    if !step_in(rt, alloc, shared, queues, step, seat)? {
        return Ok(Stepped::Nothing);
    }
    if owes {
        Ok(sweep_in(rt, alloc, shared, queues, seat))
    } else {
        Ok(Stepped::Done)
    }
}

// Posts what waits for the sinks after a step that was swept. Where that can't be, it waits still.
fn post_after<W: Wait, C: Recorder<CoreEntry> + Drop, L: Seats, O: Outlet + Drop>(
    rt: &W,
    alloc: Global,
    shared: &Shared<C, L, O>,
    stepped: Stepped,
    seat: &mut CoreSeat<L>,
) -> Stepped
    ensures seat { seat.new.parts ≡ seat.old.parts }
{
    if stepped != Stepped::Swept {
        return stepped;
    }
    match shared.core.post_all(rt, alloc, shared.sinks, seat) {
        Ok(()) => Stepped::Posted,
        Err(_) => Stepped::Swept,
    }
}

/// Makes a step and the sweep that it owes, whose effects go into the output queues, and posts what waits for the sinks. The queues are locked
/// meanwhile, so that they have the packets in the order of the steps.
pub(crate) fn step_queued<W: Wait, C: Recorder<CoreEntry> + Drop, L: Seats, O: Outlet + Drop>(
    rt: &W,
    alloc: Global,
    shared: &Shared<C, L, O>,
    step: CoreStep,
    seat: &mut CoreSeat<L>,
) -> Result<Stepped, StepFault>
    requires lawful { IsAsked step }
    ensures seat { seat.new.parts ≡ seat.old.parts }
    ensures back { HandsBack step result }
{
    let mut queues = shared.queues.lock(rt);
    let stepped = step_swept(rt, alloc, shared, &mut queues, step, seat)?;
    Ok(post_after(rt, alloc, shared, stepped, seat))
}

// Makes the steps of the notices that wait in a sink's outbox, with the sweep that each owes: `Nothing` where there were none, `Swept` where
// all were done, and `Done` where some may be left.
fn notices_swept<W: Wait, C: Recorder<CoreEntry> + Drop, L: Seats, O: Outlet + Drop>(
    rt: &W,
    alloc: Global,
    shared: &Shared<C, L, O>,
    queues: &mut OutQueues<O>,
    sink: SinkId,
    seat: &mut CoreSeat<L>,
) -> Stepped
    ensures seat { seat.new.parts ≡ seat.old.parts }
{
    let mut done = Stepped::Nothing;
    for _ in rt.forever() {
        match step_swept(rt, alloc, shared, queues, CoreStep::Notice(sink), seat) {
            Ok(Stepped::Nothing) => return done,
            Ok(Stepped::Swept) => done = Stepped::Swept,
            Ok(_) | Err(_) => return Stepped::Done,
        }
    }
    unreachable!()
}

/// Makes the steps of the notices that wait in a sink's outbox, with the sweep that each owes, and then posts what waits for the sinks; the
/// output queues are locked once for all of it. `Nothing` where there were none, `Done` where some may be left.
pub(crate) fn notices_queued<W: Wait, C: Recorder<CoreEntry> + Drop, L: Seats, O: Outlet + Drop>(
    rt: &W,
    alloc: Global,
    shared: &Shared<C, L, O>,
    sink: SinkId,
    seat: &mut CoreSeat<L>,
) -> Stepped
    ensures seat { seat.new.parts ≡ seat.old.parts }
{
    let mut queues = shared.queues.lock(rt);
    let done = notices_swept(rt, alloc, shared, &mut queues, sink, seat);
    post_after(rt, alloc, shared, done, seat)
}

// Whether a sweep is owed after a step.
fn owes_sweep(step: &CoreStep) -> bool {
    !matches!(step, CoreStep::Sweep | CoreStep::Out(_))
}

// The events of a step, for which the tape has room.
fn ready_events(alloc: Global, tape: &mut Tape, step: &CoreStep) -> Mem<Events>
    requires { IsAsked step.now }
    ensures others { IfOk result AreOthers }
    ensures room { IfOk result (λ events. length tape.new.marks + length events ≤ tape.new.capacity) }
{
    let events = events_of(alloc, step)?;
    tape.ready(events.len())?;
    Ok(events)
}

// Makes a step, whose events go onto `tape` where it was done.
fn step_onto<W: Wait, C: Recorder<CoreEntry> + Drop, L: Seats, O: Outlet + Drop>(
    rt: &W,
    alloc: Global,
    shared: &Shared<C, L, O>,
    tape: &mut Tape,
    step: CoreStep,
    seat: &mut CoreSeat<L>,
) -> Result<Stepped, StepFault>
    requires lawful { IsAsked step }
    ensures seat { seat.new.parts ≡ seat.old.parts }
    ensures back { HandsBack step result }
{
    let Ok(events) = ready_events(alloc, tape, &step) else {
        drop(step);
        return Err(StepFault::NoMemory);
    };
    let stepped = step_queued(rt, alloc, shared, step, seat)?;
    if stepped != Stepped::Nothing {
        tape.add(events);
    }
    Ok(stepped)
}

/// Makes a step, whose events go onto the tape where it was done. The tape is locked meanwhile, and has room for them before.
pub(crate) fn step_taped<W: Wait, C: Recorder<CoreEntry> + Drop, L: Seats, O: Outlet + Drop>(
    rt: &W,
    alloc: Global,
    shared: &Shared<C, L, O>,
    step: CoreStep,
    seat: &mut CoreSeat<L>,
) -> Result<Stepped, StepFault>
    requires lawful { IsAsked step }
    ensures seat { seat.new.parts ≡ seat.old.parts }
    ensures back { HandsBack step result }
{
    let mut tape = shared.tape.lock(rt);
    step_onto(rt, alloc, shared, &mut tape, step, seat)
}
