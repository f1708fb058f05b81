ghost use Rattle.std.specs.Prelude.{◌≡◌, ◌<◌, map, IfOk, IfErr};
ghost use Rattle.px_core_cell.specs.Boxes.{boxes_of};
ghost use Rattle.px_core_cell.specs.Cell.{ends_of};
ghost use Rattle.px_core_cell.specs.History.{Begins};
ghost use Rattle.px_core_cell.specs.Step.{IsAsked};

use crate::tests::asking::{AUTH, CREATE, DRAIN, framed};
use crate::tests::scene::{Mixer, OUT, Scene, new_scene, taken};
use px_annals::NoRecorder;
use px_cell::{CellCore, CoreCell, CoreEnds, CoreSeat, CoreStep, Seats, StepFault};
use px_msg::Msg;
use px_types::{ConnId, Mem};
use std::alloc::Global;
use std::marker::Brand;
use std::sync::Wait;
use std::sync::ledger::Blank;
use std::thread::{Threads, map_vec};

// Makes a step of a thread's client once. Whether it was made; where a sweep is owed, the step comes back.
fn attempted<L: Seats, R: Wait>(
    rt: &R,
    alloc: Global,
    cell: &CoreCell<NoRecorder, L>,
    seat: &mut CoreSeat<L>,
    step: CoreStep,
) -> Result<bool, CoreStep>
    requires { IsAsked step }
    ensures { IfErr result IsAsked }
{
    match cell.step(rt, alloc, step, seat) {
        Ok(made) => Ok(made.is_some()),
        Err(StepFault::Owed(back)) => Err(back),
        Err(_) => Ok(false),
    }
}

// Makes a step of a thread's client, again until no sweep is owed. Whether it was made.
fn is_made<L: Seats, R: Wait>(
    rt: &R,
    alloc: Global,
    cell: &CoreCell<NoRecorder, L>,
    seat: &mut CoreSeat<L>,
    step: CoreStep,
) -> bool
    requires { IsAsked step }
{
    let mut next = step;
    for _ in rt.forever() {
        match attempted(rt, alloc, cell, seat, next) {
            Ok(made) => return made,
            Err(back) => next = back,
        }
        if cell.step(rt, alloc, CoreStep::Sweep, seat).is_err() {
            return false;
        }
    }
    unreachable!()
}

// The steps of a thread, by their place: its client authenticates, creates a stream, and drains it again and again, with rising tags.
fn step_at(alloc: Global, conn: ConnId, place: u8) -> Mem<CoreStep>
    ensures { IfOk result IsAsked }
{
    match place {
        0 => Ok(CoreStep::Connect(conn)),
        1 => framed(alloc, conn, AUTH, &[0; 256]),
        2 => framed(alloc, conn, CREATE, &[]),
        3 | 9 | 13 => Ok(CoreStep::Out(OUT)),
        tag => framed(alloc, conn, DRAIN, &[tag, b'L', 0, 0, 0, 0]),
    }
}

// What a thread works with: its seat, and its client.
type Place<L> = (CoreSeat<L>, ConnId);

// Makes all steps of one thread. Whether they were made.
fn works<L: Seats, R: Wait>(
    rt: &R,
    alloc: Global,
    cell: &CoreCell<NoRecorder, L>,
    place: Place<L>,
) -> bool {
    let (mut seat, conn) = place;
    let mut right = true;
    for place in 0..14 {
        right = match step_at(alloc, conn, place) {
            Ok(step) => is_made(rt, alloc, cell, &mut seat, step) && right,
            Err(_) => false,
        };
    }
    right
}

// The places of eight threads.
fn places<L: Seats>(alloc: Global, seat: &mut CoreSeat<L>) -> Mem<Vec<Place<L>>>
    requires { 8 < seat.old.parts }
{
    let mut all = Vec::new(alloc);
    for number in 0..8 {
        all.push((seat.split(), ConnId(number)))?;
    }
    Ok(all)
}

// Runs eight threads. Whether all steps were made.
fn all_made<L: Seats + Send + Sync, R: Threads + Wait + Sync>(
    rt: &R,
    alloc: Global,
    cell: &CoreCell<NoRecorder, L>,
    places: Vec<Place<L>>,
) -> bool {
    let work = move |place: Place<L>| works(rt, alloc, cell, place);
    matches!(map_vec(rt, places, &work), Ok(made) if made.iter().all(|right| *right))
}

fn in_eight<L: Seats + Send + Sync, R: Threads + Wait + Sync>(
    rt: &R,
    alloc: Global,
    core: CellCore,
    ends: CoreEnds,
    blank: Blank,
) -> bool
    requires name { blank.name ≡ L.name }
    requires parts { (blank.parts ≡ L.parts) × (L.parts ≡ L.all) × (L.all ≡ 9) }
    requires began { core.state ≡ L.began }
    requires begins { Begins core.state (map ends_of ends.items) }
    requires boxes { map boxes_of ends.items ≡ L.boxes }
{
    let (cell, mut seat) = CoreCell::<NoRecorder, L>::new(blank, core, NoRecorder, ends);
    match places(alloc, &mut seat) {
        Ok(places) => all_made(rt, alloc, &cell, places),
        Err(_) => false,
    }
}

// Whether all drains of the eight clients came to the sink, those of each client in the order of their tags.
fn in_order<R: Wait>(rt: &R, mixer: &mut Mixer) -> bool {
    let mut last: [u32; 8] = [0; 8];
    let mut count: u32 = 0;
    for _ in 0..200 {
        if let Some(Msg::Drain { input, tag }) = taken(rt, mixer) {
            let input = input.0 as usize;
            if input >= 8 || tag <= last[input] {
                return false;
            }
            last[input] = tag;
            count = count.saturating_add(1);
        }
    }
    count == 64
}

fn among_eight<R: Threads + Wait + Sync>(rt: &R, alloc: Global) -> Mem<bool> {
    let Scene {
        core,
        ends,
        mut mixer,
    } = new_scene(alloc)?;
    let made = in_eight::<Brand, R>(rt, alloc, core, ends, Blank::new(9));
    Ok(made && in_order(rt, &mut mixer))
}

#[test]
fn eight_threads_step_one_core(rt: HostRuntime) {
    assert!(rt; matches!(among_eight(&rt, rt.alloc()), Ok(true)));
}
