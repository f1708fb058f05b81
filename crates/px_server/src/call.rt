//! The serving call.
ghost use Rattle.std.specs.Prelude.{◌≡◌, ◌+◌, ◌≤◌, [], length, map, option_map, IfOk, IfErr, OnOk, IsSome, IfSome, None, vec_capacity};
ghost use Rattle.px_annals.specs.declared.stream.PlainStream.{PlainStream};
ghost use Rattle.px_header.specs.HeaderRules.{IsHeader};
ghost use Rattle.px_state.specs.State.{State, new_state_with};
ghost use Rattle.px_core_cell.specs.Boxes.{boxes_of};
ghost use Rattle.px_core_cell.specs.Cell.{ends_of};
ghost use Rattle.px_core_cell.specs.History.{fresh_ends};
ghost use Rattle.px_workers.specs.Hosted.{IsLater, IsCalm, IsCauseOf};
ghost use Rattle.px_server.specs.Hosted.{HasLent, Lends};
ghost use Rattle.px_workers.specs.Working.{start_of};
ghost use Rattle.px_server.specs.Parts.{starts_of, unworked, AreParts, IsFrontOf};
ghost use Rattle.px_server.specs.Serving.{IsServed};
ghost use Rattle.px_server.specs.Causes.{undecided};
ghost use Rattle.px_server.specs.Made.{AreMade};
ghost use Rattle.px_server.specs.Taped.{HasTape};

use crate::closing::run;
use crate::left::hand_back;
use crate::served::{LanePart, Served, stop_by, undecided};
use crate::sinks::make_all;
use px_annals::{CoreEntry, Recorder};
use px_cell::{CoreCell, CoreEnds, CoreSeat, Seats};
use px_core::Core;
use px_ends::{Host, Outlet};
use px_header::Header;
use px_names::SourceName;
use px_pool::Pool;
use px_shared::{CoreHandle, Shared};
use px_tape::SinkTurns;
use px_types::{Mem, NoMemory};
use px_workers::{Gate, SinkState, Stop};
use std::alloc::Global;
use std::collections::VecDeque;
use std::marker::Brand;
use std::sync::ledger::Blank;
use std::sync::{Arc, Wait};
use std::thread::Threads;

// One part for each of 65,535 links, one for each of 16 sinks, and one for the serving call.
const PARTS: u64 = 65_552;

// The most used blocks that wait to be used again.
const SPARE_BLOCKS: usize = 1_024;

// What the host makes before the core is there, with the core's ends of the sinks' mailboxes, and room for the sinks' turns.
#[derive(Drop)]
struct Made<H: Host> {
    idle: VecDeque<SinkState<H::D, H::R>>,
    ends: CoreEnds,
    recorder: H::C,
    turns: Vec<SinkTurns>,
}

// The result of a serving call that has made no core.
fn unserved<H: Host>(
    mut lanes: Vec<LanePart<H::D, H::R>>,
    mut idle: VecDeque<SinkState<H::D, H::R>>,
    stop: Stop,
) -> Served<H>
    requires none { lanes.items ≡ [] }
    requires room { length idle.items ≤ vec_capacity lanes }
    ensures status { result.status ≡ undecided stop }
    ensures lanes { (began : State PlainStream) → AreParts began None H.D.now H.R.visible H.R.faults H.R.fulls (map unworked idle.items) result.lanes.items }
    ensures core { result.core ≡ None }
    ensures tape { result.tape ≡ None }
{
    hand_back(&mut idle, &mut lanes);
    Served {
        status: undecided(stop),
        lanes,
        core: None,
        tape: None,
    }
}

// Takes the room for what is left of `count` sinks, and for their turns.
fn make_room<D: Drop, E: Drop>(
    count: usize,
    lanes: &mut Vec<LanePart<D, E>>,
    turns: &mut Vec<SinkTurns>,
) -> Mem<()>
    ensures room { OnOk result ((count ≤ vec_capacity lanes.new) × (count ≤ vec_capacity turns.new)) }
    ensures lanes { lanes.new.items ≡ lanes.old.items }
    ensures turns { turns.new.items ≡ turns.old.items }
{
    lanes.reserve(count)?;
    turns.reserve(count)?;
    Ok(())
}

// Has the host make its parts: for the sinks of a header, in order, and the core's recorder.
fn make_outside<H: Host>(
    alloc: Global,
    taped: bool,
    header: &Header,
    host: &mut H,
    idle: &mut VecDeque<SinkState<H::D, H::R>>,
    ends: &mut CoreEnds,
) -> Result<H::C, Stop>
    requires header { IsHeader header.now }
    requires none { (idle.old.items ≡ []) × (ends.old.items ≡ []) }
    ensures later { IsLater (H.now host.old) (H.now host.new) }
    ensures lends { OnOk result (Lends (length header.now.sinks) 1 (H.now host.old) (H.now host.new)) }
    ensures calm { OnOk result (IsCalm (H.now host.old) (H.now host.new)) }
    ensures lent { HasLent (length idle.new.items) 0 (H.now host.new) }
    ensures core_lent { OnOk result (HasLent (length idle.new.items) 1 (H.now host.new)) }
    ensures cause { IfErr result (λ stop. IsCauseOf stop (H.now host.old) (H.now host.new)) }
    ensures made { OnOk result (AreMade taped 0 header.now.sinks idle.new.items ends.new.items) }
    ensures front { IsFrontOf (map start_of idle.new.items) (starts_of header.now.sinks) }
    ensures none { IfOk result (λ recorder. IfSome (H.C.visible recorder) (λ entries. entries ≡ [])) }
    ensures unfailed { IfOk result (λ recorder. (H.C.faults recorder ≡ 0) × (H.C.fulls recorder ≡ 0)) }
    ensures dialled { H.dialled host.new ≡ H.dialled host.old }
{
    make_all(alloc, taped, header, host, idle, ends)?;
    match host.core_recorder(alloc) {
        Ok(recorder) => Ok(recorder),
        Err(fault) => Err(stop_by(fault)),
    }
}

// A pool for used blocks.
fn pool_of(alloc: Global) -> Mem<Arc<Pool>> {
    match Pool::new(alloc, SPARE_BLOCKS) {
        Ok(pool) => Ok(pool),
        Err(_) => Err(NoMemory),
    }
}

// A header's core under its lock, with all shares in its steps.
fn core_of<C, L>(
    alloc: Global,
    header: &Header,
    source: Option<&SourceName>,
    recorder: C,
    ends: CoreEnds,
    blank: Blank,
) -> Mem<(CoreCell<C, L>, CoreSeat<L>)>
where
    C: Recorder<CoreEntry> + Drop,
    L: Seats,
    requires header { IsHeader header.now }
    requires name { blank.name ≡ L.name }
    requires parts { (blank.parts ≡ L.parts) × (L.parts ≡ 65552) × (L.all ≡ 65552) }
    requires began { L.began ≡ new_state_with (option_map (λ name. name.now) source) header.now }
    requires boxes { map boxes_of ends.items ≡ L.boxes }
    requires ends { map ends_of ends.items ≡ map fresh_ends header.now.sinks }
    requires none { IfSome (C.visible recorder) (λ entries. entries ≡ []) }
    requires unfailed { (C.faults recorder ≡ 0) × (C.fulls recorder ≡ 0) }
    ensures { IfOk result (λ made. made.1.parts ≡ 65552) }
{
    let core = Core::new(alloc, header, source)?;
    Ok(CoreCell::new(blank, core, recorder, ends))
}

// The serving call's own handle on a new core, with all shares in its steps.
fn handle_of<R, C, L, O>(
    rt: &R,
    alloc: Global,
    header: &Header,
    source: Option<&SourceName>,
    recorder: C,
    ends: CoreEnds,
    taped: bool,
    blank: Blank,
) -> Mem<CoreHandle<R, C, L, O>>
where
    R: Wait + Copy,
    C: Recorder<CoreEntry> + Drop,
    L: Seats,
    O: Outlet + Drop,
    requires header { IsHeader header.now }
    requires name { blank.name ≡ L.name }
    requires parts { (blank.parts ≡ L.parts) × (L.parts ≡ 65552) × (L.all ≡ 65552) }
    requires began { L.began ≡ new_state_with (option_map (λ name. name.now) source) header.now }
    requires boxes { map boxes_of ends.items ≡ L.boxes }
    requires ends { map ends_of ends.items ≡ map fresh_ends header.now.sinks }
    requires none { IfSome (C.visible recorder) (λ entries. entries ≡ []) }
    requires unfailed { (C.faults recorder ≡ 0) × (C.fulls recorder ≡ 0) }
    ensures { IfOk result (λ handle. handle.seat.parts ≡ 65552) }
{
    let pool = pool_of(alloc)?;
    let (core, seat) = core_of::<C, L>(alloc, header, source, recorder, ends, blank)?;
    let sinks = header.sinks.len() as u8;
    let shared = Arc::new(alloc, Shared::new(alloc, core, pool, sinks, taped))?;
    Ok(CoreHandle {
        rt: *rt,
        alloc,
        shared,
        seat,
    })
}

// Serves with what the host has made, over the ledger of the workers' seats.
fn serve_made<R, H, G, L>(
    rt: &R,
    alloc: Global,
    header: &Header,
    source: Option<&SourceName>,
    host: &mut H,
    gate: Arc<G>,
    made: Made<H>,
    lanes: Vec<LanePart<H::D, H::R>>,
    taped: bool,
    blank: Blank,
) -> Served<H>
where
    R: Threads + Wait + Copy + Drop + Send + Sync + 'static,
    H: Host,
    H::L: 'static,
    H::O: 'static,
    H::D: 'static,
    H::R: 'static,
    H::C: 'static,
    G: Gate + Drop + Send + Sync + 'static,
    L: Seats + Send + Sync + 'static,
    requires header { IsHeader header.now }
    requires name { blank.name ≡ L.name }
    requires parts { (blank.parts ≡ L.parts) × (L.parts ≡ 65552) × (L.all ≡ 65552) }
    requires began { L.began ≡ new_state_with (option_map (λ name. name.now) source) header.now }
    requires boxes { map boxes_of made.ends.items ≡ L.boxes }
    requires made { AreMade taped 0 header.now.sinks made.idle.items made.ends.items }
    requires nothing_posted { IfSome (H.C.visible made.recorder) (λ entries. entries ≡ []) }
    requires unfailed { (H.C.faults made.recorder ≡ 0) × (H.C.fulls made.recorder ≡ 0) }
    requires none { lanes.items ≡ [] }
    requires room { length made.idle.items ≤ vec_capacity lanes }
    requires no_turns { made.turns.items ≡ [] }
    requires turns_room { length made.idle.items ≤ vec_capacity made.turns }
    requires lent { HasLent (length made.idle.items) 1 (H.now host.old) }
    ensures served { IsServed H.C.visible H.C.faults H.C.fulls H.D.now H.R.visible H.R.faults H.R.fulls (option_map (λ name. name.now) source.entry) header.now (H.now host.old) (H.now host.new) result.status result.lanes.items result.core }
    ensures lent { (H.now host.new).lent ≡ (H.now host.old).lent }
    ensures count { IsSome result.core → length result.lanes.items ≡ length header.now.sinks }
    ensures tape { HasTape H.R.visible taped result.status result.lanes.items result.tape }
    ensures dialled { H.dialled host.new ≡ H.dialled host.old }
{
    let Made {
        idle,
        ends,
        recorder,
        turns,
    } = made;
    match handle_of::<R, H::C, L, H::O>(rt, alloc, header, source, recorder, ends, taped, blank) {
        Ok(handle) => run(handle, host, gate, idle, lanes, turns, taped),
        Err(_) => unserved(lanes, idle, Stop::Memory),
    }
}

// Serves with room for what is left of the sinks, and for their turns.
fn serve_within<R, H, G>(
    rt: &R,
    alloc: Global,
    header: &Header,
    source: Option<&SourceName>,
    host: &mut H,
    gate: Arc<G>,
    lanes: Vec<LanePart<H::D, H::R>>,
    turns: Vec<SinkTurns>,
    taped: bool,
) -> Served<H>
where
    R: Threads + Wait + Copy + Drop + Send + Sync + 'static,
    H: Host,
    H::L: 'static,
    H::O: 'static,
    H::D: 'static,
    H::R: 'static,
    H::C: 'static,
    G: Gate + Drop + Send + Sync + 'static,
    requires header { IsHeader header.now }
    requires none { lanes.items ≡ [] }
    requires room { length header.now.sinks ≤ vec_capacity lanes }
    requires no_turns { turns.items ≡ [] }
    requires turns_room { length header.now.sinks ≤ vec_capacity turns }
    ensures served { IsServed H.C.visible H.C.faults H.C.fulls H.D.now H.R.visible H.R.faults H.R.fulls (option_map (λ name. name.now) source.entry) header.now (H.now host.old) (H.now host.new) result.status result.lanes.items result.core }
    ensures exact { IsSome result.core → Lends (length result.lanes.items) 1 (H.now host.old) (H.now host.new) }
    ensures tape { HasTape H.R.visible taped result.status result.lanes.items result.tape }
    ensures dialled { H.dialled host.new ≡ H.dialled host.old }
{
    let mut idle = VecDeque::new(alloc);
    let mut ends = Vec::new(alloc);
    match make_outside(alloc, taped, header, host, &mut idle, &mut ends) {
        Ok(recorder) => {
            let made = Made {
                idle,
                ends,
                recorder,
                turns,
            };
            let blank = Blank::new(PARTS);
            serve_made::<R, H, G, Brand>(
                rt, alloc, header, source, host, gate, made, lanes, taped, blank,
            )
        }
        Err(stop) => unserved(lanes, idle, stop),
    }
}

/// Serves the clients that the host hands out, on the sinks of a header, until the host says that no more come and all have gone, or until something
/// fails. `source` is the name that clients are told as the default source's; without it they are told none, as there is no source. Hands back what
/// the host made, and with `taped` the tape: what the server did, as the events of a session. (PulseAudio: `main` of daemon/main.c with its threads.)
pub fn serve<R, H, G>(
    rt: &R,
    alloc: Global,
    header: &Header,
    source: Option<&SourceName>,
    host: &mut H,
    gate: Arc<G>,
    taped: bool,
) -> Served<H>
where
    R: Threads + Wait + Copy + Drop + Send + Sync + 'static,
    H: Host,
    H::L: 'static,
    H::O: 'static,
    H::D: 'static,
    H::R: 'static,
    H::C: 'static,
    G: Gate + Drop + Send + Sync + 'static,
    requires { IsHeader header.now }
    ensures served { IsServed H.C.visible H.C.faults H.C.fulls H.D.now H.R.visible H.R.faults H.R.fulls (option_map (λ name. name.now) source.entry) header.now (H.now host.old) (H.now host.new) result.status result.lanes.items result.core }
    ensures exact { IsSome result.core → Lends (length result.lanes.items) 1 (H.now host.old) (H.now host.new) }
    ensures tape { HasTape H.R.visible taped result.status result.lanes.items result.tape }
    ensures dialled { H.dialled host.new ≡ H.dialled host.old }
{
    let mut lanes = Vec::new(alloc);
    let mut turns = Vec::new(alloc);
    match make_room(header.sinks.len(), &mut lanes, &mut turns) {
        Ok(()) => serve_within(rt, alloc, header, source, host, gate, lanes, turns, taped),
        Err(_) => unserved(lanes, VecDeque::new(alloc), Stop::Memory),
    }
}
