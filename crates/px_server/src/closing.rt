//! The end of a serving call: what it hands back once its workers have ended.
ghost use Rattle.std.specs.Prelude.{◌≡◌, ◌≤◌, [], List, length, map, true, IsSome, vec_capacity};
ghost use Rattle.px_header.specs.declared.header.SinkSpec.{SinkSpec};
ghost use Rattle.px_workers.specs.Hosted.{IsLater, IsCauseOf};
ghost use Rattle.px_workers.specs.Working.{start_of};
ghost use Rattle.px_server.specs.Mailboxes.{boxes_in};
ghost use Rattle.px_server.specs.Parts.{starts_of};
ghost use Rattle.px_server.specs.Serving.{Ends};
ghost use Rattle.px_server.specs.Taped.{AreTaping, HasTape};

use crate::handle::WorkerHandle;
use crate::left::close_with;
use crate::served::{LanePart, Served, decided, woven};
use px_cell::Seats;
use px_ends::Host;
use px_shared::CoreHandle;
use px_tape::SinkTurns;
use px_workers::{Gate, SinkState, Stop, serve_all};
use std::collections::VecDeque;
use std::sync::{Arc, Wait};
use std::thread::Threads;

// The result of a call with this stop, once its workers have ended.
fn ended<R, H, L>(
    handle: CoreHandle<R, H::C, L, H::O>,
    stop: Stop,
    mut idle: VecDeque<SinkState<H::D, H::R>>,
    mut lanes: Vec<LanePart<H::D, H::R>>,
    mut turns: Vec<SinkTurns>,
    taped: bool,
) -> Served<H>
where
    R: Wait + Copy + Drop,
    H: Host,
    L: Seats,
    requires seats { handle.seat.parts ≡ L.all }
    requires sinks { (sinks : List SinkSpec) × (map start_of idle.items ≡ starts_of sinks) }
    requires boxes { map boxes_in idle.items ≡ L.boxes }
    requires none { lanes.items ≡ [] }
    requires room { length idle.items ≤ vec_capacity lanes }
    requires no_turns { turns.items ≡ [] }
    requires turns_room { length idle.items ≤ vec_capacity turns }
    requires taping { taped ≡ true → AreTaping idle.items }
    ensures tape { HasTape H.R.visible taped result.status result.lanes.items result.tape }
    ensures ends { (before after : _) → IsCauseOf stop before after → Ends H.C.visible H.C.faults H.C.fulls L.began H.D.now H.R.visible H.R.faults H.R.fulls (map start_of idle.items) before after result.status result.lanes.items result.core }
    ensures core { IsSome result.core }
{
    let alloc = handle.alloc;
    let tape = handle.take_tape();
    let core = close_with(handle, &mut idle, &mut lanes, &mut turns);
    let (tape, stop) = woven(alloc, taped, tape, turns, stop);
    Served {
        status: decided(stop, core.fault, core.sink_fault),
        lanes,
        core: Some(core.recorder),
        tape,
    }
}

/// Runs all workers, from their start to their end.
pub(crate) fn run<R, H, G, L>(
    handle: CoreHandle<R, H::C, L, H::O>,
    host: &mut H,
    gate: Arc<G>,
    mut idle: VecDeque<SinkState<H::D, H::R>>,
    lanes: Vec<LanePart<H::D, H::R>>,
    turns: Vec<SinkTurns>,
    taped: bool,
) -> Served<H>
where
    R: Threads + Wait + Copy + Drop + Send + Sync + 'static,
    H: Host,
    H::L: 'static,
    H::O: 'static,
    H::D: 'static,
    H::R: 'static,
    H::C: 'static,
    G: Gate + Drop + Send + Sync + 'static,
    L: Seats + Send + Sync + 'static,
    requires seats { (handle.seat.parts ≡ 65552) × (L.all ≡ 65552) }
    requires sinks { (sinks : List SinkSpec) × (map start_of idle.items ≡ starts_of sinks) }
    requires boxes { map boxes_in idle.items ≡ L.boxes }
    requires few { length idle.items ≤ 16 }
    requires none { lanes.items ≡ [] }
    requires room { length idle.items ≤ vec_capacity lanes }
    requires no_turns { turns.items ≡ [] }
    requires turns_room { length idle.items ≤ vec_capacity turns }
    requires taping { taped ≡ true → AreTaping idle.items }
    ensures tape { HasTape H.R.visible taped result.status result.lanes.items result.tape }
    ensures later { IsLater (H.now host.old) (H.now host.new) }
    ensures lent { (H.now host.new).lent ≡ (H.now host.old).lent }
    ensures ends { Ends H.C.visible H.C.faults H.C.fulls L.began H.D.now H.R.visible H.R.faults H.R.fulls (map start_of idle.items) (H.now host.old) (H.now host.new) result.status result.lanes.items result.core }
    ensures core { IsSome result.core }
    ensures dialled { H.dialled host.new ≡ H.dialled host.old }
{
    let handle = WorkerHandle { core: handle };
    let (handle, stop) = serve_all(handle, host, gate, &mut idle);
    ended(handle.core, stop, idle, lanes, turns, taped)
}
