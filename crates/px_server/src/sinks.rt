//! The sinks of a server: what the host makes for each, and their cells.
ghost use Rattle.std.specs.Prelude.{◌≡◌, ℕ, ◌+◌, ◌≤◌, ◌<◌, false, ◌++◌, ◌∷◌, [], List, length, map, IfOk, IfErr, OnOk, OnErr, IfSome, vec_len, vec_capacity};
ghost use Rattle.std.specs.Option.{is_some};
ghost use Rattle.std.specs.VecDeque.{deque_len, deque_capacity};
ghost use Rattle.px_ends.specs.Device.{IsShape};
ghost use Rattle.px_sample.specs.Format.{frame_size_of};
ghost use Rattle.px_header.specs.HeaderRules.{IsSink, AreSinks, IsHeader};
ghost use Rattle.px_header.specs.declared.header.SinkSpec.{SinkSpec as Spec};
ghost use Rattle.px_lane_cell.specs.Cell.{AreEnds, IsKeyOf, taken_in, posted_in};
ghost use Rattle.px_core_cell.specs.Boxes.{boxes_of};
ghost use Rattle.px_core_cell.specs.Cell.{ends_of};
ghost use Rattle.px_core_cell.specs.History.{fresh_ends};
ghost use Rattle.px_workers.specs.Hosted.{IsLater, IsCalm, IsCauseOf};
ghost use Rattle.px_server.specs.Hosted.{stop_by, HasLent, Lends};
ghost use Rattle.px_workers.specs.declared.sink_state.SinkFault.TheVariants.{Nothing};
ghost use Rattle.px_workers.specs.Working.{start_of, IsHonest};
ghost use Rattle.px_server.specs.Parts.{sink_for, starts_of, starts_from, IsFrontOf, Adds};
ghost use Rattle.px_server.specs.Fresh.{IsFresh};
ghost use Rattle.px_server.specs.Mailboxes.{boxes_at};
ghost use Rattle.px_server.specs.Made.{IsMade, AreMade, AddsOne, AddsAll};

use crate::served::stop_by;
use px_annals::{LaneEntry, Recorder};
use px_cell::{Boxes, CoreEnd, CoreEnds, LaneCell, LaneEnds, LanePasses};
use px_ends::{Device, DeviceShape, Host, HostFault};
use px_header::{Header, SinkSpec};
use px_lane::Lane;
use px_mail::Shared;
use px_msg::{Msg, Notice};
use px_stream::Stream;
use px_tape::SinkTurns;
use px_types::{Mem, NoMemory, SinkId};
use px_workers::{SinkState, Stop};
use std::alloc::Global;
use std::collections::VecDeque;

// The shape of a sink's device.
fn shape_of(sink: &SinkSpec) -> DeviceShape
    requires { (earlier : List Spec) × IsSink earlier sink.now }
    ensures value { result ≡ record { frame = frame_size_of sink.now.spec; rate = sink.now.spec.rate; guard = sink.now.guard; depth = sink.now.depth } }
    ensures shape { IsShape result }
{
    DeviceShape {
        frame: sink.spec.frame_size() as u32,
        rate: sink.spec.rate,
        guard: sink.guard,
        depth: sink.depth,
    }
}

// The new mailboxes of a sink: its worker's ends, and the core's.
fn mailboxes(alloc: Global, sink: &SinkSpec) -> Mem<(LaneEnds, CoreEnd)>
    ensures ends { IfOk result (λ made. AreEnds made.0 × IsKeyOf made.0 (sink_for sink.now)) }
    ensures unmoved { IfOk result (λ made. (taken_in made.0 ≡ []) × (posted_in made.0 ≡ [])) }
    ensures core { IfOk result (λ made. ends_of made.1 ≡ fresh_ends sink.now) }
    ensures boxes { IfOk result (λ made. boxes_at made.0 ≡ boxes_of made.1) }
{
    let inbox = Shared::<Msg<Stream>>::new(alloc, sink.spec)?;
    let outbox = Shared::<Notice<Stream>>::new(alloc, ())?;
    let core = CoreEnd::new(inbox.twin, outbox.twin, inbox.post, outbox.take);
    let lane = LaneEnds {
        boxes: Boxes {
            inbox: inbox.mailbox,
            outbox: outbox.mailbox,
        },
        passes: LanePasses {
            take: inbox.take,
            post: outbox.post,
        },
    };
    Ok((lane, core))
}

// A sink's device and its recorder.
fn outside<H: Host>(alloc: Global, sink: &SinkSpec, host: &mut H) -> Result<(H::D, H::R), HostFault>
    requires { (earlier : List Spec) × IsSink earlier sink.now }
    ensures later { IsLater (H.now host.old) (H.now host.new) }
    ensures lends { OnOk result (Lends 1 0 (H.now host.old) (H.now host.new)) }
    ensures calm { OnOk result (IsCalm (H.now host.old) (H.now host.new)) }
    ensures lent { OnOk result ((n : ℕ) → HasLent n 0 (H.now host.old) → HasLent (n + 1) 0 (H.now host.new)) }
    ensures lent_stays { OnErr result ((n : ℕ) → HasLent n 0 (H.now host.old) → HasLent n 0 (H.now host.new)) }
    ensures cause { IfErr result (λ fault. IsCauseOf (stop_by fault) (H.now host.old) (H.now host.new)) }
    ensures fresh { IfOk result (λ made. IsFresh sink.now (H.D.now made.0) (H.R.visible made.1) (H.R.faults made.1) (H.R.fulls made.1)) }
    ensures dialled { H.dialled host.new ≡ H.dialled host.old }
{
    let device = host.device(alloc, sink.name.as_slice(), &shape_of(sink))?;
    let recorder = host.lane_recorder(alloc)?;
    Ok((device, recorder))
}

// A sink's cell, with these ends of its mailboxes.
fn cell_at<D: Device + Drop, E: Recorder<LaneEntry> + Drop>(
    alloc: Global,
    sink: &SinkSpec,
    ends: LaneEnds,
    device: D,
    recorder: E,
) -> Mem<LaneCell<D, E>>
    requires sink { (earlier : List Spec) × IsSink earlier sink.now }
    requires fresh { IsFresh sink.now (D.now device) (E.visible recorder) (E.faults recorder) (E.fulls recorder) }
    requires ends { AreEnds ends × IsKeyOf ends (sink_for sink.now) }
    requires unmoved { (taken_in ends ≡ []) × (posted_in ends ≡ []) }
    ensures lane { IfOk result (λ cell. cell.lane ≡ record { sink = sink_for sink.now; device = device; faults = 0 }) }
    ensures recorder { IfOk result (λ cell. cell.recorder ≡ recorder) }
    ensures ends { IfOk result (λ cell. cell.ends ≡ ends) }
{
    let lane = Lane::new(alloc, sink, device)?;
    LaneCell::new(alloc, lane, recorder, ends)
}

// A sink's cell, with the core's ends of its mailboxes.
fn cell_of<D: Device + Drop, E: Recorder<LaneEntry> + Drop>(
    alloc: Global,
    sink: &SinkSpec,
    device: D,
    recorder: E,
) -> Mem<(LaneCell<D, E>, CoreEnd)>
    requires sink { (earlier : List Spec) × IsSink earlier sink.now }
    requires fresh { IsFresh sink.now (D.now device) (E.visible recorder) (E.faults recorder) (E.fulls recorder) }
    ensures sink { IfOk result (λ made. made.0.lane.sink ≡ sink_for sink.now) }
    ensures honest { IfOk result (λ made. IsHonest D.now E.faults E.fulls made.0 Nothing) }
    ensures unnoted { IfOk result (λ made. IfSome (E.visible made.0.recorder) (λ entries. entries ≡ [])) }
    ensures core { IfOk result (λ made. ends_of made.1 ≡ fresh_ends sink.now) }
    ensures boxes { IfOk result (λ made. boxes_at made.0.ends ≡ boxes_of made.1) }
{
    let (ends, core) = mailboxes(alloc, sink)?;
    let Ok(cell) = cell_at(alloc, sink, ends, device, recorder) else {
        drop(core);
        return Err(NoMemory);
    };
    Ok((cell, core))
}

// No turns of a sink yet, where there is a tape.
fn turns_of(alloc: Global, sink: SinkId, taped: bool) -> Option<SinkTurns>
    ensures tapes { is_some result ≡ taped }
    ensures none { IfSome result (λ turns. (turns.turns ≡ []) × (turns.failed ≡ false) × (turns.sink ≡ sink.0)) }
{
    if taped {
        Some(SinkTurns::new(alloc, sink))
    } else {
        None
    }
}

// A sink not owned by a worker yet, with the core's ends of its mailboxes.
fn new_sink_state<H: Host>(
    alloc: Global,
    taped: bool,
    index: SinkId,
    sink: &SinkSpec,
    host: &mut H,
) -> Result<(SinkState<H::D, H::R>, CoreEnd), Stop>
    requires { (earlier : List Spec) × IsSink earlier sink.now }
    ensures later { IsLater (H.now host.old) (H.now host.new) }
    ensures lends { OnOk result (Lends 1 0 (H.now host.old) (H.now host.new)) }
    ensures calm { OnOk result (IsCalm (H.now host.old) (H.now host.new)) }
    ensures lent { OnOk result ((n : ℕ) → HasLent n 0 (H.now host.old) → HasLent (n + 1) 0 (H.now host.new)) }
    ensures lent_stays { OnErr result ((n : ℕ) → HasLent n 0 (H.now host.old) → HasLent n 0 (H.now host.new)) }
    ensures cause { IfErr result (λ stop. IsCauseOf stop (H.now host.old) (H.now host.new)) }
    ensures made { IfOk result (λ made. IsMade taped index sink.now made.0 made.1) }
    ensures dialled { H.dialled host.new ≡ H.dialled host.old }
{
    let (device, recorder) = match outside(alloc, sink, host) {
        Ok(made) => made,
        Err(fault) => return Err(stop_by(fault)),
    };
    let Ok((cell, core)) = cell_of(alloc, sink, device, recorder) else {
        return Err(Stop::Memory);
    };
    let idle = SinkState::new(index, cell, turns_of(alloc, index, taped));
    Ok((idle, core))
}

// Reserves room for one more sink.
fn reserve_one<D: Device + Drop, E: Recorder<LaneEntry> + Drop>(
    idle: &mut VecDeque<SinkState<D, E>>,
    ends: &mut CoreEnds,
) -> Mem<()>
    ensures idle { idle.new.items ≡ idle.old.items }
    ensures ends { ends.new.items ≡ ends.old.items }
    ensures room { OnOk result (deque_len idle.new < deque_capacity idle.new) }
    ensures ends_room { OnOk result (vec_len ends.new < vec_capacity ends.new) }
{
    idle.reserve(1)?;
    ends.reserve(1)?;
    Ok(())
}

// Appends one more sink, for which there is room.
fn add_one<D: Device + Drop, E: Recorder<LaneEntry> + Drop>(
    idle: &mut VecDeque<SinkState<D, E>>,
    ends: &mut CoreEnds,
    one: SinkState<D, E>,
    core: CoreEnd,
)
    requires room { deque_len idle.old < deque_capacity idle.old }
    requires ends_room { vec_len ends.old < vec_capacity ends.old }
    ensures idle { idle.new.items ≡ idle.old.items ++ one ∷ [] }
    ensures ends { ends.new.items ≡ ends.old.items ++ core ∷ [] }
{
    idle.push_back_reserved(one);
    ends.push_reserved(core);
}

// Makes one sink. On a fault the earlier ones stay.
fn make_one<H: Host>(
    alloc: Global,
    taped: bool,
    index: u8,
    sink: &SinkSpec,
    host: &mut H,
    idle: &mut VecDeque<SinkState<H::D, H::R>>,
    ends: &mut CoreEnds,
) -> Result<(), Stop>
    requires { (earlier : List Spec) × IsSink earlier sink.now }
    ensures later { IsLater (H.now host.old) (H.now host.new) }
    ensures lends { OnOk result (Lends 1 0 (H.now host.old) (H.now host.new)) }
    ensures calm { OnOk result (IsCalm (H.now host.old) (H.now host.new)) }
    ensures lent { HasLent (length idle.old.items) 0 (H.now host.old) → HasLent (length idle.new.items) 0 (H.now host.new) }
    ensures cause { IfErr result (λ stop. IsCauseOf stop (H.now host.old) (H.now host.new)) }
    ensures made { OnOk result (AddsOne taped (record { 0 = index }) sink.now idle.old.items ends.old.items idle.new.items ends.new.items) }
    ensures stays { OnErr result (idle.new.items ≡ idle.old.items) }
    ensures dialled { H.dialled host.new ≡ H.dialled host.old }
{
    let Ok(()) = reserve_one(idle, ends) else {
        return Err(Stop::Memory);
    };
    let (one, core) = new_sink_state(alloc, taped, SinkId(index), sink, host)?;
    add_one(idle, ends, one, core);
    Ok(())
}

// Makes the sinks of these entries, in order, the first of which has index `index`. On a fault the sinks before it stay.
fn make_from<H: Host>(
    alloc: Global,
    taped: bool,
    index: u8,
    sinks: &[SinkSpec],
    host: &mut H,
    idle: &mut VecDeque<SinkState<H::D, H::R>>,
    ends: &mut CoreEnds,
) -> Result<(), Stop>
    requires sinks { (earlier : List Spec) × AreSinks earlier sinks.now }
    requires few { index + length sinks.now ≤ 16 }
    ensures later { IsLater (H.now host.old) (H.now host.new) }
    ensures lends { OnOk result (Lends (length sinks.now) 0 (H.now host.old) (H.now host.new)) }
    ensures calm { OnOk result (IsCalm (H.now host.old) (H.now host.new)) }
    ensures lent { HasLent (length idle.old.items) 0 (H.now host.old) → HasLent (length idle.new.items) 0 (H.now host.new) }
    ensures cause { IfErr result (λ stop. IsCauseOf stop (H.now host.old) (H.now host.new)) }
    ensures made { OnOk result (AddsAll taped index sinks.now idle.old.items ends.old.items idle.new.items ends.new.items) }
    ensures front { Adds (map start_of idle.old.items) (starts_from index sinks.now) (map start_of idle.new.items) }
    ensures dialled { H.dialled host.new ≡ H.dialled host.old }
{
    match sinks.split_first() {
        None => Ok(()),
        Some((first, rest)) => {
            make_one(alloc, taped, index, first, host, idle, ends)?;
            make_from(alloc, taped, index + 1, rest, host, idle, ends)
        }
    }
}

/// Makes the sinks of a header, in order. On a fault the sinks before it stay.
pub(crate) fn make_all<H: Host>(
    alloc: Global,
    taped: bool,
    header: &Header,
    host: &mut H,
    idle: &mut VecDeque<SinkState<H::D, H::R>>,
    ends: &mut CoreEnds,
) -> Result<(), Stop>
    requires header { IsHeader header.now }
    requires none { (idle.old.items ≡ []) × (ends.old.items ≡ []) }
    ensures later { IsLater (H.now host.old) (H.now host.new) }
    ensures lends { OnOk result (Lends (length header.now.sinks) 0 (H.now host.old) (H.now host.new)) }
    ensures calm { OnOk result (IsCalm (H.now host.old) (H.now host.new)) }
    ensures lent { HasLent 0 0 (H.now host.old) → HasLent (length idle.new.items) 0 (H.now host.new) }
    ensures cause { IfErr result (λ stop. IsCauseOf stop (H.now host.old) (H.now host.new)) }
    ensures made { OnOk result (AreMade taped 0 header.now.sinks idle.new.items ends.new.items) }
    ensures front { IsFrontOf (map start_of idle.new.items) (starts_of header.now.sinks) }
    ensures dialled { H.dialled host.new ≡ H.dialled host.old }
{
    make_from(alloc, taped, 0, header.sinks.as_slice(), host, idle, ends)
}
