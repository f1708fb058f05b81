ghost use Rattle.std.specs.Prelude.{IfOk, map};
ghost use Rattle.px_core_cell.specs.Cell.{ends_of};
ghost use Rattle.px_core_cell.specs.History.{Begins};
ghost use Rattle.px_core_cell.specs.Step.{IsAsked};

use crate::tests::asking::{AUTH, CREATE, framed};
use crate::tests::recorder::Crowded;
use crate::tests::scene::{Mixer, OUT, Scene, new_scene, taken};
use px_annals::{CoreEntry, NoRecorder, Recorder};
use px_cell::{CoreState, CoreStep, StepFault};
use px_msg::Notice;
use px_types::{ConnId, InputId, Mem};
use std::alloc::Global;
use std::sync::Wait;

const CLIENT: ConnId = ConnId(7);

// The number of steps of a run.
const STEPS: usize = 12;

// The steps of a run, by their place: a client that authenticates and creates a stream, the stream's notice, and its end.
fn step_at(alloc: Global, place: usize) -> Mem<CoreStep>
    ensures { IfOk result IsAsked }
{
    match place {
        0 => Ok(CoreStep::Connect(CLIENT)),
        2 => framed(alloc, CLIENT, AUTH, &[0; 256]),
        4 => framed(alloc, CLIENT, CREATE, &[]),
        6 | 11 => Ok(CoreStep::Out(OUT)),
        7 => Ok(CoreStep::Notice(OUT)),
        9 => Ok(CoreStep::Close(CLIENT)),
        _ => Ok(CoreStep::Sweep),
    }
}

// Whether a step is done.
fn is_done<R: Wait, C: Recorder<CoreEntry>>(
    rt: &R,
    alloc: Global,
    state: &mut CoreState<C>,
    step: CoreStep,
) -> bool
    requires { IsAsked step }
{
    matches!(state.step(rt, alloc, step), Ok(Some(_)))
}

// Whether the step at a place is done.
fn goes_on<R: Wait>(rt: &R, alloc: Global, state: &mut CoreState<Crowded>, place: usize) -> bool {
    match step_at(alloc, place) {
        Ok(step) => is_done(rt, alloc, state, step),
        Err(_) => false,
    }
}

// Whether all steps of the run are done, each made again where it wasn't, and three messages come to the sink, which has one notice.
fn all_done<R: Wait>(
    rt: &R,
    alloc: Global,
    state: &mut CoreState<Crowded>,
    mixer: &mut Mixer,
) -> bool {
    let notice = Notice::Started { input: InputId(0) };
    let Mixer { outbox, post, .. } = mixer;
    let mut right = outbox.post(rt, post, notice).is_ok();
    for place in 0..STEPS {
        right = right && (goes_on(rt, alloc, state, place) || goes_on(rt, alloc, state, place));
    }
    for _ in 0..3 {
        right = taken(rt, mixer).is_some() && right;
    }
    right && taken(rt, mixer).is_none()
}

// The recorder of a core that ends.
fn recorder_of(state: CoreState<Crowded>) -> Crowded {
    state.into_parts().log.recorder
}

// The recorder of the whole run in a scene, which is full once at `full_at` entries, and whether all of the run is done.
fn run_in<R: Wait>(rt: &R, alloc: Global, scene: Scene, full_at: usize) -> (Crowded, bool)
    requires { Begins scene.core.state (map ends_of scene.ends.items) }
{
    let Scene {
        core,
        ends,
        mut mixer,
    } = scene;
    let mut state = CoreState::new(core, Crowded::new(alloc, full_at), ends);
    let done = all_done(rt, alloc, &mut state, &mut mixer);
    (recorder_of(state), done)
}

// The same in a new scene.
fn run<R: Wait>(rt: &R, alloc: Global, full_at: usize) -> Mem<(Crowded, bool)> {
    let scene = new_scene(alloc)?;
    Ok(run_in(rt, alloc, scene, full_at))
}

// Whether a recorder that is full once, at whichever place, holds the same as one that never is.
fn misses_nothing<R: Wait>(rt: &R, alloc: Global) -> Mem<bool> {
    let (whole, done) = run(rt, alloc, STEPS)?;
    let mut right = done && whole.len() == STEPS && whole.fulls() == 0;
    for full_at in 0..STEPS {
        right = right
            && matches!(run(rt, alloc, full_at), Ok((other, true)) if other.fulls() == 1 && other.matches(&whole));
    }
    Ok(right)
}

#[test]
fn a_recorder_that_is_full_for_a_while_misses_nothing(rt: HostRuntime) {
    assert!(rt; matches!(misses_nothing(&rt, rt.alloc()), Ok(true)));
}

// Whether the same step comes back, the connection's end or the notice, since a sweep is owed.
fn comes_back<R: Wait>(
    rt: &R,
    alloc: Global,
    state: &mut CoreState<NoRecorder>,
    step: CoreStep,
) -> bool
    requires { IsAsked step }
{
    matches!(
        state.step(rt, alloc, step),
        Err(StepFault::Owed(CoreStep::Close(CLIENT) | CoreStep::Notice(OUT)))
    )
}

// Whether steps made while a sweep is owed come back, and are done after it. The sink has no notice.
fn sweeps<R: Wait>(rt: &R, alloc: Global, state: &mut CoreState<NoRecorder>) -> bool {
    is_done(rt, alloc, state, CoreStep::Connect(CLIENT))
        && comes_back(rt, alloc, state, CoreStep::Close(CLIENT))
        && is_done(rt, alloc, state, CoreStep::Out(OUT))
        && comes_back(rt, alloc, state, CoreStep::Notice(OUT))
        && is_done(rt, alloc, state, CoreStep::Sweep)
        && matches!(state.step(rt, alloc, CoreStep::Notice(OUT)), Ok(None))
        && is_done(rt, alloc, state, CoreStep::Close(CLIENT))
        && state.steps() == 4
}

fn is_swept<R: Wait>(rt: &R, alloc: Global) -> Mem<bool> {
    let Scene { core, ends, mixer } = new_scene(alloc)?;
    let mut state = CoreState::new(core, NoRecorder, ends);
    let swept = sweeps(rt, alloc, &mut state);
    // By calls, so that their fields are dropped by functions of their own.
    drop(state);
    drop(mixer);
    Ok(swept)
}

#[test]
fn a_step_comes_back_for_which_a_sweep_is_owed(rt: HostRuntime) {
    assert!(rt; matches!(is_swept(&rt, rt.alloc()), Ok(true)));
}
