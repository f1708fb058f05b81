//! Steps of the core, one after the other, with their effects joined.

ghost use Rattle.std.specs.Prelude.{◌≡◌, ◌≤◌, [], ◌∷◌, ◌++◌, All, length, map, take, drop, replicate, IfOk, OnOk, Ok};
ghost use Rattle.px_frame.specs.Frame.{IsBody};
ghost use Rattle.px_frame.specs.Progress.{GivesBodies};
ghost use Rattle.px_msg.specs.View.{message_of, notice_for};
ghost use Rattle.px_model.specs.Stream.{Stream as Plain};
ghost use Rattle.px_lane.specs.Lists.{plain_notice};
ghost use Rattle.px_state.specs.Out.{waiting_for};
ghost use Rattle.px_core.specs.Step.{Step, stepped, effects_of, stepped_by, effects_by};
ghost use Rattle.px_world.specs.Running.{IsAnswered, steps_given};

use crate::parcel::{Carried, handed_over, taken_over};
use px_core::{Core, Effects};
use px_frame::{Frame, FrameError, FrameFault, Frames};
use px_lane::{MsgList, NoticeList};
use px_msg::Notice;
use px_stream::Stream;
use px_types::{ConnId, Mem, NoMemory, SinkId};
use std::alloc::Global;
use std::collections::VecDeque;

/// The core of the world: what moves between sinks are streams.
pub type WorldCore = Core<Carried>;

/// Handles a frame of a connection.
pub(crate) fn take_one(core: &mut WorldCore, conn: ConnId, frame: Frame) -> Mem<Effects>
    requires { IsBody frame.body }
    ensures core { OnOk result (core.new.state ≡ stepped_by Plain.spec core.old.state (steps_given conn (Ok (frame ∷ [])))) }
    ensures effects { IfOk result (λ effects. effects ≡ effects_by Plain.spec core.old.state (steps_given conn (Ok (frame ∷ [])))) }
{
    match core.frame(conn, frame) {
        Ok(effects) => Ok(effects),
        Err(_) => Err(NoMemory),
    }
}

// Handles a frame of a connection, and appends its effects to `effects`.
fn take_frame(core: &mut WorldCore, conn: ConnId, frame: Frame, effects: &mut Effects) -> Mem<()>
    requires { IsBody frame.body }
    ensures core { OnOk result (core.new.state ≡ stepped Plain.spec core.old.state (Step.frame conn frame)) }
    ensures effects { OnOk result (effects.new ≡ effects.old ++ effects_of Plain.spec core.old.state (Step.frame conn frame)) }
{
    match core.frame(conn, frame) {
        Ok(more) => effects.append(more),
        Err(_) => Err(NoMemory),
    }
}

/// Handles the frames of a connection, in order, and appends their effects.
pub(crate) fn take_frames(
    core: &mut WorldCore,
    conn: ConnId,
    frames: Vec<Frame>,
    effects: &mut Effects,
) -> Mem<()>
    requires { All (λ f. IsBody f.body) frames.items }
    ensures core { OnOk result (core.new.state ≡ stepped_by Plain.spec core.old.state (map (Step.frame conn) frames.items)) }
    ensures effects { OnOk result (effects.new ≡ effects.old ++ effects_by Plain.spec core.old.state (map (Step.frame conn) frames.items)) }
{
    let mut frames = VecDeque::from_vec(frames);
    while let Some(frame) = frames.pop_front() {
        take_frame(core, conn, frame, effects)?;
    }
    Ok(())
}

// Handles the frames of a connection, in order, then the fault after them, and appends their effects.
fn take_broken(
    core: &mut WorldCore,
    conn: ConnId,
    frames: Vec<Frame>,
    fault: FrameFault,
    at: u64,
    effects: &mut Effects,
) -> Mem<()>
    requires { All (λ f. IsBody f.body) frames.items }
    ensures core { OnOk result (core.new.state ≡ stepped_by Plain.spec core.old.state (map (Step.frame conn) frames.items ++ Step.broken conn fault at ∷ [])) }
    ensures effects { OnOk result (effects.new ≡ effects.old ++ effects_by Plain.spec core.old.state (map (Step.frame conn) frames.items ++ Step.broken conn fault at ∷ [])) }
{
    take_frames(core, conn, frames, effects)?;
    let more = core.broken(conn, fault, at)?;
    effects.append(more)?;
    Ok(())
}

/// Handles what a connection's decoder returned: the frames, and the fault where it is new.
pub(crate) fn take_given(
    core: &mut WorldCore,
    alloc: Global,
    conn: ConnId,
    given: Result<Frames, FrameError>,
) -> Mem<Effects>
    requires { GivesBodies given }
    ensures answered { OnOk result (IsAnswered given) }
    ensures core { OnOk result (core.new.state ≡ stepped_by Plain.spec core.old.state (steps_given conn given)) }
    ensures effects { IfOk result (λ effects. effects ≡ effects_by Plain.spec core.old.state (steps_given conn given)) }
{
    let mut effects = Effects::new(alloc);
    match given {
        Ok(frames) => {
            take_frames(core, conn, frames.into_vec(), &mut effects)?;
            Ok(effects)
        }
        Err(FrameError::Fault { frames, fault, at }) => {
            take_broken(core, conn, frames.into_vec(), fault, at, &mut effects)?;
            Ok(effects)
        }
        Err(FrameError::Failed { fault: _, at: _ }) => Ok(effects),
        Err(FrameError::NoMemory) => Err(NoMemory),
    }
}

/// Moves the first `count` messages that wait for a sink to the end of `messages`.
pub fn take_messages(
    core: &mut WorldCore,
    sink: SinkId,
    count: u64,
    messages: &mut MsgList,
) -> Mem<()>
    requires { count ≤ length (waiting_for core.old.state sink) }
    ensures core { OnOk result (core.new.state ≡ stepped_by Plain.spec core.old.state (replicate count (Step.out sink))) }
    ensures messages { OnOk result (messages.new.messages ≡ messages.old.messages ++ map (message_of (λ s. s)) (take count (waiting_for core.old.state sink))) }
{
    messages.reserve(count as usize)?;
    let mut left = count;
    while left > 0 {
        let Some(message) = core.sent(sink) else {
            return Ok(());
        };
        messages.push(taken_over(message));
        left -= 1;
    }
    Ok(())
}

// Handles a notice of a sink, and appends its effects.
fn take_notice(
    core: &mut WorldCore,
    sink: SinkId,
    notice: Notice<Stream>,
    effects: &mut Effects,
) -> Mem<()>
    ensures core { OnOk result (core.new.state ≡ stepped Plain.spec core.old.state (Step.notice sink (notice_for (plain_notice notice)))) }
    ensures effects { OnOk result (effects.new ≡ effects.old ++ effects_of Plain.spec core.old.state (Step.notice sink (notice_for (plain_notice notice)))) }
{
    match core.notice(sink, handed_over(notice)) {
        Ok(more) => effects.append(more),
        Err(_) => Err(NoMemory),
    }
}

/// Handles the first `count` notices of a sink, in order, and appends their effects.
pub(crate) fn take_notices(
    core: &mut WorldCore,
    sink: SinkId,
    count: u64,
    notices: &mut NoticeList,
    effects: &mut Effects,
) -> Mem<()>
    requires { count ≤ length notices.old.notices }
    ensures core { OnOk result (core.new.state ≡ stepped_by Plain.spec core.old.state (map (λ n. Step.notice sink (notice_for n)) (take count notices.old.notices))) }
    ensures effects { OnOk result (effects.new ≡ effects.old ++ effects_by Plain.spec core.old.state (map (λ n. Step.notice sink (notice_for n)) (take count notices.old.notices))) }
    ensures notices { OnOk result (notices.new.notices ≡ drop count notices.old.notices) }
{
    let mut left = count;
    while left > 0 {
        let Some(notice) = notices.pop_front() else {
            return Ok(());
        };
        take_notice(core, sink, notice, effects)?;
        left -= 1;
    }
    Ok(())
}

/// Sweeps the connections that have ended, and appends the effects.
pub fn swept(core: &mut WorldCore, effects: Effects) -> Mem<Effects>
    ensures core { OnOk result (core.new.state ≡ stepped_by Plain.spec core.old.state (Step.sweep ∷ [])) }
    ensures effects { IfOk result (λ all. all ≡ effects ++ effects_by Plain.spec core.old.state (Step.sweep ∷ [])) }
{
    let mut effects = effects;
    let more = core.sweep()?;
    effects.append(more)?;
    Ok(effects)
}
