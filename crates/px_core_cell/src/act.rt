//! The steps of the core without a sink.

ghost use Rattle.std.specs.Prelude.{◌≡◌, true, IfOk, OnOk, OnErr};
ghost use Rattle.px_core.specs.Step.{stepped, effects_of};
ghost use Rattle.px_core_cell.specs.Parcel.{spec_of};
ghost use Rattle.px_core_cell.specs.Step.{is_own, step_for, IsAsked, IsEntryFor};

use crate::parcel::CellCore;
use crate::plain::plain_body;
use crate::step::CoreStep;
use px_annals::PlainStep;
use px_core::{EffectRoom, Effects};
use px_types::{Mem, NoMemory};
use std::alloc::Global;

/// The plain form of a step without a sink.
pub(crate) fn plain_step(alloc: Global, step: &CoreStep) -> Mem<PlainStep>
    requires { is_own step.now ≡ true }
    ensures { IfOk result (λ plain. IsEntryFor step.now plain) }
{
    match step {
        CoreStep::Connect(conn) => Ok(PlainStep::Connect { conn: conn.0 }),
        CoreStep::Frame(conn, frame) => Ok(PlainStep::Frame {
            conn: conn.0,
            at: frame.at,
            body: plain_body(alloc, &frame.body)?,
        }),
        CoreStep::Broken(conn, fault, at) => Ok(PlainStep::Broken {
            conn: conn.0,
            fault: fault.code(),
            at: *at,
        }),
        CoreStep::Close(conn) => Ok(PlainStep::Close { conn: conn.0 }),
        CoreStep::Cut(conn) => Ok(PlainStep::Cut { conn: conn.0 }),
        CoreStep::Sweep => Ok(PlainStep::Sweep),
        CoreStep::Notice(_) | CoreStep::Out(_) => unreachable!(),
    }
}

/// Does such a step of the core. Without memory for it nothing has changed.
pub(crate) fn act(alloc: Global, core: &mut CellCore, step: CoreStep) -> Mem<Effects>
    requires own { is_own step ≡ true }
    requires asked { IsAsked step }
    ensures after { OnOk result (core.new.state ≡ stepped spec_of core.old.state (step_for step)) }
    ensures effects { IfOk result (λ effects. effects ≡ effects_of spec_of core.old.state (step_for step)) }
    ensures err { OnErr result (core.new.state ≡ core.old.state) }
{
    match step {
        CoreStep::Connect(conn) => core.admit(conn),
        CoreStep::Frame(conn, frame) => match core.frame(conn, frame) {
            Ok(effects) => Ok(effects),
            Err(_) => Err(NoMemory),
        },
        CoreStep::Broken(conn, fault, at) => core.broken(conn, fault, at),
        CoreStep::Close(conn) => {
            core.close(conn);
            Ok(Effects::new(alloc))
        }
        CoreStep::Cut(conn) => {
            let room = EffectRoom::new(alloc)?;
            Ok(room.hold(core.cut(conn)))
        }
        CoreStep::Sweep => core.sweep(),
        CoreStep::Notice(_) | CoreStep::Out(_) => unreachable!(),
    }
}
