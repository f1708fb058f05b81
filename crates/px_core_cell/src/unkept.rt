//! Steps of the core whose entries nobody keeps.

ghost use Rattle.std.specs.Prelude.{◌≡◌, ◌-◌, ◌^◌, ◌<◌, true, length, None};
ghost use Rattle.px_core_cell.specs.Cell.{ends_of, logged_of, calls_of};
ghost use Rattle.px_core_cell.specs.Boxes.{boxes_of};
ghost use Rattle.px_core_cell.specs.Cause.{Says, StepSays};
ghost use Rattle.px_core_cell.specs.Step.{is_own, IsAsked, OwnGives, NoticeGives, NoticeStops};

use crate::act::act;
use crate::ends::CoreEnd;
use crate::log::StepLog;
use crate::parcel::CellCore;
use crate::parts::waits;
use crate::step::{CoreStep, StepFault};
use px_annals::{CoreEntry, Recorder};
use px_core::Effects;
use px_types::{NoMemory, SinkId};
use std::alloc::Global;
use std::sync::Wait;

/// Does a step without a sink, whose entry nobody keeps.
pub(crate) fn own_unkept<C: Recorder<CoreEntry>>(
    alloc: Global,
    core: &mut CellCore,
    log: &mut StepLog<C>,
    step: CoreStep,
) -> Result<Effects, StepFault>
    requires own { is_own step ≡ true }
    requires asked { IsAsked step }
    requires unseen { C.visible log.old.recorder ≡ None }
    requires countable { log.old.steps < 2 ^ 64 - 1 }
    ensures gives { OwnGives C.visible step (logged_of core.old.state log.old) (logged_of core.new.state log.new) result }
    ensures said { Says C.limit C.visible C.faults C.fulls result log.old.recorder log.new.recorder }
{
    let owed = waits(&step);
    match act(alloc, core, step) {
        Ok(effects) => {
            log.count(owed);
            Ok(effects)
        }
        Err(NoMemory) => Err(StepFault::NoMemory),
    }
}

/// Does the step of a sink's next notice, if there is one; nobody keeps its entry.
pub(crate) fn notice_unkept<C: Recorder<CoreEntry>, R: Wait>(
    rt: &R,
    core: &mut CellCore,
    log: &mut StepLog<C>,
    end: &mut CoreEnd,
    sink: SinkId,
) -> Result<Option<Effects>, StepFault>
    requires unseen { C.visible log.old.recorder ≡ None }
    requires countable { log.old.steps < 2 ^ 64 - 1 }
    requires exists { sink.0 < length core.old.state.sinks }
    ensures gives { NoticeGives C.visible sink.0 (logged_of core.old.state log.old) (logged_of core.new.state log.new) (ends_of end.old) (ends_of end.new) result }
    ensures stops { NoticeStops (calls_of end.old) (calls_of end.new) result }
    ensures said { StepSays C.limit C.visible C.faults C.fulls result log.old.recorder log.new.recorder }
    ensures boxes { boxes_of end.new ≡ boxes_of end.old }
{
    end.fetch(rt);
    let Some(notice) = &end.held else {
        return Ok(None);
    };
    match end.collect(core, sink) {
        Ok(effects) => {
            log.count(true);
            Ok(Some(effects))
        }
        Err(NoMemory) => Err(StepFault::NoMemory),
    }
}
