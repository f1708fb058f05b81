//! The entries of the core's steps, for which the recorder has reserved room.

ghost use Rattle.std.specs.Prelude.{◌≡◌, true, IfOk, MatchResult};
ghost use Rattle.px_annals.specs.Size.{size_of_core_entry};
ghost use Rattle.px_annals.specs.declared.step.PlainStep.TheVariants as plain;
ghost use Rattle.px_core_cell.specs.Cause.{Unnoted, Says};
ghost use Rattle.px_core_cell.specs.Plain.{plain_notice};
ghost use Rattle.px_core_cell.specs.Step.{is_own, IsEntryFor};

use crate::act::plain_step;
use crate::log::StepLog;
use crate::parcel::Carried;
use crate::plain::plain_notice;
use crate::step::{CoreStep, StepFault};
use px_annals::{CoreEntry, Entry, PlainStep, Recorder};
use px_msg::Notice;
use px_types::SinkId;
use std::alloc::Global;

// The entry of a plain step.
fn ready_entry<C: Recorder<CoreEntry>>(
    log: &mut StepLog<C>,
    step: PlainStep,
) -> Result<CoreEntry, StepFault>
    ensures step { IfOk result (λ entry. entry.step ≡ step) }
    ensures takes { IfOk result (λ entry. C.takes log.new.recorder (size_of_core_entry entry)) }
    ensures visible { C.visible log.new.recorder ≡ C.visible log.old.recorder }
    ensures fault { MatchResult result (λ _. log.new.fault ≡ log.old.fault) (λ e. Unnoted e log.old.fault log.new.fault) }
    ensures steps { log.new.steps ≡ log.old.steps }
    ensures owed { log.new.owed ≡ log.old.owed }
    ensures said { Says C.limit C.visible C.faults C.fulls result log.old.recorder log.new.recorder }
{
    let entry = CoreEntry { step };
    log.ready(entry.size())?;
    Ok(entry)
}

/// The entry of a step without a sink.
pub(crate) fn own_entry<C: Recorder<CoreEntry>>(
    alloc: Global,
    log: &mut StepLog<C>,
    step: &CoreStep,
) -> Result<CoreEntry, StepFault>
    requires own { is_own step.now ≡ true }
    ensures step { IfOk result (λ entry. IsEntryFor step.now entry.step) }
    ensures takes { IfOk result (λ entry. C.takes log.new.recorder (size_of_core_entry entry)) }
    ensures visible { C.visible log.new.recorder ≡ C.visible log.old.recorder }
    ensures fault { MatchResult result (λ _. log.new.fault ≡ log.old.fault) (λ e. Unnoted e log.old.fault log.new.fault) }
    ensures steps { log.new.steps ≡ log.old.steps }
    ensures owed { log.new.owed ≡ log.old.owed }
    ensures said { Says C.limit C.visible C.faults C.fulls result log.old.recorder log.new.recorder }
{
    let plain = plain_step(alloc, step)?;
    ready_entry(log, plain)
}

/// The entry of a sink's notice.
pub(crate) fn notice_entry<C: Recorder<CoreEntry>>(
    alloc: Global,
    log: &mut StepLog<C>,
    sink: SinkId,
    notice: &Notice<Carried>,
) -> Result<CoreEntry, StepFault>
    ensures step { IfOk result (λ entry. entry.step ≡ plain.Notice sink.0 (plain_notice notice.now)) }
    ensures takes { IfOk result (λ entry. C.takes log.new.recorder (size_of_core_entry entry)) }
    ensures visible { C.visible log.new.recorder ≡ C.visible log.old.recorder }
    ensures fault { MatchResult result (λ _. log.new.fault ≡ log.old.fault) (λ e. Unnoted e log.old.fault log.new.fault) }
    ensures steps { log.new.steps ≡ log.old.steps }
    ensures owed { log.new.owed ≡ log.old.owed }
    ensures said { Says C.limit C.visible C.faults C.fulls result log.old.recorder log.new.recorder }
{
    let notice = plain_notice(alloc, notice)?;
    ready_entry(
        log,
        PlainStep::Notice {
            sink: sink.0,
            notice,
        },
    )
}
