// A turn with its entry.
ghost use Rattle.std.specs.Prelude.{◌≡◌, ℕ, ◌<◌, ◌≤◌, ◌^◌, ⊤, List, [], length, Option, Ok, Err, IsFalse, IfOk, OnOk, OnErr, MatchResult};
ghost use Rattle.std.specs.Option.{option_map};
ghost use Rattle.px_annals.specs.History.{Limit, noted, sizes_by, ReadyCounts, SaysFull};
ghost use Rattle.px_annals.specs.Size.{size_of_lane_entry};
ghost use Rattle.px_annals.specs.declared.entry.LaneEntry.{LaneEntry};
ghost use Rattle.px_model.specs.Orderly.{IsOrderly};
ghost use Rattle.px_model.specs.Sink.{specs_of};
ghost use Rattle.px_model.specs.Stream.{Stream as Plain};
ghost use Rattle.px_lane.specs.Lane.{IsAttached};
ghost use Rattle.px_lane.specs.Turned.{Turns, Refuses};
ghost use Rattle.px_lane_cell.specs.Turning.{consumed_in, IsNoted, recorder_said, SaysWhy, IsWorn};

use crate::fault::CellFault;
use crate::plain::plain_messages;
use px_annals::{Entry, LaneEntry, Recorder};
use px_block::BlockSource;
use px_ends::Device;
use px_kernel::Steps;
use px_lane::{Lane, LaneFault, MsgList, NoticeList, Turned};
use px_tick_key::Key;
use std::alloc::Global;
use std::marker::Brand;
use std::sync::ledger::{Blank, Ledger};

// The frames that a turn's sync consumed, `None` where the sink has stopped.
fn consumed_in(turned: Turned) -> Option<u32>
    ensures { result ≡ consumed_in turned }
{
    match turned {
        Turned::Played {
            consumed: _,
            frames,
        } => Some(frames),
        Turned::Stopped { faults: _ } => None,
    }
}

// The cell's fault for a lane's fault.
fn lane_fault(fault: LaneFault) -> CellFault
    ensures said { recorder_said (Err result) ≡ Ok tt }
    ensures worn { (filled : ℕ) → Refuses filled fault → IsWorn (Err result) filled }
    ensures why { (limit : Option Limit) (sizes : Option (List ℕ)) → SaysFull {A = ⊤} (Ok tt) limit sizes → SaysWhy (Err result) limit sizes }
{
    match fault {
        LaneFault::NoMemory => CellFault::NoMemory,
        LaneFault::Worn { filled } => CellFault::Worn { filled },
    }
}

// A turn with a step count of its own, of the samples that it touches.
fn counted<D: Device + Drop, B: BlockSource, T: Ledger>(
    blank: Blank,
    alloc: Global,
    lane: &mut Lane<D>,
    messages: &mut MsgList,
    notices: &mut NoticeList,
    blocks: &mut B,
) -> Result<Turned, LaneFault>
    requires name { blank.name ≡ T.name }
    requires parts { blank.parts ≡ T.parts }
    requires some { 0 < T.parts }
    requires messages { IsOrderly Plain.spec lane.old.sink.spec (specs_of lane.old.sink.inputs) messages.old.messages }
    requires attached { IsFalse lane.old.sink.stopped → IsAttached (D.now lane.old.device) lane.old.sink }
    ensures ok { IfOk result (Turns D.now lane.old lane.new messages.old.messages notices.old.notices notices.new.notices) }
    ensures empty { OnOk result (messages.new.messages ≡ []) }
    ensures worn { MatchResult result (λ turned. lane.old.sink.filled ≤ 2 ^ 60) (Refuses lane.old.sink.filled) }
    ensures err { OnErr result ((lane.new ≡ lane.old) × (messages.new ≡ messages.old) × (notices.new.notices ≡ notices.old.notices)) }
    ensures message_room { messages.new.capacity ≡ messages.old.capacity }
{
    let mut steps = Steps::<T>::new(Key::new(), blank);
    lane.turn(alloc, messages, notices, blocks, &mut steps)
}

// A turn with all of these messages, whose entry is recorded.
fn turn_kept<D: Device + Drop, R: Recorder<LaneEntry>, B: BlockSource>(
    alloc: Global,
    lane: &mut Lane<D>,
    recorder: &mut R,
    messages: &mut MsgList,
    notices: &mut NoticeList,
    blocks: &mut B,
) -> Result<Turned, CellFault>
    requires messages { IsOrderly Plain.spec lane.old.sink.spec (specs_of lane.old.sink.inputs) messages.old.messages }
    requires attached { IsFalse lane.old.sink.stopped → IsAttached (D.now lane.old.device) lane.old.sink }
    ensures ok { IfOk result (λ turned. (entry : LaneEntry) × (R.visible recorder.new ≡ noted entry (R.visible recorder.old))
        × (length entry.messages ≡ length messages.old.messages) × (messages.new.messages ≡ [])
        × IsNoted D.now lane.old lane.new messages.old.messages notices.old.notices notices.new.notices turned entry) }
    ensures err { OnErr result ((lane.new ≡ lane.old) × (R.visible recorder.new ≡ R.visible recorder.old) × (messages.new.messages ≡ messages.old.messages) × (notices.new.notices ≡ notices.old.notices)) }
    ensures room { messages.new.capacity ≡ messages.old.capacity }
    ensures worn { IsWorn result lane.old.sink.filled }
    ensures why { SaysWhy result (R.limit recorder.old) (option_map (sizes_by size_of_lane_entry) (R.visible recorder.old)) }
    ensures limit { R.limit recorder.new ≡ R.limit recorder.old }
    ensures counts { ReadyCounts (recorder_said result) (R.faults recorder.old) (R.faults recorder.new) (R.fulls recorder.old) (R.fulls recorder.new) }
{
    let Ok(plain) = plain_messages(alloc, messages) else {
        return Err(CellFault::NoMemory);
    };
    let mut entry = LaneEntry {
        consumed: None,
        messages: plain,
    };
    if let Err(fault) = recorder.ready(entry.size()) {
        drop(entry);
        return Err(CellFault::Recorder(fault));
    }
    match counted::<D, B, Brand>(Blank::new(1), alloc, lane, messages, notices, blocks) {
        Ok(turned) => {
            entry.consumed = consumed_in(turned);
            recorder.note(entry);
            Ok(turned)
        }
        Err(fault) => {
            drop(entry);
            Err(lane_fault(fault))
        }
    }
}

// A turn with all of these messages, whose entry nobody keeps.
fn turn_unkept<D: Device + Drop, B: BlockSource>(
    alloc: Global,
    lane: &mut Lane<D>,
    messages: &mut MsgList,
    notices: &mut NoticeList,
    blocks: &mut B,
) -> Result<Turned, CellFault>
    requires messages { IsOrderly Plain.spec lane.old.sink.spec (specs_of lane.old.sink.inputs) messages.old.messages }
    requires attached { IsFalse lane.old.sink.stopped → IsAttached (D.now lane.old.device) lane.old.sink }
    ensures ok { IfOk result (λ turned. (entry : LaneEntry) × (length entry.messages ≡ length messages.old.messages) × (messages.new.messages ≡ [])
        × IsNoted D.now lane.old lane.new messages.old.messages notices.old.notices notices.new.notices turned entry) }
    ensures err { OnErr result ((lane.new ≡ lane.old) × (messages.new.messages ≡ messages.old.messages) × (notices.new.notices ≡ notices.old.notices)) }
    ensures room { messages.new.capacity ≡ messages.old.capacity }
    ensures worn { IsWorn result lane.old.sink.filled }
    ensures said { recorder_said result ≡ Ok tt }
{
    // Its contract says that each parcel in the messages is a well-formed stream, and such a stream has a plain form.
    messages.len();
    match counted::<D, B, Brand>(Blank::new(1), alloc, lane, messages, notices, blocks) {
        Ok(turned) => Ok(turned),
        Err(fault) => Err(lane_fault(fault)),
    }
}

/// A turn with all of these messages, whose entry is recorded where the recorder keeps entries.
pub(crate) fn turn_noted<D: Device + Drop, R: Recorder<LaneEntry>, B: BlockSource>(
    alloc: Global,
    lane: &mut Lane<D>,
    recorder: &mut R,
    messages: &mut MsgList,
    notices: &mut NoticeList,
    blocks: &mut B,
) -> Result<Turned, CellFault>
    requires messages { IsOrderly Plain.spec lane.old.sink.spec (specs_of lane.old.sink.inputs) messages.old.messages }
    requires attached { IsFalse lane.old.sink.stopped → IsAttached (D.now lane.old.device) lane.old.sink }
    ensures ok { IfOk result (λ turned. (entry : LaneEntry) × (R.visible recorder.new ≡ noted entry (R.visible recorder.old))
        × (length entry.messages ≡ length messages.old.messages) × (messages.new.messages ≡ [])
        × IsNoted D.now lane.old lane.new messages.old.messages notices.old.notices notices.new.notices turned entry) }
    ensures err { OnErr result ((lane.new ≡ lane.old) × (R.visible recorder.new ≡ R.visible recorder.old) × (messages.new.messages ≡ messages.old.messages) × (notices.new.notices ≡ notices.old.notices)) }
    ensures room { messages.new.capacity ≡ messages.old.capacity }
    ensures worn { IsWorn result lane.old.sink.filled }
    ensures why { SaysWhy result (R.limit recorder.old) (option_map (sizes_by size_of_lane_entry) (R.visible recorder.old)) }
    ensures limit { R.limit recorder.new ≡ R.limit recorder.old }
    ensures counts { ReadyCounts (recorder_said result) (R.faults recorder.old) (R.faults recorder.new) (R.fulls recorder.old) (R.fulls recorder.new) }
{
    if recorder.keeps() {
        turn_kept(alloc, lane, recorder, messages, notices, blocks)
    } else {
        turn_unkept(alloc, lane, messages, notices, blocks)
    }
}
