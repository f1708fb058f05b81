// The cell of a sink's mixer.
ghost use Rattle.std.specs.Prelude.{◌≡◌, ◌≤◌, [], length, IfSome, IfOk, OnErr};
ghost use Rattle.std.specs.Option.{option_map};
ghost use Rattle.px_annals.specs.History.{sizes_by, ReadyCounts};
ghost use Rattle.px_annals.specs.Size.{size_of_lane_entry};
ghost use Rattle.px_ends.specs.Visible.{WhereVisible};
ghost use Rattle.px_lane.specs.Lane.{IsAttached};
ghost use Rattle.px_lane_cell.specs.History.{unturned};
ghost use Rattle.px_lane_cell.specs.Moved.{AreTaken, Takes, AreAll, Posts, AreGone};
ghost use Rattle.px_lane_cell.specs.Cell.{AreEnds, IsKeyOf, IsCell, taken_in, posted_in, found_in, stored_in, key_in};
ghost use Rattle.px_lane_cell.specs.Turning.{Makes, Keeps, recorder_said, SaysWhy, IsWorn};

use crate::ends::LaneEnds;
use crate::fault::CellFault;
use crate::moving::{post_notices, take_messages};
use crate::turning::turn_noted;
use px_annals::{LaneEntry, Recorder};
use px_block::BlockSource;
use px_ends::Device;
use px_lane::{Lane, MsgList, NoticeList, Turned};
use px_types::Mem;
use px_types::limits::MAILBOX_PLACES;
use std::alloc::Global;
use std::marker::Model;
use std::sync::Wait;

/// A sink's mixer with its history and its mailboxes, owned by the one worker that makes its turns (PulseAudio: a sink with its `thread_mq`).
#[derive(Drop)]
pub struct LaneCell<D: Device, R: Recorder<LaneEntry>> {
    lane: Lane<D>,
    recorder: R,
    ends: LaneEnds,
    messages: MsgList,
    notices: NoticeList,
    taken: u32,
    given: usize,
}

impl<D: Device, R: Recorder<LaneEntry>> Model for LaneCell<D, R> {
    ghost use Rattle.px_lane_cell.specs.Cell.{Cell, IsCell};

    ghost Value = { Cell D R };

    ghost view = { λ c. record { lane = c.lane; recorder = c.recorder; ends = c.ends; messages = c.messages; notices = c.notices; taken = c.taken; given = c.given } };

    ghost invariant = { λ c. IsCell D.now R.visible (record { lane = c.lane; recorder = c.recorder; ends = c.ends; messages = c.messages; notices = c.notices; taken = c.taken; given = c.given }) };
}

/// The parts of a cell, with the messages and the notices that it still held.
#[derive(Drop)]
pub struct LaneCellParts<D, R> {
    pub lane: Lane<D>,
    pub recorder: R,
    pub ends: LaneEnds,
    pub messages: MsgList,
    pub notices: NoticeList,
}

// A list with room for the messages of a turn.
fn room_for_turn(alloc: Global) -> Mem<MsgList>
    ensures { IfOk result (λ list. (list.messages ≡ []) × (256 ≤ list.capacity)) }
{
    let mut messages = MsgList::new(alloc);
    messages.reserve(MAILBOX_PLACES)?;
    Ok(messages)
}

// Takes messages for a turn, after those still held, and answers how many there are then.
fn gather<W: Wait>(rt: &W, ends: &mut LaneEnds, messages: &mut MsgList) -> u32
    requires ends { AreEnds ends.old }
    requires lawful { AreTaken (key_in ends.old) (taken_in ends.old) }
    requires few { length messages.old.messages ≤ 256 }
    requires room { 256 ≤ messages.old.capacity }
    ensures ends { AreEnds ends.new }
    ensures boxes { ends.new.boxes ≡ ends.old.boxes }
    ensures post { ends.new.passes.post ≡ ends.old.passes.post }
    ensures key { key_in ends.new ≡ key_in ends.old }
    ensures lawful { AreTaken (key_in ends.new) (taken_in ends.new) }
    ensures takes { Takes (taken_in ends.old) (taken_in ends.new) messages.old.messages messages.new.messages }
    ensures few { length messages.new.messages ≤ 256 }
    ensures room { messages.new.capacity ≡ messages.old.capacity }
    ensures all { AreAll (found_in ends.old) (found_in ends.new) (key_in ends.new) (taken_in ends.new) messages.new.messages }
    ensures count { result ≡ length messages.new.messages }
{
    take_messages(rt, &ends.boxes.inbox, &mut ends.passes.take, messages);
    messages.len() as u32
}

// Posts a turn's notices; those that don't fit stay in order. Answers how many there were before.
fn deliver<W: Wait>(rt: &W, ends: &mut LaneEnds, notices: &mut NoticeList) -> usize
    requires ends { AreEnds ends.old }
    ensures ends { AreEnds ends.new }
    ensures boxes { ends.new.boxes ≡ ends.old.boxes }
    ensures take { ends.new.passes.take ≡ ends.old.passes.take }
    ensures posts { Posts (posted_in ends.old) (posted_in ends.new) notices.old.notices notices.new.notices }
    ensures gone { AreGone (stored_in ends.old) (stored_in ends.new) (posted_in ends.new) notices.new.notices }
    ensures count { result ≡ length notices.old.notices }
{
    let all = notices.len();
    post_notices(rt, &ends.boxes.outbox, &mut ends.passes.post, notices);
    all
}

impl<D: Device + Drop, R: Recorder<LaneEntry> + Drop> LaneCell<D, R> {
    /// A cell with a mixer that has made no turn and a recorder that holds nothing. Takes the memory for the messages of a turn.
    pub fn new(alloc: Global, lane: Lane<D>, recorder: R, ends: LaneEnds) -> Mem<LaneCell<D, R>>
        requires unturned { lane.sink ≡ unturned lane.sink }
        requires attached { IsAttached (D.now lane.device) lane.sink }
        requires unplayed { WhereVisible (D.now lane.device).played (λ bytes. bytes ≡ []) }
        requires unnoted { IfSome (R.visible recorder) (λ entries. entries ≡ []) }
        requires ends { AreEnds ends }
        requires key { IsKeyOf ends lane.sink }
        requires untaken { taken_in ends ≡ [] }
        requires unposted { posted_in ends ≡ [] }
        ensures lane { IfOk result (λ cell. cell.lane ≡ lane) }
        ensures recorder { IfOk result (λ cell. cell.recorder ≡ recorder) }
        ensures ends { IfOk result (λ cell. cell.ends ≡ ends) }
        ensures taken { IfOk result (λ cell. cell.taken ≡ 0) }
        ensures given { IfOk result (λ cell. cell.given ≡ 0) }
        ensures held { IfOk result (λ cell. (cell.messages.messages ≡ []) × (cell.notices.notices ≡ [])) }
    {
        match room_for_turn(alloc) {
            Ok(messages) => Ok(LaneCell {
                lane,
                recorder,
                ends,
                messages,
                notices: NoticeList::new(alloc),
                taken: 0,
                given: 0,
            }),
            Err(fault) => {
                drop(ends);
                drop(recorder);
                drop(lane);
                Err(fault)
            }
        }
    }

    /// Makes one turn. It takes messages until there are 256, with those held from before, or the inbox is found empty; all of them are applied, and
    /// the turn's entry is recorded. Then it posts the notices, older ones first, until none is left or the outbox is full; the rest stay. The
    /// recorder is asked before the turn. Where it isn't ready, where there is no memory, and where the mixer is worn, the messages stay for the next
    /// call, and nothing else changes. Waits for nothing but the mailboxes.
    pub fn turn<W: Wait, B: BlockSource>(
        &mut self,
        rt: &W,
        alloc: Global,
        blocks: &mut B,
    ) -> Result<Turned, CellFault>
        ensures ok { IfOk result (Makes D.now R.visible self.old self.new) }
        ensures err { OnErr result (Keeps R.visible self.old self.new) }
        ensures boxes { self.new.ends.boxes ≡ self.old.ends.boxes }
        ensures start { unturned self.new.lane.sink ≡ unturned self.old.lane.sink }
        ensures worn { IsWorn result self.old.lane.sink.filled }
        ensures why { SaysWhy result (R.limit self.old.recorder) (option_map (sizes_by size_of_lane_entry) (R.visible self.old.recorder)) }
        ensures limit { R.limit self.new.recorder ≡ R.limit self.old.recorder }
        ensures counts { ReadyCounts (recorder_said result) (R.faults self.old.recorder) (R.faults self.new.recorder) (R.fulls self.old.recorder) (R.fulls self.new.recorder) }
    {
        let LaneCell {
            lane,
            recorder,
            ends,
            messages,
            notices,
            taken,
            given,
        } = self;
        let count = gather(rt, ends, messages);
        let turned = turn_noted(alloc, lane, recorder, messages, notices, blocks)?;
        *taken = count;
        *given = deliver(rt, ends, notices);
        Ok(turned)
    }

    /// How many messages the last turn applied, 0 before the first.
    pub fn taken(&self) -> u32
        ensures count { result ≡ self.now.taken }
        ensures holds { IsCell D.now R.visible self.now }
    {
        self.taken
    }

    /// How many notices there were after the last turn, with those held from before it, 0 before the first. Each of them was posted or is still held.
    pub fn given(&self) -> usize
        ensures count { result ≡ self.now.given }
    {
        self.given
    }

    /// The mixer, the recorder, the mailboxes with their passes, and the messages and notices still held. Takes no memory.
    pub fn into_parts(self) -> LaneCellParts<D, R>
        ensures lane { result.lane ≡ self.lane }
        ensures recorder { result.recorder ≡ self.recorder }
        ensures ends { result.ends ≡ self.ends }
        ensures messages { result.messages ≡ self.messages }
        ensures notices { result.notices ≡ self.notices }
        ensures holds { IsCell D.now R.visible self }
    {
        let LaneCell {
            lane,
            recorder,
            ends,
            messages,
            notices,
            ..
        } = self;
        LaneCellParts {
            lane,
            recorder,
            ends,
            messages,
            notices,
        }
    }
}
