// The messages of a turn, applied to the inputs of a sink and the kept sums of their mix.
ghost use Rattle.std.specs.Prelude.{◌≡◌, ◌≤◌, ◌+◌, ◌-◌, ◌*◌, ◌++◌, ◌∷◌, [], length};
ghost use Rattle.std.specs.List.{sum_by};
ghost use Rattle.px_model.specs.Frame.{SampleSpec};
ghost use Rattle.px_model.specs.Applied.{applied};
ghost use Rattle.px_model.specs.Message.{StreamMessage};
ghost use Rattle.px_model.specs.Notice.{Notice as Notices};
ghost use Rattle.px_model.specs.Sink.{stream_at, with_input, without_input, with_change};
ghost use Rattle.px_model.specs.Turn.{inputs_with_all, all_message_notices, notices_from};
ghost use Rattle.px_stream.specs.Messages.{message_of, blocks_with, Suits};
ghost use Rattle.px_lane.specs.Mixed.{CanMix, CanMixAll};
ghost use Rattle.px_lane.specs.Needed.{blocks_of};
ghost use Rattle.px_lane.specs.Taking.{CanTakeAll, HasRoomLeft, IsRoomy, SuitsAt, overflows_at, overflow_if, ready_blocks, ready_inputs, ready_notices, ReadySuits};
ghost use Rattle.px_lane.specs.Unaltered.{MixesSame, MixesSameFrom};
ghost use Rattle.px_lane.specs.Costs.{change_cost, ready_cost, costs_of};

use crate::NoticeList;
use crate::altered::Altered;
use crate::mixed::MixedInputs;
use crate::prepared::Prepared;
use crate::ready::Ready;
use px_block::BlockSource;
use px_chmap::Feed;
use px_kernel::Steps;
use px_msg::Notice;
use px_stream::{Stream, StreamMsg};
use px_types::InputId;
use px_vol::Factors;
use std::sync::ledger::Ledger;

impl MixedInputs {
    // Inserts a stream from another sink, with a feed and factors for this one.
    fn join<T: Ledger, B: BlockSource>(
        &mut self,
        input: InputId,
        parcel: Stream,
        feed: Feed,
        factors: Factors,
        blocks: &mut B,
        steps: &mut Steps<T>,
    )
        requires room { 1 ≤ self.old.room }
        requires comes { IsRoomy (self.old.room - 1) self.old.block_room parcel }
        requires suits { Suits parcel.stream (StreamMessage.attach feed factors) }
        requires mixes { CanMix self.old.spec.channels (with_input input.0 (applied self.old.frames (StreamMessage.attach feed factors) parcel.stream) self.old.inputs) }
        ensures spec { self.new.spec ≡ self.old.spec }
        ensures depth { self.new.depth ≡ self.old.depth }
        ensures frames { self.new.frames ≡ self.old.frames }
        ensures inputs { self.new.inputs ≡ with_input input.0 (applied self.old.frames (StreamMessage.attach feed factors) parcel.stream) self.old.inputs }
        ensures room { self.new.room + 1 ≡ self.old.room }
        ensures block_room { self.new.block_room ≡ self.old.block_room }
        ensures ticks { steps.new ≤ steps.old + self.old.spec.channels * (4 * self.old.frames) }
    {
        let mut stream = parcel;
        let mixed = self.frames() as u64;
        stream.apply(StreamMsg::Attach { feed, factors }, mixed, blocks);
        self.insert(input, stream, steps);
    }

    // Removes a stream, if it is there, and pushes its Detached notice.
    fn leave<T: Ledger>(&mut self, input: InputId, out: &mut NoticeList, steps: &mut Steps<T>)
        requires mixes { CanMix self.old.spec.channels (without_input input.0 self.old.inputs) }
        requires capacity { length out.old.notices + length (notices_from (stream_at input.0 self.old.inputs) (λ s. Notices.detached input.0 s ∷ [])) ≤ out.old.capacity }
        ensures spec { self.new.spec ≡ self.old.spec }
        ensures depth { self.new.depth ≡ self.old.depth }
        ensures frames { self.new.frames ≡ self.old.frames }
        ensures inputs { self.new.inputs ≡ without_input input.0 self.old.inputs }
        ensures room { self.new.room ≡ self.old.room }
        ensures block_room { self.new.block_room ≡ self.old.block_room }
        ensures notices { out.new.notices ≡ out.old.notices ++ notices_from (stream_at input.0 self.old.inputs) (λ s. Notices.detached input.0 s ∷ []) }
        ensures capacity { out.new.capacity ≡ out.old.capacity }
        ensures ticks { steps.new ≤ steps.old + self.old.spec.channels * (2 * self.old.frames) }
    {
        match self.remove(input, steps) {
            Some(parcel) => out.push(Notice::Detached { input, parcel }),
            None => {}
        }
    }

    // Applies a message to a stream, if it is there, and pushes Overflow where a write is refused. Answers which mixed frames are altered.
    fn alter<T: Ledger, B: BlockSource>(
        &mut self,
        input: InputId,
        change: StreamMsg,
        out: &mut NoticeList,
        blocks: &mut B,
        steps: &mut Steps<T>,
    ) -> Altered
        requires room { 1 ≤ self.old.room }
        requires block_room { blocks_with (message_of change) ≤ self.old.block_room }
        requires suits { SuitsAt (stream_at input.0 self.old.inputs) (message_of change) }
        requires mixes { CanMix self.old.spec.channels (with_change input.0 (applied self.old.frames (message_of change)) self.old.inputs) }
        requires capacity { length out.old.notices + length (overflow_if input.0 (overflows_at self.old.frames (message_of change) (stream_at input.0 self.old.inputs))) ≤ out.old.capacity }
        ensures spec { self.new.spec ≡ self.old.spec }
        ensures depth { self.new.depth ≡ self.old.depth }
        ensures frames { self.new.frames ≡ self.old.frames }
        ensures inputs { self.new.inputs ≡ with_change input.0 (applied self.old.frames (message_of change)) self.old.inputs }
        ensures room { self.new.room + 1 ≡ self.old.room }
        ensures block_room { self.new.block_room + blocks_with (message_of change) ≡ self.old.block_room }
        ensures notices { out.new.notices ≡ out.old.notices ++ overflow_if input.0 (overflows_at self.old.frames (message_of change) (stream_at input.0 self.old.inputs)) }
        ensures capacity { out.new.capacity ≡ out.old.capacity }
        ensures unaltered { (sink : SampleSpec) → MixesSame sink result.from self.old.inputs self.new.inputs }
        ensures resumed { (sink : SampleSpec) → MixesSameFrom sink result.to self.old.frames self.old.inputs self.new.inputs }
        ensures ticks { steps.new + self.old.spec.channels * (self.old.frames - result.from) ≤ steps.old + self.old.spec.channels * change_cost self.old.frames (message_of change) (stream_at input.0 self.old.inputs) }
    {
        let changed = self.change(input, change, blocks, steps);
        if changed.refused {
            out.push(Notice::Overflow { input });
        }
        changed.altered
    }

    /// Applies a message, with `buffered` frames in the sink's buffer, and pushes its notices. Answers which mixed frames are altered. Uses up the room
    /// of one message with its blocks, and takes no memory.
    pub(crate) fn take<T: Ledger, B: BlockSource>(
        &mut self,
        message: Ready,
        buffered: u32,
        out: &mut NoticeList,
        blocks: &mut B,
        steps: &mut Steps<T>,
    ) -> Altered
        requires room { 1 ≤ self.old.room }
        requires block_room { ready_blocks message ≤ self.old.block_room }
        requires comes { HasRoomLeft (self.old.room - 1) self.old.block_room message }
        requires suits { ReadySuits message self.old.inputs }
        requires mixes { CanMix self.old.spec.channels (ready_inputs self.old.frames message self.old.inputs) }
        requires capacity { length out.old.notices + length (ready_notices self.old.frames buffered message self.old.inputs) ≤ out.old.capacity }
        ensures spec { self.new.spec ≡ self.old.spec }
        ensures depth { self.new.depth ≡ self.old.depth }
        ensures frames { self.new.frames ≡ self.old.frames }
        ensures inputs { self.new.inputs ≡ ready_inputs self.old.frames message self.old.inputs }
        ensures room { self.old.room ≤ self.new.room + 1 }
        ensures less { self.new.room ≤ self.old.room }
        ensures block_room { self.new.block_room + ready_blocks message ≡ self.old.block_room }
        ensures notices { out.new.notices ≡ out.old.notices ++ ready_notices self.old.frames buffered message self.old.inputs }
        ensures capacity { out.new.capacity ≡ out.old.capacity }
        ensures unaltered { (sink : SampleSpec) → MixesSame sink result.from self.old.inputs self.new.inputs }
        ensures resumed { (sink : SampleSpec) → MixesSameFrom sink result.to self.old.frames self.old.inputs self.new.inputs }
        ensures ticks { steps.new + self.old.spec.channels * (self.old.frames - result.from) ≤ steps.old + self.old.spec.channels * ready_cost self.old.frames message self.old.inputs }
    {
        let frames = self.frames() as u64;
        match message {
            Ready::Insert { input, stream } => self.insert(input, stream, steps),
            Ready::Join {
                input,
                parcel,
                feed,
                factors,
            } => self.join(input, parcel, feed, factors, blocks, steps),
            Ready::Remove(input) => self.leave(input, out, steps),
            Ready::Change { input, change } => {
                return self.alter(input, change, out, blocks, steps);
            }
            Ready::Each(list) => {
                let same = self.set_factors(list.as_slice(), blocks, steps);
                return Altered::from_on(same, frames);
            }
            Ready::Answer { input, tag } => {
                self.answer(input, tag, buffered, out);
                return Altered {
                    from: frames,
                    to: 0,
                };
            }
        }
        Altered {
            from: 0,
            to: frames,
        }
    }

    /// Applies all messages in order, with `buffered` frames in the sink's buffer, and pushes their notices. Answers which mixed frames are altered.
    /// Takes no memory.
    pub(crate) fn take_all<T: Ledger, B: BlockSource>(
        &mut self,
        messages: &mut Prepared,
        buffered: u32,
        out: &mut NoticeList,
        blocks: &mut B,
        steps: &mut Steps<T>,
    ) -> Altered
        requires room { length messages.old.messages ≤ self.old.room }
        requires block_room { sum_by blocks_of messages.old.messages ≤ self.old.block_room }
        requires comes { self.old.room ≤ messages.old.room }
        requires blocks_come { self.old.block_room ≤ messages.old.block_room }
        requires suits { CanTakeAll self.old.frames messages.old.messages self.old.inputs }
        requires mixes { CanMixAll self.old.spec.channels self.old.frames messages.old.messages self.old.inputs }
        requires capacity { length out.old.notices + length (all_message_notices self.old.frames buffered messages.old.messages self.old.inputs) ≤ out.old.capacity }
        ensures spec { self.new.spec ≡ self.old.spec }
        ensures depth { self.new.depth ≡ self.old.depth }
        ensures frames { self.new.frames ≡ self.old.frames }
        ensures inputs { self.new.inputs ≡ inputs_with_all self.old.frames messages.old.messages self.old.inputs }
        ensures notices { out.new.notices ≡ out.old.notices ++ all_message_notices self.old.frames buffered messages.old.messages self.old.inputs }
        ensures capacity { out.new.capacity ≡ out.old.capacity }
        ensures messages { messages.new.messages ≡ [] }
        ensures list { messages.new.capacity ≡ messages.old.capacity }
        ensures unaltered { (sink : SampleSpec) → MixesSame sink result.from self.old.inputs self.new.inputs }
        ensures resumed { (sink : SampleSpec) → MixesSameFrom sink result.to self.old.frames self.old.inputs self.new.inputs }
        ensures ticks { steps.new + self.old.spec.channels * (self.old.frames - result.from) ≤ steps.old + self.old.spec.channels * costs_of self.old.frames messages.old.messages self.old.inputs }
    {
        let frames = self.frames() as u64;
        let mut altered = Altered {
            from: frames,
            to: 0,
        };
        while let Some(message) = messages.next() {
            let more = self.take(message, buffered, out, blocks, steps);
            altered = altered.with(more);
        }
        altered
    }
}
