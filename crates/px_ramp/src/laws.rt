//! Laws of ramps, of ramped turns, and of the deciding turn.
ghost use Rattle.std.specs.Prelude.{◌≡◌, ◌+◌, ◌-◌, ◌<◌, ◌≤◌, List, [], IsSome, Some, length, ℕ, slice_get};
ghost use Rattle.std.specs.List.{AllByRecursion};
ghost use Rattle.px_model.specs.Frame.{Frame, SampleSpec};
ghost use Rattle.px_model.specs.Stream.{Stream};
ghost use Rattle.px_model.specs.Message.{Message};
ghost use Rattle.px_model.specs.Mix.{Samples};
ghost use Rattle.px_model.specs.Sink.{Sink};
ghost use Rattle.px_model.specs.Turn.{turned, turn_notices, stopped_turn, stopped_notices, played_by};
ghost use Rattle.px_model.specs.Deciding.{Entry};
ghost use Rattle.px_ramp.specs.declared.ramp.Ramp.{Ramp};
ghost use Rattle.px_ramp.specs.Ramp.{value_at, flat};
ghost use Rattle.px_ramp.specs.RampMix.{RampSink, empty_ramp_sink, ramp_turned, ramp_stopped, StandAt};
ghost use Rattle.px_ramp.specs.Deciding.{ramp_replay, ramp_played, IsRampHistory, ramp_deciding, ramp_decided, IsLastRamp};

/// A ramp over at least one frame is at its first number where it starts, and at its last from its last frame on. One with no way to go stays. Source:
/// own.
pub fn ramps_go_from_start_to_end()
    ensures starts { (n : ℕ) (r : Ramp) → 1 ≤ n → value_at n r r.start ≡ r.from }
    ensures ends { (n : ℕ) (r : Ramp) (j : ℕ) → 1 ≤ n → r.start + n ≤ j → value_at n r j ≡ r.to }
    ensures stays { (n f j : ℕ) → value_at n (flat f) j ≡ f }
{}

/// A ramped turn, and a ramped stop, leave what the plain ones leave, and give their notices: all but the frames of the buffer, whatever these were
/// before. Where the ramps of every input stand at the factors of its stream for each frame that is mixed, the frames are those of the plain turn too.
/// Source: own.
pub fn ramped_turn_is_the_plain_one()
    ensures turn { (samples : Samples) (n : ℕ) (rs : RampSink) (frames : List Frame) (k : ℕ)
        (messages : List (Message Stream))
        → record (ramp_turned samples n rs k messages).sink { buffer = [] }
        ≡ record (turned samples (record rs.sink { buffer = frames }) k messages) { buffer = [] } }
    ensures notices { (samples : Samples) (rs : RampSink) (frames : List Frame) (k : ℕ)
        (messages : List (Message Stream))
        → turn_notices samples rs.sink k messages
        ≡ turn_notices samples (record rs.sink { buffer = frames }) k messages }
    ensures stop { (n : ℕ) (rs : RampSink) (frames : List Frame)
        (messages : List (Message Stream))
        → record (ramp_stopped n rs messages).sink { buffer = [] }
        ≡ record (stopped_turn (record rs.sink { buffer = frames }) messages) { buffer = [] } }
    ensures stop_notices { (rs : RampSink) (frames : List Frame)
        (messages : List (Message Stream))
        → stopped_notices rs.sink messages
        ≡ stopped_notices (record rs.sink { buffer = frames }) messages }
    ensures stands { (samples : Samples) (n : ℕ) (rs : RampSink) (k : ℕ)
        (messages : List (Message Stream))
        → let t : Sink = turned samples rs.sink k messages in
        ((j : ℕ) → j < t.filled - t.horizon
        → AllByRecursion (StandAt n (t.horizon + j) (ramp_turned samples n rs k messages).ramps) t.inputs)
        → (ramp_turned samples n rs k messages).sink ≡ t }
{}

/// For every history of ramped turns and stopped turns from the empty sink: as many frames are played as are consumed, and each is what its deciding
/// turn makes it: the ramped mix of the streams as that turn left them, by the ramps that it left, at the frame's distance from that turn's horizon. The
/// deciding turn is the last of the history whose horizon is at most the frame, and comes before the turn that plays it. Source: own.
pub fn ramped_frames_are_decided()
    ensures all_consumed { (samples : Samples) (n : ℕ) (spec : SampleSpec) (guard depth : ℕ)
        (history : List Entry)
        → IsRampHistory samples n (empty_ramp_sink spec guard depth) history
        → length (ramp_played samples n (empty_ramp_sink spec guard depth) history)
        ≡ (ramp_replay samples n (empty_ramp_sink spec guard depth) history).sink.consumed }
    ensures decided { (samples : Samples) (n : ℕ) (spec : SampleSpec) (guard depth : ℕ)
        (history : List Entry)
        → IsRampHistory samples n (empty_ramp_sink spec guard depth) history
        → (f : ℕ) → f < (ramp_replay samples n (empty_ramp_sink spec guard depth) history).sink.consumed
        → slice_get (ramp_played samples n (empty_ramp_sink spec guard depth) history) f
        ≡ ramp_decided samples n (empty_ramp_sink spec guard depth) history f }
    ensures has_one { (samples : Samples) (n : ℕ) (spec : SampleSpec) (guard depth : ℕ)
        (history : List Entry)
        → IsRampHistory samples n (empty_ramp_sink spec guard depth) history
        → (f : ℕ) → f < (ramp_replay samples n (empty_ramp_sink spec guard depth) history).sink.consumed
        → IsSome (ramp_deciding samples n (empty_ramp_sink spec guard depth) history f) }
    ensures before { (samples : Samples) (n : ℕ) (spec : SampleSpec) (guard depth : ℕ)
        (history : List Entry)
        → IsRampHistory samples n (empty_ramp_sink spec guard depth) history
        → let rs : RampSink = ramp_replay samples n (empty_ramp_sink spec guard depth) history in
        (k : ℕ) → k ≤ rs.sink.filled - rs.sink.consumed → (j : ℕ) → j < k
        → slice_get (played_by rs.sink k) j
        ≡ ramp_decided samples n (empty_ramp_sink spec guard depth) history (rs.sink.consumed + j) }
    ensures last { (samples : Samples) (n : ℕ) (start : RampSink) (history : List Entry) (f : ℕ) (rs : RampSink)
        → ramp_deciding samples n start history f ≡ Some rs
        → IsLastRamp samples n start history f rs }
{}
