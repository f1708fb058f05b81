//! The law of the deciding turn: which turn determines a frame that was played.
ghost use Rattle.std.specs.Prelude.{◌≡◌, ◌+◌, ◌-◌, ◌<◌, ◌≤◌, ◌++◌, List, IsSome, Some, length, ℕ, slice_get};
ghost use Rattle.px_model.specs.Frame.{SampleSpec};
ghost use Rattle.px_model.specs.Mix.{Samples};
ghost use Rattle.px_model.specs.Sink.{Sink, empty_sink};
ghost use Rattle.px_model.specs.Turn.{played_by};
ghost use Rattle.px_model.specs.Deciding.{Entry, replay, replay_notices, replay_played, IsHistory, deciding, decided, IsLastReaching};

/// For every history of turns and stopped turns from the empty sink: as many frames are played as are consumed, and each is what its deciding turn
/// makes it: the mix of the streams as that turn left them, at the frame's distance from that turn's horizon. The deciding turn is the last of the
/// history whose horizon is at most the frame, and comes before the turn that plays it. Source: own.
pub fn played_frames_are_decided()
    ensures all_consumed { (samples : Samples) (spec : SampleSpec) (guard depth : ℕ)
        (history : List Entry)
        → IsHistory samples (empty_sink spec guard depth) history
        → length (replay_played samples (empty_sink spec guard depth) history)
        ≡ (replay samples (empty_sink spec guard depth) history).consumed }
    ensures decided { (samples : Samples) (spec : SampleSpec) (guard depth : ℕ)
        (history : List Entry)
        → IsHistory samples (empty_sink spec guard depth) history
        → (f : ℕ) → f < (replay samples (empty_sink spec guard depth) history).consumed
        → slice_get (replay_played samples (empty_sink spec guard depth) history) f
        ≡ decided samples (empty_sink spec guard depth) history f }
    ensures has_one { (samples : Samples) (spec : SampleSpec) (guard depth : ℕ)
        (history : List Entry)
        → IsHistory samples (empty_sink spec guard depth) history
        → (f : ℕ) → f < (replay samples (empty_sink spec guard depth) history).consumed
        → IsSome (deciding samples (empty_sink spec guard depth) history f) }
    ensures before { (samples : Samples) (spec : SampleSpec) (guard depth : ℕ)
        (history : List Entry)
        → IsHistory samples (empty_sink spec guard depth) history
        → let sink : Sink = replay samples (empty_sink spec guard depth) history in
        (n : ℕ) → n ≤ sink.filled - sink.consumed → (j : ℕ) → j < n
        → slice_get (played_by sink n) j
        ≡ decided samples (empty_sink spec guard depth) history (sink.consumed + j) }
    ensures last { (samples : Samples) (start : Sink) (history : List Entry) (f : ℕ) (sink : Sink)
        → deciding samples start history f ≡ Some sink
        → IsLastReaching samples start history f sink }
{}

/// The replay of two histories joined is that of the first followed by that of the second: the sink, its notices and the frames played. Source: own.
pub fn histories_join()
    ensures sink { (samples : Samples) (sink : Sink) (earlier later : List Entry)
        → replay samples sink (earlier ++ later)
        ≡ replay samples (replay samples sink earlier) later }
    ensures notices { (samples : Samples) (sink : Sink) (earlier later : List Entry)
        → replay_notices samples sink (earlier ++ later)
        ≡ replay_notices samples sink earlier
        ++ replay_notices samples (replay samples sink earlier) later }
    ensures played { (samples : Samples) (sink : Sink) (earlier later : List Entry)
        → replay_played samples sink (earlier ++ later)
        ≡ replay_played samples sink earlier
        ++ replay_played samples (replay samples sink earlier) later }
{}
