//! Laws of a sink's turns, and of turns whose sync failed.
ghost use Rattle.std.specs.Prelude.{◌≡◌, ◌-◌, ◌*◌, ◌<◌, ◌≤◌, List, ℕ, ℤ, Some, length};
ghost use Rattle.px_model.specs.Frame.{SampleSpec};
ghost use Rattle.px_model.specs.Stream.{Stream};
ghost use Rattle.px_model.specs.Message.{Message};
ghost use Rattle.px_model.specs.Mix.{Samples, mix_of};
ghost use Rattle.px_model.specs.Sink.{Sink, IsSink, empty_sink, frame_in};
ghost use Rattle.px_model.specs.Deciding.{Entry, IsHistory, IsOrderlyHistory, replay};
ghost use Rattle.px_model.specs.Turn.{AreFor, turned, stopped_turn, frame_mixed};

/// A sink's invariant holds after every turn, every stopped turn and so every history of them. Each turn's messages must be orderly from its inputs.
/// The horizon never falls. Source: own.
pub fn sink_keeps()
    ensures empty { (spec : SampleSpec) (guard depth : ℕ) → IsSink (empty_sink spec guard depth) }
    ensures turn { (samples : Samples) (sink : Sink) → IsSink sink → (n : ℕ)
        → n ≤ sink.filled - sink.consumed
        → (messages : List (Message Stream)) → AreFor sink messages
        → IsSink (turned samples sink n messages) }
    ensures stop { (sink : Sink) → IsSink sink → (messages : List (Message Stream))
        → AreFor sink messages
        → IsSink (stopped_turn sink messages) }
    ensures history { (samples : Samples) (sink : Sink) → IsSink sink → (history : List Entry)
        → IsHistory samples sink history → IsOrderlyHistory samples sink history
        → IsSink (replay samples sink history) }
    ensures turn_rises { (samples : Samples) (sink : Sink) → IsSink sink
        → (n : ℕ) (messages : List (Message Stream))
        → sink.horizon ≤ (turned samples sink n messages).horizon }
    ensures stop_rises { (sink : Sink) → IsSink sink → (messages : List (Message Stream))
        → sink.horizon ≤ (stopped_turn sink messages).horizon }
{}

/// A turn changes no frame below its horizon, and each frame at or past it is the mix of the streams as the turn leaves them. The mix has as many
/// bytes as a frame of the sink has. A stopped turn changes no frame below its horizon and drops the others. Source: PulseAudio's rewinding.
pub fn turn_mixes_from_its_horizon()
    ensures stays { (samples : Samples) (sink : Sink) → IsSink sink → (n : ℕ)
        → n ≤ sink.filled - sink.consumed
        → (messages : List (Message Stream)) (f : ℕ) → (turned samples sink n messages).consumed ≤ f
        → f < (turned samples sink n messages).horizon
        → frame_in (turned samples sink n messages) f ≡ frame_in sink f }
    ensures fresh { (samples : Samples) (sink : Sink) → IsSink sink → (n : ℕ)
        → n ≤ sink.filled - sink.consumed
        → (messages : List (Message Stream)) (f : ℕ) → (turned samples sink n messages).horizon ≤ f
        → f < (turned samples sink n messages).filled
        → frame_in (turned samples sink n messages) f
        ≡ Some (frame_mixed samples f (turned samples sink n messages)) }
    ensures whole { (samples : Samples) (sink : SampleSpec) (size : ℕ)
        → ((x : ℤ) → length (samples.packed sink.format x) ≡ size)
        → (streams : List Stream) (k : ℕ)
        → length (mix_of samples sink streams k) ≡ sink.channels * size }
    ensures stop_stays { (sink : Sink) → IsSink sink
        → (messages : List (Message Stream)) (f : ℕ) → sink.consumed ≤ f
        → f < (stopped_turn sink messages).horizon
        → frame_in (stopped_turn sink messages) f ≡ frame_in sink f }
{}
