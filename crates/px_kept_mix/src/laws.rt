// Laws of the kept sums of a sink.
ghost use Rattle.std.specs.Prelude.{◌≡◌, ◌≤◌, ◌<◌, ◌+◌, Bool, true, false, List, ℕ, length, map, None, Some, Option};
ghost use Rattle.std.specs.List.{AllByRecursion};
ghost use Rattle.px_sample.specs.declared.spec.Spec.{Spec};
ghost use Rattle.px_model.specs.Stream.{Stream, IsStream};
ghost use Rattle.px_model.specs.Going.{after};
ghost use Rattle.px_model.specs.Sink.{Input, IsRising, stream_at, with_stream, with_change, with_input, without_input};
ghost use Rattle.px_model.specs.Turn.{asked_stream};
ghost use Rattle.px_mixcache.specs.Cache.{KeptSums};
ghost use Rattle.px_kept_mix.specs.Kept.{changed_there};
ghost use Rattle.px_kept_mix.specs.Keeping.{IsKept, IsAsLarge, AreSmall, SharesThere, SharesBetweenThere, AreLittle, AreLittleThere, SoundsBefore, SoundsOutside, GoesBy};

/// The sums of at most 256 inputs have room for one share more or less. Kept sums go forward with their streams, and requests leave them as they are.
/// Source: own.
pub fn sums_are_kept()
    ensures small { (sink : Spec) (inputs : List Input) (kept : KeptSums) → IsKept sink inputs kept → length inputs ≤ 256 → AreSmall 256 kept }
    ensures one_more { (add : Bool) (sink : Spec) (s : Option Stream) (from n : ℕ) (before after : KeptSums) → AreSmall n before → IsAsLarge before after
        → length before.runs ≡ sink.channels → SharesThere add sink s from before after → AreLittleThere sink s from before.frames → AreSmall (n + 1) after }
    ensures one_more_between { (add : Bool) (sink : Spec) (s : Option Stream) (from to n : ℕ) (before after : KeptSums) → AreSmall n before → IsAsLarge before after
        → length before.runs ≡ sink.channels → SharesBetweenThere add sink s from to before after → AreLittleThere sink s from to → AreSmall (n + 1) after }
    ensures forward { (sink : Spec) (inputs : List Input) (frames : ℕ) (before later : KeptSums) → IsKept sink inputs before
        → AllByRecursion (λ x. IsStream (Input.stream x)) inputs → GoesBy frames before later
        → IsKept sink (map (with_stream (λ s. after s frames)) inputs) later }
    ensures asked { (sink : Spec) (inputs : List Input) (mixed : ℕ) (kept : KeptSums) → IsKept sink inputs kept
        → IsKept sink (map (with_stream (asked_stream mixed)) inputs) kept }
{}

/// Kept sums after a change of a stream: its old share is taken out and its new one put in, both from a frame on before which it sounds the same, and
/// if need be up to a frame from which on it does so again. Likewise where a stream comes, also in place of one with its index, and where one leaves. Source: own.
pub fn shares_are_exchanged()
    ensures changed { (sink : Spec) (inputs : List Input) (i from : ℕ) (f : Stream → Stream) (before between after : KeptSums)
        → IsKept sink inputs before → IsRising inputs → SoundsBefore from f (stream_at i inputs)
        → IsAsLarge before between → SharesThere false sink (stream_at i inputs) from before between
        → IsAsLarge between after → SharesThere true sink (changed_there f (stream_at i inputs)) from between after
        → AreLittleThere sink (changed_there f (stream_at i inputs)) from before.frames
        → IsKept sink (with_change i f inputs) after }
    ensures changed_between { (sink : Spec) (inputs : List Input) (i from to : ℕ) (f : Stream → Stream) (before middle after : KeptSums)
        → IsKept sink inputs before → IsRising inputs → SoundsOutside before.frames from to f (stream_at i inputs)
        → IsAsLarge before middle → SharesBetweenThere false sink (stream_at i inputs) from to before middle
        → IsAsLarge middle after → SharesBetweenThere true sink (changed_there f (stream_at i inputs)) from to middle after
        → AreLittleThere sink (changed_there f (stream_at i inputs)) from to
        → IsKept sink (with_change i f inputs) after }
    ensures comes { (sink : Spec) (inputs : List Input) (i : ℕ) (s : Stream) (before between after : KeptSums)
        → IsKept sink inputs before → IsRising inputs
        → IsAsLarge before between → SharesThere false sink (stream_at i inputs) 0 before between
        → IsAsLarge between after → SharesThere true sink (Some s) 0 between after
        → AreLittle sink s 0 before.frames
        → IsKept sink (with_input i s inputs) after }
    ensures leaves { (sink : Spec) (inputs : List Input) (i : ℕ) (before after : KeptSums)
        → IsKept sink inputs before → IsRising inputs
        → IsAsLarge before after → SharesThere false sink (stream_at i inputs) 0 before after
        → IsKept sink (without_input i inputs) after }
{}
