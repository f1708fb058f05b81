//! Laws of kept sums.
ghost use Rattle.std.specs.Prelude.{◌≡◌, ◌+◌, ◌-◌, ◌++◌, ◌∷◌, [], ◌<◌, ◌≤◌, ℕ, ℤ, ◌+ℤ◌, List, length, map, None, Some};
ghost use Rattle.std.specs.List.{AllByRecursion};
ghost use Rattle.px_model.specs.Frame.{SampleSpec};
ghost use Rattle.px_model.specs.Stream.{Stream, IsStream};
ghost use Rattle.px_model.specs.Going.{after};
ghost use Rattle.px_model.specs.Mix.{Samples, sum_of};
ghost use Rattle.px_model.specs.Sink.{Input, IsRising, streams_of, stream_at, with_stream, with_change, with_input, without_input};
ghost use Rattle.px_model.specs.Turn.{asked_stream};
ghost use Rattle.px_kept_mix.specs.Kept.{share_at, IsSumOf, AddLittle, AddsLittle, AreKept, Exchanges, SameBefore, changed_there, AddsLittleThere};

/// Kept sums of n inputs are in the range of n shares. They go forward with their streams, requests leave them as they are, and one more input adds
/// its stream's share. Source: own.
pub fn kept_sums_go_on()
    ensures bounded { (samples : Samples) (sink : SampleSpec) (n : ℕ) (inputs : List Input) (kept : ℕ → ℕ → ℤ) → AreKept samples sink n inputs kept
        → (channel k : ℕ) → channel < sink.channels → k < n → IsSumOf (length inputs) (kept channel k) }
    ensures forward { (samples : Samples) (sink : SampleSpec) (n : ℕ) (inputs : List Input) (kept : ℕ → ℕ → ℤ) → AreKept samples sink n inputs kept
        → AllByRecursion (λ x. IsStream (Input.stream x)) inputs → (d : ℕ)
        → AreKept samples sink (n - d) (map (with_stream (λ s. after s d)) inputs) (λ channel k. kept channel (d + k)) }
    ensures asked { (samples : Samples) (sink : SampleSpec) (n : ℕ) (inputs : List Input) (kept : ℕ → ℕ → ℤ) → AreKept samples sink n inputs kept
        → (mixed : ℕ) → AreKept samples sink n (map (with_stream (asked_stream mixed)) inputs) kept }
    ensures more { (samples : Samples) (sink : SampleSpec) (inputs : List Input) (x : Input) (k channel : ℕ)
        → sum_of samples sink (streams_of (inputs ++ x ∷ [])) k channel ≡ sum_of samples sink (streams_of inputs) k channel +ℤ share_at samples sink x.stream channel k }
{}

/// Kept sums after a change, coming or going of a stream: the share of the old stream is taken out from the first place on at which both differ, and
/// that of the new one is put in. Source: own.
pub fn kept_sums_change()
    ensures changed { (samples : Samples) (sink : SampleSpec) (n from : ℕ) (i : ℕ) (f : Stream → Stream) (inputs : List Input) (kept new : ℕ → ℕ → ℤ)
        → AreKept samples sink n inputs kept → IsRising inputs
        → AddsLittleThere samples sink n (changed_there f (stream_at i inputs))
        → SameBefore samples sink from (stream_at i inputs) (changed_there f (stream_at i inputs))
        → Exchanges samples sink n from (stream_at i inputs) (changed_there f (stream_at i inputs)) kept new
        → AreKept samples sink n (with_change i f inputs) new }
    ensures comes { (samples : Samples) (sink : SampleSpec) (n : ℕ) (i : ℕ) (s : Stream) (inputs : List Input) (kept new : ℕ → ℕ → ℤ)
        → AreKept samples sink n inputs kept → IsRising inputs
        → AddsLittle samples sink n s
        → Exchanges samples sink n 0 (stream_at i inputs) (Some s) kept new
        → AreKept samples sink n (with_input i s inputs) new }
    ensures leaves { (samples : Samples) (sink : SampleSpec) (n : ℕ) (i : ℕ) (inputs : List Input) (kept new : ℕ → ℕ → ℤ)
        → AreKept samples sink n inputs kept → IsRising inputs
        → Exchanges samples sink n 0 (stream_at i inputs) None kept new
        → AreKept samples sink n (without_input i inputs) new }
{}
