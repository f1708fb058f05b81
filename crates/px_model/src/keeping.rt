//! Laws of a stream's invariant: its indices in range, its attributes in bounds, no hole in the last place.
ghost use Rattle.std.specs.Prelude.{List, Bool, ℕ, ℤ, length};
ghost use Rattle.px_model.specs.declared.data.Attr.{Attr};
ghost use Rattle.px_model.specs.Frame.{Frame, SampleSpec};
ghost use Rattle.px_model.specs.Queue.{Queue, IsQueue};
ghost use Rattle.px_model.specs.Stream.{Stream, IsStream};
ghost use Rattle.px_model.specs.Going.{queue_after, after};
ghost use Rattle.px_model.specs.Write.{outcome_of, queue_with, written};
ghost use Rattle.px_model.specs.Control.{new_queue, prebuf_disabled, prebuf_forced, emptied, with_prebuf, new_stream, attached, corked_to, triggered, prebuffered, flushed, drained_by, with_attr, with_factors};
ghost use Rattle.px_model.specs.Orderly.{IsRepaired};
ghost use Rattle.px_model.specs.Turn.{asked_stream};

/// A queue's invariant holds after every step: moving forward, a write with any outcome, and what the messages do to it. Source: own.
pub fn queue_keeps()
    ensures going { (q : Queue) → IsQueue q → (k : ℕ) → IsQueue (queue_after q k) }
    ensures write { (q : Queue) → IsQueue q → (limit : ℤ) (p : ℤ) (frames : List Frame) (a : ℤ)
        → IsQueue (queue_with (outcome_of q limit p (length frames) a) q p frames) }
    ensures others { (q : Queue) → IsQueue q → (prebuf : ℕ)
        → IsQueue (new_queue prebuf) × IsQueue (prebuf_disabled q)
        × IsQueue (prebuf_forced q) × IsQueue (emptied q) × IsQueue (with_prebuf q prebuf) }
{}

/// A stream's invariant holds after every message and every step of a turn. Source: own.
pub fn stream_keeps()
    ensures new { (spec : SampleSpec) (feed factors : List ℕ) (attr : Attr) (corked : Bool)
        → IsRepaired attr
        → IsStream (new_stream spec feed factors attr corked) }
    ensures attach { (s : Stream) → IsStream s → (feed factors : List ℕ)
        → IsStream (attached s feed factors) }
    ensures going { (s : Stream) → IsStream s → (k : ℕ) → IsStream (after s k) }
    ensures write { (s : Stream) → IsStream s → (p : ℤ) (frames : List Frame) (a : ℤ)
        → IsStream (written s p frames a) }
    ensures cork { (s : Stream) → IsStream s → (on : Bool) → IsStream (corked_to s on) }
    ensures flush { (s : Stream) → IsStream s → IsStream (flushed s) }
    ensures trigger { (s : Stream) → IsStream s → IsStream (triggered s) }
    ensures prebuf { (s : Stream) → IsStream s → IsStream (prebuffered s) }
    ensures drain { (s : Stream) → IsStream s → (tag : ℕ) → IsStream (drained_by s tag) }
    ensures attr { (s : Stream) → IsStream s → (attr : Attr) → IsRepaired attr
        → IsStream (with_attr s attr) }
    ensures factors { (s : Stream) → IsStream s → (factors : List ℕ)
        → IsStream (with_factors s factors) }
    ensures asked { (ahead : ℕ) (s : Stream) → IsStream s → IsStream (asked_stream ahead s) }
{}
