//! Laws of a queue and of a stream that move forward with their sink.
ghost use Rattle.std.specs.Prelude.{◌≡◌, ◌+◌, ◌++◌, ℕ};
ghost use Rattle.px_model.specs.Queue.{Queue, IsQueue, queue_frame};
ghost use Rattle.px_model.specs.Stream.{Stream, IsStream, frame_at};
ghost use Rattle.px_model.specs.Going.{queue_after, queue_given, after, given_of, frames_given};

/// Moving a queue a frames forward and then b is moving it a + b, and gives as many frames; and frame k ahead after a frames is frame a + k ahead.
/// Source: own.
pub fn queue_going_adds_up()
    ensures queue { (q : Queue) → IsQueue q → (a b : ℕ)
        → queue_after (queue_after q a) b ≡ queue_after q (a + b) }
    ensures given { (q : Queue) → IsQueue q → (a b : ℕ)
        → queue_given q (a + b) ≡ queue_given q a + queue_given (queue_after q a) b }
    ensures ahead { (q : Queue) → IsQueue q → (a k : ℕ)
        → queue_frame (queue_after q a) k ≡ queue_frame q (a + k) }
{}

/// The same for a stream, with its run, and for the frames that it gives. Source: own.
pub fn going_adds_up()
    ensures stream { (s : Stream) → IsStream s → (a b : ℕ) → after (after s a) b ≡ after s (a + b) }
    ensures given { (s : Stream) → IsStream s → (a b : ℕ)
        → given_of s (a + b) ≡ given_of s a + given_of (after s a) b }
    ensures frames { (s : Stream) → IsStream s → (a b : ℕ)
        → frames_given s (a + b) ≡ frames_given s a ++ frames_given (after s a) b }
    ensures ahead { (s : Stream) → IsStream s → (a k : ℕ)
        → frame_at (after s a) k ≡ frame_at s (a + k) }
{}
