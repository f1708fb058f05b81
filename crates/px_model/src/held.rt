//! Laws of the frames that a queue holds: a list of places from the read index on, which represents a map from index to frame.
ghost use Rattle.std.specs.Prelude.{◌≡◌, ◌<◌, ◌≤◌, ◌⊎◌, List, Option, None, length, slice_get, ℕ, ℤ, ◌≤ℤ◌, ◌<ℤ◌};
ghost use Rattle.px_model.specs.Index.{onward, above};
ghost use Rattle.px_model.specs.Frame.{Frame};
ghost use Rattle.px_model.specs.Held.{frame_of, places_of, written_over, overlay, IsTrimmed};
ghost use Rattle.px_model.specs.Queue.{Queue, IsQueue, frame_held, left_of, edge_of};
ghost use Rattle.px_model.specs.Going.{queue_after};

/// The list of places and the finite map from index to frame determine each other: nothing is held below the read index or past the list, the list
/// comes back from its map and the map from its list, and equal maps are equal lists. Source: own.
pub fn places_are_a_map()
    ensures below { (read : ℤ) (held : List (Option Frame)) (i : ℤ) → i <ℤ read
        → frame_of read held i ≡ None }
    ensures past { (read : ℤ) (held : List (Option Frame)) (i : ℤ) → onward read (length held) ≤ℤ i
        → frame_of read held i ≡ None }
    ensures list_back { (read : ℤ) (held : List (Option Frame))
        → places_of read (length held) (frame_of read held) ≡ held }
    ensures map_back { (read : ℤ) (n : ℕ) (frames : ℤ → Option Frame)
        → ((i : ℤ) → i <ℤ read → frames i ≡ None) → ((i : ℤ) → onward read n ≤ℤ i → frames i ≡ None)
        → (i : ℤ) → frame_of read (places_of read n frames) i ≡ frames i }
    ensures same { (read : ℤ) (held other : List (Option Frame)) → IsTrimmed held → IsTrimmed other
        → ((i : ℤ) → frame_of read held i ≡ frame_of read other i) → held ≡ other }
{}

/// A write changes exactly its own indices from the read index on. It leaves no hole in the last place. Source: PulseAudio's `pa_memblockq_push`.
pub fn write_changes_its_indices()
    ensures inside { (read p : ℤ) (frames : List Frame) (held : List (Option Frame)) (k : ℕ)
        → k < length frames
        → read ≤ℤ onward p k → frame_of read (written_over read p frames held) (onward p k)
        ≡ slice_get frames k }
    ensures outside { (read p : ℤ) (frames : List Frame) (held : List (Option Frame)) (i : ℤ)
        → (i <ℤ p) ⊎ (onward p (length frames) ≤ℤ i)
        → frame_of read (written_over read p frames held) i ≡ frame_of read held i }
    ensures trimmed { (read p : ℤ) (frames : List Frame) (held : List (Option Frame))
        → IsTrimmed held
        → IsTrimmed (written_over read p frames held) }
{}

/// Moving forward never moves the read index back, and changes no frame at or past the new one. The frames left reach from the read index to the
/// edge. Source: PulseAudio's `pa_memblockq_drop`.
pub fn going_drops_the_past()
    ensures rises { (q : Queue) → IsQueue q → (k : ℕ) → q.read ≤ℤ (queue_after q k).read }
    ensures stays { (q : Queue) → IsQueue q → (k : ℕ) (i : ℤ) → (queue_after q k).read ≤ℤ i
        → frame_held (queue_after q k) i ≡ frame_held q i }
    ensures left { (q : Queue) → left_of q ≡ above (edge_of q) q.read }
{}
