//! Laws of a write's outcome, for every ahead index and every limit.
ghost use Rattle.std.specs.Prelude.{◌≡◌, ℕ, ℤ, pos, ◌≤ℤ◌, List};
ghost use Rattle.px_model.specs.Queue.{Queue};
ghost use Rattle.px_model.specs.Write.{overflow, outcome_of, outcome_by_counts};
ghost use Rattle.px_model.specs.Rows.{empty_at};

/// Where the ahead index isn't below the read index, an overflow follows from counts alone. So it does in every stream of a sink, with no case of its
/// own for a queue that holds nothing. With an ahead index below it that case counts: with nothing held, 5 frames from index 5 on, the read index at
/// 10, the ahead index at 0 and a limit of 4 frames are an overflow. Source: own.
pub fn overflow_is_counted()
    ensures counted { (q : Queue) (limit : ℕ) (p : ℤ) (l : ℕ) (a : ℤ) → q.read ≤ℤ a
        → outcome_of q (pos limit) p l a ≡ outcome_by_counts q limit p l a }
    ensures empty { outcome_of (empty_at (pos 10)) (pos 4) (pos 5) 5 (pos 0) ≡ overflow }
{}
