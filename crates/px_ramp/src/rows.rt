//! Worked examples of ramps.
ghost use Rattle.std.specs.Prelude.{◌≡◌, [], ◌∷◌, map};
ghost use Rattle.px_model.specs.Rows.{s16_samples, rewind_history};
ghost use Rattle.px_ramp.specs.Ramp.{value_at, aimed};
ghost use Rattle.px_ramp.specs.Deciding.{ramp_played};
ghost use Rattle.px_ramp.specs.Rows.{small_ramp_sink, falling, rising, slow, fall_played, turn_back_history, turn_back_played};

/// The definitions give these worked examples, over 4 frames: a ramp down, a second one that starts at the value that the first has reached, a ramp
/// that is rounded down at each frame, and what a small sink plays by them. Takes no memory. Source: own.
pub fn worked_ramps()
    ensures falls { map (value_at 4 falling) (10 ∷ 11 ∷ 12 ∷ 13 ∷ 14 ∷ 99 ∷ []) ≡ 65536 ∷ 51200 ∷ 36864 ∷ 22528 ∷ 8192 ∷ 8192 ∷ [] }
    ensures again { aimed 4 12 65536 falling ≡ rising }
    ensures rises { map (value_at 4 rising) (12 ∷ 13 ∷ 14 ∷ 15 ∷ 16 ∷ []) ≡ 36864 ∷ 44032 ∷ 51200 ∷ 58368 ∷ 65536 ∷ [] }
    ensures rounds { map (value_at 4 slow) (0 ∷ 1 ∷ 2 ∷ 3 ∷ 4 ∷ []) ≡ 10 ∷ 9 ∷ 8 ∷ 7 ∷ 7 ∷ [] }
    ensures fall { ramp_played s16_samples 4 small_ramp_sink rewind_history ≡ fall_played }
    ensures turn_back { ramp_played s16_samples 4 small_ramp_sink turn_back_history ≡ turn_back_played }
{}
