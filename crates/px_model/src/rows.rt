//! Worked examples: the frames that whole histories of a small sink play, and their notices.
ghost use Rattle.std.specs.Prelude.{◌≡◌, [], ◌∷◌, pos, negsuc};
ghost use Rattle.px_model.specs.Deciding.{replay_played, replay_notices};
ghost use Rattle.px_model.specs.Rows.{s16, s16_samples, small_sink, underrun_history, underrun_played, underrun_notices, seek_history, seek_played, seek_notices, limit_history, limit_played, limit_notices, overflow_history, overflow_played, overflow_notices, rewind_history, rewind_played, rewind_notices, late_history, late_played, late_notices, mix_history, loud_messages, deep_messages, balanced_messages, eighth_history, eighth_played, drain_history, drain_notices, stop_history, stop_notices, hold_history, hold_played, hold_notices, cork_history, cork_played, cork_notices, flush_history, flush_played, flush_notices, minreq_history, minreq_notices, last_history, last_notices};

/// The definitions give these worked examples, sample by sample and notice by notice: a mono sink in 16 bits with a guard of 10 frames and a depth of
/// 100. Takes no memory. Source: own.
pub fn worked_rows()
    ensures underrun_plays { replay_played s16_samples small_sink underrun_history
        ≡ underrun_played }
    ensures underrun_gives { replay_notices s16_samples small_sink underrun_history
        ≡ underrun_notices }
    ensures seek_plays { replay_played s16_samples small_sink seek_history ≡ seek_played }
    ensures seek_gives { replay_notices s16_samples small_sink seek_history ≡ seek_notices }
    ensures limit_plays { replay_played s16_samples small_sink limit_history ≡ limit_played }
    ensures limit_gives { replay_notices s16_samples small_sink limit_history ≡ limit_notices }
    ensures overflow_plays { replay_played s16_samples small_sink overflow_history
        ≡ overflow_played }
    ensures overflow_gives { replay_notices s16_samples small_sink overflow_history
        ≡ overflow_notices }
    ensures rewind_plays { replay_played s16_samples small_sink rewind_history ≡ rewind_played }
    ensures rewind_gives { replay_notices s16_samples small_sink rewind_history ≡ rewind_notices }
    ensures late_plays { replay_played s16_samples small_sink late_history ≡ late_played }
    ensures late_gives { replay_notices s16_samples small_sink late_history ≡ late_notices }
    ensures loud_plays { replay_played s16_samples small_sink (mix_history loud_messages)
        ≡ s16 (pos 32767) ∷ [] }
    ensures deep_plays { replay_played s16_samples small_sink (mix_history deep_messages)
        ≡ s16 (negsuc 32767) ∷ [] }
    ensures balanced_plays { replay_played s16_samples small_sink (mix_history balanced_messages)
        ≡ s16 (pos 30000) ∷ [] }
    ensures eighth_plays { replay_played s16_samples small_sink eighth_history ≡ eighth_played }
    ensures drain_gives { replay_notices s16_samples small_sink drain_history ≡ drain_notices }
    ensures stop_gives { replay_notices s16_samples small_sink stop_history ≡ stop_notices }
    ensures hold_plays { replay_played s16_samples small_sink hold_history ≡ hold_played }
    ensures hold_gives { replay_notices s16_samples small_sink hold_history ≡ hold_notices }
    ensures cork_plays { replay_played s16_samples small_sink cork_history ≡ cork_played }
    ensures cork_gives { replay_notices s16_samples small_sink cork_history ≡ cork_notices }
    ensures flush_plays { replay_played s16_samples small_sink flush_history ≡ flush_played }
    ensures flush_gives { replay_notices s16_samples small_sink flush_history ≡ flush_notices }
    ensures minreq_gives { replay_notices s16_samples small_sink minreq_history ≡ minreq_notices }
    ensures last_gives { replay_notices s16_samples small_sink last_history ≡ last_notices }
{}
