// The laws of the definitions.

ghost use Rattle.std.specs.Prelude.{◌≡◌, ℕ, List, [], ◌∷◌, ◌++◌, length, Some, None};
ghost use Rattle.std.specs.List.{slice_get};
ghost use Rattle.px_header.specs.declared.header.Header.{Header};
ghost use Rattle.px_header.specs.declared.header.SinkSpec.{SinkSpec};
ghost use Rattle.px_session.specs.declared.event.Event.{Event};
ghost use Rattle.px_stream.specs.Samples.{samples};
ghost use Rattle.px_ramp.specs.Deciding.{ramp_replay, ramp_played, IsRampHistory};
ghost use Rattle.px_world.specs.World.{new_world};
ghost use Rattle.px_world.specs.Admission.{refusal_of};
ghost use Rattle.px_world.specs.Event.{effects_after};
ghost use Rattle.px_world.specs.Output.{records_of, world_by, effects_by_run, AreAdmitted};
ghost use Rattle.px_world.specs.History.{history_by};
ghost use Rattle.px_ramp_world.specs.World.{RampWorld, new_ramp_world, plain_of};
ghost use Rattle.px_ramp_world.specs.Event.{ramp_world_after};
ghost use Rattle.px_ramp_world.specs.Output.{ramp_world_by, ramp_records_by, ramp_effects_by, AreRampAdmitted};
ghost use Rattle.px_ramp_world.specs.History.{ramp_history_by, ramp_played_by_run, ramp_begun, ramp_sink_at, AreRampDecided};
ghost use Rattle.px_ramp_world.specs.Plain.{without_frames};

/// In a run of admitted events every frame that a sink plays is what its deciding turn made of it: the mix of the sink's streams after that turn, by the
/// ramps that it left. That turn is the last one of the sink whose horizon is at most the frame, and ends before the frame is played. Source: own.
pub fn ramped_frames_are_decided_by_a_turn()
    ensures { (n : ℕ) (header : Header) (events : List Event)
        → AreRampAdmitted (new_ramp_world n header) events
        → AreRampDecided n header events }
{}

/// The state of a sink after a run is the replay of the sink's history by ramps, and the frames that it plays are those of that replay, also where it
/// stops. Where the events are admitted the history is a possible one, and the number of frames played is the number consumed. Source: own.
pub fn ramped_sinks_replay_their_histories()
    ensures sinks { (n : ℕ) (header : Header) (events : List Event) (k : ℕ) (s : SinkSpec)
        → slice_get header.sinks k ≡ Some s
        → ramp_sink_at (ramp_world_by (new_ramp_world n header) events) k
        ≡ Some (ramp_replay samples n (ramp_begun s) (ramp_history_by (new_ramp_world n header) events k)) }
    ensures played { (n : ℕ) (header : Header) (events : List Event) (k : ℕ) (s : SinkSpec)
        → slice_get header.sinks k ≡ Some s
        → ramp_played_by_run (new_ramp_world n header) events k
        ≡ ramp_played samples n (ramp_begun s) (ramp_history_by (new_ramp_world n header) events k) }
    ensures histories { (n : ℕ) (header : Header) (events : List Event) (k : ℕ) (s : SinkSpec)
        → slice_get header.sinks k ≡ Some s → AreRampAdmitted (new_ramp_world n header) events
        → IsRampHistory samples n (ramp_begun s) (ramp_history_by (new_ramp_world n header) events k) }
    ensures all_consumed { (n : ℕ) (header : Header) (events : List Event) (k : ℕ) (s : SinkSpec)
        → slice_get header.sinks k ≡ Some s → AreRampAdmitted (new_ramp_world n header) events
        → length (ramp_played_by_run (new_ramp_world n header) events k)
        ≡ (ramp_replay samples n (ramp_begun s) (ramp_history_by (new_ramp_world n header) events k)).sink.consumed }
{}

/// Ramps change only the frames of a session: over any events the world with ramps goes beside the plain world, whatever its ramps. Both admit the same
/// events with the same effects and histories, and leave the same world, but for the frames in the sinks' buffers. Source: own.
pub fn ramps_change_only_frames()
    ensures world { (n : ℕ) (header : Header) (events : List Event)
        → without_frames (plain_of (ramp_world_by (new_ramp_world n header) events))
        ≡ without_frames (world_by (new_world header) events) }
    ensures effects { (n : ℕ) (header : Header) (events : List Event)
        → ramp_effects_by (new_ramp_world n header) events ≡ effects_by_run (new_world header) events }
    ensures admitted { (n : ℕ) (header : Header) (events : List Event)
        → AreAdmitted (new_world header) events → AreRampAdmitted (new_ramp_world n header) events }
    ensures refused { (n : ℕ) (header : Header) (events : List Event)
        → AreRampAdmitted (new_ramp_world n header) events → AreAdmitted (new_world header) events }
    ensures histories { (n : ℕ) (header : Header) (events : List Event) (k : ℕ)
        → ramp_history_by (new_ramp_world n header) events k ≡ history_by (new_world header) events k }
{}

/// A run proceeds event by event: the world, the output, the effects and the admission. Source: own.
pub fn ramped_runs_go_on()
    ensures world { (w : RampWorld) (events : List Event) (e : Event)
        → ramp_world_by w (events ++ e ∷ []) ≡ ramp_world_after (ramp_world_by w events) e }
    ensures records { (w : RampWorld) (events : List Event) (e : Event)
        → ramp_records_by w (events ++ e ∷ []) ≡ ramp_records_by w events ++ records_of (plain_of (ramp_world_by w events)) e }
    ensures effects { (w : RampWorld) (events : List Event) (e : Event)
        → ramp_effects_by w (events ++ e ∷ []) ≡ ramp_effects_by w events ++ effects_after (plain_of (ramp_world_by w events)) e }
    ensures admitted { (w : RampWorld) (events : List Event) (e : Event) → AreRampAdmitted w events
        → refusal_of (plain_of (ramp_world_by w events)) e ≡ None → AreRampAdmitted w (events ++ e ∷ []) }
{}
