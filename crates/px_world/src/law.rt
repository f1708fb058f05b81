// The laws of the definitions.

ghost use Rattle.std.specs.Prelude.{◌≡◌, ℕ, ◌<◌, List, [], ◌∷◌, ◌++◌, length, Some, None};
ghost use Rattle.std.specs.List.{slice_get};
ghost use Rattle.px_header.specs.declared.header.Header.{Header};
ghost use Rattle.px_header.specs.declared.header.SinkSpec.{SinkSpec};
ghost use Rattle.px_types.specs.declared.ids.SinkId.{SinkId};
ghost use Rattle.px_session.specs.declared.event.Event.{Event};
ghost use Rattle.px_session.specs.declared.event.Event.TheVariants.{Stop};
ghost use Rattle.px_state.specs.State.{marked_of};
ghost use Rattle.px_model.specs.Deciding.{replay, replay_played, IsHistory};
ghost use Rattle.px_stream.specs.Samples.{samples};
ghost use Rattle.px_world.specs.World.{World, new_world};
ghost use Rattle.px_world.specs.Admission.{refusal_of};
ghost use Rattle.px_world.specs.Event.{world_after, effects_after, world_stopping};
ghost use Rattle.px_world.specs.Output.{world_by, records_of, records_by, effects_by_run, AreAdmitted, output_of};
ghost use Rattle.px_world.specs.History.{history_by, played_by_run, begun, sink_at, AreDecided};
ghost use Rattle.px_header.specs.HeaderRules.{IsHeader};
ghost use Rattle.px_model.specs.Track.{IsJoined, Rise, indices_of_all, track_of};
ghost use Rattle.px_world.specs.Continuity.{track_by, stretches_of, stretches_at};
ghost use Rattle.px_world.specs.Whereabouts.{last_of, Stands};
ghost use Rattle.px_world.specs.Worked.{small_header, small_events, small_output, small_world, moving_events, small_track, stopping_header, stopping_events, stopping_output};

/// In a run of admitted events every frame that a sink plays is what its deciding turn made of it: the mix of the sink's streams after that turn.
/// That turn is the last one of the sink whose horizon is at most the frame, and ends before the frame is played. Source: own.
pub fn played_frames_are_decided_by_a_turn()
    ensures { (header : Header) (events : List Event) → AreAdmitted (new_world header) events
        → AreDecided header events }
{}

/// The state of a sink after a run is the replay of the sink's history, and the frames that it plays are those of that replay, also where it stops. Where
/// the events are admitted the history is a possible one, and the number of frames played is the number consumed. Source: own.
pub fn sinks_replay_their_histories()
    ensures sinks { (header : Header) (events : List Event) (k : ℕ) (s : SinkSpec)
        → slice_get header.sinks k ≡ Some s
        → sink_at (world_by (new_world header) events) k
        ≡ Some (replay samples (begun s) (history_by (new_world header) events k)) }
    ensures played { (header : Header) (events : List Event) (k : ℕ) (s : SinkSpec)
        → slice_get header.sinks k ≡ Some s
        → played_by_run (new_world header) events k
        ≡ replay_played samples (begun s) (history_by (new_world header) events k) }
    ensures histories { (header : Header) (events : List Event) (k : ℕ) (s : SinkSpec)
        → slice_get header.sinks k ≡ Some s → AreAdmitted (new_world header) events
        → IsHistory samples (begun s) (history_by (new_world header) events k) }
    ensures all_consumed { (header : Header) (events : List Event) (k : ℕ) (s : SinkSpec)
        → slice_get header.sinks k ≡ Some s → AreAdmitted (new_world header) events
        → length (played_by_run (new_world header) events k)
        ≡ (replay samples (begun s) (history_by (new_world header) events k)).consumed }
{}

/// A run proceeds event by event: the world, the output, the effects and the admission. Source: own.
pub fn runs_go_on()
    ensures world { (w : World) (events : List Event) (e : Event)
        → world_by w (events ++ e ∷ []) ≡ world_after (world_by w events) e }
    ensures records { (w : World) (events : List Event) (e : Event)
        → records_by w (events ++ e ∷ []) ≡ records_by w events ++ records_of (world_by w events) e }
    ensures effects { (w : World) (events : List Event) (e : Event)
        → effects_by_run w (events ++ e ∷ []) ≡ effects_by_run w events ++ effects_after (world_by w events) e }
    ensures admitted { (w : World) (events : List Event) (e : Event) → AreAdmitted w events
        → refusal_of (world_by w events) e ≡ None → AreAdmitted w (events ++ e ∷ []) }
{}

/// In a run of admitted events, also one in which sinks stop, the frames of an input that are settled as played are consecutive,
/// over all sinks that it moves to: each stretch begins where the one before it ended, or past that where that one ran on
/// without prebuffering. So its indices rise: none is settled twice. The stretches settled at a sink are those of the sink's
/// own history, so no turn is left out. Afterwards the input's stream is at one place at most, and stands there where the last
/// stretch ended, or past that where it ran on. A frame that a flush gives up is never settled, and a sink that stopped may not
/// have played what it settled. Source: own.
pub fn continuity()
    ensures joined { (header : Header) (events : List Event) (i : ℕ) → IsHeader header
        → AreAdmitted (new_world header) events
        → IsJoined (stretches_of (track_by (new_world header) events i)) }
    ensures rising { (header : Header) (events : List Event) (i : ℕ) → IsHeader header
        → AreAdmitted (new_world header) events
        → Rise (indices_of_all (stretches_of (track_by (new_world header) events i))) }
    ensures whole { (header : Header) (events : List Event) (k i : ℕ) (s : SinkSpec)
        → slice_get header.sinks k ≡ Some s
        → stretches_at k (track_by (new_world header) events i)
        ≡ track_of samples (begun s) (history_by (new_world header) events k) i }
    ensures stands { (header : Header) (events : List Event) (i : ℕ) → IsHeader header
        → AreAdmitted (new_world header) events
        → Stands (world_by (new_world header) events).core (world_by (new_world header) events).mixers i
        (last_of None (stretches_of (track_by (new_world header) events i))) }
{}

/// Two runs, one after the other, are one run: its world, its output, its effects and its admission. Source: own.
pub fn runs_join()
    ensures world { (w : World) (earlier later : List Event)
        → world_by w (earlier ++ later) ≡ world_by (world_by w earlier) later }
    ensures records { (w : World) (earlier later : List Event)
        → records_by w (earlier ++ later) ≡ records_by w earlier ++ records_by (world_by w earlier) later }
    ensures effects { (w : World) (earlier later : List Event)
        → effects_by_run w (earlier ++ later) ≡ effects_by_run w earlier ++ effects_by_run (world_by w earlier) later }
    ensures admitted { (w : World) (earlier later : List Event) → AreAdmitted w earlier
        → AreAdmitted (world_by w earlier) later → AreAdmitted w (earlier ++ later) }
    ensures split { (w : World) (earlier later : List Event) → AreAdmitted w (earlier ++ later)
        → AreAdmitted w earlier × AreAdmitted (world_by w earlier) later }
{}

/// After each event of a run no connection waits to be swept away, and where none does an event `Stop` does what `World::stop`
/// does, and nothing else: it has no effects. So a run with calls of `World::stop` between its events is a run of events.
/// Source: own.
pub fn stops_are_events()
    ensures world { (w : World) (sink : SinkId) → marked_of w.core.connections ≡ []
        → world_after w (Stop sink) ≡ world_stopping w sink.0 }
    ensures effects { (w : World) (sink : SinkId) → marked_of w.core.connections ≡ []
        → effects_after w (Stop sink) ≡ [] }
    ensures swept { (header : Header) (events : List Event) → IsHeader header
        → AreAdmitted (new_world header) events
        → marked_of (world_by (new_world header) events).core.connections ≡ [] }
{}

/// The definitions give the output of two small sessions, one in which a sink stops, and the track of an input over a small
/// run, that were worked by hand. Source: own.
pub fn worked_session()
    ensures admitted { AreAdmitted (new_world small_header) small_events }
    ensures output { output_of small_header small_events ≡ small_output }
    ensures moves { AreAdmitted small_world moving_events }
    ensures track { track_by small_world moving_events 3 ≡ small_track }
    ensures stop_admitted { AreAdmitted (new_world stopping_header) stopping_events }
    ensures stop_output { output_of stopping_header stopping_events ≡ stopping_output }
{}
