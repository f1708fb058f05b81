//! That each input is played or refused, and refused in one way, that a replay is a run of the world, and that a conversion replays as its input does.

ghost use Rattle.std.specs.Prelude.{◌≡◌, ◌≢◌, ◌≤◌, ◌⊎◌, ◌↔◌, ◌++◌, ℕ, List, length};
ghost use Rattle.px_header.specs.declared.header.Header.{Header};
ghost use Rattle.px_session.specs.declared.event.Event.{Event};
ghost use Rattle.px_session.specs.declared.fault.Cause.TheVariants.{Truncated};
ghost use Rattle.px_session.specs.declared.form.Form.TheVariants.{Two};
ghost use Rattle.px_session.specs.Law.{AreBytes};
ghost use Rattle.px_session.specs.Place.{limit};
ghost use Rattle.px_session.specs.Session.{Ended, Events, IsSession};
ghost use Rattle.px_session.specs.Spelling.{spelled};
ghost use Rattle.px_world.specs.World.{World};
ghost use Rattle.px_world.specs.Output.{world_by, output_of, AreAdmitted as IsRun};
ghost use Rattle.px_app.specs.declared.refusal.Refusal.{Refusal};
ghost use Rattle.px_app.specs.declared.refusal.Why.TheVariants as why;
ghost use Rattle.px_app.specs.declared.view.Lens.{Lens};
ghost use Rattle.px_app.specs.declared.view.Lens.TheVariants as lens;
ghost use Rattle.px_app.specs.Convert.{free_course};
ghost use Rattle.px_app.specs.Mode.{state_by, AreAdmitted, shown_by, output_by};
ghost use Rattle.px_app.specs.Session.{IsPlayed, Before, IsRefused};
ghost use Rattle.px_app.specs.View.{world_course, replay_mode, shown_of_run};

/// Each list of bytes is a session that is played, in one way, or is refused, and not both. It does nothing: its contract is the law.
pub fn inputs_are_played_or_refused()
    ensures either { (bytes : List ℕ) → ((header : Header) × (events : List Event) × IsPlayed world_course bytes header events)
        ⊎ ((refusal : Refusal) × (before : Before) × IsRefused world_course bytes refusal before) }
    ensures never_both { (bytes : List ℕ) (header : Header) (events : List Event) (refusal : Refusal) (before : Before)
        → IsPlayed world_course bytes header events → IsRefused world_course bytes refusal before → ⊥ }
    ensures one_way { (bytes : List ℕ) (header other : Header) (events others : List Event)
        → IsPlayed world_course bytes header events → IsPlayed world_course bytes other others → (header ≡ other) × (events ≡ others) }
{}

/// A refusal's offset, cause and preceding events are unique, and unless its cause is an early end they stay the same whatever bytes follow. It does
/// nothing: its contract is the law.
pub fn refusals_are_final()
    ensures one { (bytes : List ℕ) (refusal other : Refusal) (before others : Before) → IsRefused world_course bytes refusal before
        → IsRefused world_course bytes other others → (refusal ≡ other) × (before ≡ others) }
    ensures stays { (bytes behind : List ℕ) (refusal : Refusal) (before : Before) → IsRefused world_course bytes refusal before
        → refusal.why ≢ why.Session Truncated → IsRefused world_course (bytes ++ behind) refusal before }
{}

/// A replay admits the events that are a run of the world, ends in the world after them, and shows the records of that run, or the frames that a sink
/// plays in it. It does nothing: its contract is the law.
pub fn replays_are_runs_of_the_world()
    ensures admitted { (w : World) (events : List Event) → AreAdmitted world_course w events ↔ IsRun w events }
    ensures states { (w : World) (events : List Event) → state_by world_course w events ≡ world_by w events }
    ensures shown { (l : Lens) (w : World) (events : List Event) → shown_by replay_mode l w events ≡ shown_of_run l w events }
    // The records of a whole session are the world's output.
    ensures output { (header : Header) (events : List Event) → output_by replay_mode lens.Records header events ≡ output_of header events }
{}

/// What a conversion writes of a session, where it isn't too long, is read again as a session of the second form with the same header and the same
/// events. So it is played by a replay exactly where the session is, with the same output for every view. It does nothing: its contract is the law.
pub fn conversions_replay_the_same()
    ensures again { (bytes : List ℕ) (header : Header) (events : List Event) → AreBytes bytes → IsPlayed free_course bytes header events
        → length (spelled Two header events) ≤ limit → IsSession (spelled Two header events) (Events Two header events Ended) }
    ensures played { (bytes : List ℕ) (header : Header) (events : List Event) → AreBytes bytes → length (spelled Two header events) ≤ limit
        → IsPlayed world_course bytes header events → IsPlayed world_course (spelled Two header events) header events }
    // What is played of it, and so what each view shows, is that of the session.
    ensures same { (bytes : List ℕ) (header other : Header) (events others : List Event) (l : Lens) → AreBytes bytes → length (spelled Two header events) ≤ limit
        → IsPlayed world_course bytes header events → IsPlayed world_course (spelled Two header events) other others
        → output_by replay_mode l other others ≡ output_by replay_mode l header events }
{}
