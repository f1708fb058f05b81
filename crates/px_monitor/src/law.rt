// The laws of the definitions.

ghost use Rattle.std.specs.Prelude.{◌≡◌, ℕ, List};
ghost use Rattle.px_types.specs.declared.ids.ConnId.{ConnId};
ghost use Rattle.px_header.specs.declared.header.Header.{Header};
ghost use Rattle.px_header.specs.HeaderRules.{IsHeader};
ghost use Rattle.px_session.specs.declared.event.Event.{Event};
ghost use Rattle.px_world.specs.World.{new_world};
ghost use Rattle.px_world.specs.Output.{world_by, AreAdmitted};
ghost use Rattle.px_sieve.specs.Segment.{new_segments};
ghost use Rattle.px_sieve.specs.Scene.{inner, shown_by};
ghost use Rattle.px_monitor.specs.Monitor.{Monitor, new_monitor, hearing, to_hand_out};
ghost use Rattle.px_monitor.specs.Run.{monitor_by, AreMonitored, items_by, effects_shown, due_by, sent_by, payloads, NothingWaits, received_in};

/// In a run of events that are admitted, the world admits each event that it gets, it is the world after these events, and the
/// effects that are shown are theirs, with the replies to the commands on record streams in their places. Source: own.
pub fn monitors_stand_before_a_world()
    ensures admitted { (header : Header) (events : List Event) → AreMonitored (new_monitor header) events
        → AreAdmitted (new_world header) (inner (items_by (new_monitor header) events)) }
    ensures world { (header : Header) (events : List Event)
        → (monitor_by (new_monitor header) events).world ≡ world_by (new_world header) (inner (items_by (new_monitor header) events)) }
    ensures effects { (header : Header) (events : List Event)
        → effects_shown (new_monitor header) events ≡ shown_by (new_world header) (items_by (new_monitor header) events) }
{}

/// The payloads of the frames that a record stream is sent, joined, are the bytes that its sink plays from its creation to its
/// end. The record stream is named by its source output. Source: own.
pub fn record_streams_get_what_is_played()
    ensures { (header : Header) (events : List Event) (output : ℕ) → IsHeader header
        → payloads (sent_by (new_monitor header) events output) ≡ due_by (new_monitor header) events output }
{}

/// Between two events no segment waits, whatever the events are. So the segments of an event are what its bytes newly have after
/// all bytes of the connection since its number was free. Source: own.
pub fn pieces_are_of_new_bytes()
    ensures idle { (header : Header) (events : List Event) → NothingWaits (monitor_by (new_monitor header) events) }
    ensures pieces { (m : Monitor) (conn : ConnId) (bytes : List ℕ) → NothingWaits m
        → to_hand_out (hearing m conn bytes) conn ≡ new_segments (received_in m conn) bytes }
{}
