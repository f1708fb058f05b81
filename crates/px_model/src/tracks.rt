//! The laws of continuity, within one sink and from sink to sink: no stream index is settled twice.
ghost use Rattle.std.specs.Prelude.{◌≡◌, ◌+◌, ◌≤◌, List, ℕ, Some};
ghost use Rattle.std.specs.List.{AllByRecursion};
ghost use Rattle.px_model.specs.Stream.{Stream};
ghost use Rattle.px_model.specs.Going.{after};
ghost use Rattle.px_model.specs.Control.{attached};
ghost use Rattle.px_model.specs.Message.{Message};
ghost use Rattle.px_model.specs.Mix.{Samples};
ghost use Rattle.px_model.specs.Sink.{Sink, Input, IsSink, stream_at};
ghost use Rattle.px_model.specs.Turn.{inputs_with};
ghost use Rattle.px_model.specs.Deciding.{Entry, IsHistory, IsOrderlyHistory, sink_after, notices_of, messages_of};
ghost use Rattle.px_model.specs.Stay.{Stay, AreStays, track_over};
ghost use Rattle.px_model.specs.Track.{StandsAt, HandsOverAt, AllHandOver, all_opens, forward_by, track_of, IsJoined, Rise, indices_of_all, presence_of, history_opens};

/// For every sink, history and input that is opened at most once, at the start or by a message: each stretch of its track begins where the one before
/// ended, except where the read index ran on without prebuffering, and the indices of the track rise, so that none is settled twice. Source: own.
pub fn tracks_are_joined()
    ensures joined { (samples : Samples) (sink : Sink) → IsSink sink → (history : List Entry)
        → IsHistory samples sink history → IsOrderlyHistory samples sink history
        → (i : ℕ) → presence_of (stream_at i sink.inputs) + history_opens i history ≤ 1
        → IsJoined (track_of samples sink history i) }
    ensures rising { (samples : Samples) (sink : Sink) → IsSink sink → (history : List Entry)
        → IsHistory samples sink history → IsOrderlyHistory samples sink history
        → (i : ℕ) → presence_of (stream_at i sink.inputs) + history_opens i history ≤ 1
        → Rise (indices_of_all (track_of samples sink history i)) }
{}

/// An input that moves from sink to sink, also back to an earlier one: the parcel that leaves a sink is the one that comes to the next. Over all of
/// its stays each stretch of its track begins where the one before ended, except where the read index ran on without prebuffering, and the indices of
/// the track rise, so that none is settled twice, on whichever sink. Source: own.
pub fn tracks_go_on_from_sink_to_sink()
    ensures joined { (samples : Samples) (i : ℕ) (stays : List Stay) → AreStays samples i stays → IsJoined (track_over samples i stays) }
    ensures rising { (samples : Samples) (i : ℕ) (stays : List Stay) → AreStays samples i stays → Rise (indices_of_all (track_over samples i stays)) }
{}

/// The parcel of a Detached notice is the whole stream of its input at the horizon, as the messages before it left it. So is that of an input that
/// was opened in the same turn. Source: own.
pub fn parcels_are_whole()
    ensures { (mixed buffered : ℕ) (messages : List (Message Stream)) (inputs : List Input)
        → AllHandOver mixed buffered messages inputs }
{}

/// A stream that stays in a sink through a turn has the read index to which the turn moved it, at the turn's horizon. So has a parcel that leaves the
/// sink; and a parcel that is attached goes on from there, with nothing changed but its feed and factors. So a track goes on from sink to sink.
/// Source: own.
pub fn parcels_stand_at_the_horizon()
    ensures stays { (samples : Samples) (sink : Sink) (e : Entry) (i : ℕ) (s : Stream)
        → all_opens i (messages_of e) ≡ 0 → stream_at i sink.inputs ≡ Some s
        → StandsAt (after s (forward_by sink e)).queue.read
        (stream_at i (sink_after samples sink e).inputs) }
    ensures leaves { (samples : Samples) (sink : Sink) (e : Entry) (i : ℕ) (s : Stream)
        → all_opens i (messages_of e) ≡ 0 → stream_at i sink.inputs ≡ Some s
        → AllByRecursion (HandsOverAt i (after s (forward_by sink e)).queue.read)
        (notices_of samples sink e) }
    ensures attaches { (ahead i : ℕ) (parcel : Stream) (feed factors : List ℕ) (inputs : List Input)
        → stream_at i (inputs_with ahead (Message.attach i parcel feed factors) inputs)
        ≡ Some (attached parcel feed factors) }
{}
