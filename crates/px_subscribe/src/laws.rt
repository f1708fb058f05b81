//! The law of events.

ghost use Rattle.std.specs.Prelude.{◌≡◌, []};
ghost use Rattle.px_subscribe.specs.Infos.{Infos, Given};
ghost use Rattle.px_subscribe.specs.Became.{events_between, SayWhatBecame};

/// Between two moments each sink, input and client that is new, is gone, or has an info of other bytes has exactly the one
/// event that says so, and each other has none; nor has the server any but that of its own change. Between a moment and
/// itself there is no event. It does nothing: its contract is the law. Source: own.
pub fn events_say_what_became()
    ensures each { (given : Given) (before after : Infos) → SayWhatBecame given before after }
    ensures none { (given : Given) (infos : Infos) → events_between given infos infos ≡ [] }
{}
