// Which mixed frames a message alters.
ghost use Rattle.std.specs.Prelude.{◌≡◌, ◌≤◌, ◌<◌, ℕ, min, max, Some};
ghost use Rattle.px_model.specs.Applied.{applied};
ghost use Rattle.px_kept_mix.specs.Keeping.{SoundsOutside};
ghost use Rattle.px_stream.specs.Heard.{unaltered_of};
ghost use Rattle.px_stream.specs.Messages.{message_of, Suits};

use px_stream::{Stream, StreamMsg};

/// A stretch of the frames past the horizon: those from `from` up to `to` are altered, and all others stay as mixed. Where `to` isn't past `from` none
/// is altered.
#[derive(Clone, Copy, Debug, PartialEq, Eq)]
pub(crate) struct Altered {
    pub from: u64,
    pub to: u64,
}

impl Altered {
    /// Those of the next `mixed` frames that a message alters to a stream.
    pub(crate) fn of(stream: &Stream, change: &StreamMsg, mixed: u64) -> Altered
        requires { Suits stream.now.stream (message_of change.now) }
        ensures from { result.from ≡ unaltered_of mixed (message_of change.now) stream.now.stream }
        ensures inside { result.to ≤ mixed }
        ensures sounds { SoundsOutside mixed result.from result.to (applied mixed (message_of change.now)) (Some stream.now.stream) }
    {
        let from = stream.unaltered(change, mixed);
        let to = stream.resumed(change, from, mixed);
        Altered { from, to }
    }

    /// All of the next `mixed` frames from frame `from` on.
    pub(crate) fn from_on(from: u64, mixed: u64) -> Altered
        ensures from { result.from ≡ from }
        ensures past { (k : ℕ) → result.to ≤ k → k < mixed → k < from }
    {
        if from < mixed {
            Altered { from, to: mixed }
        } else {
            Altered { from, to: 0 }
        }
    }

    /// The shortest stretch that has both in it.
    pub(crate) fn with(self, more: Altered) -> Altered
        ensures from { result.from ≡ min self.from more.from }
        ensures to { result.to ≡ max self.to more.to }
    {
        Altered {
            from: self.from.min(more.from),
            to: self.to.max(more.to),
        }
    }
}
