//! Why an event is refused.

use px_types::NoMemory;
use thiserror::Error;

/// Why an event is refused: it names a state that the world hasn't. Own: PulseAudio records no sessions.
#[derive(Clone, Copy, Debug, PartialEq, Eq, Error)]
pub enum WorldFault {
    /// A Connect of a number that is live.
    #[error("live")]
    Live,
    /// An event of a number that isn't live.
    #[error("not live")]
    NotLive,
    /// No sink has the index.
    #[error("no sink")]
    NoSink,
    /// The sink has filled more than 2^60 frames, so that it takes no more turns.
    #[error("worn")]
    Worn,
    /// More frames, messages or notices are asked for than there are.
    #[error("too many, {asked} of {there}")]
    TooMany { asked: u64, there: u64 },
    /// Memory ran out.
    #[error("out of memory")]
    NoMemory,
}

impl From<NoMemory> for WorldFault {
    ghost use Rattle.std.specs.Prelude.{◌≡◌};
    ghost use Rattle.px_world.specs.declared.fault.WorldFault.TheVariants as fault;

    ghost from_gives = { λ _ f. f ≡ fault.NoMemory };

    fn from(_: NoMemory) -> Self {
        WorldFault::NoMemory
    }
}
