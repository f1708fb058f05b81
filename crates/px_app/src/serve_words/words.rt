// The options in the words of `serve`, and why words are refused.
use px_ends::ServeOptions;
use px_names::SourceName;
use px_types::NoMemory;
use std::alloc::AllocError;
use std::error::Error;
use std::fmt;

/// The options in the words of `serve`: those of the server, whether it records a tape, and the name that clients are told as the default source's,
/// where there is one.
#[derive(Drop)]
pub struct ServeWords {
    pub options: ServeOptions,
    pub tape: bool,
    pub source: Option<SourceName>,
}

/// Why words of `serve` are refused.
#[derive(Clone, Copy, Debug, PartialEq, Eq)]
pub enum WordsFault {
    /// They aren't the words of this command.
    Usage,
    /// Memory ran out while they were read.
    NoMemory,
}

impl fmt::Display for WordsFault {
    fn fmt<W: fmt::Write>(&self, f: &mut fmt::Formatter<W>) -> fmt::Result {
        f.write_str(match self {
            WordsFault::Usage => "wrong words",
            WordsFault::NoMemory => "out of memory",
        })
    }
}

impl Error for WordsFault {}

impl From<AllocError> for WordsFault {
    ghost use Rattle.std.specs.Prelude.{◌≡◌};
    ghost use Rattle.px_app.specs.declared.serve_words.words.WordsFault.TheVariants as fault;

    ghost from_gives = { λ _ f. f ≡ fault.NoMemory };

    fn from(_: AllocError) -> Self {
        WordsFault::NoMemory
    }
}

impl From<NoMemory> for WordsFault {
    ghost use Rattle.std.specs.Prelude.{◌≡◌};
    ghost use Rattle.px_app.specs.declared.serve_words.words.WordsFault.TheVariants as fault;

    ghost from_gives = { λ _ f. f ≡ fault.NoMemory };

    fn from(_: NoMemory) -> Self {
        WordsFault::NoMemory
    }
}
