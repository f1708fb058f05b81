// The words of `ctl`.
ghost use Rattle.std.specs.Prelude.{◌≡◌, map, string_bytes, None, Some, MatchOption, IfOk, IfErr};
ghost use Rattle.px_ctl.specs.declared.words.ControlWords.{ControlWords as Said};
ghost use Rattle.px_ctl.specs.declared.words.WordsFault.TheVariants as fault;
ghost use Rattle.px_ctl.specs.Words.{is_ctl, after_socket, IsSaid};

use crate::errand::errand;
use px_client::Errand;
use px_types::{NoMemory, Text};
use std::alloc::Global;

/// What the words of `ctl` ask for: an errand at the server that listens at a socket.
#[derive(Drop)]
pub struct ControlWords {
    /// The path of the socket.
    pub socket: Text,
    pub errand: Errand,
}

/// Why words of `ctl` are refused.
#[derive(Clone, Copy, Debug, PartialEq, Eq)]
pub enum WordsFault {
    /// They aren't the words of this command.
    Usage,
    /// Memory ran out while they were read.
    NoMemory,
}

impl From<NoMemory> for WordsFault {
    ghost use Rattle.std.specs.Prelude.{◌≡◌};
    ghost use Rattle.px_ctl.specs.declared.words.WordsFault.TheVariants as fault;

    ghost from_gives = { λ _ f. f ≡ fault.NoMemory };

    fn from(_: NoMemory) -> Self {
        WordsFault::NoMemory
    }
}

/// Whether the words are those of `ctl`: the first one is `ctl`.
pub fn is_ctl(words: &[String]) -> bool
    ensures { result ≡ is_ctl (map string_bytes words.now) }
{
    match words {
        [word, ..] => word.as_str() == "ctl",
        [] => false,
    }
}

// The words after `ctl --socket`: the path, and those of the errand. `None` where the words begin otherwise.
fn after_socket(words: &[String]) -> Option<(&str, &[String])>
    ensures { MatchOption result (after_socket (map string_bytes words.now) ≡ None) (λ found. after_socket (map string_bytes words.now) ≡ Some (found.0.now, map string_bytes found.1.now)) }
{
    let [first, second, path, rest @ ..] = words else {
        return None;
    };
    if first.as_str() == "ctl" && second.as_str() == "--socket" {
        Some((path.as_str(), rest))
    } else {
        None
    }
}

/// What the words of `ctl` ask for. Takes memory for the path, and for the name in an errand.
pub fn read_control_words(alloc: Global, words: &[String]) -> Result<ControlWords, WordsFault>
    ensures said { IfOk result (λ said. IsSaid (map string_bytes words.now) said) }
    ensures none { IfErr result (λ why. why ≡ fault.Usage → (said : Said) → IsSaid (map string_bytes words.now) said → ⊥) }
{
    let Some((path, rest)) = after_socket(words) else {
        return Err(WordsFault::Usage);
    };
    let Some(errand) = errand(alloc, rest)? else {
        return Err(WordsFault::Usage);
    };
    if !errand.is_allowed() {
        return Err(WordsFault::Usage);
    }
    let socket = Text::copied(alloc, path.as_bytes())?;
    Ok(ControlWords { socket, errand })
}
