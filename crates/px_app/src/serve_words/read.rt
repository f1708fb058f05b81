// The one call.
ghost use Rattle.std.specs.Prelude.{◌≡◌, ◌≢◌, ◌≤◌, [], Err, map, string_bytes, IfOk, MatchResult};
ghost use Rattle.clap.specs.Words.{fault_of};
ghost use Rattle.clap.specs.declared.error.kind.ErrorKind.TheVariants.{OutOfMemory};
ghost use Rattle.px_app.specs.ServeCommand.{serve_command, Reads, Refused, rows};
ghost use Rattle.px_app.specs.ServePlain.{Plain};
ghost use Rattle.px_app.specs.declared.serve_words.words.ServeWords.{ServeWords as Said};
ghost use Rattle.px_app.specs.declared.serve_words.words.WordsFault.TheVariants as fault;

use crate::serve_words::command::command;
use crate::serve_words::options::options;
use crate::serve_words::{ServeWords, WordsFault};
use clap::error::ErrorKind;
use std::alloc::Global;

// The fault for a refusal of clap, by its kind.
fn refusal(kind: ErrorKind) -> WordsFault
    ensures memory { kind ≡ OutOfMemory → result ≡ fault.NoMemory }
    ensures usage { result ≡ fault.Usage → kind ≢ OutOfMemory }
{
    match kind {
        ErrorKind::OutOfMemory => WordsFault::NoMemory,
        _ => WordsFault::Usage,
    }
}

/// Reads the words of `serve`: all words of the command line after the program's own name, of which the first is `serve`.
///
/// `--header PATH --socket PATH --out DIR --accept N [--history none|memory] [--source NAME] [--tape]`, in any order: paths as texts that aren't
/// empty, and N links, 1 to 65,535. Without `--history` no history is stored. NAME has 1 to 64 bytes, each 0x21 to 0x7E; without `--source` there is
/// none. Plain words are never `Usage`, and the options are their values; other words are read as clap reads this command (`--out=DIR`, say, or a
/// number with leading zeros), and are `Usage` where clap refuses them for another cause than memory, or where they name another history or a source
/// by something else than a name. Takes memory. Own.
pub fn read_serve_words(alloc: Global, words: &[String]) -> Result<ServeWords, WordsFault>
    ensures plain { (said : Said) → Plain (map string_bytes words.now) said
        → MatchResult result (λ read. read ≡ said) (λ why. why ≡ fault.NoMemory) }
    ensures read { IfOk result (λ read. (fault_of serve_command (map string_bytes words.now) ≡ [])
        × Reads (rows (map string_bytes words.now)) read × (1 ≤ read.options.accept)) }
    ensures usage { result ≡ Err fault.Usage → Refused (map string_bytes words.now) }
{
    let command = command(alloc)?;
    match command.try_get_matches_from(words) {
        Ok(matches) => options(alloc, &matches),
        Err(error) => Err(refusal(error.kind())),
    }
}
