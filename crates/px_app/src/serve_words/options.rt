// The options in the matches of the command.
ghost use Rattle.std.specs.Prelude.{◌≡◌, ◌⊎◌, None, MatchResult, IsSome, Some, IfOk, codes, option_map};
ghost use Rattle.clap.specs.Words.{found_of, rows_of, first_of};
ghost use Rattle.px_app.specs.ServeCommand.{HasOptions, Reads, history_of, is_set, source_of, IsUnknown};
ghost use Rattle.px_app.specs.declared.serve_words.words.WordsFault.TheVariants as fault;

use crate::serve_words::{ServeWords, WordsFault};
use clap::ArgMatches;
use px_ends::ServeOptions;
use px_names::SourceName;
use px_types::{Mem, Text};
use std::alloc::Global;

// Whether histories are stored in memory, by the value of the option; `None` where it names no history.
fn history(value: Option<&str>) -> Option<bool>
    ensures { result ≡ history_of (option_map (λ text. text.now) value.entry) }
{
    match value {
        None => Some(false),
        Some("none") => Some(false),
        Some("memory") => Some(true),
        Some(_) => None,
    }
}

// Whether an option without a value is set, by the text that it leaves.
fn is_set(text: Option<&str>) -> bool
    ensures { result ≡ is_set (option_map (λ word. word.now) text.entry) }
{
    match text {
        Some(word) => word == "true",
        None => false,
    }
}

// The name of a source of this text.
fn named(alloc: Global, text: &str) -> Result<SourceName, WordsFault>
    ensures { MatchResult result (λ name. source_of (Some text.now) ≡ Some (Some name))
        (λ why. (why ≡ fault.NoMemory) ⊎ (source_of (Some text.now) ≡ None)) }
{
    match SourceName::read(Text::copied(alloc, text.as_bytes())?) {
        Some(name) => Ok(name),
        None => Err(WordsFault::Usage),
    }
}

// The name of the default source, by the value of the option, where it has one. Usage where that isn't such a name.
fn source(alloc: Global, value: Option<&str>) -> Result<Option<SourceName>, WordsFault>
    ensures { MatchResult result (λ source. source_of (option_map (λ text. text.now) value.entry) ≡ Some source)
        (λ why. (why ≡ fault.NoMemory) ⊎ (source_of (option_map (λ text. text.now) value.entry) ≡ None)) }
{
    match value {
        None => Ok(None),
        Some(text) => Ok(Some(named(alloc, text)?)),
    }
}

// The value of an option that is set.
fn value(alloc: Global, matches: &ArgMatches<'_>, name: &str) -> Mem<Text>
    requires { IsSome (first_of name.now (rows_of (found_of matches.now))) }
    ensures { IfOk result (λ text. first_of name.now (rows_of (found_of matches.now)) ≡ Some text) }
{
    Text::copied(alloc, matches.get_str(name).unwrap().as_bytes())
}

// The options that the matches give.
pub fn options(alloc: Global, matches: &ArgMatches<'_>) -> Result<ServeWords, WordsFault>
    requires { HasOptions (rows_of (found_of matches.now)) }
    ensures { MatchResult result (Reads (rows_of (found_of matches.now)))
        (λ why. (why ≡ fault.NoMemory)
        ⊎ IsUnknown (rows_of (found_of matches.now))) }
{
    let Some(memory) = history(matches.get_str("history")) else {
        return Err(WordsFault::Usage);
    };
    let source = source(alloc, matches.get_str("source"))?;
    let header = value(alloc, matches, "header")?;
    let socket = value(alloc, matches, "socket")?;
    let out = value(alloc, matches, "out")?;
    let accept = matches.get_one("accept").unwrap();
    let tape = is_set(matches.get_str("tape"));
    let options = ServeOptions {
        header,
        socket,
        out,
        accept,
        memory,
    };
    Ok(ServeWords {
        options,
        tape,
        source,
    })
}
