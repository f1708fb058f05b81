//! The words of `serve`, read with clap: the options on its command line. `read` has the one call, `command` the command as clap knows it, `options`
//! the options of its matches, and `words` the results.

mod command;
mod options;
mod read;
mod words;

pub use read::read_serve_words;
pub use words::{ServeWords, WordsFault};
