//! The command `serve`: the host is started with its options, the header that it reads is served, and all that the host made goes back to it.
//! `source` has the bytes of the header file, `header` reads them, `back` hands back, and `call` is the one call.

mod back;
mod call;
mod header;
mod source;

pub use call::{ServeEnd, serve_by};
pub use header::header_in;
