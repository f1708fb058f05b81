//! What a live server uses of the outside: its words, links, the clock, a device that plays by it, and its host; and the whole server at a real
//! socket, with a client that reads late. The crate has no other items.
#![tactic(auto)]

#[cfg(test)]
mod tests;
