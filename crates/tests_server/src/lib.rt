//! Tests of the live server over a host in memory: a client that gets its reply, a sink and a client side by side, each failing call of the host,
//! full histories, and files that aren't headers. The crate has no other items.
#![tactic(auto)]

#[cfg(test)]
mod tests;
