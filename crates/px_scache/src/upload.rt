//! An upload, and the counter of a connection's uploads.

use px_chmap::Map;
use px_sample::Spec;
use px_types::{ConnId, Text};

/// A sample that a connection uploads: `stream` is its number there, from 0x80000000 up, `length` the bytes that the sample has once it is
/// whole, `bytes` those that have come.
#[derive(Drop)]
pub struct Upload {
    pub conn: ConnId,
    pub stream: u32,
    pub name: Text,
    pub spec: Spec,
    pub map: Map,
    pub length: u32,
    pub bytes: Text,
}

/// The stream number of a connection's next upload.
#[derive(Clone, Copy, Debug, PartialEq, Eq)]
pub struct Counter {
    pub conn: ConnId,
    pub next: u32,
}
