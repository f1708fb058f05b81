//! The objects that events are about, each with an index and an info. Values are compared before any packet is written: after most
//! steps nearly all infos are equal.

ghost use Rattle.std.specs.Prelude.{◌≡◌, ◌<◌, List, ℕ, IsTrue, IfOk};
ghost use Rattle.std.specs.Option.{option_map};
ghost use Rattle.px_reply.specs.declared.info.SinkInfo.{SinkInfo as DeclaredSink};
ghost use Rattle.px_reply.specs.declared.info.InputInfo.{InputInfo as DeclaredInput};
ghost use Rattle.px_reply.specs.declared.info.ClientInfo.{ClientInfo as DeclaredClient};
ghost use Rattle.px_subscribe.specs.InfoBytes.{IsWritableSink, IsWritableInput, IsWritableClient, sink_bytes, input_bytes, client_bytes};

use px_reply::{ClientInfo, InputInfo, SinkInfo};
use px_tag::{Packet, PropList};
use px_types::limits::PROTOCOL_VERSION;
use px_types::{Mem, NoMemory, Text};
use std::alloc::Global;

/// The info of an object, as one moment has it.
pub(crate) trait Object {
    ghost index_of: { Self → ℕ };

    ghost bytes_of: { Self → List ℕ };

    ghost IsWritable: { Self → Type 0 };

    /// Its index. Takes no memory.
    fn index(&self) -> u32
        ensures { result ≡ index_of self.now };

    /// Whether it is equal to another. Takes no memory.
    fn is_like(&self, other: &Self) -> bool
        ensures { IsTrue result → self.now ≡ other.now };

    /// Its bytes, at the server's version of the protocol.
    fn bytes(&self, alloc: Global) -> Mem<Packet>
        requires { IsWritable self.now }
        ensures { IfOk result (λ bytes. bytes ≡ bytes_of self.now) };
}

// Whether two entries of property lists are equal.
fn same_entry(a: Option<(&[u8], &[u8])>, b: Option<(&[u8], &[u8])>) -> bool
    ensures { IsTrue result → option_map {U = List ℕ × List ℕ} (λ p. (p.0.now, p.1.now)) a.entry ≡ option_map {U = List ℕ × List ℕ} (λ p. (p.0.now, p.1.now)) b.entry }
{
    match (a, b) {
        (None, None) => true,
        (Some((key, value)), Some((other, too))) => key == other && value == too,
        _ => false,
    }
}

// Whether two property lists are equal.
fn same_list(a: &PropList, b: &PropList) -> bool
    ensures { IsTrue result → a.now ≡ b.now }
{
    if a.len() != b.len() {
        return false;
    }
    for i in 0..a.len() {
        if !same_entry(a.get_index(i), b.get_index(i)) {
            return false;
        }
    }
    true
}

// Whether two names are equal, or both are missing.
fn same_name(a: &Option<Text>, b: &Option<Text>) -> bool
    ensures { IsTrue result → a.now ≡ b.now }
{
    match (a, b) {
        (None, None) => true,
        (Some(a), Some(b)) => a.as_slice() == b.as_slice(),
        _ => false,
    }
}

impl Object for SinkInfo {
    ghost index_of = { DeclaredSink.index };

    ghost bytes_of = { sink_bytes };

    ghost IsWritable = { IsWritableSink };

    fn index(&self) -> u32 {
        self.index
    }

    fn is_like(&self, other: &Self) -> bool {
        self.index == other.index
            && self.mute == other.mute
            && self.spec == other.spec
            && self.volume.as_slice() == other.volume.as_slice()
            && self.map.as_slice() == other.map.as_slice()
            && self.name.as_slice() == other.name.as_slice()
    }

    fn bytes(&self, alloc: Global) -> Mem<Packet> {
        match px_reply::sink_info(alloc, 0, PROTOCOL_VERSION, self) {
            Ok(bytes) => Ok(bytes),
            Err(_) => Err(NoMemory),
        }
    }
}

impl Object for InputInfo {
    ghost index_of = { DeclaredInput.index };

    ghost bytes_of = { input_bytes };

    ghost IsWritable = { IsWritableInput };

    fn index(&self) -> u32 {
        self.index
    }

    fn is_like(&self, other: &Self) -> bool {
        self.index == other.index
            && self.client == other.client
            && self.sink == other.sink
            && self.mute == other.mute
            && self.spec == other.spec
            && self.volume.as_slice() == other.volume.as_slice()
            && self.map.as_slice() == other.map.as_slice()
            && same_name(&self.name, &other.name)
            && same_list(&self.list, &other.list)
    }

    fn bytes(&self, alloc: Global) -> Mem<Packet> {
        match px_reply::input_info(alloc, 0, self) {
            Ok(bytes) => Ok(bytes),
            Err(_) => Err(NoMemory),
        }
    }
}

impl Object for ClientInfo {
    ghost index_of = { DeclaredClient.index };

    ghost bytes_of = { client_bytes };

    ghost IsWritable = { IsWritableClient };

    fn index(&self) -> u32 {
        self.index
    }

    fn is_like(&self, other: &Self) -> bool {
        self.index == other.index
            && same_name(&self.name, &other.name)
            && same_list(&self.list, &other.list)
    }

    fn bytes(&self, alloc: Global) -> Mem<Packet> {
        match px_reply::client_info(alloc, 0, self) {
            Ok(bytes) => Ok(bytes),
            Err(_) => Err(NoMemory),
        }
    }
}
