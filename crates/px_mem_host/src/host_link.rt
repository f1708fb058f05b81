// A link of a host in memory.
ghost use Rattle.std.specs.Prelude.{◌≡◌};
ghost use Rattle.px_mem_host.specs.HostLink.{counts_of};

use crate::SharedLink;
use px_ends::{Link, MemLink, Recv, Sent};
use std::sync::Wait;

/// A link of a host in memory: a client's, or one that the host dialled, whose bytes are visible to contracts. Own.
#[derive(Drop)]
pub enum HostLink<R: Wait> {
    /// A client's.
    Client(SharedLink<R>),
    /// One that the host dialled.
    Dialled(MemLink),
}

impl<R: Wait> HostLink<R> {
    /// How often its calls failed.
    pub fn faults(&self) -> u64
        ensures { result ≡ (counts_of self.now).faults }
    {
        match self {
            HostLink::Client(link) => link.faults(),
            HostLink::Dialled(link) => link.faults(),
        }
    }

    /// How often its calls answered the end.
    pub fn ends(&self) -> u64
        ensures { result ≡ (counts_of self.now).ends }
    {
        match self {
            HostLink::Client(link) => link.ends(),
            HostLink::Dialled(link) => link.ends(),
        }
    }

    /// How often its calls found it not ready.
    pub fn not_yets(&self) -> u64
        ensures { result ≡ (counts_of self.now).not_yets }
    {
        match self {
            HostLink::Client(link) => link.not_yets(),
            HostLink::Dialled(link) => link.not_yets(),
        }
    }
}

impl<R: Wait> Link for HostLink<R> {
    ghost use Rattle.px_mem_host.specs.HostLink.{left_of, sent_by, counts_of};

    ghost left = { left_of };

    ghost sent = { sent_by };

    ghost counts = { counts_of };

    fn recv(&mut self, buffer: &mut [u8]) -> Recv {
        match self {
            HostLink::Client(link) => link.recv(buffer),
            HostLink::Dialled(link) => link.recv(buffer),
        }
    }

    fn send(&mut self, bytes: &[u8]) -> Sent {
        match self {
            HostLink::Client(link) => link.send(bytes),
            HostLink::Dialled(link) => link.send(bytes),
        }
    }
}
