// The links that a host in memory dials.
ghost use Rattle.std.specs.Prelude.{◌≡◌, Some, [], false};
ghost use Rattle.px_ends.specs.Host.{Dials, HasDialled, HangsUp};
ghost use Rattle.px_mem_host.specs.HostLink.{counts_of};
ghost use Rattle.px_mem_host.specs.MemoryHost.{new_dial, GivesDialled};

use crate::{DialPlan, HostLink};
use px_ends::Connected;
use std::alloc::Global;
use std::collections::VecDeque;
use std::marker::Model;
use std::sync::Wait;

/// The links that are still to be dialled, and those that were given and taken back.
#[derive(Drop)]
pub(crate) struct Dialling<R: Wait> {
    dials: VecDeque<DialPlan>,
    given: usize,
    link_faults: u64,
    ends: u64,
    not_yets: u64,
    hung: Vec<HostLink<R>>,
}

impl<R: Wait> Model for Dialling<R> {
    ghost use Rattle.std.specs.Prelude.{◌≤◌, Some, length, vec_capacity};
    ghost use Rattle.px_mem_host.specs.MemoryHost.{Dialling};

    ghost Value = { Dialling R };

    ghost view = { λ d. record {
      dials = d.dials.items;
      state = record {
        given = d.given;
        link_faults = d.link_faults;
        ends = d.ends;
        not_yets = d.not_yets;
        hung = Some d.hung.items;
      };
    } };

    ghost invariant = { λ d. (length d.hung.items ≤ d.given) × (d.given ≤ vec_capacity d.hung) };
}

impl<R: Wait + Drop> Dialling<R> {
    /// No links to be dialled. Takes no memory.
    pub(crate) fn new(alloc: Global) -> Dialling<R>
        ensures { result ≡ record { dials = []; state = new_dial } }
    {
        Dialling {
            dials: VecDeque::from_vec(Vec::new(alloc)),
            given: 0,
            link_faults: 0,
            ends: 0,
            not_yets: 0,
            hung: Vec::new(alloc),
        }
    }

    /// Sets the links that are to be dialled, in order.
    pub(crate) fn set(&mut self, dials: Vec<DialPlan>)
        ensures { self.new ≡ record self.old { dials = dials.items } }
    {
        self.dials = VecDeque::from_vec(dials);
    }

    /// The links that were taken back, in order.
    pub(crate) fn hung(&self) -> &[HostLink<R>]
        ensures { self.now.state.hung ≡ Some result.now }
    {
        self.hung.as_slice()
    }

    /// Dials the first link that waits, and takes the room for taking it back. `Failed` where none waits.
    pub(crate) fn connect(&mut self, alloc: Global) -> Connected<HostLink<R>>
        ensures dialled { Dials counts_of result self.old.state self.new.state }
        ensures gives { GivesDialled result false self.old.dials self.new.dials }
    {
        let Some(plan) = self.dials.pop_front() else {
            return Connected::Failed;
        };
        let Some(given) = self.given.checked_add(1) else {
            return Connected::NoMemory;
        };
        if self.hung.reserve(given).is_err() {
            return Connected::NoMemory;
        }
        match plan.into_link(alloc) {
            Ok(link) => {
                self.given = given;
                Connected::Link(HostLink::Dialled(link))
            }
            Err(_) => Connected::NoMemory,
        }
    }

    /// Takes back a link.
    pub(crate) fn hang_up(&mut self, link: HostLink<R>)
        requires { HasDialled self.old.state }
        ensures dialled { HangsUp (counts_of link) link self.old.state self.new.state }
        ensures dials { self.new.dials ≡ self.old.dials }
    {
        self.link_faults = self.link_faults.saturating_add(link.faults());
        self.ends = self.ends.saturating_add(link.ends());
        self.not_yets = self.not_yets.saturating_add(link.not_yets());
        self.hung.push(link).unwrap();
    }
}
