// The host in memory.
ghost use Rattle.std.specs.Prelude.{◌≡◌, ◌≤◌, Some, [], ◌∷◌, ◌++◌, length, not, IfOk, OnOk, OnErr, IsFalse, IsTrue};
ghost use Rattle.px_types.specs.Faults.{Rose};
ghost use Rattle.px_ends.specs.Host.{Starts, Accepts, Makes, IsNewDevice, IsNewRecorder, one_device, one_recorder, one_core, FailsOnce, HasPart, HasCore, TakesPart, TakesCore, Connects, Dials, HasDialled, HangsUp};
ghost use Rattle.px_ends.specs.Device.{IsShape};
ghost use Rattle.px_ends.specs.MemoryDevice.{new_memory_device, state_of};
ghost use Rattle.px_mem_host.specs.HostLink.{counts_of};
ghost use Rattle.px_mem_host.specs.MemoryHost.{new_state, new_dial, is_failing, called, dialled_by, StartFails, HandsOut, GivesDialled, FailsAs, MakesAs};

use crate::dialling::Dialling;
use crate::making::{add_copy, running};
use crate::{DialPlan, HostLink, LinkPlan, LinkPlans, Retired, SharedLink, Taken};
use px_annals::{CoreEntry, LaneEntry, MemRecorder};
use px_ends::{
    Accepted, Calls, Connected, DeviceShape, HeaderRead, Host, HostFault, MemDevice, NoOutlet,
    ServeOptions,
};
use px_types::{Mem, NoMemory, SinkId, Text};
use std::alloc::Global;
use std::collections::VecDeque;
use std::marker::Model;
use std::sync::Wait;

/// A host that has its header and its links, also those that it dials, and stores what it takes back. It makes devices that consume by themselves, and
/// histories in memory. Its listed calls fail. Own.
#[derive(Drop)]
pub struct MemHost<R: Wait> {
    rt: R,
    header: Text,
    links: VecDeque<LinkPlan>,
    each: u32,
    total: u32,
    entries: usize,
    bytes: usize,
    failing: Calls,
    calls: u64,
    faults: u64,
    overs: u64,
    given: u16,
    device_faults: u64,
    fulls: u64,
    devices: usize,
    recorders: usize,
    cores: usize,
    started: Vec<ServeOptions>,
    parts: Vec<Retired>,
    core_recorders: Vec<MemRecorder<CoreEntry>>,
    dialling: Dialling<R>,
}

impl<R: Wait> Model for MemHost<R> {
    ghost use Rattle.std.specs.Prelude.{◌+◌, ◌≤◌, Some, length, vec_capacity};
    ghost use Rattle.px_mem_host.specs.MemoryHost.{MemoryHost};

    ghost Value = { MemoryHost R };

    ghost view = { λ h. record {
      links = h.links.items;
      dials = h.dialling.dials;
      each = h.each;
      total = h.total;
      limit = record { entries = h.entries; bytes = h.bytes };
      failing = h.failing;
      calls = h.calls;
      visible = record {
        faults = h.faults;
        overs = h.overs;
        links = h.given;
        device_faults = h.device_faults;
        recorder_faults = 0;
        fulls = h.fulls;
        lent = Some (record { devices = h.devices; recorders = h.recorders; cores = h.cores });
        header = Some h.header;
        started = Some h.started.items;
        parts = Some h.parts.items;
        core_recorders = Some h.core_recorders.items;
      };
      dialled = h.dialling.state;
    } };

    ghost invariant = { λ h. (h.given + length h.links.items ≤ 65535)
        × (length h.parts.items + h.devices ≤ vec_capacity h.parts)
        × (length h.core_recorders.items + h.cores ≤ vec_capacity h.core_recorders) };
}

impl<R: Wait + Drop> MemHost<R> {
    /// A host with the bytes of a header and with the links that it hands out, at most 65,535. Each device that it makes consumes `each` frames at a
    /// sync, or what is buffered if that is less, until it consumed `total` frames. Each recorder that it makes holds at most `entries` entries and
    /// `bytes` bytes. Its calls of the numbers in `failing` fail. Takes the room for all that its links are sent.
    pub fn new(
        rt: R,
        alloc: Global,
        header: Text,
        links: LinkPlans,
        each: u32,
        total: u32,
        entries: usize,
        bytes: usize,
        failing: Calls,
    ) -> Mem<MemHost<R>>
        requires { length links ≤ 65535 }
        ensures { IfOk result (λ h. h ≡ record {
          links = links;
          dials = [];
          each = each;
          total = total;
          limit = record { entries = entries; bytes = bytes };
          failing = failing;
          calls = 0;
          visible = new_state header;
          dialled = new_dial;
        }) }
    {
        links.clear(&rt, alloc)?;
        Ok(MemHost {
            rt,
            header,
            links: VecDeque::from_vec(links.into_vec()),
            each,
            total,
            entries,
            bytes,
            failing,
            calls: 0,
            faults: 0,
            overs: 0,
            given: 0,
            device_faults: 0,
            fulls: 0,
            devices: 0,
            recorders: 0,
            cores: 0,
            started: Vec::new(alloc),
            parts: Vec::new(alloc),
            core_recorders: Vec::new(alloc),
            dialling: Dialling::new(alloc),
        })
    }

    /// Sets the links that it dials from now on, in order. A connect after the last of them fails. Takes no memory.
    pub fn set_dials(&mut self, dials: Vec<DialPlan>)
        ensures { self.new ≡ record self.old { dials = dials.items } }
    {
        self.dialling.set(dials);
    }

    /// The links that it took back, in order.
    pub fn hung(&self) -> &[HostLink<R>]
        ensures { self.now.dialled.hung ≡ Some result.now }
    {
        self.dialling.hung()
    }

    /// What it was given and took back.
    pub fn into_taken(self) -> Taken
        ensures started { self.visible.started ≡ Some result.started.items }
        ensures parts { self.visible.parts ≡ Some result.parts.items }
        ensures core_recorders { self.visible.core_recorders ≡ Some result.core_recorders.items }
    {
        Taken {
            started: self.started,
            parts: self.parts,
            core_recorders: self.core_recorders,
        }
    }

    // Counts one more fault.
    fn fail(&mut self)
        ensures fails { FailsOnce self.old.visible self.new.visible }
        ensures same { self.new ≡ record self.old { visible = self.new.visible } }
    {
        self.faults = self.faults.saturating_add(1);
    }

    // Counts one more call, and returns whether it fails, which is a fault.
    fn fails(&mut self) -> bool
        ensures listed { result ≡ is_failing self.old }
        ensures yes { IsTrue result → FailsOnce self.old.visible self.new.visible }
        ensures no { IsFalse result → self.new.visible ≡ self.old.visible }
        ensures after { self.new ≡ called self.old.links self.new.visible self.old }
    {
        self.calls = self.calls.saturating_add(1);
        if self.failing.has(self.calls) {
            self.fail();
            return true;
        }
        false
    }
}

impl<R: Wait + Copy + Drop + Send> Host for MemHost<R> {
    type L = HostLink<R>;

    type O = NoOutlet;

    type D = MemDevice;

    type R = MemRecorder<LaneEntry>;

    type C = MemRecorder<CoreEntry>;

    ghost now = { λ h. h.visible };

    ghost dialled = { λ h. h.dialled };

    fn start(&mut self, alloc: Global, options: &ServeOptions) -> HeaderRead
        ensures host { Starts result options.now self.old.visible self.new.visible }
        ensures fails { StartFails result (is_failing self.old) }
        ensures after { self.new ≡ called self.old.links self.new.visible self.old }
    {
        if self.fails() {
            return HeaderRead::Failed;
        }
        let Ok(header) = Text::copied(alloc, self.header.as_slice()) else {
            return HeaderRead::NoMemory;
        };
        match add_copy(alloc, options, &mut self.started) {
            Ok(()) => HeaderRead::Bytes(header),
            Err(_) => {
                drop(header);
                HeaderRead::NoMemory
            }
        }
    }

    fn accept(&mut self, _alloc: Global) -> Accepted<HostLink<R>>
        ensures host { Accepts result self.old.visible self.new.visible }
        ensures gives { HandsOut result (is_failing self.old) self.old.links self.new.links }
        ensures after { self.new ≡ called self.new.links self.new.visible self.old }
    {
        if self.fails() {
            return Accepted::Failed;
        }
        match self.links.pop_front() {
            Some(plan) => {
                self.given += 1;
                Accepted::Link(HostLink::Client(SharedLink::new(self.rt, plan)))
            }
            None => {
                self.overs = self.overs.saturating_add(1);
                Accepted::Over
            }
        }
    }

    // No sending half: what a client was sent all went through its link.
    fn outlet(&mut self, _link: &mut HostLink<R>) -> Option<NoOutlet> {
        None
    }

    fn device(
        &mut self,
        alloc: Global,
        _name: &[u8],
        shape: &DeviceShape,
    ) -> Result<MemDevice, HostFault>
        requires { IsShape shape.now }
        ensures device { IfOk result (λ device. IsNewDevice shape.now (state_of device)) }
        ensures host { Makes one_device result self.old.visible self.new.visible }
        ensures made { MakesAs result (record (new_memory_device shape.now) { each = self.old.each; left = self.old.total }) (is_failing self.old) }
        ensures after { self.new ≡ called self.old.links self.new.visible self.old }
    {
        if self.fails() {
            return Err(HostFault::Failed);
        }
        let Some(devices) = self.devices.checked_add(1) else {
            return Err(HostFault::NoMemory);
        };
        if self.parts.reserve(devices).is_err() {
            return Err(HostFault::NoMemory);
        }
        match running(alloc, shape, self.each, self.total) {
            Ok(device) => {
                self.devices = devices;
                Ok(device)
            }
            Err(_) => Err(HostFault::NoMemory),
        }
    }

    fn lane_recorder(&mut self, alloc: Global) -> Result<MemRecorder<LaneEntry>, HostFault>
        ensures recorder { IfOk result (λ recorder. IsNewRecorder (Some recorder.held) 0 recorder.fulls) }
        ensures host { Makes one_recorder result self.old.visible self.new.visible }
        ensures fails { FailsAs result (is_failing self.old) }
        ensures limit { IfOk result (λ recorder. recorder.limit ≡ self.old.limit) }
        ensures after { self.new ≡ called self.old.links self.new.visible self.old }
    {
        if self.fails() {
            return Err(HostFault::Failed);
        }
        let Some(recorders) = self.recorders.checked_add(1) else {
            return Err(HostFault::NoMemory);
        };
        match MemRecorder::new(alloc, self.entries, self.bytes) {
            Ok(recorder) => {
                self.recorders = recorders;
                Ok(recorder)
            }
            Err(_) => Err(HostFault::NoMemory),
        }
    }

    fn core_recorder(&mut self, alloc: Global) -> Result<MemRecorder<CoreEntry>, HostFault>
        ensures recorder { IfOk result (λ recorder. IsNewRecorder (Some recorder.held) 0 recorder.fulls) }
        ensures host { Makes one_core result self.old.visible self.new.visible }
        ensures fails { FailsAs result (is_failing self.old) }
        ensures limit { IfOk result (λ recorder. recorder.limit ≡ self.old.limit) }
        ensures after { self.new ≡ called self.old.links self.new.visible self.old }
    {
        if self.fails() {
            return Err(HostFault::Failed);
        }
        let Some(cores) = self.cores.checked_add(1) else {
            return Err(HostFault::NoMemory);
        };
        if self.core_recorders.reserve(cores).is_err() {
            return Err(HostFault::NoMemory);
        }
        match MemRecorder::new(alloc, self.entries, self.bytes) {
            Ok(recorder) => {
                self.cores = cores;
                Ok(recorder)
            }
            Err(_) => Err(HostFault::NoMemory),
        }
    }

    fn may_start(&mut self) -> bool
        ensures yes { IsTrue result → self.new.visible ≡ self.old.visible }
        ensures no { IsFalse result → FailsOnce self.old.visible self.new.visible }
        ensures fails { result ≡ not (is_failing self.old) }
        ensures after { self.new ≡ called self.old.links self.new.visible self.old }
    {
        !self.fails()
    }

    fn retire(&mut self, sink: SinkId, device: MemDevice, recorder: MemRecorder<LaneEntry>)
        requires { HasPart self.old.visible }
        ensures host { TakesPart device.faults 0 recorder.fulls (record { sink = sink; device = device; recorder = recorder }) self.old.visible self.new.visible }
        ensures after { self.new ≡ record self.old { visible = self.new.visible } }
    {
        if device.faults() > 0 {
            self.device_faults = self.device_faults.saturating_add(1);
        }
        if recorder.fulls() > 0 {
            self.fulls = self.fulls.saturating_add(1);
        }
        self.devices -= 1;
        self.recorders -= 1;
        self.parts
            .push(Retired {
                sink,
                device,
                recorder,
            })
            .unwrap();
    }

    fn retire_core(&mut self, recorder: MemRecorder<CoreEntry>)
        requires { HasCore self.old.visible }
        ensures host { TakesCore 0 recorder.fulls recorder self.old.visible self.new.visible }
        ensures after { self.new ≡ record self.old { visible = self.new.visible } }
    {
        if recorder.fulls() > 0 {
            self.fulls = self.fulls.saturating_add(1);
        }
        self.cores -= 1;
        self.core_recorders.push(recorder).unwrap();
    }

    fn connect(&mut self, alloc: Global, _path: &[u8]) -> Connected<HostLink<R>>
        ensures host { Connects result self.old.visible self.new.visible }
        ensures dialled { Dials counts_of result self.old.dialled self.new.dialled }
        ensures gives { GivesDialled result (is_failing self.old) self.old.dials self.new.dials }
        ensures after { self.new ≡ dialled_by self.new.dials self.new.dialled (called self.old.links self.new.visible self.old) }
    {
        if self.fails() {
            return Connected::Failed;
        }
        let answer = self.dialling.connect(alloc);
        if matches!(answer, Connected::Failed) {
            self.fail();
        }
        answer
    }

    fn hang_up(&mut self, link: HostLink<R>)
        requires { HasDialled self.old.dialled }
        ensures host { self.new.visible ≡ self.old.visible }
        ensures dialled { HangsUp (counts_of link) link self.old.dialled self.new.dialled }
        ensures after { self.new ≡ record self.old { dialled = self.new.dialled } }
    {
        self.dialling.hang_up(link);
    }
}
