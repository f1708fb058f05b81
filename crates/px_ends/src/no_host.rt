// A host whose calls fail.
ghost use Rattle.std.specs.Prelude.{◌≡◌};
ghost use Rattle.px_types.specs.Faults.{Rose};

use crate::{
    Accepted, Connected, DeviceShape, HeaderRead, Host, HostFault, MemDevice, MemLink, NoOutlet,
    ServeOptions,
};
use px_annals::NoRecorder;
use px_types::SinkId;
use std::alloc::Global;

/// The host of runs that need none: each call that can fail does.
#[derive(Clone, Copy, Debug, PartialEq, Eq)]
pub struct NoHost {
    faults: u64,
    device_faults: u64,
    link_faults: u64,
    ends: u64,
    not_yets: u64,
}

impl NoHost {
    /// A host none of whose calls has failed yet.
    pub fn new() -> NoHost
        ensures { result ≡ record { faults = 0; device_faults = 0; link_faults = 0; ends = 0; not_yets = 0 } }
    {
        NoHost {
            faults: 0,
            device_faults: 0,
            link_faults: 0,
            ends: 0,
            not_yets: 0,
        }
    }

    // Counts one more fault.
    fn fail(&mut self)
        ensures rose { Rose self.old.faults self.new.faults }
        ensures same { self.new ≡ record self.old { faults = self.new.faults } }
    {
        self.faults = self.faults.saturating_add(1);
    }
}

impl Host for NoHost {
    ghost use Rattle.std.specs.Prelude.{None};

    type L = MemLink;

    type O = NoOutlet;

    type D = MemDevice;

    type R = NoRecorder;

    type C = NoRecorder;

    ghost now = { λ h. record {
      faults = h.faults;
      overs = 0;
      links = 0;
      device_faults = h.device_faults;
      recorder_faults = 0;
      fulls = 0;
      lent = None;
      header = None;
      started = None;
      parts = None;
      core_recorders = None;
    } };

    ghost dialled = { λ h. record {
      given = 0;
      link_faults = h.link_faults;
      ends = h.ends;
      not_yets = h.not_yets;
      hung = None;
    } };

    fn start(&mut self, _alloc: Global, _options: &ServeOptions) -> HeaderRead {
        self.fail();
        HeaderRead::Failed
    }

    fn accept(&mut self, _alloc: Global) -> Accepted<MemLink> {
        self.fail();
        Accepted::Failed
    }

    fn outlet(&mut self, _link: &mut MemLink) -> Option<NoOutlet> {
        None
    }

    fn device(
        &mut self,
        _alloc: Global,
        _name: &[u8],
        _shape: &DeviceShape,
    ) -> Result<MemDevice, HostFault> {
        self.fail();
        Err(HostFault::Failed)
    }

    fn lane_recorder(&mut self, _alloc: Global) -> Result<NoRecorder, HostFault> {
        self.fail();
        Err(HostFault::Failed)
    }

    fn core_recorder(&mut self, _alloc: Global) -> Result<NoRecorder, HostFault> {
        self.fail();
        Err(HostFault::Failed)
    }

    fn may_start(&mut self) -> bool {
        self.fail();
        false
    }

    fn retire(&mut self, _sink: SinkId, device: MemDevice, _recorder: NoRecorder) {
        if device.faults() > 0 {
            self.device_faults = self.device_faults.saturating_add(1);
        }
    }

    fn retire_core(&mut self, _recorder: NoRecorder) {}

    fn connect(&mut self, _alloc: Global, _path: &[u8]) -> Connected<MemLink> {
        self.fail();
        Connected::Failed
    }

    fn hang_up(&mut self, link: MemLink) {
        self.link_faults = self.link_faults.saturating_add(link.faults());
        self.ends = self.ends.saturating_add(link.ends());
        self.not_yets = self.not_yets.saturating_add(link.not_yets());
    }
}
