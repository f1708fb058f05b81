// What a server runs on besides its input, output and log.
ghost use Rattle.std.specs.Prelude.{◌≡◌, IsTrue, IsFalse, IfOk};
ghost use Rattle.px_ends.specs.Device.{IsShape};
ghost use Rattle.px_ends.specs.Host.{HostState, FailsOnce, Starts, Accepts, Makes, IsNewDevice, IsNewRecorder, one_device, one_recorder, one_core, HasPart, HasCore, TakesPart, TakesCore, DialState, Connects, Dials, HasDialled, HangsUp};

use crate::{Device, DeviceShape, Link, Outlet};
use px_annals::{CoreEntry, LaneEntry, Recorder};
use px_types::{SinkId, Text};
use std::alloc::Global;
use thiserror::Error;

/// The options of a server: the paths of its header file, of its socket and of the folder for what its sinks play, how many links it takes,
/// 1 to 65,535, and whether its histories are held in memory.
#[derive(Debug, Drop)]
pub struct ServeOptions {
    pub header: Text,
    pub socket: Text,
    pub out: Text,
    pub accept: u16,
    pub memory: bool,
}

/// What a start answers.
#[derive(Debug, Drop)]
pub enum HeaderRead {
    /// The bytes of the header file.
    Bytes(Text),
    /// There was no memory for its bytes.
    NoMemory,
    /// The file can't be read, or listening for clients failed.
    Failed,
}

/// What an accept answers.
#[derive(Debug, Drop)]
pub enum Accepted<L> {
    /// A client.
    Link(L),
    /// No more clients come.
    Over,
    /// There was no memory for a link.
    NoMemory,
    /// The accept failed.
    Failed,
}

/// What a connect answers.
#[derive(Debug, Drop)]
pub enum Connected<L> {
    /// A link to the server.
    Link(L),
    /// There was no memory for a link.
    NoMemory,
    /// The connect failed: nobody listens there, for one.
    Failed,
}

/// Why a host couldn't make something.
#[derive(Clone, Copy, Debug, PartialEq, Eq, Error)]
pub enum HostFault {
    /// There was no memory.
    #[error("out of memory")]
    NoMemory,
    /// The call failed.
    #[error("host failed")]
    Failed,
}

/// What a server runs on: it reads the header, hands out the clients' links, makes a device and a recorder for each sink and a recorder for
/// the core, and takes these back in the end. It also dials servers, for a client of theirs. None of its counts falls. Own.
pub trait Host {
    type L: Link + Drop + Send;

    type O: Outlet + Drop + Send;

    type D: Device + Drop + Send;

    type R: Recorder<LaneEntry> + Drop + Send;

    type C: Recorder<CoreEntry> + Drop + Send;

    /// Its state, as far as visible.
    ghost now: { Self → HostState Self.D Self.R Self.C };

    /// The links that it dialled, as far as visible.
    ghost dialled: { Self → DialState Self.L };

    /// Reads the header file, and begins to listen for clients.
    fn start(&mut self, alloc: Global, options: &ServeOptions) -> HeaderRead
        ensures host { Starts result options.now (now self.old) (now self.new) }
        ensures dialled { dialled self.new ≡ dialled self.old };

    /// Waits for the next client, in memory that the host already has. Hands out at most 65,535 links.
    fn accept(&mut self, alloc: Global) -> Accepted<Self::L>
        ensures host { Accepts result (now self.old) (now self.new) }
        ensures dialled { dialled self.new ≡ dialled self.old };

    /// The sending half of a link, for other threads. `None` where it has none: then only the owner of the link sends. What is sent through
    /// that half isn't visible at the link.
    fn outlet(&mut self, link: &mut Self::L) -> Option<Self::O>
        ensures host { now self.new ≡ now self.old }
        ensures dialled { dialled self.new ≡ dialled self.old }
        ensures left { Self.L.left link.new ≡ Self.L.left link.old }
        ensures sent { Self.L.sent link.new ≡ Self.L.sent link.old }
        ensures counts { Self.L.counts link.new ≡ Self.L.counts link.old };

    /// Makes a device for the sink with this name, which has consumed and played nothing.
    fn device(
        &mut self,
        alloc: Global,
        name: &[u8],
        shape: &DeviceShape,
    ) -> Result<Self::D, HostFault>
        requires { IsShape shape.now }
        ensures device { IfOk result (λ device. IsNewDevice shape.now (Self.D.now device)) }
        ensures host { Makes one_device result (now self.old) (now self.new) }
        ensures dialled { dialled self.new ≡ dialled self.old };

    /// Makes an empty recorder for a sink.
    fn lane_recorder(&mut self, alloc: Global) -> Result<Self::R, HostFault>
        ensures recorder { IfOk result (λ recorder. IsNewRecorder (Self.R.visible recorder) (Self.R.faults recorder) (Self.R.fulls recorder)) }
        ensures host { Makes one_recorder result (now self.old) (now self.new) }
        ensures dialled { dialled self.new ≡ dialled self.old };

    /// Makes an empty recorder for the core.
    fn core_recorder(&mut self, alloc: Global) -> Result<Self::C, HostFault>
        ensures recorder { IfOk result (λ recorder. IsNewRecorder (Self.C.visible recorder) (Self.C.faults recorder) (Self.C.fulls recorder)) }
        ensures host { Makes one_core result (now self.old) (now self.new) }
        ensures dialled { dialled self.new ≡ dialled self.old };

    /// Whether one more thread may be started. `false` is a fault.
    fn may_start(&mut self) -> bool
        ensures yes { IsTrue result → now self.new ≡ now self.old }
        ensures no { IsFalse result → FailsOnce (now self.old) (now self.new) }
        ensures dialled { dialled self.new ≡ dialled self.old };

    /// Takes back the device and the recorder of a sink. Takes no memory: the room was taken when these were made.
    fn retire(&mut self, sink: SinkId, device: Self::D, recorder: Self::R)
        requires { HasPart (now self.old) }
        ensures host { TakesPart (Self.D.now device).faults (Self.R.faults recorder) (Self.R.fulls recorder) (record { sink = sink; device = device; recorder = recorder }) (now self.old) (now self.new) }
        ensures dialled { dialled self.new ≡ dialled self.old };

    /// Takes back the core's recorder. Takes no memory: the room for it was taken when it was made.
    fn retire_core(&mut self, recorder: Self::C)
        requires { HasCore (now self.old) }
        ensures host { TakesCore (Self.C.faults recorder) (Self.C.fulls recorder) recorder (now self.old) (now self.new) }
        ensures dialled { dialled self.new ≡ dialled self.old };

    /// Connects to the server that listens at the socket `path`. The link is taken back by `hang_up`, and the room for that is taken here.
    fn connect(&mut self, alloc: Global, path: &[u8]) -> Connected<Self::L>
        ensures host { Connects result (now self.old) (now self.new) }
        ensures dialled { Dials Self.L.counts result (dialled self.old) (dialled self.new) };

    /// Takes back a link that `connect` gave. Takes no memory.
    fn hang_up(&mut self, link: Self::L)
        requires { HasDialled (dialled self.old) }
        ensures host { now self.new ≡ now self.old }
        ensures dialled { HangsUp (Self.L.counts link) link (dialled self.old) (dialled self.new) };
}
