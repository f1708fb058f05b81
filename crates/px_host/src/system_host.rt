// The host over the system's files and sockets.
ghost use Rattle.std.specs.Prelude.{◌≡◌, IfOk, string_bytes};
ghost use Rattle.px_types.specs.Faults.{Rose};
ghost use Rattle.px_ends.specs.Host.{IsNewRecorder};
ghost use Rattle.px_host.specs.History.{visible_in, fulls_of};
ghost use Rattle.px_host.specs.SoundFile.{file_path};

use crate::dialling::dial;
use crate::faults::or_print;
use crate::listening::Listening;
use crate::{History, Outgoing, SoundFile, SystemClock, UnixLink};
use px_annals::{CoreEntry, Entry, LaneEntry, MemRecorder};
use px_ends::{Accepted, Connected, DeviceShape, HeaderRead, Host, HostFault, ServeOptions};
use px_paced::PacedSink;
use px_types::limits::{MAX_HISTORY_BYTES, MAX_HISTORY_ENTRIES};
use px_types::{Mem, SinkId, Text};
use std::alloc::{AllocError, Global};
use std::fs::File;
use std::io::{Eprint, ErrorKind};
use std::rt::{Clock, Files, Net};
use std::{fs, io};

/// A host that listens at a Unix socket, makes a device for each sink over a file, and stores histories in memory or not at all. It dials servers at
/// Unix sockets: a call of a link that it dialled waits 1 ms at most. It prints each fault of its own on standard error when it meets it, in a line with
/// the path and the system's cause. A link's faults aren't printed.
#[derive(Drop)]
pub struct SystemHost<S: Drop> {
    rt: S,
    listening: Option<Listening>,
    out: Text,
    accept: u16,
    memory: bool,
    links: u16,
    faults: u64,
    overs: u64,
    device_faults: u64,
    fulls: u64,
    dialled: u64,
    link_faults: u64,
    ends: u64,
    not_yets: u64,
}

// A fault of what the host was given.
fn invalid(why: &str) -> io::Error {
    io::Error::new(ErrorKind::InvalidInput, why)
}

// These bytes as text.
fn text(bytes: &[u8]) -> io::Result<&str>
    ensures { IfOk result (λ text. text.now ≡ bytes.now) }
{
    match str::from_utf8(bytes) {
        Ok(text) => Ok(text),
        Err(_) => Err(invalid("its name isn't text")),
    }
}

// The header's bytes, and the listener.
fn begin<R: Files + Net + Eprint + AllocGlobal>(
    rt: &R,
    alloc: Global,
    options: &ServeOptions,
) -> io::Result<(Text, Listening)> {
    let header = or_print(
        rt,
        "cannot read",
        "the header",
        text(options.header.as_slice()),
    )?;
    let bytes = or_print(rt, "cannot read", header, fs::read(rt, header))?;
    let socket = or_print(
        rt,
        "cannot listen at",
        "the socket",
        text(options.socket.as_slice()),
    )?;
    Ok((Text::from_vec(bytes), Listening::at(rt, alloc, socket)?))
}

// Connects to the server at the socket `path`.
fn dialled<R: Net + Eprint>(rt: &R, path: &[u8]) -> io::Result<UnixLink>
    ensures { IfOk result (λ link. (link.faults ≡ 0) × (link.ends ≡ 0) × (link.not_yets ≡ 0)) }
{
    let path = or_print(rt, "cannot connect to", "the socket", text(path))?;
    dial(rt, path)
}

// The path of the socket.
fn path(listening: &Option<Listening>) -> &str {
    match listening {
        Some(listening) => listening.path(),
        None => "no socket",
    }
}

// Accepts a client. A host that hasn't been started fails.
fn next_client<R: Eprint>(rt: &R, listening: &Option<Listening>) -> io::Result<UnixLink> {
    match listening {
        Some(listening) => listening.accept(rt),
        None => {
            let fault = invalid("the host hasn't been started");
            or_print(rt, "cannot accept a client at", path(listening), Err(fault))
        }
    }
}

// Creates the file at `path` that the frames of the sink `name` go to; a pipe there is written to. A name with a slash in it is a fault.
fn create<R: Files<File = File>>(rt: &R, name: &str, path: &str) -> io::Result<File> {
    if name.contains('/') {
        return Err(invalid("a sink's name has no slash"));
    }
    File::create(rt, path)
}

// The path of the file of the sink `name` in a folder.
fn file_path(alloc: Global, folder: &str, name: &str) -> Result<String, AllocError>
    ensures { IfOk result (λ path. string_bytes path ≡ file_path folder.now name.now) }
{
    format!(in alloc; "{folder}/{name}.raw")
}

// The file in the folder `out` that the frames of the sink `name` go to.
fn sound_file<R: Files<File = File> + Eprint + Copy + Drop>(
    rt: &R,
    alloc: Global,
    out: &Text,
    name: &[u8],
) -> io::Result<SoundFile<R>>
    ensures name { IfOk result (λ file. string_bytes file.name ≡ name.now) }
    ensures path { IfOk result (λ file. string_bytes file.path ≡ file_path out.now name.now) }
{
    let folder = or_print(rt, "cannot make", "a sink's file", text(out.as_slice()))?;
    let name = or_print(rt, "cannot make", "a sink's file", text(name))?;
    let path = file_path(alloc, folder, name)?;
    let file = or_print(
        rt,
        "cannot make",
        path.as_str(),
        create(rt, name, path.as_str()),
    )?;
    let name = String::from_str(alloc, name)?;
    Ok(SoundFile::new(*rt, file, name, path))
}

// A recorder with the limits of a history in memory, or none.
fn history<E: Entry + Drop>(alloc: Global, memory: bool) -> Mem<History<E>>
    ensures { IfOk result (λ history. IsNewRecorder (visible_in history) 0 (fulls_of history)) }
{
    if memory {
        Ok(History::InMemory(MemRecorder::new(alloc, MAX_HISTORY_ENTRIES, MAX_HISTORY_BYTES)?))
    } else {
        Ok(History::Discarded)
    }
}

impl<S: Drop> SystemHost<S> {
    /// A host that hasn't been started. Takes no memory.
    pub fn new(alloc: Global, rt: S) -> SystemHost<S>
        ensures counts { (result.links ≡ 0) × (result.faults ≡ 0) × (result.overs ≡ 0) × (result.device_faults ≡ 0) × (result.fulls ≡ 0) }
        ensures dialled { (result.dialled ≡ 0) × (result.link_faults ≡ 0) × (result.ends ≡ 0) × (result.not_yets ≡ 0) }
    {
        SystemHost {
            rt,
            listening: None,
            out: Text::from_vec(Vec::new(alloc)),
            accept: 0,
            memory: false,
            links: 0,
            faults: 0,
            overs: 0,
            device_faults: 0,
            fulls: 0,
            dialled: 0,
            link_faults: 0,
            ends: 0,
            not_yets: 0,
        }
    }

    // Counts one more fault.
    fn fail(&mut self)
        ensures rose { Rose self.old.faults self.new.faults }
        ensures same { self.new ≡ record self.old { faults = self.new.faults } }
    {
        self.faults = self.faults.saturating_add(1);
    }
}

impl<S: Files<File = File> + Net + Clock + Eprint + AllocGlobal + Copy + Drop + Send> Host
    for SystemHost<S> {
    ghost use Rattle.std.specs.Prelude.{None};

    type L = UnixLink;

    type O = Outgoing;

    type D = PacedSink<SoundFile<S>, SystemClock<S>>;

    type R = History<LaneEntry>;

    type C = History<CoreEntry>;

    ghost now = { λ h. record {
      faults = h.faults;
      overs = h.overs;
      links = h.links;
      device_faults = h.device_faults;
      recorder_faults = 0;
      fulls = h.fulls;
      lent = None;
      header = None;
      started = None;
      parts = None;
      core_recorders = None;
    } };

    ghost dialled = { λ h. record { given = h.dialled; link_faults = h.link_faults; ends = h.ends; not_yets = h.not_yets; hung = None } };

    fn start(&mut self, alloc: Global, options: &ServeOptions) -> HeaderRead {
        let Ok(out) = Text::copied(alloc, options.out.as_slice()) else {
            return HeaderRead::NoMemory;
        };
        match begin(&self.rt, alloc, options) {
            Ok((header, listening)) => {
                self.listening = Some(listening);
                self.out = out;
                self.accept = options.accept;
                self.memory = options.memory;
                HeaderRead::Bytes(header)
            }
            Err(error) => {
                if error.kind() == ErrorKind::OutOfMemory {
                    return HeaderRead::NoMemory;
                }
                self.fail();
                HeaderRead::Failed
            }
        }
    }

    fn accept(&mut self, _alloc: Global) -> Accepted<UnixLink> {
        if self.links >= self.accept {
            self.overs = self.overs.saturating_add(1);
            return Accepted::Over;
        }
        match next_client(&self.rt, &self.listening) {
            Ok(link) => {
                self.links += 1;
                Accepted::Link(link)
            }
            Err(error) => {
                if error.kind() == ErrorKind::OutOfMemory {
                    return Accepted::NoMemory;
                }
                self.fail();
                Accepted::Failed
            }
        }
    }

    fn outlet(&mut self, link: &mut UnixLink) -> Option<Outgoing> {
        let (what, path) = (
            "cannot send from other threads to a client at",
            path(&self.listening),
        );
        or_print(&self.rt, what, path, link.share()).ok()
    }

    fn device(
        &mut self,
        alloc: Global,
        name: &[u8],
        shape: &DeviceShape,
    ) -> Result<PacedSink<SoundFile<S>, SystemClock<S>>, HostFault> {
        match sound_file(&self.rt, alloc, &self.out, name) {
            Ok(file) => {
                let clock = SystemClock::new(self.rt);
                match PacedSink::new(alloc, shape, file, clock) {
                    Ok(device) => Ok(device),
                    Err(_) => Err(HostFault::NoMemory),
                }
            }
            Err(error) => {
                if error.kind() == ErrorKind::OutOfMemory {
                    return Err(HostFault::NoMemory);
                }
                self.fail();
                Err(HostFault::Failed)
            }
        }
    }

    fn lane_recorder(&mut self, alloc: Global) -> Result<History<LaneEntry>, HostFault> {
        match history(alloc, self.memory) {
            Ok(recorder) => Ok(recorder),
            Err(_) => Err(HostFault::NoMemory),
        }
    }

    fn core_recorder(&mut self, alloc: Global) -> Result<History<CoreEntry>, HostFault> {
        match history(alloc, self.memory) {
            Ok(recorder) => Ok(recorder),
            Err(_) => Err(HostFault::NoMemory),
        }
    }

    fn may_start(&mut self) -> bool {
        true
    }

    fn retire(
        &mut self,
        _sink: SinkId,
        device: PacedSink<SoundFile<S>, SystemClock<S>>,
        recorder: History<LaneEntry>,
    ) {
        if device.faults() > 0 {
            self.device_faults = self.device_faults.saturating_add(1);
        }
        if recorder.fulls() > 0 {
            self.fulls = self.fulls.saturating_add(1);
        }
    }

    fn retire_core(&mut self, recorder: History<CoreEntry>) {
        if recorder.fulls() > 0 {
            self.fulls = self.fulls.saturating_add(1);
        }
    }

    fn connect(&mut self, _alloc: Global, path: &[u8]) -> Connected<UnixLink> {
        let Some(given) = self.dialled.checked_add(1) else {
            return Connected::NoMemory;
        };
        match dialled(&self.rt, path) {
            Ok(link) => {
                self.dialled = given;
                Connected::Link(link)
            }
            Err(error) => {
                if error.kind() == ErrorKind::OutOfMemory {
                    return Connected::NoMemory;
                }
                self.fail();
                Connected::Failed
            }
        }
    }

    fn hang_up(&mut self, mut link: UnixLink) {
        if let Some(error) = link.take_fault() {
            let _lost = eprintln!(self.rt;
                "pulse_rw: the connection to the server failed: {error}"
            );
        }
        self.link_faults = self.link_faults.saturating_add(link.faults());
        self.ends = self.ends.saturating_add(link.ends());
        self.not_yets = self.not_yets.saturating_add(link.not_yets());
    }
}
