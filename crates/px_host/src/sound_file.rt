// The file that a sink's frames go to.
ghost use Rattle.std.specs.Prelude.{◌≡◌};

use crate::retried;
use px_ends::{Sink, Took};
use std::fs::File;
use std::io::Eprint;

/// The file of the sink `name`, at `path`. A write that fails is printed on standard error in a line with both and the system's cause: a paced device
/// over it fails then, and writes no more.
#[derive(Drop)]
pub struct SoundFile<S: Drop> {
    rt: S,
    file: File,
    name: String,
    path: String,
    faults: u64,
}

impl<S: Drop> SoundFile<S> {
    /// The sink's file, none of whose writes has failed. Takes no memory.
    pub fn new(rt: S, file: File, name: String, path: String) -> SoundFile<S>
        ensures { (result.name ≡ name) × (result.path ≡ path) × (result.faults ≡ 0) }
    {
        SoundFile {
            rt,
            file,
            name,
            path,
            faults: 0,
        }
    }
}

impl<S: Eprint + Drop> Sink for SoundFile<S> {
    ghost use Rattle.std.specs.Prelude.{None};

    ghost held = { λ _. None };

    ghost faults = { λ f. f.faults };

    fn write(&mut self, bytes: &[u8]) -> Took {
        match retried::write(&mut self.file, bytes) {
            Ok(count) => Took::Bytes(count),
            Err(error) => {
                self.faults = self.faults.saturating_add(1);
                let (name, path) = (&self.name, &self.path);
                let _lost = eprintln!(self.rt;
                    "pulse_rw: sink {name}: {path}: {error}: the sink has stopped"
                );
                Took::Failed
            }
        }
    }
}
