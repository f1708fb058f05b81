// The sink inputs of a reply.

ghost use Rattle.std.specs.Prelude.{◌≡◌, [], ◌∷◌, ◌++◌, OnOk, OnErr};

use px_tag::{Mem, NoMemory, RawVolume};
use std::alloc::Global;
use std::marker::Model;

/// What the client shows of a sink input: its index, its sink's index, its volume, one number a channel, linear in 16.16, and its mute.
#[derive(Drop)]
pub(crate) struct Input {
    pub(crate) index: u32,
    pub(crate) sink: u32,
    pub(crate) volume: RawVolume,
    pub(crate) mute: bool,
}

/// Sink inputs, in the order of the reply. Contracts see the list.
#[derive(Drop)]
pub(crate) struct Inputs {
    inputs: Vec<Input>,
}

impl Model for Inputs {
    ghost use Rattle.std.specs.Prelude.{List};
    ghost use Rattle.px_client.specs.declared.inputs.Input.{Input};

    ghost Value = { List Input };

    ghost view = { λ inputs. inputs.inputs.items };
}

impl Inputs {
    /// No inputs. Takes no memory.
    pub(crate) fn new(alloc: Global) -> Inputs
        ensures { result ≡ [] }
    {
        Inputs {
            inputs: Vec::new(alloc),
        }
    }

    /// Appends an input. After an `Err` that input alone is dropped.
    pub(crate) fn push(&mut self, input: Input) -> Mem<()>
        ensures ok { OnOk result (self.new ≡ self.old ++ input ∷ []) }
        ensures err { OnErr result (self.new ≡ self.old) }
    {
        self.inputs.push(input)?;
        Ok(())
    }

    /// The inputs, in order. Takes no memory.
    pub(crate) fn as_slice(&self) -> &[Input]
        ensures { result.now ≡ self.now }
    {
        self.inputs.as_slice()
    }
}
