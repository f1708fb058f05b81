//! The reader of sessions.

ghost use Rattle.std.specs.Prelude.{◌≡◌, ◌<◌, ◌≤◌, ◌^◌, [], None, IfOk, OnOk};
ghost use Rattle.px_session.specs.Reader.{all_ahead, Takes, Gives};
ghost use Rattle.px_session.specs.EventRules.{IsStepBy};
ghost use Rattle.px_session.specs.Writing.{FitsStepBy};
ghost use Rattle.px_session.specs.Held.{ReadCounts};

use crate::event::Step;
use crate::fault::ReadError;
use crate::form::Form;
use crate::held::Held;
use crate::supply::Supply;
use crate::waiting::await_step;
use px_ends::Source;
use px_types::{Mem, Text};
use std::alloc::Global;
use std::marker::Model;

/// Reads a session from a source, in whatever pieces that gives: the header, each event, and the end. Contracts see how many
/// bytes of the session were read, the bytes that were taken from the source beyond these, and the form once the header was read.
/// Its buffer has 64 KiB, and grows where an event is longer. Own: PulseAudio records no sessions.
#[derive(Debug, Drop)]
pub struct Reader {
    supply: Supply,
    held: Held,
    at: u64,
    begun: Option<Form>,
}

impl Model for Reader {
    ghost use Rattle.std.specs.Prelude.{◌≤◌, ◌^◌};
    ghost use Rattle.px_session.specs.Reader.{Reader};

    ghost Value = { Reader };

    ghost view = { λ r. record { at = r.at; ahead = r.held; begun = r.begun } };

    ghost invariant = { λ r. r.at ≤ 2 ^ 40 };
}

impl Reader {
    /// A reader before a session's first byte. It takes the memory of its buffer here.
    pub fn new(alloc: Global) -> Mem<Reader>
        ensures { IfOk result (λ reader. reader ≡ record { at = 0; ahead = []; begun = None }) }
    {
        Ok(Reader {
            supply: Supply::new(alloc),
            held: Held::new(alloc)?,
            at: 0,
            begun: None,
        })
    }

    /// How many bytes of the session were read. Takes no memory.
    pub fn at(&self) -> u64
        ensures { result ≡ self.now.at }
    {
        self.at
    }

    /// The form of the session, once the header was read. Takes no memory.
    pub fn form(&self) -> Option<Form>
        ensures { result ≡ self.now.begun }
    {
        self.begun
    }

    /// Takes back the text of an event that is no longer needed, so that the next event's bytes may use its memory. Only the last text
    /// given back is held. Takes no memory.
    pub fn reuse(&mut self, text: Text)
        ensures { self.new ≡ self.old }
    {
        self.supply.reclaim(text);
    }

    // What comes next in the bytes that it took from the source.
    fn advance<S: Source>(&mut self, input: &mut S) -> Result<Step, ReadError>
        ensures takes { Takes result self.old self.new (S.left input.old) (S.left input.new) }
        ensures lawful { IfOk result (IsStepBy self.new.begun) }
        ensures forward { OnOk result ((self.old.at < self.new.at) × (self.new.at ≤ 2 ^ 40)) }
        ensures counts { ReadCounts result (S.faults input.old) (S.faults input.new) }
    {
        let found = await_step(&mut self.supply, self.begun, self.at, &mut self.held, input)?;
        self.held.use_front(found.used);
        self.at = found.at;
        self.begun = Some(found.form);
        Ok(found.step)
    }

    /// What comes next: first the header, then events, then the end. `Refused` gives the first rule that the bytes break, and the offset.
    /// `Failed` comes only where a read of the source failed. After `End` or an `Err` it isn't called again. It takes the memory of what it
    /// gives, where no text that came back has room for it, and makes its buffer as long as the longest event so far needs.
    pub fn next<S: Source>(&mut self, input: &mut S) -> Result<Step, ReadError>
        // Where the source's bytes are visible, the answer is what comes next in all bytes ahead, whatever the pieces.
        ensures gives { Gives result self.old self.new (all_ahead self.old (S.left input.old)) (all_ahead self.new (S.left input.new)) }
        // Visible or not, the bytes that it took from the source spell it.
        ensures takes { Takes result self.old self.new (S.left input.old) (S.left input.new) }
        // Visible or not, a header and an event follow the rules of the form.
        ensures lawful { IfOk result (IsStepBy self.new.begun) }
        // What it gives can be written in the form that it was read in.
        ensures writable { IfOk result (FitsStepBy self.new.begun) }
        // Each step has at least one byte, and a session at most 2^40.
        ensures forward { OnOk result ((self.old.at < self.new.at) × (self.new.at ≤ 2 ^ 40)) }
        // The source's count of faults rises exactly where the answer is `Failed`.
        ensures counts { ReadCounts result (S.faults input.old) (S.faults input.new) }
    {
        self.advance(input)
    }
}
