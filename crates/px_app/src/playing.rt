//! Playing an input by a mode: the reader of the session, and the mode's stage.

ghost use Rattle.std.specs.Prelude.{◌≡◌, ◌<◌, ◌≤◌, ◌^◌, ◌+◌, ◌-◌, ℕ, List, [], ◌∷◌, ◌++◌, Option, Some, IsSome, OnOk, IfErr};
ghost use Rattle.px_ends.specs.Visible.{after_adding};
ghost use Rattle.px_header.specs.declared.header.Header.{Header as Head};
ghost use Rattle.px_session.specs.declared.event.Event.{Event as Happening};
ghost use Rattle.px_session.specs.declared.form.Form.TheVariants as forms;
ghost use Rattle.px_session.specs.Writing.{FitsEvent};
ghost use Rattle.px_app.specs.Ends.{Ends, ends_of, Grew};
ghost use Rattle.px_app.specs.Mode.{state_after};
ghost use Rattle.px_app.specs.Played.{InputPlayed, InputCounted};
ghost use Rattle.px_app.specs.Step.{barred, Closes, IsClosing, EndReads, StepReads, EventStepped, IsEventEnd, ending_with, IsOpened, Reached, Stepped};

use crate::ending::Ending;
use crate::reading::{next_event, unread};
use crate::refusal::{Refusal, Why, number_of};
use crate::stage::Stage;
use px_ends::{Pieces, Sink, Source};
use px_session::{Event, Reader};
use px_world::WorldFault;
use std::alloc::Global;

/// The state of playing an input.
#[derive(Drop)]
pub(crate) struct Playing<T> {
    reader: Reader,
    stage: T,
    // Output that isn't written yet.
    pieces: Pieces,
}

// How a fault at an event ends the run: its kind byte is at offset `at`, and `number` is that of its connection or sink.
fn barred(at: u64, number: u32, fault: WorldFault) -> Ending
    ensures { result ≡ barred at number fault }
{
    match fault {
        WorldFault::NoMemory => Ending::Memory,
        _ => Ending::Refused(Refusal {
            at,
            why: Why::World { fault, number },
        }),
    }
}

// How a run ends once its last piece was written, or wasn't. The first cause that was met decides.
fn ending_with(ended: Ending, is_written: bool) -> Ending
    ensures { result ≡ ending_with ended is_written }
{
    match ended {
        Ending::ReadFault => ended,
        _ if is_written => ended,
        _ => Ending::WriteFault,
    }
}

impl<T: Stage> Playing<T> {
    // Plays an event whose kind byte is at offset `at`, gathers what is shown of it, and gives its text back to the reader.
    fn play_event(&mut self, alloc: Global, at: u64, e: Event) -> Result<(), Ending>
        requires fits { FitsEvent forms.Two e }
        requires counts { T.counts self.old.stage (2 ^ 40 - 1) }
        ensures played { (look : T.Look) (header : Head) (events : List Happening) (held : Option (List ℕ)) → T.stands self.old.stage look header events
            → EventStepped T.mode result at look (state_after T.mode.course header events) e
            (after_adding held self.old.pieces.bytes) (after_adding held self.new.pieces.bytes) }
        ensures stands { (look : T.Look) (header : Head) (events : List Happening) → T.stands self.old.stage look header events
            → OnOk result (T.stands self.new.stage look header (events ++ e ∷ [])) }
        ensures counts { (n : ℕ) → T.counts self.old.stage n → OnOk result (T.counts self.new.stage (n + 1)) }
        ensures reader { self.new.reader ≡ self.old.reader }
        ensures ends { IfErr result IsEventEnd }
    {
        let number = number_of(&e);
        match self.stage.event(alloc, e, &mut self.pieces) {
            Ok(None) => Ok(()),
            Ok(Some(text)) => {
                self.reader.reuse(text);
                Ok(())
            }
            Err(fault) => Err(barred(at, number, fault)),
        }
    }

    // Gathers what is shown after the last event.
    fn close(&mut self, alloc: Global) -> Ending
        ensures closes { (look : T.Look) (header : Head) (events : List Happening) (held : Option (List ℕ)) → T.stands self.old.stage look header events
            → Closes result (T.mode.closes look header events) (after_adding held self.old.pieces.bytes) (after_adding held self.new.pieces.bytes) }
        ensures ends { IsClosing result }
    {
        match self.stage.close(alloc, &mut self.pieces) {
            Ok(()) => Ending::Done,
            Err(_) => Ending::Memory,
        }
    }

    // Reads and plays the next event, or ends after the last one.
    fn step<S: Source>(&mut self, alloc: Global, input: &mut S) -> Result<(), Ending>
        requires begun { IsSome self.old.reader.begun }
        requires counts { T.counts self.old.stage self.old.reader.at }
        ensures stepped { (asked : T.Asked) (first : Ends) (held : Option (List ℕ)) (written : ℕ)
            → Reached T.mode T.stands asked self.old first (ends_of (S.left input.old) (S.faults input.old) (after_adding held self.old.pieces.bytes) written)
            → Stepped T.mode T.stands asked result self.new first (ends_of (S.left input.new) (S.faults input.new) (after_adding held self.new.pieces.bytes) written) }
        ensures forward { OnOk result ((self.old.reader.at < self.new.reader.at) × (self.new.reader.at ≤ 2 ^ 40)) }
        ensures begun { OnOk result (IsSome self.new.reader.begun) }
        ensures counts { OnOk result (T.counts self.new.stage self.new.reader.at) }
        ensures reads { StepReads result (S.faults input.old) (S.faults input.new) }
    {
        let at = self.reader.at();
        match next_event(&mut self.reader, input) {
            Ok(Some(e)) => self.play_event(alloc, at, e),
            Ok(None) => Err(self.close(alloc)),
            Err(e) => Err(unread(e)),
        }
    }

    // Writes the output that waits, and returns how the run ends.
    fn finish<K: Sink>(&mut self, ended: Ending, output: &mut K) -> Ending
        ensures played { (asked : T.Asked) (first : Ends) (left : Option (List ℕ)) (read written : ℕ)
            → InputPlayed T.mode asked ended first (ends_of left read (after_adding (K.held output.old) self.old.pieces.bytes) written)
            → Grew first.held (K.held output.old)
            → InputPlayed T.mode asked result first (ends_of left read (K.held output.new) written) }
        ensures counted { (left now_left : Option (List ℕ)) (read now_read : ℕ) → EndReads ended read now_read
            → InputCounted result (ends_of left read (K.held output.old) (K.faults output.old)) (ends_of now_left now_read (K.held output.new) (K.faults output.new)) }
    {
        let is_written = self.pieces.flush(output).is_ok();
        ending_with(ended, is_written)
    }

    // Reads and plays to the end, and writes what is shown in pieces.
    fn run<S: Source, K: Sink>(&mut self, alloc: Global, input: &mut S, output: &mut K) -> Ending
        requires begun { IsSome self.old.reader.begun }
        requires counts { T.counts self.old.stage self.old.reader.at }
        ensures played { (asked : T.Asked) (first : Ends) (written : ℕ)
            → Reached T.mode T.stands asked self.old first (ends_of (S.left input.old) (S.faults input.old) (after_adding (K.held output.old) self.old.pieces.bytes) written)
            → Grew first.held (K.held output.old)
            → InputPlayed T.mode asked result first (ends_of (S.left input.new) (S.faults input.new) (K.held output.new) written) }
        ensures counted { InputCounted result
            (ends_of (S.left input.old) (S.faults input.old) (K.held output.old) (K.faults output.old))
            (ends_of (S.left input.new) (S.faults input.new) (K.held output.new) (K.faults output.new)) }
    {
        loop {
            if let Err(ended) = self.step(alloc, input) {
                return self.finish(ended, output);
            }
            if self.pieces.is_piece() && self.pieces.flush(output).is_err() {
                return Ending::WriteFault;
            }
        }
    }

    // Gathers what is shown of the header, and plays the rest.
    fn begin<S: Source, K: Sink>(&mut self, alloc: Global, input: &mut S, output: &mut K) -> Ending
        requires begun { IsSome self.old.reader.begun }
        requires counts { T.counts self.old.stage self.old.reader.at }
        requires empty { self.old.pieces.bytes ≡ [] }
        requires ready { T.ready self.old.stage }
        ensures played { (asked : T.Asked) (look : T.Look) (header : Head) (first : Ends) (written : ℕ)
            → IsOpened self.old.reader header first (ends_of (S.left input.old) (S.faults input.old) (K.held output.old) written)
            → T.mode.looks asked header ≡ Some look → T.stands self.old.stage look header []
            → InputPlayed T.mode asked result first (ends_of (S.left input.new) (S.faults input.new) (K.held output.new) written) }
        ensures counted { InputCounted result
            (ends_of (S.left input.old) (S.faults input.old) (K.held output.old) (K.faults output.old))
            (ends_of (S.left input.new) (S.faults input.new) (K.held output.new) (K.faults output.new)) }
    {
        match self.stage.open(&mut self.pieces) {
            Ok(()) => self.run(alloc, input, output),
            Err(_) => self.finish(Ending::Memory, output),
        }
    }
}

/// Plays an input whose header was read, on the stage that was made for it.
pub(crate) fn play<T: Stage + Drop, S: Source, K: Sink>(
    alloc: Global,
    reader: Reader,
    stage: T,
    input: &mut S,
    output: &mut K,
) -> Ending
    requires begun { IsSome reader.begun }
    requires counts { T.counts stage reader.at }
    requires ready { T.ready stage }
    ensures played { (asked : T.Asked) (look : T.Look) (header : Head) (first : Ends) (written : ℕ)
        → IsOpened reader header first (ends_of (S.left input.old) (S.faults input.old) (K.held output.old) written)
        → T.mode.looks asked header ≡ Some look → T.stands stage look header []
        → InputPlayed T.mode asked result first (ends_of (S.left input.new) (S.faults input.new) (K.held output.new) written) }
    ensures counted { InputCounted result
        (ends_of (S.left input.old) (S.faults input.old) (K.held output.old) (K.faults output.old))
        (ends_of (S.left input.new) (S.faults input.new) (K.held output.new) (K.faults output.new)) }
{
    let mut playing = Playing {
        reader,
        stage,
        pieces: Pieces::new(alloc),
    };
    let ended = playing.begin(alloc, input, output);
    // Passed to a function, so that its fields are dropped by functions of their own.
    drop(playing);
    ended
}
