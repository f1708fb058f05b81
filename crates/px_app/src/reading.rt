//! Reads a session: its header, and then its events.

ghost use Rattle.std.specs.Prelude.{◌≡◌, ◌<◌, ◌≤◌, ◌^◌, ℕ, List, Option, None, IsSome, IfOk, OnOk, IfSome};
ghost use Rattle.px_session.specs.Reader.{Takes};
ghost use Rattle.px_header.specs.HeaderRules.{IsHeader};
ghost use Rattle.px_session.specs.declared.form.Form.TheVariants as forms;
ghost use Rattle.px_session.specs.Held.{ReadCounts};
ghost use Rattle.px_session.specs.Writing.{FitsHeader, FitsEvent};
ghost use Rattle.px_app.specs.Ends.{ends_of};
ghost use Rattle.px_app.specs.Step.{header_step, event_step, unread, StepReads, Opened};

use crate::ending::Ending;
use crate::refusal::{Refusal, Why};
use px_ends::Source;
use px_header::Header;
use px_session::{Event, ReadError, Reader, Step};
use std::alloc::Global;

// Reads the header.
fn next_header<S: Source>(reader: &mut Reader, input: &mut S) -> Result<Header, ReadError>
    requires { reader.old.begun ≡ None }
    ensures takes { Takes (header_step result) reader.old reader.new (S.left input.old) (S.left input.new) }
    ensures lawful { IfOk result IsHeader }
    ensures fits { IfOk result FitsHeader }
    ensures counts { ReadCounts result (S.faults input.old) (S.faults input.new) }
{
    match reader.next(input) {
        Ok(Step::Header(header)) => Ok(header),
        Ok(Step::Event(_)) => unreachable!(),
        Ok(Step::End) => unreachable!(),
        Err(e) => Err(e),
    }
}

/// Reads the next event after the header; `None` at the end.
pub(crate) fn next_event<S: Source>(
    reader: &mut Reader,
    input: &mut S,
) -> Result<Option<Event>, ReadError>
    requires { IsSome reader.old.begun }
    ensures takes { Takes (event_step result) reader.old reader.new (S.left input.old) (S.left input.new) }
    ensures fits { IfOk result (λ found. IfSome found (FitsEvent forms.Two)) }
    ensures begun { OnOk result (IsSome reader.new.begun) }
    ensures forward { OnOk result ((reader.old.at < reader.new.at) × (reader.new.at ≤ 2 ^ 40)) }
    ensures counts { ReadCounts result (S.faults input.old) (S.faults input.new) }
{
    match reader.next(input) {
        Ok(Step::Event(e)) => Ok(Some(e)),
        Ok(Step::End) => Ok(None),
        Ok(Step::Header(_)) => unreachable!(),
        Err(e) => Err(e),
    }
}

/// How a run ends where the reader returns an error.
pub(crate) fn unread(e: ReadError) -> Ending
    ensures { result ≡ unread e }
{
    match e {
        ReadError::Refused { at, cause } => Ending::Refused(Refusal {
            at,
            why: Why::Session(cause),
        }),
        ReadError::Failed => Ending::ReadFault,
        ReadError::NoMemory => Ending::Memory,
    }
}

/// Reads the header of a session with a reader of its own.
pub(crate) fn open<S: Source>(alloc: Global, input: &mut S) -> Result<(Reader, Header), Ending>
    ensures opened { (held : Option (List ℕ)) (written now : ℕ) → Opened result
        (ends_of (S.left input.old) (S.faults input.old) held written) (ends_of (S.left input.new) (S.faults input.new) held now) }
    ensures begun { IfOk result (λ opened. IsSome opened.0.begun) }
    ensures lawful { IfOk result (λ opened. IsHeader opened.1) }
    ensures fits { IfOk result (λ opened. FitsHeader opened.1) }
    ensures reads { StepReads result (S.faults input.old) (S.faults input.new) }
{
    let Ok(mut reader) = Reader::new(alloc) else {
        return Err(Ending::Memory);
    };
    match next_header(&mut reader, input) {
        Ok(header) => Ok((reader, header)),
        Err(e) => Err(unread(e)),
    }
}
