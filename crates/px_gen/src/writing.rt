// Events, written one after the other.

ghost use Rattle.std.specs.List.{flat_map, AllByRecursion};
ghost use Rattle.px_session.specs.Spelling.{event};
ghost use Rattle.px_session.specs.Writing.{FitsEvent};
ghost use Rattle.px_gen.specs.Generator.{form};
ghost use Rattle.px_gen.specs.Writing.{Writes, Counts};

use px_ends::Sink;
use px_session::{Event, Form, write_event};

/// The form of the session.
pub(crate) const FORM: Form = Form::One;

/// Why no more of a session is written.
#[derive(Clone, Copy, Debug, PartialEq, Eq)]
pub(crate) enum Stop {
    /// Memory ran out.
    NoMemory,
    /// A write of the sink failed.
    Failed,
}

/// Writes the spellings of events in order.
pub(crate) fn write_events<K: Sink>(out: &mut K, events: &[Event]) -> Result<(), Stop>
    requires { AllByRecursion (FitsEvent form) events.now }
    ensures bytes { Writes result (flat_map (event form) events.now) (K.held out.old) (K.held out.new) }
    ensures count { Counts result (K.faults out.old) (K.faults out.new) }
{
    for e in events {
        match write_event(FORM, out, e) {
            Ok(()) => {}
            Err(_) => return Err(Stop::Failed),
        }
    }
    Ok(())
}
