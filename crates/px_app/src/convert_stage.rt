//! The stage of a conversion: it writes each part of a session in the second form.

ghost use Rattle.std.specs.Prelude.{◌≡◌};
ghost use Rattle.px_session.specs.Writing.{FitsHeader};
ghost use Rattle.px_app.specs.Convert.{IsFor};

use crate::stage::Stage;
use px_ends::Pieces;
use px_header::Header;
use px_session::{Event, Form, write_end, write_event, write_header};
use px_types::{Mem, NoMemory, Text};
use px_world::WorldFault;
use std::alloc::Global;

/// The header of the session, until it is written.
#[derive(Drop)]
pub(crate) struct Converting {
    header: Header,
}

impl Converting {
    /// The stage for a session with this header.
    pub(crate) fn new(header: Header) -> Converting
        ensures { result.header ≡ header }
    {
        Converting { header }
    }
}

// The text of an event that has one.
fn text_of(e: Event) -> Option<Text> {
    match e {
        Event::Bytes(_, bytes) => Some(bytes),
        _ => None,
    }
}

impl Stage for Converting {
    ghost use Rattle.px_app.specs.Convert.{convert_mode};

    ghost State = { Unit {0} };

    ghost Asked = { Unit {0} };

    ghost Look = { Unit {0} };

    ghost mode = { convert_mode };

    ghost stands = { λ stage look header events. IsFor stage look header events };

    ghost ready = { λ stage. FitsHeader stage.header };

    ghost counts = { λ stage at. Unit {0} };

    fn open(&self, pieces: &mut Pieces) -> Mem<()> {
        match write_header(Form::Two, pieces, &self.header) {
            Ok(()) => Ok(()),
            Err(_) => Err(NoMemory),
        }
    }

    fn event(
        &mut self,
        alloc: Global,
        e: Event,
        pieces: &mut Pieces,
    ) -> Result<Option<Text>, WorldFault> {
        let _ = alloc;
        match write_event(Form::Two, pieces, &e) {
            Ok(()) => Ok(text_of(e)),
            Err(_) => Err(WorldFault::NoMemory),
        }
    }

    fn close(&self, alloc: Global, pieces: &mut Pieces) -> Mem<()> {
        let _ = alloc;
        match write_end(pieces) {
            Ok(()) => Ok(()),
            Err(_) => Err(NoMemory),
        }
    }

    ghost counts_more = { λ stage at more less counts. tt };
}
