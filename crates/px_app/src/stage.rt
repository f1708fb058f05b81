//! The running part of a mode.

ghost use Rattle.std.specs.Prelude.{◌≡◌, ◌≤◌, ◌+◌, ◌-◌, ◌^◌, ℕ, List, [], ◌∷◌, ◌++◌, Option, OnOk};
ghost use Rattle.px_ends.specs.Visible.{after_adding};
ghost use Rattle.px_header.specs.declared.header.Header.{Header as Head};
ghost use Rattle.px_session.specs.declared.event.Event.{Event as Happening};
ghost use Rattle.px_session.specs.declared.form.Form.TheVariants as forms;
ghost use Rattle.px_session.specs.Writing.{FitsEvent};
ghost use Rattle.px_app.specs.Mode.{Mode, state_after};
ghost use Rattle.px_app.specs.Stage.{AddsPart, EventPlayed};

use px_ends::Pieces;
use px_session::Event;
use px_types::{Mem, Text};
use px_world::WorldFault;
use std::alloc::Global;

/// What runs in a mode of the program: made for the header of a session, it takes the session's events one by one, and writes what the mode shows.
/// Output waits in pieces, so that a write fails only for want of memory.
pub(crate) trait Stage {
    /// The mode's states, what may be asked of it, and how it looks at a session.
    ghost State: { Type 0 };

    ghost Asked: { Type 0 };

    ghost Look: { Type 0 };

    /// The mode.
    ghost mode: { Mode State Asked Look };

    /// It stands after these events of a session with this header, which it looks at so.
    ghost stands: { Self → Look → Head → List Happening → Type 0 };

    /// It can write what is shown of the header.
    ghost ready: { Self → Type 0 };

    /// Its counts have room for the events in this many bytes.
    ghost counts: { Self → ℕ → Type 0 };

    /// Writes what is shown of the header.
    fn open(&self, pieces: &mut Pieces) -> Mem<()>
        requires { ready self.now }
        ensures { (look : Look) (header : Head) (held : Option (List ℕ)) → stands self.now look header []
            → AddsPart result (mode.opens look header) (after_adding held pieces.old.bytes) (after_adding held pieces.new.bytes) };

    /// Takes an event, of either form, and writes what is shown of it. Gives back the event's text, where its bytes are no longer needed.
    fn event(
        &mut self,
        alloc: Global,
        e: Event,
        pieces: &mut Pieces,
    ) -> Result<Option<Text>, WorldFault>
        requires fits { FitsEvent forms.Two e }
        requires counts { counts self.old (2 ^ 40 - 1) }
        ensures played { (look : Look) (header : Head) (events : List Happening) (held : Option (List ℕ)) → stands self.old look header events
            → EventPlayed mode result look (state_after mode.course header events) e (after_adding held pieces.old.bytes) (after_adding held pieces.new.bytes) }
        ensures stands { (look : Look) (header : Head) (events : List Happening) → stands self.old look header events
            → OnOk result (stands self.new look header (events ++ e ∷ [])) }
        ensures counts { (at : ℕ) → counts self.old at → OnOk result (counts self.new (at + 1)) };

    /// Writes what is shown after the last event.
    fn close(&self, alloc: Global, pieces: &mut Pieces) -> Mem<()>
        ensures { (look : Look) (header : Head) (events : List Happening) (held : Option (List ℕ)) → stands self.now look header events
            → AddsPart result (mode.closes look header events) (after_adding held pieces.old.bytes) (after_adding held pieces.new.bytes) };

    /// What has room for the events in fewer bytes.
    ghost counts_more: { (stage : Self) (at more : ℕ) → at ≤ more → counts stage at → counts stage more };
}
