//! The laws that sessions have one reading and one spelling, and refusals one place.

ghost use Rattle.std.specs.Prelude.{◌≡◌, ◌≢◌, ◌≤◌, ◌<◌, ℕ, List, ◌++◌, length};
ghost use Rattle.std.specs.List.{AllByRecursion};
ghost use Rattle.px_header.specs.declared.header.Header.{Header};
ghost use Rattle.px_session.specs.declared.event.Event.{Event};
ghost use Rattle.px_session.specs.declared.fault.Cause.TheVariants as cause;
ghost use Rattle.px_session.specs.Place.{Place, Refusal, limit};
ghost use Rattle.px_header.specs.HeaderRules.{IsHeader};
ghost use Rattle.px_session.specs.declared.form.Form.{Form};
ghost use Rattle.px_session.specs.declared.form.Form.TheVariants as forms;
ghost use Rattle.px_session.specs.EventRules.{IsEvent};
ghost use Rattle.px_session.specs.Writing.{FitsEvent};
ghost use Rattle.px_session.specs.Law.{AreBytes};
ghost use Rattle.px_session.specs.Session.{Ending, Ended, Stand, Session, Events, IsSession};
ghost use Rattle.px_session.specs.SessionLaw.{IsSpelled, IsRefusedBy, Lead};
ghost use Rattle.px_session.specs.Spelling as spelling;

/// Each list of bytes is exactly one session, of one form, or is refused once. What is spelled is read, and what is read is spelled so. It
/// does nothing: its contract is the law.
pub fn one_reading()
    ensures some { (bytes : List ℕ) → (s : Session) × IsSession bytes s }
    ensures one { (bytes : List ℕ) (a b : Session) → IsSession bytes a → IsSession bytes b → a ≡ b }
    // What is spelled is read to its end, if it is within the limit.
    ensures again { (form : Form) (h : Header) (events : List Event) → IsHeader h → AllByRecursion (IsEvent form) events
        → length (spelling.spelled form h events) ≤ limit → IsSession (spelling.spelled form h events) (Events form h events Ended) }
    // What is read is lawful, and its spelling begins the bytes; after it the session ends, or is refused.
    ensures found { (bytes : List ℕ) (form : Form) (h : Header) (events : List Event) (ending : Ending) → AreBytes bytes
        → IsSession bytes (Events form h events ending) → IsSpelled bytes form h events ending }
    // What is read to its end is the one spelling of it.
    ensures whole { (bytes : List ℕ) (form : Form) (h : Header) (events : List Event) → AreBytes bytes
        → IsSession bytes (Events form h events Ended) → bytes ≡ spelling.spelled form h events }
{}

/// Where an early end and an endless session are refused: at the length of the bytes, which is below 2^40, and at 2^40, which is at most
/// their length. It does nothing: its contract is the law.
pub fn refusals_at_the_end()
    ensures truncated { (bytes : List ℕ) (s : Session) (f : Refusal) → IsSession bytes s → IsRefusedBy s f
        → f.cause ≡ cause.Truncated → (f.at ≡ length bytes) × (length bytes < limit) }
    ensures endless { (bytes : List ℕ) (s : Session) (f : Refusal) → IsSession bytes s → IsRefusedBy s f
        → f.cause ≡ cause.Endless → (f.at ≡ limit) × (limit ≤ length bytes) }
{}

/// Events that were read one after the other are the first of all events from that place on. It does nothing: its contract is the law.
pub fn reading_in_steps()
    ensures joined { (form : Form) (given rest : List Event) (ending : Ending) (place after : Place) → Lead form given place after
        → Stand form rest ending after → Stand form (given ++ rest) ending place }
    ensures first { (form : Form) (given whole : List Event) (ending : Ending) (place after : Place) → Lead form given place after
        → Stand form whole ending place → (rest : List Event) × (whole ≡ given ++ rest) × Stand form rest ending after }
{}

/// Bytes are refused at one place for one cause, and, unless the cause is an early end, whatever follows them. It does nothing: its
/// contract is the law.
pub fn refusals_are_final()
    ensures one { (bytes : List ℕ) (s t : Session) (f g : Refusal) → IsSession bytes s → IsSession bytes t → IsRefusedBy s f
        → IsRefusedBy t g → f ≡ g }
    ensures stays { (bytes behind : List ℕ) (s : Session) (f : Refusal) → IsSession bytes s → IsRefusedBy s f
        → f.cause ≢ cause.Truncated → IsSession (bytes ++ behind) s }
{}

/// An event of any form is an event of the second, and can be written in it. It does nothing: its contract is the law.
pub fn first_form_in_second()
    ensures lawful { (form : Form) (e : Event) → IsEvent form e → IsEvent forms.Two e }
    ensures writable { (form : Form) (e : Event) → IsEvent form e → FitsEvent forms.Two e }
{}
