//! The two forms of a session.

ghost use Rattle.std.specs.Prelude.{◌≡◌};

use px_types::limits::{MAX_EVENT_BYTES, MAX_LONG_EVENT_BYTES};

/// The form of a session: which events it can have, and how wide their counts and lengths are. Its first word names it. Own: PulseAudio
/// records no sessions.
#[derive(Clone, Copy, Debug, PartialEq, Eq)]
pub enum Form {
    /// `PRS1`: counts and lengths have 32 bits, a Bytes event has at most 65,536 bytes, and there is no Stop.
    One,
    /// `PRS2`: counts and lengths have 64 bits, a Bytes event has at most 1,048,576 bytes, and there is Stop.
    Two,
}

impl Form {
    ghost use Rattle.px_session.specs.Form.{most_bytes, has_stop};

    /// The most bytes of a Bytes event.
    pub(crate) fn most_bytes(self) -> usize
        ensures { result ≡ most_bytes self }
    {
        match self {
            Form::One => MAX_EVENT_BYTES,
            Form::Two => MAX_LONG_EVENT_BYTES,
        }
    }

    /// There are Stop events.
    pub(crate) fn has_stop(self) -> bool
        ensures { result ≡ has_stop self }
    {
        match self {
            Form::One => false,
            Form::Two => true,
        }
    }
}
