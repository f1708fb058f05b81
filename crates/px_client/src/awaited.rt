// The replies that the client waits for.

ghost use Rattle.std.specs.Prelude.{◌≡◌};
ghost use Rattle.px_client.specs.Answers.{tag_of};
ghost use Rattle.px_client.specs.Dialogue.{last_awaited};

use crate::errand::Errand;

/// A reply that the client waits for.
#[derive(Clone, Copy, Debug, PartialEq, Eq)]
pub(crate) enum Awaited {
    /// That to AUTH, with the server's version.
    Version,
    /// That to SET_CLIENT_NAME, with the client's index.
    Client,
    /// That to an errand's command which asks for nothing.
    Nothing,
    /// That to GET_SINK_INPUT_INFO_LIST, with the inputs.
    List,
}

impl Awaited {
    /// The tag of its command.
    pub(crate) fn tag(self) -> u32
        ensures { result ≡ tag_of self }
    {
        match self {
            Awaited::Version => 0,
            Awaited::Client => 1,
            Awaited::Nothing | Awaited::List => 2,
        }
    }

    /// The reply to the errand's command.
    pub(crate) fn of(errand: &Errand) -> Awaited
        ensures { result ≡ last_awaited errand.now }
    {
        match errand {
            Errand::List => Awaited::List,
            _ => Awaited::Nothing,
        }
    }
}
