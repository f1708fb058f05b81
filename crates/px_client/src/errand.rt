// What a client is to do.

ghost use Rattle.std.specs.Prelude.{◌≡◌, IsTrue, ◌↔◌};
ghost use Rattle.std.specs.List.{list_all};
ghost use Rattle.px_client.specs.Errand.{is_name_byte, IsName, IsErrand};

use px_types::Text;

/// The most bytes of a sink's name.
const NAME_MAX: usize = 64;

/// The greatest volume that a command may set: `PA_VOLUME_MAX` of `pulse/volume.h`.
const VOLUME_MAX: u32 = 0x7FFF_FFFF;

/// What the client is to do, with one command. Inputs are named by index, sinks by name; volumes are linear in 16.16.
#[derive(Drop)]
pub enum Errand {
    /// Lists the sink inputs.
    List,
    /// Sets the volume of an input.
    Volume(u32, u32),
    /// Mutes an input, or unmutes it.
    Mute(u32, bool),
    /// Sets the volume of a sink.
    SinkVolume(Text, u32),
    /// Moves an input to a sink.
    Move(u32, Text),
    /// Ends an input.
    Kill(u32),
}

// Whether each byte is allowed in a sink's name.
fn are_name_bytes(bytes: &[u8]) -> bool
    ensures { result ≡ list_all is_name_byte bytes.now }
{
    bytes.iter().all(|byte| 0x21 <= *byte && *byte <= 0x7E)
}

// Whether bytes are a sink's name.
fn is_name(name: &[u8]) -> bool
    ensures { IsTrue result ↔ IsName name.now }
{
    if name.is_empty() || name.len() > NAME_MAX {
        return false;
    }
    are_name_bytes(name)
}

impl Errand {
    /// Whether its name is a sink's, 1 to 64 bytes from 0x21 to 0x7E, and its volume at most 2,147,483,647. Takes no memory.
    pub fn is_allowed(&self) -> bool
        ensures { IsTrue result ↔ IsErrand self.now }
    {
        match self {
            Errand::List | Errand::Mute(..) | Errand::Kill(_) => true,
            Errand::Volume(_, value) => *value <= VOLUME_MAX,
            Errand::SinkVolume(name, value) => is_name(name.as_slice()) && *value <= VOLUME_MAX,
            Errand::Move(_, name) => is_name(name.as_slice()),
        }
    }
}
