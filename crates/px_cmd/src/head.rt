//! The front of a control packet.

ghost use Rattle.std.specs.Prelude.{◌≡◌};
ghost use Rattle.px_tag.specs.Place.{start_of};
ghost use Rattle.px_cmd.specs.Packet.{head_at, HeadGives, FrontGives};

use px_tag::{TagFault, TagReader};

/// The front of a control packet: the command's number, and the tag that its reply will have.
#[derive(Clone, Copy, Debug, PartialEq, Eq)]
pub struct Head {
    pub command: u32,
    pub tag: u32,
}

// The head at the reader's place.
#[tactic(auto, unfolding(crate::specs::Packet::head_at))]
pub(crate) fn front(reader: &mut TagReader) -> Result<Head, TagFault>
    ensures { HeadGives (λ head. (head.command, head.tag)) result reader.new (head_at reader.old) }
{
    let command = reader.number()?;
    let tag = reader.number()?;
    Ok(Head { command, tag })
}

/// The front of a packet, or the first fault in it. What follows isn't read. Takes no memory.
pub fn read_head(packet: &[u8]) -> Result<Head, TagFault>
    ensures { FrontGives (λ head. (head.command, head.tag)) result (head_at (start_of packet.now)) }
{
    let mut reader = TagReader::new(packet);
    front(&mut reader)
}
