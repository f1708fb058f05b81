//! The law that packets are a language of commands.

ghost use Rattle.std.specs.Prelude.{◌≡◌, ℕ, List, Ok};
ghost use Rattle.px_tag.specs.Law.{AreBytes};
ghost use Rattle.px_cmd.specs.Field.{Field};
ghost use Rattle.px_cmd.specs.Law.{IsCommand, IsPacketOf, packet_of};
ghost use Rattle.px_cmd.specs.Packet.{meaning};

/// At each version a packet that spells a command of the table, with fields of the kinds that it has then, means that command and those
/// fields, whatever its tag. A packet means a command exactly where it is such a spelling, and nothing more; a property list may be spelled
/// with a key twice. The function does nothing: its contract is the law.
pub fn spelled_commands()
    ensures again { (version command tag : ℕ) (fields : List Field) → IsCommand version command tag fields → meaning version (packet_of command tag fields) ≡ Ok (command, fields) }
    ensures spelled { (version : ℕ) (packet : List ℕ) (command : ℕ) (fields : List Field) → IsPacketOf version packet command fields → meaning version packet ≡ Ok (command, fields) }
    ensures found { (version : ℕ) (packet : List ℕ) (command : ℕ) (fields : List Field) → AreBytes packet → meaning version packet ≡ Ok (command, fields) → IsPacketOf version packet command fields }
{}
