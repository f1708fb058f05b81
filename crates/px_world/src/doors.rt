//! The doors of a world: the decoder of each client's bytes, by its connection's number.

ghost use Rattle.std.specs.Prelude.{◌≡◌, ℕ, List, [], ◌∷◌, IfOk, IfSome, IfNone, IsSome, OnErr, None, Some, Ok};
ghost use Rattle.std.specs.Option.{is_some};
ghost use Rattle.px_frame.specs.Frame.{IsBody};
ghost use Rattle.px_frame.specs.Progress.{GivesBodies};
ghost use Rattle.px_frame.specs.Spelling.{spelling_of};
ghost use Rattle.px_session.specs.declared.event.Event.TheVariants.{Connect, Bytes, Close};
ghost use Rattle.px_world.specs.World.{Link, link_of, received_of};
ghost use Rattle.px_world.specs.Event.{bytes_steps, links_after};
ghost use Rattle.px_world.specs.Running.{decoder_of, Open, IsAnswered, steps_given};

use px_block::BlockSource;
use px_frame::{Body, Decoder, FrameError, Frames};
use px_types::{ConnId, Mem};
use std::alloc::Global;
use std::collections::BTreeMap;

/// The decoder of each connection that a client has opened and not closed, by its number: each look-up takes the logarithm of their count.
pub type Doors = BTreeMap<u32, Decoder>;

/// Whether there is a door of connection `conn`. Takes no memory.
pub(crate) fn is_there(doors: &Doors, conn: ConnId) -> bool
    ensures value { result ≡ is_some (decoder_of doors.now.entries conn) }
    ensures named { (links : List Link) → Open doors.now.entries links → result ≡ is_some (link_of links conn) }
{
    doors.contains_key(&conn.0)
}

/// Decodes the next bytes of the client of connection `conn`, in whatever pieces they come: the frames that are complete, or the fault that ends
/// them (`Decoder::feed`); `None` where there is no such door. For whatever links the doors are open to, the result makes the core's steps, and
/// the doors are open to the links with these bytes, unless memory ran out.
pub(crate) fn feed<B: BlockSource>(
    doors: &mut Doors,
    conn: ConnId,
    bytes: &[u8],
    blocks: &mut B,
) -> Option<Result<Frames, FrameError>>
    ensures there { IfSome result (λ _. IsSome (decoder_of doors.old.entries conn)) }
    ensures steps { IfSome result (λ given. (links : List Link) → Open doors.old.entries links → IsAnswered given
        → bytes_steps conn (received_of (link_of links conn)) bytes.now ≡ steps_given conn given) }
    ensures opened { IfSome result (λ given. (links : List Link) → Open doors.old.entries links → IsAnswered given
        → Open doors.new.entries (links_after links (Bytes conn bytes.now))) }
    ensures bodies { IfSome result GivesBodies }
    ensures none { IfNone result ((decoder_of doors.old.entries conn ≡ None) × (doors.new.entries ≡ doors.old.entries)) }
{
    match doors.get_mut(&conn.0) {
        Some(decoder) => Some(decoder.feed(bytes, blocks)),
        None => None,
    }
}

/// Passes over a frame of the client of connection `conn`, where it has a door whose decoder stands between two frames, and gives the offset of its
/// payload (`Decoder::pass_over`). Takes no memory.
pub(crate) fn pass_over(doors: &mut Doors, conn: ConnId, body: &Body) -> Option<u64>
    requires { IsBody body.now }
    ensures there { IfSome result (λ _. IsSome (decoder_of doors.old.entries conn)) }
    ensures steps { (at : ℕ) (links : List Link) → result ≡ Some at → Open doors.old.entries links
        → bytes_steps conn (received_of (link_of links conn)) (spelling_of body.now) ≡ steps_given conn (Ok (record { at = at; body = body.now } ∷ [])) }
    ensures opened { (at : ℕ) (links : List Link) → result ≡ Some at → Open doors.old.entries links
        → Open doors.new.entries (links_after links (Bytes conn (spelling_of body.now))) }
    ensures none { result ≡ None → doors.new.entries ≡ doors.old.entries }
{
    match doors.get_mut(&conn.0) {
        Some(decoder) => decoder.pass_over(body),
        None => None,
    }
}

/// Adds a door for a client that connects. Where memory runs out nothing changes.
pub(crate) fn add(doors: &mut Doors, alloc: Global, conn: ConnId) -> Mem<()>
    requires { decoder_of doors.old.entries conn ≡ None }
    ensures opened { IfOk result (λ _. (links : List Link) → Open doors.old.entries links
        → Open doors.new.entries (links_after links (Connect conn))) }
    ensures err { OnErr result (doors.new.entries ≡ doors.old.entries) }
{
    doors.insert(conn.0, Decoder::new(alloc))?;
    Ok(())
}

/// Removes the door of connection `conn`, if there is one. Takes no memory.
pub(crate) fn drop_of(doors: &mut Doors, conn: ConnId)
    ensures { (links : List Link) → Open doors.old.entries links → Open doors.new.entries (links_after links (Close conn)) }
{
    doors.remove(&conn.0);
}
