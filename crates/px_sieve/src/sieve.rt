//! The sieve.

ghost use Rattle.std.specs.Prelude.{◌≡◌, ℕ, List, [], ◌∷◌, ◌++◌, IfOk, IfSome, OnOk, not, filter, map, true, false, length, ◌<◌, Some, None, Bool, IsTrue, cond, ◌&&◌};
ghost use Rattle.std.specs.List.{position, AllByRecursion};
ghost use Rattle.px_types.specs.declared.ids.ConnId.{ConnId};
ghost use Rattle.px_sieve.specs.declared.line.Line.{Line};
ghost use Rattle.px_sieve.specs.Sieve.{Heard, Sieve as SpecSieve, new_sieve, pass, heard_of, heard_by, changed, first_taken, next, after_next, first_of, asked_by, is_asked, set_in, seen_one, seen_all, seen, forget, asked_still};
ghost use Rattle.px_sieve.specs.Piece.{is_reply};
ghost use Rattle.px_sieve.specs.Standing.{StandsFor, AreHeard, ArePossible, is_line, line_set, left_in, IsPossible, IsPossiblePiece};

use crate::line::{Line, hear, take_first, unheard};
use crate::piece::{Piece, asks, is_reply, sort};
use crate::segment::Segment;
use px_block::BlockSource;
use px_frame::Packet;
use px_state::{Effect, Effects};
use px_types::{ConnId, Mem};
use std::alloc::Global;
use std::marker::Model;

/// Cuts the bytes of connections into pieces: those that a mode of the program handles itself, and those that it passes on.
/// Contracts see the commands that are the mode's own, where the decoder of each connection stands, and what is left to be
/// handed out.
#[derive(Drop)]
pub struct Sieve {
    own: Vec<u32>,
    lines: Vec<Line>,
    asked: Option<ConnId>,
}

impl Model for Sieve {
    ghost use Rattle.px_sieve.specs.Piece.{is_reply};
    ghost use Rattle.px_sieve.specs.Standing.{Sifting, ArePossible};

    ghost Value = { Sifting };

    ghost view = { λ s. record { own = s.own.items; lines = s.lines.items; asked = s.asked } };

    ghost invariant = { λ s. ArePossible s.lines.items };
}

// The place of the line of connection `conn`. Takes no memory.
fn place_of(lines: &[Line], conn: ConnId) -> Option<usize>
    ensures { result ≡ position (is_line conn) lines.now }
{
    lines.iter().position(|line| line.conn.0 == conn.0)
}

// The next bytes of connection `conn` arrive.
fn hear_on<B: BlockSource>(
    lines: &mut Vec<Line>,
    alloc: Global,
    conn: ConnId,
    bytes: &[u8],
    blocks: &mut B,
) -> Mem<()>
    requires { ArePossible lines.old.items }
    ensures heard { OnOk result ((heard : List Heard) → AreHeard lines.old.items heard
        → AreHeard lines.new.items (heard_by (heard_of heard conn) conn bytes.now heard)) }
    ensures possible { ArePossible lines.new.items }
{
    match place_of(lines.as_slice(), conn) {
        Some(place) => {
            hear(&mut lines[place], alloc, bytes, blocks)?;
            Ok(())
        }
        None => {
            let mut line = unheard(alloc, conn);
            hear(&mut line, alloc, bytes, blocks)?;
            lines.push(line)?;
            Ok(())
        }
    }
}

// Whether connection `conn` is the one that was asked for. Takes no memory.
fn is_asked(asked: Option<ConnId>, conn: ConnId) -> bool
    ensures { result ≡ is_asked asked conn }
{
    match asked {
        Some(asked) => asked.0 == conn.0,
        None => false,
    }
}

// A line of connection `conn` is let in, or isn't any longer. Takes no memory.
fn set_one(line: &mut Line, conn: ConnId, on: bool)
    ensures { line.new ≡ line_set conn on line.old }
{
    if line.conn.0 == conn.0 {
        line.let_in = on;
    }
}

// Connection `conn` is let in, or isn't any longer. Takes no memory.
fn set_in(lines: &mut [Line], conn: ConnId, on: bool)
    ensures { lines.new ≡ map (line_set conn on) lines.old }
{
    for line in lines.iter_mut() {
        set_one(line, conn, on);
    }
}

// Whether a frame to `conn` lets it in. Takes no memory.
fn lets_in(asked: Option<ConnId>, conn: ConnId, frame: &Packet) -> bool
    ensures { result ≡ (is_asked asked conn && is_reply frame.now) }
{
    is_asked(asked, conn) && is_reply(frame.bytes())
}

// An effect is seen. Takes no memory.
fn see(lines: &mut [Line], asked: Option<ConnId>, effect: &Effect)
    requires { ArePossible lines.old }
    ensures heard { (heard : List Heard) → AreHeard lines.old heard → AreHeard lines.new (seen_one asked effect.now heard) }
    ensures possible { ArePossible lines.new }
    ensures left { left_in lines.new ≡ left_in lines.old }
{
    match effect {
        Effect::Sent { conn, packet } => {
            if lets_in(asked, *conn, packet) {
                set_in(lines, *conn, true);
            }
        }
        Effect::Closed { conn, .. } => set_in(lines, *conn, false),
    }
}

// Effects are seen, in order. Takes no memory.
fn see_all(lines: &mut [Line], asked: Option<ConnId>, effects: &[Effect])
    requires { ArePossible lines.old }
    ensures heard { (heard : List Heard) → AreHeard lines.old heard → AreHeard lines.new (seen_all asked effects.now heard) }
    ensures possible { ArePossible lines.new }
    ensures left { left_in lines.new ≡ left_in lines.old }
{
    for effect in effects {
        see(lines, asked, effect);
    }
}

// Takes the first segment that waits on connection `conn`, with whether it is let in. Takes no memory.
fn take_on(lines: &mut Vec<Line>, conn: ConnId) -> Option<(Segment, bool)>
    requires { ArePossible lines.old.items }
    ensures heard { (heard : List Heard) → AreHeard lines.old.items heard → AreHeard lines.new.items (changed first_taken conn heard) }
    ensures first { (heard : List Heard) → AreHeard lines.old.items heard → result ≡ first_of (heard_of heard conn) }
    ensures possible { ArePossible lines.new.items }
    ensures segment { IfSome result (λ first. IsPossible first.0) }
    ensures fewer { IfSome result (λ _. left_in lines.new.items < left_in lines.old.items) }
{
    match place_of(lines.as_slice(), conn) {
        Some(place) => take_first(&mut lines[place]),
        None => None,
    }
}

// The connection, where a segment of it asks to be let in. Takes no memory.
fn asked_by(own: &[u32], conn: ConnId, let_in: bool, segment: &Segment) -> Option<ConnId>
    ensures { result ≡ asked_by own.now conn (segment.now, let_in) }
{
    if asks(own, let_in, segment) {
        Some(conn)
    } else {
        None
    }
}

// Drops the line of connection `conn`. Takes no memory.
fn forget_on(lines: &mut Vec<Line>, conn: ConnId)
    ensures { lines.new.items ≡ filter (λ line. not (is_line conn line)) lines.old.items }
{
    lines.retain(|line| line.conn.0 != conn.0);
}

// What is asked for, unless `conn` is. Takes no memory.
fn asked_still(asked: Option<ConnId>, conn: ConnId) -> Option<ConnId>
    ensures { result ≡ asked_still asked conn }
{
    if is_asked(asked, conn) { None } else { asked }
}

impl Sieve {
    /// A sieve for a mode that handles the commands with these numbers itself.
    pub fn new(alloc: Global, own: &[u32]) -> Mem<Sieve>
        ensures { IfOk result (λ sieve. StandsFor sieve (new_sieve own.now)) }
    {
        Ok(Sieve {
            own: Vec::from_slice(alloc, own)?,
            lines: Vec::new(alloc),
            asked: None,
        })
    }

    /// The next bytes of a connection arrive, in whatever pieces they come: sound is copied into blocks of `blocks`. After an `Err` the
    /// sieve isn't used again.
    pub fn pass<B: BlockSource>(
        &mut self,
        alloc: Global,
        conn: ConnId,
        bytes: &[u8],
        blocks: &mut B,
    ) -> Mem<()>
        ensures { OnOk result ((s : SpecSieve) → StandsFor self.old s → StandsFor self.new (pass s conn bytes.now)) }
    {
        hear_on(&mut self.lines, alloc, conn, bytes, blocks)
    }

    /// Hands out the next piece of a connection's bytes; `None` where none is left. What the piece makes is given to `seen` before the
    /// next one is handed out. After an `Err` the sieve isn't used again.
    pub fn next(&mut self, conn: ConnId) -> Mem<Option<Piece>>
        ensures piece { IfOk result (λ piece. (s : SpecSieve) → StandsFor self.old s → piece ≡ next s conn) }
        ensures after { OnOk result ((s : SpecSieve) → StandsFor self.old s → StandsFor self.new (after_next s conn)) }
        ensures possible { IfOk result (λ piece. IfSome piece IsPossiblePiece) }
        ensures fewer { IfOk result (λ piece. IfSome piece (λ _. left_in self.new.lines < left_in self.old.lines)) }
    {
        match take_on(&mut self.lines, conn) {
            None => Ok(None),
            Some((segment, let_in)) => {
                self.asked = asked_by(self.own.as_slice(), conn, let_in, &segment);
                Ok(Some(sort(self.own.as_slice(), let_in, segment)))
            }
        }
    }

    /// These effects were made: by the piece that was handed out last, or by another event. Takes no memory.
    pub fn seen(&mut self, effects: &Effects)
        ensures after { (s : SpecSieve) → StandsFor self.old s → StandsFor self.new (seen s effects.now) }
        ensures left { left_in self.new.lines ≡ left_in self.old.lines }
    {
        see_all(&mut self.lines, self.asked, effects.as_slice());
        self.asked = None;
    }

    /// Drops all that is kept of a connection, whose number is free again. Takes no memory.
    pub fn forget(&mut self, conn: ConnId)
        ensures { (s : SpecSieve) → StandsFor self.old s → StandsFor self.new (forget s conn) }
    {
        forget_on(&mut self.lines, conn);
        self.asked = asked_still(self.asked, conn);
    }
}
