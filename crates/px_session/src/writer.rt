//! Headers, events and output records, written in their one spelling; headers and events in either form.

ghost use Rattle.std.specs.Prelude.{◌≡◌, ◌<◌, ◌^◌, ℕ, [], ◌∷◌, ◌++◌, length, OnOk, OnErr};
ghost use Rattle.std.specs.List.{flat_map, AllByRecursion};
ghost use Rattle.px_ends.specs.Visible.{after_adding};
ghost use Rattle.px_types.specs.Faults.{Rose};
ghost use Rattle.px_ends.specs.Whole.{AddsFront};
ghost use Rattle.std.specs.Int.{w64, to_be_bytes};
ghost use Rattle.px_session.specs.Spelling.{word, count, sink, event, end_byte};
ghost use Rattle.px_session.specs.Form.{IsCount};
ghost use Rattle.px_session.specs.Spelling as spelling;
ghost use Rattle.px_session.specs.Output.{record_of, closed_record, stopped_record};
ghost use Rattle.px_session.specs.Writing.{FitsSink, FitsHeader, FitsEvent, FitsRecord};

use crate::event::Event;
use crate::fault::WriteError;
use crate::form::Form;
use crate::output::OutRecord;
use px_ends::{Sink, write_all};
use px_header::{Header, SinkSpec};
use px_types::{ConnId, SinkId};

/// The byte that ends a session, and an output.
const END: u8 = 0;

// Writes the pieces in order.
fn write_pieces<K: Sink>(out: &mut K, pieces: &[&[u8]]) -> Result<(), WriteError>
    ensures ok { OnOk result (K.held out.new ≡ after_adding (K.held out.old) (flat_map (λ piece. piece.now) pieces.now)) }
    ensures ok_count { OnOk result (K.faults out.new ≡ K.faults out.old) }
    ensures err { OnErr result (AddsFront (flat_map (λ piece. piece.now) pieces.now) (K.held out.old) (K.held out.new)) }
    ensures err_count { OnErr result (Rose (K.faults out.old) (K.faults out.new)) }
{
    for piece in pieces {
        write_all(out, piece)?;
    }
    Ok(())
}

#[tactic(auto, unfolding(crate::specs::Spelling::sink))]
fn write_sink<K: Sink>(out: &mut K, s: &SinkSpec) -> Result<(), WriteError>
    requires { FitsSink s.now }
    ensures ok { OnOk result (K.held out.new ≡ after_adding (K.held out.old) (sink s.now)) }
    ensures ok_count { OnOk result (K.faults out.new ≡ K.faults out.old) }
    ensures err { OnErr result (AddsFront (sink s.now) (K.held out.old) (K.held out.new)) }
    ensures err_count { OnErr result (Rose (K.faults out.old) (K.faults out.new)) }
{
    let name = s.name.as_slice();
    let [a, b, c, d] = s.spec.rate.to_be_bytes();
    write_pieces(
        out,
        &[
            &[name.len() as u8],
            name,
            &[s.spec.format.code(), s.spec.channels, a, b, c, d],
            s.map.positions(),
            &s.guard.to_be_bytes(),
            &s.depth.to_be_bytes(),
        ],
    )
}

fn write_sinks<K: Sink>(out: &mut K, sinks: &[SinkSpec]) -> Result<(), WriteError>
    requires { AllByRecursion FitsSink sinks.now }
    ensures ok { OnOk result (K.held out.new ≡ after_adding (K.held out.old) (flat_map sink sinks.now)) }
    ensures ok_count { OnOk result (K.faults out.new ≡ K.faults out.old) }
    ensures err { OnErr result (AddsFront (flat_map sink sinks.now) (K.held out.old) (K.held out.new)) }
    ensures err_count { OnErr result (Rose (K.faults out.old) (K.faults out.new)) }
{
    for s in sinks {
        write_sink(out, s)?;
    }
    Ok(())
}

// The first four bytes of a session.
fn first_word(form: Form) -> [u8; 4]
    ensures { result ≡ spelling.magic form }
{
    match form {
        Form::One => [b'P', b'R', b'S', b'1'],
        Form::Two => [b'P', b'R', b'S', b'2'],
    }
}

/// Writes the spelling of a header in this form, whose cookie is written whole. After `Failed` the sink took a front of the spelling.
/// Takes no memory.
pub fn write_header<K: Sink>(form: Form, out: &mut K, header: &Header) -> Result<(), WriteError>
    requires { FitsHeader header.now }
    ensures ok { OnOk result (K.held out.new ≡ after_adding (K.held out.old) (spelling.header form header.now)) }
    ensures ok_count { OnOk result (K.faults out.new ≡ K.faults out.old) }
    ensures err { OnErr result (AddsFront (spelling.header form header.now) (K.held out.old) (K.held out.new)) }
    ensures err_count { OnErr result (Rose (K.faults out.old) (K.faults out.new)) }
{
    let word = first_word(form);
    let count = header.sinks.len() as u8;
    write_pieces(out, &[&word, header.cookie.as_slice(), &[count]])?;
    write_sinks(out, header.sinks.as_slice())
}

// Writes a record's first byte, and its connection.
fn write_connection<K: Sink>(out: &mut K, code: u8, conn: ConnId) -> Result<(), WriteError>
    ensures ok { OnOk result (K.held out.new ≡ after_adding (K.held out.old) (code ∷ word conn.0)) }
    ensures ok_count { OnOk result (K.faults out.new ≡ K.faults out.old) }
    ensures err { OnErr result (AddsFront (code ∷ word conn.0) (K.held out.old) (K.held out.new)) }
    ensures err_count { OnErr result (Rose (K.faults out.old) (K.faults out.new)) }
{
    write_pieces(out, &[&[code], &conn.0.to_be_bytes()])
}

// The field of a count whose eight bytes are given: all of them, or the last four.
fn count_field(form: Form, eight: &[u8; 8]) -> &[u8]
    ensures { (n : ℕ) → eight.now ≡ to_be_bytes w64 n → result.now ≡ count form n }
{
    match form {
        Form::One => &eight[4..],
        Form::Two => eight,
    }
}

// Writes the same, then the number of bytes, and the bytes.
fn write_bytes<K: Sink>(
    form: Form,
    out: &mut K,
    code: u8,
    conn: ConnId,
    bytes: &[u8],
) -> Result<(), WriteError>
    requires { IsCount form (length bytes.now) }
    ensures ok { OnOk result (K.held out.new ≡ after_adding (K.held out.old) (code ∷ word conn.0 ++ count form (length bytes.now) ++ bytes.now)) }
    ensures ok_count { OnOk result (K.faults out.new ≡ K.faults out.old) }
    ensures err { OnErr result (AddsFront (code ∷ word conn.0 ++ count form (length bytes.now) ++ bytes.now) (K.held out.old) (K.held out.new)) }
    ensures err_count { OnErr result (Rose (K.faults out.old) (K.faults out.new)) }
{
    let length = (bytes.len() as u64).to_be_bytes();
    write_pieces(
        out,
        &[
            &[code],
            &conn.0.to_be_bytes(),
            count_field(form, &length),
            bytes,
        ],
    )
}

// Writes a turn of a sink.
fn write_turn<K: Sink>(
    form: Form,
    out: &mut K,
    index: u8,
    frames: u64,
    take: u64,
) -> Result<(), WriteError>
    ensures ok { OnOk result (K.held out.new ≡ after_adding (K.held out.old) (5 ∷ index ∷ count form frames ++ count form take)) }
    ensures ok_count { OnOk result (K.faults out.new ≡ K.faults out.old) }
    ensures err { OnErr result (AddsFront (5 ∷ index ∷ count form frames ++ count form take) (K.held out.old) (K.held out.new)) }
    ensures err_count { OnErr result (Rose (K.faults out.old) (K.faults out.new)) }
{
    let frames = frames.to_be_bytes();
    let take = take.to_be_bytes();
    write_pieces(
        out,
        &[
            &[5, index],
            count_field(form, &frames),
            count_field(form, &take),
        ],
    )
}

// Writes that the core takes notices of a sink.
fn write_collect<K: Sink>(form: Form, out: &mut K, index: u8, take: u64) -> Result<(), WriteError>
    ensures ok { OnOk result (K.held out.new ≡ after_adding (K.held out.old) (6 ∷ index ∷ count form take)) }
    ensures ok_count { OnOk result (K.faults out.new ≡ K.faults out.old) }
    ensures err { OnErr result (AddsFront (6 ∷ index ∷ count form take) (K.held out.old) (K.held out.new)) }
    ensures err_count { OnErr result (Rose (K.faults out.old) (K.faults out.new)) }
{
    let take = take.to_be_bytes();
    write_pieces(out, &[&[6, index], count_field(form, &take)])
}

// Writes that a sink's device will fail.
fn write_stop<K: Sink>(out: &mut K, index: SinkId) -> Result<(), WriteError>
    ensures ok { OnOk result (K.held out.new ≡ after_adding (K.held out.old) (7 ∷ index.0 ∷ [])) }
    ensures ok_count { OnOk result (K.faults out.new ≡ K.faults out.old) }
    ensures err { OnErr result (AddsFront (7 ∷ index.0 ∷ []) (K.held out.old) (K.held out.new)) }
    ensures err_count { OnErr result (Rose (K.faults out.old) (K.faults out.new)) }
{
    write_pieces(out, &[&[7, index.0]])
}

/// Writes the spelling of an event in this form. After `Failed` the sink took a front of it. Takes no memory.
#[tactic(auto, unfolding(crate::specs::Spelling::event))]
pub fn write_event<K: Sink>(form: Form, out: &mut K, e: &Event) -> Result<(), WriteError>
    requires { FitsEvent form e.now }
    ensures ok { OnOk result (K.held out.new ≡ after_adding (K.held out.old) (event form e.now)) }
    ensures ok_count { OnOk result (K.faults out.new ≡ K.faults out.old) }
    ensures err { OnErr result (AddsFront (event form e.now) (K.held out.old) (K.held out.new)) }
    ensures err_count { OnErr result (Rose (K.faults out.old) (K.faults out.new)) }
{
    match e {
        Event::Connect(conn) => write_connection(out, 1, *conn),
        Event::Bytes(conn, bytes) => write_bytes(form, out, 2, *conn, bytes.as_slice()),
        Event::Close(conn) => write_connection(out, 3, *conn),
        Event::Cut(conn) => write_connection(out, 4, *conn),
        Event::Turn { sink, frames, take } => write_turn(form, out, *sink, *frames, *take),
        Event::Collect { sink, take } => write_collect(form, out, *sink, *take),
        Event::Stop(sink) => write_stop(out, *sink),
    }
}

// Writes that the server has ended a connection.
#[tactic(auto, unfolding(crate::specs::Output::closed_record))]
fn write_closed<K: Sink>(
    out: &mut K,
    conn: ConnId,
    reason: u8,
    fault: u8,
    at: u64,
) -> Result<(), WriteError>
    ensures ok { OnOk result (K.held out.new ≡ after_adding (K.held out.old) (closed_record conn.0 reason fault at)) }
    ensures ok_count { OnOk result (K.faults out.new ≡ K.faults out.old) }
    ensures err { OnErr result (AddsFront (closed_record conn.0 reason fault at) (K.held out.old) (K.held out.new)) }
    ensures err_count { OnErr result (Rose (K.faults out.old) (K.faults out.new)) }
{
    write_pieces(
        out,
        &[
            &[2],
            &conn.0.to_be_bytes(),
            &[reason, fault],
            &at.to_be_bytes(),
        ],
    )
}

// Writes that a sink's device has consumed frames with these bytes.
fn write_played<K: Sink>(
    out: &mut K,
    index: u8,
    frames: u32,
    bytes: &[u8],
) -> Result<(), WriteError>
    ensures ok { OnOk result (K.held out.new ≡ after_adding (K.held out.old) (3 ∷ index ∷ word frames ++ bytes.now)) }
    ensures ok_count { OnOk result (K.faults out.new ≡ K.faults out.old) }
    ensures err { OnErr result (AddsFront (3 ∷ index ∷ word frames ++ bytes.now) (K.held out.old) (K.held out.new)) }
    ensures err_count { OnErr result (Rose (K.faults out.old) (K.faults out.new)) }
{
    write_pieces(out, &[&[3, index], &frames.to_be_bytes(), bytes])
}

// Writes that a sink has stopped.
#[tactic(auto, unfolding(crate::specs::Output::stopped_record))]
fn write_stopped<K: Sink>(out: &mut K, index: u8, filled: u64) -> Result<(), WriteError>
    ensures ok { OnOk result (K.held out.new ≡ after_adding (K.held out.old) (stopped_record index filled)) }
    ensures ok_count { OnOk result (K.faults out.new ≡ K.faults out.old) }
    ensures err { OnErr result (AddsFront (stopped_record index filled) (K.held out.old) (K.held out.new)) }
    ensures err_count { OnErr result (Rose (K.faults out.old) (K.faults out.new)) }
{
    write_pieces(out, &[&[4, index], &filled.to_be_bytes()])
}

/// Writes the spelling of an output record. After `Failed` the sink took a front of it. Takes no memory.
#[tactic(auto, unfolding(crate::specs::Output::sent_record, crate::specs::Output::played_record))]
pub fn write_effect<K: Sink>(out: &mut K, effect: &OutRecord) -> Result<(), WriteError>
    requires { FitsRecord effect.now }
    ensures ok { OnOk result (K.held out.new ≡ after_adding (K.held out.old) (record_of effect.now)) }
    ensures ok_count { OnOk result (K.faults out.new ≡ K.faults out.old) }
    ensures err { OnErr result (AddsFront (record_of effect.now) (K.held out.old) (K.held out.new)) }
    ensures err_count { OnErr result (Rose (K.faults out.old) (K.faults out.new)) }
{
    match effect {
        OutRecord::Sent { conn, bytes } => write_bytes(Form::One, out, 1, *conn, bytes),
        OutRecord::Closed {
            conn,
            reason,
            fault,
            at,
        } => write_closed(out, *conn, *reason, *fault, *at),
        OutRecord::Played {
            sink,
            frames,
            bytes,
        } => write_played(out, *sink, *frames, bytes),
        OutRecord::Stopped { sink, filled } => write_stopped(out, *sink, *filled),
    }
}

/// Writes the byte that ends a session, and an output. After `Failed` the sink took nothing. Takes no memory.
pub fn write_end<K: Sink>(out: &mut K) -> Result<(), WriteError>
    ensures ok { OnOk result (K.held out.new ≡ after_adding (K.held out.old) (end_byte ∷ [])) }
    ensures ok_count { OnOk result (K.faults out.new ≡ K.faults out.old) }
    ensures err { OnErr result (AddsFront (end_byte ∷ []) (K.held out.old) (K.held out.new)) }
    ensures err_count { OnErr result (Rose (K.faults out.old) (K.faults out.new)) }
{
    write_all(out, &[END])?;
    Ok(())
}
