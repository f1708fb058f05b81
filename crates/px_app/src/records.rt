//! What is shown of an event.

ghost use Rattle.std.specs.Prelude.{◌≡◌, ◌++◌, OnOk, OnErr};
ghost use Rattle.std.specs.List.{flat_map};
ghost use Rattle.px_ends.specs.Visible.{after_adding};
ghost use Rattle.px_ends.specs.Whole.{AddsFront};
ghost use Rattle.px_state.specs.Effect.{IsSendable, AreSendable};
ghost use Rattle.px_world.specs.Output.{effect_record};
ghost use Rattle.px_app.specs.Records.{turn_sink, turn_part, raw_part, shown_part, monitored_part};

use crate::view::Lens;
use px_core::Effect;
use px_ends::{Sink, write_all};
use px_monitor::MonitorOutcome;
use px_session::{Event, OutRecord, WriteError, write_effect};
use px_world::Outcome;

/// The sink of a turn.
pub(crate) fn turn_sink(e: &Event) -> Option<u8>
    ensures { result ≡ turn_sink e.now }
{
    match e {
        Event::Turn { sink, .. } => Some(*sink),
        _ => None,
    }
}

// Writes the record of an effect. A frame that a client was sent is short enough for its record.
fn write_effect_record<K: Sink>(output: &mut K, effect: &Effect) -> Result<(), WriteError>
    requires { IsSendable effect.now }
    ensures ok { OnOk result (K.held output.new ≡ after_adding (K.held output.old) (effect_record effect.now)) }
    ensures err { OnErr result (AddsFront (effect_record effect.now) (K.held output.old) (K.held output.new)) }
{
    match effect {
        Effect::Sent { conn, packet } => {
            let bytes = packet.bytes();
            write_effect(output, &OutRecord::Sent { conn: *conn, bytes })
        }
        Effect::Closed {
            conn,
            reason,
            fault,
            at,
        } => write_effect(
            output,
            &OutRecord::Closed {
                conn: *conn,
                reason: reason.code(),
                fault: *fault,
                at: *at,
            },
        ),
    }
}

fn write_effects<K: Sink>(output: &mut K, effects: &[Effect]) -> Result<(), WriteError>
    requires { AreSendable effects.now }
    ensures ok { OnOk result (K.held output.new ≡ after_adding (K.held output.old) (flat_map effect_record effects.now)) }
    ensures err { OnErr result (AddsFront (flat_map effect_record effects.now) (K.held output.old) (K.held output.new)) }
{
    for effect in effects {
        write_effect_record(output, effect)?;
    }
    Ok(())
}

// Writes the record of a turn that stopped its sink, whose filled count is `stopped`; else of the frames that its device consumed, if there are any.
fn write_turn<K: Sink>(
    output: &mut K,
    sink: Option<u8>,
    stopped: Option<u64>,
    frames: u32,
    bytes: &[u8],
) -> Result<(), WriteError>
    ensures ok { OnOk result (K.held output.new ≡ after_adding (K.held output.old) (turn_part sink stopped frames bytes.now)) }
    ensures err { OnErr result (AddsFront (turn_part sink stopped frames bytes.now) (K.held output.old) (K.held output.new)) }
{
    match (sink, stopped) {
        (Some(sink), Some(filled)) => write_effect(output, &OutRecord::Stopped { sink, filled }),
        (Some(sink), None) if frames > 0 => write_effect(
            output,
            &OutRecord::Played {
                sink,
                frames,
                bytes,
            },
        ),
        _ => Ok(()),
    }
}

// Writes the records of what an event did.
fn write_records<K: Sink>(
    output: &mut K,
    sink: Option<u8>,
    outcome: &Outcome,
) -> Result<(), WriteError>
    ensures ok { OnOk result (K.held output.new ≡ after_adding (K.held output.old)
        (flat_map effect_record outcome.now.effects ++ turn_part sink outcome.now.stopped outcome.now.frames outcome.now.played)) }
    ensures err { OnErr result (AddsFront
        (flat_map effect_record outcome.now.effects ++ turn_part sink outcome.now.stopped outcome.now.frames outcome.now.played) (K.held output.old) (K.held output.new)) }
{
    write_effects(output, outcome.effects.as_slice())?;
    write_turn(
        output,
        sink,
        outcome.stopped,
        outcome.frames,
        outcome.played.as_slice(),
    )
}

/// Writes the records of what an event did in a world with monitors: of its effects, of a turn, whose sink is `sink`, and then of what
/// record streams are sent. Takes no memory.
pub(crate) fn write_monitored<K: Sink>(
    output: &mut K,
    sink: Option<u8>,
    outcome: &MonitorOutcome,
) -> Result<(), WriteError>
    ensures ok { OnOk result (K.held output.new ≡ after_adding (K.held output.old)
        (monitored_part sink outcome.now.effects outcome.now.stopped outcome.now.frames outcome.now.played outcome.now.sent)) }
    ensures err { OnErr result (AddsFront
        (monitored_part sink outcome.now.effects outcome.now.stopped outcome.now.frames outcome.now.played outcome.now.sent) (K.held output.old) (K.held output.new)) }
{
    write_effects(output, outcome.effects.as_slice())?;
    write_turn(
        output,
        sink,
        outcome.stopped,
        outcome.frames,
        outcome.played.as_slice(),
    )?;
    write_effects(output, outcome.sent.as_slice())
}

// Writes the bytes that a turn of sink `of` consumed.
fn write_raw<K: Sink>(
    output: &mut K,
    sink: Option<u8>,
    of: usize,
    bytes: &[u8],
) -> Result<(), WriteError>
    ensures ok { OnOk result (K.held output.new ≡ after_adding (K.held output.old) (raw_part sink of bytes.now)) }
    ensures err { OnErr result (AddsFront (raw_part sink of bytes.now) (K.held output.old) (K.held output.new)) }
{
    match sink {
        Some(sink) if sink as usize == of => {
            write_all(output, bytes)?;
            Ok(())
        }
        _ => Ok(()),
    }
}

/// Writes what is shown of an event with this outcome; of a turn, `sink` is its sink. Takes no memory.
pub(crate) fn write_outcome<K: Sink>(
    output: &mut K,
    lens: Lens,
    sink: Option<u8>,
    outcome: &Outcome,
) -> Result<(), WriteError>
    ensures ok { OnOk result (K.held output.new ≡ after_adding (K.held output.old)
        (shown_part lens sink outcome.now.effects outcome.now.stopped outcome.now.frames outcome.now.played)) }
    ensures err { OnErr result (AddsFront
        (shown_part lens sink outcome.now.effects outcome.now.stopped outcome.now.frames outcome.now.played) (K.held output.old) (K.held output.new)) }
{
    match lens {
        Lens::Records => write_records(output, sink, outcome),
        Lens::Raw(of) => write_raw(output, sink, of, outcome.played.as_slice()),
        Lens::Summary => Ok(()),
    }
}
