//! The lines of a summary.

ghost use Rattle.std.specs.Prelude.{◌≡◌, ◌++◌, IfOk, OnOk, string_bytes};
ghost use Rattle.px_app.specs.Summary.{tally_lines, sink_line, sink_lines};

use crate::tally::Tally;
use px_header::SinkSpec;
use px_types::{Mem, Text};
use px_world::World;
use std::alloc::{AllocError, Global};

fn tally_lines(alloc: Global, tally: Tally) -> Result<String, AllocError>
    ensures { IfOk result (λ lines. string_bytes lines ≡ tally_lines tally) }
{
    let events = tally.events;
    let sent = tally.sent;
    let closed = tally.closed;
    format!(in alloc; "events {events}\nsent {sent}\nclosed {closed}\n")
}

// Appends the line of a sink to a text.
fn add_line(alloc: Global, text: &mut Text, name: &[u8], consumed: u64, filled: u64) -> Mem<()>
    ensures { OnOk result (text.new ≡ text.old ++ sink_line name.now consumed filled) }
{
    let behind = format!(in alloc; " consumed {consumed} filled {filled}\n")?;
    text.extend(b"sink ")?;
    text.extend(name)?;
    text.extend(behind.as_bytes())
}

/// The summary of a run: its counts, and the frame counts of each sink.
pub(crate) fn summary(alloc: Global, tally: Tally, sinks: &[SinkSpec], world: &World) -> Mem<Text>
    ensures { IfOk result (λ text. text ≡ tally_lines tally ++ sink_lines 0 sinks.now world.now.mixers) }
{
    let lines = tally_lines(alloc, tally)?;
    let mut text = Text::copied(alloc, lines.as_bytes())?;
    for i in 0..sinks.len() {
        if let Some(frames) = world.frames(i) {
            let name = sinks[i].name.as_slice();
            add_line(alloc, &mut text, name, frames.consumed, frames.filled)?;
        }
    }
    Ok(text)
}
