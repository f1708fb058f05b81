// The text of a list of sink inputs.

ghost use Rattle.std.specs.Prelude.{◌≡◌, ◌++◌, decimal, fold, IfOk, OnOk};
ghost use Rattle.px_client.specs.Listing.{with_next, with_volumes, mute_text, with_line, listing};

use crate::inputs::{Input, Inputs};
use px_types::{Mem, Text};
use std::alloc::Global;

// Appends a number in decimal digits.
fn add_number(alloc: Global, text: &mut Text, number: u32) -> Mem<()>
    ensures { OnOk result (text.new ≡ text.old ++ decimal number) }
{
    let digits = format!(in alloc; "{number}")?;
    text.extend(digits.as_bytes())
}

// Appends a comma and a number.
fn add_next(alloc: Global, text: &mut Text, number: u32) -> Mem<()>
    ensures { OnOk result (text.new ≡ with_next text.old number) }
{
    text.extend(b",")?;
    add_number(alloc, text, number)
}

// Appends a comma and a number for each.
fn add_others(alloc: Global, text: &mut Text, numbers: &[u32]) -> Mem<()>
    ensures { OnOk result (text.new ≡ fold with_next text.old numbers.now) }
{
    for number in numbers {
        add_next(alloc, text, *number)?;
    }
    Ok(())
}

// Appends numbers with commas between them.
fn add_volumes(alloc: Global, text: &mut Text, volumes: &[u32]) -> Mem<()>
    ensures { OnOk result (text.new ≡ with_volumes text.old volumes.now) }
{
    match volumes {
        [] => Ok(()),
        [first, others @ ..] => {
            add_number(alloc, text, *first)?;
            add_others(alloc, text, others)
        }
    }
}

// Appends whether an input is muted.
fn add_mute(text: &mut Text, mute: bool) -> Mem<()>
    ensures { OnOk result (text.new ≡ text.old ++ mute_text mute) }
{
    if mute {
        text.extend(b" mute yes\n")
    } else {
        text.extend(b" mute no\n")
    }
}

// Appends the line of an input.
fn add_line(alloc: Global, text: &mut Text, input: &Input) -> Mem<()>
    ensures { OnOk result (text.new ≡ with_line text.old input.now) }
{
    text.extend(b"input ")?;
    add_number(alloc, text, input.index)?;
    text.extend(b" sink ")?;
    add_number(alloc, text, input.sink)?;
    text.extend(b" volume ")?;
    add_volumes(alloc, text, input.volume.as_slice())?;
    add_mute(text, input.mute)
}

// Appends the lines of inputs.
fn add_lines(alloc: Global, text: &mut Text, inputs: &[Input]) -> Mem<()>
    ensures { OnOk result (text.new ≡ fold with_line text.old inputs.now) }
{
    for input in inputs {
        add_line(alloc, text, input)?;
    }
    Ok(())
}

/// The lines of the inputs, in order.
pub(crate) fn listing(alloc: Global, inputs: &Inputs) -> Mem<Text>
    ensures { IfOk result (λ text. text ≡ listing inputs.now) }
{
    let mut text = Text::from_vec(Vec::new(alloc));
    add_lines(alloc, &mut text, inputs.as_slice())?;
    Ok(text)
}
