// The errand that words give.
ghost use Rattle.std.specs.Prelude.{◌≡◌, IfOk, map, string_bytes};
ghost use Rattle.px_ctl.specs.Words.{of_one, of_two, of_three, errand_in, volume_of, mute_of, sink_volume_of, move_of, switch_in};

use crate::digits::number_of_32_bits;
use px_client::Errand;
use px_types::{Mem, Text};
use std::alloc::Global;

fn one(word: &str) -> Option<Errand>
    ensures { result ≡ of_one word.now }
{
    if word == "list" {
        Some(Errand::List)
    } else {
        None
    }
}

fn two(first: &str, second: &str) -> Option<Errand>
    ensures { result ≡ of_two first.now second.now }
{
    if first == "kill" {
        number_of_32_bits(second).map(Errand::Kill)
    } else {
        None
    }
}

fn switch(word: &str) -> Option<bool>
    ensures { result ≡ switch_in word.now }
{
    if word == "on" {
        Some(true)
    } else if word == "off" {
        Some(false)
    } else {
        None
    }
}

fn volume(input: Option<u32>, value: Option<u32>) -> Option<Errand>
    ensures { result ≡ volume_of input value }
{
    Some(Errand::Volume(input?, value?))
}

fn mute(input: Option<u32>, on: Option<bool>) -> Option<Errand>
    ensures { result ≡ mute_of input on }
{
    Some(Errand::Mute(input?, on?))
}

fn sink_volume(alloc: Global, name: &str, value: Option<u32>) -> Mem<Option<Errand>>
    ensures { IfOk result (λ errand. errand ≡ sink_volume_of name.now value) }
{
    let Some(value) = value else {
        return Ok(None);
    };
    let name = Text::copied(alloc, name.as_bytes())?;
    Ok(Some(Errand::SinkVolume(name, value)))
}

fn move_input(alloc: Global, input: Option<u32>, name: &str) -> Mem<Option<Errand>>
    ensures { IfOk result (λ errand. errand ≡ move_of input name.now) }
{
    let Some(input) = input else {
        return Ok(None);
    };
    let name = Text::copied(alloc, name.as_bytes())?;
    Ok(Some(Errand::Move(input, name)))
}

fn three(alloc: Global, first: &str, second: &str, third: &str) -> Mem<Option<Errand>>
    ensures { IfOk result (λ errand. errand ≡ of_three first.now second.now third.now) }
{
    if first == "volume" {
        Ok(volume(number_of_32_bits(second), number_of_32_bits(third)))
    } else if first == "mute" {
        Ok(mute(number_of_32_bits(second), switch(third)))
    } else if first == "sink-volume" {
        sink_volume(alloc, second, number_of_32_bits(third))
    } else if first == "move" {
        move_input(alloc, number_of_32_bits(second), third)
    } else {
        Ok(None)
    }
}

/// The errand that these words give, with any name and volume, or `None` where they give none. Takes memory for a name.
pub(crate) fn errand(alloc: Global, words: &[String]) -> Mem<Option<Errand>>
    ensures { IfOk result (λ errand. errand ≡ errand_in (map string_bytes words.now)) }
{
    match words {
        [word] => Ok(one(word.as_str())),
        [first, second] => Ok(two(first.as_str(), second.as_str())),
        [first, second, third] => three(alloc, first.as_str(), second.as_str(), third.as_str()),
        _ => Ok(None),
    }
}
