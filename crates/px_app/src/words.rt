//! What the words of the command line mean.

ghost use Rattle.std.specs.Prelude.{◌≡◌, map, option_map, string_bytes, IfSome};
ghost use Rattle.px_app.specs.Words.{gen_of, ramp_of, of_one, of_two, of_three, meaning_in, meaning_of, HasRamp};

use crate::view::View;
use px_ctl::number;

/// The greatest count of steps of a generated session.
const MOST_STEPS: u64 = 1_000_000;

/// The greatest count of frames that a ramp takes.
const LONGEST_RAMP: u64 = 65_536;

/// What the words of the command line mean.
#[derive(Clone, Copy, Debug)]
pub(crate) enum Words<'a> {
    /// A session is replayed.
    Replay(View<'a>),
    /// A session is replayed in a world with monitors.
    Monitor,
    /// A session is replayed in a world with a sample cache.
    Samples,
    /// A session is replayed in a world where volumes change by ramps over this many frames, 1 to 65,536.
    Ramp(u32),
    /// A session is converted.
    Convert,
    /// A session is generated.
    Gen { number: u64, count: u32 },
}

fn one(word: &str) -> Option<Words<'_>>
    ensures value { option_map meaning_of result ≡ of_one word.now }
    ensures ramp { IfSome result HasRamp }
{
    if word == "replay" {
        Some(Words::Replay(View::Records))
    } else if word == "summary" {
        Some(Words::Replay(View::Summary))
    } else if word == "convert" {
        Some(Words::Convert)
    } else {
        None
    }
}

fn two(first: &str, second: &str) -> Option<Words<'static>>
    ensures value { option_map meaning_of result ≡ of_two first.now second.now }
    ensures ramp { IfSome result HasRamp }
{
    if first == "replay" && second == "--monitor" {
        Some(Words::Monitor)
    } else if first == "replay" && second == "--samples" {
        Some(Words::Samples)
    } else {
        None
    }
}

fn generating(number: Option<u64>, count: Option<u64>) -> Option<Words<'static>>
    ensures value { option_map meaning_of result ≡ gen_of number count }
    ensures ramp { IfSome result HasRamp }
{
    match (number, count) {
        (Some(number), Some(count)) if count <= MOST_STEPS => Some(Words::Gen {
            number,
            count: count as u32,
        }),
        _ => None,
    }
}

fn ramping(frames: Option<u64>) -> Option<Words<'static>>
    ensures value { option_map meaning_of result ≡ ramp_of frames }
    ensures ramp { IfSome result HasRamp }
{
    match frames {
        Some(frames) if 1 <= frames && frames <= LONGEST_RAMP => Some(Words::Ramp(frames as u32)),
        _ => None,
    }
}

fn three<'a>(first: &str, second: &str, third: &'a str) -> Option<Words<'a>>
    ensures value { option_map meaning_of result ≡ of_three first.now second.now third.now }
    ensures ramp { IfSome result HasRamp }
{
    if first == "replay" && second == "--raw" {
        Some(Words::Replay(View::Raw(third)))
    } else if first == "replay" && second == "--ramp" {
        ramping(number(third.as_bytes()))
    } else if first == "gen" {
        generating(number(second.as_bytes()), number(third.as_bytes()))
    } else {
        None
    }
}

/// The meaning of the words, or `None` where they have none. Takes no memory.
pub(crate) fn meaning(words: &[String]) -> Option<Words<'_>>
    ensures value { option_map meaning_of result ≡ meaning_in (map string_bytes words.now) }
    ensures ramp { IfSome result HasRamp }
{
    match words {
        [word] => one(word.as_str()),
        [first, second] => two(first.as_str(), second.as_str()),
        [first, second, third] => three(first.as_str(), second.as_str(), third.as_str()),
        _ => None,
    }
}
