//! What the scripts of bench/ time. Words: the work (`sound`, `mix`, `frame`, `wire`, `session`, `core`, `volumes` or `queue`), the number of rounds,
//! and for `frame` the bytes of a piece, for `sound` and `mix` the code of a format; for `core` and `volumes` the number of inputs, then of rounds,
//! and of subscribed clients; for `queue` the number of turns, the frames of a write, and of those that wait. `wire` reads a packet from standard
//! input. It prints a line on what it did, so that no work is left out and a plain program can be compared. Without words each is done once.
#![tactic(auto)]

mod data;
mod frame;
mod mix;
mod queue;
mod session;
mod sound;
mod volumes;
mod wire;

use data::core_line;
use frame::frame_line;
use mix::mix_line;
use px_types::{Mem, NoMemory};
use queue::queue_line;
use session::session_line;
use sound::sound_line;
use std::alloc::Global;
use std::io::Read;
use std::{env, io};
use volumes::volumes_line;
use wire::wire_line;

// The work to be done.
#[derive(Clone, Copy)]
enum Work {
    Sound,
    Mix,
    Frame,
    Wire,
    Session,
    Core,
    Volumes,
    Queue,
}

const ALL: [Work; 8] = [
    Work::Sound,
    Work::Mix,
    Work::Frame,
    Work::Wire,
    Work::Session,
    Work::Core,
    Work::Volumes,
    Work::Queue,
];

fn work_of(word: &str) -> Option<Work> {
    match word {
        "sound" => Some(Work::Sound),
        "mix" => Some(Work::Mix),
        "frame" => Some(Work::Frame),
        "wire" => Some(Work::Wire),
        "session" => Some(Work::Session),
        "core" => Some(Work::Core),
        "volumes" => Some(Work::Volumes),
        "queue" => Some(Work::Queue),
        _ => None,
    }
}

// The line of a work that is done with these counts.
fn line(alloc: Global, work: Work, counts: [Option<u32>; 3], packet: &[u8]) -> Mem<String> {
    let [first, second, third] = counts;
    let first = first.unwrap_or(1);
    match work {
        Work::Sound => sound_line(alloc, first, second.unwrap_or(3)),
        Work::Mix => mix_line(alloc, first, second.unwrap_or(3)),
        Work::Frame => frame_line(alloc, first, second.unwrap_or(4_096)),
        Work::Wire => wire_line(alloc, first, packet),
        Work::Session => session_line(alloc, first),
        Work::Core => core_line(alloc, first, second.unwrap_or(1), third.unwrap_or(0)),
        Work::Volumes => volumes_line(alloc, first, second.unwrap_or(1), third.unwrap_or(0)),
        Work::Queue => queue_line(alloc, first, second.unwrap_or(480), third.unwrap_or(96_000)),
    }
}

fn print(rt: &HostRuntime, line: Mem<String>) -> io::Result<()> {
    match line {
        Ok(line) => println!(rt; "{line}"),
        Err(NoMemory) => Err(io::Error::from(io::ErrorKind::OutOfMemory)),
    }
}

// Prints the lines of all works, each done once or by the counts given.
fn print_all(rt: &HostRuntime, counts: [Option<u32>; 3], packet: &[u8]) -> io::Result<()> {
    for work in ALL {
        print(rt, line(rt.alloc(), work, counts, packet))?;
    }
    Ok(())
}

fn main(rt: HostRuntime) -> io::Result<()> {
    let alloc = rt.alloc();
    let mut words = env::args(&rt)?.skip(1);
    let work = words.next().map_or(None, |word| work_of(word.as_str()));
    let mut counts = [None; 3];
    for count in &mut counts {
        *count = words.next().map_or(None, |word| word.as_str().parse().ok());
    }
    let mut packet = Vec::new(alloc);
    rt.stdin().read_to_end(&mut packet)?;
    match work {
        Some(work) => print(&rt, line(alloc, work, counts, &packet)),
        None => print_all(&rt, counts, &packet),
    }
}
