// A step: one client's frame, and a turn of its sink.

ghost use Rattle.std.specs.Prelude.{◌≡◌, ◌≤◌, IfOk, OnOk};
ghost use Rattle.px_gen.specs.Client.{data_frame};
ghost use Rattle.px_gen.specs.Numbers.{samples, state_after};
ghost use Rattle.px_gen.specs.Generator.{samples_of, said, state_said, step_events, step_state};

use crate::client::{cork, data, map_of, sink_of, volume};
use crate::numbers::Numbers;
use px_session::Event;
use px_types::{ConnId, Mem, Text};
use std::alloc::Global;

// The frames of a write, and of a turn.
const FRAMES: u32 = 64;

// Samples for a connection's stream.
fn play(alloc: Global, conn: u32, numbers: &mut Numbers) -> Mem<Text>
    ensures frame { IfOk result (λ frame. frame ≡ data_frame (samples (samples_of conn) numbers.old.state)) }
    ensures state { OnOk result (numbers.new.state ≡ state_after (samples_of conn) numbers.old.state) }
{
    let count = FRAMES * map_of(conn).len() as u32;
    let samples = numbers.samples(alloc, count)?;
    data(alloc, &samples)
}

// The frame that a client sends, by its choice.
#[tactic(auto, unfolding(crate::specs::Generator::said, crate::specs::Generator::state_said))]
fn said(alloc: Global, conn: u32, choice: u64, numbers: &mut Numbers) -> Mem<Text>
    requires { 1 ≤ conn }
    ensures frame { IfOk result (λ frame. frame ≡ said conn choice numbers.old.state) }
    ensures state { OnOk result (numbers.new.state ≡ state_said conn choice numbers.old.state) }
{
    if choice == 0 {
        volume(alloc, conn, (numbers.next() % 65_537) as u32)
    } else if choice == 1 {
        cork(alloc, numbers.next() % 4 == 0)
    } else {
        play(alloc, conn, numbers)
    }
}

/// The two events of the next step.
#[tactic(auto, unfolding(crate::specs::Generator::step_events, crate::specs::Generator::step_state))]
pub(crate) fn step(alloc: Global, numbers: &mut Numbers) -> Mem<[Event; 2]>
    ensures events { IfOk result (λ events. events ≡ step_events numbers.old.state) }
    ensures state { OnOk result (numbers.new.state ≡ step_state numbers.old.state) }
{
    let number = numbers.next();
    let conn = (1 + number % 4) as u32;
    let frame = said(alloc, conn, number / 4 % 8, numbers)?;
    Ok([
        Event::Bytes(ConnId(conn), frame),
        Event::Turn {
            sink: sink_of(conn),
            frames: u64::from(FRAMES),
            take: 1,
        },
    ])
}
