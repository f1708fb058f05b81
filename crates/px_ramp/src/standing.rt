// How long ramps run.
ghost use Rattle.std.specs.Prelude.{◌≡◌, ◌≤◌, ◌<◌, ◌+◌, ℕ};
ghost use Rattle.std.specs.List.{AllByRecursion};
ghost use Rattle.px_lane.specs.Inputs.{input_of, inputs_of};
ghost use Rattle.px_ramp.specs.RampMix.{StandAt};

use crate::table::RampTable;
use px_lane::Input;

// How many of the `most` frames from `at` on the ramps of an input, if it has any, may be on their way to the factors of its stream.
fn input_running(table: &RampTable, input: &Input, frames: u32, at: u64, most: u32) -> u32
    requires { 1 ≤ frames }
    ensures few { result ≤ most }
    ensures stands { (f : ℕ) → at + result ≤ f → f < at + most → StandAt frames f table.now.ramps (input_of input.now) }
{
    match table.get(input.index.0) {
        Some(ramps) => ramps.running(frames, at, input.stream.factors(), most),
        None => 0,
    }
}

/// How many of the `most` frames from `at` on the ramps of any input may be on their way to the factors of its stream: all are there after them. Takes
/// no memory.
pub(crate) fn running(table: &RampTable, inputs: &[Input], frames: u32, at: u64, most: u32) -> u32
    requires { 1 ≤ frames }
    ensures few { result ≤ most }
    ensures stands { (f : ℕ) → at + result ≤ f → f < at + most → AllByRecursion (StandAt frames f table.now.ramps) (inputs_of inputs.now) }
{
    let mut running: u32 = 0;
    for input in inputs {
        running = running.max(input_running(table, input, frames, at, most));
    }
    running
}
