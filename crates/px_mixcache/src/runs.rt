// Loops over the runs of all channels.
ghost use Rattle.std.specs.Prelude.{◌≡◌, ℕ, ◌+◌, ◌*◌, ◌≤◌, ◌<◌, length, slice_index, IfOk, [], replicate};
ghost use Rattle.px_mixcache.specs.Run.{AreValues, RunChanges};
ghost use Rattle.px_mixcache.specs.Cache.{run_at, run_of, run_advanced, run_extended};

use crate::run::Run;
use px_kernel::Steps;
use px_types::{Mem, NoMemory};
use std::alloc::Global;
use std::sync::ledger::Ledger;

/// Empty runs for `channels` channels, with room for `depth` frames each. Takes that room.
pub(crate) fn empty_runs(alloc: Global, channels: u8, depth: u32) -> Mem<Vec<Run>>
    ensures { IfOk result (λ runs. runs.items ≡ replicate channels (record { depth = depth; sums = [] })) }
{
    let mut runs = Vec::with_capacity(alloc, channels as usize)?;
    for _ in 0..channels {
        runs.push(Run::new(alloc, depth)?)?;
    }
    Ok(runs)
}

/// Drops the first `frames` frames of each.
pub(crate) fn advance_all(runs: &mut [Run], frames: usize)
    requires { (c : ℕ) → c < length runs.old → frames ≤ length (run_at runs.old c).sums }
    ensures long { length runs.new ≡ length runs.old }
    ensures runs { (c : ℕ) → c < length runs.old → run_at runs.new c ≡ run_advanced frames (run_at runs.old c) }
{
    for c in 0..runs.len() {
        runs[c].advance(frames);
    }
}

/// Extends each to `to` frames with silence.
pub(crate) fn extend_all(runs: &mut [Run], to: usize)
    requires more { (c : ℕ) → c < length runs.old → length (run_at runs.old c).sums ≤ to }
    requires fits { (c : ℕ) → c < length runs.old → to ≤ (run_at runs.old c).depth }
    ensures long { length runs.new ≡ length runs.old }
    ensures runs { (c : ℕ) → c < length runs.old → run_at runs.new c ≡ run_extended to (run_at runs.old c) }
{
    for c in 0..runs.len() {
        runs[c].extend(to);
    }
}

/// Adds the values of each channel, `len` of each, times its factor, or subtracts them.
pub(crate) fn change_all<T: Ledger>(
    runs: &mut [Run],
    from: usize,
    len: usize,
    values: &[i32],
    factors: &[u32],
    add: bool,
    steps: &mut Steps<T>,
)
    requires whole { length values.now ≡ length runs.old * len }
    requires factors { length factors.now ≡ length runs.old }
    requires inside { (c : ℕ) → c < length runs.old → from + len ≤ length (run_at runs.old c).sums }
    requires values { (c : ℕ) → c < length runs.old → AreValues add (run_at runs.old c).sums from (run_of len values.now c) (slice_index factors.now c) }
    ensures long { length runs.new ≡ length runs.old }
    ensures deep { (c : ℕ) → c < length runs.old → (run_at runs.new c).depth ≡ (run_at runs.old c).depth }
    ensures sums { (c : ℕ) → c < length runs.old → RunChanges add (run_at runs.old c).sums from (run_of len values.now c) (slice_index factors.now c) (run_at runs.new c).sums }
    ensures ticks { steps.new ≡ steps.old + length values.now }
{
    for c in 0..runs.len() {
        let at = c * len;
        runs[c].change(from, &values[at..at + len], factors[c], add, steps);
    }
}
