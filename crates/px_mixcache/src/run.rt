// The kept sums of one channel.
ghost use Rattle.std.specs.Prelude.{◌≡◌, ℕ, ◌+◌, ◌-◌, ◌≤◌, ◌<◌, ◌++◌, [], pos, replicate, drop, length, FitsSigned, IfOk};
ghost use Rattle.std.specs.Int.{w32, w64};
ghost use Rattle.px_kernel.specs.Kernel.{at, changed, scaled};
ghost use Rattle.px_mixcache.specs.Run.{RunChanges, AreWords, AreValues};

use px_kernel::{Steps, add_scaled, sub_scaled};
use px_types::{Mem, NoMemory};
use std::alloc::Global;
use std::marker::Model;
use std::sync::ledger::Ledger;

/// The sums of a channel, frame by frame. They follow the sums of dropped frames in memory, with room for a full depth of these, so that a
/// sum is moved only once per full depth of dropped frames.
#[derive(Debug, Drop)]
pub(crate) struct Run {
    sums: Vec<i64>,
    gone: usize,
    depth: usize,
}

impl Model for Run {
    ghost use Rattle.std.specs.Prelude.{◌≤◌, ◌+◌, ◌*◌, drop, length, vec_capacity};
    ghost use Rattle.px_mixcache.specs.Run.{KeptRun, AreWords};

    ghost Value = { KeptRun };

    ghost view = { λ r. record { depth = r.depth; sums = drop r.gone r.sums.items } };

    ghost invariant = { λ r. (r.gone ≤ r.depth) × (r.gone ≤ length r.sums.items) × (length r.sums.items ≤ r.gone + r.depth) × (2 * r.depth ≤ vec_capacity r.sums) × AreWords (drop r.gone r.sums.items) };
}

// Adds the values times `factor` to the sums from place `from` on, or subtracts them.
fn change_sums<T: Ledger>(
    sums: &mut [i64],
    from: usize,
    values: &[i32],
    factor: u32,
    add: bool,
    steps: &mut Steps<T>,
)
    requires inside { from + length values.now ≤ length sums.old }
    requires room { AreWords sums.old }
    requires values { AreValues add sums.old from values.now factor }
    ensures sums { RunChanges add sums.old from values.now factor sums.new }
    ensures room { AreWords sums.new }
    ensures ticks { steps.new ≡ steps.old + length values.now }
{
    let part = &mut sums[from..from + values.len()];
    if add {
        add_scaled(part, values, factor, steps);
    } else {
        sub_scaled(part, values, factor, steps);
    }
}

impl Run {
    /// An empty run with room for `depth` frames. Takes that room.
    pub(crate) fn new(alloc: Global, depth: u32) -> Mem<Run>
        ensures { IfOk result (λ r. r ≡ record { depth = depth; sums = [] }) }
    {
        Ok(Run {
            sums: Vec::with_capacity(alloc, 2 * depth as usize)?,
            gone: 0,
            depth: depth as usize,
        })
    }

    /// Drops the first `frames` frames.
    pub(crate) fn advance(&mut self, frames: usize)
        requires { frames ≤ length self.old.sums }
        ensures { self.new ≡ record self.old { sums = drop frames self.old.sums } }
    {
        self.gone += frames;
        if self.gone > self.depth {
            let left = self.sums.len() - self.gone;
            self.sums.copy_within(self.gone.., 0);
            self.sums.truncate(left);
            self.gone = 0;
        }
    }

    /// Extends to `to` frames with silence.
    pub(crate) fn extend(&mut self, to: usize)
        requires more { length self.old.sums ≤ to }
        requires fits { to ≤ self.old.depth }
        ensures { self.new ≡ record self.old { sums = self.old.sums ++ replicate (to - length self.old.sums) (pos 0) } }
    {
        self.sums.resize(self.gone + to, 0).unwrap();
    }

    /// Adds the values times `factor` to the sums from frame `from` on, or subtracts them.
    pub(crate) fn change<T: Ledger>(
        &mut self,
        from: usize,
        values: &[i32],
        factor: u32,
        add: bool,
        steps: &mut Steps<T>,
    )
        requires inside { from + length values.now ≤ length self.old.sums }
        requires values { AreValues add self.old.sums from values.now factor }
        ensures depth { self.new.depth ≡ self.old.depth }
        ensures sums { RunChanges add self.old.sums from values.now factor self.new.sums }
        ensures ticks { steps.new ≡ steps.old + length values.now }
    {
        change_sums(
            &mut self.sums.as_mut_slice()[self.gone..],
            from,
            values,
            factor,
            add,
            steps,
        );
    }

    /// The sums.
    pub(crate) fn sums(&self) -> &[i64]
        ensures sums { result.now ≡ self.now.sums }
        ensures fit { AreWords self.now.sums }
    {
        &self.sums.as_slice()[self.gone..]
    }
}
