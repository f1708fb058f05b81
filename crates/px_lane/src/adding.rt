// New frames added to the kept sums of a sink.
ghost use Rattle.std.specs.Prelude.{◌≡◌, ℕ, ◌+◌, ◌-◌, ◌*◌, ◌<◌, ◌≤◌, length, pos};
ghost use Rattle.px_msg.specs.View.{sample_spec};
ghost use Rattle.px_mixcache.specs.Cache.{kept_at};
ghost use Rattle.px_kept_mix.specs.Keeping.{IsKept, IsAsLarge};
ghost use Rattle.px_stream.specs.Samples.{samples};
ghost use Rattle.px_kept_mix.specs.Kept.{AreKept};
ghost use Rattle.px_lane.specs.Inputs.{inputs_of};
ghost use Rattle.px_lane.specs.Mixed.{CanMix};

use crate::input::Input;
use px_kept_mix::KeptMix;
use px_kernel::Steps;
use px_sample::Spec;
use std::sync::ledger::Ledger;

/// Adds each input's frames to the sums from frame `from` on, where they are still 0. Takes no memory.
pub(crate) fn add_each<T: Ledger>(
    sink: &Spec,
    inputs: &[Input],
    from: u32,
    kept: &mut KeptMix,
    steps: &mut Steps<T>,
)
    requires mixes { CanMix sink.now.channels (inputs_of inputs.now) }
    requires channels { length kept.old.runs ≡ sink.now.channels }
    requires from { from ≤ kept.old.frames }
    requires before { AreKept samples (sample_spec sink.now) from (inputs_of inputs.now) (kept_at kept.old) }
    requires nothing { (c k : ℕ) → c < sink.now.channels → from ≤ k → k < kept.old.frames → kept_at kept.old c k ≡ pos 0 }
    ensures large { IsAsLarge kept.old kept.new }
    ensures kept { IsKept sink.now (inputs_of inputs.now) kept.new }
    ensures ticks { steps.new ≤ steps.old + length inputs.now * (2 * (sink.now.channels * (kept.old.frames - from))) }
{
    for input in inputs {
        kept.change(sink, &input.stream, from, true, steps);
    }
}
