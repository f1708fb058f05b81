// A stream's shares of the sums of a mix, by factors that change from frame to frame.
ghost use Rattle.std.specs.Prelude.{◌≡◌, ℕ, ◌+◌, ◌*◌, ◌/◌, ◌^◌, ◌<◌, ◌≤◌, ◌+ℤ◌, length, All, FitsSigned, true};
ghost use Rattle.std.specs.Int.{w32};
ghost use Rattle.px_model.specs.Control.{with_factors};
ghost use Rattle.px_kernel.specs.Kernel.{changed};
ghost use Rattle.px_mixcache.specs.Cache.{kept_at, part_at};
ghost use Rattle.px_kept_mix.specs.Kept.{IsSumOf};
ghost use Rattle.px_kept_mix.specs.Keeping.{IsAsLarge, AreSmall, AreSmallFrom, share_in};
ghost use Rattle.px_ramp.specs.RampMix.{values_at};

use crate::ramps::Ramps;
use px_kept_mix::change_over;
use px_kernel::Steps;
use px_mixcache::MixCache;
use px_sample::Spec;
use px_stream::Stream;
use px_vol::Factors;
use std::sync::ledger::Ledger;

// Adds one frame of values, times the factors, to the sums of frame `at`.
fn put<T: Ledger>(
    cache: &mut MixCache,
    values: &[i32],
    factors: &Factors,
    numbers: &[u32],
    at: u32,
    steps: &mut Steps<T>,
)
    requires same { numbers.now ≡ factors.now }
    requires some { 1 ≤ length cache.old.runs }
    requires channels { length factors.now ≡ length cache.old.runs }
    requires size { length values.now ≡ length cache.old.runs }
    requires inside { at < cache.old.frames }
    requires words { All (FitsSigned w32) values.now }
    requires room { AreSmallFrom at 258 cache.old }
    ensures large { IsAsLarge cache.old cache.new }
    ensures sums { (c k : ℕ) → c < length cache.old.runs → k < cache.old.frames → kept_at cache.new c k ≡ changed true (kept_at cache.old c k) (part_at at 1 values.now factors.now c k) }
    ensures little { (c : ℕ) → c < length cache.old.runs → IsSumOf 1 (part_at at 1 values.now factors.now c at) }
{
    cache.change(at, values, factors, true, steps);
}

// Adds a stream's share of the frame `ahead` of its read index, by these factors, one for each channel, to the sums of that frame.
fn add_share<T: Ledger>(
    cache: &mut MixCache,
    values: &mut [i32],
    sink: &Spec,
    stream: &Stream,
    factors: &Factors,
    ahead: u32,
    steps: &mut Steps<T>,
)
    requires channels { length cache.old.runs ≡ sink.now.channels }
    requires some { 1 ≤ sink.now.channels }
    requires inside { ahead < cache.old.frames }
    requires near { cache.old.frames ≤ 65536 }
    requires fed { length stream.now.stream.feed ≡ sink.now.channels }
    requires factors { length factors.now ≡ sink.now.channels }
    requires size { length values.old ≡ sink.now.channels }
    requires words { All (FitsSigned w32) values.old }
    requires room { AreSmallFrom ahead 258 cache.old }
    ensures size { length values.new ≡ length values.old }
    ensures words { All (FitsSigned w32) values.new }
    ensures large { IsAsLarge cache.old cache.new }
    ensures sums { (c : ℕ) → c < sink.now.channels → kept_at cache.new c ahead ≡ kept_at cache.old c ahead +ℤ share_in sink.now (with_factors stream.now.stream factors.now) c ahead }
    ensures before { (c k : ℕ) → c < sink.now.channels → k < ahead → kept_at cache.new c k ≡ kept_at cache.old c k }
    ensures after { (c k : ℕ) → c < sink.now.channels → ahead < k → k < cache.old.frames → kept_at cache.new c k ≡ kept_at cache.old c k }
    ensures little { (c : ℕ) → c < sink.now.channels → IsSumOf 1 (share_in sink.now (with_factors stream.now.stream factors.now) c ahead) }
{
    let given = stream.frame_values(ahead, sink.format.width(), values, steps);
    if given == 0 {
        return;
    }
    put(cache, values, factors, factors.values(), ahead, steps);
}

// Adds a stream's shares of the next `count` frames to their sums, frame by frame, by the ramps of its input, which are at frame `horizon` for the first.
fn add_each<T: Ledger>(
    cache: &mut MixCache,
    values: &mut [i32],
    sink: &Spec,
    stream: &Stream,
    ramps: &Ramps,
    frames: u32,
    horizon: u64,
    count: u32,
    steps: &mut Steps<T>,
)
    requires ramp { 1 ≤ frames }
    requires channels { length cache.old.runs ≡ sink.now.channels }
    requires some { 1 ≤ sink.now.channels }
    requires whole { cache.old.frames ≡ count }
    requires near { count ≤ 65536 }
    requires countable { horizon ≤ 2 ^ 61 }
    requires fed { length stream.now.stream.feed ≡ sink.now.channels }
    requires wide { length ramps.now ≡ sink.now.channels }
    requires size { length values.old ≡ sink.now.channels }
    requires words { All (FitsSigned w32) values.old }
    requires room { AreSmall 258 cache.old }
    ensures size { length values.new ≡ length values.old }
    ensures words { All (FitsSigned w32) values.new }
    ensures large { IsAsLarge cache.old cache.new }
    ensures sums { (c k : ℕ) → c < sink.now.channels → k < count → kept_at cache.new c k ≡ kept_at cache.old c k +ℤ share_in sink.now (with_factors stream.now.stream (values_at frames (horizon + k) ramps.now)) c k }
    ensures little { (c k : ℕ) → c < sink.now.channels → k < count → IsSumOf 1 (share_in sink.now (with_factors stream.now.stream (values_at frames (horizon + k) ramps.now)) c k) }
{
    for k in 0..count {
        let factors = ramps.factors(frames, horizon + k as u64);
        add_share(cache, values, sink, stream, &factors, k, steps);
    }
}

/// Adds a stream's shares of the next `count` frames to their sums, by its own factors. `values` has room for those frames or more. Takes no memory.
pub(crate) fn add_flat<T: Ledger>(
    cache: &mut MixCache,
    values: &mut [i32],
    sink: &Spec,
    stream: &Stream,
    count: u32,
    steps: &mut Steps<T>,
)
    requires channels { length cache.old.runs ≡ sink.now.channels }
    requires some { 1 ≤ sink.now.channels }
    requires whole { cache.old.frames ≡ count }
    requires near { count ≤ 65536 }
    requires fed { length stream.now.stream.feed ≡ sink.now.channels }
    requires size { sink.now.channels * count ≤ length values.old }
    requires words { All (FitsSigned w32) values.old }
    requires room { AreSmall 258 cache.old }
    ensures size { length values.new ≡ length values.old }
    ensures words { All (FitsSigned w32) values.new }
    ensures large { IsAsLarge cache.old cache.new }
    ensures sums { (c k : ℕ) → c < sink.now.channels → k < count → kept_at cache.new c k ≡ kept_at cache.old c k +ℤ share_in sink.now stream.now.stream c k }
    ensures little { (c k : ℕ) → c < sink.now.channels → k < count → IsSumOf 1 (share_in sink.now stream.now.stream c k) }
{
    change_over(cache, values, count as usize, sink, stream, 0, true, steps);
}

/// Adds a stream's shares of the next `count` frames to their sums, by the ramps of its input, which are at frame `horizon` for the first: at once where
/// none of them runs. `values` has room for those frames or more. Takes no memory.
pub(crate) fn add_ramped<T: Ledger>(
    cache: &mut MixCache,
    values: &mut [i32],
    sink: &Spec,
    stream: &Stream,
    ramps: &Ramps,
    frames: u32,
    horizon: u64,
    count: u32,
    steps: &mut Steps<T>,
)
    requires ramp { 1 ≤ frames }
    requires channels { length cache.old.runs ≡ sink.now.channels }
    requires some { 1 ≤ sink.now.channels }
    requires whole { cache.old.frames ≡ count }
    requires near { count ≤ 65536 }
    requires countable { horizon ≤ 2 ^ 61 }
    requires fed { length stream.now.stream.feed ≡ sink.now.channels }
    requires wide { length ramps.now ≡ sink.now.channels }
    requires size { sink.now.channels * count ≤ length values.old }
    requires words { All (FitsSigned w32) values.old }
    requires room { AreSmall 258 cache.old }
    ensures size { length values.new ≡ length values.old }
    ensures words { All (FitsSigned w32) values.new }
    ensures large { IsAsLarge cache.old cache.new }
    ensures sums { (c k : ℕ) → c < sink.now.channels → k < count → kept_at cache.new c k ≡ kept_at cache.old c k +ℤ share_in sink.now (with_factors stream.now.stream (values_at frames (horizon + k) ramps.now)) c k }
    ensures little { (c k : ℕ) → c < sink.now.channels → k < count → IsSumOf 1 (share_in sink.now (with_factors stream.now.stream (values_at frames (horizon + k) ramps.now)) c k) }
{
    let running = ramps.running(frames, horizon, stream.factors(), count);
    if running == 0 {
        add_flat(cache, values, sink, stream, count, steps);
        return;
    }
    add_each(
        cache,
        &mut values[..sink.channels as usize],
        sink,
        stream,
        ramps,
        frames,
        horizon,
        count,
        steps,
    );
}
