// The kept sums of a sink's mix.
ghost use Rattle.std.specs.Prelude.{◌≡◌, ℕ, ◌+◌, ◌-◌, ◌*◌, ◌/◌, ◌^◌, ◌<◌, ◌≤◌, ◌⊎◌, List, length, map, All, FitsSigned, IfOk, pos, slice_index_or};
ghost use Rattle.std.specs.Int.{w32};
ghost use Rattle.std.specs.List.{concat, range_with_len};
ghost use Rattle.px_sample.specs.Format.{frame_size_of, IsLinear};
ghost use Rattle.px_msg.specs.View.{sample_spec};
ghost use Rattle.px_model.specs.Mix.{mix_of};
ghost use Rattle.px_model.specs.Sink.{Input, streams_of};
ghost use Rattle.px_model.specs.Queue.{nothing};
ghost use Rattle.px_model.specs.Stream.{frame_at};
ghost use Rattle.px_kernel.specs.Kernel.{changed};
ghost use Rattle.px_mixcache.specs.Cache.{KeptSums, kept_at, part_at};
ghost use Rattle.px_stream.specs.Samples.{samples};
ghost use Rattle.px_stream.specs.Values.{value_at};
ghost use Rattle.px_kept_mix.specs.Kept.{IsSumOf};
ghost use Rattle.px_kept_mix.specs.Keeping.{IsKept, IsAsLarge, AreSmall, AreSmallFrom, Shares, SharesBetween, AreLittle};

use crate::spans::change_spans;
use px_kernel::Steps;
use px_mixcache::MixCache;
use px_sample::{Spec, Width};
use px_stream::Stream;
use px_types::{Mem, NoMemory};
use px_vol::Factors;
use std::alloc::Global;
use std::marker::Model;
use std::sync::ledger::Ledger;

/// The sums of a sink's streams, for each frame from the horizon on and each channel, before clipping, with scratch room for a stream's values (own:
/// PulseAudio mixes anew what it rewinds).
#[derive(Debug, Drop)]
pub struct KeptMix {
    cache: MixCache,
    frames: u32,
    // scratch, one for each sum
    values: Vec<i32>,
}

impl Model for KeptMix {
    ghost use Rattle.std.specs.Prelude.{◌≡◌, ◌*◌, ◌≤◌, length, All, FitsSigned};
    ghost use Rattle.std.specs.Int.{w32};
    ghost use Rattle.px_mixcache.specs.Cache.{KeptSums};

    ghost Value = { KeptSums };

    ghost view = { λ k. k.cache };

    ghost invariant = { λ k. (k.frames ≡ k.cache.frames) × (k.cache.frames ≤ k.cache.depth) × (k.cache.depth ≤ 65536) × (1 ≤ length k.cache.runs) × (length k.values.items ≡ length k.cache.runs * k.cache.depth) × All (FitsSigned w32) k.values.items };
}

// Zeroes the places from `from` up to `to`.
fn silence(values: &mut [i32], from: usize, to: usize)
    requires order { from ≤ to }
    requires inside { to ≤ length values.old }
    ensures size { length values.new ≡ length values.old }
    ensures silent { (i : ℕ) → from ≤ i → i < to → slice_index_or values.new i (pos 0) ≡ pos 0 }
    ensures before { (i : ℕ) → i < from → slice_index_or values.new i (pos 0) ≡ slice_index_or values.old i (pos 0) }
    ensures after { (i : ℕ) → to ≤ i → slice_index_or values.new i (pos 0) ≡ slice_index_or values.old i (pos 0) }
    ensures words { All (FitsSigned w32) values.old → All (FitsSigned w32) values.new }
{
    for i in from..to {
        values[i] = 0;
    }
}

// Zeroes each run from place `given` on.
fn silence_behind(values: &mut [i32], runs: usize, run: usize, given: usize)
    requires runs { length values.old ≡ run * runs }
    requires few { given ≤ run }
    ensures size { length values.new ≡ length values.old }
    ensures before { (c j : ℕ) → c < runs → j < given → slice_index_or values.new (c * run + j) (pos 0) ≡ slice_index_or values.old (c * run + j) (pos 0) }
    ensures silent { (c j : ℕ) → c < runs → given ≤ j → j < run → slice_index_or values.new (c * run + j) (pos 0) ≡ pos 0 }
    ensures words { All (FitsSigned w32) values.old → All (FitsSigned w32) values.new }
{
    if given == run {
        return;
    }
    for c in 0..runs {
        silence(values, c * run + given, c * run + run);
    }
}

// Closes up the first `given` values of each of `runs` runs, at the front of `values`.
fn close_up(values: &mut [i32], runs: usize, run: usize, given: usize)
    requires runs { length values.old ≡ run * runs }
    requires few { given ≤ run }
    ensures size { length values.new ≡ length values.old }
    ensures values { (c j : ℕ) → c < runs → j < given → slice_index_or values.new (c * given + j) (pos 0) ≡ slice_index_or values.old (c * run + j) (pos 0) }
    ensures words { All (FitsSigned w32) values.old → All (FitsSigned w32) values.new }
{
    for c in 1..runs {
        let start = c * run;
        values.copy_within(start..start + given, c * given);
    }
}

// Shortens each run to its first `given` values, and answers the length of a run then. Runs that are nearly full stay as long as they are, since
// zeroing the rest costs less there than moving the values.
fn shorten(values: &mut [i32], runs: usize, run: usize, given: usize) -> usize
    requires runs { length values.old ≡ run * runs }
    requires few { given ≤ run }
    ensures size { length values.new ≡ length values.old }
    ensures left { (result ≡ given) ⊎ (result ≡ run) }
    ensures values { (c j : ℕ) → c < runs → j < given → slice_index_or values.new (c * result + j) (pos 0) ≡ slice_index_or values.old (c * run + j) (pos 0) }
    ensures silent { (c j : ℕ) → c < runs → given ≤ j → j < result → slice_index_or values.new (c * result + j) (pos 0) ≡ pos 0 }
    ensures words { All (FitsSigned w32) values.old → All (FitsSigned w32) values.new }
{
    if given > run / 4 * 3 {
        silence_behind(values, runs, run, given);
        run
    } else {
        close_up(values, runs, run, given);
        given
    }
}

// Reads the work values of a stream's frames from `from` on, at most `run` for each sink channel, into runs at the front of `values`. Answers the
// length of each run. Silence is 0, and past the runs the stream gives nothing.
fn read<T: Ledger>(
    stream: &Stream,
    from: u32,
    width: Width,
    run: usize,
    values: &mut [i32],
    steps: &mut Steps<T>,
) -> usize
    requires runs { length values.old ≡ run * length stream.now.stream.feed }
    requires words { All (FitsSigned w32) values.old }
    requires near { from + run < 2 ^ 32 }
    ensures size { length values.new ≡ length values.old }
    ensures few { result ≤ run }
    ensures values { (c j : ℕ) → c < length stream.now.stream.feed → j < result → slice_index_or values.new (c * result + j) (pos 0) ≡ value_at width stream.now.stream c (frame_at stream.now.stream (from + j)) }
    ensures end { (j : ℕ) → result ≤ j → j < run → frame_at stream.now.stream (from + j) ≡ nothing }
    ensures words { All (FitsSigned w32) values.new }
    ensures ticks { steps.new ≤ steps.old + length stream.now.stream.feed * result }
{
    let given = stream.frame_values(from, width, values, steps);
    let runs = stream.factors().values().len();
    shorten(values, runs, run, given as usize)
}

// Adds (`add`) a stream's share to the sums of `frames` frames from frame `from` on, or takes it away. `values` has room for those frames; where the
// stream gives none, nothing changes.
fn change<T: Ledger>(
    cache: &mut MixCache,
    values: &mut [i32],
    frames: usize,
    sink: &Spec,
    stream: &Stream,
    from: u32,
    add: bool,
    steps: &mut Steps<T>,
)
    requires channels { length cache.old.runs ≡ sink.now.channels }
    requires some { 1 ≤ sink.now.channels }
    requires fed { length stream.now.stream.feed ≡ sink.now.channels }
    requires inside { from + frames ≤ cache.old.frames }
    requires near { cache.old.frames ≤ 65536 }
    requires size { length values.old ≡ sink.now.channels * frames }
    requires words { All (FitsSigned w32) values.old }
    requires room { AreSmallFrom from 258 cache.old }
    ensures size { length values.new ≡ length values.old }
    ensures words { All (FitsSigned w32) values.new }
    ensures large { IsAsLarge cache.old cache.new }
    ensures sums { SharesBetween add sink.now stream.now.stream from (from + frames) cache.old cache.new }
    ensures little { AreLittle sink.now stream.now.stream from (from + frames) }
    ensures ticks { steps.new ≤ steps.old + 2 * (sink.now.channels * frames) }
{
    let given = read(stream, from, sink.format.width(), frames, values, steps);
    let places = sink.channels as usize * given;
    put(
        cache,
        &values[..places],
        stream.factors(),
        stream.factors().values(),
        from,
        add,
        steps,
    );
}

// Adds (`add`) values times factors to the sums from frame `from` on, or takes them away.
fn put<T: Ledger>(
    cache: &mut MixCache,
    values: &[i32],
    factors: &Factors,
    numbers: &[u32],
    from: u32,
    add: bool,
    steps: &mut Steps<T>,
)
    requires same { numbers.now ≡ factors.now }
    requires channels { length factors.now ≡ length cache.old.runs }
    requires whole { length values.now ≡ length cache.old.runs * (length values.now / length cache.old.runs) }
    requires inside { from + length values.now / length cache.old.runs ≤ cache.old.frames }
    requires words { All (FitsSigned w32) values.now }
    requires room { AreSmallFrom from 258 cache.old }
    ensures large { IsAsLarge cache.old cache.new }
    ensures sums { (c k : ℕ) → c < length cache.old.runs → k < cache.old.frames → kept_at cache.new c k ≡ changed add (kept_at cache.old c k) (part_at from (length values.now / length cache.old.runs) values.now factors.now c k) }
    ensures little { (c k : ℕ) → c < length cache.old.runs → IsSumOf 1 (part_at from (length values.now / length cache.old.runs) values.now factors.now c k) }
    ensures ticks { steps.new ≡ steps.old + length values.now }
{
    cache.change(from, values, factors, add, steps);
}

/// Adds (`add`) a stream's share to the sums of `frames` frames from frame `from` on, or takes it away. `values` has room for those frames or more.
pub fn change_over<T: Ledger>(
    cache: &mut MixCache,
    values: &mut [i32],
    frames: usize,
    sink: &Spec,
    stream: &Stream,
    from: u32,
    add: bool,
    steps: &mut Steps<T>,
)
    requires channels { length cache.old.runs ≡ sink.now.channels }
    requires some { 1 ≤ sink.now.channels }
    requires fed { length stream.now.stream.feed ≡ sink.now.channels }
    requires inside { from + frames ≤ cache.old.frames }
    requires near { cache.old.frames ≤ 65536 }
    requires size { sink.now.channels * frames ≤ length values.old }
    requires words { All (FitsSigned w32) values.old }
    requires room { AreSmallFrom from 258 cache.old }
    ensures size { length values.new ≡ length values.old }
    ensures words { All (FitsSigned w32) values.new }
    ensures large { IsAsLarge cache.old cache.new }
    ensures sums { SharesBetween add sink.now stream.now.stream from (from + frames) cache.old cache.new }
    ensures little { AreLittle sink.now stream.now.stream from (from + frames) }
    ensures ticks { steps.new ≤ steps.old + 2 * (sink.now.channels * frames) }
{
    let places = sink.channels as usize * frames;
    change(
        cache,
        &mut values[..places],
        frames,
        sink,
        stream,
        from,
        add,
        steps,
    );
}

impl KeptMix {
    /// Sums for the channels of `sink`, with no frames yet and room for `depth` frames.
    pub fn new(alloc: Global, sink: &Spec, depth: u32) -> Mem<KeptMix>
        requires some { 1 ≤ sink.now.channels }
        requires few { sink.now.channels ≤ 32 }
        requires low { depth ≤ 65536 }
        ensures depth { IfOk result (λ kept. kept.depth ≡ depth) }
        ensures frames { IfOk result (λ kept. kept.frames ≡ 0) }
        ensures channels { IfOk result (λ kept. length kept.runs ≡ sink.now.channels) }
    {
        let values = vec![in alloc; 0; sink.channels as usize * depth as usize]?;
        Ok(KeptMix {
            cache: MixCache::new(alloc, sink.channels, depth)?,
            frames: 0,
            values,
        })
    }

    /// Drops the first `frames` frames. Takes no memory.
    pub fn advance(&mut self, frames: u32)
        requires { frames ≤ self.old.frames }
        ensures depth { self.new.depth ≡ self.old.depth }
        ensures frames { self.new.frames ≡ self.old.frames - frames }
        ensures channels { length self.new.runs ≡ length self.old.runs }
        ensures sums { (c k : ℕ) → c < length self.old.runs → kept_at self.new c k ≡ kept_at self.old c (frames + k) }
    {
        self.cache.advance(frames);
        self.frames -= frames;
    }

    /// Extends to `to` frames with silence. Takes no memory.
    pub fn extend(&mut self, to: u32)
        requires more { self.old.frames ≤ to }
        requires fits { to ≤ self.old.depth }
        ensures depth { self.new.depth ≡ self.old.depth }
        ensures frames { self.new.frames ≡ to }
        ensures channels { length self.new.runs ≡ length self.old.runs }
        ensures sums { (c k : ℕ) → c < length self.old.runs → kept_at self.new c k ≡ kept_at self.old c k }
        ensures nothing { (c k : ℕ) → c < length self.old.runs → self.old.frames ≤ k → kept_at self.new c k ≡ pos 0 }
    {
        self.cache.extend(to);
        self.frames = to;
    }

    /// Adds (`add`) a stream's share to the sums from frame `from` on, or takes it away. Takes no memory.
    pub fn change<T: Ledger>(
        &mut self,
        sink: &Spec,
        stream: &Stream,
        from: u32,
        add: bool,
        steps: &mut Steps<T>,
    )
        requires channels { length self.old.runs ≡ sink.now.channels }
        requires fed { length stream.now.stream.feed ≡ sink.now.channels }
        requires from { from ≤ self.old.frames }
        requires room { AreSmall 258 self.old }
        ensures large { IsAsLarge self.old self.new }
        ensures sums { Shares add sink.now stream.now.stream from self.old self.new }
        ensures little { AreLittle sink.now stream.now.stream from self.old.frames }
        ensures ticks { steps.new ≤ steps.old + 2 * (sink.now.channels * (self.old.frames - from)) }
    {
        let to = self.frames;
        self.change_between(sink, stream, from, to, add, steps);
    }

    /// The same from frame `from` up to frame `to`.
    pub fn change_between<T: Ledger>(
        &mut self,
        sink: &Spec,
        stream: &Stream,
        from: u32,
        to: u32,
        add: bool,
        steps: &mut Steps<T>,
    )
        requires channels { length self.old.runs ≡ sink.now.channels }
        requires fed { length stream.now.stream.feed ≡ sink.now.channels }
        requires order { from ≤ to }
        requires inside { to ≤ self.old.frames }
        requires room { AreSmall 258 self.old }
        ensures large { IsAsLarge self.old self.new }
        ensures sums { SharesBetween add sink.now stream.now.stream from to self.old self.new }
        ensures little { AreLittle sink.now stream.now.stream from to }
        ensures ticks { steps.new ≤ steps.old + 2 * (sink.now.channels * (to - from)) }
    {
        change_spans(
            &mut self.cache,
            self.values.as_mut_slice(),
            to,
            sink,
            stream,
            from,
            add,
            steps,
        );
    }

    /// Packs all held frames from frame `from` on into `out`, in the device's format: each sum is clipped to the sink's width, once, and packed.
    /// Takes no memory.
    pub fn pack<T: Ledger>(&self, sink: &Spec, from: u32, out: &mut [u8], steps: &mut Steps<T>)
        requires linear { IsLinear sink.now.format }
        requires channels { length self.now.runs ≡ sink.now.channels }
        requires from { from ≤ self.now.frames }
        requires whole { length out.old ≡ (self.now.frames - from) * frame_size_of sink.now }
        ensures bytes { (inputs : List Input) → IsKept sink.now inputs self.now → out.new ≡ concat (map (mix_of samples (sample_spec sink.now) (streams_of inputs)) (range_with_len from (self.now.frames - from))) }
        ensures ticks { steps.new ≡ steps.old + sink.now.channels * (self.now.frames - from) }
    {
        self.pack_between(sink, from, self.frames, out, steps);
    }

    /// The same from frame `from` up to frame `to`.
    pub fn pack_between<T: Ledger>(
        &self,
        sink: &Spec,
        from: u32,
        to: u32,
        out: &mut [u8],
        steps: &mut Steps<T>,
    )
        requires linear { IsLinear sink.now.format }
        requires channels { length self.now.runs ≡ sink.now.channels }
        requires order { from ≤ to }
        requires inside { to ≤ self.now.frames }
        requires whole { length out.old ≡ (to - from) * frame_size_of sink.now }
        ensures bytes { (inputs : List Input) → IsKept sink.now inputs self.now → out.new ≡ concat (map (mix_of samples (sample_spec sink.now) (streams_of inputs)) (range_with_len from (to - from))) }
        ensures ticks { steps.new ≡ steps.old + sink.now.channels * (to - from) }
    {
        self.cache.frames(from, to - from, sink.format, out, steps);
    }
}
