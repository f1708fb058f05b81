// The mix of frames by ramps.
ghost use Rattle.std.specs.Prelude.{◌≡◌, ℕ, ◌+◌, ◌*◌, ◌^◌, ◌<◌, ◌≤◌, ◌++◌, ◌+ℤ◌, pos, length, map, take, drop, All, FitsSigned, vec_capacity};
ghost use Rattle.std.specs.Int.{w32};
ghost use Rattle.std.specs.List.{concat, range_with_len};
ghost use Rattle.px_sample.specs.Format.{frame_size_of, IsLinear};
ghost use Rattle.px_model.specs.Mix.{mix_of, sum_of};
ghost use Rattle.px_model.specs.Sink.{Input as Stands, streams_of};
ghost use Rattle.px_msg.specs.View.{sample_spec};
ghost use Rattle.px_stream.specs.Samples.{samples};
ghost use Rattle.px_mixcache.specs.Cache.{kept_at};
ghost use Rattle.px_kept_mix.specs.Kept.{IsSumOf};
ghost use Rattle.px_kept_mix.specs.Keeping.{IsAsLarge, AreSmall, share_in};
ghost use Rattle.px_lane.specs.Inputs.{input_of, inputs_of};
ghost use Rattle.px_lane.specs.Taking.{AreFed};
ghost use Rattle.px_ramp.specs.RampMix.{ramped_input, ramped_inputs, ramp_frame};
ghost use Rattle.px_ramp.specs.Table.{AreWide};

use crate::shares::{add_flat, add_ramped};
use crate::standing::running;
use crate::table::RampTable;
use px_kernel::Steps;
use px_lane::Input;
use px_mixcache::MixCache;
use px_sample::Spec;
use std::sync::ledger::Ledger;

// Appends bytes, where there is room for them.
fn append(bytes: &mut Vec<u8>, more: &[u8])
    requires { length bytes.old.items + length more.now ≤ vec_capacity bytes.old }
    ensures items { bytes.new.items ≡ bytes.old.items ++ more.now }
    ensures capacity { vec_capacity bytes.old ≤ vec_capacity bytes.new }
{
    bytes.extend_from_slice(more).unwrap();
}

// Adds an input's shares of the next `count` frames to their sums, by its ramps, if it has any, which are at frame `horizon` for the first.
fn add_input<T: Ledger>(
    cache: &mut MixCache,
    values: &mut [i32],
    sink: &Spec,
    input: &Input,
    table: &RampTable,
    frames: u32,
    horizon: u64,
    count: u32,
    steps: &mut Steps<T>,
)
    requires ramp { 1 ≤ frames }
    requires channels { length cache.old.runs ≡ sink.now.channels }
    requires some { 1 ≤ sink.now.channels }
    requires whole { cache.old.frames ≡ count }
    requires near { count ≤ 65536 }
    requires countable { horizon ≤ 2 ^ 61 }
    requires fed { length input.now.stream.stream.feed ≡ sink.now.channels }
    requires wide { AreWide sink.now.channels table.now.ramps }
    requires size { sink.now.channels * count ≤ length values.old }
    requires words { All (FitsSigned w32) values.old }
    requires room { AreSmall 258 cache.old }
    ensures size { length values.new ≡ length values.old }
    ensures words { All (FitsSigned w32) values.new }
    ensures large { IsAsLarge cache.old cache.new }
    ensures sums { (c k : ℕ) → c < sink.now.channels → k < count → kept_at cache.new c k ≡ kept_at cache.old c k +ℤ share_in sink.now (Stands.stream (ramped_input frames (horizon + k) table.now.ramps (input_of input.now))) c k }
    ensures little { (c k : ℕ) → c < sink.now.channels → k < count → IsSumOf 1 (share_in sink.now (Stands.stream (ramped_input frames (horizon + k) table.now.ramps (input_of input.now))) c k) }
{
    let stream = &input.stream;
    match table.get(input.index.0) {
        Some(ramps) => add_ramped(
            cache, values, sink, stream, ramps, frames, horizon, count, steps,
        ),
        None => add_flat(cache, values, sink, stream, count, steps),
    }
}

// Adds all inputs' shares of the next `count` frames to sums of silence, by their ramps, which are at frame `horizon` for the first.
fn add_all<T: Ledger>(
    cache: &mut MixCache,
    values: &mut [i32],
    sink: &Spec,
    inputs: &[Input],
    table: &RampTable,
    frames: u32,
    horizon: u64,
    count: u32,
    steps: &mut Steps<T>,
)
    requires ramp { 1 ≤ frames }
    requires channels { length cache.old.runs ≡ sink.now.channels }
    requires some { 1 ≤ sink.now.channels }
    requires whole { cache.old.frames ≡ count }
    requires nothing { (c k : ℕ) → c < sink.now.channels → k < count → kept_at cache.old c k ≡ pos 0 }
    requires near { count ≤ 65536 }
    requires countable { horizon ≤ 2 ^ 61 }
    requires fed { AreFed sink.now.channels (inputs_of inputs.now) }
    requires few { length (inputs_of inputs.now) ≤ 256 }
    requires wide { AreWide sink.now.channels table.now.ramps }
    requires size { sink.now.channels * count ≤ length values.old }
    requires words { All (FitsSigned w32) values.old }
    ensures size { length values.new ≡ length values.old }
    ensures words { All (FitsSigned w32) values.new }
    ensures large { IsAsLarge cache.old cache.new }
    ensures sums { (c k : ℕ) → c < sink.now.channels → k < count → kept_at cache.new c k ≡ sum_of samples (sample_spec sink.now) (streams_of (ramped_inputs frames (horizon + k) table.now.ramps (inputs_of inputs.now))) k c }
{
    for input in inputs {
        add_input(
            cache, values, sink, input, table, frames, horizon, count, steps,
        );
    }
}

// Mixes the next `count` frames of the inputs into `out`, by their ramps, which are at frame `horizon` for the first. `cache` holds no frame before and
// after.
fn mix_ramped<T: Ledger>(
    cache: &mut MixCache,
    values: &mut [i32],
    sink: &Spec,
    inputs: &[Input],
    table: &RampTable,
    frames: u32,
    horizon: u64,
    count: u32,
    out: &mut [u8],
    steps: &mut Steps<T>,
)
    requires ramp { 1 ≤ frames }
    requires linear { IsLinear sink.now.format }
    requires channels { length cache.old.runs ≡ sink.now.channels }
    requires some { 1 ≤ sink.now.channels }
    requires none { cache.old.frames ≡ 0 }
    requires deep { count ≤ cache.old.depth }
    requires near { count ≤ 65536 }
    requires countable { horizon ≤ 2 ^ 61 }
    requires fed { AreFed sink.now.channels (inputs_of inputs.now) }
    requires few { length (inputs_of inputs.now) ≤ 256 }
    requires wide { AreWide sink.now.channels table.now.ramps }
    requires size { sink.now.channels * count ≤ length values.old }
    requires words { All (FitsSigned w32) values.old }
    requires whole { length out.old ≡ count * frame_size_of sink.now }
    ensures size { length values.new ≡ length values.old }
    ensures words { All (FitsSigned w32) values.new }
    ensures none { cache.new.frames ≡ 0 }
    ensures depth { cache.new.depth ≡ cache.old.depth }
    ensures channels { length cache.new.runs ≡ length cache.old.runs }
    ensures frames { out.new ≡ concat (map (ramp_frame samples frames horizon table.now.ramps (sample_spec sink.now) (inputs_of inputs.now)) (range_with_len 0 count)) }
{
    cache.extend(count);
    add_all(
        cache, values, sink, inputs, table, frames, horizon, count, steps,
    );
    cache.frames(0, count, sink.format, out, steps);
    cache.advance(count);
}

// The same over bytes `from` to `to`.
fn mix_between<T: Ledger>(
    cache: &mut MixCache,
    values: &mut [i32],
    sink: &Spec,
    inputs: &[Input],
    table: &RampTable,
    frames: u32,
    horizon: u64,
    count: u32,
    bytes: &mut Vec<u8>,
    from: usize,
    to: usize,
    steps: &mut Steps<T>,
)
    requires ramp { 1 ≤ frames }
    requires linear { IsLinear sink.now.format }
    requires channels { length cache.old.runs ≡ sink.now.channels }
    requires some { 1 ≤ sink.now.channels }
    requires none { cache.old.frames ≡ 0 }
    requires deep { count ≤ cache.old.depth }
    requires near { count ≤ 65536 }
    requires countable { horizon ≤ 2 ^ 61 }
    requires fed { AreFed sink.now.channels (inputs_of inputs.now) }
    requires few { length (inputs_of inputs.now) ≤ 256 }
    requires wide { AreWide sink.now.channels table.now.ramps }
    requires size { sink.now.channels * count ≤ length values.old }
    requires words { All (FitsSigned w32) values.old }
    requires whole { to ≡ from + count * frame_size_of sink.now }
    requires inside { to ≤ length bytes.old.items }
    ensures size { length values.new ≡ length values.old }
    ensures words { All (FitsSigned w32) values.new }
    ensures none { cache.new.frames ≡ 0 }
    ensures depth { cache.new.depth ≡ cache.old.depth }
    ensures channels { length cache.new.runs ≡ length cache.old.runs }
    ensures capacity { vec_capacity bytes.new ≡ vec_capacity bytes.old }
    ensures bytes { bytes.new.items ≡ take from bytes.old.items ++ (concat (map (ramp_frame samples frames horizon table.now.ramps (sample_spec sink.now) (inputs_of inputs.now)) (range_with_len 0 count)) ++ drop to bytes.old.items) }
{
    let out = &mut bytes.as_mut_slice()[from..to];
    mix_ramped(
        cache, values, sink, inputs, table, frames, horizon, count, out, steps,
    );
}

/// Mixes the next `count` frames of the inputs by their ramps, which are at frame `horizon` for the first, and appends them to `bytes`. `plain` has
/// these frames without ramps: those stay that come after the last ramp's end. `values` is scratch, and `cache`, which holds no frame before and after,
/// has room for `count` frames. Takes no memory.
pub(crate) fn mix_into<T: Ledger>(
    cache: &mut MixCache,
    values: &mut Vec<i32>,
    sink: &Spec,
    inputs: &[Input],
    table: &RampTable,
    frames: u32,
    horizon: u64,
    count: u32,
    plain: &[u8],
    bytes: &mut Vec<u8>,
    steps: &mut Steps<T>,
)
    requires ramp { 1 ≤ frames }
    requires linear { IsLinear sink.now.format }
    requires channels { length cache.old.runs ≡ sink.now.channels }
    requires some { 1 ≤ sink.now.channels }
    requires none { cache.old.frames ≡ 0 }
    requires deep { count ≤ cache.old.depth }
    requires fed { AreFed sink.now.channels (inputs_of inputs.now) }
    requires few { length (inputs_of inputs.now) ≤ 256 }
    requires wide { AreWide sink.now.channels table.now.ramps }
    requires size { sink.now.channels * count ≤ length values.old.items }
    requires words { All (FitsSigned w32) values.old.items }
    requires low { count ≤ 65536 }
    requires countable { horizon ≤ 2 ^ 61 }
    requires room { length bytes.old.items + count * frame_size_of sink.now ≤ vec_capacity bytes.old }
    requires plain { plain.now ≡ concat (map (mix_of samples (sample_spec sink.now) (streams_of (inputs_of inputs.now))) (range_with_len 0 count)) }
    ensures size { length values.new.items ≡ length values.old.items }
    ensures words { All (FitsSigned w32) values.new.items }
    ensures none { cache.new.frames ≡ 0 }
    ensures depth { cache.new.depth ≡ cache.old.depth }
    ensures channels { length cache.new.runs ≡ length cache.old.runs }
    ensures capacity { vec_capacity bytes.old ≤ vec_capacity bytes.new }
    ensures bytes { bytes.new.items ≡ bytes.old.items ++ concat (map (ramp_frame samples frames horizon table.now.ramps (sample_spec sink.now) (inputs_of inputs.now)) (range_with_len 0 count)) }
{
    let from = bytes.len();
    append(bytes, plain);
    let running = running(table, inputs, frames, horizon, count);
    if running == 0 {
        return;
    }
    mix_between(
        cache,
        values.as_mut_slice(),
        sink,
        inputs,
        table,
        frames,
        horizon,
        running,
        bytes,
        from,
        from + running as usize * sink.frame_size(),
        steps,
    );
}
