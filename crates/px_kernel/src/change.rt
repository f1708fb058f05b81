// Adding a stream's share to sums, and subtracting it.
ghost use Rattle.std.specs.Prelude.{◌≡◌, ◌∷◌, [], ℕ, ◌+◌, ◌<◌, ◌≤◌, ◌^◌, true, false, length, slice_set, FitsSigned};
ghost use Rattle.std.specs.Int.{w32, w64};
ghost use Rattle.std.specs.Simd.Lanes.{Each1};
ghost use Rattle.px_kernel.specs.Kernel.{AreReady, Changes, at, changed, changed_at, scaled, shares_from};

use crate::Steps;
use std::simd::prelude::*;
use std::sync::ledger::Ledger;

/// Adds to each sum its value times a factor in 65536ths, rounded towards minus infinity (PulseAudio: the sums of `pa_mix` in
/// pulsecore/mix.c). Takes no memory.
pub fn add_scaled<T: Ledger>(sums: &mut [i64], values: &[i32], factor: u32, steps: &mut Steps<T>)
    requires long { length values.now ≡ length sums.old }
    requires words { (k : ℕ) → k < length sums.old → FitsSigned w32 (at values.now k) }
    requires room { (k : ℕ) → k < length sums.old → FitsSigned w64 (at sums.old k) }
    requires fit { (k : ℕ) → k < length sums.old → FitsSigned w64 (changed_at true sums.old values.now factor k) }
    ensures long { length sums.new ≡ length sums.old }
    ensures sums { (k : ℕ) → k < length sums.old → at sums.new k ≡ changed_at true sums.old values.now factor k }
    ensures ticks { steps.new ≡ steps.old + length sums.old }
{
    steps.tick(sums.len() as u64);
    change(sums, values, factor, true);
}

/// Subtracts from each sum what `add_scaled` adds. Takes no memory.
pub fn sub_scaled<T: Ledger>(sums: &mut [i64], values: &[i32], factor: u32, steps: &mut Steps<T>)
    requires long { length values.now ≡ length sums.old }
    requires words { (k : ℕ) → k < length sums.old → FitsSigned w32 (at values.now k) }
    requires room { (k : ℕ) → k < length sums.old → FitsSigned w64 (at sums.old k) }
    requires fit { (k : ℕ) → k < length sums.old → FitsSigned w64 (changed_at false sums.old values.now factor k) }
    ensures long { length sums.new ≡ length sums.old }
    ensures sums { (k : ℕ) → k < length sums.old → at sums.new k ≡ changed_at false sums.old values.now factor k }
    ensures ticks { steps.new ≡ steps.old + length sums.old }
{
    steps.tick(sums.len() as u64);
    change(sums, values, factor, false);
}

// The factor of a stream that is added unscaled, in 65536ths.
const WHOLE: u32 = 65_536;

// Four sums at a time, and then the others.
fn change(sums: &mut [i64], values: &[i32], factor: u32, add: bool)
    requires long { length values.now ≡ length sums.old }
    requires ready { AreReady add sums.old values.now factor 0 }
    ensures { Changes add sums.old values.now factor 0 (length sums.old) sums.new }
{
    let from = if factor == WHOLE {
        change_whole(sums, values, add)
    } else if factor <= i32::MAX as u32 {
        change_fours(sums, values, factor, add)
    } else {
        0
    };
    change_rest(sums, values, from, factor, add);
}

// Sixteen sums at a time, by a factor of 1, a constant here for the compiler, so that nothing is multiplied. Answers how many were changed.
fn change_whole(sums: &mut [i64], values: &[i32], add: bool) -> usize
    requires long { length values.now ≡ length sums.old }
    requires ready { AreReady add sums.old values.now 65536 0 }
    ensures inside { result ≤ length sums.old }
    ensures sums { Changes add sums.old values.now 65536 0 result sums.new }
{
    if add {
        add_whole(sums, values)
    } else {
        sub_whole(sums, values)
    }
}

// Of `change_whole`, on its own for the compiler: each value is added.
fn add_whole(sums: &mut [i64], values: &[i32]) -> usize
    requires long { length values.now ≡ length sums.old }
    requires ready { AreReady true sums.old values.now 65536 0 }
    ensures inside { result ≤ length sums.old }
    ensures sums { Changes true sums.old values.now 65536 0 result sums.new }
{
    let mut from = 0;
    while from + 16 <= sums.len() {
        change_eight(sums, values, from, true);
        change_eight(sums, values, from + 8, true);
        from += 16;
    }
    from
}

// And subtracted.
fn sub_whole(sums: &mut [i64], values: &[i32]) -> usize
    requires long { length values.now ≡ length sums.old }
    requires ready { AreReady false sums.old values.now 65536 0 }
    ensures inside { result ≤ length sums.old }
    ensures sums { Changes false sums.old values.now 65536 0 result sums.new }
{
    let mut from = 0;
    while from + 16 <= sums.len() {
        change_eight(sums, values, from, false);
        change_eight(sums, values, from + 8, false);
        from += 16;
    }
    from
}

// Eight sums, from a place on, by a factor of 1.
fn change_eight(sums: &mut [i64], values: &[i32], from: usize, add: bool)
    requires inside { from + 8 ≤ length sums.old }
    requires long { length values.now ≡ length sums.old }
    requires ready { AreReady add sums.old values.now 65536 from }
    ensures { Changes add sums.old values.now 65536 from (from + 8) sums.new }
{
    change_four(sums, values, from, WHOLE, add);
    change_four(sums, values, from + 4, WHOLE, add);
}

// The same by any factor that fits signed lanes; one of 32 bits doesn't.
fn change_fours(sums: &mut [i64], values: &[i32], factor: u32, add: bool) -> usize
    requires long { length values.now ≡ length sums.old }
    requires small { factor < 2 ^ 31 }
    requires ready { AreReady add sums.old values.now factor 0 }
    ensures inside { result ≤ length sums.old }
    ensures sums { Changes add sums.old values.now factor 0 result sums.new }
{
    let mut from = 0;
    let factors = [factor; 2];
    while from + 4 <= sums.len() {
        change_four(sums, values, from, factor_for(&factors, from), add);
        from += 4;
    }
    from
}

// One of two equal factors, read anew for each four: so the compiler sees that it has 32 bits, and multiplies two such numbers at once.
fn factor_for(factors: &[u32; 2], from: usize) -> u32
    ensures { (factor : ℕ) → factors.now ≡ factor ∷ factor ∷ [] → result ≡ factor }
{
    factors[from / 4 % 2]
}

// The shares of four values, from a place on.
fn share_lanes(values: &[i32], from: usize, factor: u32) -> i64x4
    requires inside { from + 4 ≤ length values.now }
    requires small { factor < 2 ^ 31 }
    requires words { (k : ℕ) → from ≤ k → k < length values.now → FitsSigned w32 (at values.now k) }
    ensures { result ≡ shares_from values.now factor from }
{
    let lanes = i32x4::from_array([
        values[from],
        values[from + 1],
        values[from + 2],
        values[from + 3],
    ]);
    let factors = i32x4::splat(factor as i32);
    lanes.cast::<i64>().strict_mul(factors.cast::<i64>()) >> i64x4::splat(16)
}

// Four sums, from a place on.
fn change_four(sums: &mut [i64], values: &[i32], from: usize, factor: u32, add: bool)
    requires inside { from + 4 ≤ length sums.old }
    requires long { length values.now ≡ length sums.old }
    requires small { factor < 2 ^ 31 }
    requires ready { AreReady add sums.old values.now factor from }
    ensures { Changes add sums.old values.now factor from (from + 4) sums.new }
{
    let shares = share_lanes(values, from, factor);
    let lanes = i64x4::from_array([sums[from], sums[from + 1], sums[from + 2], sums[from + 3]]);
    if add {
        put_four(sums, from, lanes.strict_add(shares));
    } else {
        put_four(sums, from, lanes.strict_sub(shares));
    }
}

// Stores four sums from place `from` on.
fn put_four(sums: &mut [i64], from: usize, lanes: i64x4)
    requires inside { from + 4 ≤ length sums.old }
    requires room { Each1 (FitsSigned w64) lanes }
    ensures { sums.new ≡ slice_set (slice_set (slice_set (slice_set sums.old from (at lanes 0)) (from + 1) (at lanes 1)) (from + 2) (at lanes 2)) (from + 3) (at lanes 3) }
{
    let [a, b, c, d] = lanes.to_array();
    sums[from] = a;
    sums[from + 1] = b;
    sums[from + 2] = c;
    sums[from + 3] = d;
}

// A sum at a time, from a place on.
fn change_rest(sums: &mut [i64], values: &[i32], from: usize, factor: u32, add: bool)
    requires inside { from ≤ length sums.old }
    requires long { length values.now ≡ length sums.old }
    requires ready { AreReady add sums.old values.now factor from }
    ensures { Changes add sums.old values.now factor from (length sums.old) sums.new }
{
    for k in from..sums.len() {
        sums[k] = change_one(sums[k], values[k], factor, add);
    }
}

// One sum.
fn change_one(sum: i64, value: i32, factor: u32, add: bool) -> i64
    requires fit { FitsSigned w64 (changed add sum (scaled value factor)) }
    ensures { result ≡ changed add sum (scaled value factor) }
{
    let share = (value as i64 * factor as i64) >> 16;
    if add { sum + share } else { sum - share }
}
