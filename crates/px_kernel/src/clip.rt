// Sums, clipped to a width.
ghost use Rattle.std.specs.Prelude.{◌≡◌, ℕ, ◌+◌, ◌≤◌, ◌<◌, ◌^◌, length, FitsSigned};
ghost use Rattle.std.specs.Int.{w64, saturate_signed};
ghost use Rattle.px_sample.specs.WorkValue.{IsWithin};
ghost use Rattle.px_kernel.specs.Kernel.{at, bits_of};
ghost use Rattle.px_kernel.specs.Clip.{Clips, clipped, most_of, clipped_from};

use crate::Steps;
use px_sample::Width;
use std::simd::prelude::*;
use std::sync::ledger::Ledger;

/// Clips each sum to the range of `width`, so that `out` has the work values that `pack` of `px_sample` takes. Takes no memory.
pub fn clip_pack<T: Ledger>(sums: &[i64], width: Width, out: &mut [i32], steps: &mut Steps<T>)
    requires long { length out.old ≡ length sums.now }
    requires room { (k : ℕ) → k < length sums.now → FitsSigned w64 (at sums.now k) }
    ensures long { length out.new ≡ length out.old }
    ensures values { (k : ℕ) → k < length sums.now → at out.new k ≡ saturate_signed (bits_of width) (at sums.now k) }
    ensures within { (k : ℕ) → k < length sums.now → IsWithin width (at out.new k) }
    ensures ticks { steps.new ≡ steps.old + length sums.now }
{
    steps.tick(sums.len() as u64);
    clip(sums, most(width), out);
}

// The greatest value of a width.
fn most(width: Width) -> u32
    ensures { result ≡ most_of width }
{
    match width {
        Width::W8 => i8::MAX as u32,
        Width::W16 => i16::MAX as u32,
        Width::W32 => i32::MAX as u32,
    }
}

// Four sums at a time, and then the others.
fn clip(sums: &[i64], most: u32, out: &mut [i32])
    requires long { length out.old ≡ length sums.now }
    requires room { (k : ℕ) → k < length sums.now → FitsSigned w64 (at sums.now k) }
    requires most { most < 2 ^ 31 }
    ensures long { length out.new ≡ length out.old }
    ensures clips { Clips most sums.now (length sums.now) out.new }
{
    let mut from = 0;
    while from + 4 <= sums.len() {
        clip_four(sums, from, most, out);
        from += 4;
    }
    clip_rest(sums, from, most, out);
}

// Four sums more, from a place on.
fn clip_four(sums: &[i64], from: usize, most: u32, out: &mut [i32])
    requires inside { from + 4 ≤ length sums.now }
    requires long { length out.old ≡ length sums.now }
    requires room { (k : ℕ) → k < length sums.now → FitsSigned w64 (at sums.now k) }
    requires most { most < 2 ^ 31 }
    requires so_far { Clips most sums.now from out.old }
    ensures long { length out.new ≡ length out.old }
    ensures clips { Clips most sums.now (from + 4) out.new }
{
    let [a, b, c, d] = clip_lanes(sums, from, most).to_array();
    out[from] = a;
    out[from + 1] = b;
    out[from + 2] = c;
    out[from + 3] = d;
}

// Four sums, each clipped.
fn clip_lanes(sums: &[i64], from: usize, most: u32) -> i32x4
    requires inside { from + 4 ≤ length sums.now }
    requires room { (k : ℕ) → k < length sums.now → FitsSigned w64 (at sums.now k) }
    requires most { most < 2 ^ 31 }
    ensures { result ≡ clipped_from sums.now most from }
{
    let lanes = i64x4::from_array([sums[from], sums[from + 1], sums[from + 2], sums[from + 3]]);
    let high = most as i64;
    lanes
        .simd_clamp(i64x4::splat(-1 - high), i64x4::splat(high))
        .cast::<i32>()
}

// A sum at a time, from a place on.
fn clip_rest(sums: &[i64], from: usize, most: u32, out: &mut [i32])
    requires inside { from ≤ length sums.now }
    requires long { length out.old ≡ length sums.now }
    requires room { (k : ℕ) → k < length sums.now → FitsSigned w64 (at sums.now k) }
    requires most { most < 2 ^ 31 }
    requires so_far { Clips most sums.now from out.old }
    ensures long { length out.new ≡ length out.old }
    ensures clips { Clips most sums.now (length sums.now) out.new }
{
    for k in from..sums.len() {
        out[k] = clip_one(sums[k], most);
    }
}

// One sum.
fn clip_one(sum: i64, most: u32) -> i32
    requires most { most < 2 ^ 31 }
    ensures { result ≡ clipped most sum }
{
    let high = most as i64;
    sum.clamp(-1 - high, high) as i32
}
