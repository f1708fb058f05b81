// Sums of the mixer, clipped.
ghost use Rattle.std.specs.Prelude.{◌≡◌, ◌<◌, ◌*◌, ℕ, length, pos, FitsSigned};
ghost use Rattle.std.specs.Int.{w32};
ghost use Rattle.px_sample.specs.Format.{size_of, IsWhole};
ghost use Rattle.px_kernel.specs.Kernel.{at};

use crate::sound::{fill, whole_format};
use px_kernel::{Steps, add_scaled, clip_pack, sub_scaled};
use px_sample::{Format, Width, unpack};
use px_tick_key::Key;
use px_types::Mem;
use std::alloc::Global;
use std::marker::Brand;
use std::sync::ledger::{Blank, Ledger};

const SAMPLES: usize = 4096;

// Adds the terms of `values` to zero sums, clips the sums, and subtracts the terms again.
fn round<T: Ledger>(
    width: Width,
    factor: u32,
    values: &[i32],
    sums: &mut [i64],
    out: &mut [i32],
    steps: &mut Steps<T>,
)
    requires long { length values.now ≡ length sums.old }
    requires places { length out.old ≡ length sums.old }
    requires words { (k : ℕ) → k < length sums.old → FitsSigned w32 (at values.now k) }
    requires nothing { (k : ℕ) → k < length sums.old → at sums.old k ≡ pos 0 }
    ensures long { length sums.new ≡ length sums.old }
    ensures places { length out.new ≡ length out.old }
    ensures nothing { (k : ℕ) → k < length sums.old → at sums.new k ≡ pos 0 }
{
    add_scaled(sums, values, factor, steps);
    clip_pack(sums, width, out, steps);
    sub_scaled(sums, values, factor, steps);
}

// Runs `rounds` rounds with the values of these samples, each with another factor.
fn mix<T: Ledger>(
    blank: Blank,
    format: Format,
    rounds: u32,
    bytes: &[u8],
    values: &mut [i32],
    sums: &mut [i64],
    out: &mut [i32],
)
    requires name { blank.name ≡ T.name }
    requires parts { blank.parts ≡ T.parts }
    requires some { 0 < T.parts }
    requires whole { IsWhole format }
    requires size { length bytes.now ≡ size_of format * length values.old }
    requires long { length values.old ≡ length sums.old }
    requires places { length out.old ≡ length sums.old }
{
    unpack(format, bytes, values);
    sums.fill(0);
    let mut steps = Steps::<T>::new(Key::new(), blank);
    for number in 0..rounds {
        let factor = 60_000 + number % 10_000;
        round(format.width(), factor, values, sums, out, &mut steps);
    }
}

fn sum(values: &[i32]) -> u32 {
    let mut sum: u32 = 0;
    for value in values {
        sum = sum
            .wrapping_mul(31)
            .wrapping_add(u32::from_le_bytes(value.to_le_bytes()));
    }
    sum
}

/// Adds 4,096 values to sums, clips these and subtracts the values again, `rounds` times; the line has a sum over what was clipped last. The values
/// and the width are those of the format with code `code`, S16LE where that has no whole numbers. Takes memory.
pub fn mix_line(alloc: Global, rounds: u32, code: u32) -> Mem<String> {
    let format = whole_format(code);
    let mut bytes = vec![in alloc; 0u8; format.size() * SAMPLES]?;
    let mut values = vec![in alloc; 0i32; SAMPLES]?;
    let mut sums = vec![in alloc; 0i64; SAMPLES]?;
    let mut out = vec![in alloc; 0i32; SAMPLES]?;
    fill(&mut bytes, rounds);
    mix::<Brand>(
        Blank::new(1),
        format,
        rounds,
        &bytes,
        &mut values,
        &mut sums,
        &mut out,
    );
    Ok(format!(in alloc; "{}", sum(&out))?)
}
