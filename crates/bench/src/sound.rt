// Samples to work values and back.
ghost use Rattle.std.specs.Prelude.{◌≡◌, ◌*◌, length};
ghost use Rattle.px_sample.specs.Format.{size_of, IsWhole};

use px_sample::{Format, Width, pack, to_work, unpack};
use px_types::Mem;
use std::alloc::Global;

const SAMPLES: usize = 4096;

// The bytes of all samples, from a small generator.
pub fn fill(bytes: &mut [u8], seed: u32) {
    let mut state = seed;
    for byte in bytes.iter_mut() {
        state = state.wrapping_mul(1_664_525).wrapping_add(1_013_904_223);
        *byte = (state >> 24) as u8;
    }
}

// Converts the bytes to work values `rounds` times, and back where the format is written.
fn carry(format: Format, rounds: u32, bytes: &mut [u8], values: &mut [i32])
    requires whole { IsWhole format }
    requires size { length bytes.old ≡ size_of format * length values.old }
{
    for _ in 0..rounds {
        unpack(format, bytes, values);
        to_work(format.width(), Width::W32, values);
        if format.is_linear() {
            to_work(Width::W32, format.width(), values);
            pack(format, values, bytes);
        }
    }
}

fn sum(bytes: &[u8], values: &[i32]) -> u32 {
    let mut sum: u32 = 0;
    for byte in bytes {
        sum = sum.wrapping_mul(31).wrapping_add(u32::from(*byte));
    }
    for value in values {
        sum = sum
            .wrapping_mul(31)
            .wrapping_add(u32::from_le_bytes(value.to_le_bytes()));
    }
    sum
}

// The format with a code; S16LE where that has none, or one of floating point.
pub fn whole_format(code: u32) -> Format
    ensures { IsWhole result }
{
    match Format::from_code(code.min(255) as u8) {
        Some(format) if format.is_whole() => format,
        _ => Format::S16Le,
    }
}

/// Converts 4,096 samples of the format with code `code`, S16LE where that has no whole numbers, to 32-bit work values, and back where the format is
/// written, `rounds` times; the line has a sum over them. Takes memory.
pub fn sound_line(alloc: Global, rounds: u32, code: u32) -> Mem<String> {
    let format = whole_format(code);
    let mut bytes = vec![in alloc; 0u8; format.size() * SAMPLES]?;
    let mut values = vec![in alloc; 0i32; SAMPLES]?;
    fill(&mut bytes, rounds);
    carry(format, rounds, &mut bytes, &mut values);
    Ok(format!(in alloc; "{}", sum(&bytes, &values))?)
}
