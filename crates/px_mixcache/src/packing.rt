// The frames that the kept sums become.
ghost use Rattle.std.specs.Prelude.{◌≡◌, ◌≢◌, ℕ, ◌+◌, ◌*◌, ◌%◌, ◌^◌, ◌<◌, ◌≤◌, map, length, pos, IsTrue};
ghost use Rattle.std.specs.Int.{saturate_signed};
ghost use Rattle.std.specs.List.{concat, range_with_len};
ghost use Rattle.px_sample.specs.declared.format.Format.TheVariants.{S16Le};
ghost use Rattle.px_sample.specs.Format.{width_of, size_of, IsLinear};
ghost use Rattle.px_sample.specs.WorkValue.{IsWithin};
ghost use Rattle.px_kernel.specs.Kernel.{at, bits_of};
ghost use Rattle.px_mixcache.specs.Cache.{run_at};
ghost use Rattle.px_mixcache.specs.Packing.{frame_of};

use crate::run::Run;
use crate::stereo::pack_stereo;
use px_kernel::{Steps, clip_pack};
use px_sample::{Format, Width, pack};
use std::sync::ledger::Ledger;

// The most samples of a stretch: 128 frames of 2 channels, or 8 of 32.
const PLACES: usize = 256;

/// Writes `frames` frames from `from` on into `out`, which has exactly that room: each sum clipped once to the format's width, and packed.
pub(crate) fn pack_frames<T: Ledger>(
    runs: &[Run],
    from: usize,
    frames: usize,
    format: Format,
    out: &mut [u8],
    steps: &mut Steps<T>,
)
    requires linear { IsLinear format }
    requires some { 1 ≤ length runs.now }
    requires few { length runs.now ≤ 32 }
    requires near { from + frames < 2 ^ 64 }
    requires inside { (c : ℕ) → c < length runs.now → from + frames ≤ length (run_at runs.now c).sums }
    requires whole { length out.old ≡ frames * (length runs.now * size_of format) }
    ensures bytes { out.new ≡ concat (map (frame_of format runs.now) (range_with_len from frames)) }
    ensures ticks { steps.new ≡ steps.old + length runs.now * frames }
{
    if is_stereo(runs.len(), format) {
        pack_stereo(runs, from, frames, out);
        steps.tick(2 * frames as u64);
    } else {
        pack_stretches(runs, from, frames, format, out, steps);
    }
}

// Whether a frame has two samples of 16 bits, little-endian.
fn is_stereo(channels: usize, format: Format) -> bool
    ensures two { IsTrue result → channels ≡ 2 }
    ensures format { IsTrue result → format ≡ S16Le }
{
    match format {
        Format::S16Le => channels == 2,
        _ => false,
    }
}

// The same for any channels and format, by stretches that fit scratch room.
fn pack_stretches<T: Ledger>(
    runs: &[Run],
    from: usize,
    frames: usize,
    format: Format,
    out: &mut [u8],
    steps: &mut Steps<T>,
)
    requires linear { IsLinear format }
    requires some { 1 ≤ length runs.now }
    requires few { length runs.now ≤ 32 }
    requires near { from + frames < 2 ^ 64 }
    requires inside { (c : ℕ) → c < length runs.now → from + frames ≤ length (run_at runs.now c).sums }
    requires whole { length out.old ≡ frames * (length runs.now * size_of format) }
    ensures bytes { out.new ≡ concat (map (frame_of format runs.now) (range_with_len from frames)) }
    ensures ticks { steps.new ≡ steps.old + length runs.now * frames }
{
    let size = runs.len() * format.size();
    let most = PLACES / runs.len();
    let mut done = 0;
    while done < frames {
        let count = most.min(frames - done);
        let at = done * size;
        pack_stretch(
            runs,
            from + done,
            count,
            format,
            &mut out[at..at + count * size],
            steps,
        );
        done += count;
    }
}

// The frames of a stretch.
fn pack_stretch<T: Ledger>(
    runs: &[Run],
    from: usize,
    count: usize,
    format: Format,
    out: &mut [u8],
    steps: &mut Steps<T>,
)
    requires linear { IsLinear format }
    requires some { 1 ≤ length runs.now }
    requires few { length runs.now * count ≤ 256 }
    requires inside { (c : ℕ) → c < length runs.now → from + count ≤ length (run_at runs.now c).sums }
    requires whole { length out.old ≡ count * (length runs.now * size_of format) }
    ensures bytes { out.new ≡ concat (map (frame_of format runs.now) (range_with_len from count)) }
    ensures ticks { steps.new ≡ steps.old + length runs.now * count }
{
    let places = runs.len() * count;
    let mut clipped = [0; PLACES];
    let mut values = [0; PLACES];
    let values = &mut values[..places];
    values.fill(0);
    clip_channels(
        runs,
        from,
        count,
        format.width(),
        &mut clipped[..count],
        values,
        steps,
    );
    pack(format, values, out);
}

// Clips the sums of all channels, and stores them frame by frame.
fn clip_channels<T: Ledger>(
    runs: &[Run],
    from: usize,
    count: usize,
    width: Width,
    clipped: &mut [i32],
    values: &mut [i32],
    steps: &mut Steps<T>,
)
    requires clipped { length clipped.old ≡ count }
    requires values { length values.old ≡ length runs.now * count }
    requires within { (i : ℕ) → i < length values.old → IsWithin width (at values.old i) }
    requires inside { (c : ℕ) → c < length runs.now → from + count ≤ length (run_at runs.now c).sums }
    ensures long { length values.new ≡ length values.old }
    ensures values { (c j : ℕ) → c < length runs.now → j < count → at values.new (j * length runs.now + c) ≡ saturate_signed (bits_of width) (at (run_at runs.now c).sums (from + j)) }
    ensures within { (i : ℕ) → i < length values.old → IsWithin width (at values.new i) }
    ensures ticks { steps.new ≡ steps.old + length runs.now * count }
{
    for c in 0..runs.len() {
        clip_pack(&runs[c].sums()[from..from + count], width, clipped, steps);
        put_channel(clipped, width, runs.len(), c, values);
    }
}

// Stores the values of a channel frame by frame.
fn put_channel(from: &[i32], width: Width, channels: usize, channel: usize, values: &mut [i32])
    requires inside { channel < channels }
    requires places { length values.old ≡ channels * length from.now }
    requires good { (j : ℕ) → j < length from.now → IsWithin width (at from.now j) }
    requires within { (i : ℕ) → i < length values.old → IsWithin width (at values.old i) }
    ensures long { length values.new ≡ length values.old }
    ensures values { (j : ℕ) → j < length from.now → at values.new (j * channels + channel) ≡ at from.now j }
    ensures others { (i : ℕ) → i % channels ≢ channel → at values.new i ≡ at values.old i }
    ensures within { (i : ℕ) → i < length values.old → IsWithin width (at values.new i) }
{
    for j in 0..from.len() {
        values[j * channels + channel] = from[j];
    }
}
