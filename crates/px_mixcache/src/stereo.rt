// The frames of two channels at 16 bits, little-endian, straight from the sums: most sinks have these, and need no scratch room.
ghost use Rattle.std.specs.Prelude.{◌≡◌, ◌+◌, ◌*◌, ◌<◌, ◌≤◌, ◌^◌, ◌++◌, ℕ, map, take, length, FitsSigned, IsTrue};
ghost use Rattle.std.specs.Int.{saturate_signed, w16, w32};
ghost use Rattle.std.specs.List.{concat, range_with_len};
ghost use Rattle.px_sample.specs.declared.format.Format.TheVariants.{S16Le};
ghost use Rattle.px_sample.specs.WorkValue.{packed_sample};
ghost use Rattle.px_kernel.specs.Kernel.{at};
ghost use Rattle.px_mixcache.specs.Cache.{run_at};
ghost use Rattle.px_mixcache.specs.Packing.{frame_of, stereo_frames};

use crate::run::Run;

/// Writes `frames` frames from `from` on into `out`, which has exactly that room: each sum clipped once, and packed.
pub(crate) fn pack_stereo(runs: &[Run], from: usize, frames: usize, out: &mut [u8])
    requires two { length runs.now ≡ 2 }
    requires near { from + frames < 2 ^ 64 }
    requires inside { (c : ℕ) → c < length runs.now → from + frames ≤ length (run_at runs.now c).sums }
    requires whole { length out.old ≡ frames * 4 }
    ensures { out.new ≡ concat (map (frame_of S16Le runs.now) (range_with_len from frames)) }
{
    let left = &runs[0].sums()[from..from + frames];
    let right = &runs[1].sums()[from..from + frames];
    pack_two(left, right, out);
}

// The frames of two runs of sums, in lanes of 32 bits where all sums fit these.
fn pack_two(left: &[i64], right: &[i64], out: &mut [u8])
    requires long { length right.now ≡ length left.now }
    requires whole { length out.old ≡ length left.now * 4 }
    ensures { out.new ≡ stereo_frames left.now right.now 0 (length left.now) }
{
    if are_small(left, right) {
        pack_small(left, right, out);
    } else {
        pack_rest(left, right, 0, out);
    }
}

// Whether each sum fits 32 bits. All are looked at with no branch, several at a time.
fn are_small(left: &[i64], right: &[i64]) -> bool
    requires long { length right.now ≡ length left.now }
    ensures left { IsTrue result → (k : ℕ) → k < length left.now → FitsSigned w32 (at left.now k) }
    ensures right { IsTrue result → (k : ℕ) → k < length left.now → FitsSigned w32 (at right.now k) }
{
    let mut all: u64 = 0;
    for k in 0..left.len() {
        all = all | raised(left[k]) | raised(right[k]);
    }
    all < 4_294_967_296
}

// A sum plus 2^31, modulo 2^64: below 2^32 exactly where the sum fits 32 bits.
fn raised(sum: i64) -> u64
    ensures { result < 2 ^ 32 → FitsSigned w32 sum }
{
    sum.cast_unsigned().wrapping_add(2_147_483_648)
}

// The frames of sums that fit 32 bits: four at a time, and then the others.
fn pack_small(left: &[i64], right: &[i64], out: &mut [u8])
    requires long { length right.now ≡ length left.now }
    requires left { (k : ℕ) → k < length left.now → FitsSigned w32 (at left.now k) }
    requires right { (k : ℕ) → k < length left.now → FitsSigned w32 (at right.now k) }
    requires whole { length out.old ≡ length left.now * 4 }
    ensures { out.new ≡ stereo_frames left.now right.now 0 (length left.now) }
{
    let mut done = 0;
    while done + 4 <= left.len() {
        let at = done * 4;
        out[at..at + 16].copy_from_slice(&four_frames(left, right, done));
        done += 4;
    }
    pack_rest(left, right, done, out);
}

// Four frames of sums that fit 32 bits, from frame `k` on.
fn four_frames(left: &[i64], right: &[i64], k: usize) -> [u8; 16]
    requires inside { k + 4 ≤ length left.now }
    requires long { length right.now ≡ length left.now }
    requires left { (k : ℕ) → k < length left.now → FitsSigned w32 (at left.now k) }
    requires right { (k : ℕ) → k < length left.now → FitsSigned w32 (at right.now k) }
    ensures { result ≡ stereo_frames left.now right.now k 4 }
{
    let [a0, b0, c0, d0] = small_frame(left[k], right[k]);
    let [a1, b1, c1, d1] = small_frame(left[k + 1], right[k + 1]);
    let [a2, b2, c2, d2] = small_frame(left[k + 2], right[k + 2]);
    let [a3, b3, c3, d3] = small_frame(left[k + 3], right[k + 3]);
    [
        a0, b0, c0, d0, a1, b1, c1, d1, a2, b2, c2, d2, a3, b3, c3, d3,
    ]
}

// A frame of two sums that fit 32 bits.
fn small_frame(left: i64, right: i64) -> [u8; 4]
    requires left { FitsSigned w32 left }
    requires right { FitsSigned w32 right }
    ensures { result ≡ packed_sample S16Le (saturate_signed w16 left) ++ packed_sample S16Le (saturate_signed w16 right) }
{
    let [a, b] = clip_small(left as i32).to_le_bytes();
    let [c, d] = clip_small(right as i32).to_le_bytes();
    [a, b, c, d]
}

// A sum of 32 bits, clipped.
fn clip_small(sum: i32) -> i16
    ensures { result ≡ saturate_signed w16 sum }
{
    sum.clamp(-32_768, 32_767) as i16
}

// The frames from frame `done` on, after those that stand in `out`.
fn pack_rest(left: &[i64], right: &[i64], done: usize, out: &mut [u8])
    requires inside { done ≤ length left.now }
    requires long { length right.now ≡ length left.now }
    requires whole { length out.old ≡ length left.now * 4 }
    requires done { take (done * 4) out.old ≡ stereo_frames left.now right.now 0 done }
    ensures { out.new ≡ stereo_frames left.now right.now 0 (length left.now) }
{
    for k in done..left.len() {
        let at = k * 4;
        out[at..at + 4].copy_from_slice(&frame(left[k], right[k]));
    }
}

// A frame of the two sums.
fn frame(left: i64, right: i64) -> [u8; 4]
    ensures { result ≡ packed_sample S16Le (saturate_signed w16 left) ++ packed_sample S16Le (saturate_signed w16 right) }
{
    let [a, b] = sample(left);
    let [c, d] = sample(right);
    [a, b, c, d]
}

// The sample of a sum.
fn sample(sum: i64) -> [u8; 2]
    ensures { result ≡ packed_sample S16Le (saturate_signed w16 sum) }
{
    clip(sum).to_le_bytes()
}

// A sum, clipped.
fn clip(sum: i64) -> i16
    ensures { result ≡ saturate_signed w16 sum }
{
    sum.clamp(-32_768, 32_767) as i16
}
