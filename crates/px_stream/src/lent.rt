// Work values read in place, from a block that the queue lends.
ghost use Rattle.std.specs.Prelude.{◌≡◌, ℕ, ◌+◌, ◌*◌, ◌<◌, ◌≤◌, [], pos, length, take, drop, slice_index, slice_index_or, All, FitsSigned, IsTrue};
ghost use Rattle.std.specs.Int.{w32};
ghost use Rattle.px_sample.specs.declared.format.Format.TheVariants.{S16Le};
ghost use Rattle.px_sample.specs.declared.format.Width.TheVariants.{W16};
ghost use Rattle.px_sample.specs.WorkValue.{work_value_of};
ghost use Rattle.px_stream.specs.Lent.{LendsValues, sample_at};

use crate::state::StreamState;
use px_sample::{Format, Width};

impl StreamState {
    /// Lends the bytes of frames from place `k` past the read index on: at most `most`, and only whole frames of the block that has the first of
    /// them. Empty where there is none, or where the format's samples aren't the work values at the width.
    pub(crate) fn lent(&self, k: u32, width: Width, most: usize) -> &[u8]
        ensures { (n : ℕ) × LendsValues width self.now.stream k most n result.now }
    {
        if self.corked || !is_value(self.spec.format, width) {
            return &[];
        }
        self.queue.lend(k, most.min(u32::MAX as usize) as u32)
    }
}

// Whether samples of this format are the work values at this width: 16 bits, little-endian.
fn is_value(format: Format, width: Width) -> bool
    ensures format { IsTrue result → format ≡ S16Le }
    ensures width { IsTrue result → width ≡ W16 }
{
    match format {
        Format::S16Le => width == Width::W16,
        _ => false,
    }
}

/// Copies `frames` frames, given as bytes, into each run of `out` from `place` on, from the stream channel that feeds it.
pub(crate) fn scatter_samples(
    bytes: &[u8],
    channels: usize,
    feed: &[u8],
    run: usize,
    place: usize,
    frames: usize,
    out: &mut [i32],
)
    requires inside { place + frames ≤ run }
    requires runs { length out.old ≡ run * length feed.now }
    requires channels { All (λ channel. channel < channels) feed.now }
    requires whole { length bytes.now ≡ 2 * (frames * channels) }
    ensures values { (c j : ℕ) → c < length feed.now → j < frames → slice_index_or out.new (c * run + place + j) (pos 0) ≡ sample_at bytes.now (j * channels + slice_index feed.now c) }
    ensures before { (c i : ℕ) → c < length feed.now → i < place → slice_index_or out.new (c * run + i) (pos 0) ≡ slice_index_or out.old (c * run + i) (pos 0) }
    ensures after { (c i : ℕ) → c < length feed.now → place + frames ≤ i → i < run → slice_index_or out.new (c * run + i) (pos 0) ≡ slice_index_or out.old (c * run + i) (pos 0) }
    ensures fit { All (FitsSigned w32) out.old → All (FitsSigned w32) out.new }
{
    for c in 0..feed.len() {
        put_samples(
            bytes,
            channels,
            feed[c] as usize,
            c * run + place,
            frames,
            out,
        );
    }
}

// Copies one channel of `frames` frames to consecutive places of `out`.
fn put_samples(
    bytes: &[u8],
    channels: usize,
    channel: usize,
    start: usize,
    frames: usize,
    out: &mut [i32],
)
    requires channel { channel < channels }
    requires whole { length bytes.now ≡ 2 * (frames * channels) }
    requires inside { start + frames ≤ length out.old }
    ensures values { (j : ℕ) → j < frames → slice_index_or out.new (start + j) (pos 0) ≡ sample_at bytes.now (j * channels + channel) }
    ensures before { (i : ℕ) → i < start → slice_index_or out.new i (pos 0) ≡ slice_index_or out.old i (pos 0) }
    ensures after { (i : ℕ) → start + frames ≤ i → slice_index_or out.new i (pos 0) ≡ slice_index_or out.old i (pos 0) }
    ensures fit { All (FitsSigned w32) out.old → All (FitsSigned w32) out.new }
{
    if channels == 2 {
        let (pairs, _) = bytes.as_chunks::<4>();
        put_samples_of_two(pairs, channel, start, frames, out);
    } else {
        let (samples, _) = bytes.as_chunks::<2>();
        put_samples_of_any(samples, channels, channel, start, frames, out);
    }
}

// The same for two channels, whose frames are read as words: a processor reads consecutive words together, and samples that lie apart one by one.
fn put_samples_of_two(
    pairs: &[[u8; 4]],
    channel: usize,
    start: usize,
    frames: usize,
    out: &mut [i32],
)
    requires channel { channel < 2 }
    requires whole { frames ≤ length pairs.now }
    requires inside { start + frames ≤ length out.old }
    ensures values { (j : ℕ) → j < frames → slice_index_or out.new (start + j) (pos 0) ≡ work_value_of S16Le (take 2 (drop (channel * 2) (slice_index_or pairs.now j []))) }
    ensures before { (i : ℕ) → i < start → slice_index_or out.new i (pos 0) ≡ slice_index_or out.old i (pos 0) }
    ensures after { (i : ℕ) → start + frames ≤ i → slice_index_or out.new i (pos 0) ≡ slice_index_or out.old i (pos 0) }
    ensures fit { All (FitsSigned w32) out.old → All (FitsSigned w32) out.new }
{
    for j in 0..frames {
        out[start + j] = read_sample(&sample_of(&pairs[j], channel));
    }
}

// One of the two samples of a frame, out of all its bytes.
fn sample_of(pair: &[u8; 4], channel: usize) -> [u8; 2]
    requires { channel < 2 }
    ensures { result ≡ take 2 (drop (channel * 2) pair.now) }
{
    let word = u32::from_le_bytes(*pair);
    if channel == 0 {
        ((word % 65_536) as u16).to_le_bytes()
    } else {
        ((word / 65_536) as u16).to_le_bytes()
    }
}

// The same for any number of channels.
fn put_samples_of_any(
    samples: &[[u8; 2]],
    channels: usize,
    channel: usize,
    start: usize,
    frames: usize,
    out: &mut [i32],
)
    requires channel { channel < channels }
    requires whole { frames * channels ≤ length samples.now }
    requires inside { start + frames ≤ length out.old }
    ensures values { (j : ℕ) → j < frames → slice_index_or out.new (start + j) (pos 0) ≡ work_value_of S16Le (slice_index_or samples.now (j * channels + channel) []) }
    ensures before { (i : ℕ) → i < start → slice_index_or out.new i (pos 0) ≡ slice_index_or out.old i (pos 0) }
    ensures after { (i : ℕ) → start + frames ≤ i → slice_index_or out.new i (pos 0) ≡ slice_index_or out.old i (pos 0) }
    ensures fit { All (FitsSigned w32) out.old → All (FitsSigned w32) out.new }
{
    for j in 0..frames {
        out[start + j] = read_sample(&samples[j * channels + channel]);
    }
}

// The work value of a little-endian sample of 16 bits.
fn read_sample(sample: &[u8; 2]) -> i32
    ensures { result ≡ work_value_of S16Le sample.now }
{
    i32::from(i16::from_le_bytes(*sample))
}
