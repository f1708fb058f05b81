// The work values of a stream's frames, for a mix.
ghost use Rattle.std.specs.Prelude.{◌≡◌, ◌≢◌, ℕ, ◌+◌, ◌*◌, ◌/◌, ◌%◌, ◌<◌, ◌≤◌, pos, length, map, slice_index, slice_index_or, All, FitsSigned, IsTrue, IsFalse};
ghost use Rattle.std.specs.Int.{w32};
ghost use Rattle.px_sample.specs.Format.{width_of, size_of, frame_size_of, IsWhole};
ghost use Rattle.px_sample.specs.WorkValue.{work_values_of, at_width, IsWithin};
ghost use Rattle.px_model.specs.Queue.{nothing};
ghost use Rattle.px_model.specs.Stream.{frame_at};
ghost use Rattle.px_stream.specs.Values.{GivesValues, value_at};

use crate::lent::scatter_samples;
use crate::state::StreamState;
use px_kernel::Steps;
use px_queue::Span;
use px_sample::{Format, Spec, Width, to_work, unpack};
use std::sync::ledger::Ledger;

/// The most samples that are read at once, and their most bytes.
const MOST_SAMPLES: usize = 256;

const MOST_BYTES: usize = 1024;

impl StreamState {
    /// As `Stream::frame_values`.
    pub(crate) fn frame_values<T: Ledger>(
        &self,
        from: u32,
        width: Width,
        out: &mut [i32],
        steps: &mut Steps<T>,
    ) -> u32
        requires { (n : ℕ) × (length out.old ≡ n * length self.now.stream.feed) }
        ensures values { (n : ℕ) → length out.old ≡ n * length self.now.stream.feed → GivesValues width self.now.stream from n result out.old out.new }
        ensures words { All (FitsSigned w32) out.old → All (FitsSigned w32) out.new }
        ensures ticks { steps.new ≡ steps.old + length self.now.stream.feed * result }
    {
        let given = self.give_values(from, width, out);
        steps.tick(self.feed.channels().len() as u64 * given as u64);
        given
    }

    /// The same without counting steps, for a mix that promises no bound on them. Takes no memory.
    fn give_values(&self, from: u32, width: Width, out: &mut [i32]) -> u32
        requires { (n : ℕ) × (length out.old ≡ n * length self.now.stream.feed) }
        ensures values { (n : ℕ) → length out.old ≡ n * length self.now.stream.feed → GivesValues width self.now.stream from n result out.old out.new }
        ensures words { All (FitsSigned w32) out.old → All (FitsSigned w32) out.new }
    {
        let run = run_of(out.len(), self.feed.channels().len());
        let mut count: u32 = 0;
        while (count as usize) < run && count < u32::MAX - from {
            let most = (run - count as usize).min((u32::MAX - from - count) as usize);
            let given = self.put_values(from + count, width, run, count as usize, most, out);
            if given == 0 {
                return count;
            }
            count += given;
        }
        count
    }

    // Reads the values of at most `most` frames from place `k` past the read index on into each run from `place` on, and answers how many frames it
    // gave. There are two ways. Most streams have samples of 16 bits, which at that width need only be copied, and most frames lie whole in one
    // block: these are read in place. Others go through scratch arrays, which takes any format to any width, and joins a frame that lies in two
    // blocks.
    fn put_values(
        &self,
        k: u32,
        width: Width,
        run: usize,
        place: usize,
        most: usize,
        out: &mut [i32],
    ) -> u32
        requires some { 1 ≤ most }
        requires inside { place + most ≤ run }
        requires runs { length out.old ≡ run * length self.now.stream.feed }
        ensures few { result ≤ most }
        ensures none { result ≡ 0 → frame_at self.now.stream k ≡ nothing }
        ensures there { (j : ℕ) → j < result → frame_at self.now.stream (k + j) ≢ nothing }
        ensures values { (c j : ℕ) → c < length self.now.stream.feed → j < result → slice_index_or out.new (c * run + place + j) (pos 0) ≡ value_at width self.now.stream c (frame_at self.now.stream (k + j)) }
        ensures before { (c i : ℕ) → c < length self.now.stream.feed → i < place → slice_index_or out.new (c * run + i) (pos 0) ≡ slice_index_or out.old (c * run + i) (pos 0) }
        ensures after { (c i : ℕ) → c < length self.now.stream.feed → place + result ≤ i → i < run → slice_index_or out.new (c * run + i) (pos 0) ≡ slice_index_or out.old (c * run + i) (pos 0) }
        ensures fit { All (FitsSigned w32) out.old → All (FitsSigned w32) out.new }
    {
        let bytes = self.lent(k, width, most);
        if bytes.is_empty() {
            return self.put_read(k, width, run, place, most, out);
        }
        let channels = self.spec.channels as usize;
        let frames = frames_in(bytes.len(), channels);
        let feed = self.feed.channels();
        scatter_samples(bytes, channels, feed, run, place, frames, out);
        frames as u32
    }

    // The same through scratch arrays, of as many frames as fit these.
    fn put_read(
        &self,
        k: u32,
        width: Width,
        run: usize,
        place: usize,
        most: usize,
        out: &mut [i32],
    ) -> u32
        requires some { 1 ≤ most }
        requires inside { place + most ≤ run }
        requires runs { length out.old ≡ run * length self.now.stream.feed }
        ensures few { result ≤ most }
        ensures none { result ≡ 0 → frame_at self.now.stream k ≡ nothing }
        ensures there { (j : ℕ) → j < result → frame_at self.now.stream (k + j) ≢ nothing }
        ensures values { (c j : ℕ) → c < length self.now.stream.feed → j < result → slice_index_or out.new (c * run + place + j) (pos 0) ≡ value_at width self.now.stream c (frame_at self.now.stream (k + j)) }
        ensures before { (c i : ℕ) → c < length self.now.stream.feed → i < place → slice_index_or out.new (c * run + i) (pos 0) ≡ slice_index_or out.old (c * run + i) (pos 0) }
        ensures after { (c i : ℕ) → c < length self.now.stream.feed → place + result ≤ i → i < run → slice_index_or out.new (c * run + i) (pos 0) ≡ slice_index_or out.old (c * run + i) (pos 0) }
        ensures fit { All (FitsSigned w32) out.old → All (FitsSigned w32) out.new }
    {
        let channels = self.spec.channels as usize;
        let frames = most.min(MOST_SAMPLES / channels);
        let mut scratch = [0; MOST_SAMPLES];
        let values = &mut scratch[..frames * channels];
        let given = self.read_values(k, width, frames, values);
        scatter(
            values,
            channels,
            self.feed.channels(),
            run,
            place,
            given as usize,
            out,
        );
        given
    }

    // Reads the values of at most `frames` frames from place `k` past the read index on, one for each of the stream's channels, and answers how many
    // frames it gave.
    fn read_values(&self, k: u32, width: Width, frames: usize, values: &mut [i32]) -> u32
        requires some { 1 ≤ frames }
        requires few { frames * self.now.stream.spec.channels ≤ 256 }
        requires places { length values.old ≡ frames * self.now.stream.spec.channels }
        requires words { All (FitsSigned w32) values.old }
        ensures few { result ≤ frames }
        ensures none { result ≡ 0 → frame_at self.now.stream k ≡ nothing }
        ensures there { (j : ℕ) → j < result → frame_at self.now.stream (k + j) ≢ nothing }
        ensures words { All (FitsSigned w32) values.new }
        ensures values { (c j : ℕ) → c < length self.now.stream.feed → j < result → slice_index_or values.new (j * self.now.stream.spec.channels + slice_index self.now.stream.feed c) (pos 0) ≡ value_at width self.now.stream c (frame_at self.now.stream (k + j)) }
    {
        if self.corked {
            return 0;
        }
        let mut scratch = [0; MOST_BYTES];
        let end = bytes_of(self.spec, frames);
        let bytes = &mut scratch[..end];
        match self.queue.peek(k, bytes) {
            Span::Nothing => 0,
            Span::Silence(given) => {
                values.fill(0);
                given
            }
            Span::Frames(given) => {
                read_samples(self.spec.format, width, bytes, values);
                given
            }
        }
    }
}

// The length of each of `runs` runs of `places` places in all. A length of 1 is found without a division.
fn run_of(places: usize, runs: usize) -> usize
    requires { 1 ≤ runs }
    ensures { result ≡ places / runs }
{
    if places == runs { 1 } else { places / runs }
}

// How many frames of `channels` samples of 16 bits these bytes have. Those of two channels are found without a division.
fn frames_in(bytes: usize, channels: usize) -> usize
    requires some { 1 ≤ channels }
    requires few { channels < 256 }
    ensures { result ≡ bytes / (2 * channels) }
{
    if channels == 2 {
        bytes / 4
    } else {
        bytes / (2 * channels)
    }
}

// The bytes of `frames` frames.
fn bytes_of(spec: Spec, frames: usize) -> usize
    requires { frames * spec.channels ≤ 256 }
    ensures value { result ≡ frames * frame_size_of spec }
    ensures few { result ≤ 1024 }
    ensures samples { result ≡ size_of spec.format * (frames * spec.channels) }
{
    frames * spec.frame_size()
}

// Reads the work values of samples, at a width.
fn read_samples(format: Format, width: Width, bytes: &[u8], values: &mut [i32])
    requires whole { IsWhole format }
    requires size { length bytes.now ≡ size_of format * length values.old }
    ensures values { values.new ≡ map (at_width (width_of format) width) (work_values_of format bytes.now) }
    ensures within { All (IsWithin width) values.new }
{
    unpack(format, bytes, values);
    to_work(format.width(), width, values);
}

// Copies the values of `frames` frames into each run from `place` on, from the stream channel that feeds it.
fn scatter(
    values: &[i32],
    channels: usize,
    feed: &[u8],
    run: usize,
    place: usize,
    frames: usize,
    out: &mut [i32],
)
    requires inside { place + frames ≤ run }
    requires runs { length out.old ≡ run * length feed.now }
    requires channels { All (λ channel. channel < channels) feed.now }
    requires whole { frames * channels ≤ length values.now }
    requires words { All (FitsSigned w32) values.now }
    ensures values { (c j : ℕ) → c < length feed.now → j < frames → slice_index_or out.new (c * run + place + j) (pos 0) ≡ slice_index_or values.now (j * channels + slice_index feed.now c) (pos 0) }
    ensures before { (c i : ℕ) → c < length feed.now → i < place → slice_index_or out.new (c * run + i) (pos 0) ≡ slice_index_or out.old (c * run + i) (pos 0) }
    ensures after { (c i : ℕ) → c < length feed.now → place + frames ≤ i → i < run → slice_index_or out.new (c * run + i) (pos 0) ≡ slice_index_or out.old (c * run + i) (pos 0) }
    ensures fit { All (FitsSigned w32) out.old → All (FitsSigned w32) out.new }
{
    for c in 0..feed.len() {
        put_channel(
            values,
            channels,
            feed[c] as usize,
            c * run + place,
            frames,
            out,
        );
    }
}

// Copies one channel of `frames` frames to consecutive places of `out`.
fn put_channel(
    values: &[i32],
    channels: usize,
    channel: usize,
    start: usize,
    frames: usize,
    out: &mut [i32],
)
    requires channel { channel < channels }
    requires whole { frames * channels ≤ length values.now }
    requires inside { start + frames ≤ length out.old }
    requires words { All (FitsSigned w32) values.now }
    ensures values { (j : ℕ) → j < frames → slice_index_or out.new (start + j) (pos 0) ≡ slice_index_or values.now (j * channels + channel) (pos 0) }
    ensures before { (i : ℕ) → i < start → slice_index_or out.new i (pos 0) ≡ slice_index_or out.old i (pos 0) }
    ensures after { (i : ℕ) → start + frames ≤ i → slice_index_or out.new i (pos 0) ≡ slice_index_or out.old i (pos 0) }
    ensures fit { All (FitsSigned w32) out.old → All (FitsSigned w32) out.new }
{
    if channels == 2 {
        put_of_two(values, channel, start, frames, out);
    } else {
        put_of_any(values, channels, channel, start, frames, out);
    }
}

// The same for two channels, a number that the compiler knows here.
fn put_of_two(values: &[i32], channel: usize, start: usize, frames: usize, out: &mut [i32])
    requires channel { channel < 2 }
    requires whole { frames * 2 ≤ length values.now }
    requires inside { start + frames ≤ length out.old }
    requires words { All (FitsSigned w32) values.now }
    ensures values { (j : ℕ) → j < frames → slice_index_or out.new (start + j) (pos 0) ≡ slice_index_or values.now (j * 2 + channel) (pos 0) }
    ensures before { (i : ℕ) → i < start → slice_index_or out.new i (pos 0) ≡ slice_index_or out.old i (pos 0) }
    ensures after { (i : ℕ) → start + frames ≤ i → slice_index_or out.new i (pos 0) ≡ slice_index_or out.old i (pos 0) }
    ensures fit { All (FitsSigned w32) out.old → All (FitsSigned w32) out.new }
{
    for j in 0..frames {
        out[start + j] = values[j * 2 + channel];
    }
}

// The same for any number of channels.
fn put_of_any(
    values: &[i32],
    channels: usize,
    channel: usize,
    start: usize,
    frames: usize,
    out: &mut [i32],
)
    requires channel { channel < channels }
    requires whole { frames * channels ≤ length values.now }
    requires inside { start + frames ≤ length out.old }
    requires words { All (FitsSigned w32) values.now }
    ensures values { (j : ℕ) → j < frames → slice_index_or out.new (start + j) (pos 0) ≡ slice_index_or values.now (j * channels + channel) (pos 0) }
    ensures before { (i : ℕ) → i < start → slice_index_or out.new i (pos 0) ≡ slice_index_or out.old i (pos 0) }
    ensures after { (i : ℕ) → start + frames ≤ i → slice_index_or out.new i (pos 0) ≡ slice_index_or out.old i (pos 0) }
    ensures fit { All (FitsSigned w32) out.old → All (FitsSigned w32) out.new }
{
    for j in 0..frames {
        out[start + j] = values[j * channels + channel];
    }
}
