// Copying frames out, or lending them.
ghost use Rattle.std.specs.Prelude.{◌≡◌, ℕ, ◌+◌, ◌*◌, ◌/◌, ◌<◌, ◌≤◌, length, take, drop, IsSome, None, Some};
ghost use Rattle.px_model.specs.Held.{place};
ghost use Rattle.px_queue.specs.Peeked.{Peeks, LendsFrames, Copies};

use crate::FrameQueue;

/// What a peek finds past the read index.
#[derive(Clone, Copy, Debug, PartialEq, Eq)]
pub enum Span {
    /// The number of frames, at least one.
    Frames(u32),
    /// The number of silent places, at least one: no frame is held there.
    Silence(u32),
    /// Nothing: the queue is short of prebuf, or ends before.
    Nothing,
}

impl FrameQueue {
    /// Copies the frames held from `k` frames past the read index on to the front of `out`. It stops at the first hole or the end of `out`; where
    /// place `k` is a hole it answers how many places are silent there. The rest of `out` stays. Takes no memory. (PulseAudio: `pa_memblockq_peek`,
    /// which lends a block; own: frames are copied.)
    pub fn peek(&self, k: u32, out: &mut [u8]) -> Span
        requires some { self.now.frame ≤ length out.old }
        requires whole { (n : ℕ) × (length out.old ≡ n * self.now.frame) }
        ensures { Peeks self.now k out.old out.new result }
    {
        let left = self.left();
        if self.is_short() || left <= k as u64 {
            return Span::Nothing;
        }
        let most = frames_in(out.len(), self.frame as usize)
            .min(u32::MAX as usize)
            .min((left - k as u64) as usize) as u32;
        let frames = self.copy_frames(k as u64, most, out);
        if frames > 0 {
            return Span::Frames(frames);
        }
        Span::Silence(self.holes(k, most))
    }

    /// Lends the bytes of the frames held from `k` frames past the read index on: at most `most`, and only whole frames of the block that has the
    /// first byte. Empty where there is none: the queue is short of prebuf, it ends before, no frame is held there, or the frame lies in two blocks.
    /// Takes no memory. (PulseAudio: `pa_memblockq_peek`.)
    pub fn lend(&self, k: u32, most: u32) -> &[u8]
        ensures { (n : ℕ) × LendsFrames self.now k most n result.now }
    {
        if self.is_short() || self.held <= k as u64 {
            return &[];
        }
        let size = self.frame as usize;
        let from = self.read.onward(k as u64).byte_index(self.frame);
        let bytes = self.chunks.lend(from, most as usize * size);
        &bytes[..bytes.len() / size * size]
    }

    // Copies the frames held from place `k` on, up to the first hole and at most `most`, and answers how many.
    fn copy_frames(&self, k: u64, most: u32, out: &mut [u8]) -> u32
        requires { most * self.now.frame ≤ length out.old }
        ensures few { result ≤ most }
        ensures frames { (j : ℕ) → j < result → place self.now.queue.held (k + j) ≡ Some (take self.now.frame (drop (j * self.now.frame) out.new)) }
        ensures rest { drop (result * self.now.frame) out.new ≡ drop (result * self.now.frame) out.old }
        ensures end { result < most → place self.now.queue.held (k + result) ≡ None }
    {
        if k >= self.held {
            return 0;
        }
        let size = self.frame as usize;
        let from = self.read.onward(k).byte_index(self.frame);
        let frames = self.chunks.run(from, most as usize * size) / size;
        self.chunks.copy_from(from, &mut out[..frames * size]);
        frames as u32
    }

    // How many places from place `k` on are holes, at most `most`.
    pub(crate) fn holes(&self, k: u32, most: u32) -> u32
        ensures few { result ≤ most }
        ensures holes { (j : ℕ) → j < result → place self.now.queue.held (k + j) ≡ None }
        ensures end { result < most → IsSome (place self.now.queue.held (k + result)) }
    {
        let mut count: u32 = 0;
        while count < most {
            let run = self.hole(k as u64 + count as u64, most - count);
            if run == 0 {
                return count;
            }
            count += run;
        }
        count
    }

    // How many places from place `k` on are surely holes, at most `most`: 0 only where a frame is held at `k`.
    fn hole(&self, k: u64, most: u32) -> u32
        requires some { 1 ≤ most }
        ensures few { result ≤ most }
        ensures holes { (j : ℕ) → j < result → place self.now.queue.held (k + j) ≡ None }
        ensures none { result ≡ 0 → IsSome (place self.now.queue.held k) }
    {
        if k >= self.held {
            return most;
        }
        let size = self.frame as usize;
        let from = self.read.onward(k).byte_index(self.frame);
        let run = self.chunks.run(from, size);
        if run == size {
            return 0;
        }
        if run > 0 {
            return 1;
        }
        let gap = self.chunks.gap(from, most as usize * size) / size;
        gap.max(1) as u32
    }

    /// Copies the frame held at place `k` past the read index, and answers whether there is one.
    pub(crate) fn copy_frame(&self, k: u64, out: &mut [u8]) -> bool
        requires { length out.old ≡ self.now.frame }
        ensures { Copies result (place self.now.queue.held k) out.old out.new }
    {
        self.copy_frames(k, 1, out) > 0
    }
}

// How many whole frames of `size` bytes these bytes have. One is found without a division.
fn frames_in(bytes: usize, size: usize) -> usize
    requires { 1 ≤ size }
    ensures { result ≡ bytes / size }
{
    if bytes == size { 1 } else { bytes / size }
}
