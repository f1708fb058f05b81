// Where nothing is heard of a queue.
ghost use Rattle.std.specs.Prelude.{◌≡◌, ℕ, ◌+◌, ◌<◌, ◌≤◌, ◌^◌, ◌==◌, ◌&&◌, ◌||◌, nat_lt, length, None};
ghost use Rattle.px_model.specs.Index.{above};
ghost use Rattle.px_queue.specs.Heard.{heard_of, is_silent};

use crate::FrameQueue;

/// The least number of places of a silence that a mix leaves out; shorter ones cost less to add than to leave out.
const LONG_SILENCE: u32 = 64;

impl FrameQueue {
    /// Whether nothing is heard of it: it is short of prebuf, or holds no frame.
    pub fn is_silent(&self) -> bool
        ensures { result ≡ is_silent self.now.queue }
    {
        self.is_silent_with(self.hold, self.prebuf)
    }

    /// The same with `hold` and `prebuf` in place of its own: whether it waits for frames before it plays, and for how many.
    pub fn is_silent_with(&self, hold: bool, prebuf: u32) -> bool
        ensures { result ≡ is_silent (record self.now.queue { hold = hold; prebuf = prebuf }) }
    {
        self.held == 0 || hold && self.write.above(self.read) < prebuf as u64
    }

    /// Whether it waits until prebuf frames are there before it plays.
    pub fn holds(&self) -> bool
        ensures { result ≡ self.now.queue.hold }
    {
        self.hold
    }

    /// How many places from `k` frames past the read index on are silent, at most `most`: no frame is held there, or the queue is short of prebuf.
    pub fn silent_places(&self, k: u32, most: u32) -> u32
        ensures few { result ≤ most }
        ensures silent { (j : ℕ) → j < result → heard_of self.now.queue (k + j) ≡ None }
    {
        if self.is_short() {
            most
        } else {
            self.holes(k, most)
        }
    }
    /// How many places from `k` frames past the read index on are to be mixed before the next silence that is long enough to leave out, at most
    /// `most`.
    pub fn places_to_silence(&self, k: u32, most: u32) -> u32
        requires some { 1 ≤ most }
        requires near { k + most < 2 ^ 32 }
        ensures some { 1 ≤ result }
        ensures few { result ≤ most }
    {
        let mut count = 0;
        while count < most {
            let left = most - count;
            let silent = self.silent_places(k + count, left.min(LONG_SILENCE));
            if silent == LONG_SILENCE {
                return count.max(1);
            }
            let frames = self.lent_frames(k + count + silent, left);
            count += silent.saturating_add(frames).max(1).min(left);
        }
        count
    }

    // How many frames from `k` frames past the read index on lie in one block, at most `most`.
    fn lent_frames(&self, k: u32, most: u32) -> u32
        ensures { result ≤ most }
    {
        let frames = self.lend(k, most).len() / self.frame as usize;
        frames.min(most as usize) as u32
    }
}
