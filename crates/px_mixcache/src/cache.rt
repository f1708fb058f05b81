// The kept sums of all channels of a sink.
ghost use Rattle.std.specs.Prelude.{◌≡◌, ℕ, ◌+◌, ◌-◌, ◌*◌, ◌/◌, ◌^◌, ◌≤◌, ◌<◌, pos, length, slice_index, replicate, [], map, IfOk};
ghost use Rattle.std.specs.List.{concat, range_with_len};
ghost use Rattle.px_sample.specs.Format.{size_of, IsLinear};
ghost use Rattle.px_mixcache.specs.Packing.{frame_of};
ghost use Rattle.px_kernel.specs.Kernel.{changed};
ghost use Rattle.px_mixcache.specs.Run.{AreValues};
ghost use Rattle.px_mixcache.specs.Cache.{kept_at, part_at, run_at, run_of};

use crate::packing::pack_frames;
use crate::run::Run;
use crate::runs::{advance_all, change_all, empty_runs, extend_all};
use px_kernel::Steps;
use px_sample::Format;
use px_types::{Mem, NoMemory};
use px_vol::Factors;
use std::alloc::Global;
use std::marker::Model;
use std::sync::ledger::Ledger;

/// The sums of all streams, frame by frame and channel by channel, before clipping (own: PulseAudio mixes anew what it rewinds). It holds
/// consecutive frames.
#[derive(Debug, Drop)]
pub struct MixCache {
    runs: Vec<Run>,
    frames: usize,
    depth: usize,
}

impl Model for MixCache {
    ghost use Rattle.std.specs.Prelude.{◌≤◌, ◌≡◌, length};
    ghost use Rattle.px_mixcache.specs.Cache.{KeptSums, AreLong};

    ghost Value = { KeptSums };

    ghost view = { λ c. record { depth = c.depth; frames = c.frames; runs = c.runs.items } };

    ghost invariant = { λ c. (c.frames ≤ c.depth) × (1 ≤ length c.runs.items) × (length c.runs.items ≤ 32) × AreLong c.depth c.frames c.runs.items };
}

impl MixCache {
    /// Empty sums for `channels` channels, 1 to 32, with room for `depth` frames. Takes that room.
    pub fn new(alloc: Global, channels: u8, depth: u32) -> Mem<MixCache>
        requires some { 1 ≤ channels }
        requires few { channels ≤ 32 }
        ensures { IfOk result (λ c. c ≡ record { depth = depth; frames = 0; runs = replicate channels (record { depth = depth; sums = [] }) }) }
    {
        Ok(MixCache {
            runs: empty_runs(alloc, channels, depth)?,
            frames: 0,
            depth: depth as usize,
        })
    }

    /// Drops the first `frames` frames. Takes no memory.
    pub fn advance(&mut self, frames: u32)
        requires { frames ≤ self.old.frames }
        ensures depth { self.new.depth ≡ self.old.depth }
        ensures frames { self.new.frames ≡ self.old.frames - frames }
        ensures channels { length self.new.runs ≡ length self.old.runs }
        ensures sums { (c k : ℕ) → c < length self.old.runs → kept_at self.new c k ≡ kept_at self.old c (frames + k) }
    {
        let frames = frames as usize;
        advance_all(&mut self.runs, frames);
        self.frames -= frames;
    }

    /// Extends to `to` frames with silence. Takes no memory.
    pub fn extend(&mut self, to: u32)
        requires more { self.old.frames ≤ to }
        requires fits { to ≤ self.old.depth }
        ensures depth { self.new.depth ≡ self.old.depth }
        ensures frames { self.new.frames ≡ to }
        ensures channels { length self.new.runs ≡ length self.old.runs }
        ensures sums { (c k : ℕ) → c < length self.old.runs → kept_at self.new c k ≡ kept_at self.old c k }
        ensures nothing { (c k : ℕ) → c < length self.old.runs → self.old.frames ≤ k → kept_at self.new c k ≡ pos 0 }
    {
        extend_all(&mut self.runs, to as usize);
        self.frames = to as usize;
    }

    /// Adds the values, each times the factor of its channel, to the frames from `at` on, or subtracts them. `values` has one run per
    /// channel, all of equal length. Takes no memory.
    pub fn change<T: Ledger>(
        &mut self,
        at: u32,
        values: &[i32],
        factors: &Factors,
        add: bool,
        steps: &mut Steps<T>,
    )
        requires whole { length values.now ≡ length self.old.runs * (length values.now / length self.old.runs) }
        requires factors { length factors.now ≡ length self.old.runs }
        requires inside { at + length values.now / length self.old.runs ≤ self.old.frames }
        requires values { (c : ℕ) → c < length self.old.runs → AreValues add (run_at self.old.runs c).sums at (run_of (length values.now / length self.old.runs) values.now c) (slice_index factors.now c) }
        ensures depth { self.new.depth ≡ self.old.depth }
        ensures frames { self.new.frames ≡ self.old.frames }
        ensures channels { length self.new.runs ≡ length self.old.runs }
        ensures sums { (c k : ℕ) → c < length self.old.runs → k < self.old.frames → kept_at self.new c k ≡ changed add (kept_at self.old c k) (part_at at (length values.now / length self.old.runs) values.now factors.now c k) }
        ensures ticks { steps.new ≡ steps.old + length values.now }
    {
        let len = values.len() / self.runs.len();
        change_all(
            &mut self.runs,
            at as usize,
            len,
            values,
            factors.values(),
            add,
            steps,
        );
    }

    /// Writes the frames from `at` on into `out`, as a device gets them: each sum clipped once to the format's width, and packed. Takes no
    /// memory.
    pub fn frames<T: Ledger>(
        &self,
        at: u32,
        len: u32,
        format: Format,
        out: &mut [u8],
        steps: &mut Steps<T>,
    )
        requires linear { IsLinear format }
        requires inside { at + len ≤ self.now.frames }
        requires whole { length out.old ≡ len * (length self.now.runs * size_of format) }
        ensures bytes { out.new ≡ concat (map (frame_of format self.now.runs) (range_with_len at len)) }
        ensures ticks { steps.new ≡ steps.old + length self.now.runs * len }
    {
        pack_frames(&self.runs, at as usize, len as usize, format, out, steps);
    }
}
