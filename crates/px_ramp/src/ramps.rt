// The ramps of an input.
ghost use Rattle.std.specs.Prelude.{◌≡◌, ◌≤◌, ◌<◌, ◌+◌, ℕ, map, take, length};
ghost use Rattle.px_ramp.specs.Ramp.{flat, all_aimed};
ghost use Rattle.px_ramp.specs.RampMix.{values_at};

use crate::ramp::Ramp;
use px_vol::Factors;
use std::marker::Model;

/// The ramps of an input, one for each channel of its sink, at most 32.
#[derive(Debug, Drop)]
pub struct Ramps {
    count: u8,
    items: [Ramp; 32],
}

impl Model for Ramps {
    ghost use Rattle.std.specs.Prelude.{List, ◌≡◌, ◌≤◌, length, take};
    ghost use Rattle.px_ramp.specs.declared.ramp.Ramp.{Ramp};

    ghost Value = { List Ramp };

    ghost view = { λ r. take r.count r.items };

    ghost invariant = { λ r. (r.count ≤ 32) × (length (take r.count r.items) ≡ r.count) };
}

/// An input's index with its ramps.
#[derive(Debug, Drop)]
pub struct InputRamps {
    pub input: u32,
    pub ramps: Ramps,
}

// Replaces the first ramps by flat ones.
fn flatten(ramps: &mut [Ramp], factors: &[u32])
    requires { length factors.now ≤ length ramps.old }
    ensures size { length ramps.new ≡ length ramps.old }
    ensures ramps { take (length factors.now) ramps.new ≡ map flat factors.now }
{
    for i in 0..factors.len() {
        ramps[i] = Ramp::flat(factors[i]);
    }
}

// Aims each ramp at its factor, if there is one.
fn aim_each(ramps: &mut [Ramp], frames: u32, at: u64, factors: &[u32])
    requires { 1 ≤ frames }
    ensures { ramps.new ≡ all_aimed frames at factors.now ramps.old }
{
    let count = factors.len().min(ramps.len());
    for i in 0..count {
        ramps[i] = ramps[i].aimed(frames, at, factors[i]);
    }
}

// Writes the value of each ramp at frame `at`.
fn read_each(ramps: &[Ramp], frames: u32, at: u64, out: &mut [u32])
    requires some { 1 ≤ frames }
    requires room { length ramps.now ≤ length out.old }
    ensures size { length out.new ≡ length out.old }
    ensures values { take (length ramps.now) out.new ≡ values_at frames at ramps.now }
{
    for i in 0..ramps.len() {
        out[i] = ramps[i].value(frames, at);
    }
}

// How many of the `most` frames from `at` on any ramp may be on its way to its factor.
fn running_of(ramps: &[Ramp], frames: u32, at: u64, factors: &[u32], most: u32) -> u32
    requires { 1 ≤ frames }
    ensures few { result ≤ most }
    ensures stands { (f : ℕ) → at + result ≤ f → f < at + most → values_at frames f ramps.now ≡ factors.now }
{
    if ramps.len() != factors.len() {
        return most;
    }
    let mut running: u32 = 0;
    for i in 0..ramps.len() {
        running = running.max(ramps[i].running(frames, at, factors[i], most));
    }
    running
}

impl Ramps {
    /// Factors that stay.
    pub fn flat(factors: &Factors) -> Ramps
        ensures { result ≡ map flat factors.now }
    {
        let mut items = [Ramp::flat(0); 32];
        flatten(&mut items, factors.values());
        Ramps {
            count: factors.values().len() as u8,
            items,
        }
    }

    /// Aims each ramp at its factor from frame `at` on.
    pub fn aim(&mut self, frames: u32, at: u64, factors: &Factors)
        requires { 1 ≤ frames }
        ensures { self.new ≡ all_aimed frames at factors.now self.old }
    {
        aim_each(
            &mut self.items[..self.count as usize],
            frames,
            at,
            factors.values(),
        );
    }

    /// The factors at frame `at`, where a ramp takes `frames` frames.
    pub fn factors(&self, frames: u32, at: u64) -> Factors
        requires { 1 ≤ frames }
        ensures { result ≡ values_at frames at self.now }
    {
        let mut values = [0; 32];
        let count = self.count as usize;
        read_each(&self.items[..count], frames, at, &mut values);
        Factors::new(&values[..count]).unwrap()
    }

    /// How many of the `most` frames from `at` on they may be on their way to these factors: they are there after them.
    pub(crate) fn running(&self, frames: u32, at: u64, factors: &Factors, most: u32) -> u32
        requires { 1 ≤ frames }
        ensures few { result ≤ most }
        ensures stands { (f : ℕ) → at + result ≤ f → f < at + most → values_at frames f self.now ≡ factors.now }
    {
        running_of(
            &self.items[..self.count as usize],
            frames,
            at,
            factors.values(),
            most,
        )
    }
}
