// A ramp of one factor.
ghost use Rattle.std.specs.Prelude.{◌≡◌, ◌≤◌, ◌<◌, ◌+◌, ◌-◌, ◌*◌, ◌/◌, ℕ, min, pos, ◌+ℤ◌, ◌-ℤ◌, ◌*ℤ◌, unsigned_abs};
ghost use Rattle.std.specs.Int.{int_div_euclid};
ghost use Rattle.px_ramp.specs.Ramp.{value_at, flat, aimed};

/// A factor, in 65536ths, that goes evenly from one number to another over the frames from `start` on, counted from the first frame of its sink.
#[derive(Clone, Copy, Debug, PartialEq, Eq, Drop)]
pub struct Ramp {
    pub from: u32,
    pub to: u32,
    pub start: u64,
}

// How far a ramp over `frames` frames has come at frame `at`, of `frames`.
fn way(start: u64, at: u64, frames: u32) -> u32
    ensures { result ≡ min (at - start) frames }
{
    at.saturating_sub(start).min(frames as u64) as u32
}

// The part `way` of `frames` of a difference, with `more` of `frames` added before it is rounded down.
fn part(difference: u32, way: u32, frames: u32, more: u32) -> u32
    requires inside { way ≤ frames }
    requires more { more < frames }
    ensures value { result ≡ (difference * way + more) / frames }
    ensures within { result ≤ difference }
{
    ((difference as u64 * way as u64 + more as u64) / frames as u64) as u32
}

// The number that lies `way` of `frames` on the way from one to another, rounded down.
fn between(from: u32, to: u32, way: u32, frames: u32) -> u32
    requires some { 1 ≤ frames }
    requires inside { way ≤ frames }
    ensures { result ≡ unsigned_abs (pos from +ℤ int_div_euclid ((pos to -ℤ pos from) *ℤ pos way) (pos frames)) }
{
    if to < from {
        from - part(from - to, way, frames, frames - 1)
    } else {
        from + part(to - from, way, frames, 0)
    }
}

impl Ramp {
    /// A factor that stays.
    pub fn flat(factor: u32) -> Ramp
        ensures { result ≡ flat factor }
    {
        Ramp {
            from: factor,
            to: factor,
            start: 0,
        }
    }

    /// The factor at frame `at`, where a ramp takes `frames` frames.
    pub fn value(&self, frames: u32, at: u64) -> u32
        requires { 1 ≤ frames }
        ensures { result ≡ value_at frames self.now at }
    {
        between(self.from, self.to, way(self.start, at, frames), frames)
    }

    /// How many of the `most` frames from `at` on it may be on its way to `factor`: it is there after them. It is never there where it aims elsewhere.
    pub(crate) fn running(&self, frames: u32, at: u64, factor: u32, most: u32) -> u32
        requires { 1 ≤ frames }
        ensures few { result ≤ most }
        ensures stands { (f : ℕ) → at + result ≤ f → f < at + most → value_at frames self.now f ≡ factor }
    {
        if self.to == factor && self.from == self.to {
            return 0;
        }
        if self.to != factor || at < self.start {
            return most;
        }
        (frames - way(self.start, at, frames)).min(most)
    }

    /// The ramp with another aim from frame `at` on, starting at the value there. One that aims at it already stays what it is.
    pub fn aimed(self, frames: u32, at: u64, factor: u32) -> Ramp
        requires { 1 ≤ frames }
        ensures { result ≡ aimed frames at factor self }
    {
        if self.to == factor {
            return self;
        }
        Ramp {
            from: self.value(frames, at),
            to: factor,
            start: at,
        }
    }
}
