//! Frames in microseconds.

ghost use Rattle.std.specs.Prelude.{◌≡◌, ◌≤◌};
ghost use Rattle.px_ctl_play.specs.Time.{microseconds};

/// The duration of `frames` frames in microseconds, at `rate` frames a second. Takes no memory.
pub(crate) fn microseconds(rate: u32, frames: u32) -> u64
    requires { 1 ≤ rate }
    ensures { result ≡ microseconds rate frames }
{
    u64::from(frames) * 1_000_000 / u64::from(rate)
}
