// The number of frames that are due.
ghost use Rattle.std.specs.Prelude.{◌≡◌, ◌*◌, ◌^◌, ◌≤◌};
ghost use Rattle.px_paced.specs.Paced.{frames_of};

/// The whole frames in `microseconds` microseconds, at `rate` frames a second.
pub fn frames_of(rate: u32, microseconds: u64) -> u64
    requires { rate ≤ 192000 }
    ensures { result ≡ frames_of rate microseconds }
{
    (microseconds as u128 * rate as u128 / 1_000_000) as u64
}

/// The bytes of `frames` frames of `frame` bytes each.
pub fn bytes_of(frames: u64, frame: u32) -> usize
    requires few { frames ≤ 2 ^ 33 }
    requires small { frame ≤ 128 }
    ensures { result ≡ frames * frame }
{
    frames as usize * frame as usize
}
