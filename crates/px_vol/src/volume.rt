ghost use Rattle.std.specs.Prelude.{◌≡◌, ◌≤◌};
ghost use Rattle.px_vol.specs.Volume.{product_of, quotient_of, cube_of, greatest};

/// The volume that leaves the sound as it is, `PA_VOLUME_NORM`.
pub const NORM: u32 = 0x10000;

/// The volume of silence, `PA_VOLUME_MUTED`.
pub const MUTED: u32 = 0;

/// The greatest volume, `PA_VOLUME_MAX`.
pub const MAX: u32 = 0x7FFF_FFFF;

/// The product of two volumes, rounded to the nearest, at most `MAX`. Each is at most `MAX`. Takes no memory. Source:
/// `pa_sw_volume_multiply` in PulseAudio's `pulse/volume.c`.
pub fn multiply(a: u32, b: u32) -> u32
    requires first { a ≤ greatest }
    requires second { b ≤ greatest }
    ensures { result ≡ product_of a b }
{
    let product = u64::from(a) * u64::from(b) + u64::from(NORM / 2);
    (product / u64::from(NORM)).min(u64::from(MAX)) as u32
}

/// The volume that `b` must be multiplied by to give `a`: their quotient, rounded to the nearest, at most `MAX`, and 0 where `b` is 0. Each
/// is at most `MAX`. Takes no memory. Source: `pa_sw_volume_divide` in PulseAudio's `pulse/volume.c`.
pub fn divide(a: u32, b: u32) -> u32
    requires first { a ≤ greatest }
    requires second { b ≤ greatest }
    ensures { result ≡ quotient_of a b }
{
    if b == 0 {
        return 0;
    }
    let scaled = u64::from(a) * u64::from(NORM) + u64::from(b / 2);
    (scaled / u64::from(b)).min(u64::from(MAX)) as u32
}

/// The linear factor of a volume, in 16.16, so that `NORM` is the factor 1: the cube, rounded to the nearest, at most 2^31 - 1. The volume
/// is at most `MAX`. Takes no memory. Source: `pa_sw_volume_to_linear` in PulseAudio's `pulse/volume.c`, in whole numbers.
pub fn cube(v: u32) -> u32
    requires { v ≤ greatest }
    ensures { result ≡ cube_of v }
{
    let v = u128::from(v);
    ((v * v * v + (1 << 31)) >> 32).min(u128::from(MAX)) as u32
}
