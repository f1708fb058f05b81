ghost use Rattle.std.specs.Prelude.{◌≡◌, ◌*◌, length, All};
ghost use Rattle.px_sample.specs.Format.{size_of, width_of, IsWhole, IsLinear};
ghost use Rattle.px_sample.specs.WorkValue.{work_values_of, packed_of, IsWithin};

use crate::coding::{read_all, write_all};
use crate::format::Format;
use crate::g711::{Alaw, Ulaw};
use crate::linear::{S16Be, S16Le, S24Be, S24In32Be, S24In32Le, S24Le, S32Be, S32Le, U8};

/// Reads samples of a whole-number format, and puts the work value of each into its place of `out`, at the format's own width. `bytes` has
/// one sample for each place of `out`. 24 bits are read as the upper ones of 32, and the upper byte of `S24In32` is ignored. G.711 is
/// expanded to 16 bits. Takes no memory. Source: PulseAudio's `pulsecore/sconv.c`, and ITU-T G.711.
pub fn unpack(format: Format, bytes: &[u8], out: &mut [i32])
    requires whole { IsWhole format }
    requires lengths { length bytes.now ≡ size_of format * length out.old }
    ensures values { out.new ≡ work_values_of format bytes.now }
    ensures within { All (IsWithin (width_of format)) out.new }
{
    match format {
        Format::U8 => read_all::<1, U8>(bytes, out),
        Format::Alaw => read_all::<1, Alaw>(bytes, out),
        Format::Ulaw => read_all::<1, Ulaw>(bytes, out),
        Format::S16Le => read_all::<2, S16Le>(bytes, out),
        Format::S16Be => read_all::<2, S16Be>(bytes, out),
        Format::S24Le => read_all::<3, S24Le>(bytes, out),
        Format::S24Be => read_all::<3, S24Be>(bytes, out),
        Format::S24In32Le => read_all::<4, S24In32Le>(bytes, out),
        Format::S24In32Be => read_all::<4, S24In32Be>(bytes, out),
        Format::S32Le => read_all::<4, S32Le>(bytes, out),
        Format::S32Be => read_all::<4, S32Be>(bytes, out),
        Format::Float32Le | Format::Float32Be => unreachable!(),
    }
}

/// Writes work values as samples of a linear format, one after another, so that `out` is full. The values are at the format's own width. A
/// 24-bit format takes the upper 24 of 32 bits; the upper byte of `S24In32` becomes 0 (own: PulseAudio leaves it open). Takes no memory.
/// Source: PulseAudio's `pulsecore/sconv.c`.
pub fn pack(format: Format, values: &[i32], out: &mut [u8])
    requires linear { IsLinear format }
    requires within { All (IsWithin (width_of format)) values.now }
    requires lengths { length out.old ≡ size_of format * length values.now }
    ensures { out.new ≡ packed_of format values.now }
{
    match format {
        Format::U8 => write_all::<1, U8>(values, out),
        Format::S16Le => write_all::<2, S16Le>(values, out),
        Format::S16Be => write_all::<2, S16Be>(values, out),
        Format::S24Le => write_all::<3, S24Le>(values, out),
        Format::S24Be => write_all::<3, S24Be>(values, out),
        Format::S24In32Le => write_all::<4, S24In32Le>(values, out),
        Format::S24In32Be => write_all::<4, S24In32Be>(values, out),
        Format::S32Le => write_all::<4, S32Le>(values, out),
        Format::S32Be => write_all::<4, S32Be>(values, out),
        Format::Alaw | Format::Ulaw | Format::Float32Le | Format::Float32Be => unreachable!(),
    }
}
