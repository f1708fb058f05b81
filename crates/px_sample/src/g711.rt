ghost use Rattle.std.specs.Prelude.{◌≡◌, ◌*◌, ◌^◌, ◌<◌};
ghost use Rattle.px_sample.specs.declared.format.Width.TheVariants.{W16};
ghost use Rattle.px_sample.specs.CompandedPcm.{a_law_of, mu_law_of, a_law_magnitude, mu_law_magnitude, segment_of, step_of};
ghost use Rattle.px_sample.specs.WorkValue.{IsWithin};

use crate::coding::ReadSample;

pub struct Alaw;

pub struct Ulaw;

impl ReadSample<1> for Alaw {
    ghost use Rattle.px_sample.specs.declared.format.Format.TheVariants.{Alaw as the_format};

    ghost format = { the_format };

    fn read(sample: &[u8; 1]) -> i32 {
        a_law(sample[0])
    }
}

impl ReadSample<1> for Ulaw {
    ghost use Rattle.px_sample.specs.declared.format.Format.TheVariants.{Ulaw as the_format};

    ghost format = { the_format };

    fn read(sample: &[u8; 1]) -> i32 {
        mu_law(sample[0])
    }
}

/// The 16-bit value of a mu-law code.
fn mu_law(code: u8) -> i32
    ensures value { result ≡ mu_law_of code }
    ensures within { IsWithin W16 result }
{
    let plain = 255 - code;
    let magnitude = mu_law_size(plain) as i32;
    if plain < 0x80 { magnitude } else { -magnitude }
}

/// The 16-bit value of an A-law code.
fn a_law(code: u8) -> i32
    ensures value { result ≡ a_law_of code }
    ensures within { IsWithin W16 result }
{
    let plain = code ^ 0x55;
    let magnitude = a_law_size(plain) as i32;
    if plain < 0x80 { -magnitude } else { magnitude }
}

/// The distance of a mu-law code from 0, at 16 bits.
fn mu_law_size(plain: u8) -> u32
    ensures value { result ≡ 4 * mu_law_magnitude (segment_of plain) (step_of plain) }
    ensures small { result < 2 ^ 15 }
{
    let step = (plain & 15) as u32;
    (((step << 3) + 132) << ((plain & 0x70) >> 4)) - 132
}

/// The distance of an A-law code from 0, at 16 bits.
fn a_law_size(plain: u8) -> u32
    ensures value { result ≡ 8 * a_law_magnitude (segment_of plain) (step_of plain) }
    ensures small { result < 2 ^ 15 }
{
    let step = ((plain & 15) as u32) << 4;
    let segment = (plain & 0x70) >> 4;
    if segment == 0 {
        step + 8
    } else {
        (step + 0x108) << (segment - 1)
    }
}
