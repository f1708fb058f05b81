ghost use Rattle.std.specs.Prelude.{◌≡◌, map, All};
ghost use Rattle.px_sample.specs.WorkValue.{at_width, IsWithin};

use crate::format::Width;

/// A conversion from one width to another.
trait Rescale {
    ghost use Rattle.px_sample.specs.declared.format.Width.{Width};

    ghost from: { Width };

    ghost to: { Width };

    fn rescale(value: i32) -> i32
        requires { IsWithin from value }
        ensures value { result ≡ at_width from to value }
        ensures within { IsWithin to result };
}

fn rescale_all<R: Rescale>(values: &mut [i32])
    requires { All (IsWithin R.from) values.old }
    ensures values { values.new ≡ map (at_width R.from R.to) values.old }
    ensures within { All (IsWithin R.to) values.new }
{
    for value in values.iter_mut() {
        *value = R::rescale(*value);
    }
}

struct From8To16;

struct From8To32;

struct From16To32;

struct From16To8;

struct From32To8;

struct From32To16;

impl Rescale for From8To16 {
    ghost use Rattle.px_sample.specs.declared.format.Width.TheVariants.{W8, W16};

    ghost from = { W8 };

    ghost to = { W16 };

    fn rescale(value: i32) -> i32 {
        value << 8
    }
}

impl Rescale for From8To32 {
    ghost use Rattle.px_sample.specs.declared.format.Width.TheVariants.{W8, W32};

    ghost from = { W8 };

    ghost to = { W32 };

    fn rescale(value: i32) -> i32 {
        value << 24
    }
}

impl Rescale for From16To32 {
    ghost use Rattle.px_sample.specs.declared.format.Width.TheVariants.{W16, W32};

    ghost from = { W16 };

    ghost to = { W32 };

    fn rescale(value: i32) -> i32 {
        value << 16
    }
}

impl Rescale for From16To8 {
    ghost use Rattle.px_sample.specs.declared.format.Width.TheVariants.{W16, W8};

    ghost from = { W16 };

    ghost to = { W8 };

    fn rescale(value: i32) -> i32 {
        value >> 8
    }
}

impl Rescale for From32To8 {
    ghost use Rattle.px_sample.specs.declared.format.Width.TheVariants.{W32, W8};

    ghost from = { W32 };

    ghost to = { W8 };

    fn rescale(value: i32) -> i32 {
        value >> 24
    }
}

impl Rescale for From32To16 {
    ghost use Rattle.px_sample.specs.declared.format.Width.TheVariants.{W32, W16};

    ghost from = { W32 };

    ghost to = { W16 };

    fn rescale(value: i32) -> i32 {
        value >> 16
    }
}

#[tactic(auto, using(crate::proofs::WidthLemmas::same_width))]
/// Converts work values from one width to another, in place: to a wider one by zeros below, to a narrower one by dropping bits, so that
/// values round towards minus infinity. Takes no memory. (Own: PulseAudio converts to the sink's format.)
pub fn to_work(from: Width, to: Width, values: &mut [i32])
    requires { All (IsWithin from) values.old }
    ensures values { values.new ≡ map (at_width from to) values.old }
    ensures within { All (IsWithin to) values.new }
{
    match (from, to) {
        (Width::W8, Width::W8) | (Width::W16, Width::W16) | (Width::W32, Width::W32) => {}
        (Width::W8, Width::W16) => rescale_all::<From8To16>(values),
        (Width::W8, Width::W32) => rescale_all::<From8To32>(values),
        (Width::W16, Width::W32) => rescale_all::<From16To32>(values),
        (Width::W16, Width::W8) => rescale_all::<From16To8>(values),
        (Width::W32, Width::W8) => rescale_all::<From32To8>(values),
        (Width::W32, Width::W16) => rescale_all::<From32To16>(values),
    }
}
