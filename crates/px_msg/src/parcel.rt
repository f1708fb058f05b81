//! What the core reads of a parcel.

ghost use Rattle.std.specs.Prelude.{◌≡◌};
ghost use Rattle.px_model.specs.Frame.{SampleSpec};
ghost use Rattle.px_msg.specs.View.{sample_spec};

use px_sample::Spec;

/// A stream on its way from one sink to another. The core reads only its sample spec.
pub trait Parcel {
    /// The sample spec of what was written to it.
    ghost spec_of: { Self → SampleSpec };

    /// Its sample spec. Takes no memory.
    fn spec(&self) -> Spec
        ensures { sample_spec result ≡ spec_of self.now };
}
