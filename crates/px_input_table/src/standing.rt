//! Where inputs belong.

ghost use Rattle.std.specs.Prelude.{◌≡◌};
ghost use Rattle.px_outcome.specs.Input.{goes_on};

use px_outcome::{Input, Standing};

/// Whether an input is live: it hasn't ended. Takes no memory.
pub fn goes_on(x: &Input) -> bool
    ensures { result ≡ goes_on x.now }
{
    match x.standing {
        Standing::Settled | Standing::Moving(_) => true,
        Standing::Leaving => false,
    }
}
