//! The factors of several inputs at once.

ghost use Rattle.std.specs.Prelude.{◌≡◌};

use px_types::InputId;
use px_vol::Factors;
use std::marker::Model;

/// The factors of one input, one for each channel of its sink.
#[derive(Debug, Drop)]
pub struct InputFactors {
    pub input: InputId,
    pub factors: Factors,
}

/// The factors of several inputs, as a list.
#[derive(Debug, Drop)]
pub struct FactorList {
    items: Vec<InputFactors>,
}

impl Model for FactorList {
    ghost use Rattle.std.specs.Prelude.{List};
    ghost use Rattle.px_msg.specs.declared.factors.InputFactors.{InputFactors};

    ghost Value = { List InputFactors };

    ghost view = { λ list. list.items.items };
}

impl FactorList {
    /// The list of these factors. Takes no memory.
    pub fn from_vec(items: Vec<InputFactors>) -> FactorList
        ensures { result ≡ items.items }
    {
        FactorList { items }
    }

    /// The factors, in order. Takes no memory.
    pub fn as_slice(&self) -> &[InputFactors]
        ensures { result.now ≡ self.now }
    {
        self.items.as_slice()
    }
}
