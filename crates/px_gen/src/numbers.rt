// The numbers that a session is generated from.

ghost use Rattle.std.specs.Prelude.{◌≡◌, IfOk, OnOk};
ghost use Rattle.px_gen.specs.Numbers.{next_state, number_in, state_after, samples};

use px_types::{Mem, NoMemory};
use std::alloc::Global;

/// The numbers that follow a first state.
#[derive(Clone, Copy, Drop)]
pub(crate) struct Numbers {
    state: u64,
}

impl Numbers {
    /// The numbers that follow this state. Takes no memory.
    pub(crate) fn new(state: u64) -> Numbers
        ensures { result.state ≡ state }
    {
        Numbers { state }
    }

    /// The next number, below 2^31. Takes no memory.
    #[tactic(auto, unfolding(crate::specs::Numbers::next_state, crate::specs::Numbers::number_in))]
    pub(crate) fn next(&mut self) -> u64
        ensures state { self.new.state ≡ next_state self.old.state }
        ensures number { result ≡ number_in self.new.state }
    {
        self.state = self
            .state
            .wrapping_mul(6_364_136_223_846_793_005)
            .wrapping_add(1_442_695_040_888_963_407);
        self.state / (1 << 33)
    }

    /// The next `count` numbers, each as a sample in 16 bits.
    #[tactic(auto, using(crate::proofs::Loops::samples_more, crate::proofs::Loops::state_more))]
    pub(crate) fn samples(&mut self, alloc: Global, count: u32) -> Mem<Vec<u8>>
        ensures bytes { IfOk result (λ bytes. bytes.items ≡ samples count self.old.state) }
        ensures state { OnOk result (self.new.state ≡ state_after count self.old.state) }
    {
        let mut bytes = Vec::new(alloc);
        for _ in 0..count {
            let number = self.next();
            bytes.extend_from_slice(&((number % 65_536) as u16).to_le_bytes())?;
        }
        Ok(bytes)
    }
}
