// The factors of a message, set to the inputs of a sink.
ghost use Rattle.std.specs.Prelude.{◌≡◌, ◌≤◌, ◌+◌, ◌-◌, ◌*◌, ◌∷◌, ◌==◌, ℕ, map};
ghost use Rattle.std.specs.List.{list_any};
ghost use Rattle.px_model.specs.Frame.{SampleSpec};
ghost use Rattle.px_model.specs.Sink.{stream_at, with_change};
ghost use Rattle.px_model.specs.Control.{with_factors};
ghost use Rattle.px_model.specs.Message.{StreamMessage};
ghost use Rattle.px_model.specs.Turn.{with_each_factors};
ghost use Rattle.px_msg.specs.View.{gains};
ghost use Rattle.px_msg.specs.declared.factors.InputFactors.{InputFactors as Entry};
ghost use Rattle.px_lane.specs.Unaltered.{MixesSame};
ghost use Rattle.px_lane.specs.Costs.{others_at, count_others, factors_cost};
ghost use Rattle.px_lane.specs.Taking.{AreFed, FactorsFit, SuitsAt};

use crate::mixed::MixedInputs;
use px_block::BlockSource;
use px_kernel::Steps;
use px_msg::InputFactors;
use px_types::InputId;
use px_vol::Factors;
use std::sync::ledger::Ledger;

impl MixedInputs {
    /// Replaces the factors of each of these inputs that is there; the last entry for an input counts. Answers how many frames past the horizon are
    /// mixed as before: all of them where no input's factors differ from those it had, else 0.
    pub(crate) fn set_factors<T: Ledger, B: BlockSource>(
        &mut self,
        each: &[InputFactors],
        blocks: &mut B,
        steps: &mut Steps<T>,
    ) -> u64
        requires { FactorsFit (map gains each.now) self.old.inputs }
        ensures spec { self.new.spec ≡ self.old.spec }
        ensures depth { self.new.depth ≡ self.old.depth }
        ensures frames { self.new.frames ≡ self.old.frames }
        ensures inputs { self.new.inputs ≡ with_each_factors (map gains each.now) self.old.inputs }
        ensures room { self.new.room ≡ self.old.room }
        ensures block_room { self.new.block_room ≡ self.old.block_room }
        ensures mixes { (sink : SampleSpec) → MixesSame sink result self.old.inputs self.new.inputs }
        ensures ticks { steps.new + self.old.spec.channels * (self.old.frames - result) ≤ steps.old + self.old.spec.channels * factors_cost self.old.frames (count_others (map gains each.now) self.old.inputs) }
    {
        let mut count = 0;
        for i in 0..each.len() {
            count += self.set_last(&each[i], &each[i + 1..], blocks, steps);
        }
        if count > 0 {
            return 0;
        }
        self.frames() as u64
    }

    // Replaces the factors of the input of `entry`, unless one of the entries after it names the same input. Answers how many inputs changed: 0 or 1.
    fn set_last<T: Ledger, B: BlockSource>(
        &mut self,
        entry: &InputFactors,
        behind: &[InputFactors],
        blocks: &mut B,
        steps: &mut Steps<T>,
    ) -> usize
        requires { SuitsAt (stream_at entry.now.input.0 self.old.inputs) (StreamMessage.factors entry.now.factors) }
        ensures spec { self.new.spec ≡ self.old.spec }
        ensures depth { self.new.depth ≡ self.old.depth }
        ensures frames { self.new.frames ≡ self.old.frames }
        ensures inputs { with_each_factors (map gains behind.now) self.new.inputs ≡ with_each_factors (gains entry.now ∷ map gains behind.now) self.old.inputs }
        ensures fed { (channels : ℕ) → AreFed channels self.old.inputs → AreFed channels self.new.inputs }
        ensures few { result ≤ 1 }
        ensures none { result ≡ 0 → self.new.inputs ≡ self.old.inputs }
        ensures count { result + count_others (map gains behind.now) self.new.inputs ≡ count_others (gains entry.now ∷ map gains behind.now) self.old.inputs }
        ensures room { self.new.room ≡ self.old.room }
        ensures block_room { self.new.block_room ≡ self.old.block_room }
        ensures ticks { steps.new ≤ steps.old + self.old.spec.channels * (4 * (self.old.frames * result)) }
    {
        if is_named(entry.input, behind) {
            return 0;
        }
        self.set_one(entry.input, entry.factors, blocks, steps)
    }

    // Replaces the factors of a stream, if it is there and has others, and exchanges its share. Answers how many inputs changed: 0 or 1.
    fn set_one<T: Ledger, B: BlockSource>(
        &mut self,
        input: InputId,
        factors: Factors,
        blocks: &mut B,
        steps: &mut Steps<T>,
    ) -> usize
        requires { SuitsAt (stream_at input.0 self.old.inputs) (StreamMessage.factors factors) }
        ensures spec { self.new.spec ≡ self.old.spec }
        ensures depth { self.new.depth ≡ self.old.depth }
        ensures frames { self.new.frames ≡ self.old.frames }
        ensures inputs { self.new.inputs ≡ with_change input.0 (λ s. with_factors s factors) self.old.inputs }
        ensures count { result ≡ others_at factors (stream_at input.0 self.old.inputs) }
        ensures none { result ≡ 0 → self.new.inputs ≡ self.old.inputs }
        ensures room { self.new.room ≡ self.old.room }
        ensures block_room { self.new.block_room ≡ self.old.block_room }
        ensures ticks { steps.new ≤ steps.old + self.old.spec.channels * (4 * (self.old.frames * result)) }
    {
        if !self.inputs.has_others(input, &factors) {
            return 0;
        }
        self.inputs
            .share(input, &self.spec, 0, false, &mut self.kept, steps);
        self.inputs.set_one(input, factors, blocks);
        self.inputs
            .share(input, &self.spec, 0, true, &mut self.kept, steps);
        1
    }
}

// Whether one of these entries names an input.
fn is_named(input: InputId, each: &[InputFactors]) -> bool
    ensures { result ≡ list_any (λ entry. (Entry.input entry).0 == input.0) each.now }
{
    each.iter().any(|entry| entry.input.0 == input.0)
}
