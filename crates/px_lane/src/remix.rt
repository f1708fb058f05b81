// The frames of a sink that are mixed afresh.
ghost use Rattle.std.specs.Prelude.{◌≡◌, ◌≤◌, ◌+◌, ◌-◌, ◌*◌, ◌^◌, length, take};
ghost use Rattle.std.specs.List.{AllByRecursion};
ghost use Rattle.px_model.specs.Frame.{frame_size};
ghost use Rattle.px_model.specs.Sink.{Input as Stands, IsStreamOf};
ghost use Rattle.px_model.specs.Turn.{remixed};
ghost use Rattle.px_stream.specs.Samples.{samples};
ghost use Rattle.px_lane.specs.Costs.{mix_cost};
ghost use Rattle.px_lane.specs.Unaltered.{IsResumed};
ghost use Rattle.px_lane.specs.Whole.{AreFramesOf};

use crate::mixer::SinkMixer;
use px_kernel::Steps;
use std::sync::ledger::Ledger;

impl SinkMixer {
    /// Mixes all frames from the horizon on afresh, up to the depth: those that are altered, up to `to` past the horizon, from where on the buffer has
    /// the mix of the streams as they stand, and those that are new. Answers how many past the horizon stay what they were.
    pub(crate) fn remix<T: Ledger>(&mut self, to: u64, steps: &mut Steps<T>) -> u64
        requires resumed { IsResumed to self.old.sink }
        requires streams { AllByRecursion (λ x. IsStreamOf self.old.sink.spec (Stands.stream x)) self.old.sink.inputs }
        requires few { length self.old.sink.inputs ≤ 256 }
        requires countable { self.old.sink.consumed + self.old.sink.depth ≤ 2 ^ 61 }
        ensures value { self.new.sink ≡ remixed samples self.old.sink }
        ensures within { result ≤ self.old.sink.filled - self.old.sink.horizon }
        ensures stay { take ((self.old.sink.horizon - self.old.sink.consumed) + result) self.new.sink.buffer ≡ take ((self.old.sink.horizon - self.old.sink.consumed) + result) self.old.sink.buffer }
        ensures unaltered { self.new.unaltered ≡ self.new.sink.filled - self.new.sink.horizon }
        ensures ticks { steps.new ≤ steps.old + self.old.sink.spec.channels * mix_cost (self.old.sink.consumed + self.old.sink.depth - self.old.sink.filled) (length self.old.sink.inputs)
            + self.old.sink.spec.channels * ((self.old.sink.filled - self.old.sink.horizon) - self.old.unaltered) }
        ensures whole { AreFramesOf (frame_size self.new.sink.spec) self.new.sink.buffer }
        ensures room { self.new.room ≡ self.old.room }
        ensures block_room { self.new.block_room ≡ self.old.block_room }
    {
        let stay = self.renew(to, steps);
        self.mix_on(steps);
        stay
    }

    // Mixes the altered frames afresh, up to `to` past the horizon. Answers how many past the horizon come before them.
    fn renew<T: Ledger>(&mut self, to: u64, steps: &mut Steps<T>) -> u64
        requires { IsResumed to self.old.sink }
        ensures value { self.new.sink ≡ record self.old.sink { buffer = self.new.sink.buffer } }
        ensures front { result ≡ self.old.unaltered }
        ensures within { self.old.unaltered ≤ self.old.sink.filled - self.old.sink.horizon }
        ensures stay { take ((self.old.sink.horizon - self.old.sink.consumed) + self.old.unaltered) self.new.sink.buffer ≡ take ((self.old.sink.horizon - self.old.sink.consumed) + self.old.unaltered) self.old.sink.buffer }
        ensures more { self.new.unaltered ≡ self.old.sink.filled - self.old.sink.horizon }
        ensures ticks { steps.new + self.old.sink.spec.channels * ((self.old.sink.filled - self.old.sink.horizon) - self.new.unaltered)
            ≤ steps.old + self.old.sink.spec.channels * ((self.old.sink.filled - self.old.sink.horizon) - self.old.unaltered) }
        ensures room { self.new.room ≡ self.old.room }
        ensures block_room { self.new.block_room ≡ self.old.block_room }
    {
        let mixed = self.filled - self.horizon;
        let from = self.unaltered;
        let end = to.min(mixed).max(from);
        let below = self.horizon - self.consumed;
        let size = self.spec.frame_size();
        self.bytes.pack_part(
            &self.inputs,
            from as u32,
            end as u32,
            (below + from) as usize * size,
            (below + end) as usize * size,
            steps,
        );
        self.unaltered = mixed;
        from
    }

    // Mixes the frames past the unaltered ones afresh, up to the depth.
    fn mix_on<T: Ledger>(&mut self, steps: &mut Steps<T>)
        requires streams { AllByRecursion (λ x. IsStreamOf self.old.sink.spec (Stands.stream x)) self.old.sink.inputs }
        requires few { length self.old.sink.inputs ≤ 256 }
        requires countable { self.old.sink.consumed + self.old.sink.depth ≤ 2 ^ 61 }
        ensures value { self.new.sink ≡ remixed samples self.old.sink }
        ensures stay { take ((self.old.sink.horizon - self.old.sink.consumed) + self.old.unaltered) self.new.sink.buffer ≡ take ((self.old.sink.horizon - self.old.sink.consumed) + self.old.unaltered) self.old.sink.buffer }
        ensures unaltered { self.new.unaltered ≡ self.new.sink.filled - self.new.sink.horizon }
        ensures ticks { steps.new ≤ steps.old + self.old.sink.spec.channels * mix_cost (self.old.sink.consumed + self.old.sink.depth - self.old.sink.filled) (length self.old.sink.inputs)
            + self.old.sink.spec.channels * ((self.old.sink.filled - self.old.sink.horizon) - self.old.unaltered) }
        ensures whole { AreFramesOf (frame_size self.new.sink.spec) self.new.sink.buffer }
        ensures room { self.new.room ≡ self.old.room }
        ensures block_room { self.new.block_room ≡ self.old.block_room }
    {
        let below = self.horizon - self.consumed;
        let stay = self.unaltered;
        let at = (below + stay) as usize * self.spec.frame_size();
        self.inputs.mix((self.depth as u64 - below) as u32, steps);
        self.bytes.pack(&self.inputs, stay as u32, at, steps);
        self.unaltered = self.depth as u64 - below;
        self.filled = self.consumed + self.depth as u64;
    }
}
