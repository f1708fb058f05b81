//! A law of the factors that are posted to a sink.

ghost use Rattle.std.specs.Prelude.{◌≡◌, List, map, filter, length};
ghost use Rattle.std.specs.List.{AllByRecursion};
ghost use Rattle.px_flat.specs.FlatVolume.{FlatGroup};
ghost use Rattle.px_msg.specs.declared.factors.InputFactors.{InputFactors};
ghost use Rattle.px_outcome.specs.declared.input.Input.{Input};
ghost use Rattle.px_ctl_play.specs.Factors.{factor_list};
ghost use Rattle.px_ctl_vol.specs.Factors.{is_member};

/// The factors that a group gives inputs are those of its members among them, in their order, and each has one number a channel of the
/// sink. It does nothing: its contract is the law. Source: own.
pub fn factors_are_for_the_sink()
    ensures members { (group : FlatGroup) (inputs : List Input) → map InputFactors.input (factor_list group inputs) ≡ map Input.index (filter (is_member group) inputs) }
    ensures channels { (group : FlatGroup) (inputs : List Input) → AllByRecursion (λ f. length (InputFactors.factors f) ≡ length group.reference) (factor_list group inputs) }
{}
