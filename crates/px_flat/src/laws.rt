//! Laws of groups.

ghost use Rattle.std.specs.Prelude.{◌≡◌, ℕ, Bool, List, length};
ghost use Rattle.px_types.specs.declared.ids.InputId.{InputId};
ghost use Rattle.px_flat.specs.declared.member.Member.{Member};
ghost use Rattle.px_flat.specs.FlatVolume.{FlatGroup, with_input_volume, with_sink_volume, with_input_mute, with_sink_mute, factors_of};
ghost use Rattle.px_flat.specs.Keeps.{HasSameInputs};

/// No change of a volume or a mute changes which inputs a group has, nor how many channels each of them and the sink has; and each input
/// has one factor a channel of the sink. It does nothing: its contract is the law. Source: own.
pub fn volumes_keep_inputs()
    ensures input_volume { (input : InputId) (volume : List ℕ) (group : FlatGroup) → HasSameInputs group (with_input_volume input volume group) }
    ensures sink_volume { (volume : List ℕ) (group : FlatGroup) → HasSameInputs group (with_sink_volume volume group) }
    ensures input_mute { (input : InputId) (on : Bool) (group : FlatGroup) → HasSameInputs group (with_input_mute input on group) }
    ensures sink_mute { (on : Bool) (group : FlatGroup) → HasSameInputs group (with_sink_mute on group) }
    ensures factors { (group : FlatGroup) (m : Member) → length (factors_of group m) ≡ length group.reference }
{}
