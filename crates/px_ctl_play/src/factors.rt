//! A sink gets another group of volumes, and the factors that it gives are posted to the sink.

ghost use Rattle.std.specs.Prelude.{◌≡◌, ◌++◌, ◌∷◌, [], List, length, None, Some, IsSome, IfOk, OnOk};
ghost use Rattle.px_flat.specs.FlatVolume.{factors_for, member_of, real_of};
ghost use Rattle.px_outcome.specs.Input.{settled_on, is_settled};
ghost use Rattle.px_outcome.specs.declared.input.Input.{Input};
ghost use Rattle.px_ctl_play.specs.Arrival.{is_settled_with, settled_with};
ghost use Rattle.px_ctl_play.specs.Factors.{gains_of, factor_list, own_factors, regrouped};

use px_flat::Group;
use px_msg::{FactorList, InputFactors, Msg};
use px_outcome::{Change, Input, Standing};
use px_types::{InputId, Mem, SinkId};
use px_vol::{CVolume, Factors};
use std::alloc::Global;

// Whether an input is on a sink and settled there.
fn is_settled(sink: SinkId, x: &Input) -> bool
    ensures { result ≡ is_settled sink x.now }
{
    matches!(x.standing, Standing::Settled) && x.sink.0 == sink.0
}

/// The factors of an input that is in the group. Takes no memory.
pub(crate) fn own_factors(group: &Group, input: InputId) -> Factors
    requires { IsSome (member_of group.now.members input) }
    ensures { result ≡ own_factors group.now input }
{
    group.factors(input)
}

// Adds the factors of an input, where it is in the group.
fn add_factors(
    list: &mut Vec<InputFactors>,
    group: &Group,
    real: &CVolume,
    input: InputId,
) -> Mem<()>
    requires { real.now ≡ real_of group.now }
    ensures { OnOk result (list.new.items ≡ list.old.items ++ gains_of input (factors_for group.now input)) }
{
    if let Some(factors) = group.factors_under(real, input) {
        list.push(InputFactors { input, factors })?;
    }
    Ok(())
}

// Adds them where the input is settled on the sink.
fn add_settled(
    list: &mut Vec<InputFactors>,
    sink: SinkId,
    group: &Group,
    real: &CVolume,
    x: &Input,
) -> Mem<()>
    requires { real.now ≡ real_of group.now }
    ensures { OnOk result ((more : List Input) →
        list.new.items ++ factor_list group.now (settled_on more sink) ≡ list.old.items ++ factor_list group.now (settled_on (x.now ∷ more) sink)) }
{
    if is_settled(sink, x) {
        add_factors(list, group, real, x.index)?;
    }
    Ok(())
}

// The number of inputs that are settled on a sink.
fn settled_count(sink: SinkId, inputs: &[Input]) -> usize
    ensures { result ≡ length (settled_on inputs.now sink) }
{
    inputs.iter().filter(|x| is_settled(sink, x)).count()
}

// The factors of the inputs that are settled on a sink with this group, and room for one more.
fn settled_factors(
    alloc: Global,
    sink: SinkId,
    group: &Group,
    real: &CVolume,
    inputs: &[Input],
) -> Mem<Vec<InputFactors>>
    requires { real.now ≡ real_of group.now }
    ensures { IfOk result (λ list. list.items ≡ factor_list group.now (settled_on inputs.now sink)) }
{
    let mut list = Vec::with_capacity(alloc, settled_count(sink, inputs).saturating_add(1))?;
    for input in inputs {
        add_settled(&mut list, sink, group, real, input)?;
    }
    Ok(list)
}

// Whether an input is settled on a sink, or has this index.
fn is_settled_with(sink: SinkId, index: InputId, x: &Input) -> bool
    ensures { result ≡ is_settled_with sink index x.now }
{
    is_settled(sink, x) || x.index.0 == index.0
}

// Adds the factors of an input, where it is settled on the sink or has this index.
fn add_settled_with(
    list: &mut Vec<InputFactors>,
    sink: SinkId,
    index: InputId,
    group: &Group,
    real: &CVolume,
    x: &Input,
) -> Mem<()>
    requires { real.now ≡ real_of group.now }
    ensures { OnOk result ((more : List Input) →
        list.new.items ++ factor_list group.now (settled_with more sink index) ≡ list.old.items ++ factor_list group.now (settled_with (x.now ∷ more) sink index)) }
{
    if is_settled_with(sink, index, x) {
        add_factors(list, group, real, x.index)?;
    }
    Ok(())
}

// The number of inputs that are settled on a sink or have this index.
fn settled_count_with(sink: SinkId, index: InputId, inputs: &[Input]) -> usize
    ensures { result ≡ length (settled_with inputs.now sink index) }
{
    inputs
        .iter()
        .filter(|x| is_settled_with(sink, index, x))
        .count()
}

// The factors of the inputs that are settled on a sink with this group, and of the input with this index.
fn settled_factors_with(
    alloc: Global,
    sink: SinkId,
    index: InputId,
    group: &Group,
    real: &CVolume,
    inputs: &[Input],
) -> Mem<Vec<InputFactors>>
    requires { real.now ≡ real_of group.now }
    ensures { IfOk result (λ list. list.items ≡ factor_list group.now (settled_with inputs.now sink index)) }
{
    let mut list = Vec::with_capacity(alloc, settled_count_with(sink, index, inputs))?;
    for input in inputs {
        add_settled_with(&mut list, sink, index, group, real, input)?;
    }
    Ok(list)
}

// The factors of the inputs that are settled on a sink with this group, followed by those of one more.
fn factors_with(
    alloc: Global,
    sink: SinkId,
    group: &Group,
    inputs: &[Input],
    more: &Input,
) -> Mem<Vec<InputFactors>>
    ensures { IfOk result (λ list. list.items ≡ factor_list group.now (settled_on inputs.now sink ++ more.now ∷ [])) }
{
    let real = group.real();
    let mut list = settled_factors(alloc, sink, group, &real, inputs)?;
    add_factors(&mut list, group, &real, more.index)?;
    Ok(list)
}

/// Sets the group of a sink, and posts to it the factors of all inputs that are settled on it, in rising index. Own:
/// PulseAudio sets each stream's soft volume for itself.
pub fn regrouped<P: Drop>(
    alloc: Global,
    sink: SinkId,
    group: Group,
    inputs: &[Input],
) -> Mem<Change<Msg<P>, Group>>
    ensures { IfOk result (λ change. change ≡ regrouped sink group (settled_on inputs.now sink)) }
{
    let real = group.real();
    let list = settled_factors(alloc, sink, &group, &real, inputs)?;
    Ok(Change::Regrouped(sink, group, Msg::Factors(FactorList::from_vec(list))))
}

/// The same, followed by those of one more.
pub(crate) fn regrouped_with<P: Drop>(
    alloc: Global,
    sink: SinkId,
    group: Group,
    inputs: &[Input],
    more: &Input,
) -> Mem<Change<Msg<P>, Group>>
    ensures { IfOk result (λ change. change ≡ regrouped sink group (settled_on inputs.now sink ++ more.now ∷ [])) }
{
    let list = factors_with(alloc, sink, &group, inputs, more)?;
    Ok(Change::Regrouped(sink, group, Msg::Factors(FactorList::from_vec(list))))
}

/// The same, with those of the input with this index, which comes to the sink.
pub(crate) fn regrouped_and<P: Drop>(
    alloc: Global,
    sink: SinkId,
    group: Group,
    inputs: &[Input],
    index: InputId,
) -> Mem<Change<Msg<P>, Group>>
    ensures { IfOk result (λ change. change ≡ regrouped sink group (settled_with inputs.now sink index)) }
{
    let real = group.real();
    let list = settled_factors_with(alloc, sink, index, &group, &real, inputs)?;
    Ok(Change::Regrouped(sink, group, Msg::Factors(FactorList::from_vec(list))))
}
