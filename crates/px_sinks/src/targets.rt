//! The sinks as commands see them.

ghost use Rattle.std.specs.Prelude.{◌≡◌, ◌≤◌, ◌+◌, ◌++◌, ◌∷◌, [], true, None, List, All, length, slice_get, take, IfOk, IfSome, OnOk};
ghost use Rattle.std.specs.List.{AllByRecursion};
ghost use Rattle.std.specs.Option.{option_map};
ghost use Rattle.px_header.specs.declared.header.SinkSpec.{SinkSpec};
ghost use Rattle.px_header.specs.HeaderRules.{AreSinks};
ghost use Rattle.px_names.specs.Names.{NO_INDEX, sink_named};
ghost use Rattle.px_outcome.specs.Target.{IsTarget, IsNamed};
ghost use Rattle.px_sinks.specs.Sinks.{MOST_SINKS, IsOfHeader, rate_on, rate_of, depth_of, sink_of, target_of, target_at, found_as, named_as, named_by, targets_from, targets_of};

use px_cmd::SinkRef;
use px_header::SinkSpec;
use px_names::Names;
use px_outcome::{Input, Named, Target};
use px_types::limits::{MAX_SINKS, NO_INDEX};
use px_types::{ErrorCode, Mem, SinkId, Text};
use std::alloc::Global;

// The sink with an index.
#[tactic(auto, using(crate::proofs::Sinks::is_of_header))]
fn sink_at(sinks: &[SinkSpec], index: SinkId) -> Option<&SinkSpec>
    requires { AreSinks [] sinks.now }
    ensures value { option_map (λ sink. sink.now) result ≡ slice_get sinks.now index.0 }
    ensures header { IfSome result (λ sink. IsOfHeader sink.now) }
{
    sinks.get(index.0 as usize)
}

/// The rate of the sink with an index, in frames a second; 1 where there is none. Takes no memory.
pub fn rate_on(sinks: &[SinkSpec], index: SinkId) -> u32
    requires { AreSinks [] sinks.now }
    ensures value { result ≡ rate_on sinks.now index }
    ensures some { 1 ≤ result }
{
    rate_of(sink_at(sinks, index))
}

/// The sink of an input, where both exist. Takes no memory.
pub fn sink_of<'a>(sinks: &'a [SinkSpec], input: &Option<Input>) -> Option<&'a SinkSpec>
    requires { AreSinks [] sinks.now }
    ensures value { option_map (λ s. s.now) result ≡ sink_of sinks.now input.now }
    ensures header { IfSome result (λ s. IsOfHeader s.now) }
{
    match input {
        None => None,
        Some(x) => sink_at(sinks, x.sink),
    }
}

/// The rate of a sink, in frames a second; 1 where there is none. Takes no memory.
pub fn rate_of(sink: Option<&SinkSpec>) -> u32
    requires { IfSome sink (λ s. IsOfHeader s.now) }
    ensures value { result ≡ rate_of (option_map (λ s. s.now) sink.entry) }
    ensures some { 1 ≤ result }
{
    match sink {
        None => 1,
        Some(sink) => sink.spec.rate,
    }
}

/// The depth of a sink, in frames; 0 where there is none. Takes no memory.
pub fn depth_of(sink: Option<&SinkSpec>) -> u32
    ensures { result ≡ depth_of (option_map (λ s. s.now) sink.entry) }
{
    match sink {
        None => 0,
        Some(sink) => sink.depth,
    }
}

// A sink as a command sees it.
fn target_of(alloc: Global, index: SinkId, sink: &SinkSpec) -> Mem<Target>
    requires { IsOfHeader sink.now }
    ensures value { IfOk result (λ target. target ≡ target_of index sink.now) }
    ensures lawful { IfOk result IsTarget }
{
    Ok(Target {
        index,
        name: Text::copied(alloc, sink.name.as_slice())?,
        spec: sink.spec,
        map: sink.map,
        depth: sink.depth,
    })
}

/// The sink with an index, where there is one.
pub fn target_at(alloc: Global, sinks: &[SinkSpec], index: SinkId) -> Mem<Option<Target>>
    requires { AreSinks [] sinks.now }
    ensures value { IfOk result (λ found. found ≡ target_at sinks.now index) }
    ensures lawful { IfOk result (λ found. IfSome found IsTarget) }
{
    match sink_at(sinks, index) {
        None => Ok(None),
        Some(sink) => Ok(Some(target_of(alloc, index, sink)?)),
    }
}

// The sink that was found by an index.
fn found_as(alloc: Global, index: SinkId, sink: Option<&SinkSpec>) -> Mem<Named>
    requires { IfSome sink (λ s. IsOfHeader s.now) }
    ensures value { IfOk result (λ named. named ≡ found_as index (option_map (λ s. s.now) sink.entry)) }
    ensures lawful { IfOk result IsNamed }
{
    match sink {
        None => Ok(Named::Unknown),
        Some(sink) => Ok(Named::Sink(target_of(alloc, index, sink)?)),
    }
}

// The name in a sink reference, where there is one.
fn name_of(sink: &SinkRef) -> Option<&[u8]>
    ensures { option_map (λ text. text.now) result ≡ sink.now.name }
{
    match &sink.name {
        None => None,
        Some(name) => Some(name.as_slice()),
    }
}

// The sink that was found, or why none was.
fn named_as(alloc: Global, sinks: &[SinkSpec], found: Result<SinkId, ErrorCode>) -> Mem<Named>
    requires { AreSinks [] sinks.now }
    ensures value { IfOk result (λ named. named ≡ named_as sinks.now found) }
    ensures lawful { IfOk result IsNamed }
{
    match found {
        Ok(index) => found_as(alloc, index, sink_at(sinks, index)),
        Err(ErrorCode::Invalid) => Ok(Named::Unclear),
        Err(_) => Ok(Named::Unknown),
    }
}

/// The default sink.
pub fn default_sink(alloc: Global, names: &Names, sinks: &[SinkSpec]) -> Mem<Named>
    requires { AreSinks [] sinks.now }
    ensures value { IfOk result (λ named. named ≡ named_as sinks.now (sink_named names.now NO_INDEX None true)) }
    ensures lawful { IfOk result IsNamed }
{
    named_as(alloc, sinks, names.sink(NO_INDEX, None, true))
}

/// The sink that a command names by an index or a name, or, where `fallback` is set, by neither: the default sink.
pub fn named_by(
    alloc: Global,
    names: &Names,
    sinks: &[SinkSpec],
    sink: &SinkRef,
    fallback: bool,
) -> Mem<Named>
    requires { AreSinks [] sinks.now }
    ensures value { IfOk result (λ named. named ≡ named_by names.now sinks.now sink.now fallback) }
    ensures lawful { IfOk result IsNamed }
{
    named_as(
        alloc,
        sinks,
        names.sink(sink.index, name_of(sink), fallback),
    )
}

// Adds one more sink as a command sees it.
fn add_target(alloc: Global, made: &mut Vec<Target>, index: SinkId, sink: &SinkSpec) -> Mem<()>
    requires { IsOfHeader sink.now }
    ensures value { OnOk result ((more : List SinkSpec) → made.new.items ++ targets_from (index.0 + 1) more ≡ made.old.items ++ targets_from index.0 (sink.now ∷ more)) }
    ensures lawful { OnOk result (All IsTarget made.old.items → All IsTarget made.new.items) }
{
    made.push(target_of(alloc, index, sink)?)?;
    Ok(())
}

// These sinks, from the first one on.
#[tactic(auto, using(crate::proofs::Sinks::next_of_header))]
fn targets_in(alloc: Global, sinks: &[SinkSpec]) -> Mem<Vec<Target>>
    requires few { length sinks.now ≤ MOST_SINKS }
    requires header { AllByRecursion IsOfHeader sinks.now }
    ensures value { IfOk result (λ made. made.items ≡ targets_from 0 sinks.now) }
    ensures lawful { IfOk result (λ made. All IsTarget made.items) }
{
    let mut made = Vec::new(alloc);
    let mut index: u8 = 0;
    for sink in sinks {
        add_target(alloc, &mut made, SinkId(index), sink)?;
        index += 1;
    }
    Ok(made)
}

// At most 16 sinks: the most of a header.
#[tactic(auto, using(crate::proofs::Sinks::first_of_header, crate::proofs::Sinks::all_first))]
fn first_of(sinks: &[SinkSpec]) -> &[SinkSpec]
    requires { AreSinks [] sinks.now }
    ensures value { result.now ≡ take MOST_SINKS sinks.now }
    ensures few { length result.now ≤ MOST_SINKS }
    ensures header { AllByRecursion IsOfHeader result.now }
{
    if sinks.len() <= MAX_SINKS {
        sinks
    } else {
        &sinks[..MAX_SINKS]
    }
}

/// All sinks, of which a header has at most 16, as commands see them.
pub fn targets_of(alloc: Global, sinks: &[SinkSpec]) -> Mem<Vec<Target>>
    requires { AreSinks [] sinks.now }
    ensures value { IfOk result (λ made. made.items ≡ targets_of sinks.now) }
    ensures lawful { IfOk result (λ made. All IsTarget made.items) }
{
    targets_in(alloc, first_of(sinks))
}
