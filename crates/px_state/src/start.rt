//! The tables of a server before its first step.

ghost use Rattle.std.specs.Prelude.{◌≡◌, ◌++◌, ◌∷◌, [], map, replicate, length, List, IfOk, OnOk};
ghost use Rattle.px_header.specs.declared.header.SinkSpec.{SinkSpec};
ghost use Rattle.px_header.specs.HeaderRules.{IsHeader, AreSinks};
ghost use Rattle.std.specs.List.{AllByRecursion};
ghost use Rattle.std.specs.Option.{option_map};
ghost use Rattle.px_flat.specs.FlatVolume.{new_group};
ghost use Rattle.px_sinks.specs.Sinks.{IsOfHeader};
ghost use Rattle.px_state.specs.State.{new_state_with};
ghost use Rattle.px_state.specs.Tables.{lists_of, state_of};

use crate::tables::Tables;
use px_flat::Group;
use px_header::{Header, SinkSpec, SinkSpecs};
use px_input_table::InputTable;
use px_msg::Msg;
use px_names::{InputLists, Names, SinkNames, SourceName};
use px_types::{Mem, Text};
use std::alloc::Global;
use std::collections::VecDeque;

// A copy of a sink of the header.
fn copied(alloc: Global, sink: &SinkSpec) -> Mem<SinkSpec>
    ensures { IfOk result (λ made. made ≡ sink.now) }
{
    Ok(SinkSpec {
        name: Text::copied(alloc, sink.name.as_slice())?,
        spec: sink.spec,
        map: sink.map,
        guard: sink.guard,
        depth: sink.depth,
    })
}

// A copy of the sinks of the header.
fn copied_sinks(alloc: Global, sinks: &[SinkSpec]) -> Mem<Vec<SinkSpec>>
    ensures { IfOk result (λ made. made.items ≡ sinks.now) }
{
    let mut made = Vec::new(alloc);
    for sink in sinks {
        made.push(copied(alloc, sink)?)?;
    }
    Ok(made)
}

// The names of the sinks.
fn names_of(alloc: Global, sinks: &[SinkSpec]) -> Mem<Vec<Text>>
    ensures { IfOk result (λ made. made.items ≡ map (λ s. SinkSpec.name s) sinks.now) }
{
    let mut made = Vec::new(alloc);
    for sink in sinks {
        made.push(Text::copied(alloc, sink.name.as_slice())?)?;
    }
    Ok(made)
}

// An empty queue for each sink.
fn queues_for<P: Drop>(alloc: Global, sinks: &[SinkSpec]) -> Mem<Vec<VecDeque<Msg<P>>>>
    ensures { IfOk result (λ made. lists_of made.items ≡ replicate (length sinks.now) []) }
{
    let mut made = Vec::new(alloc);
    for _sink in sinks {
        made.push(VecDeque::new(alloc))?;
    }
    Ok(made)
}

// The group of a sink without inputs.
fn group_for(alloc: Global, sink: &SinkSpec) -> Group
    requires { IsOfHeader sink.now }
    ensures { result ≡ new_group sink.now.spec.channels }
{
    Group::new(alloc, sink.spec.channels)
}

// The group without inputs for each sink.
fn groups_for(alloc: Global, sinks: &[SinkSpec]) -> Mem<Vec<Group>>
    requires { AllByRecursion IsOfHeader sinks.now }
    ensures { IfOk result (λ made. made.items ≡ map (λ s. new_group (SinkSpec.spec s).channels) sinks.now) }
{
    let mut made = Vec::new(alloc);
    for sink in sinks {
        made.push(group_for(alloc, sink))?;
    }
    Ok(made)
}

// The names of a server with this header, this name of a default source, if any, and no client.
fn names_for(alloc: Global, header: &Header, source: Option<&SourceName>) -> Mem<Names>
    requires { IsHeader header.now }
    ensures { IfOk result (λ made. made ≡ record { cookie = header.now.cookie; sinks = map (λ s. SinkSpec.name s) header.now.sinks; fallback = record { 0 = 0 }; source = option_map (λ name. name.now) source.entry; clients = [] }) }
{
    let sinks = SinkNames::new(names_of(alloc, header.sinks.as_slice())?).unwrap();
    Names::new(alloc, header.cookie.as_slice(), &sinks, source)
}

// The names of a server with this header, this name of a default source, if any, and no client; and its sinks.
fn names_and_sinks(
    alloc: Global,
    header: &Header,
    source: Option<&SourceName>,
) -> Mem<(Names, SinkSpecs)>
    requires { IsHeader header.now }
    ensures names { IfOk result (λ made. made.0 ≡ record { cookie = header.now.cookie; sinks = map (λ s. SinkSpec.name s) header.now.sinks; fallback = record { 0 = 0 }; source = option_map (λ name. name.now) source.entry; clients = [] }) }
    ensures sinks { IfOk result (λ made. made.1 ≡ header.now.sinks) }
{
    let sinks = copied_sinks(alloc, header.sinks.as_slice())?;
    let names = names_for(alloc, header, source)?;
    Ok((names, SinkSpecs::from_vec(sinks)))
}

// An empty queue for each sink, and a group without inputs.
fn queues_and_groups<P: Drop>(
    alloc: Global,
    sinks: &[SinkSpec],
) -> Mem<(Vec<VecDeque<Msg<P>>>, Vec<Group>)>
    requires { AllByRecursion IsOfHeader sinks.now }
    ensures queues { IfOk result (λ made. lists_of made.0.items ≡ replicate (length sinks.now) []) }
    ensures groups { IfOk result (λ made. made.1.items ≡ map (λ s. new_group (SinkSpec.spec s).channels) sinks.now) }
{
    let posted = queues_for(alloc, sinks)?;
    let groups = groups_for(alloc, sinks)?;
    Ok((posted, groups))
}

/// The tables of a server with this header: no client, no input and no message. `source` is the name of the default source
/// that it tells, if any.
pub fn new_tables<P: Drop>(
    alloc: Global,
    header: &Header,
    source: Option<&SourceName>,
) -> Mem<Tables<P>>
    requires { IsHeader header.now }
    ensures state { IfOk result (λ tables. state_of tables ≡ new_state_with (option_map (λ name. name.now) source.entry) header.now) }
    ensures sinks { IfOk result (λ tables. AreSinks [] tables.sinks) }
{
    let (posted, groups) = queues_and_groups(alloc, header.sinks.as_slice())?;
    let (names, sinks) = names_and_sinks(alloc, header, source)?;
    Ok(Tables {
        names,
        sinks,
        connections: Vec::new(alloc),
        inputs: InputTable::new(alloc),
        lists: InputLists::new(alloc),
        waiting: VecDeque::new(alloc),
        posted,
        delayed: Vec::new(alloc),
        groups,
        clients_made: 0,
        inputs_made: 0,
    })
}
