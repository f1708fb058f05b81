//! The commands on sinks and their names (PulseAudio: `command_lookup`, `command_set_default_sink_or_source` and
//! `command_get_server_info` of `pulsecore/protocol-native.c`).

ghost use Rattle.std.specs.Prelude.{◌≡◌, ◌≤◌, IfOk, IsTrue, length};
ghost use Rattle.std.specs.Option.{option_map};
ghost use Rattle.px_tag.specs.Item.{is_text, IsText};
ghost use Rattle.px_outcome.specs.Handled.{HandledAs};
ghost use Rattle.px_outcome.specs.Target.{IsTarget, IsNamed};
ghost use Rattle.px_ctl_info.specs.Sinks.{found, sink_called, lookup_sink, set_default_sink, server_of, server_info};

use px_names::{Names, SourceName};
use px_outcome::{Change, Named, Refusal, StepOutcome, Target, present, raw_of};
use px_reply::ServerInfo;
use px_tag::RawMap;
use px_types::limits::NO_INDEX;
use px_types::{ErrorCode, Mem, SinkId, Text};
use std::alloc::Global;

// The value found, or the refusal with the error.
fn found<A>(answer: Result<A, ErrorCode>) -> Result<A, Refusal>
    ensures { result ≡ found answer }
{
    match answer {
        Ok(value) => Ok(value),
        Err(code) => Err(Refusal::Code(code)),
    }
}

// The sink with a name, which must be given.
fn sink_called(names: &Names, name: Option<&[u8]>) -> Result<SinkId, Refusal>
    ensures { result ≡ sink_called names.now (option_map (λ name. name.now) name.entry) }
{
    found(names.sink(NO_INDEX, name, false))
}

/// LOOKUP_SINK: the reply gives the sink's index. Refused: `Invalid` without a name, `NoEntity` where no sink has it.
pub fn lookup_sink<M: Drop, G: Drop>(
    alloc: Global,
    names: &Names,
    tag: u32,
    name: Option<&[u8]>,
) -> Result<StepOutcome<M, G>, Refusal>
    ensures { HandledAs result (lookup_sink names.now tag (option_map (λ name. name.now) name.entry)) }
{
    let sink = sink_called(names, name)?;
    let reply = px_reply::sink_index(alloc, tag, u32::from(sink.0))?;
    Ok(StepOutcome::replied(alloc, reply, Vec::new(alloc)))
}

/// SET_DEFAULT_SINK: the sink with the name becomes the default sink. Refused as LOOKUP_SINK is.
pub fn set_default_sink<M: Drop, G: Drop>(
    alloc: Global,
    names: &Names,
    tag: u32,
    name: Option<&[u8]>,
) -> Result<StepOutcome<M, G>, Refusal>
    ensures { HandledAs result (set_default_sink names.now tag (option_map (λ name. name.now) name.entry)) }
{
    let sink = sink_called(names, name)?;
    let reply = px_reply::plain(alloc, tag)?;
    let mut changes = Vec::new(alloc);
    changes.push(Change::Defaulted(sink))?;
    Ok(StepOutcome::replied(alloc, reply, changes))
}

// The bytes of the default source's name, where there is one.
fn text_of(alloc: Global, source: Option<&SourceName>) -> Mem<Option<Text>>
    ensures value { IfOk result (λ made. made ≡ option_map (λ name. name.now) source.entry) }
    ensures writable { IfOk result IsText }
{
    match source {
        None => Ok(None),
        Some(name) => Ok(Some(Text::copied(alloc, name.as_slice())?)),
    }
}

/// The server's info, where `source` is the name of the default source, if it tells one, and `sink` the default sink.
pub fn server_of(alloc: Global, source: Option<&SourceName>, sink: &Target) -> Mem<ServerInfo>
    requires { IsTarget sink.now }
    ensures value { IfOk result (λ info. info ≡ server_of (option_map (λ name. name.now) source.entry) sink.now) }
    ensures writable { IfOk result (λ info. IsTrue (is_text info.name) × (info.spec.channels ≤ 32) × IsText info.source) }
{
    Ok(ServerInfo {
        spec: raw_of(&sink.spec),
        name: Text::copied(alloc, sink.name.as_slice())?,
        source: text_of(alloc, source)?,
        map: RawMap::new(sink.map.positions()),
    })
}

/// GET_SERVER_INFO at a client's version, where `source` is the name of the default source, if the server tells one, and
/// `named` the default sink. Refused: `NoEntity` where there is no default sink.
pub fn server_info<M: Drop, G: Drop>(
    alloc: Global,
    source: Option<&SourceName>,
    named: Named,
    version: u16,
    tag: u32,
) -> Result<StepOutcome<M, G>, Refusal>
    requires { IsNamed named }
    ensures { HandledAs result (server_info (option_map (λ name. name.now) source.entry) named version tag) }
{
    let sink = present(named.target(), ErrorCode::NoEntity)?;
    let info = server_of(alloc, source, &sink)?;
    let reply = px_reply::server_info(alloc, tag, version, &info)?;
    Ok(StepOutcome::replied(alloc, reply, Vec::new(alloc)))
}
