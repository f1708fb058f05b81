// The header, and the events before the steps: four clients that connect and play.

ghost use Rattle.std.specs.Prelude.{◌≡◌, ◌++◌, IfOk, OnOk};
ghost use Rattle.px_chmap.specs.ChannelMap.{IsChannelMap};
ghost use Rattle.px_gen.specs.Generator.{header, sink_at, client_events, opening};

use crate::client::{COOKIE, auth, create};
use px_chmap::Map;
use px_header::{Header, SinkSpec, SinkSpecs};
use px_sample::{Format, Spec};
use px_session::Event;
use px_types::{ConnId, Mem, Text};
use std::alloc::Global;

// A sink at 48,000 frames a second.
fn sink(
    alloc: Global,
    name: &[u8],
    format: Format,
    positions: &[u8],
    guard: u32,
    depth: u32,
) -> Mem<SinkSpec>
    requires { IsChannelMap positions.now }
    ensures { IfOk result (λ s. s ≡ sink_at name.now format positions.now guard depth) }
{
    Ok(SinkSpec {
        name: Text::copied(alloc, name)?,
        spec: Spec {
            format,
            channels: positions.len() as u8,
            rate: 48_000,
        },
        map: Map::new(positions).unwrap(),
        guard,
        depth,
    })
}

/// The header of every generated session.
pub(crate) fn header(alloc: Global) -> Mem<Header>
    ensures { IfOk result (λ h. h ≡ header) }
{
    let mut sinks = Vec::new(alloc);
    sinks.push(sink(alloc, b"a", Format::S16Le, &[1, 2], 64, 512)?)?;
    sinks.push(sink(alloc, b"b", Format::S32Le, &[0], 0, 256)?)?;
    Ok(Header {
        cookie: Text::copied(alloc, &COOKIE)?,
        sinks: SinkSpecs::from_vec(sinks),
    })
}

// A client connects, authenticates, and creates a stream. Without memory some of these events may be appended.
fn add_client(alloc: Global, events: &mut Vec<Event>, conn: u32) -> Mem<()>
    ensures { OnOk result (events.new.items ≡ events.old.items ++ client_events conn) }
{
    events.push(Event::Connect(ConnId(conn)))?;
    events.push(Event::Bytes(ConnId(conn), auth(alloc)?))?;
    events.push(Event::Bytes(ConnId(conn), create(alloc, conn)?))?;
    Ok(())
}

/// Four clients, and a turn of each sink that takes their messages.
pub(crate) fn opening(alloc: Global) -> Mem<Vec<Event>>
    ensures { IfOk result (λ events. events.items ≡ opening) }
{
    let mut events = Vec::new(alloc);
    add_client(alloc, &mut events, 1)?;
    add_client(alloc, &mut events, 2)?;
    add_client(alloc, &mut events, 3)?;
    add_client(alloc, &mut events, 4)?;
    events.push(Event::Turn {
        sink: 0,
        frames: 0,
        take: 6,
    })?;
    events.push(Event::Turn {
        sink: 1,
        frames: 0,
        take: 2,
    })?;
    Ok(events)
}
