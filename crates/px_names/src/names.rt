//! All names of a server.

ghost use Rattle.std.specs.Prelude.{◌≡◌, ◌↔◌, ◌<◌, ◌++◌, ◌∷◌, [], length, IsTrue, IfOk, OnOk, OnErr};
ghost use Rattle.std.specs.Option.{option_map};
ghost use Rattle.px_names.specs.Clients.{is_on, has_index, client_on, client_numbered, change_first, mask_of, new_client, without_first, with_list, with_mask, with_update};
ghost use Rattle.px_names.specs.Names.{Naming, same_text, sink_at, sink_called, sink_unnamed, sink_named};

use crate::client::{Client, forget, set_list, set_mask, update};
use crate::sinks::SinkNames;
use crate::source::{SourceName, copied_source};
use px_tag::{Mode, PropList};
use px_types::limits::NO_INDEX;
use px_types::{ConnId, ErrorCode, Mem, SinkId, Text};
use std::alloc::Global;
use std::marker::Model;

/// The name that always names the default sink (`pulse/def.h`).
pub const DEFAULT_NAME: &[u8] = b"@DEFAULT_SINK@";

/// The names that a server holds: its cookie, its sinks' names with the default sink, the name of the default source, where
/// it tells one, and its clients in order of connecting. A contract sees them as a record of these five.
#[derive(Drop)]
pub struct Names {
    cookie: Text,
    sinks: SinkNames,
    fallback: SinkId,
    source: Option<SourceName>,
    clients: Vec<Client>,
    alloc: Global,
}

impl Model for Names {
    ghost use Rattle.std.specs.Prelude.{◌<◌, length};
    ghost use Rattle.px_names.specs.Names.{Naming};

    ghost Value = { Naming };

    ghost view = { λ n. record { cookie = n.cookie; sinks = n.sinks; fallback = n.fallback; source = n.source; clients = n.clients.items } };

    ghost invariant = { λ n. n.fallback.0 < length n.sinks };
}

impl Names {
    /// A server with this cookie and these sinks, the first of them the default sink, and no client. `source` is the name of
    /// the default source that it tells, if any.
    pub fn new(
        alloc: Global,
        cookie: &[u8],
        sinks: &SinkNames,
        source: Option<&SourceName>,
    ) -> Mem<Names>
        ensures { IfOk result (λ made. made ≡ record { cookie = cookie.now; sinks = sinks.now; fallback = record { 0 = 0 }; source = option_map (λ name. name.now) source.entry; clients = [] }) }
    {
        let cookie = Text::copied(alloc, cookie)?;
        let _count = sinks.as_slice().len();
        let sinks = sinks.copy(alloc)?;
        let source = copied_source(alloc, source)?;
        Ok(Names {
            cookie,
            sinks,
            fallback: SinkId(0),
            source,
            clients: Vec::new(alloc),
            alloc,
        })
    }

    /// Whether this is the server's cookie, byte for byte. Takes no memory.
    pub fn cookie_fits(&self, cookie: &[u8]) -> bool
        ensures fits { IsTrue result ↔ (cookie.now ≡ self.now.cookie) }
        ensures value { result ≡ same_text cookie.now self.now.cookie }
    {
        self.cookie.as_slice() == cookie
    }

    // The sink with an index.
    fn sink_at(&self, index: u32) -> Result<SinkId, ErrorCode>
        ensures { result ≡ sink_at self.now index }
    {
        let count = self.sinks.as_slice().len();
        if (index as usize) < count {
            Ok(SinkId(index as u8))
        } else {
            Err(ErrorCode::NoEntity)
        }
    }

    // The sink with a name.
    fn sink_called(&self, name: &[u8]) -> Result<SinkId, ErrorCode>
        ensures { result ≡ sink_called self.now name.now }
    {
        if name == DEFAULT_NAME {
            return Ok(self.fallback);
        }
        let _count = self.sinks.as_slice().len();
        match self.sinks.place_of(name) {
            Some(place) => Ok(SinkId(place as u8)),
            None => Err(ErrorCode::NoEntity),
        }
    }

    // The sink of a packet that names none.
    fn sink_unnamed(&self, fallback: bool) -> Result<SinkId, ErrorCode>
        ensures { result ≡ sink_unnamed self.now fallback }
    {
        if fallback {
            Ok(self.fallback)
        } else {
            Err(ErrorCode::Invalid)
        }
    }

    /// The sink that a packet names by an index, where that isn't `NO_INDEX`, or by a name, where there is one; the name
    /// `DEFAULT_NAME`, and neither where `fallback` is set, mean the default sink. `Invalid` exactly where both are given,
    /// or neither and `fallback` isn't set; else `NoEntity` exactly where no sink has the index or the name. Takes no
    /// memory. Source: `pulsecore/protocol-native.c`; own: that both are refused.
    pub fn sink(&self, index: u32, name: Option<&[u8]>, fallback: bool) -> Result<SinkId, ErrorCode>
        ensures { result ≡ sink_named self.now index (option_map (λ text. text.now) name.entry) fallback }
    {
        match name {
            None if index == NO_INDEX => self.sink_unnamed(fallback),
            None => self.sink_at(index),
            Some(name) if index == NO_INDEX => self.sink_called(name),
            Some(_) => Err(ErrorCode::Invalid),
        }
    }

    /// The default sink. Takes no memory.
    pub fn default(&self) -> SinkId
        ensures value { result ≡ self.now.fallback }
        ensures there { result.0 < length self.now.sinks }
    {
        self.fallback
    }

    /// Makes an existing sink the default one. Takes no memory.
    pub fn set_default(&mut self, sink: SinkId)
        requires { sink.0 < length self.old.sinks }
        ensures { self.new ≡ record self.old { fallback = sink } }
    {
        self.fallback = sink;
    }

    /// The name of the default source, where the server tells one. Takes no memory.
    pub fn source(&self) -> Option<&SourceName>
        ensures { option_map (λ name. name.now) result ≡ self.now.source }
    {
        self.source.as_ref()
    }

    /// The sinks' names, in order. Takes no memory.
    pub fn sinks(&self) -> &SinkNames
        ensures { result.now ≡ self.now.sinks }
    {
        &self.sinks
    }

    /// The clients, in order of connecting. Takes no memory.
    pub fn clients(&self) -> &[Client]
        ensures { result.now ≡ self.now.clients }
    {
        self.clients.as_slice()
    }

    /// The client of a connection, where it has one. Takes no memory.
    pub fn client_on(&self, conn: ConnId) -> Option<&Client>
        ensures { option_map (λ client. client.now) result ≡ client_on self.now.clients conn }
    {
        self.clients.iter().find(|client| client.conn.0 == conn.0)
    }

    /// The client with an index, where there is one. Takes no memory.
    pub fn client_numbered(&self, index: u32) -> Option<&Client>
        ensures { option_map (λ client. client.now) result ≡ client_numbered self.now.clients index }
    {
        self.clients.iter().find(|client| client.index == index)
    }

    /// The facilities that a connection subscribes to, a bit each; 0 where it has no client. Takes no memory.
    pub fn mask(&self, conn: ConnId) -> u32
        ensures { result ≡ mask_of (client_on self.now.clients conn) }
    {
        match self.client_on(conn) {
            Some(client) => client.mask,
            None => 0,
        }
    }

    /// Sets the facilities that a connection subscribes to. Takes no memory.
    pub fn set_mask(&mut self, conn: ConnId, mask: u32)
        ensures { self.new ≡ record self.old { clients = change_first (is_on conn) (with_mask mask) self.old.clients } }
    {
        set_mask(&mut self.clients, conn, mask);
    }

    /// Adds the client of a connection, with an index of its own, no facility and an empty property list. The caller has to
    /// see that no other client has the connection or the index: the look-ups find the first that has. Where memory runs
    /// out, nothing has changed.
    pub fn admit(&mut self, conn: ConnId, index: u32) -> Mem<()>
        ensures admitted { OnOk result (self.new ≡ record self.old { clients = self.old.clients ++ new_client conn index ∷ [] }) }
        ensures unchanged { OnErr result (self.new ≡ self.old) }
    {
        let client = Client {
            conn,
            index,
            mask: 0,
            list: PropList::new(self.alloc),
        };
        self.clients.push(client)?;
        Ok(())
    }

    /// Removes the client of a connection. Takes no memory.
    pub fn forget(&mut self, conn: ConnId)
        ensures { self.new ≡ record self.old { clients = without_first (is_on conn) self.old.clients } }
    {
        forget(&mut self.clients, conn);
    }

    /// Updates the property list of the client with an index. Where memory runs out, nothing has changed.
    pub fn update(&mut self, index: u32, mode: Mode, list: &PropList) -> Mem<()>
        ensures updated { OnOk result (self.new ≡ record self.old { clients = change_first (has_index index) (with_update mode list.now) self.old.clients }) }
        ensures unchanged { OnErr result (self.new ≡ self.old) }
    {
        update(&mut self.clients, index, mode, list)
    }

    /// Gives a connection's client another property list. Takes no memory.
    pub fn set_list(&mut self, conn: ConnId, list: PropList)
        ensures { self.new ≡ record self.old { clients = change_first (is_on conn) (with_list list) self.old.clients } }
    {
        set_list(&mut self.clients, conn, list);
    }
}
