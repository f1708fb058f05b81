//! The core as a machine.

ghost use Rattle.std.specs.Prelude.{◌≡◌, ◌<◌, ◌+◌, length, IfOk, IfErr, IfSome, IsSome, OnOk, OnErr};
ghost use Rattle.std.specs.Option.{option_map, option_to_list};
ghost use Rattle.px_frame.specs.Frame.{IsBody};
ghost use Rattle.px_header.specs.HeaderRules.{IsHeader};
ghost use Rattle.px_state.specs.Effect.{IsSendable};
ghost use Rattle.px_state.specs.State.{new_state_with};
ghost use Rattle.px_core.specs.Connecting.{version_of};
ghost use Rattle.px_core.specs.Step.{Step, stepped, effects_of};
ghost use Rattle.px_core.specs.Consistency.{IsConsistent};
ghost use Rattle.px_state.specs.Out.{waiting_for, next_for, put_back, sent, unsent, room_for};

use crate::connecting::{break_off, connect, end, sweep_away};
use crate::{found, frames, notice};
use px_frame::{Frame, FrameFault};
use px_header::Header;
use px_msg::{Msg, Notice, Parcel};
use px_names::SourceName;
use px_outcome::Reason;
use px_state::{Effect, Effects, Tables, closed_for, hand_out, new_tables, outgoing, put_back};
use px_types::{ConnId, Mem, SinkId};
use std::alloc::Global;
use std::marker::Model;

/// The control side of the server: connections, their streams, and the messages queued for each sink (`pa_core`, and
/// `pulsecore/protocol-native.c`). Each call is one step of the definitions, with its effects. `P` is the type of a parcel:
/// a stream that moves from one sink to another.
#[derive(Drop)]
pub struct Core<P: Parcel> {
    alloc: Global,
    tables: Tables<P>,
}

impl<P: Parcel> Model for Core<P> {
    ghost use Rattle.px_state.specs.Out.{Roomy};
    ghost use Rattle.px_core.specs.Consistency.{IsConsistent};
    ghost use Rattle.px_state.specs.Tables.{core_of, state_of};

    ghost Value = { Roomy P };

    ghost view = { λ c. core_of c.tables };

    ghost invariant = { λ c. IsConsistent P.spec_of (state_of c.tables) };
}

impl<P: Parcel + Drop> Core<P> {
    /// A core before its first step. `source` is the name of the default source that it tells its clients, if any.
    pub fn new(alloc: Global, header: &Header, source: Option<&SourceName>) -> Mem<Core<P>>
        requires { IsHeader header.now }
        ensures { IfOk result (λ core. core.state ≡ new_state_with (option_map (λ name. name.now) source.entry) header.now) }
    {
        Ok(Core {
            alloc,
            tables: new_tables(alloc, header, source)?,
        })
    }

    /// A client connects. A number in use already changes nothing; where there are 64 connections the server ends the new
    /// one. Where there is no memory for it nothing has changed.
    pub fn admit(&mut self, conn: ConnId) -> Mem<Effects>
        ensures effects { IfOk result (λ effects. effects ≡ effects_of P.spec_of self.old.state (Step.connect conn)) }
        ensures after { OnOk result (self.new.state ≡ stepped P.spec_of self.old.state (Step.connect conn)) }
        ensures err { OnErr result (self.new.state ≡ self.old.state) }
    {
        connect(self.alloc, &mut self.tables, conn)
    }

    /// Takes in a frame of a connection; ignored where the connection doesn't exist or has ended. Where there is no memory
    /// for it, it is handed back, and nothing has changed.
    pub fn frame(&mut self, conn: ConnId, frame: Frame) -> Result<Effects, Frame>
        requires { IsBody frame.body }
        ensures effects { IfOk result (λ effects. effects ≡ effects_of P.spec_of self.old.state (Step.frame conn frame)) }
        ensures after { OnOk result (self.new.state ≡ stepped P.spec_of self.old.state (Step.frame conn frame)) }
        ensures back { IfErr result (λ back. back ≡ frame) }
        ensures err { OnErr result (self.new.state ≡ self.old.state) }
    {
        frames::take(self.alloc, &mut self.tables, conn, frame)
    }

    /// A fault in a connection's bytes, at an offset: it ends. Where there is no memory for the effect nothing has changed.
    pub fn broken(&mut self, conn: ConnId, fault: FrameFault, at: u64) -> Mem<Effects>
        ensures effects { IfOk result (λ effects. effects ≡ effects_of P.spec_of self.old.state (Step.broken conn fault at)) }
        ensures after { OnOk result (self.new.state ≡ stepped P.spec_of self.old.state (Step.broken conn fault at)) }
        ensures err { OnErr result (self.new.state ≡ self.old.state) }
    {
        break_off(self.alloc, &mut self.tables, conn, fault, at)
    }

    /// A client has closed its connection: it ends, with no effect. Takes no memory.
    pub fn close(&mut self, conn: ConnId)
        ensures { self.new.state ≡ stepped P.spec_of self.old.state (Step.close conn) }
    {
        end(&mut self.tables, conn);
    }

    /// The server ends a connection for lack of memory. Takes no memory.
    pub fn cut(&mut self, conn: ConnId) -> Option<Effect>
        ensures effect { option_to_list result ≡ effects_of P.spec_of self.old.state (Step.cut conn) }
        ensures sendable { IfSome result IsSendable }
        ensures after { self.new.state ≡ stepped P.spec_of self.old.state (Step.cut conn) }
    {
        match end(&mut self.tables, conn) {
            None => None,
            Some(conn) => Some(closed_for(conn, Reason::Cut)),
        }
    }

    /// Removes the connections that have ended: the streams of each end, and its client is removed. Where there is no memory
    /// for it nothing has changed.
    pub fn sweep(&mut self) -> Mem<Effects>
        ensures effects { IfOk result (λ effects. effects ≡ effects_of P.spec_of self.old.state Step.sweep) }
        ensures after { OnOk result (self.new.state ≡ stepped P.spec_of self.old.state Step.sweep) }
        ensures err { OnErr result (self.new.state ≡ self.old.state) }
    {
        sweep_away(self.alloc, &mut self.tables)
    }

    /// Takes in a sink's notice. Where there is no memory for it, it is handed back, and nothing has changed.
    pub fn notice(&mut self, sink: SinkId, notice: Notice<P>) -> Result<Effects, Notice<P>>
        ensures effects { IfOk result (λ effects. effects ≡ effects_of P.spec_of self.old.state (Step.notice sink notice)) }
        ensures after { OnOk result (self.new.state ≡ stepped P.spec_of self.old.state (Step.notice sink notice)) }
        ensures back { IfErr result (λ back. back ≡ notice) }
        ensures err { OnErr result (self.new.state ≡ self.old.state) }
    {
        notice::take(self.alloc, &mut self.tables, sink, notice)
    }

    /// The protocol version that a connection agreed on; `None` where it doesn't exist, or hasn't authenticated. Takes no
    /// memory.
    pub fn version_of(&self, conn: ConnId) -> Option<u16>
        ensures { result ≡ version_of self.now.state.connections conn }
    {
        found::version_of(&self.tables.connections, conn)
    }

    /// The number of messages queued for a sink; 0 for an unknown one. Takes no memory.
    pub fn outgoing(&self, sink: SinkId) -> usize
        ensures { result ≡ length (waiting_for self.now.state sink) }
    {
        outgoing(&self.tables, sink)
    }

    /// Removes and returns the first message queued for a sink. There is room to put it back, and putting it back restores
    /// exactly the core before. Takes no memory.
    pub fn sent(&mut self, sink: SinkId) -> Option<Msg<P>>
        ensures next { result ≡ next_for self.old.state sink }
        ensures after { self.new ≡ sent sink self.old }
        ensures room { IsSome result → room_for sink self.new.room ≡ room_for sink self.old.room + 1 }
        ensures consistent { IfSome result (λ msg. IsConsistent P.spec_of (put_back sink msg self.new.state)) }
        ensures back { IfSome result (λ msg. unsent sink msg self.new ≡ self.old) }
    {
        hand_out(&mut self.tables, sink)
    }

    /// Puts a message that was handed out back at the front of its sink's queue. Where several were handed out, the last one
    /// is put back first, and the core is as it was once all are back: each `sent` states that its message can be put back
    /// then. Takes no memory.
    pub fn unsent(&mut self, sink: SinkId, msg: Msg<P>)
        requires room { 0 < room_for sink self.old.room }
        requires consistent { IsConsistent P.spec_of (put_back sink msg self.old.state) }
        ensures { self.new ≡ unsent sink msg self.old }
    {
        put_back(&mut self.tables, sink, msg);
    }
}
