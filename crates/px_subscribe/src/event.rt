//! An event: the kind of object, the kind of event, and the object's index (PulseAudio: `pa_subscription_event_type_t` and
//! `pa_subscription_mask_t` of `pulse/def.h`).

ghost use Rattle.std.specs.Prelude.{◌≡◌, ◌≤◌, IfOk};
ghost use Rattle.px_subscribe.specs.Event.{facility_code, kind_code, number_of, message_of, hears};

use px_tag::Packet;
use px_types::{Mem, NoMemory};
use std::alloc::Global;

/// A kind of object that events are about.
#[derive(Clone, Copy, Debug, PartialEq, Eq)]
pub enum Facility {
    Sink,
    Input,
    Client,
    Server,
}

/// The kind of an event.
#[derive(Clone, Copy, Debug, PartialEq, Eq)]
pub enum Kind {
    /// The object is new.
    New,
    /// Its info has changed.
    Change,
    /// The object is gone.
    Remove,
}

/// An event about one object.
#[derive(Clone, Copy, Debug, PartialEq, Eq)]
pub struct Event {
    pub facility: Facility,
    pub kind: Kind,
    /// The index of the sink, the input or the client; 0xFFFFFFFF of the server.
    pub index: u32,
}

impl Facility {
    /// Its number in events. Takes no memory.
    pub fn code(self) -> u32
        ensures value { result ≡ facility_code self }
        ensures small { result ≤ 7 }
    {
        match self {
            Facility::Sink => 0,
            Facility::Input => 2,
            Facility::Client => 5,
            Facility::Server => 7,
        }
    }
}

impl Kind {
    /// Its number in events. Takes no memory.
    pub fn code(self) -> u32
        ensures value { result ≡ kind_code self }
        ensures small { result ≤ 32 }
    {
        match self {
            Kind::New => 0,
            Kind::Change => 0x10,
            Kind::Remove => 0x20,
        }
    }
}

impl Event {
    /// Facility and kind as one number. Takes no memory.
    pub fn number(self) -> u32
        ensures { result ≡ number_of self }
    {
        self.facility.code() + self.kind.code()
    }

    /// Its SUBSCRIBE_EVENT packet.
    pub fn message(self, alloc: Global) -> Mem<Packet>
        ensures { IfOk result (λ packet. packet ≡ message_of self) }
    {
        match px_reply::event(alloc, self.number(), self.index) {
            Ok(packet) => Ok(packet),
            Err(_) => Err(NoMemory),
        }
    }
}

/// Whether a mask has a facility's bit. Takes no memory.
pub fn hears(mask: u32, facility: Facility) -> bool
    ensures { result ≡ hears mask facility }
{
    match facility {
        Facility::Sink => mask % 2 == 1,
        Facility::Input => mask / 4 % 2 == 1,
        Facility::Client => mask / 32 % 2 == 1,
        Facility::Server => mask / 128 % 2 == 1,
    }
}
