//! Items, written one after the other.

ghost use Rattle.std.specs.Prelude.{◌≡◌, ◌<◌, ◌≤◌, ◌^◌, ◌++◌, [], length, take, IsTrue, OnOk, OnErr};
ghost use Rattle.std.specs.Int.{w32, to_be_bytes};
ghost use Rattle.std.specs.List.{flat_map};
ghost use Rattle.std.specs.Option.{option_map};
ghost use Rattle.px_tag.specs.Item.{number, byte, wide, signed, usec, volume, flag, text, arbitrary, spec, channel_map, channel_volumes, time, property, proplist, IsText};
ghost use Rattle.px_tag.specs.PropList.{is_key, is_value};

use crate::memory::{Mem, NoMemory};
use crate::packet::Packet;
use crate::proplist::PropList;
use crate::raw::{RawMap, RawSpec, RawVolume, TimeVal};
use crate::tag;
use std::alloc::Global;
use std::marker::Model;

/// A packet that is being written, as `pulsecore/tagstruct.c` does. A contract sees its bytes so far. A call that answers `NoMemory` has
/// written nothing.
#[derive(Debug, Drop)]
pub struct TagWriter {
    bytes: Vec<u8>,
}

impl Model for TagWriter {
    ghost use Rattle.std.specs.Prelude.{ℕ, List};

    ghost Value = { List ℕ };

    ghost view = { λ writer. writer.bytes.items };
}

// The first room of a packet, in bytes: that of a message with two numbers, so that most packets take memory once.
const FIRST_ROOM: usize = 32;

// Appends a head, a body and a tail, or nothing.
fn append(bytes: &mut Vec<u8>, head: &[u8], body: &[u8], tail: &[u8]) -> Mem<()>
    requires head { length head.now ≤ 8 }
    requires tail { length tail.now ≤ 8 }
    ensures appended { OnOk result (bytes.new.items ≡ bytes.old.items ++ head.now ++ body.now ++ tail.now) }
    ensures unchanged { OnErr result (bytes.new.items ≡ bytes.old.items) }
{
    bytes.reserve(head.len() + body.len() + tail.len())?;
    bytes.extend_from_slice(head).unwrap();
    bytes.extend_from_slice(body).unwrap();
    bytes.extend_from_slice(tail).unwrap();
    Ok(())
}

// Appends each number in four bytes. Where memory runs out some of them may be appended.
fn append_fields(bytes: &mut Vec<u8>, fields: &[u32]) -> Mem<()>
    ensures appended { OnOk result (bytes.new.items ≡ bytes.old.items ++ flat_map (to_be_bytes w32) fields.now) }
    ensures stays { take (length bytes.old.items) bytes.new.items ≡ bytes.old.items }
{
    for field in fields {
        bytes.extend_from_slice(&field.to_be_bytes())?;
    }
    Ok(())
}

impl TagWriter {
    /// An empty packet. Takes no memory.
    pub fn new(alloc: Global) -> Self
        ensures { result ≡ [] }
    {
        TagWriter {
            bytes: Vec::new(alloc),
        }
    }

    /// Appends a u32 (tag `L`).
    #[tactic(auto, unfolding(crate::specs::Item::number))]
    pub fn number(&mut self, v: u32) -> Mem<()>
        ensures appended { OnOk result (self.new ≡ self.old ++ number v) }
        ensures unchanged { OnErr result (self.new ≡ self.old) }
    {
        if self.bytes.capacity() == 0 {
            self.bytes.reserve(FIRST_ROOM)?;
        }
        let [a, b, c, d] = v.to_be_bytes();
        self.bytes.extend_from_slice(&[tag::NUMBER, a, b, c, d])?;
        Ok(())
    }

    /// Appends a u8 (tag `B`).
    #[tactic(auto, unfolding(crate::specs::Item::byte))]
    pub fn byte(&mut self, v: u8) -> Mem<()>
        ensures appended { OnOk result (self.new ≡ self.old ++ byte v) }
        ensures unchanged { OnErr result (self.new ≡ self.old) }
    {
        self.bytes.extend_from_slice(&[tag::BYTE, v])?;
        Ok(())
    }

    /// Appends a u64 (tag `R`).
    #[tactic(auto, unfolding(crate::specs::Item::wide))]
    pub fn wide(&mut self, v: u64) -> Mem<()>
        ensures appended { OnOk result (self.new ≡ self.old ++ wide v) }
        ensures unchanged { OnErr result (self.new ≡ self.old) }
    {
        append(&mut self.bytes, &[tag::WIDE], &v.to_be_bytes(), &[])
    }

    /// Appends an s64 (tag `r`).
    #[tactic(auto, unfolding(crate::specs::Item::signed))]
    pub fn signed(&mut self, v: i64) -> Mem<()>
        ensures appended { OnOk result (self.new ≡ self.old ++ signed v) }
        ensures unchanged { OnErr result (self.new ≡ self.old) }
    {
        append(&mut self.bytes, &[tag::SIGNED], &v.to_be_bytes(), &[])
    }

    /// Appends a string (tag `t`), whose bytes have no zero among them, or for `None` the null string
    /// (tag `N`).
    #[tactic(auto, unfolding(crate::specs::Item::text))]
    pub fn text(&mut self, v: Option<&[u8]>) -> Mem<()>
        requires { IsText (option_map (λ bytes. bytes.now) v) }
        ensures appended { OnOk result (self.new ≡ self.old ++ text (option_map (λ bytes. bytes.now) v.entry)) }
        ensures unchanged { OnErr result (self.new ≡ self.old) }
    {
        match v {
            None => append(&mut self.bytes, &[tag::NULL_STRING], &[], &[]),
            Some(bytes) => append(&mut self.bytes, &[tag::STRING], bytes, &[0]),
        }
    }

    /// Appends bytes of any kind (tag `x`), fewer than 2^32 of them.
    #[tactic(auto, unfolding(crate::specs::Item::arbitrary))]
    pub fn arbitrary(&mut self, v: &[u8]) -> Mem<()>
        requires { length v.now < 2 ^ 32 }
        ensures appended { OnOk result (self.new ≡ self.old ++ arbitrary v.now) }
        ensures unchanged { OnErr result (self.new ≡ self.old) }
    {
        let [a, b, c, d] = (v.len() as u32).to_be_bytes();
        append(&mut self.bytes, &[tag::ARBITRARY, a, b, c, d], v, &[])
    }

    /// Appends a bool (tag `1` or `0`).
    #[tactic(auto, unfolding(crate::specs::Item::flag))]
    pub fn flag(&mut self, v: bool) -> Mem<()>
        ensures appended { OnOk result (self.new ≡ self.old ++ flag v) }
        ensures unchanged { OnErr result (self.new ≡ self.old) }
    {
        let tag = if v { tag::TRUE } else { tag::FALSE };
        self.bytes.extend_from_slice(&[tag])?;
        Ok(())
    }

    /// Appends a sample spec (tag `a`) of at most 32 channels.
    #[tactic(auto, unfolding(crate::specs::Item::spec))]
    pub fn spec(&mut self, v: &RawSpec) -> Mem<()>
        requires { v.now.channels ≤ 32 }
        ensures appended { OnOk result (self.new ≡ self.old ++ spec v.now) }
        ensures unchanged { OnErr result (self.new ≡ self.old) }
    {
        let head = [tag::SPEC, v.format, v.channels];
        append(&mut self.bytes, &head, &v.rate.to_be_bytes(), &[])
    }

    /// Appends a channel map (tag `m`).
    #[tactic(auto, unfolding(crate::specs::Item::channel_map))]
    pub fn map(&mut self, v: &RawMap) -> Mem<()>
        ensures appended { OnOk result (self.new ≡ self.old ++ channel_map v.now) }
        ensures unchanged { OnErr result (self.new ≡ self.old) }
    {
        let positions = v.as_slice();
        let head = [tag::MAP, positions.len() as u8];
        append(&mut self.bytes, &head, positions, &[])
    }

    /// Appends channel volumes (tag `v`).
    #[tactic(auto, unfolding(crate::specs::Item::channel_volumes))]
    pub fn cvolume(&mut self, v: &RawVolume) -> Mem<()>
        ensures appended { OnOk result (self.new ≡ self.old ++ channel_volumes v.now) }
        ensures unchanged { OnErr result (self.new ≡ self.old) }
    {
        let before = self.bytes.len();
        let volumes = v.as_slice();
        let head = [tag::VOLUMES, volumes.len() as u8];
        append(&mut self.bytes, &head, &[], &[])?;
        if append_fields(&mut self.bytes, volumes).is_err() {
            self.bytes.truncate(before);
            return Err(NoMemory);
        }
        Ok(())
    }

    /// Appends microseconds (tag `U`).
    #[tactic(auto, unfolding(crate::specs::Item::usec))]
    pub fn usec(&mut self, v: u64) -> Mem<()>
        ensures appended { OnOk result (self.new ≡ self.old ++ usec v) }
        ensures unchanged { OnErr result (self.new ≡ self.old) }
    {
        append(&mut self.bytes, &[tag::USEC], &v.to_be_bytes(), &[])
    }

    /// Appends a time value (tag `T`).
    #[tactic(auto, unfolding(crate::specs::Item::time))]
    pub fn time(&mut self, v: &TimeVal) -> Mem<()>
        ensures appended { OnOk result (self.new ≡ self.old ++ time v.now) }
        ensures unchanged { OnErr result (self.new ≡ self.old) }
    {
        let (high, low) = (v.seconds.to_be_bytes(), v.micros.to_be_bytes());
        append(&mut self.bytes, &[tag::TIME], &high, &low)
    }

    /// Appends a volume (tag `V`).
    #[tactic(auto, unfolding(crate::specs::Item::volume))]
    pub fn volume(&mut self, v: u32) -> Mem<()>
        ensures appended { OnOk result (self.new ≡ self.old ++ volume v) }
        ensures unchanged { OnErr result (self.new ≡ self.old) }
    {
        append(&mut self.bytes, &[tag::VOLUME], &v.to_be_bytes(), &[])
    }

    // Appends a property.
    #[tactic(auto, using(crate::proofs::Properties::key_is_text), unfolding(crate::specs::Item::property))]
    fn property(&mut self, key: &[u8], value: &[u8]) -> Mem<()>
        requires key { IsTrue (is_key key.now) }
        requires value { IsTrue (is_value value.now) }
        ensures appended { OnOk result (self.new ≡ self.old ++ property (key.now, value.now)) }
        ensures stays { take (length self.old) self.new ≡ self.old }
    {
        self.text(Some(key))?;
        self.number(value.len() as u32)?;
        self.arbitrary(value)
    }

    // Appends each property of a list. Where memory runs out some bytes may be appended.
    fn properties(&mut self, list: &PropList) -> Mem<()>
        ensures appended { OnOk result (self.new ≡ self.old ++ flat_map property list.now) }
        ensures stays { take (length self.old) self.new ≡ self.old }
    {
        for i in 0..list.len() {
            let (key, value) = list.property(i);
            self.property(key, value)?;
        }
        Ok(())
    }

    /// Appends a property list (tag `P`).
    #[tactic(auto, unfolding(crate::specs::Item::proplist))]
    pub fn proplist(&mut self, v: &PropList) -> Mem<()>
        ensures appended { OnOk result (self.new ≡ self.old ++ proplist v.now) }
        ensures unchanged { OnErr result (self.new ≡ self.old) }
    {
        let before = self.bytes.len();
        let written = self.whole_proplist(v);
        if written.is_err() {
            self.bytes.truncate(before);
        }
        written
    }

    // Appends a property list. Where memory runs out some bytes may be appended.
    #[tactic(auto, unfolding(crate::specs::Item::proplist, crate::specs::Item::text))]
    fn whole_proplist(&mut self, v: &PropList) -> Mem<()>
        ensures appended { OnOk result (self.new ≡ self.old ++ proplist v.now) }
        ensures stays { take (length self.old) self.new ≡ self.old }
    {
        append(&mut self.bytes, &[tag::PROPLIST], &[], &[])?;
        self.properties(v)?;
        self.text(None)
    }

    /// The packet that was written. Takes no memory.
    pub fn finish(self) -> Packet
        ensures { result ≡ self }
    {
        Packet::new(self.bytes)
    }
}
