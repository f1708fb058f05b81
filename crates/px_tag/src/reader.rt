//! Items, read from a packet one after the other.

ghost use Rattle.std.specs.Prelude.{◌≡◌};
ghost use Rattle.std.specs.Option.{option_map};
ghost use Rattle.px_tag.specs.Place.{start_of, Gives, Reads, ReadsList};
ghost use Rattle.px_tag.specs.Reading.{number_at, byte_at, wide_at, signed_at, usec_at, flag_at, text_at, arbitrary_at, counted_at, spec_at, map_at, volumes_at, time_at, proplist_at, end_at};

use crate::fault::{ListFault, TagFault};
use crate::place::Place;
use crate::proplist::PropList;
use crate::raw::{RawMap, RawSpec, RawVolume, TimeVal};
use std::alloc::Global;
use std::marker::Model;

/// A place in a packet, from which items are read one after the other, as `pulsecore/tagstruct.c` does.
/// A contract sees how many bytes the packet has, and those of them that are left. What is read borrows
/// from the packet. After a fault the reader is where it was.
#[derive(Drop)]
pub struct TagReader<'a> {
    place: Place<'a>,
}

impl<'a> Model for TagReader<'a> {
    ghost use Rattle.px_tag.specs.Place.{Place};

    ghost Value = { Place };

    ghost use Rattle.px_tag.specs.Seen.{place_of};

    ghost view = { λ reader. place_of reader.place };
}

impl<'a> TagReader<'a> {
    /// A reader before the packet's first byte. Takes no memory.
    pub fn new(bytes: &'a [u8]) -> Self
        ensures { result ≡ start_of bytes.now }
    {
        TagReader {
            place: Place {
                size: bytes.len(),
                rest: bytes,
            },
        }
    }

    /// Reads the u32 (tag `L`) here. Takes no memory.
    pub fn number(&mut self) -> Result<u32, TagFault>
        ensures { Reads (λ value. value) result self.old self.new (number_at self.old) }
    {
        let (value, place) = self.place.number()?;
        self.place = place;
        Ok(value)
    }

    /// Reads the u8 (tag `B`) here. Takes no memory.
    pub fn byte(&mut self) -> Result<u8, TagFault>
        ensures { Reads (λ value. value) result self.old self.new (byte_at self.old) }
    {
        let (value, place) = self.place.byte()?;
        self.place = place;
        Ok(value)
    }

    /// Reads the u64 (tag `R`) here. Takes no memory.
    pub fn wide(&mut self) -> Result<u64, TagFault>
        ensures { Reads (λ value. value) result self.old self.new (wide_at self.old) }
    {
        let (value, place) = self.place.wide()?;
        self.place = place;
        Ok(value)
    }

    /// Reads the s64 (tag `r`) here. Takes no memory.
    pub fn signed(&mut self) -> Result<i64, TagFault>
        ensures { Reads (λ value. value) result self.old self.new (signed_at self.old) }
    {
        let (value, place) = self.place.signed()?;
        self.place = place;
        Ok(value)
    }

    /// Reads the string (tag `t`, its bytes, a zero byte) here, without its zero byte, or `None` for the null string (tag `N`). Takes no
    /// memory.
    pub fn text(&mut self) -> Result<Option<&'a [u8]>, TagFault>
        ensures { Reads (option_map (λ bytes. bytes.now)) result self.old self.new (text_at self.old) }
    {
        let (value, place) = self.place.text()?;
        self.place = place;
        Ok(value)
    }

    /// Reads the bytes (tag `x`, a u32 count, the bytes) here, any bytes. Takes no memory.
    pub fn arbitrary(&mut self) -> Result<&'a [u8], TagFault>
        ensures { Reads (λ bytes. bytes.now) result self.old self.new (arbitrary_at self.old) }
    {
        let (value, place) = self.place.arbitrary()?;
        self.place = place;
        Ok(value)
    }

    /// Reads the bytes (tag `x`) here, whose number is to be `count`: another count is `BadValue`, before the bytes are read. Takes no
    /// memory.
    pub fn arbitrary_of(&mut self, count: u32) -> Result<&'a [u8], TagFault>
        ensures { Reads (λ bytes. bytes.now) result self.old self.new (counted_at count self.old) }
    {
        let (value, place) = self.place.counted(count)?;
        self.place = place;
        Ok(value)
    }

    /// Reads the bool (tag `1` or `0`) here. Takes no memory.
    pub fn flag(&mut self) -> Result<bool, TagFault>
        ensures { Reads (λ value. value) result self.old self.new (flag_at self.old) }
    {
        let (value, place) = self.place.flag()?;
        self.place = place;
        Ok(value)
    }

    /// Reads the sample spec (tag `a`) here; more than 32 channels are `BadValue` (own: PulseAudio leaves that to the command). Takes no
    /// memory.
    pub fn spec(&mut self) -> Result<RawSpec, TagFault>
        ensures { Reads (λ value. value) result self.old self.new (spec_at self.old) }
    {
        let (value, place) = self.place.spec()?;
        self.place = place;
        Ok(value)
    }

    /// Reads the channel map (tag `m`, a u8 count, the positions) here; a count above 32 is `BadValue`, before the positions are read.
    /// Takes no memory.
    pub fn map(&mut self) -> Result<RawMap, TagFault>
        ensures { Reads (λ value. value) result self.old self.new (map_at self.old) }
    {
        let (value, place) = self.place.map()?;
        self.place = place;
        Ok(value)
    }

    /// Reads the channel volumes (tag `v`, a u8 count, a u32 each) here; a count above 32 is `BadValue`, before the volumes are read. Takes
    /// no memory.
    pub fn cvolume(&mut self) -> Result<RawVolume, TagFault>
        ensures { Reads (λ value. value) result self.old self.new (volumes_at self.old) }
    {
        let (value, place) = self.place.volumes()?;
        self.place = place;
        Ok(value)
    }

    /// Reads the microseconds (tag `U`) here. Takes no memory.
    pub fn usec(&mut self) -> Result<u64, TagFault>
        ensures { Reads (λ value. value) result self.old self.new (usec_at self.old) }
    {
        let (value, place) = self.place.usec()?;
        self.place = place;
        Ok(value)
    }

    /// Reads the time value (tag `T`, u32 seconds, u32 microseconds) here. Takes no memory.
    pub fn time(&mut self) -> Result<TimeVal, TagFault>
        ensures { Reads (λ value. value) result self.old self.new (time_at self.old) }
    {
        let (value, place) = self.place.time()?;
        self.place = place;
        Ok(value)
    }

    /// Reads the property list (tag `P`, properties, the null string) here; each property is a string, a u32 and an arbitrary of that
    /// length. A key that is empty or has a byte above 0x7F, a value above 65,536 bytes and two lengths that differ are `BadValue`. A
    /// repeated key stays in its first place, with its last value. Takes memory; where that runs out, the reader is where it was.
    pub fn proplist(&mut self, alloc: Global) -> Result<PropList, ListFault>
        ensures { ReadsList (λ list. list) result self.old self.new (proplist_at self.old) }
    {
        let (value, place) = self.place.proplist(alloc)?;
        self.place = place;
        Ok(value)
    }

    /// Whether the packet ends here: `Left` where a byte is left. Takes no memory.
    #[tactic(auto, unfolding(crate::specs::Reading::end_at))]
    pub fn end(&self) -> Result<(), TagFault>
        ensures { Gives (λ nothing. nothing) result (end_at self.now) }
    {
        if !self.place.rest.is_empty() {
            return Err(TagFault::Left {
                at: self.place.offset(),
            });
        }
        Ok(())
    }
}
