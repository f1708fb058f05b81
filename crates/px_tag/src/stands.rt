//! The reading of an item of each kind at a place.

ghost use Rattle.std.specs.Prelude.{◌≡◌, ◌<◌, ◌≤◌, [], length, take, IsTrue, IfOk, IfSome};
ghost use Rattle.std.specs.Option.{option_map};
ghost use Rattle.px_tag.specs.Place.{Gives, GivesList};
ghost use Rattle.px_tag.specs.Reading.{number_at, byte_at, wide_at, signed_at, usec_at, flag_at, text_at, arbitrary_at, counted_at, spec_at, map_at, volumes_at, fields_at, time_at, value_at, property_at, listed_at, proplist_at};
ghost use Rattle.px_tag.specs.PropList.{is_key, is_key_byte, is_value};
ghost use Rattle.std.specs.List.{list_all};
ghost use Rattle.px_tag.specs.Seen.{place_of};

use crate::fault::{ListFault, TagFault};
use crate::place::Place;
use crate::proplist::PropList;
use crate::raw::{RawMap, RawSpec, RawVolume, TimeVal};
use crate::tag;
use std::alloc::Global;

/// The most bytes of a property's value.
const VALUE_MAX: u32 = 65_536;

// Whether each byte is allowed in a property's key.
fn are_key_bytes(bytes: &[u8]) -> bool
    ensures { result ≡ list_all is_key_byte bytes.now }
{
    bytes.iter().all(|byte| 0x01 <= *byte && *byte <= 0x7F)
}

// Whether bytes are a property's key.
fn is_key(bytes: &[u8]) -> bool
    ensures { result ≡ is_key bytes.now }
{
    if bytes.is_empty() {
        return false;
    }
    are_key_bytes(bytes)
}

impl<'a> Place<'a> {
    #[tactic(auto, unfolding(crate::specs::Reading::number_at))]
    pub(crate) fn number(self) -> Result<(u32, Place<'a>), TagFault>
        ensures value { Gives (λ read. (read.0, place_of read.1)) result (number_at (place_of self.entry)) }
        ensures shorter { IfOk result (λ read. length read.1.rest.now < length self.entry.rest.now) }
    {
        self.tagged(tag::NUMBER)?.four()
    }

    #[tactic(auto, unfolding(crate::specs::Reading::byte_at))]
    pub(crate) fn byte(self) -> Result<(u8, Place<'a>), TagFault>
        ensures { Gives (λ read. (read.0, place_of read.1)) result (byte_at (place_of self.entry)) }
    {
        self.tagged(tag::BYTE)?.next()
    }

    #[tactic(auto, unfolding(crate::specs::Reading::wide_at))]
    pub(crate) fn wide(self) -> Result<(u64, Place<'a>), TagFault>
        ensures { Gives (λ read. (read.0, place_of read.1)) result (wide_at (place_of self.entry)) }
    {
        self.tagged(tag::WIDE)?.eight()
    }

    #[tactic(auto, unfolding(crate::specs::Reading::signed_at))]
    pub(crate) fn signed(self) -> Result<(i64, Place<'a>), TagFault>
        ensures { Gives (λ read. (read.0, place_of read.1)) result (signed_at (place_of self.entry)) }
    {
        let (bits, place) = self.tagged(tag::SIGNED)?.eight()?;
        Ok((bits.cast_signed(), place))
    }

    #[tactic(auto, unfolding(crate::specs::Reading::usec_at))]
    pub(crate) fn usec(self) -> Result<(u64, Place<'a>), TagFault>
        ensures { Gives (λ read. (read.0, place_of read.1)) result (usec_at (place_of self.entry)) }
    {
        self.tagged(tag::USEC)?.eight()
    }

    #[tactic(auto, unfolding(crate::specs::Reading::flag_at))]
    pub(crate) fn flag(self) -> Result<(bool, Place<'a>), TagFault>
        ensures { Gives (λ read. (read.0, place_of read.1)) result (flag_at (place_of self.entry)) }
    {
        let (byte, place) = self.next()?;
        match byte {
            tag::TRUE => Ok((true, place)),
            tag::FALSE => Ok((false, place)),
            _ => Err(TagFault::WrongTag { at: self.offset() }),
        }
    }

    #[tactic(auto, unfolding(crate::specs::Reading::text_at))]
    pub(crate) fn text(self) -> Result<(Option<&'a [u8]>, Place<'a>), TagFault>
        ensures value { Gives (λ read. (option_map (λ bytes. bytes.now) read.0, place_of read.1)) result (text_at (place_of self.entry)) }
        ensures shorter { IfOk result (λ read. length read.1.rest.now < length self.entry.rest.now) }
    {
        let (byte, place) = self.next()?;
        match byte {
            tag::NULL_STRING => Ok((None, place)),
            tag::STRING => {
                let (bytes, place) = place.string()?;
                Ok((Some(bytes), place))
            }
            _ => Err(TagFault::WrongTag { at: self.offset() }),
        }
    }

    #[tactic(auto, unfolding(crate::specs::Reading::arbitrary_at))]
    pub(crate) fn arbitrary(self) -> Result<(&'a [u8], Place<'a>), TagFault>
        ensures { Gives (λ read. (read.0.now, place_of read.1)) result (arbitrary_at (place_of self.entry)) }
    {
        let (count, place) = self.tagged(tag::ARBITRARY)?.four()?;
        place.bytes(count as usize)
    }

    #[tactic(auto, unfolding(crate::specs::Reading::counted_at))]
    pub(crate) fn counted(self, wanted: u32) -> Result<(&'a [u8], Place<'a>), TagFault>
        ensures { Gives (λ read. (read.0.now, place_of read.1)) result (counted_at wanted (place_of self.entry)) }
    {
        let (count, place) = self.tagged(tag::ARBITRARY)?.four()?;
        if count != wanted {
            return Err(TagFault::BadValue { at: self.offset() });
        }
        place.bytes(wanted as usize)
    }

    #[tactic(auto, unfolding(crate::specs::Reading::spec_at))]
    pub(crate) fn spec(self) -> Result<(RawSpec, Place<'a>), TagFault>
        ensures { Gives (λ read. (read.0, place_of read.1)) result (spec_at (place_of self.entry)) }
    {
        let (format, place) = self.tagged(tag::SPEC)?.next()?;
        let (channels, place) = place.next()?;
        let (rate, place) = place.four()?;
        if channels > 32 {
            return Err(TagFault::BadValue { at: self.offset() });
        }
        let spec = RawSpec {
            format,
            channels,
            rate,
        };
        Ok((spec, place))
    }

    #[tactic(auto, unfolding(crate::specs::Reading::map_at))]
    pub(crate) fn map(self) -> Result<(RawMap, Place<'a>), TagFault>
        ensures { Gives (λ read. (read.0, place_of read.1)) result (map_at (place_of self.entry)) }
    {
        let (count, place) = self.tagged(tag::MAP)?.next()?;
        if count > 32 {
            return Err(TagFault::BadValue { at: self.offset() });
        }
        let (positions, place) = place.bytes(count as usize)?;
        Ok((RawMap::new(positions), place))
    }

    // The first `count` numbers of the array, four bytes each; the rest are 0.
    fn fields(self, count: u8) -> Result<([u32; 32], Place<'a>), TagFault>
        requires { count ≤ 32 }
        ensures { Gives (λ read. (take count read.0, place_of read.1)) result (fields_at count (place_of self.entry)) }
    {
        let mut items = [0; 32];
        let mut place = self;
        for i in 0..count {
            let (item, behind) = place.four()?;
            items[i as usize] = item;
            place = behind;
        }
        Ok((items, place))
    }

    #[tactic(auto, unfolding(crate::specs::Reading::volumes_at))]
    pub(crate) fn volumes(self) -> Result<(RawVolume, Place<'a>), TagFault>
        ensures { Gives (λ read. (read.0, place_of read.1)) result (volumes_at (place_of self.entry)) }
    {
        let (count, place) = self.tagged(tag::VOLUMES)?.next()?;
        if count > 32 {
            return Err(TagFault::BadValue { at: self.offset() });
        }
        let (items, place) = place.fields(count)?;
        Ok((RawVolume::new(&items[..count as usize]), place))
    }

    #[tactic(auto, unfolding(crate::specs::Reading::time_at))]
    pub(crate) fn time(self) -> Result<(TimeVal, Place<'a>), TagFault>
        ensures { Gives (λ read. (read.0, place_of read.1)) result (time_at (place_of self.entry)) }
    {
        let (seconds, place) = self.tagged(tag::TIME)?.four()?;
        let (micros, place) = place.four()?;
        Ok((TimeVal { seconds, micros }, place))
    }

    #[tactic(auto, unfolding(crate::specs::Reading::value_at))]
    fn value(self) -> Result<(&'a [u8], Place<'a>), TagFault>
        ensures value { Gives (λ read. (read.0.now, place_of read.1)) result (value_at (place_of self.entry)) }
        ensures rules { IfOk result (λ read. IsTrue (is_value read.0.now)) }
        ensures shorter { IfOk result (λ read. length read.1.rest.now ≤ length self.entry.rest.now) }
    {
        let (size, start) = self.number()?;
        let (count, place) = start.tagged(tag::ARBITRARY)?.four()?;
        if count != size || size > VALUE_MAX {
            return Err(TagFault::BadValue { at: start.offset() });
        }
        place.bytes(size as usize)
    }

    // The next property, or `None` at the list's end.
    #[tactic(auto, unfolding(crate::specs::Reading::property_at))]
    fn property(self) -> Result<(Option<(&'a [u8], &'a [u8])>, Place<'a>), TagFault>
        ensures value { Gives (λ read. (option_map (λ p. (p.0.now, p.1.now)) read.0, place_of read.1)) result (property_at (place_of self.entry)) }
        ensures rules { IfOk result (λ read. IfSome read.0 (λ p. IsTrue (is_key p.0.now) × IsTrue (is_value p.1.now))) }
        ensures shorter { IfOk result (λ read. length read.1.rest.now < length self.entry.rest.now) }
    {
        let (key, place) = self.text()?;
        let Some(key) = key else {
            return Ok((None, place));
        };
        if !is_key(key) {
            return Err(TagFault::BadValue { at: self.offset() });
        }
        let (value, place) = place.value()?;
        Ok((Some((key, value)), place))
    }

    // The properties up to the list's end, added to `list`, which is empty before.
    fn properties(self, list: &mut PropList) -> Result<Place<'a>, ListFault>
        requires none { list.old ≡ [] }
        ensures { GivesList (λ behind. (list.new, place_of behind)) result (listed_at (place_of self.entry)) }
    {
        let mut place = self;
        loop {
            let (property, behind) = place.property()?;
            match property {
                None => return Ok(behind),
                Some((key, value)) => list.set(key, value)?,
            }
            place = behind;
        }
    }

    #[tactic(auto, unfolding(crate::specs::Reading::proplist_at))]
    pub(crate) fn proplist(self, alloc: Global) -> Result<(PropList, Place<'a>), ListFault>
        ensures { GivesList (λ read. (read.0, place_of read.1)) result (proplist_at (place_of self.entry)) }
    {
        let place = self.tagged(tag::PROPLIST)?;
        let mut list = PropList::new(alloc);
        let behind = place.properties(&mut list)?;
        Ok((list, behind))
    }
}
