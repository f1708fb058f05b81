//! The law that items are an alphabet.

ghost use Rattle.std.specs.Prelude.{◌≡◌, ℕ, ◌<◌, ◌^◌, ◌++◌, List, Ok, FitsSigned};
ghost use Rattle.std.specs.Int.{w64};
ghost use Rattle.px_tag.specs.Item.{number, volume, byte, wide, signed, usec, flag, text, arbitrary, spec, channel_map, channel_volumes, time, proplist, AnyFlag, IsText, IsCounted, HasLength, IsSpec, IsMap, IsVolumes, IsTime, AreProperties, IsPropList};
ghost use Rattle.px_tag.specs.PropList.{Property, meaning};
ghost use Rattle.px_tag.specs.Reading.{number_at, volume_at, byte_at, wide_at, signed_at, usec_at, flag_at, text_at, arbitrary_at, counted_at, spec_at, map_at, volumes_at, time_at, written_at, proplist_at};
ghost use Rattle.px_tag.specs.Law.{HasOneSpelling};

/// Each value of a kind has one spelling, and is read exactly where that spelling is, whatever follows it; no spelling is the beginning of
/// another of its kind. The function does nothing: its contract is the law.
pub fn one_spelling()
    ensures numbers { HasOneSpelling (λ n. n < 2 ^ 32) number number_at }
    ensures levels { HasOneSpelling (λ n. n < 2 ^ 32) volume volume_at }
    ensures bytes { HasOneSpelling (λ n. n < 2 ^ 8) byte byte_at }
    ensures wides { HasOneSpelling (λ n. n < 2 ^ 64) wide wide_at }
    ensures signeds { HasOneSpelling (FitsSigned w64) signed signed_at }
    ensures usecs { HasOneSpelling (λ n. n < 2 ^ 64) usec usec_at }
    ensures flags { HasOneSpelling AnyFlag flag flag_at }
    ensures texts { HasOneSpelling IsText text text_at }
    ensures arbitraries { HasOneSpelling IsCounted arbitrary arbitrary_at }
    ensures counted { (n : ℕ) → n < 2 ^ 32 → HasOneSpelling (HasLength n) arbitrary (counted_at n) }
    ensures specs { HasOneSpelling IsSpec spec spec_at }
    ensures maps { HasOneSpelling IsMap channel_map map_at }
    ensures volumes { HasOneSpelling IsVolumes channel_volumes volumes_at }
    ensures times { HasOneSpelling IsTime time time_at }
    ensures proplists { HasOneSpelling AreProperties proplist written_at }
    // A property list that the code holds is read again as it was.
    ensures stays { (list : List Property) (size : ℕ) (behind : List ℕ) → IsPropList list → proplist_at (record { size = size; rest = proplist list ++ behind }) ≡ Ok (list, record { size = size; rest = behind }) }
    // The meaning of a written list is one that the code may hold.
    ensures meanings { (written : List Property) → AreProperties written → IsPropList (meaning written) }
{}
