//! The laws of the commands, of the cache, and of the packets of a play.

ghost use Rattle.std.specs.Prelude.{◌≡◌, ◌<◌, ◌^◌, ℕ, List, [], ◌∷◌, ◌++◌, false, bytes_eq, None, Some, Ok};
ghost use Rattle.std.specs.List.{AllByRecursion};
ghost use Rattle.px_cmd.specs.Law.{IsField, packet_of};
ghost use Rattle.px_cmd.specs.Meant.{meant};
ghost use Rattle.px_scache.specs.declared.command.Request.{Request as Read};
ghost use Rattle.px_scache.specs.Command.{number_of, fields_of, meant as meant_here};
ghost use Rattle.px_cmd.specs.declared.command.Command.TheVariants.{Create, Drain, Delete};
ghost use Rattle.px_scache.specs.declared.play.Play.{Play as Played};
ghost use Rattle.px_scache.specs.declared.sample.Sample.{Sample as Entry};
ghost use Rattle.px_scache.specs.Cache.{Cache as Samples, Change, sample_in, stored, removed, changed, cache_of};
ghost use Rattle.px_scache.specs.Play.{IsPlay, create_of, create_packet, drain_packet, delete_packet};

/// The cache is a map from names to samples: a sample that is stored is found under its name, one that is removed isn't found, and those of
/// other names are found as before. The cache after a list of changes and one more is that change of the cache after the list. The function
/// does nothing: its contract is the law.
pub fn cache_is_a_map()
    ensures stored { (s : Entry) (cache : Samples) → sample_in (stored s cache) s.name ≡ Some s }
    ensures stored_beside { (s : Entry) (other : List ℕ) (cache : Samples) → bytes_eq s.name other ≡ false → sample_in (stored s cache) other ≡ sample_in cache other }
    ensures removed { (name : List ℕ) (cache : Samples) → sample_in (removed name cache) name ≡ None }
    ensures removed_beside { (name other : List ℕ) → bytes_eq name other ≡ false → (cache : Samples) → sample_in (removed name cache) other ≡ sample_in cache other }
    ensures one_more { (changes : List Change) (change : Change) → cache_of (changes ++ change ∷ []) ≡ changed (cache_of changes) change }
{}

/// A packet that is the number of one of the five commands, a tag and the command's fields, one after the other, means that command. The
/// function does nothing: its contract is the law.
pub fn spelled_requests()
    ensures { (tag : ℕ) (r : Read) → tag < 2 ^ 32 → AllByRecursion IsField (fields_of r) → meant_here (packet_of (number_of r) tag (fields_of r)) ≡ Ok r }
{}

/// Each packet of a play means its command at version 18. The function does nothing: its contract is the law.
pub fn plays_mean_commands()
    ensures create { (tag : ℕ) (p : Played) → IsPlay p → tag < 2 ^ 32 → p.sink.index < 2 ^ 32 → p.volume < 2 ^ 32 → meant 18 (create_packet tag p) ≡ Ok (Create (create_of p)) }
    ensures drain { (tag stream : ℕ) → tag < 2 ^ 32 → stream < 2 ^ 32 → meant 18 (drain_packet tag stream) ≡ Ok (Drain stream) }
    ensures delete { (tag stream : ℕ) → tag < 2 ^ 32 → stream < 2 ^ 32 → meant 18 (delete_packet tag stream) ≡ Ok (Delete stream) }
{}
