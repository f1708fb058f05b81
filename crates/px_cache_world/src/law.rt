// The laws of the definitions.

ghost use Rattle.std.specs.Prelude.{◌≡◌, ℕ, pos, List, [], ◌∷◌, ◌++◌, Some};
ghost use Rattle.px_types.specs.declared.ids.ConnId.{ConnId};
ghost use Rattle.px_frame.specs.declared.frame.Frame.{Frame};
ghost use Rattle.px_frame.specs.declared.frame.Body.TheVariants.{Write};
ghost use Rattle.px_frame.specs.Spelling.{spelling_of};
ghost use Rattle.px_header.specs.declared.header.Header.{Header};
ghost use Rattle.px_session.specs.declared.event.Event.{Event};
ghost use Rattle.px_state.specs.Effect.{sending};
ghost use Rattle.px_world.specs.World.{new_world};
ghost use Rattle.px_world.specs.Output.{world_by, AreAdmitted};
ghost use Rattle.px_sieve.specs.declared.piece.Piece.TheVariants.{Own};
ghost use Rattle.px_sieve.specs.Scene.{Reply, inner, shown_by};
ghost use Rattle.px_scache.specs.declared.answer.Answer.TheVariants.{Begins};
ghost use Rattle.px_scache.specs.declared.play.Play.{Play};
ghost use Rattle.px_scache.specs.Cache.{cache_of, sample_named};
ghost use Rattle.px_scache.specs.Command.{meant};
ghost use Rattle.px_scache.specs.Play.{played_reply, create_frame, drain_frame};
ghost use Rattle.px_cache_world.specs.declared.answered.Created.TheVariants.{Made};
ghost use Rattle.px_cache_world.specs.Answered.{NO_STREAM, tag_in};
ghost use Rattle.px_cache_world.specs.Sampler.{Sampler, new_sampler, greeting, own, packet_of, answered_by, created, piece_items, open_effects};
ghost use Rattle.px_cache_world.specs.Run.{sampler_by, AreSampled, items_by, effects_shown, changes_by, name_in};

/// In a run of events that are admitted, the world admits each event that it gets, those of the server's own connection among them; it is the world after these events; and
/// the effects that are shown are theirs without those on that connection, with the replies to the commands on samples in their places. Source: own.
pub fn caches_stand_before_a_world()
    ensures admitted { (header : Header) (events : List Event) → AreSampled (new_sampler header) events
        → AreAdmitted (new_world header) (greeting header.cookie ++ inner (items_by (new_sampler header) events)) }
    ensures world { (header : Header) (events : List Event)
        → (sampler_by (new_sampler header) events).world ≡ world_by (new_world header) (greeting header.cookie ++ inner (items_by (new_sampler header) events)) }
    ensures effects { (header : Header) (events : List Event)
        → effects_shown (new_sampler header) events ≡ open_effects (shown_by (new_sampler header).world (items_by (new_sampler header) events)) }
{}

/// The samples are those of the uploads that were finished and not removed or replaced. A play is of the sample that stands under its name at the PLAY_SAMPLE: where its
/// CREATE_PLAYBACK_STREAM is answered by a reply, all bytes of that sample are written to the stream at once, before any later event. Source: own.
pub fn plays_write_what_was_kept()
    ensures cache { (header : Header) (events : List Event)
        → (sampler_by (new_sampler header) events).store.cache ≡ cache_of (changes_by (new_sampler header) events) }
    ensures kept { (s : Sampler) (conn : ConnId) (packet : List ℕ) (p : Play) → (answered_by s conn packet).1 ≡ Begins p
        → sample_named (name_in (meant packet)) s.store.cache ≡ Some p.sample }
    ensures written { (s : Sampler) (conn : ConnId) (frame : Frame) (p : Play) (stream input : ℕ) → (answered_by s conn (packet_of frame.body)).1 ≡ Begins p
        → created s.world p ≡ Made stream input
        → piece_items s conn (Own frame) ≡ own (create_frame NO_STREAM p) ∷ Reply (sending conn (played_reply (tag_in (packet_of frame.body)) input))
        ∷ own (spelling_of (Write stream (pos 0) 0 p.sample.bytes)) ∷ own (drain_frame stream stream) ∷ [] }
{}
