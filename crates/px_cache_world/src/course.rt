//! The plays that are under way.

ghost use Rattle.std.specs.Prelude.{◌≡◌, ℕ, List, [], ◌∷◌, ◌≤◌, ◌<◌, length, OnOk, OnErr, Some, None};
ghost use Rattle.px_cache_world.specs.Course.{Course as SpecCourse, no_plays, under_way, with_play, without, is_play, drained, answered, all_ended, course_seen_one, course_seen, with_due, most_due, TakesDue};
ghost use Rattle.px_cache_world.specs.Answered.{verdict_of};
ghost use Rattle.px_cache_world.specs.declared.answered.Created.TheVariants.{Made};

use crate::answered::{Verdict, verdict_of};
use crate::own::is_hidden;
use px_scache::Plays;
use px_state::Effect;
use px_types::Mem;
use std::alloc::Global;
use std::collections::VecDeque;
use std::marker::Model;

/// The streams of the plays under way, those that are to be deleted, and whether the server's own connection is closed.
#[derive(Drop)]
pub(crate) struct Course {
    plays: Vec<u32>,
    due: VecDeque<u32>,
    closed: bool,
}

impl Model for Course {
    ghost use Rattle.px_cache_world.specs.Course.{Course};

    ghost Value = { Course };

    ghost view = { λ c. record { plays = c.plays.items; due = c.due.items; closed = c.closed } };
}

// The most plays that PLAY_SAMPLE asks about.
const MANY: usize = 64;

// Whether a stream is that of a play.
fn is_play(plays: &[u32], stream: u32) -> bool
    ensures { result ≡ is_play stream plays.now }
{
    plays.iter().any(|one| *one == stream)
}

// Drops the play of a stream.
fn drop_play(plays: &mut Vec<u32>, stream: u32)
    ensures { plays.new.items ≡ without stream plays.old.items }
{
    plays.retain(|one| *one != stream);
}

impl Course {
    /// No plays. Takes no memory.
    pub fn new(alloc: Global) -> Course
        ensures { result ≡ no_plays }
    {
        Course {
            plays: Vec::new(alloc),
            due: VecDeque::new(alloc),
            closed: false,
        }
    }

    /// The number of plays, at most 64, and whether there can be more. Takes no memory.
    pub fn under_way(&self) -> Plays
        ensures { result ≡ under_way self.now }
    {
        Plays {
            under_way: self.plays.len().min(MANY) as u32,
            closed: self.closed,
        }
    }

    /// A play begins.
    pub fn begin(&mut self, stream: u32) -> Mem<()>
        ensures { OnOk result ((input : ℕ) → self.new ≡ with_play (Made stream input) self.old) }
    {
        self.plays.push(stream)?;
        Ok(())
    }

    /// Takes the first stream that is to be deleted. Takes no memory.
    pub fn next_due(&mut self) -> Option<u32>
        ensures { TakesDue result self.old self.new }
    {
        self.due.pop_front()
    }

    // The DRAIN of a stream was answered by a reply.
    fn drained(&mut self, stream: u32) -> Mem<()>
        ensures { OnOk result (self.new ≡ drained stream self.old) }
    {
        if is_play(self.plays.as_slice(), stream) {
            drop_play(&mut self.plays, stream);
            self.due.push_back(stream)?;
        }
        Ok(())
    }

    // An answer to the server.
    fn answered(&mut self, verdict: Verdict) -> Mem<()>
        ensures { OnOk result (self.new ≡ answered verdict self.old) }
    {
        match verdict {
            Verdict::Replied(tag) => self.drained(tag),
            Verdict::Failed(tag) => {
                drop_play(&mut self.plays, tag);
                Ok(())
            }
            Verdict::Other => Ok(()),
        }
    }

    // The server's own connection is closed.
    fn end_all(&mut self)
        ensures { self.new ≡ all_ended }
    {
        self.plays.clear();
        self.due.clear();
        self.closed = true;
    }

    // An effect is seen.
    fn see_one(&mut self, effect: &Effect) -> Mem<()>
        ensures { OnOk result (self.new ≡ course_seen_one effect.now self.old) }
    {
        match effect {
            Effect::Sent { conn, packet } => {
                if is_hidden(*conn) {
                    self.answered(verdict_of(packet.bytes()))?;
                }
                Ok(())
            }
            Effect::Closed { conn, .. } => {
                if is_hidden(*conn) {
                    self.end_all();
                }
                Ok(())
            }
        }
    }

    /// Effects are seen, in order.
    pub fn see(&mut self, effects: &[Effect]) -> Mem<()>
        ensures { OnOk result (self.new ≡ course_seen effects.now self.old) }
    {
        for effect in effects {
            self.see_one(effect)?;
        }
        Ok(())
    }
}
