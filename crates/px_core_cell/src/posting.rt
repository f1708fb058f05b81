//! The messages and notices that go through the core's ends of a sink's mailboxes.

ghost use Rattle.std.specs.Prelude.{◌≡◌, ◌≤◌, ◌⊎◌, ◌++◌, [], ◌∷◌, None, Some, true, false, length, slice_get, IsSome, IfSome, IfOk, OnOk, OnErr};
ghost use Rattle.px_mail.specs.Mailbox.{stored_by, found_by};
ghost use Rattle.px_header.specs.declared.header.SinkSpec.{SinkSpec};
ghost use Rattle.px_state.specs.Out.{waiting_for};
ghost use Rattle.px_core.specs.Consistency.{IsConsistent};
ghost use Rattle.px_core.specs.Step.{Step, stepped, effects_of};
ghost use Rattle.px_core_cell.specs.Cell.{ends_of, calls_of};
ghost use Rattle.px_core_cell.specs.Boxes.{boxes_of};
ghost use Rattle.px_core_cell.specs.History.{IsHeard};
ghost use Rattle.px_core_cell.specs.Parcel.{spec_of};
ghost use Rattle.px_core_cell.specs.Step.{Fetches, PostsOne, PostsMany, HandsAll, HandsOut};

use crate::ends::CoreEnd;
use crate::parcel::{CellCore, handed_over, taken_back, taken_over};
use px_core::Effects;
use px_mail::Full;
use px_types::{Mem, NoMemory, SinkId};
use std::sync::Wait;

impl CoreEnd {
    /// Takes the sink's next notice from its outbox and holds it, unless one is held already.
    pub(crate) fn fetch<R: Wait>(&mut self, rt: &R)
        ensures fetches { Fetches (ends_of self.old) (ends_of self.new) }
        ensures looks { self.new.held ≡ None → found_by self.new.take.pass ≡ found_by self.old.take.pass ++ false ∷ [] }
        ensures boxes { boxes_of self.new ≡ boxes_of self.old }
    {
        if self.held.is_none() {
            match self.outbox.take(rt, &mut self.take) {
                None => {}
                Some(notice) => self.held = Some(handed_over(notice)),
            }
        }
    }

    /// Passes the held notice to the core. Without memory for it, it stays held and nothing has changed.
    pub(crate) fn collect(&mut self, core: &mut CellCore, sink: SinkId) -> Mem<Effects>
        requires { IsSome self.old.held }
        ensures done { IfOk result (λ effects. IfSome self.old.held (λ n. (core.new.state ≡ stepped spec_of core.old.state (Step.notice sink n)) × (effects ≡ effects_of spec_of core.old.state (Step.notice sink n)))) }
        ensures used { OnOk result (ends_of self.new ≡ record (ends_of self.old) { held = None }) }
        ensures err { OnErr result ((core.new.state ≡ core.old.state) × (ends_of self.new ≡ ends_of self.old)) }
        ensures boxes { boxes_of self.new ≡ boxes_of self.old }
    {
        let Some(notice) = self.held.take() else {
            unreachable!()
        };
        match core.notice(sink, notice) {
            Ok(effects) => Ok(effects),
            Err(back) => {
                self.held = Some(back);
                Err(NoMemory)
            }
        }
    }

    // Posts the first message queued for the sink, if the inbox isn't full.
    fn post_one<R: Wait>(&mut self, rt: &R, core: &mut CellCore, sink: SinkId) -> bool
        requires consistent { IsConsistent spec_of core.old.state }
        requires heard { (s : SinkSpec) × (slice_get core.old.state.sinks sink.0 ≡ Some s) × IsHeard core.old.state sink.0 s (ends_of self.old) }
        ensures posts { result ≡ true → PostsOne sink core.old.state core.new.state (ends_of self.old) (ends_of self.new) }
        ensures stops { result ≡ false → (core.new.state ≡ core.old.state) × (ends_of self.new ≡ ends_of self.old) × HandsAll sink core.new.state (ends_of self.new) }
        ensures stored { result ≡ true → stored_by self.new.post.pass ≡ stored_by self.old.post.pass ++ true ∷ [] }
        ensures refused { result ≡ false → (waiting_for core.new.state sink ≡ []) ⊎ (stored_by self.new.post.pass ≡ stored_by self.old.post.pass ++ false ∷ []) }
        ensures boxes { boxes_of self.new ≡ boxes_of self.old }
    {
        let Some(message) = core.sent(sink) else {
            return false;
        };
        match self.inbox.post(rt, &mut self.post, taken_over(message)) {
            Ok(()) => true,
            Err(Full(message)) => {
                core.unsent(sink, taken_back(message));
                false
            }
        }
    }

    /// Posts the messages queued for the sink, in order, until none is left or the inbox is full. Returns how many were
    /// posted.
    pub(crate) fn post_waiting<R: Wait>(&mut self, rt: &R, core: &mut CellCore, sink: SinkId) -> u64
        requires consistent { IsConsistent spec_of core.old.state }
        requires heard { (s : SinkSpec) × (slice_get core.old.state.sinks sink.0 ≡ Some s) × IsHeard core.old.state sink.0 s (ends_of self.old) }
        ensures posts { PostsMany sink result core.old.state core.new.state (ends_of self.old) (ends_of self.new) }
        ensures queued { result ≤ length (waiting_for core.old.state sink) }
        ensures until { HandsAll sink core.new.state (ends_of self.new) }
        ensures calls { HandsOut sink core.new.state (calls_of self.old) (calls_of self.new) }
        ensures boxes { boxes_of self.new ≡ boxes_of self.old }
    {
        let waiting = core.outgoing(sink);
        for posted in 0..waiting {
            if !self.post_one(rt, core, sink) {
                return posted as u64;
            }
        }
        waiting as u64
    }
}
