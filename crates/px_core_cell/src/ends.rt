//! The core's ends of the mailboxes at one sink.

ghost use Rattle.std.specs.Prelude.{◌≡◌, None};
ghost use Rattle.std.specs.Arc.{arc_value};
ghost use Rattle.crossbeam_queue.specs.Passes.{IsPassOf};

use crate::parcel::Carried;
use px_mail::{Mailbox, PostPass, TakePass};
use px_msg::{Msg, Notice};
use px_stream::Stream;
use std::sync::Arc;

/// The core's ends of one sink's mailboxes, with the notice that was taken and not yet passed to the core, if any.
#[derive(Drop)]
pub struct CoreEnd {
    pub inbox: Arc<Mailbox<Msg<Stream>>>,
    pub outbox: Arc<Mailbox<Notice<Stream>>>,
    pub post: PostPass<Msg<Stream>>,
    pub take: TakePass<Notice<Stream>>,
    pub held: Option<Notice<Carried>>,
    pub ghost posts: { IsPassOf (arc_value inbox).queue post.pass },
    pub ghost takes: { IsPassOf (arc_value outbox).queue take.pass },
}

/// The ends at all sinks, in the order of the sinks.
pub type CoreEnds = Vec<CoreEnd>;

impl CoreEnd {
    /// The ends of a sink's mailboxes by these passes, with no notice held. Takes no memory.
    pub fn new(
        inbox: Arc<Mailbox<Msg<Stream>>>,
        outbox: Arc<Mailbox<Notice<Stream>>>,
        post: PostPass<Msg<Stream>>,
        take: TakePass<Notice<Stream>>,
    ) -> CoreEnd
        requires posts { IsPassOf (arc_value inbox).queue post.pass }
        requires takes { IsPassOf (arc_value outbox).queue take.pass }
        ensures inbox { result.inbox ≡ inbox }
        ensures outbox { result.outbox ≡ outbox }
        ensures post { result.post ≡ post }
        ensures take { result.take ≡ take }
        ensures held { result.held ≡ None }
    {
        CoreEnd {
            inbox,
            outbox,
            post,
            take,
            held: None,
        }
    }
}
