// The mailboxes at a sink.

use px_mail::{Mailbox, PostPass, TakePass};
use px_msg::{Msg, Notice};
use px_stream::Stream;
use std::sync::Arc;

/// The mailboxes of a sink: one for messages from the core, and one for notices to it.
#[derive(Drop)]
pub struct Boxes {
    pub inbox: Arc<Mailbox<Msg<Stream>>>,
    pub outbox: Arc<Mailbox<Notice<Stream>>>,
}

/// The rights of a sink's worker: to take what the core posted, and to post what the core takes.
#[derive(Drop)]
pub struct LanePasses {
    pub take: TakePass<Msg<Stream>>,
    pub post: PostPass<Notice<Stream>>,
}

/// Both mailboxes of a sink, with the rights of its worker.
#[derive(Drop)]
pub struct LaneEnds {
    pub boxes: Boxes,
    pub passes: LanePasses,
}
