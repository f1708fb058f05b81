// What goes through the mailboxes at a sink.
ghost use Rattle.std.specs.Prelude.{◌≡◌, ◌≤◌, length};
ghost use Rattle.crossbeam_queue.specs.Passes.{IsPassOf};
ghost use Rattle.px_mail.specs.Mailbox.{key_of, taken_by, posted_by, found_by, stored_by};
ghost use Rattle.px_lane_cell.specs.Moved.{AreTaken, Takes, AreAll, Posts, AreGone};

use px_lane::{MsgList, NoticeList};
use px_mail::{Full, Mailbox, PostPass, TakePass};
use px_msg::{Msg, Notice};
use px_stream::Stream;
use px_types::limits::MAILBOX_PLACES;
use std::sync::Wait;

/// Takes messages until there are 256, with those held from before, or the inbox is found empty.
pub(crate) fn take_messages<W: Wait>(
    rt: &W,
    inbox: &Mailbox<Msg<Stream>>,
    pass: &mut TakePass<Msg<Stream>>,
    messages: &mut MsgList,
)
    requires pass { IsPassOf inbox.now.queue pass.old.pass }
    requires lawful { AreTaken (key_of pass.old.pass) (taken_by pass.old.pass) }
    requires few { length messages.old.messages ≤ 256 }
    requires room { 256 ≤ messages.old.capacity }
    ensures pass { IsPassOf inbox.now.queue pass.new.pass }
    ensures key { key_of pass.new.pass ≡ key_of pass.old.pass }
    ensures lawful { AreTaken (key_of pass.new.pass) (taken_by pass.new.pass) }
    ensures takes { Takes (taken_by pass.old.pass) (taken_by pass.new.pass) messages.old.messages messages.new.messages }
    ensures few { length messages.new.messages ≤ 256 }
    ensures room { messages.new.capacity ≡ messages.old.capacity }
    ensures all { AreAll (found_by pass.old.pass) (found_by pass.new.pass) (key_of pass.new.pass) (taken_by pass.new.pass) messages.new.messages }
{
    while messages.len() < MAILBOX_PLACES {
        match inbox.take(rt, pass) {
            Some(message) => messages.push(message),
            None => return,
        }
    }
}

/// Posts notices until none is left or the outbox is full. The rest stay in order.
pub(crate) fn post_notices<W: Wait>(
    rt: &W,
    outbox: &Mailbox<Notice<Stream>>,
    pass: &mut PostPass<Notice<Stream>>,
    notices: &mut NoticeList,
)
    requires pass { IsPassOf outbox.now.queue pass.old.pass }
    ensures pass { IsPassOf outbox.now.queue pass.new.pass }
    ensures key { key_of pass.new.pass ≡ key_of pass.old.pass }
    ensures posts { Posts (posted_by pass.old.pass) (posted_by pass.new.pass) notices.old.notices notices.new.notices }
    ensures gone { AreGone (stored_by pass.old.pass) (stored_by pass.new.pass) (posted_by pass.new.pass) notices.new.notices }
{
    while let Some(notice) = notices.pop_front() {
        if let Err(Full(notice)) = outbox.post(rt, pass, notice) {
            notices.push_front(notice);
            return;
        }
    }
}
