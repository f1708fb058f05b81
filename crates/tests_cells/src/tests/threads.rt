ghost use Rattle.std.specs.Prelude.{◌≡◌};
ghost use Rattle.crossbeam_queue.specs.Passes.{IsPassOf};
ghost use Rattle.px_mail.specs.Mailbox.{key_of, posted_by};
ghost use Rattle.tests_cells.specs.Gains.{Sends};

use crate::tests::lane::{Cell, factors_for, opened, sent};
use crate::tests::numbered::number_after;
use px_annals::{LaneEntry, MemRecorder};
use px_block::Fresh;
use px_mail::{Mailbox, PostPass};
use px_msg::Msg;
use px_stream::Stream;
use px_types::Mem;
use std::alloc::Global;
use std::sync::Wait;
use std::thread;
use std::thread::Threads;

// The messages to post, and the most turns to make.
const MESSAGES: u32 = 1_000;

const TURNS: u32 = 1_000_000;

// The most that the history of the turns holds.
const ENTRIES: usize = 1_000_000;

const BYTES: usize = 268_435_456;

type Recorded = Cell<MemRecorder<LaneEntry>>;

// Posts all messages in the order of their numbers.
fn sends<R: Wait>(
    rt: &R,
    alloc: Global,
    inbox: &Mailbox<Msg<Stream>>,
    mut post: PostPass<Msg<Stream>>,
) -> PostPass<Msg<Stream>>
    requires pass { IsPassOf inbox.now.queue post.pass }
    requires sends { Sends (key_of post.pass) (posted_by post.pass) }
    ensures { IsPassOf inbox.now.queue result.pass }
{
    for number in 0..MESSAGES {
        if let Ok(message) = factors_for(alloc, number) {
            sent(rt, inbox, &mut post, message);
        }
    }
    post
}

// Makes turns until `MESSAGES` messages were taken.
fn turns<R: Wait>(rt: &R, alloc: Global, mut cell: Recorded) -> (Recorded, u32) {
    let mut blocks = Fresh::new(alloc);
    let mut taken = 0;
    for _ in 0..TURNS {
        if taken >= MESSAGES || cell.turn(rt, alloc, &mut blocks).is_err() {
            break;
        }
        taken = taken.saturating_add(cell.taken());
        thread::yield_now();
    }
    (cell, taken)
}

// The cell after the turns of one thread, while another posts, and the number of messages that it took.
fn exchanged<R: Threads + Wait + Sync>(
    rt: &R,
    alloc: Global,
    cell: Recorded,
    inbox: &Mailbox<Msg<Stream>>,
    post: PostPass<Msg<Stream>>,
) -> (Recorded, u32)
    requires pass { IsPassOf inbox.now.queue post.pass }
    requires sends { Sends (key_of post.pass) (posted_by post.pass) }
{
    let (_post, made) = thread::join(
        rt,
        move || -> PostPass<Msg<Stream>>
            requires { IsPassOf inbox.now.queue post.pass × Sends (key_of post.pass) (posted_by post.pass) }
            ensures { IsPassOf inbox.entry.now.queue result.pass }
        { sends(rt, alloc, inbox, post) },
        move || -> (Recorded, u32) { turns(rt, alloc, cell) },
    );
    made
}

// The number of messages in a history, where they are numbered from 0 in order.
fn recorded(history: &MemRecorder<LaneEntry>) -> Option<u32> {
    let mut number = 0;
    for at in 0..history.len() {
        number = number_after(history.entry(at)?, number)?;
    }
    Some(number)
}

// The number of messages in the history of a cell that ends, where they are in order.
fn left(cell: Recorded) -> Option<u32> {
    recorded(&cell.into_parts().recorder)
}

fn exchanges<R: Threads + Wait + Sync>(rt: &R, alloc: Global) -> Mem<bool> {
    let (cell, inbox, post) = opened(alloc, MemRecorder::new(alloc, ENTRIES, BYTES)?)?;
    let (cell, taken) = exchanged(rt, alloc, cell, &inbox, post);
    Ok(left(cell) == Some(MESSAGES) && taken == MESSAGES)
}

#[test]
fn a_thousand_messages_stand_in_the_history_in_order(rt: HostRuntime) {
    assert!(rt; matches!(exchanges(&rt, rt.alloc()), Ok(true)));
}
