ghost use Rattle.std.specs.Prelude.{◌≡◌};
ghost use Rattle.crossbeam_queue.specs.Passes.{IsPassOf};
ghost use Rattle.px_mail.specs.Mailbox.{key_of, posted_by};
ghost use Rattle.tests_cells.specs.Gains.{Sends};

use crate::tests::crowded::Crowded;
use crate::tests::lane::{Cell, factors_for, opened, sent};
use px_block::Fresh;
use px_mail::{Mailbox, PostPass};
use px_msg::Msg;
use px_stream::Stream;
use px_types::Mem;
use std::alloc::Global;
use std::sync::Wait;

// Posts five messages, makes a turn after each, and counts the turns that were made.
fn turns_made<R: Wait>(
    rt: &R,
    alloc: Global,
    cell: &mut Cell<Crowded>,
    inbox: &Mailbox<Msg<Stream>>,
    mut post: PostPass<Msg<Stream>>,
) -> Mem<u32>
    requires pass { IsPassOf inbox.now.queue post.pass }
    requires sends { Sends (key_of post.pass) (posted_by post.pass) }
{
    let mut blocks = Fresh::new(alloc);
    let mut turns: u32 = 0;
    for number in 0..5 {
        sent(rt, inbox, &mut post, factors_for(alloc, number)?);
        if cell.turn(rt, alloc, &mut blocks).is_ok() {
            turns = turns.saturating_add(1);
        }
    }
    Ok(turns)
}

// Whether all messages stand in the history in order, each once, and the cell holds none.
fn misses_nothing(cell: Cell<Crowded>) -> bool {
    let parts = cell.into_parts();
    let none_held = parts.messages.len() == 0 && parts.recorder.fulls() == 1;
    let all_noted = parts.recorder.recorded() == Some(5);
    drop(parts);
    none_held && all_noted
}

// Five messages, a turn after each, a recorder that is full once, at `full_at` entries, and a last turn.
fn has_room_again<R: Wait>(rt: &R, alloc: Global, full_at: usize) -> Mem<bool> {
    let (mut cell, inbox, post) = opened(alloc, Crowded::new(alloc, full_at))?;
    let turns = turns_made(rt, alloc, &mut cell, &inbox, post);
    let last = cell.turn(rt, alloc, &mut Fresh::new(alloc)).is_ok();
    Ok(misses_nothing(cell) && last && matches!(turns, Ok(4)))
}

#[test]
fn a_recorder_with_room_again_misses_nothing(rt: HostRuntime) {
    assert!(rt; (0..5).all(|full_at| matches!(has_room_again(&rt, rt.alloc(), full_at), Ok(true))));
}
