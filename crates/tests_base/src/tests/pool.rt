use px_block::{BlockSource, Mem};
use px_pool::{Pool, PoolSeat};
use std::alloc::Global;
use std::sync::{Arc, Wait};
use std::thread;
use std::thread::Threads;

// How often each of two threads takes a block and gives it back.
const ROUNDS: u32 = 20_000;

// An empty pool makes a block. Of two that come back to a pool of one it holds the first, which was fitted to its bytes.
fn pools_one<R: Wait>(seat: &mut PoolSeat<R>) -> Mem<bool> {
    let mut first = seat.take()?;
    let second = seat.take()?;
    let filled = seat.spare() == 0 && first.put(&[7; 40_000]) == 40_000;
    first.fit();
    seat.give(first);
    seat.give(second);
    Ok(filled && seat.spare() == 1)
}

// The pool's block, taken again, shows nothing and has its room, and the next block is a new one.
fn takes_it_again<R: Wait>(seat: &mut PoolSeat<R>) -> Mem<bool> {
    let mut found = seat.take()?;
    let made = seat.take()?;
    let empty = seat.spare() == 0 && found.bytes().is_empty() && made.bytes().is_empty();
    let whole = found.put(&[8; 65_536]) == 65_536;
    Ok(empty && whole && found.bytes().iter().all(|byte| *byte == 8))
}

// A block of four bytes that came back shows only the two that were put in since.
fn shows_the_new_bytes_alone<R: Wait>(seat: &mut PoolSeat<R>) -> Mem<bool> {
    let mut first = seat.take()?;
    let filled = first.put(&[1, 2, 3, 4]) == 4;
    seat.give(first);
    let mut again = seat.take()?;
    let put = seat.spare() == 0 && again.put(&[5, 6]) == 2;
    let shown = again.bytes() == [5u8, 6].as_slice();
    seat.give(again);
    Ok(filled && put && shown)
}

#[test]
fn a_full_pool_drops_and_an_empty_one_makes(rt: HostRuntime) -> Mem<()> {
    let pool = Pool::new(rt.alloc(), 1)?;
    let mut seat = Pool::seat(&rt, &pool)?;
    let held = shows_the_new_bytes_alone(&mut seat)?
        && pools_one(&mut seat)?
        && takes_it_again(&mut seat)?;
    assert!(rt; held);
    Ok(())
}

// Takes a block, which shows nothing, marks it, lets the other thread run, and finds its own mark alone.
fn has_to_itself<R: Wait>(seat: &mut PoolSeat<R>, mark: u8) -> bool {
    let Ok(mut block) = seat.take() else {
        return false;
    };
    let empty = block.bytes().is_empty() && block.put(&[mark; 100]) == 100;
    thread::yield_now();
    let alone = block.bytes().len() == 100 && block.bytes().iter().all(|byte| *byte == mark);
    seat.give(block);
    empty && alone
}

// The same in each round.
fn works<R: Wait + Copy>(mut seat: PoolSeat<R>, mark: u8) -> bool {
    let mut held = true;
    for _ in 0..ROUNDS {
        held = has_to_itself(&mut seat, mark) && held;
    }
    held
}

// Two threads at one pool, each with a seat of its own. Afterwards at most two blocks are spare.
fn share<R: Threads + Wait + Copy + Send + Sync>(rt: &R, alloc: Global) -> Mem<bool> {
    let pool = Pool::new(alloc, 16)?;
    let one = Pool::seat(rt, &pool)?;
    let two = Pool::seat(rt, &pool)?;
    let (first, second) = thread::join(rt, move || works(one, 1), move || works(two, 2));
    let mut last = Pool::seat(rt, &pool)?;
    let spare = last.spare();
    Ok(first && second && spare > 0 && spare <= 2)
}

#[test]
fn two_threads_never_have_one_block(rt: HostRuntime) {
    assert!(rt; matches!(share(&rt, rt.alloc()), Ok(true)));
}
