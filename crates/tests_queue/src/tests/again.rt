// Ranges that are written over and over.
ghost use Rattle.std.specs.Prelude.{◌≡◌, ◌≤◌, length};

use crate::tests::blocks::{Counting, packed};
use px_queue::{FrameQueue, Pushed};
use px_types::Mem;
use std::alloc::Global;

// Forty frames of one byte.
const FORTY: &[u8] = &[7; 40];

// Writes frames of one byte at an index, and returns whether they are held.
fn write(
    alloc: Global,
    queue: &mut FrameQueue,
    source: &mut Counting,
    at: i64,
    bytes: &[u8],
) -> Mem<bool>
    requires frame { queue.old.frame ≡ 1 }
    requires few { length bytes.now ≤ 65536 }
    ensures { queue.new.frame ≡ 1 }
{
    queue.reserve(1, 1)?;
    let made = packed(alloc, bytes)?;
    Ok(queue.push(1, at, made, bytes.len() as u32, 0, 200, source) == Pushed::Stored)
}

// Writes forty frames at index 0 and forty at another, a thousand times in all.
fn write_over(alloc: Global, queue: &mut FrameQueue, source: &mut Counting, other: i64) -> Mem<bool>
    requires { queue.old.frame ≡ 1 }
    ensures { queue.new.frame ≡ 1 }
{
    let mut held = true;
    for _ in 0..500 {
        held = held && write(alloc, queue, source, 0, FORTY)?;
        held = held && write(alloc, queue, source, other, FORTY)?;
    }
    Ok(held)
}

// A range that is overwritten holds one block, and two ranges that overlap hold two.
#[test]
fn ranges_that_are_written_over_go_back(rt: HostRuntime) {
    let mut source = Counting::new(rt.alloc());
    let mut queue = FrameQueue::new(rt.alloc(), 1);
    let one = write_over(rt.alloc(), &mut queue, &mut source, 0);
    let first = source.back;
    queue.flush(&mut source);
    let two = write_over(rt.alloc(), &mut queue, &mut source, 20);
    assert!(rt; matches!((one, two), (Ok(true), Ok(true))) && first == 999 && source.back == 1_998);
}

// Two short writes, one over the first of them, and one inside that.
fn write_inside(alloc: Global, queue: &mut FrameQueue, source: &mut Counting) -> Mem<bool>
    requires { queue.old.frame ≡ 1 }
    ensures { queue.new.frame ≡ 1 }
{
    let first = write(alloc, queue, source, 10, b"ab")?;
    let second = write(alloc, queue, source, 0, b"cdef")?;
    let grown = write(alloc, queue, source, 4, FORTY)? && source.back == 2;
    let inside = write(alloc, queue, source, 10, b"gh")? && source.back == 2;
    Ok(first && second && grown && inside)
}

// The second write goes on over the first, whose block goes, and as few bytes in the block of its own; the third lies inside, and what
// is left on both sides of it shares a block. Each of the four goes back once.
#[test]
fn what_is_left_on_both_sides_of_a_write_shares_a_block(rt: HostRuntime) {
    let mut source = Counting::new(rt.alloc());
    let mut queue = FrameQueue::new(rt.alloc(), 1);
    let held = write_inside(rt.alloc(), &mut queue, &mut source);
    queue.flush(&mut source);
    assert!(rt; matches!(held, Ok(true)) && source.back == 4);
}
