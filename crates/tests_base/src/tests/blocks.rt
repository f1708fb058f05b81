ghost use Rattle.std.specs.Prelude.{◌≡◌, ◌≤◌, [], None, length};

use px_block::{Block, BlockSource, Blocks, Fresh, Mem, NoMemory, Shelf};
use std::alloc::Global;

// A source whose first block fails, as when memory is short for a while.
#[derive(Drop)]
struct Short {
    calls: u32,
    inner: Fresh,
}

impl BlockSource for Short {
    ghost given = { λ _. None };

    fn take(&mut self) -> Mem<Block> {
        self.calls = self.calls.saturating_add(1);
        if self.calls == 1 {
            Err(NoMemory)
        } else {
            self.inner.take()
        }
    }

    fn give(&mut self, block: Block) {
        self.inner.give(block);
    }
}

// Bytes that found no block are appended by the next call, go on in another block, and into a block that was fitted to its bytes.
fn go_on(blocks: &mut Blocks, source: &mut Short) -> Mem<bool> {
    let piece = [9; 40_000];
    let short = matches!(blocks.put(source, &piece), Err(NoMemory)) && blocks.count() == 0;
    let first = blocks.put(source, &piece)? == 40_000 && blocks.put(source, &piece)? == 25_536;
    let second = blocks.put(source, &piece)? == 40_000 && blocks.count() == 2;
    blocks.fit();
    Ok(short && first && second && blocks.put(source, &piece)? == 25_536)
}

// Two full blocks.
fn are_full(blocks: &[Block]) -> bool {
    let full = |block: &Block| block.bytes().len() == 65_536
        && block.bytes().iter().all(|byte| *byte == 9);
    matches!(blocks, [one, two] if full(one) && full(two))
}

#[test]
fn bytes_go_on_in_the_next_block(rt: HostRuntime) {
    let mut blocks = Blocks::new(rt.alloc());
    let mut source = Short {
        calls: 0,
        inner: Fresh::new(rt.alloc()),
    };
    let went = matches!(go_on(&mut blocks, &mut source), Ok(true));
    assert!(rt; went && are_full(&blocks.into_vec()));
}

// A block that comes back from the shelf with its last reference shows no old bytes once it is cleared.
fn is_used_again(block: &mut Block) -> bool {
    let old = block.bytes() == b"abcd".as_slice();
    block.clear();
    old && block.bytes().is_empty() && block.put(b"new") == 3 && block.bytes() == b"new".as_slice()
}

// A block with two references stays on the shelf until the second is released, and is handed out then.
fn is_shared(shelf: &mut Shelf, block: Block) -> bool
    requires { length block.bytes ≡ 4 }
{
    let Ok(key) = shelf.put(block) else {
        return false;
    };
    shelf.retain(key);
    let held = shelf.release(key).is_none() && shelf.bytes(key, 1, 2) == b"bc".as_slice();
    match shelf.release(key) {
        Some(mut block) => held && is_used_again(&mut block),
        None => false,
    }
}

fn put_all(block: &mut Block)
    requires none { block.old.bytes ≡ [] }
    requires room { 4 ≤ block.old.room }
    ensures { length block.new.bytes ≡ 4 }
{
    block.put(b"abcd");
}

#[test]
fn a_shared_block_goes_with_its_last_reference(rt: HostRuntime) -> Mem<()> {
    let mut shelf = Shelf::new(rt.alloc());
    shelf.reserve(1)?;
    let mut block = Block::new(rt.alloc())?;
    put_all(&mut block);
    assert!(rt; is_shared(&mut shelf, block));
    Ok(())
}
