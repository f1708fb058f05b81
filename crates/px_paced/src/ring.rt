// The bytes that wait in a ring.
ghost use Rattle.std.specs.Prelude.{◌≡◌, ◌≤◌, ◌+◌, ◌++◌, take, drop, length, OnOk, OnErr};
ghost use Rattle.circular_buffer.specs.Buffer.{buffer};
ghost use Rattle.px_types.specs.Faults.{Rose};
ghost use Rattle.px_ends.specs.Visible.{after_adding};
ghost use Rattle.px_ends.specs.Whole.{AddsFront};

use circular_buffer::HeapCircularBuffer;
use px_ends::{Sink, WriteFailed, write_all};

/// Writes the first `count` bytes of a ring, which stay in it. Takes no memory.
pub fn write_front<K: Sink>(
    ring: &HeapCircularBuffer<u8>,
    count: usize,
    out: &mut K,
) -> Result<(), WriteFailed>
    requires { count ≤ length ring.now.items }
    ensures ok { OnOk result (K.held out.new ≡ after_adding (K.held out.old) (take count ring.now.items)) }
    ensures ok_count { OnOk result (K.faults out.new ≡ K.faults out.old) }
    ensures err { OnErr result (AddsFront (take count ring.now.items) (K.held out.old) (K.held out.new)) }
    ensures err_count { OnErr result (Rose (K.faults out.old) (K.faults out.new)) }
{
    let (front, back) = ring.as_slices();
    let first = count.min(front.len());
    match write_all(out, &front[..first]) {
        Ok(()) => write_all(out, &back[..count - first]),
        Err(failed) => Err(failed),
    }
}

/// Removes the first `count` bytes. Takes no memory.
pub fn remove_front(ring: &mut HeapCircularBuffer<u8>, count: usize)
    requires { count ≤ length ring.old.items }
    ensures { ring.new ≡ buffer (drop count ring.old.items) ring.old.capacity }
{
    ring.truncate_front(ring.len() - count);
}

/// Replaces all bytes from place `from` on by `bytes`, for which there is room. Takes no memory.
pub fn put_behind(ring: &mut HeapCircularBuffer<u8>, from: usize, bytes: &[u8])
    requires inside { from ≤ length ring.old.items }
    requires fits { from + length bytes.now ≤ ring.old.capacity }
    ensures { ring.new ≡ buffer (take from ring.old.items ++ bytes.now) ring.old.capacity }
{
    ring.truncate_back(from);
    ring.fill_from_slice(bytes);
}
