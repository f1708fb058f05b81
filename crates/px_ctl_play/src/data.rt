//! Frames that a client writes (PulseAudio: `pstream_memblock_callback` of `pulsecore/protocol-native.c`; that data which isn't
//! whole frames is ignored is own).

ghost use Rattle.std.specs.Prelude.{◌≡◌, ◌≤◌, ◌<◌, pos};
ghost use Rattle.std.specs.Int.{int_div_euclid};
ghost use Rattle.px_sample.specs.Format.{frame_size_of};
ghost use Rattle.px_ctl_play.specs.Data.{are_frames, frames_in, frames_of, write};

use px_block::Blocks;
use px_msg::Msg;
use px_outcome::Input;
use px_sample::Spec;

/// Frames of a stream: the offset of the first, and their count.
#[derive(Clone, Copy, Debug, PartialEq, Eq)]
pub struct Frames {
    pub offset: i64,
    pub count: u32,
}

/// The size of a frame in bytes, at most 1,020. Takes no memory.
#[tactic(auto, using(px_msg::proofs::Sizes::size_few))]
pub(crate) fn frame_size(spec: Spec) -> usize
    ensures value { result ≡ frame_size_of spec }
    ensures few { result ≤ 1020 }
{
    spec.format.size() * spec.channels as usize
}

// Whether `bytes` bytes at byte `offset` are whole frames of `size` bytes and begin at a frame.
fn are_frames(size: usize, offset: i64, bytes: usize) -> bool
    requires { size ≤ 1020 }
    ensures { result ≡ are_frames size offset bytes }
{
    size > 0 && bytes % size == 0 && offset.rem_euclid(size as i64) == 0
}

// The frame at byte `offset`, with frames of `size` bytes.
fn frame_at(size: usize, offset: i64) -> i64
    requires some { 0 < size }
    requires few { size ≤ 1020 }
    ensures { result ≡ int_div_euclid offset (pos size) }
{
    offset.div_euclid(size as i64)
}

// The frames of `size` bytes that `bytes` bytes at byte `offset` are, where they are whole.
fn frames_in(size: usize, offset: i64, bytes: usize) -> Option<Frames>
    requires size { size ≤ 1020 }
    requires bytes { bytes ≤ 16777216 }
    ensures { result ≡ frames_in size offset bytes }
{
    if !are_frames(size, offset, bytes) {
        return None;
    }
    Some(Frames {
        offset: frame_at(size, offset),
        count: (bytes / size) as u32,
    })
}

/// The frames of a stream in `bytes` bytes, at most 16,777,216, at byte `offset`. `None` where they aren't whole frames,
/// which are ignored. Takes no memory.
pub fn frames_of(x: &Input, offset: i64, bytes: usize) -> Option<Frames>
    requires { bytes ≤ 16777216 }
    ensures { result ≡ frames_of x.now offset bytes }
{
    frames_in(frame_size(x.spec), offset, bytes)
}

/// The message that posts these frames to a stream's sink. Their offset is relative to what `seek` says, 0 to 3. Takes no
/// memory.
pub fn write<P>(x: &Input, frames: Frames, seek: u8, bytes: Blocks) -> Msg<P>
    ensures { result ≡ write x.now frames seek bytes }
{
    Msg::Write {
        input: x.index,
        seek,
        offset: frames.offset,
        frames: frames.count,
        bytes,
    }
}
