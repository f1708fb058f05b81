// One frame, and lists of them.

ghost use Rattle.std.specs.Prelude.{◌≡◌, [], ◌∷◌, ◌++◌, OnOk, OnErr};

use crate::packet::Packet;
use px_block::{Blocks, Mem};
use std::alloc::Global;
use std::marker::Model;

/// A frame that was read.
#[derive(Debug, Drop)]
pub struct Frame {
    /// The offset of its payload in the bytes of the connection. It stays at `u64::MAX` once it reaches that.
    pub at: u64,
    /// What it carries.
    pub body: Body,
}

/// A frame's payload, 1 to 16,777,216 bytes, and its meaning by the descriptor.
#[derive(Debug, Drop)]
pub enum Body {
    /// A control packet.
    Control(Packet),
    /// Sound for a stream.
    Write {
        /// The stream's number at this connection, not 0xFFFFFFFF.
        stream: u32,
        /// Where to write, in bytes, from the origin that `seek` gives.
        offset: i64,
        /// The seek mode (`pa_seek_mode_t`): 0 relative to the write index, 1 absolute, 2 relative to the
        /// read index, 3 relative to the end.
        seek: u8,
        /// The bytes to write.
        bytes: Blocks,
    },
}

/// Frames in the order in which they came.
#[derive(Debug, Drop)]
pub struct Frames {
    frames: Vec<Frame>,
}

impl Model for Frames {
    ghost use Rattle.std.specs.Prelude.{List};
    ghost use Rattle.px_frame.specs.declared.frame.Frame.{Frame};

    ghost Value = { List Frame };

    ghost view = { λ f. f.frames.items };
}

impl Frames {
    /// No frames. Takes no memory.
    pub fn new(alloc: Global) -> Frames
        ensures { result ≡ [] }
    {
        Frames {
            frames: Vec::new(alloc),
        }
    }

    /// Appends a frame. After an `Err` that frame alone is dropped.
    pub fn push(&mut self, frame: Frame) -> Mem<()>
        ensures ok { OnOk result (self.new ≡ self.old ++ frame ∷ []) }
        ensures err { OnErr result (self.new ≡ self.old) }
    {
        self.frames.push(frame)?;
        Ok(())
    }

    /// Appends the frames of another list. After an `Err` those alone are dropped.
    pub fn append(&mut self, mut more: Frames) -> Mem<()>
        ensures ok { OnOk result (self.new ≡ self.old ++ more) }
        ensures err { OnErr result (self.new ≡ self.old) }
    {
        self.frames.append(&mut more.frames)?;
        Ok(())
    }

    /// The frames, in order. Takes no memory.
    pub fn as_slice(&self) -> &[Frame]
        ensures { result.now ≡ self.now }
    {
        self.frames.as_slice()
    }

    /// The frames themselves, in order. Takes no memory.
    pub fn into_vec(self) -> Vec<Frame>
        ensures { result.items ≡ self }
    {
        self.frames
    }
}
