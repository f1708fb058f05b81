// A queue as plain numbers and bytes.
ghost use Rattle.std.specs.Prelude.{◌≡◌, ◌++◌, ◌<◌, length, IfOk, OnOk};
ghost use Rattle.px_model.specs.Held.{place};
ghost use Rattle.px_model.specs.Index.{onward};
ghost use Rattle.px_queue.specs.Plain.{frame_at, frames_up_to, plain_of};

use crate::FrameQueue;
use px_annals::{PlainFrame, PlainFrames, PlainQueue};
use px_types::{Mem, Text};
use std::alloc::Global;

impl FrameQueue {
    /// The frames that it holds, in rising order and each with its index, both indices, and the prebuffering.
    pub fn plain(&self, alloc: Global) -> Mem<PlainQueue>
        ensures { IfOk result (λ plain. plain ≡ plain_of self.now.queue) }
    {
        Ok(PlainQueue {
            frames: PlainFrames::from_vec(self.plain_frames(alloc)?),
            read: self.read.number(),
            write: self.write.number(),
            hold: self.hold,
            prebuf: self.prebuf,
        })
    }

    // Its frames, each with its index.
    fn plain_frames(&self, alloc: Global) -> Mem<Vec<PlainFrame>>
        ensures { IfOk result (λ frames. frames.items ≡ frames_up_to self.now.queue (length self.now.queue.held)) }
    {
        let mut frames = Vec::new(alloc);
        for k in 0..self.held {
            self.add_frame(alloc, k, &mut frames)?;
        }
        Ok(frames)
    }

    // Appends the frame at place `k`, where one is held.
    fn add_frame(&self, alloc: Global, k: u64, frames: &mut Vec<PlainFrame>) -> Mem<()>
        requires { k < length self.now.queue.held }
        ensures { OnOk result (frames.new.items ≡ frames.old.items ++ frame_at (onward self.now.queue.read k) (place self.now.queue.held k)) }
    {
        let mut bytes = vec![in alloc; 0; self.frame as usize]?;
        if self.copy_frame(k, bytes.as_mut_slice()) {
            frames.push(PlainFrame {
                index: self.read.onward(k).number(),
                bytes: Text::from_vec(bytes),
            })?;
        }
        Ok(())
    }
}
