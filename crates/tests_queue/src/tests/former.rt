// A list of writes, which is searched from the newest back.
use px_types::Mem;
use std::alloc::Global;

/// The greatest index.
pub const LAST: i64 = 1 << 60;

// A write of frames of one byte: the index of the first, the number of frames, and the first byte, from which the others count up.
#[derive(Clone, Copy, Drop)]
pub struct Write {
    at: i64,
    count: i64,
    byte: u8,
}

// Writes, oldest first, both indices, and the index past the last frame that was written.
#[derive(Drop)]
pub struct Former {
    writes: Vec<Write>,
    pub read: i64,
    pub write: i64,
    end: i64,
}

// How a write ends, with the end index of an overflow.
#[derive(Clone, Copy, PartialEq, Eq)]
pub enum Ended {
    Stored,
    Over(i64),
    Outside,
}

impl Former {
    pub fn new(alloc: Global) -> Former {
        Former {
            writes: Vec::new(alloc),
            read: 0,
            write: 0,
            end: 0,
        }
    }

    fn held(&self) -> i64 {
        self.end.wrapping_sub(self.read).max(0)
    }

    pub fn edge(&self) -> i64 {
        if self.held() == 0 {
            self.write
        } else {
            self.write.max(self.end)
        }
    }

    // The frame at an index.
    pub fn frame(&self, index: i64) -> Option<u8> {
        let mut found = None;
        for write in self.writes.iter() {
            let place = index.wrapping_sub(write.at);
            if index >= write.at && place < write.count {
                found = Some(write.byte.wrapping_add((place & 255) as u8));
            }
        }
        found
    }

    pub fn push(&mut self, seek: u8, offset: i64, count: i64, byte: u8, limit: i64) -> Mem<Ended> {
        let from = match seek {
            0 => self.write,
            1 => 0,
            2 => self.read,
            _ => self.read.wrapping_add(self.held()),
        };
        let at = from.wrapping_add(offset);
        let end = at.wrapping_add(count);
        if at < -LAST || end > LAST {
            return Ok(Ended::Outside);
        }
        let passes = self.held() == 0 || self.end < end;
        self.write = end;
        if passes && end.wrapping_sub(self.read) > limit {
            return Ok(Ended::Over(end));
        }
        if count > 0 {
            self.end = self.end.max(end);
        }
        self.writes.push(Write { at, count, byte })?;
        Ok(Ended::Stored)
    }

    pub fn settle(&mut self, frames: i64) {
        let read = self.read.wrapping_add(frames);
        self.read = read;
        self.writes
            .retain(|write: &Write| write.at.wrapping_add(write.count) > read);
    }
}
