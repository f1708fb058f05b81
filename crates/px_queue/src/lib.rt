//! The frames of a stream that wait to be played (PulseAudio: `pa_memblockq` of pulsecore/memblockq.c): a read and a write index, the frames held
//! from the read index on, and prebuffering. Its bytes lie in chunks (`pa_memchunk`), which rise and don't overlap, on a shelf of blocks that counts
//! the chunks of each. A block goes back to its source with its last chunk. It exports `FrameQueue` with its answers `Pushed` and `Span`.
#![tactic(auto)]

mod chunk;
mod chunks;
mod find;
mod gap_buffer;
mod index;
mod lay;
mod line;
mod over;
mod past;
mod peek;
mod plain;
mod push;
mod queue;
mod quiet;

pub use peek::Span;
pub use push::Pushed;
pub use queue::FrameQueue;
