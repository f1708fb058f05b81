// A stream as plain numbers and bytes.
ghost use Rattle.std.specs.Prelude.{◌≡◌, IfOk};
ghost use Rattle.px_stream.specs.Plain.{plain_run, plain_of};

use crate::state::StreamState;
use px_annals::{Numbers, PlainRun, PlainStream};
use px_model::Run;
use px_types::Mem;
use std::alloc::Global;
use std::collections::VecDeque;

// How long it has been playing or silent.
fn plain_run(run: Run) -> PlainRun
    ensures { result ≡ plain_run run }
{
    match run {
        Run::Quiet(frames) => PlainRun::Quiet(frames),
        Run::Playing(frames) => PlainRun::Playing(frames),
    }
}

// Copies numbers to a list.
fn copied(alloc: Global, numbers: &[u32]) -> Mem<Numbers>
    ensures { IfOk result (λ copy. copy ≡ numbers.now) }
{
    let mut copy = Vec::new(alloc);
    copy.extend_from_slice(numbers)?;
    Ok(Numbers::from_vec(copy))
}

// Copies the numbers of a queue to a list.
fn copied_queue(alloc: Global, numbers: &VecDeque<u32>) -> Mem<Numbers>
    ensures { IfOk result (λ copy. copy ≡ numbers.now.items) }
{
    let (front, back) = numbers.as_slices();
    let mut copy = Vec::new(alloc);
    copy.extend_from_slice(front)?;
    copy.extend_from_slice(back)?;
    Ok(Numbers::from_vec(copy))
}

// Copies channels as numbers.
fn widened(alloc: Global, channels: &[u8]) -> Mem<Numbers>
    ensures { IfOk result (λ numbers. numbers ≡ channels.now) }
{
    let mut numbers = Vec::new(alloc);
    for channel in channels {
        numbers.push(u32::from(*channel))?;
    }
    Ok(Numbers::from_vec(numbers))
}

impl StreamState {
    /// As `Stream::plain`.
    pub(crate) fn plain(&self, alloc: Global) -> Mem<PlainStream>
        ensures { IfOk result (λ plain. plain ≡ plain_of self.now.stream) }
    {
        Ok(PlainStream {
            queue: self.queue.plain(alloc)?,
            corked: self.corked,
            maxlength: self.maxlength,
            tlength: self.tlength,
            minreq: self.minreq,
            requested: self.requested,
            draining: copied_queue(alloc, &self.draining)?,
            run: plain_run(self.run),
            format: self.spec.format.code(),
            channels: self.spec.channels,
            rate: self.spec.rate,
            feed: widened(alloc, self.feed.channels())?,
            factors: copied(alloc, self.factors.values())?,
        })
    }
}
