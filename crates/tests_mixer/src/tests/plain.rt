use px_annals::{PlainFrame, PlainQueue, PlainRun, PlainStream};
use px_block::{Blocks, Fresh};
use px_chmap::Feed;
use px_model::Attr;
use px_msg::{NewStream, Parcel, views_agree};
use px_sample::{Format, Spec};
use px_stream::{Applied, Stream, StreamMsg};
use px_types::{InputId, Mem};
use px_vol::Factors;
use std::alloc::Global;

// A stream of 16 bits, mono, at full volume.
fn opened(alloc: Global) -> Option<Stream> {
    let new = NewStream {
        input: InputId(0),
        spec: Spec {
            format: Format::S16Le,
            channels: 1,
            rate: 48_000,
        },
        feed: Feed::new(&[0])?,
        factors: Factors::new(&[65_536])?,
        attr: Attr {
            maxlength: 100,
            tlength: 50,
            prebuf: 0,
            minreq: 1,
        },
        corked: false,
    };
    Stream::new(alloc, &new).ok()
}

// Writes two frames, `offset` frames past the write index.
fn writes(alloc: Global, stream: &mut Stream, source: &mut Fresh, offset: i64) -> Mem<bool> {
    views_agree();
    let mut bytes = Blocks::new(alloc);
    if bytes.put(source, b"aabb") != Ok(4) || bytes.len() != 4 || stream.spec().frame_size() != 2 {
        return Ok(false);
    }
    stream.reserve(1, 1)?;
    let write = StreamMsg::Write {
        seek: 0,
        offset,
        frames: 2,
        bytes,
    };
    Ok(stream.apply(write, 0, source) == Applied::Quiet)
}

// Frames 0, 1, 4 and 5, the first of which is played, and a drain.
fn goes_on(alloc: Global, stream: &mut Stream) -> Mem<bool> {
    let mut source = Fresh::new(alloc);
    let written = writes(alloc, stream, &mut source, 0)? && writes(alloc, stream, &mut source, 2)?;
    let started = stream.settle(1, &mut source).started;
    stream.reserve(1, 0)?;
    let drain = StreamMsg::Drain { tag: 7 };
    Ok(written && started && stream.apply(drain, 0, &mut source) == Applied::Quiet)
}

fn is_frame(frame: &PlainFrame, index: i64, bytes: &[u8]) -> bool {
    frame.index == index && frame.bytes.as_slice() == bytes
}

// A hole of two frames.
fn has_a_hole(queue: &PlainQueue) -> bool {
    matches!(queue.frames.as_slice(), [near, far, last]
        if is_frame(near, 1, b"bb") && is_frame(far, 4, b"aa") && is_frame(last, 5, b"bb"))
        && queue.read == 1
        && queue.write == 6
        && !queue.hold
        && queue.prebuf == 0
}

// Of the 50 frames of tlength, 46 are requested.
fn plays_and_drains(stream: &PlainStream) -> bool {
    !stream.corked
        && [stream.maxlength, stream.tlength, stream.minreq] == [100, 50, 1]
        && stream.requested == 46
        && stream.draining.as_slice() == [7].as_slice()
        && stream.run == PlainRun::Playing(1)
}

fn is_mono(stream: &PlainStream) -> bool {
    stream.format == 3
        && stream.channels == 1
        && stream.rate == 48_000
        && stream.feed.as_slice() == [0].as_slice()
        && stream.factors.as_slice() == [65_536].as_slice()
}

fn has_its_plain_stream(alloc: Global, stream: &mut Stream) -> Mem<bool> {
    let on = goes_on(alloc, stream)?;
    let plain = stream.plain(alloc)?;
    Ok(on && has_a_hole(&plain.queue) && plays_and_drains(&plain) && is_mono(&plain))
}

#[test]
fn a_stream_with_a_hole_a_drain_and_a_run_has_its_plain_stream(rt: HostRuntime) {
    let plain = match opened(rt.alloc()) {
        Some(mut stream) => matches!(has_its_plain_stream(rt.alloc(), &mut stream), Ok(true)),
        None => false,
    };
    assert!(rt; plain);
}
