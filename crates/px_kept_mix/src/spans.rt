// A stream's share of kept sums, span by span: its long silences are left out.
ghost use Rattle.std.specs.Prelude.{◌≡◌, ◌+◌, ◌-◌, ◌*◌, ◌<◌, ◌≤◌, length, All, FitsSigned};
ghost use Rattle.std.specs.Int.{w32};
ghost use Rattle.px_mixcache.specs.Cache.{KeptSums};
ghost use Rattle.px_kept_mix.specs.Keeping.{IsAsLarge, AreSmallFrom, SharesBetween, AreLittle};

use crate::kept::change_over;
use px_kernel::Steps;
use px_mixcache::MixCache;
use px_sample::Spec;
use px_stream::Stream;
use std::sync::ledger::Ledger;

/// Adds (`add`) a stream's share to the sums from frame `from` up to frame `to`, or takes it away. `values` has room for those frames.
pub(crate) fn change_spans<T: Ledger>(
    cache: &mut MixCache,
    values: &mut [i32],
    to: u32,
    sink: &Spec,
    stream: &Stream,
    from: u32,
    add: bool,
    steps: &mut Steps<T>,
)
    requires channels { length cache.old.runs ≡ sink.now.channels }
    requires some { 1 ≤ sink.now.channels }
    requires fed { length stream.now.stream.feed ≡ sink.now.channels }
    requires order { from ≤ to }
    requires inside { to ≤ cache.old.frames }
    requires near { cache.old.frames ≤ 65536 }
    requires size { sink.now.channels * (to - from) ≤ length values.old }
    requires words { All (FitsSigned w32) values.old }
    requires room { AreSmallFrom from 258 cache.old }
    ensures size { length values.new ≡ length values.old }
    ensures words { All (FitsSigned w32) values.new }
    ensures large { IsAsLarge cache.old cache.new }
    ensures sums { SharesBetween add sink.now stream.now.stream from to cache.old cache.new }
    ensures little { AreLittle sink.now stream.now.stream from to }
    ensures ticks { steps.new ≤ steps.old + 2 * (sink.now.channels * (to - from)) }
{
    let mut at = from;
    while at < to {
        at = change_next(cache, values, to, sink, stream, at, add, steps);
    }
}

// The same for the next span: a silence, and what is to be mixed after it. Answers where the span ends.
fn change_next<T: Ledger>(
    cache: &mut MixCache,
    values: &mut [i32],
    to: u32,
    sink: &Spec,
    stream: &Stream,
    from: u32,
    add: bool,
    steps: &mut Steps<T>,
) -> u32
    requires channels { length cache.old.runs ≡ sink.now.channels }
    requires some { 1 ≤ sink.now.channels }
    requires fed { length stream.now.stream.feed ≡ sink.now.channels }
    requires more { from < to }
    requires inside { to ≤ cache.old.frames }
    requires near { cache.old.frames ≤ 65536 }
    requires size { sink.now.channels * (to - from) ≤ length values.old }
    requires words { All (FitsSigned w32) values.old }
    requires room { AreSmallFrom from 258 cache.old }
    ensures more { from < result }
    ensures few { result ≤ to }
    ensures size { length values.new ≡ length values.old }
    ensures words { All (FitsSigned w32) values.new }
    ensures large { IsAsLarge cache.old cache.new }
    ensures sums { SharesBetween add sink.now stream.now.stream from result cache.old cache.new }
    ensures little { AreLittle sink.now stream.now.stream from result }
    ensures ticks { steps.new ≤ steps.old + 2 * (sink.now.channels * (result - from)) }
{
    let silent = stream.silent_frames(from, to - from);
    let start = from + silent;
    if start == to {
        return to;
    }
    let frames = stream.frames_to_silence(start, to - start);
    change_over(
        cache,
        values,
        frames as usize,
        sink,
        stream,
        start,
        add,
        steps,
    );
    start + frames
}
