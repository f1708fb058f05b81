//! The data of record streams.

ghost use Rattle.std.specs.Prelude.{◌≡◌, ◌<◌, ◌++◌, ◌∷◌, List, ℕ, IfOk, OnOk};
ghost use Rattle.std.specs.List.{flat_map, AllByRecursion};
ghost use Rattle.px_monitor.specs.declared.recording.Recording.{Recording as Stream};
ghost use Rattle.px_monitor.specs.Fragments.{fragments, data_of, sent_of};
ghost use Rattle.px_monitor.specs.Records.{IsRecording};

use crate::recording::Recording;
use px_state::{Effect, Effects};
use px_types::{Mem, SinkId};
use std::alloc::Global;

/// Appends the data frames of a record stream for bytes that its sink played: `fragsize` bytes each, the last one shorter, with offset 0
/// and flags 0. Where memory runs out some may be appended.
pub fn push_data(alloc: Global, effects: &mut Effects, r: &Recording, bytes: &[u8]) -> Mem<()>
    requires { IsRecording r.now }
    ensures { OnOk result (effects.new ≡ effects.old ++ data_of bytes.now r.now) }
{
    let size = r.fragsize as usize;
    let mut rest = bytes;
    while !rest.is_empty() {
        let len = size.min(rest.len());
        effects.push(Effect::data(alloc, r.conn, r.stream, 0, 0, &rest[..len])?)?;
        rest = &rest[len..];
    }
    Ok(())
}

// Appends the data frames of a record stream for bytes that a sink played, where it records that sink.
fn push_where(
    alloc: Global,
    effects: &mut Effects,
    sink: SinkId,
    r: &Recording,
    bytes: &[u8],
) -> Mem<()>
    requires { IsRecording r.now }
    ensures { OnOk result ((more : List Stream) → effects.new ++ sent_of sink bytes.now more ≡ effects.old ++ sent_of sink bytes.now (r.now ∷ more)) }
{
    if r.sink.0 == sink.0 {
        push_data(alloc, effects, r, bytes)?;
    }
    Ok(())
}

/// The data frames of all these record streams for bytes that a sink played, in order.
pub(crate) fn sent(alloc: Global, streams: &[Recording], sink: SinkId, bytes: &[u8]) -> Mem<Effects>
    requires { AllByRecursion IsRecording streams.now }
    ensures { IfOk result (λ effects. effects ≡ sent_of sink bytes.now streams.now) }
{
    let mut effects = Effects::new(alloc);
    for one in streams {
        push_where(alloc, &mut effects, sink, one, bytes)?;
    }
    Ok(effects)
}

/// The fragments of bytes, joined, are the bytes. The function does nothing: its contract is the law.
pub fn fragments_join()
    ensures { (size : ℕ) (bytes : List ℕ) → 0 < size → flat_map (λ part. part) (fragments size bytes) ≡ bytes }
{}
