// The ramps of a sink, and the bytes of its buffer as they are mixed by them.
ghost use Rattle.std.specs.Prelude.{◌≡◌, ◌≤◌, ◌+◌, ◌-◌, ◌*◌, ◌^◌, ◌++◌, [], length, map, take, drop, vec_capacity, IfOk, OnOk};
ghost use Rattle.std.specs.List.{concat, range_with_len};
ghost use Rattle.px_sample.specs.Format.{frame_size_of};
ghost use Rattle.px_msg.specs.View.{sample_spec};
ghost use Rattle.px_model.specs.Mix.{mix_of};
ghost use Rattle.px_model.specs.Sink.{streams_of};
ghost use Rattle.px_stream.specs.Samples.{samples};
ghost use Rattle.px_lane.specs.Inputs.{inputs_of};
ghost use Rattle.px_lane.specs.Mixing.{IsMixed};
ghost use Rattle.px_lane.specs.Taking.{AreFed};
ghost use Rattle.px_ramp.specs.Ramp.{ramps_with_all};
ghost use Rattle.px_ramp.specs.RampMix.{ramp_frame};
ghost use Rattle.px_ramp.specs.Table.{AreWide};

use crate::mixing::mix_into;
use crate::table::RampTable;
use px_header::SinkSpec;
use px_kernel::Steps;
use px_lane::{Input, Prepared};
use px_mixcache::MixCache;
use px_sample::Spec;
use px_types::{Mem, NoMemory};
use std::alloc::Global;
use std::marker::Model;
use std::sync::ledger::Ledger;

/// The ramps of a sink's inputs, and the bytes of its buffer from the first frame that isn't consumed on, with room for its depth.
#[derive(Debug, Drop)]
pub(crate) struct RampBuffer {
    spec: Spec,
    // how many frames a ramp takes
    ramp: u32,
    depth: u32,
    table: RampTable,
    bytes: Vec<u8>,
    // scratch: sums for the depth, and a number for each
    cache: MixCache,
    values: Vec<i32>,
}

impl Model for RampBuffer {
    ghost use Rattle.std.specs.Prelude.{◌≡◌, ◌≤◌, ◌*◌, length, All, FitsSigned, vec_capacity};
    ghost use Rattle.std.specs.Int.{w32};
    ghost use Rattle.px_sample.specs.Format.{frame_size_of};
    ghost use Rattle.px_lane.specs.Mixing.{IsMixed};
    ghost use Rattle.px_ramp.specs.Table.{HeldFrames, AreWide};

    ghost Value = { HeldFrames };

    ghost view = { λ b. record { spec = b.spec; ramp = b.ramp; depth = b.depth; ramps = b.table.ramps; room = b.table.room; bytes = b.bytes.items } };

    ghost invariant = { λ b. IsMixed b.spec × (1 ≤ b.ramp) × (b.depth ≤ 65536) × AreWide b.spec.channels b.table.ramps
        × (b.depth * frame_size_of b.spec ≤ vec_capacity b.bytes)
        × (b.cache.frames ≡ 0) × (b.cache.depth ≡ b.depth) × (length b.cache.runs ≡ b.spec.channels)
        × (length b.values.items ≡ b.spec.channels * b.depth) × All (FitsSigned w32) b.values.items };
}

// Moves the bytes from `count` on to the front. The last `count` bytes then hold anything.
fn move_to_front(bytes: &mut Vec<u8>, count: usize)
    requires { count ≤ length bytes.old.items }
    ensures size { length bytes.new.items ≡ length bytes.old.items }
    ensures front { take (length bytes.old.items - count) bytes.new.items ≡ drop count bytes.old.items }
    ensures capacity { vec_capacity bytes.new ≡ vec_capacity bytes.old }
{
    bytes.copy_within(count.., 0);
}

// Drops all bytes but `count` from `from` on.
fn keep(bytes: &mut Vec<u8>, from: usize, count: usize)
    requires { from + count ≤ length bytes.old.items }
    ensures items { bytes.new.items ≡ take count (drop from bytes.old.items) }
    ensures size { length bytes.new.items ≡ count }
    ensures capacity { vec_capacity bytes.new ≡ vec_capacity bytes.old }
{
    move_to_front(bytes, from);
    bytes.truncate(count);
}

impl RampBuffer {
    /// No ramps and no bytes, for ramps over `ramp` frames. Takes the memory of the buffer.
    pub(crate) fn new(alloc: Global, sink: &SinkSpec, ramp: u32) -> Mem<RampBuffer>
        requires mixed { IsMixed sink.now.spec }
        requires low_depth { sink.now.depth ≤ 65536 }
        requires ramp { 1 ≤ ramp }
        ensures spec { IfOk result (λ b. b.spec ≡ sink.now.spec) }
        ensures ramp { IfOk result (λ b. b.ramp ≡ ramp) }
        ensures depth { IfOk result (λ b. b.depth ≡ sink.now.depth) }
        ensures ramps { IfOk result (λ b. b.ramps ≡ []) }
        ensures bytes { IfOk result (λ b. b.bytes ≡ []) }
    {
        let size = sink.spec.frame_size();
        Ok(RampBuffer {
            spec: sink.spec,
            ramp,
            depth: sink.depth,
            table: RampTable::new(alloc),
            bytes: Vec::with_capacity(alloc, sink.depth as usize * size)?,
            cache: MixCache::new(alloc, sink.spec.channels, sink.depth)?,
            values: vec![in alloc; 0; sink.spec.channels as usize * sink.depth as usize]?,
        })
    }

    /// Makes room for the ramps of `inputs` more inputs. Without memory nothing that contracts see changes.
    pub(crate) fn reserve(&mut self, inputs: usize) -> Mem<()>
        ensures spec { self.new.spec ≡ self.old.spec }
        ensures ramp { self.new.ramp ≡ self.old.ramp }
        ensures depth { self.new.depth ≡ self.old.depth }
        ensures ramps { self.new.ramps ≡ self.old.ramps }
        ensures bytes { self.new.bytes ≡ self.old.bytes }
        ensures ok { OnOk result (inputs ≤ self.new.room) }
    {
        self.table.reserve(inputs)
    }

    /// Applies all `count` messages, in order, to the ramps, at horizon `at`. Takes no memory.
    pub(crate) fn take_all(&mut self, messages: &Prepared, count: usize, at: u64)
        requires count { count ≡ length messages.now.messages }
        requires room { count ≤ self.old.room }
        requires wide { AreWide self.old.spec.channels (ramps_with_all self.old.ramp at messages.now.messages self.old.ramps) }
        ensures spec { self.new.spec ≡ self.old.spec }
        ensures ramp { self.new.ramp ≡ self.old.ramp }
        ensures depth { self.new.depth ≡ self.old.depth }
        ensures ramps { self.new.ramps ≡ ramps_with_all self.old.ramp at messages.now.messages self.old.ramps }
        ensures bytes { self.new.bytes ≡ self.old.bytes }
    {
        self.table.take_all(messages, count, self.ramp, at);
    }

    /// Drops the first `gone` frames, keeps the next `below`, and mixes all after them, up to the depth, from the inputs, which stand at frame `horizon`.
    /// `plain` has the frames after them as they are without ramps.
    pub(crate) fn remix<T: Ledger>(
        &mut self,
        gone: usize,
        below: u32,
        inputs: &[Input],
        horizon: u64,
        plain: &[u8],
        steps: &mut Steps<T>,
    )
        requires held { (gone + below) * frame_size_of self.old.spec ≤ length self.old.bytes }
        requires few_gone { gone ≤ 65536 }
        requires low { below ≤ self.old.depth }
        requires fed { AreFed self.old.spec.channels (inputs_of inputs.now) }
        requires few { length (inputs_of inputs.now) ≤ 256 }
        requires countable { horizon ≤ 2 ^ 61 }
        requires plain { plain.now ≡ concat (map (mix_of samples (sample_spec self.old.spec) (streams_of (inputs_of inputs.now))) (range_with_len 0 (self.old.depth - below))) }
        ensures spec { self.new.spec ≡ self.old.spec }
        ensures ramp { self.new.ramp ≡ self.old.ramp }
        ensures depth { self.new.depth ≡ self.old.depth }
        ensures ramps { self.new.ramps ≡ self.old.ramps }
        ensures bytes { self.new.bytes ≡ take (below * frame_size_of self.old.spec) (drop (gone * frame_size_of self.old.spec) self.old.bytes) ++ concat (map (ramp_frame samples self.old.ramp horizon self.old.ramps (sample_spec self.old.spec) (inputs_of inputs.now)) (range_with_len 0 (self.old.depth - below))) }
    {
        let size = self.spec.frame_size();
        keep(&mut self.bytes, gone * size, below as usize * size);
        mix_into(
            &mut self.cache,
            &mut self.values,
            &self.spec,
            inputs,
            &self.table,
            self.ramp,
            horizon,
            self.depth - below,
            plain,
            &mut self.bytes,
            steps,
        );
    }

    /// Drops all frames but the first `below`.
    pub(crate) fn cut(&mut self, below: u32)
        requires held { below * frame_size_of self.old.spec ≤ length self.old.bytes }
        ensures spec { self.new.spec ≡ self.old.spec }
        ensures ramp { self.new.ramp ≡ self.old.ramp }
        ensures depth { self.new.depth ≡ self.old.depth }
        ensures ramps { self.new.ramps ≡ self.old.ramps }
        ensures bytes { self.new.bytes ≡ take (below * frame_size_of self.old.spec) self.old.bytes }
    {
        let size = self.spec.frame_size();
        self.bytes.truncate(below as usize * size);
    }

    /// The bytes from frame `at` on.
    pub(crate) fn from(&self, at: u32) -> &[u8]
        requires { at * frame_size_of self.now.spec ≤ length self.now.bytes }
        ensures { result.now ≡ drop (at * frame_size_of self.now.spec) self.now.bytes }
    {
        let size = self.spec.frame_size();
        &self.bytes.as_slice()[at as usize * size..]
    }
}
