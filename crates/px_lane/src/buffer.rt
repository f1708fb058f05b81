// The bytes of a sink's buffer.
ghost use Rattle.std.specs.Prelude.{◌≡◌, ◌≤◌, ◌+◌, ◌-◌, ◌*◌, ◌^◌, ◌++◌, length, map, take, drop, IfOk};
ghost use Rattle.std.specs.List.{concat, range_with_len};
ghost use Rattle.px_sample.specs.Format.{frame_size_of};
ghost use Rattle.px_msg.specs.View.{sample_spec};
ghost use Rattle.px_model.specs.Mix.{mix_of};
ghost use Rattle.px_model.specs.Sink.{streams_of};
ghost use Rattle.px_stream.specs.Samples.{samples};

use crate::mixed::MixedInputs;
use px_kernel::Steps;
use px_types::{Mem, NoMemory};
use std::alloc::Global;
use std::marker::Model;
use std::sync::ledger::Ledger;

/// As many bytes as the depth of a sink has room for. They follow up to `size` dropped bytes at the front, so that a byte is moved at most once for
/// each `size` bytes that are dropped.
#[derive(Debug, Drop)]
pub(crate) struct Buffer {
    bytes: Vec<u8>,
    gone: usize,
    size: usize,
}

impl Model for Buffer {
    ghost use Rattle.std.specs.Prelude.{ℕ, List, ◌≡◌, ◌≤◌, ◌*◌, take, drop, length};

    ghost Value = { List ℕ };

    ghost view = { λ b. take b.size (drop b.gone b.bytes.items) };

    ghost invariant = { λ b. (b.gone ≤ b.size) × (length b.bytes.items ≡ 2 * b.size) };
}

// `count` zero bytes.
fn zeros(alloc: Global, count: usize) -> Mem<Vec<u8>>
    ensures { IfOk result (λ bytes. length bytes.items ≡ count) }
{
    let bytes = vec![in alloc; 0; count]?;
    Ok(bytes)
}

// Moves the bytes from `count` on to the front. The last `count` bytes then hold anything.
fn move_to_front(bytes: &mut Vec<u8>, count: usize)
    requires { count ≤ length bytes.old.items }
    ensures size { length bytes.new.items ≡ length bytes.old.items }
    ensures front { take (length bytes.old.items - count) bytes.new.items ≡ drop count bytes.old.items }
{
    bytes.copy_within(count.., 0);
}

// Packs the mixed frames from frame `from` on over bytes `at` to `to`.
fn pack_between<T: Ledger>(
    inputs: &MixedInputs,
    from: u32,
    bytes: &mut Vec<u8>,
    at: usize,
    to: usize,
    steps: &mut Steps<T>,
)
    requires from { from ≤ inputs.now.frames }
    requires size { to ≡ at + (inputs.now.frames - from) * frame_size_of inputs.now.spec }
    requires inside { to ≤ length bytes.old.items }
    ensures size { length bytes.new.items ≡ length bytes.old.items }
    ensures bytes { bytes.new.items ≡ take at bytes.old.items ++ (concat (map (mix_of samples (sample_spec inputs.now.spec) (streams_of inputs.now.inputs)) (range_with_len from (inputs.now.frames - from))) ++ drop to bytes.old.items) }
    ensures ticks { steps.new ≡ steps.old + inputs.now.spec.channels * (inputs.now.frames - from) }
{
    inputs.pack(from, &mut bytes.as_mut_slice()[at..to], steps);
}

// Packs the mixed frames from frame `from` up to frame `to` over bytes `at` to `end`.
fn pack_part<T: Ledger>(
    inputs: &MixedInputs,
    from: u32,
    to: u32,
    bytes: &mut Vec<u8>,
    at: usize,
    end: usize,
    steps: &mut Steps<T>,
)
    requires order { from ≤ to }
    requires mixed { to ≤ inputs.now.frames }
    requires size { end ≡ at + (to - from) * frame_size_of inputs.now.spec }
    requires inside { end ≤ length bytes.old.items }
    ensures size { length bytes.new.items ≡ length bytes.old.items }
    ensures bytes { bytes.new.items ≡ take at bytes.old.items ++ (concat (map (mix_of samples (sample_spec inputs.now.spec) (streams_of inputs.now.inputs)) (range_with_len from (to - from))) ++ drop end bytes.old.items) }
    ensures ticks { steps.new ≡ steps.old + inputs.now.spec.channels * (to - from) }
{
    inputs.pack_between(from, to, &mut bytes.as_mut_slice()[at..end], steps);
}

impl Buffer {
    /// `size` zero bytes. Takes memory for twice as many.
    pub(crate) fn new(alloc: Global, size: usize) -> Mem<Buffer>
        requires { size ≤ 2 ^ 32 }
        ensures { IfOk result (λ b. length b ≡ size) }
    {
        Ok(Buffer {
            bytes: zeros(alloc, 2 * size)?,
            gone: 0,
            size,
        })
    }

    /// Drops the first `count` bytes. As many with any value come in at the end.
    pub(crate) fn advance(&mut self, count: usize)
        requires { count ≤ length self.old }
        ensures size { length self.new ≡ length self.old }
        ensures front { take (length self.old - count) self.new ≡ drop count self.old }
    {
        self.gone += count;
        if self.gone > self.size {
            move_to_front(&mut self.bytes, self.gone);
            self.gone = 0;
        }
    }

    /// Packs the mixed frames from frame `from` on over the bytes from `at` to the end.
    pub(crate) fn pack<T: Ledger>(
        &mut self,
        inputs: &MixedInputs,
        from: u32,
        at: usize,
        steps: &mut Steps<T>,
    )
        requires from { from ≤ inputs.now.frames }
        requires size { length self.old ≡ at + (inputs.now.frames - from) * frame_size_of inputs.now.spec }
        ensures size { length self.new ≡ length self.old }
        ensures bytes { self.new ≡ take at self.old ++ concat (map (mix_of samples (sample_spec inputs.now.spec) (streams_of inputs.now.inputs)) (range_with_len from (inputs.now.frames - from))) }
        ensures ticks { steps.new ≡ steps.old + inputs.now.spec.channels * (inputs.now.frames - from) }
    {
        let to = self.gone + self.size;
        pack_between(inputs, from, &mut self.bytes, self.gone + at, to, steps);
    }

    /// Packs the mixed frames from frame `from` up to frame `to` over the bytes from `at` up to `end`.
    pub(crate) fn pack_part<T: Ledger>(
        &mut self,
        inputs: &MixedInputs,
        from: u32,
        to: u32,
        at: usize,
        end: usize,
        steps: &mut Steps<T>,
    )
        requires order { from ≤ to }
        requires mixed { to ≤ inputs.now.frames }
        requires size { end ≡ at + (to - from) * frame_size_of inputs.now.spec }
        requires inside { end ≤ length self.old }
        ensures size { length self.new ≡ length self.old }
        ensures bytes { self.new ≡ take at self.old ++ (concat (map (mix_of samples (sample_spec inputs.now.spec) (streams_of inputs.now.inputs)) (range_with_len from (to - from))) ++ drop end self.old) }
        ensures ticks { steps.new ≡ steps.old + inputs.now.spec.channels * (to - from) }
    {
        let start = self.gone + at;
        let past = self.gone + end;
        pack_part(inputs, from, to, &mut self.bytes, start, past, steps);
    }

    /// The bytes.
    pub(crate) fn as_slice(&self) -> &[u8]
        ensures { result.now ≡ self.now }
    {
        &self.bytes.as_slice()[self.gone..self.gone + self.size]
    }
}
