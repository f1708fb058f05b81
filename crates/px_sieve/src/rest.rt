//! The bytes of a connection after its whole frames.

ghost use Rattle.std.specs.Prelude.{◌≡◌, ◌-◌, ℕ, List, All, ◌++◌, drop, take, length, OnOk, ◌⊎◌, [], ◌≤◌, ◌<◌};
ghost use Rattle.px_frame.specs.Frame.{IsBody};
ghost use Rattle.px_sieve.specs.Segment.{size_of, size_of_all};
ghost use Rattle.px_sieve.specs.Standing.{IsRest, IsShort};

use px_frame::{Body, Frame};
use px_types::Mem;
use std::alloc::Global;

/// Less than a frame: how many bytes there are, and the first twenty of them, which are a descriptor if they are there.
#[derive(Drop)]
pub(crate) struct Rest {
    pub count: u128,
    pub first: Vec<u8>,
}

// The bytes of a frame.
fn size_of(frame: &Frame) -> u128
    requires { IsBody frame.now.body }
    ensures { result ≡ size_of frame.now }
{
    match &frame.body {
        Body::Control(packet) => 20 + packet.bytes().len() as u128,
        Body::Write { bytes, .. } => 20 + bytes.len() as u128,
    }
}

// How many bytes follow the frames, of all `count`.
fn left_after(count: u128, frames: &[Frame]) -> u128
    requires { All (λ f. IsBody f.body) frames.now }
    ensures { result ≡ count - size_of_all frames.now }
{
    let mut left = count;
    for frame in frames {
        left = left.saturating_sub(size_of(frame));
    }
    left
}

// Appends the first of `bytes`, up to twenty in all.
fn fill(first: &mut Vec<u8>, bytes: &[u8]) -> Mem<()>
    ensures { OnOk result ((begun : List ℕ) → first.old.items ≡ take 20 begun → first.new.items ≡ take 20 (begun ++ bytes.now)) }
{
    let room = 20usize.saturating_sub(first.len());
    first.extend_from_slice(&bytes[..room.min(bytes.len())])?;
    Ok(())
}

// The last `count` bytes, or all of them where there are fewer.
fn last(bytes: &[u8], count: u128) -> &[u8]
    ensures { result.now ≡ drop (length bytes.now - count) bytes.now }
{
    let from = (bytes.len() as u128).saturating_sub(count) as usize;
    &bytes[from..]
}

/// Bytes were fed, which completed these frames.
pub(crate) fn go_on(rest: &mut Rest, alloc: Global, bytes: &[u8], frames: &[Frame]) -> Mem<()>
    requires { All (λ f. IsBody f.body) frames.now }
    ensures { OnOk result ((begun : List ℕ) → IsRest rest.old begun → IsShort begun frames.now
        → IsRest rest.new (drop (size_of_all frames.now) (begun ++ bytes.now))) }
{
    let all = rest.count.saturating_add(bytes.len() as u128);
    rest.count = left_after(all, frames);
    if frames.is_empty() {
        fill(&mut rest.first, bytes)?;
        return Ok(());
    }
    let mut first = Vec::new(alloc);
    fill(&mut first, last(bytes, rest.count))?;
    rest.first = first;
    Ok(())
}
