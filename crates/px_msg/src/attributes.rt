//! The repair of buffer attributes.

ghost use Rattle.std.specs.Prelude.{◌≡◌, ◌≤◌, ◌*◌};
ghost use Rattle.px_sample.specs.Format.{size_of, frame_size_of};
ghost use Rattle.px_model.specs.Orderly.{IsRepaired};
ghost use Rattle.px_msg.specs.Repair.{repaired, frames_asked, between_one_and, maxlength_of, tlength_of, minreq_of, prebuf_of, bytes_of, IsWithinBytes};

use px_model::Attr;
use px_sample::{Format, Spec};
use px_types::limits::{MAX_LENGTH, UNSET};

// The bytes of a sample.
#[tactic(auto, using(crate::proofs::Sizes::size_some, crate::proofs::Sizes::size_few))]
fn sample_size(format: Format) -> u32
    ensures value { result ≡ size_of format }
    ensures some { 1 ≤ result }
    ensures few { result ≤ 4 }
{
    format.size() as u32
}

// The bytes of a frame.
fn frame_size(spec: &Spec) -> u32
    requires { 1 ≤ spec.now.channels }
    ensures value { result ≡ frame_size_of spec.now }
    ensures some { 1 ≤ result }
    ensures few { result ≤ 1020 }
{
    sample_size(spec.format) * u32::from(spec.channels)
}

// The whole frames in `asked` bytes, or `unset` where the client leaves it to the server.
fn frames_asked(size: u32, unset: u64, asked: u32) -> u64
    requires { 1 ≤ size }
    ensures { result ≡ frames_asked size unset asked }
{
    if asked == UNSET {
        unset
    } else {
        u64::from(asked / size)
    }
}

// `frames`, but at least 1 and at most `most`.
fn between_one_and(most: u32, frames: u64) -> u32
    ensures { result ≡ between_one_and most frames }
{
    frames.max(1).min(u64::from(most)) as u32
}

fn maxlength_of(size: u32, asked: u32) -> u32
    requires some { 1 ≤ size }
    requires small { size ≤ 1020 }
    ensures value { result ≡ maxlength_of size asked }
    ensures some { 1 ≤ result }
    ensures few { result ≤ 4194304 }
    ensures bytes { result * size ≤ 4194304 }
{
    (asked.min(MAX_LENGTH) / size).max(1)
}

fn prebuf_of(size: u32, tlength: u32, minreq: u32, asked: u32) -> u32
    requires size { 1 ≤ size }
    requires tlength { tlength ≤ 4194304 }
    requires minreq { minreq ≤ tlength }
    ensures { result ≡ prebuf_of size tlength minreq asked }
{
    let most = tlength + 1 - minreq;
    if asked == UNSET {
        return most;
    }
    let asked = (u64::from(asked) + u64::from(size - 1)) / u64::from(size);
    asked.min(u64::from(most)) as u32
}

/// The buffer attributes, in frames, of a stream whose client asks for these bytes: maxlength, tlength, prebuf and minreq, in this order; 0xFFFFFFFF
/// leaves one to the server. In order: maxlength is at most 4,194,304 bytes, in whole frames, at least one; tlength (two seconds where it is left)
/// and minreq (20 milliseconds) are in whole frames, at least one, at most maxlength and tlength; prebuf is rounded up, and at most (as where it is
/// left) one frame more than tlength less minreq. Takes no memory. Source: `fix_playback_buffer_attr` of `pulsecore/protocol-native.c`; own: the
/// numbers.
pub fn repair(spec: &Spec, asked: [u32; 4]) -> Attr
    requires { 1 ≤ spec.now.channels }
    ensures value { result ≡ repaired spec.now asked }
    ensures fits { IsRepaired result }
    ensures bytes { IsWithinBytes spec.now result }
{
    let size = frame_size(spec);
    let [maxlength, tlength, prebuf, minreq] = asked;
    let maxlength = maxlength_of(size, maxlength);
    let rate = u64::from(spec.rate);
    let tlength = between_one_and(maxlength, frames_asked(size, 2 * rate, tlength));
    let minreq = between_one_and(tlength, frames_asked(size, rate * 20 / 1000, minreq));
    let prebuf = prebuf_of(size, tlength, minreq, prebuf);
    Attr {
        maxlength,
        tlength,
        prebuf,
        minreq,
    }
}

// `frames` frames in bytes, where `most` frames are within the bound.
fn bytes_in(size: u32, most: u32, frames: u32) -> u32
    requires within { frames ≤ most }
    requires bytes { most * size ≤ 4194304 }
    ensures { result ≡ frames * size }
{
    frames * size
}

/// Repaired attributes in bytes, in the order maxlength, tlength, prebuf, minreq, as replies carry them. Takes no
/// memory.
pub fn in_bytes(spec: &Spec, attr: &Attr) -> [u32; 4]
    requires channels { 1 ≤ spec.now.channels }
    requires repaired { IsRepaired attr.now }
    requires bytes { IsWithinBytes spec.now attr.now }
    ensures { result ≡ bytes_of spec.now attr.now }
{
    let size = frame_size(spec);
    let most = attr.maxlength;
    let maxlength = bytes_in(size, most, most);
    let tlength = bytes_in(size, most, attr.tlength);
    let prebuf = bytes_in(size, most, attr.prebuf);
    let minreq = bytes_in(size, most, attr.minreq);
    [maxlength, tlength, prebuf, minreq]
}
