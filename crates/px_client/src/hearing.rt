// What the client hears of the server.

ghost use Rattle.std.specs.Prelude.{◌≡◌, ℕ, ◌+◌, ◌<◌, ◌≤◌, List, [], ◌++◌, length, drop, IfOk, OnOk, IfErr};
ghost use Rattle.px_client.specs.declared.errand.Errand.{Errand as Job};
ghost use Rattle.px_client.specs.declared.awaited.Awaited.{Awaited as Wanted};
ghost use Rattle.px_client.specs.declared.awaited.Awaited.TheVariants as awaits;
ghost use Rattle.px_client.specs.Dialogue.{Stage, Waiting, judged_body};
ghost use Rattle.px_client.specs.Causes.{Counts, HearFails, HEARD_MAX};
ghost use Rattle.px_client.specs.Hearing.{HasHeard, Scans, HearsTo, Refills, Replies, left_of};

use crate::answer::{Verdict, judge};
use crate::awaited::Awaited;
use crate::end::ClientEnd;
use crate::inputs::Inputs;
use crate::waiting::receive;
use px_block::Fresh;
use px_ends::Link;
use px_frame::{Body, Decoder, Frame, FrameError, FrameFault, Frames};
use px_tag::Mem;
use std::alloc::Global;

/// The most bytes that the client hears before it gives up.
const HEARD_MAX: usize = 1 << 30;

/// The most bytes of a piece.
const PIECE: usize = 4_096;

/// What the client has heard: the state of the decoder, the frames that the last piece completed, of which those from `next` on are still to
/// be judged, the fault after them, if the bytes have one, and how many bytes came.
#[derive(Drop)]
pub(crate) struct Hearing {
    decoder: Decoder,
    blocks: Fresh,
    frames: Frames,
    next: usize,
    fault: Option<(FrameFault, u64)>,
    heard: usize,
}

// What a frame is to a client that waits for a reply.
fn judge_frame(alloc: Global, frame: &Frame, awaited: Awaited) -> Mem<Verdict>
    ensures { IfOk result (λ verdict. verdict ≡ judged_body awaited frame.now.body) }
{
    match &frame.body {
        Body::Control(packet) => judge(alloc, packet.bytes(), awaited),
        Body::Write { .. } => Ok(Verdict::Other),
    }
}

// Judges frames up to the awaited reply: how many, and the reply's inputs, or `None` where all of them are messages.
fn scan(
    alloc: Global,
    frames: &[Frame],
    awaited: Awaited,
) -> Result<(usize, Option<Inputs>), ClientEnd>
    ensures { (errand : Job) → Scans result errand awaited frames.now }
{
    for i in 0..frames.len() {
        let frame = &frames[i];
        match judge_frame(alloc, frame, awaited)? {
            Verdict::Message => {}
            Verdict::Reply(inputs) => return Ok((i + 1, Some(inputs))),
            Verdict::Refusal(code) => return Err(ClientEnd::Denied(code)),
            Verdict::Other => return Err(ClientEnd::BadReply(frame.at)),
        }
    }
    Ok((frames.len(), None))
}

impl Hearing {
    /// Nothing has been heard. Takes no memory.
    pub(crate) fn new(alloc: Global) -> Hearing
        ensures hears { (errand : Job) → HasHeard errand result [] (Waiting awaits.Version) }
        ensures inside { result.next ≤ length result.frames }
    {
        Hearing {
            decoder: Decoder::new(alloc),
            blocks: Fresh::new(alloc),
            frames: Frames::new(alloc),
            next: 0,
            fault: None,
            heard: 0,
        }
    }

    // Takes the frames of a piece, where all frames before it are judged.
    fn take(&mut self, piece: &[u8]) -> Result<(), ClientEnd>
        requires all { left_of self.old ≡ [] }
        requires few { self.old.heard + length piece.now ≤ HEARD_MAX }
        ensures hears { (errand : Job) (bytes : List ℕ) (awaited : Wanted) → HasHeard errand self.old bytes (Waiting awaited)
            → HearsTo result errand (λ x. Waiting awaited) self.new (bytes ++ piece.now) }
        ensures causes { IfErr result HearFails }
        ensures count { OnOk result (self.new.heard ≡ self.old.heard + length piece.now) }
        ensures inside { OnOk result (self.new.next ≤ length self.new.frames) }
    {
        let (frames, fault) = match self.decoder.feed(piece, &mut self.blocks) {
            Ok(frames) => (frames, None),
            Err(FrameError::Fault { frames, fault, at }) => (frames, Some((fault, at))),
            Err(FrameError::Failed { at, .. }) => return Err(ClientEnd::BadReply(at)),
            Err(FrameError::NoMemory) => return Err(ClientEnd::Memory),
        };
        self.frames = frames;
        self.next = 0;
        self.fault = fault;
        self.heard += piece.len();
        Ok(())
    }

    // Receives a piece, where all frames before it are judged.
    fn refill<L: Link>(&mut self, link: &mut L) -> Result<(), ClientEnd>
        requires all { left_of self.old ≡ [] }
        ensures hears { Refills result self.old self.new (L.left link.old) (L.left link.new) }
        ensures more { OnOk result (self.old.heard < self.new.heard) }
        ensures few { OnOk result (self.new.heard ≤ HEARD_MAX) }
        ensures inside { OnOk result (self.new.next ≤ length self.new.frames) }
        ensures other { L.sent link.new ≡ L.sent link.old }
        ensures count { Counts result (L.counts link.old) (L.counts link.new) }
    {
        if let Some((_, at)) = self.fault {
            return Err(ClientEnd::BadReply(at));
        }
        if self.heard >= HEARD_MAX {
            return Err(ClientEnd::BadReply(HEARD_MAX as u64));
        }
        let mut buffer = [0; PIECE];
        let room = PIECE.min(HEARD_MAX - self.heard);
        let count = receive(link, &mut buffer[..room])?;
        self.take(&buffer[..count])
    }

    /// Hears the awaited reply: its inputs. Messages before it are skipped. Takes memory for the frames and the inputs.
    pub(crate) fn reply<L: Link>(
        &mut self,
        alloc: Global,
        link: &mut L,
        awaited: Awaited,
    ) -> Result<Inputs, ClientEnd>
        requires inside { self.old.next ≤ length self.old.frames }
        ensures hears { Replies result awaited self.old self.new (L.left link.old) (L.left link.new) }
        ensures inside { OnOk result (self.new.next ≤ length self.new.frames) }
        ensures other { L.sent link.new ≡ L.sent link.old }
        ensures count { Counts result (L.counts link.old) (L.counts link.new) }
    {
        loop {
            let (count, found) = scan(alloc, &self.frames.as_slice()[self.next..], awaited)?;
            self.next += count;
            if let Some(inputs) = found {
                return Ok(inputs);
            }
            self.refill(link)?;
        }
    }
}
