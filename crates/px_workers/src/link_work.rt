//! The work at one client's link.

ghost use Rattle.std.specs.Prelude.{◌≡◌, ◌<◌, All, length};
ghost use Rattle.px_frame.specs.Frame.{IsBody};

use crate::gate::Gate;
use crate::job::Job;
use crate::starting::depart;
use crate::worker::Worker;
use px_ends::{Link, Recv, Sent};
use px_frame::{Decoder, Frame, FrameError};
use px_types::ConnId;
use px_worker_api::{CoreStop, Handle, Next, PartlySent};
use std::collections::VecDeque;
use std::sync::Wait;

// The most bytes that are received at once.
const PIECE: usize = 16_384;

// Whether a client is still there.
#[derive(Clone, Copy, PartialEq, Eq)]
enum Flow {
    On,
    Ended,
}

/// The work at one client's link: its bytes go to the core frame by frame, and packets that wait for it are sent, where the worker that made
/// the step hasn't sent them.
#[derive(Drop)]
pub(crate) struct LinkWork<W: Handle, A, G> {
    pub worker: Worker<W, G>,
    pub conn: ConnId,
    // `None` once the work has ended: the link ends with its work, and not only once the work is joined.
    pub link: Option<A>,
}

// Sends the rest of the packet in `sending`, as far as the link is ready.
fn send_rest<A: Link>(link: &mut A, sending: &mut Option<PartlySent>) -> Sent {
    let Some(rest) = sending else {
        return Sent::Bytes(0);
    };
    let bytes = rest.packet.bytes();
    let left = &bytes[rest.sent.min(bytes.len())..];
    if left.is_empty() {
        return Sent::Bytes(0);
    }
    match link.send(left) {
        Sent::Bytes(count) => {
            rest.sent = rest.sent.saturating_add(count);
            Sent::Bytes(count)
        }
        other => other,
    }
}

impl<W, A, G> LinkWork<W, A, G>
where
    W: Handle,
    A: Link + Drop,
    G: Gate + Drop,
{
    /// The handle, where no thread does the work.
    pub(crate) fn into_handle(self) -> W
        ensures { result ≡ self.worker.handle }
    {
        self.worker.handle
    }

    // Takes the first packet of the client's output queue into `sending`. Where there is none, how the work goes on.
    fn next_to_send(&mut self, sending: &mut Option<PartlySent>) -> Option<Flow>
        ensures parts { W.parts self.new.worker.handle ≡ W.parts self.old.worker.handle }
    {
        match self.worker.handle.next_packet(self.conn) {
            Next::Packet(rest) => {
                *sending = Some(rest);
                None
            }
            Next::Nothing => {
                *sending = None;
                Some(Flow::On)
            }
            Next::Ended => Some(Flow::Ended),
        }
    }

    // Sends what waits for the client and no other worker has sent, as far as its link is ready.
    fn send(&mut self, link: &mut A, sending: &mut Option<PartlySent>) -> Flow
        ensures parts { W.parts self.new.worker.handle ≡ W.parts self.old.worker.handle }
    {
        let rt = self.worker.handle.rt();
        for _ in rt.forever() {
            match send_rest(link, sending) {
                Sent::Bytes(0) => {
                    if let Some(flow) = self.next_to_send(sending) {
                        return flow;
                    }
                }
                Sent::Bytes(_) => {}
                Sent::NotYet => return Flow::On,
                Sent::Failed => return Flow::Ended,
            }
        }
        unreachable!()
    }

    // Gives the core each of `frames`.
    fn step_frames(&mut self, frames: Vec<Frame>) -> Result<(), CoreStop>
        requires { All (λ f. IsBody f.body) frames.items }
        ensures parts { W.parts self.new.worker.handle ≡ W.parts self.old.worker.handle }
    {
        let mut frames = VecDeque::from_vec(frames);
        while let Some(frame) = frames.pop_front() {
            self.worker.handle.frame(self.conn, frame)?;
            self.worker.gate.after_packet(self.conn);
        }
        Ok(())
    }

    // Decodes `bytes` of the client, and gives the core its frames.
    fn receive(&mut self, decoder: &mut Decoder, bytes: &[u8]) -> Result<(), CoreStop>
        ensures parts { W.parts self.new.worker.handle ≡ W.parts self.old.worker.handle }
    {
        match decoder.feed(bytes, &mut self.worker.blocks) {
            Ok(frames) => self.step_frames(frames.into_vec()),
            Err(FrameError::Fault { frames, fault, at }) => {
                self.step_frames(frames.into_vec())?;
                self.worker.handle.broken(self.conn, fault, at)
            }
            Err(FrameError::Failed { .. }) => Ok(()),
            Err(FrameError::NoMemory) => self.worker.handle.cut(self.conn),
        }
    }

    // One round: bytes that came are decoded, and packets that no other worker has sent are sent. Where no bytes came for a while, the queue is
    // looked into as well.
    fn round(
        &mut self,
        link: &mut A,
        sending: &mut Option<PartlySent>,
        decoder: &mut Decoder,
        piece: &mut [u8],
    ) -> Flow
        requires { 0 < length piece.old }
        ensures piece { length piece.new ≡ length piece.old }
        ensures parts { W.parts self.new.worker.handle ≡ W.parts self.old.worker.handle }
    {
        match link.recv(piece) {
            Recv::Bytes(count) => match self.receive(decoder, &piece[..count]) {
                Ok(()) if self.worker.handle.worker_sends() => self.send(link, sending),
                Ok(()) => Flow::On,
                Err(_) => Flow::Ended,
            },
            Recv::NotYet => self.send(link, sending),
            Recv::End | Recv::Failed => Flow::Ended,
        }
    }

    // Makes rounds until the client or the server ends.
    fn rounds(
        &mut self,
        link: &mut A,
        sending: &mut Option<PartlySent>,
        decoder: &mut Decoder,
        piece: &mut [u8],
    )
        requires { 0 < length piece.old }
        ensures parts { W.parts self.new.worker.handle ≡ W.parts self.old.worker.handle }
    {
        let rt = self.worker.handle.rt();
        for _ in rt.forever() {
            if self.round(link, sending, decoder, piece) == Flow::Ended {
                return;
            }
        }
        unreachable!()
    }

    // Serves the client until it or the server ends.
    fn serve(&mut self, link: &mut A)
        ensures parts { W.parts self.new.worker.handle ≡ W.parts self.old.worker.handle }
    {
        let mut decoder = Decoder::new(self.worker.handle.alloc());
        let mut sending = None;
        let mut piece = [0u8; PIECE];
        self.rounds(link, &mut sending, &mut decoder, &mut piece);
    }
}

impl<W, A, G> Job for LinkWork<W, A, G>
where
    W: Handle + Send,
    W::Blocks: Send,
    A: Link + Drop + Send,
    G: Gate + Drop + Send + Sync,
{
    ghost use Rattle.std.specs.Prelude.{◌≡◌, refl};

    ghost keeps = { λ before after. W.parts after.worker.handle ≡ W.parts before.worker.handle };

    fn work(&mut self) {
        if let Some(mut link) = self.link.take() {
            self.serve(&mut link);
        }
        depart(&mut self.worker.handle, self.conn);
    }

    ghost keeps_itself = { λ job. refl };
}
