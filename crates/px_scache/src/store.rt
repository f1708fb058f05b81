//! The sample cache of a server.

ghost use Rattle.std.specs.Prelude.{◌≡◌, IfOk, OnOk, OnErr};
ghost use Rattle.px_reply.specs.Front.{refusal};
ghost use Rattle.px_types.specs.ErrorCode.{code_of};
ghost use Rattle.px_cmd.specs.Packet.{head_at, HeadGives};
ghost use Rattle.px_scache.specs.declared.answer.Answer.TheVariants.{Packet as Answered};
ghost use Rattle.px_scache.specs.Uploads.{has_upload};
ghost use Rattle.px_scache.specs.Answers.{no_store, handled, replied, answer, finish_upload, with_data, forgotten, IsDone, IsAnswer, CanBeSent};

use crate::answer::Answer;
use crate::cache::Cache;
use crate::command::{Request, read_request};
use crate::play::{Plays, begin};
use crate::uploads::Uploads;
use px_cmd::{CmdFault, Head};
use px_outcome::Refusal;
use px_tag::{TagFault, TagReader};
use px_types::{ConnId, ErrorCode, Mem, NoMemory};
use std::alloc::Global;
use std::marker::Model;

/// The uploads of all connections, and the samples.
#[derive(Drop)]
pub struct SampleCache {
    uploads: Uploads,
    cache: Cache,
}

impl Model for SampleCache {
    ghost use Rattle.px_scache.specs.Answers.{Store};

    ghost Value = { Store };

    ghost view = { λ s. record { uploads = s.uploads; cache = s.cache } };
}

// The command's number and the tag that its reply will have.
#[tactic(auto, unfolding(px_cmd::specs::Packet::head_at))]
fn front(reader: &mut TagReader) -> Result<Head, TagFault>
    ensures { HeadGives (λ head. (head.command, head.tag)) result reader.new (head_at reader.old) }
{
    let command = reader.number()?;
    let tag = reader.number()?;
    Ok(Head { command, tag })
}

// The error with a code.
#[tactic(auto, using(crate::proofs::Sent::refusal_carried))]
fn refused(alloc: Global, tag: u32, code: ErrorCode) -> Mem<Answer>
    ensures sent { IfOk result CanBeSent }
    ensures value { IfOk result (λ given. given ≡ Answered (refusal tag (code_of code))) }
{
    match px_reply::error(alloc, tag, code) {
        Ok(packet) => Ok(Answer::Packet(packet)),
        Err(_) => Err(NoMemory),
    }
}

impl SampleCache {
    /// No uploads and no samples. Takes no memory.
    pub fn new(alloc: Global) -> SampleCache
        ensures { result ≡ no_store }
    {
        SampleCache {
            uploads: Uploads::new(alloc),
            cache: Cache::new(alloc),
        }
    }

    /// Whether a connection has an upload with this stream number, so that data frames of this channel are the upload's. Takes no memory.
    pub fn takes(&self, conn: ConnId, stream: u32) -> bool
        ensures { result ≡ has_upload conn stream self.now.uploads }
    {
        self.uploads.contains(conn, stream)
    }

    // FINISH_UPLOAD_STREAM of a connection.
    fn finish(
        &mut self,
        alloc: Global,
        conn: ConnId,
        tag: u32,
        stream: u32,
    ) -> Result<Answer, Refusal>
        ensures sent { IfOk result CanBeSent }
        ensures value { IsDone result self.new (finish_upload conn tag stream self.old) }
        ensures unchanged { OnErr result (self.new ≡ self.old) }
    {
        let sample = self.uploads.finished(alloc, conn, stream)?;
        let reply = self.cache.finish(alloc, tag, sample)?;
        self.uploads.remove(conn, stream);
        Ok(Answer::Packet(reply))
    }

    // What a command is answered, or why it is refused.
    fn handled(
        &mut self,
        alloc: Global,
        conn: ConnId,
        plays: Plays,
        tag: u32,
        request: Request,
    ) -> Result<Answer, Refusal>
        ensures sent { IfOk result CanBeSent }
        ensures value { IsDone result self.new (handled conn plays tag request self.old) }
        ensures unchanged { OnErr result (self.new ≡ self.old) }
    {
        match request {
            Request::Upload(a) => Ok(Answer::Packet(self.uploads.create(alloc, conn, tag, &a)?)),
            Request::Delete(stream) => {
                Ok(Answer::Packet(self.uploads.delete(alloc, conn, tag, stream)?))
            }
            Request::Finish(stream) => self.finish(alloc, conn, tag, stream),
            Request::Play(a) => Ok(Answer::Begins(begin(alloc, plays, a, &self.cache)?)),
            Request::Remove(name) => Ok(Answer::Packet(self.cache.remove(alloc, tag, &name)?)),
        }
    }

    // The answer to a command whose fields were read.
    fn replied(
        &mut self,
        alloc: Global,
        conn: ConnId,
        plays: Plays,
        tag: u32,
        request: Request,
    ) -> Mem<Answer>
        ensures sent { IfOk result CanBeSent }
        ensures value { IsAnswer result self.new (replied tag self.old (handled conn plays tag request self.old)) }
        ensures unchanged { OnErr result (self.new ≡ self.old) }
    {
        match self.handled(alloc, conn, plays, tag, request) {
            Ok(given) => Ok(given),
            Err(Refusal::Code(code)) => refused(alloc, tag, code),
            Err(Refusal::NoMemory) => Err(NoMemory),
        }
    }

    /// The answer to a command of a connection, where `plays` are under way. The commands are refused as `Uploads` and `Cache` say; PLAY_SAMPLE
    /// by the first of these that holds: `NoEntity` for an unknown name; `Invalid` for a volume above 0x7FFFFFFF other than 0xFFFFFFFF; `TooLarge`
    /// for 64 plays under way; `BadState` where the server's own connection is closed. After a fault in the fields, a refusal and `NoMemory`
    /// nothing has changed.
    pub fn answer(
        &mut self,
        alloc: Global,
        conn: ConnId,
        plays: Plays,
        packet: &[u8],
    ) -> Mem<Answer>
        ensures sent { IfOk result CanBeSent }
        ensures value { IsAnswer result self.new (answer conn plays packet.now self.old) }
        ensures unchanged { OnErr result (self.new ≡ self.old) }
    {
        let mut reader = TagReader::new(packet);
        let head = match front(&mut reader) {
            Ok(head) => head,
            Err(fault) => return Ok(Answer::Fault(fault)),
        };
        match read_request(alloc, head.command, &mut reader) {
            Ok(request) => self.replied(alloc, conn, plays, head.tag, request),
            Err(CmdFault::Protocol(fault)) => Ok(Answer::Fault(fault)),
            Err(CmdFault::Unknown(_) | CmdFault::Unsupported(_)) => {
                refused(alloc, head.tag, ErrorCode::NotSupported)
            }
            Err(CmdFault::NoMemory) => Err(NoMemory),
        }
    }

    /// A data frame of a connection, at byte `offset` by the mode `seek`: at offset 0 from the write index its bytes are added to the upload
    /// with this stream number, up to the upload's length; else it is ignored. Without memory nothing is added.
    pub fn write(
        &mut self,
        conn: ConnId,
        stream: u32,
        offset: i64,
        seek: u8,
        bytes: &[u8],
    ) -> Mem<()>
        ensures value { OnOk result (self.new ≡ with_data conn stream offset seek bytes.now self.old) }
        ensures unchanged { OnErr result (self.new ≡ self.old) }
    {
        self.uploads.write(conn, stream, offset, seek, bytes)
    }

    /// Drops the uploads of a connection that is closed, and its counter. Takes no memory.
    pub fn forget(&mut self, conn: ConnId)
        ensures { self.new ≡ forgotten conn self.old }
    {
        self.uploads.forget(conn);
    }
}
