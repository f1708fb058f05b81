//! The table of record streams.

ghost use Rattle.std.specs.Prelude.{◌≡◌, ◌+◌, ◌<◌, ◌≤◌, ◌++◌, ◌∷◌, [], List, All, true, not, map, length, filter, find, vec_len, vec_capacity, IfOk, OnOk, OnErr};
ghost use Rattle.std.specs.List.{AllByRecursion, list_any};
ghost use Rattle.std.specs.Option.{option_map};
ghost use Rattle.px_header.specs.HeaderRules.{IsHeader};
ghost use Rattle.px_outcome.specs.Handled.{HandledAs};
ghost use Rattle.px_reply.specs.Front.{refusal};
ghost use Rattle.px_types.specs.ErrorCode.{code_of};
ghost use Rattle.px_monitor.specs.declared.answer.Answer.TheVariants.{Packet as Answered};
ghost use Rattle.px_outcome.specs.Target.{IsTarget};
ghost use Rattle.px_outcome.specs.declared.target.Target.{Target as Aim};
ghost use Rattle.px_cmd.specs.Packet.{head_at, HeadGives};
ghost use Rattle.px_monitor.specs.Fragments.{sent_of};
ghost use Rattle.px_monitor.specs.Records.{no_records, monitor_of, sources_of, streams_of, is_by, is_stream, counts_for, count_of, other_counts, with_count, with_stream, without_stream, without_conn, IsRecording};
ghost use Rattle.px_monitor.specs.Create.{has_room, fragsize_of, made, create, delete, handled, replied, answer, IsDone, IsAnswer};

use crate::answer::Answer;
use crate::checks::{is_lawful, is_supported, named};
use crate::command::{Request, read_request};
use crate::fields::RecordFields;
use crate::fragments::sent;
use crate::recording::{Count, Recording, fragsize_of};
use crate::reply;
use px_cmd::{CmdFault, Head};
use px_header::Header;
use px_outcome::{Refusal, Target, check};
use px_sinks::targets_of;
use px_state::Effects;
use px_tag::{Packet, TagFault, TagReader};
use px_types::limits::{MAX_LENGTH, NO_INDEX};
use px_types::{ConnId, ErrorCode, Mem, NoMemory, SinkId, Text};
use std::alloc::Global;
use std::marker::Model;

/// The sources of a server, one a sink, with the record streams of all connections.
#[derive(Drop)]
pub struct Recorded {
    sources: Vec<Target>,
    next_output: u32,
    counts: Vec<Count>,
    streams: Vec<Recording>,
}

impl Model for Recorded {
    ghost use Rattle.std.specs.Prelude.{All};
    ghost use Rattle.std.specs.List.{AllByRecursion};
    ghost use Rattle.px_outcome.specs.Target.{IsTarget};
    ghost use Rattle.px_monitor.specs.Fragments.{sent_of};
    ghost use Rattle.px_monitor.specs.Records.{Records, IsRecording};

    ghost Value = { Records };

    ghost view = { λ r. record { sources = r.sources.items; next_output = r.next_output; counts = r.counts.items; streams = r.streams.items } };

    ghost invariant = { λ r. All IsTarget r.sources.items × AllByRecursion IsRecording r.streams.items };
}

// What is put after a sink's name to name its monitor.
const MONITOR: &[u8] = b".monitor";

// The most record streams of a connection. Own.
const MAX_STREAMS: usize = 64;

// The monitor of a sink.
fn monitor_of(alloc: Global, sink: &Target) -> Mem<Target>
    requires { IsTarget sink.now }
    ensures value { IfOk result (λ source. source ≡ monitor_of sink.now) }
    ensures lawful { IfOk result IsTarget }
{
    let mut name = Text::copied(alloc, sink.name.as_slice())?;
    name.extend(MONITOR)?;
    Ok(Target {
        index: sink.index,
        name,
        spec: sink.spec,
        map: sink.map,
        depth: sink.depth,
    })
}

// Adds the monitor of one more sink.
fn add_monitor(alloc: Global, sources: &mut Vec<Target>, sink: &Target) -> Mem<()>
    requires { IsTarget sink.now }
    ensures value { OnOk result ((more : List Aim) → sources.new.items ++ map monitor_of more ≡ sources.old.items ++ map monitor_of (sink.now ∷ more)) }
    ensures lawful { OnOk result (All IsTarget sources.old.items → All IsTarget sources.new.items) }
{
    sources.push(monitor_of(alloc, sink)?)?;
    Ok(())
}

// The monitors of sinks.
fn monitors_of(alloc: Global, sinks: &[Target]) -> Mem<Vec<Target>>
    requires { All IsTarget sinks.now }
    ensures value { IfOk result (λ sources. sources.items ≡ map monitor_of sinks.now) }
    ensures lawful { IfOk result (λ sources. All IsTarget sources.items) }
{
    let mut sources = Vec::new(alloc);
    for sink in sinks {
        add_monitor(alloc, &mut sources, sink)?;
    }
    Ok(sources)
}

// How many record streams a connection has.
fn count_streams(streams: &[Recording], conn: ConnId) -> usize
    ensures { result ≡ length (streams_of conn streams.now) }
{
    streams.iter().filter(|r| r.conn.0 == conn.0).count()
}

// Whether a connection has a record stream with this number.
fn is_there(streams: &[Recording], conn: ConnId, stream: u32) -> bool
    ensures { result ≡ list_any (is_stream conn stream) streams.now }
{
    streams
        .iter()
        .any(|r| r.conn.0 == conn.0 && r.stream == stream)
}

// The count of a connection, where it has one.
fn counted(counts: &[Count], conn: ConnId) -> Option<&Count>
    ensures { option_map (λ c. c.now) result ≡ find (counts_for conn) counts.now }
{
    counts.iter().find(|c| c.conn.0 == conn.0)
}

// How many record streams a connection has created.
fn count_of(counts: &[Count], conn: ConnId) -> u32
    ensures { result ≡ count_of conn counts.now }
{
    match counted(counts, conn) {
        None => 0,
        Some(c) => c.streams,
    }
}

// Forgets how many record streams a connection has created.
fn drop_count(counts: &mut Vec<Count>, conn: ConnId)
    ensures items { counts.new.items ≡ other_counts conn counts.old.items }
    ensures capacity { vec_capacity counts.new ≡ vec_capacity counts.old }
    ensures len { length counts.new.items ≤ length counts.old.items }
{
    counts.retain(|c| c.conn.0 != conn.0);
}

// Sets how many record streams a connection has created, where there is room for one more count.
fn set_count(counts: &mut Vec<Count>, conn: ConnId, streams: u32)
    requires { length counts.old.items + 1 ≤ vec_capacity counts.old }
    ensures { counts.new.items ≡ with_count conn streams counts.old.items }
{
    drop_count(counts, conn);
    counts.push_reserved(Count { conn, streams });
}

// Drops a record stream.
fn drop_stream(streams: &mut Vec<Recording>, conn: ConnId, stream: u32)
    ensures items { streams.new.items ≡ filter (λ r. not (is_stream conn stream r)) streams.old.items }
    ensures lawful { AllByRecursion IsRecording streams.old.items → AllByRecursion IsRecording streams.new.items }
{
    streams.retain(|r| !(r.conn.0 == conn.0 && r.stream == stream));
}

// Drops the record streams of a connection.
fn drop_streams(streams: &mut Vec<Recording>, conn: ConnId)
    ensures items { streams.new.items ≡ filter (λ r. not (is_by conn r)) streams.old.items }
    ensures lawful { AllByRecursion IsRecording streams.old.items → AllByRecursion IsRecording streams.new.items }
{
    streams.retain(|r| r.conn.0 != conn.0);
}

// The command's number and the tag that its reply will have.
#[tactic(auto, unfolding(px_cmd::specs::Packet::head_at))]
fn front(reader: &mut TagReader) -> Result<Head, TagFault>
    ensures { HeadGives (λ head. (head.command, head.tag)) result reader.new (head_at reader.old) }
{
    let command = reader.number()?;
    let tag = reader.number()?;
    Ok(Head { command, tag })
}

// The error with a code.
fn refused(alloc: Global, tag: u32, code: ErrorCode) -> Mem<Answer>
    ensures { IfOk result (λ given. given ≡ Answered (refusal tag (code_of code))) }
{
    match px_reply::error(alloc, tag, code) {
        Ok(packet) => Ok(Answer::Packet(packet)),
        Err(_) => Err(NoMemory),
    }
}

impl Recorded {
    /// The table before the first command: a source for each sink of the header.
    pub fn new(alloc: Global, header: &Header) -> Mem<Recorded>
        requires { IsHeader header.now }
        ensures { IfOk result (λ records. records ≡ no_records header.now.sinks) }
    {
        let sinks = targets_of(alloc, header.sinks.as_slice())?;
        let sources = monitors_of(alloc, sinks.as_slice())?;
        Ok(Recorded {
            sources,
            next_output: 0,
            counts: Vec::new(alloc),
            streams: Vec::new(alloc),
        })
    }

    /// The record streams, in order of creation. Takes no memory.
    pub fn streams(&self) -> &[Recording]
        ensures value { result.now ≡ self.now.streams }
        ensures lawful { AllByRecursion IsRecording result.now }
    {
        self.streams.as_slice()
    }

    // Whether a connection can have one more record stream.
    fn has_room(&self, conn: ConnId) -> bool
        ensures value { result ≡ has_room conn self.now }
        ensures streams { result ≡ true → count_of conn self.now.counts < 4294967295 }
        ensures outputs { result ≡ true → self.now.next_output < 4294967295 }
    {
        count_streams(self.streams.as_slice(), conn) < MAX_STREAMS
            && count_of(self.counts.as_slice(), conn) < NO_INDEX
            && self.next_output < NO_INDEX
    }

    // The record stream of a source.
    fn recording_of(&self, conn: ConnId, source: &Target, asked: u32) -> Recording
        requires source { IsTarget source.now }
        requires streams { count_of conn self.now.counts < 4294967295 }
        ensures value { result ≡ record { conn = conn; stream = count_of conn self.now.counts; output = self.now.next_output; sink = source.now.index; fragsize = fragsize_of source.now.spec asked } }
        ensures lawful { IsRecording result }
    {
        Recording {
            conn,
            stream: count_of(self.counts.as_slice(), conn),
            output: self.next_output,
            sink: source.index,
            fragsize: fragsize_of(&source.spec, asked),
        }
    }

    // The record stream that a connection asks for, and the reply.
    fn made(
        &self,
        alloc: Global,
        conn: ConnId,
        tag: u32,
        a: &RecordFields,
    ) -> Result<(Recording, Packet), Refusal>
        ensures value { HandledAs result (made conn tag a.now self.now) }
        ensures lawful { IfOk result (λ new. IsRecording new.0) }
        ensures outputs { IfOk result (λ new. self.now.next_output < 4294967295) }
    {
        check(is_lawful(a), ErrorCode::Invalid)?;
        let source = named(self.sources.as_slice(), &a.source)?;
        check(is_supported(source, a), ErrorCode::NotSupported)?;
        check(self.has_room(conn), ErrorCode::TooLarge)?;
        let r = self.recording_of(conn, source, a.fragsize);
        let reply = reply::created(alloc, tag, source, a.maxlength.min(MAX_LENGTH), &r)?;
        Ok((r, reply))
    }

    // Adds a record stream.
    fn add(&mut self, r: Recording) -> Mem<()>
        requires lawful { IsRecording r }
        requires outputs { self.old.next_output < 4294967295 }
        ensures added { OnOk result (self.new ≡ with_stream r self.old) }
        ensures unchanged { OnErr result (self.new ≡ self.old) }
    {
        self.counts.reserve(1)?;
        self.streams.reserve(1)?;
        set_count(&mut self.counts, r.conn, r.stream + 1);
        self.streams.push_reserved(r);
        self.next_output += 1;
        Ok(())
    }

    // CREATE_RECORD_STREAM of a connection.
    fn create(
        &mut self,
        alloc: Global,
        conn: ConnId,
        tag: u32,
        a: &RecordFields,
    ) -> Result<Packet, Refusal>
        ensures value { IsDone result self.new (create conn tag a.now self.old) }
        ensures unchanged { OnErr result (self.new ≡ self.old) }
    {
        let (r, reply) = self.made(alloc, conn, tag, a)?;
        self.add(r)?;
        Ok(reply)
    }

    // DELETE_RECORD_STREAM of a connection.
    fn delete(
        &mut self,
        alloc: Global,
        conn: ConnId,
        tag: u32,
        stream: u32,
    ) -> Result<Packet, Refusal>
        ensures value { IsDone result self.new (delete conn tag stream self.old) }
        ensures unchanged { OnErr result (self.new ≡ self.old) }
    {
        check(
            is_there(self.streams.as_slice(), conn, stream),
            ErrorCode::NoEntity,
        )?;
        let reply = px_reply::plain(alloc, tag)?;
        drop_stream(&mut self.streams, conn, stream);
        Ok(reply)
    }

    // The reply to a command, or why it is refused.
    fn handled(
        &mut self,
        alloc: Global,
        conn: ConnId,
        tag: u32,
        request: Request,
    ) -> Result<Packet, Refusal>
        ensures value { IsDone result self.new (handled conn tag request self.old) }
        ensures unchanged { OnErr result (self.new ≡ self.old) }
    {
        match request {
            Request::Create(a) => self.create(alloc, conn, tag, &a),
            Request::Delete(stream) => self.delete(alloc, conn, tag, stream),
        }
    }

    // The answer to a command whose fields were read.
    fn replied(&mut self, alloc: Global, conn: ConnId, tag: u32, request: Request) -> Mem<Answer>
        ensures value { IsAnswer result self.new (replied tag self.old (handled conn tag request self.old)) }
        ensures unchanged { OnErr result (self.new ≡ self.old) }
    {
        match self.handled(alloc, conn, tag, request) {
            Ok(reply) => Ok(Answer::Packet(reply)),
            Err(Refusal::Code(code)) => refused(alloc, tag, code),
            Err(Refusal::NoMemory) => Err(NoMemory),
        }
    }

    /// The answer to a command of a connection, by its `version`. CREATE_RECORD_STREAM is refused, by the first of these that holds:
    /// `Invalid` for an unlawful spec or map, and where a source is named by both index and name; `NoEntity` where no such source
    /// exists; `NotSupported` for floating point, a variable rate, peak detection, a corked stream, a direct input, and a spec or a
    /// map that isn't the source's; `TooLarge` where the connection has 64 record streams, or no number is left. Format, rate and
    /// channel map are the source's where the client says so, and the first source is meant where none is named. DELETE_RECORD_STREAM
    /// is refused with `NoEntity` where the connection has no such record stream. After a fault in the fields, a refusal and
    /// `NoMemory` the table is as it was.
    pub fn answer(
        &mut self,
        alloc: Global,
        version: u16,
        conn: ConnId,
        packet: &[u8],
    ) -> Mem<Answer>
        ensures value { IsAnswer result self.new (answer version conn packet.now self.old) }
        ensures unchanged { OnErr result (self.new ≡ self.old) }
    {
        let mut reader = TagReader::new(packet);
        let head = match front(&mut reader) {
            Ok(head) => head,
            Err(fault) => return Ok(Answer::Fault(fault)),
        };
        match read_request(alloc, head.command, &mut reader, version) {
            Ok(request) => self.replied(alloc, conn, head.tag, request),
            Err(CmdFault::Protocol(fault)) => Ok(Answer::Fault(fault)),
            Err(CmdFault::Unknown(_) | CmdFault::Unsupported(_)) => {
                refused(alloc, head.tag, ErrorCode::NotSupported)
            }
            Err(CmdFault::NoMemory) => Err(NoMemory),
        }
    }

    /// The data frames of all record streams of a sink for bytes that it played, in order of creation, each stream's in frames of its
    /// `fragsize` bytes, the last one shorter.
    pub fn sent(&self, alloc: Global, sink: SinkId, bytes: &[u8]) -> Mem<Effects>
        ensures { IfOk result (λ effects. effects ≡ sent_of sink bytes.now self.now.streams) }
    {
        sent(alloc, self.streams.as_slice(), sink, bytes)
    }

    /// Drops the record streams of a connection that is closed, and forgets how many it has created. Takes no memory.
    pub fn forget(&mut self, conn: ConnId)
        ensures { self.new ≡ without_conn conn self.old }
    {
        drop_count(&mut self.counts, conn);
        drop_streams(&mut self.streams, conn);
    }
}
