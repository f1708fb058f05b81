//! The uploads of all connections.

ghost use Rattle.std.specs.Prelude.{◌≡◌, ◌+◌, ◌<◌, ◌≤◌, ◌++◌, ◌∷◌, [], true, not, length, filter, find, vec_capacity, IfOk, OnOk, OnErr};
ghost use Rattle.std.specs.List.{AllByRecursion, list_any, position};
ghost use Rattle.std.specs.Option.{option_map};
ghost use Rattle.px_outcome.specs.Handled.{HandledAs};
ghost use Rattle.px_scache.specs.Answers.{IsDone, IsCarried};
ghost use Rattle.px_scache.specs.Cache.{IsSample};
ghost use Rattle.px_scache.specs.Uploads.{no_uploads, is_by, uploads_of, is_upload, has_upload, counts_for, next_of, other_counters, with_counter, with_upload, without_upload, without_conn, change_first, added, written, has_room, made, create, delete, finished, sample_of, IsUpload};

use crate::checks::{is_lawful, is_supported, is_whole, named, spec_of};
use crate::fields::UploadFields;
use crate::reply;
use crate::sample::Sample;
use crate::upload::{Counter, Upload};
use px_chmap::Map;
use px_outcome::{Refusal, check};
use px_tag::Packet;
use px_types::{ConnId, ErrorCode, Mem, Text};
use std::alloc::Global;
use std::marker::Model;

/// The uploads that aren't finished, of all connections.
#[derive(Drop)]
pub struct Uploads {
    counters: Vec<Counter>,
    list: Vec<Upload>,
}

impl Model for Uploads {
    ghost use Rattle.std.specs.List.{AllByRecursion};
    ghost use Rattle.px_scache.specs.Uploads.{Uploads as Table, IsUpload};

    ghost Value = { Table };

    ghost view = { λ u. record { counters = u.counters.items; list = u.list.items } };

    ghost invariant = { λ u. AllByRecursion IsUpload u.list.items };
}

// The stream number of a connection's first upload. Own.
const FIRST_STREAM: u32 = 0x8000_0000;

// The number that no stream has.
const LAST_STREAM: u32 = 0xFFFF_FFFF;

// The most bytes of a sample. Own.
const MAX_BYTES: u32 = 1_048_576;

// The most uploads of a connection. Own.
const MAX_UPLOADS: usize = 16;

// How many uploads a connection has.
fn count_uploads(list: &[Upload], conn: ConnId) -> usize
    ensures { result ≡ length (uploads_of conn list.now) }
{
    list.iter().filter(|u| u.conn.0 == conn.0).count()
}

// Whether a connection has an upload with this number.
fn is_there(list: &[Upload], conn: ConnId, stream: u32) -> bool
    ensures { result ≡ list_any (is_upload conn stream) list.now }
{
    list.iter()
        .any(|u| u.conn.0 == conn.0 && u.stream == stream)
}

// The place of a connection's upload with this number.
fn place_of(list: &[Upload], conn: ConnId, stream: u32) -> Option<usize>
    ensures { result ≡ position (is_upload conn stream) list.now }
{
    list.iter()
        .position(|u| u.conn.0 == conn.0 && u.stream == stream)
}

// A connection's upload with this number.
fn found(list: &[Upload], conn: ConnId, stream: u32) -> Option<&Upload>
    ensures { option_map (λ u. u.now) result ≡ find (is_upload conn stream) list.now }
{
    list.iter()
        .find(|u| u.conn.0 == conn.0 && u.stream == stream)
}

// The counter of a connection, where it has one.
fn counted(counters: &[Counter], conn: ConnId) -> Option<&Counter>
    ensures { option_map (λ c. c.now) result ≡ find (counts_for conn) counters.now }
{
    counters.iter().find(|c| c.conn.0 == conn.0)
}

// The stream number of a connection's next upload.
fn next_of(counters: &[Counter], conn: ConnId) -> u32
    ensures { result ≡ next_of conn counters.now }
{
    match counted(counters, conn) {
        None => FIRST_STREAM,
        Some(c) => c.next,
    }
}

// Drops the counter of a connection.
fn drop_counter(counters: &mut Vec<Counter>, conn: ConnId)
    ensures items { counters.new.items ≡ other_counters conn counters.old.items }
    ensures capacity { vec_capacity counters.new ≡ vec_capacity counters.old }
    ensures len { length counters.new.items ≤ length counters.old.items }
{
    counters.retain(|c| c.conn.0 != conn.0);
}

// Sets the counter of a connection, where there is room for one more.
fn set_counter(counters: &mut Vec<Counter>, conn: ConnId, next: u32)
    requires { length counters.old.items + 1 ≤ vec_capacity counters.old }
    ensures { counters.new.items ≡ with_counter conn next counters.old.items }
{
    drop_counter(counters, conn);
    counters.push_reserved(Counter { conn, next });
}

// Drops an upload.
fn drop_upload(list: &mut Vec<Upload>, conn: ConnId, stream: u32)
    ensures items { list.new.items ≡ filter (λ u. not (is_upload conn stream u)) list.old.items }
    ensures lawful { AllByRecursion IsUpload list.old.items → AllByRecursion IsUpload list.new.items }
{
    list.retain(|u| !(u.conn.0 == conn.0 && u.stream == stream));
}

// Drops the uploads of a connection.
fn drop_uploads(list: &mut Vec<Upload>, conn: ConnId)
    ensures items { list.new.items ≡ filter (λ u. not (is_by conn u)) list.old.items }
    ensures lawful { AllByRecursion IsUpload list.old.items → AllByRecursion IsUpload list.new.items }
{
    list.retain(|u| u.conn.0 != conn.0);
}

// The sample of a whole upload.
fn sample_of(alloc: Global, u: &Upload) -> Mem<Sample>
    requires lawful { IsUpload u.now }
    requires whole { length u.now.bytes ≡ u.now.length }
    ensures value { IfOk result (λ sample. sample ≡ sample_of u.now) }
    ensures lawful { IfOk result IsSample }
{
    let name = Text::copied(alloc, u.name.as_slice())?;
    let bytes = Text::copied(alloc, u.bytes.as_slice())?;
    Ok(Sample {
        name,
        spec: u.spec,
        map: u.map,
        bytes,
    })
}

impl Uploads {
    /// No uploads. Takes no memory.
    pub fn new(alloc: Global) -> Uploads
        ensures { result ≡ no_uploads }
    {
        Uploads {
            counters: Vec::new(alloc),
            list: Vec::new(alloc),
        }
    }

    /// Whether a connection has an upload with this stream number. Takes no memory.
    pub fn contains(&self, conn: ConnId, stream: u32) -> bool
        ensures { result ≡ has_upload conn stream self.now }
    {
        is_there(self.list.as_slice(), conn, stream)
    }

    // Whether a connection can have this upload too.
    fn has_room(&self, conn: ConnId, a: &UploadFields) -> bool
        ensures value { result ≡ has_room conn a.now self.now }
        ensures bytes { result ≡ true → a.now.length ≤ 1048576 }
        ensures streams { result ≡ true → next_of conn self.now.counters < 4294967295 }
    {
        a.length <= MAX_BYTES
            && count_uploads(self.list.as_slice(), conn) < MAX_UPLOADS
            && next_of(self.counters.as_slice(), conn) < LAST_STREAM
    }

    // The upload that a connection asks for.
    fn made(&self, alloc: Global, conn: ConnId, a: &UploadFields) -> Result<Upload, Refusal>
        ensures value { HandledAs result (made conn a.now self.now) }
        ensures lawful { IfOk result IsUpload }
        ensures streams { IfOk result (λ u. u.stream < 4294967295) }
    {
        let name = named(&a.name)?;
        check(is_lawful(a), ErrorCode::Invalid)?;
        check(is_supported(a), ErrorCode::NotSupported)?;
        check(is_whole(a), ErrorCode::Invalid)?;
        check(self.has_room(conn, a), ErrorCode::TooLarge)?;
        let name = Text::copied(alloc, name)?;
        Ok(Upload {
            conn,
            stream: next_of(self.counters.as_slice(), conn),
            name,
            spec: spec_of(a.spec),
            map: Map::new(a.map.as_slice()).unwrap(),
            length: a.length,
            bytes: Text::from_vec(Vec::new(alloc)),
        })
    }

    // Adds an upload.
    fn add(&mut self, u: Upload) -> Mem<()>
        requires lawful { IsUpload u }
        requires streams { u.stream < 4294967295 }
        ensures added { OnOk result (self.new ≡ with_upload u self.old) }
        ensures unchanged { OnErr result (self.new ≡ self.old) }
    {
        self.counters.reserve(1)?;
        self.list.reserve(1)?;
        set_counter(&mut self.counters, u.conn, u.stream + 1);
        self.list.push_reserved(u);
        Ok(())
    }

    /// CREATE_UPLOAD_STREAM of a connection. It is refused, by the first of these that holds: `Invalid` for no name, an empty one, an
    /// unlawful spec or map; `NotSupported` for floating point; `Invalid` where the sample has no bytes or not whole frames; `TooLarge` where
    /// it has more than 1,048,576 bytes, the connection has 16 uploads, or no number is left. After a refusal the uploads are as they were.
    #[tactic(auto, using(crate::proofs::Sent::created_carried))]
    pub fn create(
        &mut self,
        alloc: Global,
        conn: ConnId,
        tag: u32,
        a: &UploadFields,
    ) -> Result<Packet, Refusal>
        ensures carried { IfOk result IsCarried }
        ensures value { IsDone result self.new (create conn tag a.now self.old) }
        ensures unchanged { OnErr result (self.new ≡ self.old) }
    {
        let u = self.made(alloc, conn, a)?;
        let reply = reply::created(alloc, tag, u.stream, u.length)?;
        self.add(u)?;
        Ok(reply)
    }

    /// DELETE_UPLOAD_STREAM of a connection, refused with `NoEntity` where it has no such upload. After a refusal the uploads are as they
    /// were.
    #[tactic(auto, using(crate::proofs::Sent::reply_carried))]
    pub fn delete(
        &mut self,
        alloc: Global,
        conn: ConnId,
        tag: u32,
        stream: u32,
    ) -> Result<Packet, Refusal>
        ensures carried { IfOk result IsCarried }
        ensures value { IsDone result self.new (delete conn tag stream self.old) }
        ensures unchanged { OnErr result (self.new ≡ self.old) }
    {
        check(self.contains(conn, stream), ErrorCode::NoEntity)?;
        let reply = px_reply::plain(alloc, tag)?;
        self.remove(conn, stream);
        Ok(reply)
    }

    /// The sample of a connection's upload: `NoEntity` where it has no such upload, `BadState` where not all of its bytes have come.
    pub fn finished(&self, alloc: Global, conn: ConnId, stream: u32) -> Result<Sample, Refusal>
        ensures value { HandledAs result (finished conn stream self.now) }
        ensures lawful { IfOk result IsSample }
    {
        match found(self.list.as_slice(), conn, stream) {
            None => Err(Refusal::Code(ErrorCode::NoEntity)),
            Some(u) => {
                check(u.bytes.len() == u.length as usize, ErrorCode::BadState)?;
                Ok(sample_of(alloc, u)?)
            }
        }
    }

    /// Ends an upload. Takes no memory.
    pub fn remove(&mut self, conn: ConnId, stream: u32)
        ensures { self.new ≡ without_upload conn stream self.old }
    {
        drop_upload(&mut self.list, conn, stream);
    }

    /// A data frame of a connection, at byte `offset` by the mode `seek`: at offset 0 from the write index its bytes are added to the upload
    /// with this stream number, up to the upload's length; else it is ignored. Without memory nothing is added.
    pub fn write(
        &mut self,
        conn: ConnId,
        stream: u32,
        offset: i64,
        seek: u8,
        bytes: &[u8],
    ) -> Mem<()>
        ensures value { OnOk result (self.new ≡ written conn stream offset seek bytes.now self.old) }
        ensures unchanged { OnErr result (self.new ≡ self.old) }
    {
        if offset != 0 || seek != 0 {
            return Ok(());
        }
        add_data(&mut self.list, conn, stream, bytes)
    }

    /// Drops the uploads of a connection that is closed, and its counter. Takes no memory.
    pub fn forget(&mut self, conn: ConnId)
        ensures { self.new ≡ without_conn conn self.old }
    {
        drop_counter(&mut self.counters, conn);
        drop_uploads(&mut self.list, conn);
    }
}

// Adds data to an upload, up to its length.
fn add_to(u: &mut Upload, bytes: &[u8]) -> Mem<()>
    requires { IsUpload u.old }
    ensures added { OnOk result (u.new ≡ added bytes.now u.old) }
    ensures unchanged { OnErr result (u.new ≡ u.old) }
    ensures lawful { IsUpload u.new }
{
    let left = u.length as usize - u.bytes.len();
    u.bytes.extend(&bytes[..left.min(bytes.len())])
}

// Adds data to a connection's upload with this stream number.
fn add_data(list: &mut Vec<Upload>, conn: ConnId, stream: u32, bytes: &[u8]) -> Mem<()>
    requires { AllByRecursion IsUpload list.old.items }
    ensures value { OnOk result (list.new.items ≡ change_first (is_upload conn stream) (added bytes.now) list.old.items) }
    ensures unchanged { OnErr result (list.new.items ≡ list.old.items) }
    ensures lawful { AllByRecursion IsUpload list.new.items }
{
    match place_of(list.as_slice(), conn, stream) {
        None => Ok(()),
        Some(place) => add_to(&mut list[place], bytes),
    }
}
