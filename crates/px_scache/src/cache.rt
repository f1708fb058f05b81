//! The samples.

ghost use Rattle.std.specs.Prelude.{◌≡◌, ◌+◌, ◌<◌, ◌≤◌, [], true, length, find, vec_capacity, IfOk, OnOk, OnErr, IfSome};
ghost use Rattle.std.specs.List.{AllByRecursion, list_any};
ghost use Rattle.std.specs.Option.{option_map};
ghost use Rattle.px_scache.specs.Answers.{IsDone, IsCarried};
ghost use Rattle.px_scache.specs.Cache.{is_called, bytes_of_other, others, stored, bytes_in, has_room, sample_named, has_sample, without, finish, remove, IsSample, IsCache};

use crate::sample::Sample;
use px_cmd::Text;
use px_outcome::{Refusal, check};
use px_tag::Packet;
use px_types::{ErrorCode, Mem};
use std::alloc::Global;
use std::marker::Model;

/// The samples, each under its own name.
#[derive(Drop)]
pub struct Cache {
    samples: Vec<Sample>,
}

impl Model for Cache {
    ghost use Rattle.std.specs.Prelude.{List};
    ghost use Rattle.px_scache.specs.declared.sample.Sample.{Sample as Entry};
    ghost use Rattle.px_scache.specs.Cache.{IsCache};

    ghost Value = { List Entry };

    ghost view = { λ c. c.samples.items };

    ghost invariant = { λ c. IsCache c.samples.items };
}

// The most samples. Own.
const MAX_SAMPLES: usize = 256;

// The most bytes of all samples. Own.
const MAX_BYTES: usize = 67_108_864;

// Whether a sample has this name.
fn is_called(sample: &Sample, name: &[u8]) -> bool
    ensures { result ≡ is_called name.now sample.now }
{
    sample.name.as_slice() == name
}

// How many samples have other names.
fn count_others(samples: &[Sample], name: &[u8]) -> usize
    ensures { result ≡ length (others name.now samples.now) }
{
    samples
        .iter()
        .filter(|sample| !is_called(sample, name))
        .count()
}

// The bytes of a sample, where it has another name.
fn bytes_of_other(sample: &Sample, name: &[u8]) -> usize
    ensures { result ≡ bytes_of_other name.now sample.now }
{
    if is_called(sample, name) {
        0
    } else {
        sample.bytes.len()
    }
}

// The bytes of the samples that have other names.
fn bytes_of_others(samples: &[Sample], name: &[u8]) -> usize
    requires { bytes_in samples.now ≤ 67108864 }
    ensures value { result ≡ bytes_in (others name.now samples.now) }
    ensures few { result ≤ 67108864 }
{
    let mut bytes: usize = 0;
    for sample in samples {
        bytes += bytes_of_other(sample, name);
    }
    bytes
}

// The sample with a name.
fn found<'a>(samples: &'a [Sample], name: &[u8]) -> Option<&'a Sample>
    ensures { option_map (λ s. s.now) result ≡ find (is_called name.now) samples.now }
{
    samples.iter().find(|sample| is_called(sample, name))
}

// Whether there is a sample with this name.
fn is_there(samples: &[Sample], name: &[u8]) -> bool
    ensures { result ≡ list_any (is_called name.now) samples.now }
{
    samples.iter().any(|sample| is_called(sample, name))
}

// Drops the sample with a name.
fn drop_sample(samples: &mut Vec<Sample>, name: &[u8])
    ensures items { samples.new.items ≡ others name.now samples.old.items }
    ensures capacity { vec_capacity samples.new ≡ vec_capacity samples.old }
    ensures len { length samples.new.items ≤ length samples.old.items }
    ensures lawful { IsCache samples.old.items → IsCache samples.new.items }
{
    samples.retain(|sample| !is_called(sample, name));
}

// Puts a sample in place of one of its name, where there is room for one more.
fn replace(samples: &mut Vec<Sample>, sample: Sample)
    requires room { length samples.old.items + 1 ≤ vec_capacity samples.old }
    requires lawful { IsCache samples.old.items }
    requires sample { IsSample sample }
    requires fits { length sample.bytes + bytes_in (others sample.name samples.old.items) ≤ 67108864 }
    ensures items { samples.new.items ≡ stored sample samples.old.items }
    ensures lawful { IsCache samples.new.items }
{
    drop_sample(samples, sample.name.as_slice());
    samples.push_reserved(sample);
}

impl Cache {
    /// No samples. Takes no memory.
    pub fn new(alloc: Global) -> Cache
        ensures { result ≡ [] }
    {
        Cache {
            samples: Vec::new(alloc),
        }
    }

    /// The sample with a name, `None` where there is none, as for the null string. Takes no memory.
    pub fn get(&self, name: &Option<Text>) -> Option<&Sample>
        ensures value { option_map (λ s. s.now) result ≡ sample_named name.now self.now }
        ensures lawful { IfSome result (λ s. IsSample s.now) }
    {
        match name {
            None => None,
            Some(name) => match found(self.samples.as_slice(), name.as_slice()) {
                None => None,
                Some(sample) => Some(sample),
            },
        }
    }

    // Whether a sample can be stored in place of one of its name.
    fn has_room(&self, sample: &Sample) -> bool
        requires { IsSample sample.now }
        ensures value { result ≡ has_room sample.now self.now }
        ensures fits { result ≡ true → length sample.now.bytes + bytes_in (others sample.now.name self.now) ≤ 67108864 }
    {
        let name = sample.name.as_slice();
        count_others(self.samples.as_slice(), name) < MAX_SAMPLES
            && sample.bytes.len() + bytes_of_others(self.samples.as_slice(), name) <= MAX_BYTES
    }

    // Stores a sample under its name, in place of one there.
    fn store(&mut self, sample: Sample) -> Mem<()>
        requires lawful { IsSample sample }
        requires fits { length sample.bytes + bytes_in (others sample.name self.old) ≤ 67108864 }
        ensures stored { OnOk result (self.new ≡ stored sample self.old) }
        ensures unchanged { OnErr result (self.new ≡ self.old) }
    {
        self.samples.reserve(1)?;
        replace(&mut self.samples, sample);
        Ok(())
    }

    /// The end of FINISH_UPLOAD_STREAM: the sample is stored under its name, in place of one there. It is refused with `TooLarge` where there
    /// are 256 samples of other names, or where they have more than 67,108,864 bytes together with it. After a refusal the cache is as it was.
    #[tactic(auto, using(crate::proofs::Sent::reply_carried))]
    pub fn finish(&mut self, alloc: Global, tag: u32, sample: Sample) -> Result<Packet, Refusal>
        requires { IsSample sample }
        ensures carried { IfOk result IsCarried }
        ensures value { IsDone result self.new (finish tag sample self.old) }
        ensures unchanged { OnErr result (self.new ≡ self.old) }
    {
        check(self.has_room(&sample), ErrorCode::TooLarge)?;
        let reply = px_reply::plain(alloc, tag)?;
        self.store(sample)?;
        Ok(reply)
    }

    // Whether there is a sample with a name.
    fn contains(&self, name: &Option<Text>) -> bool
        ensures { result ≡ has_sample name.now self.now }
    {
        match name {
            None => false,
            Some(name) => is_there(self.samples.as_slice(), name.as_slice()),
        }
    }

    // Drops the sample with a name.
    fn drop_named(&mut self, name: &Option<Text>)
        ensures { self.new ≡ without name.now self.old }
    {
        if let Some(name) = name {
            drop_sample(&mut self.samples, name.as_slice());
        }
    }

    /// REMOVE_SAMPLE, refused with `NoEntity` where there is no sample with this name. After a refusal the cache is as it was.
    #[tactic(auto, using(crate::proofs::Sent::reply_carried))]
    pub fn remove(
        &mut self,
        alloc: Global,
        tag: u32,
        name: &Option<Text>,
    ) -> Result<Packet, Refusal>
        ensures carried { IfOk result IsCarried }
        ensures value { IsDone result self.new (remove tag name.now self.old) }
        ensures unchanged { OnErr result (self.new ≡ self.old) }
    {
        check(self.contains(name), ErrorCode::NoEntity)?;
        let reply = px_reply::plain(alloc, tag)?;
        self.drop_named(name);
        Ok(reply)
    }
}
