// The reading of what the server answers.

ghost use Rattle.std.specs.Prelude.{◌≡◌, IfOk};
ghost use Rattle.px_tag.specs.Place.{Gives, GivesList};
ghost use Rattle.px_cmd.specs.Packet.{head_at, HeadGives};
ghost use Rattle.px_client.specs.Answers.{owner_at, loudness_at, state_at, input_at, inputs_at, only_number, fields_at, reply_by, refusal_by, judged, Takes};

use crate::awaited::Awaited;
use crate::inputs::{Input, Inputs};
use px_cmd::Head;
use px_tag::{ListFault, Mem, NoMemory, RawVolume, TagFault, TagReader};
use px_types::limits::NO_TAG;
use std::alloc::Global;

/// The command of an error: `PA_COMMAND_ERROR`.
const ERROR: u32 = 0;

/// The command of a reply: `PA_COMMAND_REPLY`.
const REPLY: u32 = 2;

/// What a packet is to a client that waits for a reply.
#[derive(Drop)]
pub(crate) enum Verdict {
    /// A message of the server's own, which answers nothing.
    Message,
    /// The awaited reply, with its inputs: none, where it has none.
    Reply(Inputs),
    /// An error with this code.
    Refusal(u32),
    /// None of these.
    Other,
}

// The packet's command and tag.
#[tactic(auto, unfolding(px_cmd::specs::Packet::head_at))]
fn front(reader: &mut TagReader) -> Result<Head, TagFault>
    ensures { HeadGives (λ head. (head.command, head.tag)) result reader.new (head_at reader.old) }
{
    let command = reader.number()?;
    let tag = reader.number()?;
    Ok(Head { command, tag })
}

// An input's index and its sink's, after which come its name, its module and its client.
#[tactic(auto, unfolding(crate::specs::Answers::owner_at))]
fn owner(reader: &mut TagReader) -> Result<(u32, u32), TagFault>
    ensures { HeadGives (λ pair. (pair.0, pair.1)) result reader.new (owner_at reader.old) }
{
    let index = reader.number()?;
    let _name = reader.text()?;
    let _module = reader.number()?;
    let _client = reader.number()?;
    let sink = reader.number()?;
    Ok((index, sink))
}

// An input's volume, after its sample spec and its map.
#[tactic(auto, unfolding(crate::specs::Answers::loudness_at))]
fn loudness(reader: &mut TagReader) -> Result<RawVolume, TagFault>
    ensures { HeadGives (λ volume. volume) result reader.new (loudness_at reader.old) }
{
    let _spec = reader.spec()?;
    let _map = reader.map()?;
    let volume = reader.cvolume()?;
    Ok(volume)
}

// An input's mute, after its latencies, resample method and driver, and its properties.
#[tactic(auto, unfolding(crate::specs::Answers::state_at))]
fn state(alloc: Global, reader: &mut TagReader) -> Result<bool, ListFault>
    ensures { Takes (λ mute. mute) result reader.new (state_at reader.old) }
{
    let _buffered = reader.usec()?;
    let _latency = reader.usec()?;
    let _method = reader.text()?;
    let _driver = reader.text()?;
    let mute = reader.flag()?;
    let _list = reader.proplist(alloc)?;
    Ok(mute)
}

#[tactic(auto, unfolding(crate::specs::Answers::input_at))]
fn input(alloc: Global, reader: &mut TagReader) -> Result<Input, ListFault>
    ensures { Takes (λ input. input) result reader.new (input_at reader.old) }
{
    let (index, sink) = owner(reader)?;
    let volume = loudness(reader)?;
    let mute = state(alloc, reader)?;
    Ok(Input {
        index,
        sink,
        volume,
        mute,
    })
}

// The inputs up to the packet's end. Each has at least one byte, so `most`, the packet's length, bounds their number.
fn inputs(alloc: Global, reader: &mut TagReader, most: usize) -> Result<Inputs, ListFault>
    ensures { GivesList (λ inputs. inputs) result (inputs_at most reader.old) }
{
    let mut inputs = Inputs::new(alloc);
    for _ in 0..most {
        match reader.end() {
            Ok(()) => return Ok(inputs),
            Err(_) => {}
        }
        inputs.push(input(alloc, reader)?)?;
    }
    reader.end()?;
    Ok(inputs)
}

// The number that is all that is left.
#[tactic(auto, unfolding(crate::specs::Answers::only_number))]
fn only_number(reader: &mut TagReader) -> Result<u32, TagFault>
    ensures { Gives (λ number. number) result (only_number reader.old) }
{
    let number = reader.number()?;
    reader.end()?;
    Ok(number)
}

// The fields of the awaited reply, in a packet of `most` bytes.
fn fields(
    alloc: Global,
    reader: &mut TagReader,
    most: usize,
    awaited: Awaited,
) -> Result<Inputs, ListFault>
    ensures { GivesList (λ inputs. inputs) result (fields_at awaited most reader.old) }
{
    match awaited {
        Awaited::Version | Awaited::Client => {
            let _number = only_number(reader)?;
            Ok(Inputs::new(alloc))
        }
        Awaited::Nothing => {
            reader.end()?;
            Ok(Inputs::new(alloc))
        }
        Awaited::List => inputs(alloc, reader, most),
    }
}

// The rest of a reply with the awaited tag, in a packet of `most` bytes.
fn reply(alloc: Global, reader: &mut TagReader, most: usize, awaited: Awaited) -> Mem<Verdict>
    ensures { IfOk result (λ verdict. verdict ≡ reply_by (fields_at awaited most reader.old)) }
{
    match fields(alloc, reader, most, awaited) {
        Ok(inputs) => Ok(Verdict::Reply(inputs)),
        Err(ListFault::Tag(_)) => Ok(Verdict::Other),
        Err(ListFault::NoMemory) => Err(NoMemory),
    }
}

// The rest of an error with the awaited tag.
fn refusal(reader: &mut TagReader) -> Verdict
    ensures { result ≡ refusal_by (only_number reader.old) }
{
    match only_number(reader) {
        Ok(code) => Verdict::Refusal(code),
        Err(_) => Verdict::Other,
    }
}

/// What a packet is to a client that waits for a reply. Takes memory for the inputs.
#[tactic(auto, unfolding(crate::specs::Answers::judged))]
pub(crate) fn judge(alloc: Global, packet: &[u8], awaited: Awaited) -> Mem<Verdict>
    ensures { IfOk result (λ verdict. verdict ≡ judged awaited packet.now) }
{
    let mut reader = TagReader::new(packet);
    let Ok(head) = front(&mut reader) else {
        return Ok(Verdict::Other);
    };
    if head.tag == NO_TAG {
        return Ok(Verdict::Message);
    }
    if head.tag != awaited.tag() {
        return Ok(Verdict::Other);
    }
    match head.command {
        REPLY => reply(alloc, &mut reader, packet.len(), awaited),
        ERROR => Ok(refusal(&mut reader)),
        _ => Ok(Verdict::Other),
    }
}
