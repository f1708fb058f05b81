// A message as plain numbers and bytes.
ghost use Rattle.std.specs.Prelude.{◌≡◌, map, length, IfOk};
ghost use Rattle.std.specs.List.{concat};
ghost use Rattle.px_block.specs.HeldBlock.{contents};
ghost use Rattle.px_msg.specs.View.{opened, gains};
ghost use Rattle.px_model.specs.Message.{Message};
ghost use Rattle.px_lane.specs.Lists.{plain_message};
ghost use Rattle.px_lane_cell.specs.Meaning.{attr_meant, factors_meant, stream_meant, message_meant, messages_meant};

use px_annals::{Numbers, PlainFactorList, PlainFactors, PlainMsg, PlainMsgs, PlainStream};
use px_block::{Block, Blocks};
use px_chmap::Feed;
use px_lane::MsgList;
use px_model::Attr;
use px_msg::{FactorList, InputFactors, Msg, NewStream};
use px_stream::Stream;
use px_types::{InputId, Mem, Text};
use px_vol::Factors;
use std::alloc::Global;

// Copies numbers to a list.
fn copied(alloc: Global, numbers: &[u32]) -> Mem<Numbers>
    ensures { IfOk result (λ copy. copy ≡ numbers.now) }
{
    let mut copy = Vec::new(alloc);
    copy.extend_from_slice(numbers)?;
    Ok(Numbers::from_vec(copy))
}

// Copies channels as numbers.
fn widened(alloc: Global, channels: &[u8]) -> Mem<Numbers>
    ensures { IfOk result (λ numbers. numbers ≡ channels.now) }
{
    let mut numbers = Vec::new(alloc);
    for channel in channels {
        numbers.push(u32::from(*channel))?;
    }
    Ok(Numbers::from_vec(numbers))
}

// The four attributes, in order.
fn listed(attr: &Attr) -> [u32; 4]
    ensures { attr_meant result ≡ attr.now }
{
    [attr.maxlength, attr.tlength, attr.prebuf, attr.minreq]
}

// The bytes of all blocks, in order.
fn bytes_of(alloc: Global, blocks: &[Block]) -> Mem<Text>
    ensures { IfOk result (λ bytes. bytes ≡ concat (contents blocks.now)) }
{
    let mut bytes = Vec::new(alloc);
    for block in blocks {
        bytes.extend_from_slice(block.bytes())?;
    }
    Ok(Text::from_vec(bytes))
}

// The factors of one input.
fn plain_gains(alloc: Global, one: &InputFactors) -> Mem<PlainFactors>
    ensures { IfOk result (λ plain. factors_meant plain ≡ gains one.now) }
{
    Ok(PlainFactors {
        input: one.input.0,
        factors: copied(alloc, one.factors.values())?,
    })
}

// The factors of each input.
fn plain_factors(alloc: Global, list: &[InputFactors]) -> Mem<PlainFactorList>
    ensures { IfOk result (λ each. map factors_meant each ≡ map gains list.now) }
{
    let mut each = Vec::new(alloc);
    for one in list {
        each.push(plain_gains(alloc, one)?)?;
    }
    Ok(PlainFactorList::from_vec(each))
}

// A parcel: the stream of an Attach.
#[tactic(auto, using(crate::proofs::Meant::stream_same))]
fn plain_stream(alloc: Global, stream: &Stream) -> Mem<PlainStream>
    ensures { IfOk result (λ plain. stream_meant plain ≡ stream.now.stream) }
{
    stream.draining();
    stream.plain(alloc)
}

// A new stream.
fn plain_new(alloc: Global, new: &NewStream) -> Mem<PlainMsg>
    ensures { IfOk result (λ plain. message_meant plain ≡ Message.new (opened new.now)) }
{
    Ok(PlainMsg::New {
        input: new.input.0,
        format: new.spec.format.code(),
        channels: new.spec.channels,
        rate: new.spec.rate,
        feed: widened(alloc, new.feed.channels())?,
        factors: copied(alloc, new.factors.values())?,
        attr: listed(&new.attr),
        corked: new.corked,
    })
}

// A stream that comes from another sink.
fn plain_attach(
    alloc: Global,
    input: InputId,
    parcel: &Stream,
    feed: &Feed,
    factors: &Factors,
) -> Mem<PlainMsg>
    ensures { IfOk result (λ plain. message_meant plain ≡ Message.attach input.0 parcel.now.stream feed.now factors.now) }
{
    let feed = widened(alloc, feed.channels())?;
    let factors = copied(alloc, factors.values())?;
    Ok(PlainMsg::Attach {
        input: input.0,
        parcel: plain_stream(alloc, parcel)?,
        feed,
        factors,
    })
}

// Frames for a stream.
fn plain_write(
    alloc: Global,
    input: InputId,
    seek: u8,
    offset: i64,
    frames: u32,
    bytes: &Blocks,
) -> Mem<PlainMsg>
    ensures { IfOk result (λ plain. message_meant plain ≡ Message.write (record { input = input.0; seek = seek; offset = offset; frames = frames; bytes = bytes.now })) }
{
    Ok(PlainMsg::Write {
        input: input.0,
        seek,
        offset,
        frames,
        bytes: bytes_of(alloc, bytes.as_slice())?,
    })
}

// New factors for some inputs.
fn plain_regained(alloc: Global, list: &FactorList) -> Mem<PlainMsg>
    ensures { IfOk result (λ plain. message_meant plain ≡ Message.factors (map gains list.now)) }
{
    Ok(PlainMsg::Factors(plain_factors(alloc, list.as_slice())?))
}

/// A message to a sink as plain numbers and bytes, as a history holds it: it means the same message.
pub fn plain_message(alloc: Global, message: &Msg<Stream>) -> Mem<PlainMsg>
    ensures { IfOk result (λ plain. message_meant plain ≡ plain_message message.now) }
{
    match message {
        Msg::New(new) => plain_new(alloc, new),
        Msg::Attach {
            input,
            parcel,
            feed,
            factors,
        } => plain_attach(alloc, *input, parcel, feed, factors),
        Msg::Detach { input } => Ok(PlainMsg::Detach { input: input.0 }),
        Msg::Write {
            input,
            seek,
            offset,
            frames,
            bytes,
        } => plain_write(alloc, *input, *seek, *offset, *frames, bytes),
        Msg::Cork { input, on } => Ok(PlainMsg::Cork {
            input: input.0,
            on: *on,
        }),
        Msg::Flush { input } => Ok(PlainMsg::Flush { input: input.0 }),
        Msg::Trigger { input } => Ok(PlainMsg::Trigger { input: input.0 }),
        Msg::Prebuf { input } => Ok(PlainMsg::Prebuf { input: input.0 }),
        Msg::Drain { input, tag } => Ok(PlainMsg::Drain {
            input: input.0,
            tag: *tag,
        }),
        Msg::Attr { input, attr } => Ok(PlainMsg::Attr {
            input: input.0,
            attr: listed(attr),
        }),
        Msg::Factors(list) => plain_regained(alloc, list),
        Msg::Query { input, tag } => Ok(PlainMsg::Query {
            input: input.0,
            tag: *tag,
        }),
    }
}

/// All messages of a list as plain data, in order.
pub(crate) fn plain_messages(alloc: Global, messages: &MsgList) -> Mem<PlainMsgs>
    ensures { IfOk result (λ plain. messages_meant plain ≡ messages.now.messages) }
{
    let mut plain = Vec::new(alloc);
    for at in 0..messages.len() {
        let Some(message) = messages.get(at) else {
            unreachable!()
        };
        plain.push(plain_message(alloc, message)?)?;
    }
    Ok(PlainMsgs::from_vec(plain))
}
