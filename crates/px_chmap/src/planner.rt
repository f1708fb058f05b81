ghost use Rattle.std.specs.Prelude.{◌≡◌, ◌≤◌, ◌<◌, length, take, replicate, position, ◌==◌, IfSome};
ghost use Rattle.std.specs.List.{list_all};
ghost use Rattle.px_chmap.specs.ChannelMap.{IsChannelMap};
ghost use Rattle.px_chmap.specs.Plan.{plan_of, has_position, is_distinct, is_rearranged, channel_at, by_index, by_position, FeedsAll, IsFeed};

use crate::feed::Feed;
use crate::map::Map;

fn has_position(positions: &[u8], position: u8) -> bool
    ensures { result ≡ has_position positions.now position }
{
    positions.iter().any(|other| *other == position)
}

fn is_distinct(positions: &[u8]) -> bool
    ensures { result ≡ is_distinct positions.now }
{
    match positions {
        [] => true,
        [first, rest @ ..] => !has_position(rest, *first) && is_distinct(rest),
    }
}

fn has_all(positions: &[u8], wanted: &[u8]) -> bool
    ensures { result ≡ list_all (has_position positions.now) wanted.now }
{
    wanted
        .iter()
        .all(|position| has_position(positions, *position))
}

fn is_rearranged(from: &[u8], to: &[u8]) -> bool
    ensures { result ≡ is_rearranged from.now to.now }
{
    is_distinct(from) && is_distinct(to) && has_all(to, from) && has_all(from, to)
}

fn first_at(positions: &[u8], wanted: u8) -> Option<usize>
    ensures { result ≡ position (λ p. p == wanted) positions.now }
{
    positions.iter().position(|other| *other == wanted)
}

fn channel_at(positions: &[u8], wanted: u8) -> usize
    ensures value { result ≡ channel_at positions.now wanted }
    ensures within { 0 < length positions.now → result < length positions.now }
{
    first_at(positions, wanted).unwrap_or(0)
}

fn feed_of(channels: &[u8]) -> Feed
    requires { IsFeed channels.now }
    ensures { result ≡ channels.now }
{
    Feed::new(channels).unwrap()
}

fn fed_by_index(count: usize) -> Feed
    requires some { 0 < count }
    requires few { count ≤ 32 }
    ensures { result ≡ by_index count }
{
    let mut items = [0; 32];
    let channels = &mut items[..count];
    for (index, channel) in channels.iter_mut().enumerate() {
        *channel = index as u8;
    }
    feed_of(channels)
}

fn fed_by_position(from: &[u8], to: &[u8]) -> Feed
    requires stream { IsChannelMap from.now }
    requires sink { IsChannelMap to.now }
    ensures { result ≡ by_position from.now to.now }
{
    let mut items = [0; 32];
    let channels = &mut items[..to.len()];
    for (index, channel) in channels.iter_mut().enumerate() {
        *channel = channel_at(from, to[index]) as u8;
    }
    feed_of(channels)
}

fn fed_by_one(count: usize) -> Feed
    requires some { 0 < count }
    requires few { count ≤ 32 }
    ensures { result ≡ replicate count 0 }
{
    feed_of(&[0; 32][..count])
}

fn first_plan(from: &[u8], to: &[u8], no_remap: bool, no_remix: bool) -> Option<Feed>
    requires stream { IsChannelMap from.now }
    requires sink { IsChannelMap to.now }
    ensures { result ≡ plan_of from.now to.now no_remap no_remix }
{
    if from == to || (no_remap && from.len() == to.len()) {
        Some(fed_by_index(to.len()))
    } else if is_rearranged(from, to) {
        Some(fed_by_position(from, to))
    } else if !no_remix && from.len() == 1 {
        Some(fed_by_one(to.len()))
    } else {
        None
    }
}

/// The channel plan from a stream with the map `from` to a sink with the map `to`: the first of these that applies. Equal maps, by index;
/// with `no_remap`, equal counts, by index; distinct positions on both sides and the same set of them, by position; without `no_remix`, a
/// stream of one channel, which feeds all. `None` exactly where none applies (own: PulseAudio mixes channels there). Takes no memory.
/// Source: the flags are `PA_STREAM_NO_REMAP_CHANNELS` and `PA_STREAM_NO_REMIX_CHANNELS` of PulseAudio's `pulse/def.h`.
#[tactic(auto, using(crate::proofs::PlanLemmas::plan_fits))]
pub fn plan(from: &Map, to: &Map, no_remap: bool, no_remix: bool) -> Option<Feed>
    ensures value { result ≡ plan_of from.now to.now no_remap no_remix }
    ensures fits { IfSome result (λ feed. FeedsAll (length from.now) (length to.now) feed) }
{
    first_plan(from.positions(), to.positions(), no_remap, no_remix)
}
