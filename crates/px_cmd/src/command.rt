//! The commands of versions 13 to 18, with their fields as the packet has them.

use crate::text::{Keys, Text};
use px_tag::{PropList, RawMap, RawSpec, RawVolume, TimeVal};

/// How a packet names a sink: by index, 0xFFFFFFFF for none, or by name, `None` for the null string.
#[derive(Drop)]
pub struct SinkRef {
    pub index: u32,
    pub name: Option<Text>,
}

/// The fields of CREATE_PLAYBACK_STREAM. `asked` is maxlength, tlength, prebuf and minreq, in bytes. An `Option<bool>` is `None` exactly
/// where the connection's version doesn't have the field.
#[derive(Drop)]
pub struct CreateFields {
    pub spec: RawSpec,
    pub map: RawMap,
    pub sink: SinkRef,
    pub asked: [u32; 4],
    pub corked: bool,
    pub syncid: u32,
    pub volume: RawVolume,
    pub no_remap: bool,
    pub no_remix: bool,
    pub fix_format: bool,
    pub fix_rate: bool,
    pub fix_channels: bool,
    pub no_move: bool,
    pub variable_rate: bool,
    pub muted: bool,
    pub adjust_latency: bool,
    pub list: PropList,
    pub volume_set: Option<bool>,
    pub early_requests: Option<bool>,
    pub muted_set: Option<bool>,
    pub dont_inhibit_auto_suspend: Option<bool>,
    pub fail_on_suspend: Option<bool>,
    pub relative_volume: Option<bool>,
    pub passthrough: Option<bool>,
}

/// A command of a client (`pulsecore/native-common.h`), with its fields as the packet has them, checked only by the rules of items. The
/// five commands whose lists are always empty share `EmptyList`.
#[derive(Drop)]
pub enum Command {
    Auth {
        version: u32,
        cookie: Text,
    },
    SetClientName {
        list: PropList,
    },
    LookupSink {
        name: Option<Text>,
    },
    Create(CreateFields),
    Delete {
        stream: u32,
    },
    Drain {
        stream: u32,
    },
    Latency {
        stream: u32,
        time: TimeVal,
    },
    ServerInfo,
    SinkInfo {
        sink: SinkRef,
    },
    SinkInfoList,
    ClientInfo {
        client: u32,
    },
    ClientInfoList,
    InputInfo {
        input: u32,
    },
    InputInfoList,
    EmptyList {
        number: u32,
    },
    Subscribe {
        mask: u32,
    },
    SinkVolume {
        sink: SinkRef,
        volume: RawVolume,
    },
    InputVolume {
        input: u32,
        volume: RawVolume,
    },
    SinkMute {
        sink: SinkRef,
        on: bool,
    },
    InputMute {
        input: u32,
        on: bool,
    },
    Cork {
        stream: u32,
        on: bool,
    },
    Flush {
        stream: u32,
    },
    Trigger {
        stream: u32,
    },
    Prebuf {
        stream: u32,
    },
    DefaultSink {
        name: Option<Text>,
    },
    StreamName {
        stream: u32,
        name: Option<Text>,
    },
    KillClient {
        client: u32,
    },
    KillInput {
        input: u32,
    },
    Move {
        input: u32,
        sink: SinkRef,
    },
    Attributes {
        stream: u32,
        asked: [u32; 4],
        adjust_latency: bool,
        early_requests: Option<bool>,
    },
    UpdateStream {
        stream: u32,
        mode: u32,
        list: PropList,
    },
    UpdateClient {
        mode: u32,
        list: PropList,
    },
    RemoveStream {
        stream: u32,
        keys: Keys,
    },
    RemoveClient {
        keys: Keys,
    },
}
