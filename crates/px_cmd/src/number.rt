//! The numbers of the supported commands, by their names in `pulsecore/native-common.h` without `PA_COMMAND_`.

ghost use Rattle.std.specs.Prelude.{◌≡◌, ℕ, is_some};
ghost use Rattle.px_cmd.specs.Table.{kinds_of};

pub const CREATE_PLAYBACK_STREAM: u32 = 3;

pub const DELETE_PLAYBACK_STREAM: u32 = 4;

pub const AUTH: u32 = 8;

pub const SET_CLIENT_NAME: u32 = 9;

pub const LOOKUP_SINK: u32 = 10;

pub const DRAIN_PLAYBACK_STREAM: u32 = 12;

pub const GET_PLAYBACK_LATENCY: u32 = 14;

pub const GET_SERVER_INFO: u32 = 20;

pub const GET_SINK_INFO: u32 = 21;

pub const GET_SINK_INFO_LIST: u32 = 22;

pub const GET_SOURCE_INFO_LIST: u32 = 24;

pub const GET_MODULE_INFO_LIST: u32 = 26;

pub const GET_CLIENT_INFO: u32 = 27;

pub const GET_CLIENT_INFO_LIST: u32 = 28;

pub const GET_SINK_INPUT_INFO: u32 = 29;

pub const GET_SINK_INPUT_INFO_LIST: u32 = 30;

pub const GET_SOURCE_OUTPUT_INFO_LIST: u32 = 32;

pub const GET_SAMPLE_INFO_LIST: u32 = 34;

pub const SUBSCRIBE: u32 = 35;

pub const SET_SINK_VOLUME: u32 = 36;

pub const SET_SINK_INPUT_VOLUME: u32 = 37;

pub const SET_SINK_MUTE: u32 = 39;

pub const CORK_PLAYBACK_STREAM: u32 = 41;

pub const FLUSH_PLAYBACK_STREAM: u32 = 42;

pub const TRIGGER_PLAYBACK_STREAM: u32 = 43;

pub const SET_DEFAULT_SINK: u32 = 44;

pub const SET_PLAYBACK_STREAM_NAME: u32 = 46;

pub const KILL_CLIENT: u32 = 48;

pub const KILL_SINK_INPUT: u32 = 49;

pub const PREBUF_PLAYBACK_STREAM: u32 = 60;

pub const MOVE_SINK_INPUT: u32 = 67;

pub const SET_SINK_INPUT_MUTE: u32 = 69;

pub const SET_PLAYBACK_STREAM_BUFFER_ATTR: u32 = 72;

pub const UPDATE_PLAYBACK_STREAM_PROPLIST: u32 = 81;

pub const UPDATE_CLIENT_PROPLIST: u32 = 82;

pub const REMOVE_PLAYBACK_STREAM_PROPLIST: u32 = 84;

pub const REMOVE_CLIENT_PROPLIST: u32 = 85;

pub const GET_CARD_INFO_LIST: u32 = 89;

/// Whether a command with this number is in the table, which has the same numbers at every version. Takes no memory.
pub fn is_command(number: u32) -> bool
    ensures { (version : ℕ) → result ≡ is_some (kinds_of version number) }
{
    matches!(
        number,
        CREATE_PLAYBACK_STREAM
            | DELETE_PLAYBACK_STREAM
            | AUTH
            | SET_CLIENT_NAME
            | LOOKUP_SINK
            | DRAIN_PLAYBACK_STREAM
            | GET_PLAYBACK_LATENCY
            | GET_SERVER_INFO
            | GET_SINK_INFO
            | GET_SINK_INFO_LIST
            | GET_SOURCE_INFO_LIST
            | GET_MODULE_INFO_LIST
            | GET_CLIENT_INFO
            | GET_CLIENT_INFO_LIST
            | GET_SINK_INPUT_INFO
            | GET_SINK_INPUT_INFO_LIST
            | GET_SOURCE_OUTPUT_INFO_LIST
            | GET_SAMPLE_INFO_LIST
            | SUBSCRIBE
            | SET_SINK_VOLUME
            | SET_SINK_INPUT_VOLUME
            | SET_SINK_MUTE
            | CORK_PLAYBACK_STREAM
            | FLUSH_PLAYBACK_STREAM
            | TRIGGER_PLAYBACK_STREAM
            | SET_DEFAULT_SINK
            | SET_PLAYBACK_STREAM_NAME
            | KILL_CLIENT
            | KILL_SINK_INPUT
            | PREBUF_PLAYBACK_STREAM
            | MOVE_SINK_INPUT
            | SET_SINK_INPUT_MUTE
            | SET_PLAYBACK_STREAM_BUFFER_ATTR
            | UPDATE_PLAYBACK_STREAM_PROPLIST
            | UPDATE_CLIENT_PROPLIST
            | REMOVE_PLAYBACK_STREAM_PROPLIST
            | REMOVE_CLIENT_PROPLIST
            | GET_CARD_INFO_LIST
    )
}
