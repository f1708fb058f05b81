//! The limits of the server and of its protocol, each under one name. Where PulseAudio has the limit, its file is named.
//! px_tag, which stands on no crate, has its own `CHANNELS_MAX` and `VALUE_MAX`.

/// The greatest version of the native protocol that the server speaks: `PA_PROTOCOL_VERSION` of PulseAudio's `configure`.
pub const PROTOCOL_VERSION: u16 = 18;

/// The least version that a client may have: one below it is refused. Own: PulseAudio takes clients from version 8 on.
pub const LEAST_PROTOCOL_VERSION: u16 = 13;

/// The most clients that are connected at a time: `MAX_CONNECTIONS` of `pulsecore/protocol-native.c`.
pub const MAX_CONNECTIONS: usize = 64;

/// The most sinks of a server. Own.
pub const MAX_SINKS: usize = 16;

/// The most inputs that play on a sink or move to it: `MAX_INPUTS_PER_SINK` of `pulsecore/sink.h`.
pub const MAX_INPUTS_ON_SINK: usize = 256;

/// The most inputs of a server, over all its sinks. Own.
pub const MAX_INPUTS: usize = 1_024;

/// The most channels of a stream or a sink: `PA_CHANNELS_MAX` of `pulse/sample.h`.
pub const MAX_CHANNELS: u8 = 32;

/// The most frames a second of a stream or a sink. Own.
pub const MAX_RATE: u32 = 192_000;

/// The most frames that a sink may hold past the consumed ones, its depth. Own.
pub const MAX_DEPTH: u32 = 65_536;

/// The most bytes that a stream may hold, its `maxlength`: `MAX_MEMBLOCKQ_LENGTH` of `pulsecore/protocol-native.c`.
pub const MAX_LENGTH: u32 = 4_194_304;

/// The most bytes of a packet's payload: `FRAME_SIZE_MAX_ALLOW` of `pulsecore/pstream.c`.
pub const MAX_PAYLOAD: u32 = 16_777_216;

/// The most messages, or notices, that wait in the mailbox between the core and a sink. Own.
pub const MAILBOX_PLACES: usize = 256;

/// The greatest write or read index of a stream, and count of frames that a sink has filled, 2^60. Own.
pub const MAX_INDEX: u64 = 1 << 60;

/// The most bytes of a recorded session, 2^40. Own.
pub const MAX_SESSION: u64 = 1 << 40;

/// The most bytes of one Bytes event of a recorded session of the first form. Own.
pub const MAX_EVENT_BYTES: usize = 65_536;

/// The most bytes of one Bytes event of a recorded session of the second form. Own.
pub const MAX_LONG_EVENT_BYTES: usize = 1_048_576;

/// The most entries of a history that is held in memory. Own.
pub const MAX_HISTORY_ENTRIES: usize = 65_536;

/// The most bytes of a history that is held in memory. Own.
pub const MAX_HISTORY_BYTES: usize = 268_435_456;

/// The index that names nothing: `PA_INVALID_INDEX` of `pulse/def.h`.
pub const NO_INDEX: u32 = 0xFFFF_FFFF;

/// The tag of a message that answers no command: `(uint32_t) -1` in `pulsecore/protocol-native.c`.
pub const NO_TAG: u32 = 0xFFFF_FFFF;

/// A buffer attribute that the client leaves to the server: `(uint32_t) -1` of `pa_buffer_attr` in `pulse/def.h`.
pub const UNSET: u32 = 0xFFFF_FFFF;

/// The channel of control packets: every other channel is a stream's. `(uint32_t) -1` in `pulsecore/pstream.c`.
pub const CONTROL_CHANNEL: u32 = 0xFFFF_FFFF;
