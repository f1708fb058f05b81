//! Frames that a client writes (PulseAudio: `pstream_memblock_callback` of `pulsecore/protocol-native.c`).

ghost use Rattle.std.specs.Prelude.{◌≡◌, ◌≤◌, Some, length, IfErr, OnOk, OnErr};
ghost use Rattle.px_ctl_play.specs.Data.{data_for};
ghost use Rattle.px_state.specs.State.{input_of, stream_of};
ghost use Rattle.px_core.specs.Consistency.{IsRising};
ghost use Rattle.px_core.specs.Step.{answered};
ghost use Rattle.px_state.specs.Tables.{state_of};

use px_block::Blocks;
use px_ctl_play::frames_of;
use px_outcome::Input;
use px_state::{Tables, post_frames};
use px_types::ConnId;

// Writes bytes to an existing stream.
fn write_to<P: Drop>(
    tables: &mut Tables<P>,
    input: Input,
    offset: i64,
    seek: u8,
    bytes: Blocks,
) -> Result<(), Blocks>
    requires there { input_of tables.old.inputs.items input.index ≡ Some input }
    requires few { length bytes ≤ 16777216 }
    ensures after { OnOk result (state_of tables.new ≡ answered (state_of tables.old) (data_for (Some input) offset seek bytes)) }
    ensures back { IfErr result (λ back. back ≡ bytes) }
    ensures err { OnErr result (state_of tables.new ≡ state_of tables.old) }
{
    match frames_of(&input, offset, bytes.len()) {
        None => { Ok(()) }
        Some(frames) => post_frames(tables, input, frames, seek, bytes),
    }
}

/// Bytes that a client writes to a stream, at byte `offset`, which is relative to what the seek mode says. They are posted
/// to the stream's sink; where the connection has no such stream, or they aren't whole frames, they are ignored. Where there
/// is no memory they are handed back, and nothing has changed. The stream is found without a walk over the inputs.
pub(crate) fn write<P: Drop>(
    tables: &mut Tables<P>,
    conn: ConnId,
    stream: u32,
    offset: i64,
    seek: u8,
    bytes: Blocks,
) -> Result<(), Blocks>
    requires rising { IsRising tables.old.inputs.items }
    requires few { length bytes ≤ 16777216 }
    ensures after { OnOk result (state_of tables.new ≡ answered (state_of tables.old) (data_for (stream_of tables.old.inputs.items conn stream) offset seek bytes)) }
    ensures back { IfErr result (λ back. back ≡ bytes) }
    ensures err { OnErr result (state_of tables.new ≡ state_of tables.old) }
{
    match tables.inputs.stream_of(conn, stream) {
        None => { Ok(()) }
        Some(input) => {
            let input = *input;
            write_to(tables, input, offset, seek, bytes)
        }
    }
}
