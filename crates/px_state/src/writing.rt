//! Posting of frames that a client writes to the sink of their stream.

ghost use Rattle.std.specs.Prelude.{◌≡◌, Some, IfErr, OnOk, OnErr};
ghost use Rattle.px_ctl_play.specs.Data.{written};
ghost use Rattle.px_state.specs.Answered.{answered};
ghost use Rattle.px_state.specs.State.{input_of};
ghost use Rattle.px_state.specs.Tables.{state_of};

use crate::commit::{post_to_input, reserve};
use crate::tables::Tables;
use px_block::Blocks;
use px_ctl_play::Frames;
use px_outcome::Input;

/// Posts these frames to their stream's sink. Where there is no memory for them the bytes are handed back, and nothing has
/// changed.
pub fn post_frames<P: Drop>(
    tables: &mut Tables<P>,
    input: Input,
    frames: Frames,
    seek: u8,
    bytes: Blocks,
) -> Result<(), Blocks>
    requires { input_of tables.old.inputs.items input.index ≡ Some input }
    ensures after { OnOk result (state_of tables.new ≡ answered (state_of tables.old) (written (Some frames) input seek bytes)) }
    ensures back { IfErr result (λ back. back ≡ bytes) }
    ensures err { OnErr result (state_of tables.new ≡ state_of tables.old) }
{
    match reserve(tables, 1) {
        Err(_) => Err(bytes),
        Ok(()) => {
            post_to_input(
                tables,
                &input,
                px_ctl_play::write(&input, frames, seek, bytes),
            );
            Ok(())
        }
    }
}
