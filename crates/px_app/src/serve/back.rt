//! Hands what was made for a serving call back to its host.
ghost use Rattle.std.specs.Prelude.{◌≡◌, length};
ghost use Rattle.px_server.specs.Hosted.{HasLent};
ghost use Rattle.px_server.specs.Serving.{cores_in};
ghost use Rattle.px_app.specs.Back.{TakesParts, TakesCores};

use px_ends::Host;
use px_server::LanePart;
use std::collections::VecDeque;

/// Hands back what is left of the sinks, in their order. Takes no memory.
pub(crate) fn hand_parts<H: Host>(host: &mut H, lanes: Vec<LanePart<H::D, H::R>>, cores: u8)
    requires { HasLent (length lanes.items) cores (H.now host.old) }
    ensures parts { TakesParts H.D.now H.R.faults H.R.fulls lanes.items (H.now host.old) (H.now host.new) }
    ensures lent { HasLent 0 cores (H.now host.new) }
    ensures dialled { H.dialled host.new ≡ H.dialled host.old }
{
    let mut left = VecDeque::from_vec(lanes);
    while let Some(part) = left.pop_front() {
        host.retire(part.sink, part.device, part.recorder);
    }
}

/// Hands back the core's recorder, where there is one. Takes no memory.
pub(crate) fn hand_core<H: Host>(host: &mut H, core: Option<H::C>)
    requires { HasLent 0 (cores_in core) (H.now host.old) }
    ensures host { TakesCores H.C.faults H.C.fulls core (H.now host.old) (H.now host.new) }
    ensures dialled { H.dialled host.new ≡ H.dialled host.old }
{
    if let Some(recorder) = core {
        host.retire_core(recorder);
    }
}
