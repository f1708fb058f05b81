//! What the host is asked for while workers start and clients come.
ghost use Rattle.std.specs.Prelude.{◌≡◌, ◌+◌, ◌<◌, IfErr, OnOk};
ghost use Rattle.px_workers.specs.Hosted.{IsLater, IsCalm, IsCauseOf};

use crate::stop::Stop;
use px_ends::{Accepted, Host};
use std::alloc::Global;

/// Whether the host lets one more worker start.
pub(crate) fn ask<H: Host>(host: &mut H) -> Result<(), Stop>
    ensures later { IsLater (H.now host.old) (H.now host.new) }
    ensures calm { OnOk result (IsCalm (H.now host.old) (H.now host.new)) }
    ensures lent { (H.now host.new).lent ≡ (H.now host.old).lent }
    ensures cause { IfErr result (λ stop. IsCauseOf stop (H.now host.old) (H.now host.new)) }
    ensures dialled { H.dialled host.new ≡ H.dialled host.old }
{
    if host.may_start() {
        Ok(())
    } else {
        Err(Stop::Host)
    }
}

/// The next client's link and its sending half, where the host lets its worker start, or why there is none.
pub(crate) fn next_link<H: Host>(alloc: Global, host: &mut H) -> Result<(H::L, Option<H::O>), Stop>
    ensures links { OnOk result (((H.now host.old).links < 65535) × ((H.now host.new).links ≡ (H.now host.old).links + 1)) }
    ensures later { IsLater (H.now host.old) (H.now host.new) }
    ensures calm { OnOk result (IsCalm (H.now host.old) (H.now host.new)) }
    ensures lent { (H.now host.new).lent ≡ (H.now host.old).lent }
    ensures cause { IfErr result (λ stop. IsCauseOf stop (H.now host.old) (H.now host.new)) }
    ensures dialled { H.dialled host.new ≡ H.dialled host.old }
{
    match host.accept(alloc) {
        Accepted::Link(mut link) => {
            if !host.may_start() {
                return Err(Stop::Host);
            }
            let outlet = host.outlet(&mut link);
            Ok((link, outlet))
        }
        Accepted::Over => Err(Stop::Over),
        Accepted::NoMemory => Err(Stop::Memory),
        Accepted::Failed => Err(Stop::Host),
    }
}
