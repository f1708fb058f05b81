// The outlet type of connections without one.
ghost use Rattle.std.specs.Prelude.{◌≡◌, ◌<◌, length};

use crate::{Outlet, Sent};

/// The outlet type of links without one, such as links in memory: no call gives one. Each of its sends fails.
#[derive(Clone, Copy, Debug, PartialEq, Eq)]
pub struct NoOutlet {
    faults: u64,
}

impl Outlet for NoOutlet {
    ghost use Rattle.std.specs.Prelude.{None};

    ghost sent = { λ _. None };

    ghost counts = { λ o. record { faults = o.faults; ends = 0; not_yets = 0 } };

    fn send(&mut self, _bytes: &[u8]) -> Sent {
        self.faults = self.faults.saturating_add(1);
        Sent::Failed
    }

    fn shut(&mut self) {}
}
