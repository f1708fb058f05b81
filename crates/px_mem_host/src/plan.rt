// The settings of a link of a host in memory.
ghost use Rattle.std.specs.Prelude.{◌≡◌, IfOk};
ghost use Rattle.px_mem_host.specs.HostLink.{new_dialled};

use px_ends::{Calls, MemLink};
use px_types::{Mem, NoMemory, Text};
use std::alloc::Global;
use std::marker::Model;
use std::sync::{Arc, Mutex, Wait};

/// A link to be handed out: the bytes that it gives, how many it takes, the numbers of its calls that find it not ready and of those that fail, and
/// how many bytes are to be sent before it gives the end.
#[derive(Drop)]
pub struct LinkPlan {
    pub bytes: Text,
    pub room: usize,
    pub late: Calls,
    pub fail: Calls,
    pub end_after: usize,
    /// What was sent, shared with the test. It is emptied when its host is made.
    pub sent: Arc<Mutex<Text>>,
}

impl LinkPlan {
    // Empties the list of sent bytes, with room for all that the link takes. Without memory it is unchanged.
    fn clear<R: Wait>(&self, rt: &R, alloc: Global) -> Mem<()> {
        let room = Vec::with_capacity(alloc, self.room)?;
        *self.sent.lock(rt) = Text::from_vec(room);
        Ok(())
    }
}

/// A link to be dialled: the bytes that it gives before the end, how many it takes, and the numbers of its calls that find it not ready and of those
/// that fail.
#[derive(Drop)]
pub struct DialPlan {
    pub bytes: Text,
    pub room: usize,
    pub late: Calls,
    pub fail: Calls,
}

impl DialPlan {
    // The link of these settings.
    pub(crate) fn into_link(self, alloc: Global) -> Mem<MemLink>
        ensures { IfOk result (λ link. link ≡ new_dialled self) }
    {
        MemLink::new(alloc, self.bytes, self.room, self.late, self.fail)
    }
}

/// Links in the order in which they are handed out.
#[derive(Drop)]
pub struct LinkPlans {
    plans: Vec<LinkPlan>,
}

impl Model for LinkPlans {
    ghost use Rattle.std.specs.Prelude.{List};
    ghost use Rattle.px_mem_host.specs.declared.plan.LinkPlan.{LinkPlan};

    ghost Value = { List LinkPlan };

    ghost view = { λ p. p.plans.items };
}

impl LinkPlans {
    /// These links. Takes no memory.
    pub fn from_vec(plans: Vec<LinkPlan>) -> LinkPlans
        ensures { result ≡ plans.items }
    {
        LinkPlans { plans }
    }

    /// Empties the list of what each link is sent, with room for all that it takes.
    pub(crate) fn clear<R: Wait>(&self, rt: &R, alloc: Global) -> Mem<()> {
        for plan in self.plans.iter() {
            plan.clear(rt, alloc)?;
        }
        Ok(())
    }

    /// The links as a vector. Takes no memory.
    pub fn into_vec(self) -> Vec<LinkPlan>
        ensures { result.items ≡ self }
    {
        self.plans
    }
}
