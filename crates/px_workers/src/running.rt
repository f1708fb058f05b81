//! A job in its thread.
ghost use Rattle.std.specs.Prelude.{◌≡◌, [], IfSome, IfOk, IfErr};
ghost use Rattle.std.specs.Arc.{arc_value};
ghost use Rattle.crossbeam_queue.specs.Passes.{IsPassOf};
ghost use Rattle.px_mail.specs.Mailbox.{key_of, taken_by};
ghost use Rattle.px_workers.specs.Jobs.{given_to};

use crate::handed::{Handed, works};
use crate::job::Job;
use px_mail::{Mailbox, Shared, TakePass};
use std::alloc::Global;
use std::snapshot::Snapshot;
use std::sync::{Arc, Wait};
use std::thread;
use std::thread::{Promise, PromisedHandle, Threads};

/// The promise of a job's thread: the job that it hands back is related (`keeps`) to the one that it was given.
#[derive(Drop)]
pub struct PreservesJob<J>(Snapshot<J>);

impl<J: Job> Promise<J> for PreservesJob<J> {
    ghost kept_by = { λ promise after. J.keeps promise.0.value after };
}

/// A job that a thread works at.
#[derive(Drop)]
pub struct Running<J: Job> {
    handle: PromisedHandle<J, PreservesJob<J>>,
}

impl<J: Job> Running<J> {
    /// Waits for the end of the work, and hands the job back.
    pub fn join<R: Threads>(self, rt: &R) -> J
        ensures { J.keeps (given_to self) result }
    {
        let Running { handle } = self;
        handle.join(rt)
    }
}

// Starts the thread that waits for a job of that mailbox.
fn waiting<R, J>(
    rt: &R,
    mailbox: Arc<Mailbox<Handed<J>>>,
    take: TakePass<Handed<J>>,
    given: Snapshot<J>,
    promised: Snapshot<J>,
) -> Option<Running<J>>
where
    R: Threads + Wait + Copy + Send + Sync + 'static,
    J: Job + 'static,
    requires pass { IsPassOf (arc_value mailbox).queue take.pass }
    requires key { IfSome (key_of take.pass) (λ key. key.value ≡ promised.value) }
    requires none { taken_by take.pass ≡ [] }
    requires same { given.value ≡ promised.value }
    ensures { IfSome result (λ running. given_to running ≡ given.value) }
{
    let theirs_rt = *rt;
    let started = thread::spawn_with(
        rt,
        PreservesJob(given),
        move || -> J
            requires { IsPassOf (arc_value mailbox).queue take.pass × IfSome (key_of take.pass) (λ key. key.value ≡ promised.value) × (taken_by take.pass ≡ []) }
            ensures { J.keeps promised.value result }
        { works(&theirs_rt, &mailbox, take, &promised) },
    );
    match started {
        Ok(handle) => Some(Running { handle }),
        Err(_) => None,
    }
}

/// Starts a thread that does the job's work once. The job goes to it only when it is there, so where there is no memory or no thread can be
/// started, the very job comes back, unworked.
pub fn start<R, J>(rt: &R, alloc: Global, job: J) -> Result<Running<J>, J>
where
    R: Threads + Wait + Copy + Send + Sync + 'static,
    J: Job + 'static,
    ensures ok { IfOk result (λ running. given_to running ≡ job) }
    ensures err { IfErr result (λ back. back ≡ job) }
{
    let Ok(shared) = Shared::<Handed<J>>::new(alloc, Snapshot::of(&job)) else {
        return Err(job);
    };
    let Shared {
        mailbox,
        twin,
        mut post,
        take,
    } = shared;
    let Some(running) = waiting(rt, twin, take, Snapshot::of(&job), Snapshot::of(&job)) else {
        return Err(job);
    };
    match mailbox.post(rt, &mut post, Handed { job }) {
        Ok(()) => Ok(running),
        Err(_) => unreachable!(),
    }
}
