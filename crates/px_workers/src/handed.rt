//! A job on its way to its thread.
ghost use Rattle.std.specs.Prelude.{◌≡◌, [], IfSome};
ghost use Rattle.crossbeam_queue.specs.Passes.{IsPassOf};
ghost use Rattle.px_mail.specs.Mailbox.{key_of, taken_by};

use crate::job::Job;
use px_mail::{Letter, Mailbox, TakePass};
use std::snapshot::Snapshot;
use std::sync::Wait;
use std::thread;

/// A job in a mailbox. Lawful is the one that the mailbox was made for, and no other.
#[derive(Drop)]
pub struct Handed<J> {
    pub job: J,
}

impl<J: Job> Letter for Handed<J> {
    ghost use Rattle.std.specs.Prelude.{◌≡◌};
    ghost use Rattle.std.specs.List.{AllByRecursion};

    type Key = Snapshot<J>;

    ghost lawful = { λ key letters. AllByRecursion (λ letter. letter.job ≡ key.value) letters };

    ghost begins = { λ key. tt };
}

/// Waits for the job of a mailbox, and does its work.
pub fn works<R: Wait, J: Job>(
    rt: &R,
    mailbox: &Mailbox<Handed<J>>,
    mut take: TakePass<Handed<J>>,
    given: &Snapshot<J>,
) -> J
    requires pass { IsPassOf mailbox.now.queue take.pass }
    requires key { IfSome (key_of take.pass) (λ key. key.value ≡ given.now.value) }
    requires none { taken_by take.pass ≡ [] }
    ensures { J.keeps given.now.value result }
{
    for _ in rt.forever() {
        match mailbox.take(rt, &mut take) {
            Some(handed) => {
                let Handed { mut job } = handed;
                job.work();
                return job;
            }
            None => thread::yield_now(),
        }
    }
    unreachable!()
}
