ghost use Rattle.crossbeam_queue.specs.Passes.{IsPassOf};

use px_mail::{Full, Letter, Mailbox, PostPass, TakePass};
use px_types::Mem;
use std::alloc::Global;
use std::sync::Wait;
use std::thread;
use std::thread::Threads;

// The number of letters to post.
const LETTERS: u32 = 100_000;

// A numbered letter; every list of them is lawful.
#[derive(Drop)]
struct Numbered(u32);

impl Letter for Numbered {
    ghost use Rattle.std.specs.Prelude.{⊤};

    type Key = ();

    ghost lawful = { λ key letters. ⊤ };

    ghost begins = { λ key. tt };
}

// Posts 256 letters, of which none comes back.
fn fills<R: Wait>(rt: &R, mailbox: &Mailbox<Numbered>, post: &mut PostPass<Numbered>) -> bool
    requires { IsPassOf mailbox.now.queue post.old.pass }
    ensures { IsPassOf mailbox.now.queue post.new.pass }
{
    for number in 0..256 {
        if mailbox.post(rt, post, Numbered(number)).is_err() {
            return false;
        }
    }
    true
}

#[test]
fn a_full_mailbox_hands_the_letter_back(rt: HostRuntime) -> Mem<()> {
    let (mailbox, mut post, mut take) = Mailbox::<Numbered>::new(rt.alloc(), ())?;
    let full = fills(&rt, &mailbox, &mut post)
        && matches!(
            mailbox.post(&rt, &mut post, Numbered(256)),
            Err(Full(Numbered(256)))
        )
        && matches!(mailbox.take(&rt, &mut take), Some(Numbered(0)))
        && mailbox.post(&rt, &mut post, Numbered(256)).is_ok();
    mailbox.close(post, take);
    assert!(rt; full);
    Ok(())
}

// Posts all letters in the order of their numbers, each again for as long as the mailbox is full.
fn sends<R: Wait>(
    rt: &R,
    mailbox: &Mailbox<Numbered>,
    mut post: PostPass<Numbered>,
) -> PostPass<Numbered>
    requires { IsPassOf mailbox.now.queue post.pass }
    ensures { IsPassOf mailbox.now.queue result.pass }
{
    let mut next = 0;
    for _ in rt.forever() {
        if next >= LETTERS {
            break;
        }
        match mailbox.post(rt, &mut post, Numbered(next)) {
            Ok(()) => next += 1,
            Err(_) => thread::yield_now(),
        }
    }
    post
}

// Takes `LETTERS` letters, and returns whether each had the next number.
fn receives<R: Wait>(
    rt: &R,
    mailbox: &Mailbox<Numbered>,
    mut take: TakePass<Numbered>,
) -> (TakePass<Numbered>, bool)
    requires { IsPassOf mailbox.now.queue take.pass }
    ensures { IsPassOf mailbox.now.queue result.0.pass }
{
    let mut next = 0;
    let mut in_order = true;
    for _ in rt.forever() {
        if next >= LETTERS {
            break;
        }
        match mailbox.take(rt, &mut take) {
            Some(Numbered(number)) => {
                in_order = in_order && number == next;
                next += 1;
            }
            None => thread::yield_now(),
        }
    }
    (take, in_order)
}

// Two threads, one at each end. Afterwards nothing is left.
fn exchanges<R: Threads + Wait + Sync>(rt: &R, alloc: Global) -> Mem<bool> {
    let (mailbox, post, take) = Mailbox::<Numbered>::new(alloc, ())?;
    let shared = &mailbox;
    let (post, (mut take, in_order)) = thread::join(
        rt,
        move || -> PostPass<Numbered>
            requires { IsPassOf shared.now.queue post.pass }
            ensures { IsPassOf shared.entry.now.queue result.pass }
        { sends(rt, shared, post) },
        move || -> (TakePass<Numbered>, bool)
            requires { IsPassOf shared.now.queue take.pass }
            ensures { IsPassOf shared.entry.now.queue result.0.pass }
        { receives(rt, shared, take) },
    );
    let empty = shared.take(rt, &mut take).is_none();
    shared.close(post, take);
    Ok(in_order && empty)
}

#[test]
fn a_hundred_thousand_letters_arrive_in_order_and_each_once(rt: HostRuntime) {
    assert!(rt; matches!(exchanges(&rt, rt.alloc()), Ok(true)));
}
