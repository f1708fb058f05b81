use px_ends::{Clock, MemClock, Moments};
use px_types::Mem;
use std::alloc::Global;

// Whether a clock of `moments` gives `wanted`, call by call.
fn gives_moments(alloc: Global, moments: &[u64], wanted: &[u64]) -> Mem<bool> {
    let mut list = Vec::new(alloc);
    list.extend_from_slice(moments)?;
    let mut clock = MemClock::new(Moments::from_vec(list));
    let mut right = true;
    for moment in wanted {
        right = clock.now() == *moment && right;
    }
    Ok(right)
}

#[test]
fn a_clock_gives_its_moments_and_then_the_last_again(rt: HostRuntime) {
    let falls = gives_moments(rt.alloc(), &[3, 3, 7, 2, 9], &[3, 3, 7, 7, 9, 9]);
    assert!(rt;
        matches!(falls, Ok(true)) && matches!(gives_moments(rt.alloc(), &[], &[0, 0]), Ok(true))
    );
}
