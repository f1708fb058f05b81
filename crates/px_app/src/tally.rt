//! The counts of a run.

ghost use Rattle.std.specs.Prelude.{◌≡◌, ◌+◌, ◌-◌, ◌^◌};
ghost use Rattle.px_app.specs.Summary.{AreFew, is_sent, is_closed, sent_in, closed_in, tallied};

use px_core::Effect;

/// The number of events that were played, and of their effects.
#[derive(Clone, Copy, Debug)]
pub(crate) struct Tally {
    pub events: u64,
    /// Frames of packets that went to clients.
    pub sent: u128,
    /// Connections that the server has ended.
    pub closed: u128,
}

fn is_sent(effect: &Effect) -> bool
    ensures { result ≡ is_sent effect.now }
{
    match effect {
        Effect::Sent { .. } => true,
        Effect::Closed { .. } => false,
    }
}

fn is_closed(effect: &Effect) -> bool
    ensures { result ≡ is_closed effect.now }
{
    match effect {
        Effect::Sent { .. } => false,
        Effect::Closed { .. } => true,
    }
}

// The number of frames of packets that these effects send.
fn sent_in(effects: &[Effect]) -> u64
    ensures { result ≡ sent_in effects.now }
{
    let mut count = 0;
    for effect in effects {
        if is_sent(effect) {
            count += 1;
        }
    }
    count
}

// The number of connections that these effects end.
fn closed_in(effects: &[Effect]) -> u64
    ensures { result ≡ closed_in effects.now }
{
    let mut count = 0;
    for effect in effects {
        if is_closed(effect) {
            count += 1;
        }
    }
    count
}

impl Tally {
    /// A tally with all counts 0.
    pub(crate) fn new() -> Tally
        ensures { result ≡ record { events = 0; sent = 0; closed = 0 } }
    {
        Tally {
            events: 0,
            sent: 0,
            closed: 0,
        }
    }

    /// Counts one more event, which has these effects.
    pub(crate) fn add(&mut self, effects: &[Effect])
        requires { AreFew self.old (2 ^ 40 - 1) }
        ensures value { self.new ≡ tallied self.old effects.now }
        ensures few { AreFew self.new (self.old.events + 1) }
    {
        self.events += 1;
        self.sent += u128::from(sent_in(effects));
        self.closed += u128::from(closed_in(effects));
    }
}
