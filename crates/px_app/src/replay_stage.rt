//! The stage of a replay: a world that the session's events are done in, and the lens that it is seen through.

ghost use Rattle.std.specs.Prelude.{◌≡◌, ◌<◌, ◌^◌, ◌-◌, [], ℕ, IfOk, IfErr};
ghost use Rattle.px_ends.specs.Visible.{after_adding};
ghost use Rattle.px_header.specs.HeaderRules.{IsHeader};
ghost use Rattle.px_app.specs.Replay.{IsAfter, Unmade};
ghost use Rattle.px_app.specs.Stage.{AddsPart};
ghost use Rattle.px_app.specs.Summary.{AreFew};
ghost use Rattle.px_app.specs.View.{shown_of, lens_of, ending_of};

use crate::ending::Ending;
use crate::records::{turn_sink, write_outcome};
use crate::stage::Stage;
use crate::summary::summary;
use crate::tally::Tally;
use crate::view::{Lens, View, lens_of};
use px_ends::{Pieces, Sink, write_all};
use px_header::Header;
use px_session::{Event, write_end};
use px_types::{Mem, NoMemory, Text};
use px_world::{World, WorldFault};
use std::alloc::Global;

/// A world, with what is counted of its events, and how they are shown.
#[derive(Drop)]
pub(crate) struct Replaying {
    header: Header,
    lens: Lens,
    world: World,
    tally: Tally,
}

// Writes what is shown of a session after its last event.
fn close<K: Sink>(
    alloc: Global,
    lens: Lens,
    tally: Tally,
    header: &Header,
    world: &World,
    output: &mut K,
) -> Mem<()>
    ensures { AddsPart result (ending_of lens tally header.now.sinks world.now.mixers) (K.held output.old) (K.held output.new) }
{
    let written = match lens {
        Lens::Records => write_end(output).is_ok(),
        Lens::Raw(_) => true,
        Lens::Summary => match summary(alloc, tally, header.sinks.as_slice(), world) {
            Ok(text) => write_all(output, text.as_slice()).is_ok(),
            Err(_) => false,
        },
    };
    if written { Ok(()) } else { Err(NoMemory) }
}

impl Replaying {
    /// The stage for a view of a session with this header. `NoSuchSink` where none of its sinks has the view's name, and `Memory`.
    pub(crate) fn new(alloc: Global, view: View<'_>, header: Header) -> Result<Replaying, Ending>
        requires { IsHeader header }
        ensures looks { IfOk result (λ stage. lens_of (shown_of view.entry) header.sinks ≡ Some stage.lens) }
        ensures stands { IfOk result (λ stage. IsAfter stage stage.lens header []) }
        ensures counts { (at : ℕ) → IfOk result (λ stage. AreFew stage.tally at) }
        ensures none { IfErr result (λ ended. Unmade ended (lens_of (shown_of view.entry) header.sinks)) }
    {
        let Some(lens) = lens_of(view, header.sinks.as_slice()) else {
            return Err(Ending::NoSuchSink);
        };
        let Ok(world) = World::new(alloc, &header) else {
            return Err(Ending::Memory);
        };
        Ok(Replaying {
            header,
            lens,
            world,
            tally: Tally::new(),
        })
    }
}

impl Stage for Replaying {
    ghost use Rattle.std.proofs.Math.Nat.{le_trans};
    ghost use Rattle.px_world.specs.World.{World as SpecWorld};
    ghost use Rattle.px_app.specs.declared.view.Lens.{Lens as Glass};
    ghost use Rattle.px_app.specs.View.{Shown, replay_mode};

    ghost State = { SpecWorld };

    ghost Asked = { Shown };

    ghost Look = { Glass };

    ghost mode = { replay_mode };

    ghost stands = { λ stage look header events. IsAfter stage look header events };

    ghost ready = { λ stage. Unit {0} };

    ghost counts = { λ stage at. AreFew stage.tally at };

    fn open(&self, pieces: &mut Pieces) -> Mem<()> {
        let _ = pieces;
        Ok(())
    }

    fn event(
        &mut self,
        alloc: Global,
        e: Event,
        pieces: &mut Pieces,
    ) -> Result<Option<Text>, WorldFault> {
        let sink = turn_sink(&e);
        let outcome = match self.world.event(alloc, e) {
            Ok(outcome) => outcome,
            Err(fault) => return Err(fault),
        };
        self.tally.add(outcome.effects.as_slice());
        match write_outcome(pieces, self.lens, sink, &outcome) {
            Ok(()) => Ok(self.world.used_text()),
            Err(_) => Err(WorldFault::NoMemory),
        }
    }

    fn close(&self, alloc: Global, pieces: &mut Pieces) -> Mem<()> {
        close(
            alloc,
            self.lens,
            self.tally,
            &self.header,
            &self.world,
            pieces,
        )
    }

    ghost counts_more = { λ stage at more less few. record { events = le_trans few.events less; sent = few.sent; closed = few.closed } };
}
