// The client: it asks for what the errand wants, and writes what it hears.

ghost use Rattle.std.specs.Prelude.{◌≡◌, ◌≤◌, ◌++◌, length, OnOk};
ghost use Rattle.px_client.specs.declared.errand.Errand.{Errand as Job};
ghost use Rattle.px_client.specs.declared.awaited.Awaited.TheVariants as awaits;
ghost use Rattle.px_client.specs.Dialogue.{Waiting, stage_after, last_awaited};
ghost use Rattle.px_client.specs.Errand.{IsErrand, framed, auth_packet, name_packet};
ghost use Rattle.px_client.specs.Outcome.{LinkState, Talks, Converses, Prints, Runs};

use crate::awaited::Awaited;
use crate::end::ClientEnd;
use crate::errand::Errand;
use crate::hearing::Hearing;
use crate::inputs::Inputs;
use crate::listing::listing;
use crate::packets::{auth_frame, errand_frame, name_frame};
use crate::waiting::send_all;
use px_ends::{Link, Sink, write_all};
use std::alloc::Global;

// Sends a command's frame, and hears the reply.
fn ask<L: Link>(
    alloc: Global,
    link: &mut L,
    hearing: &mut Hearing,
    frame: &[u8],
    awaited: Awaited,
) -> Result<Inputs, ClientEnd>
    requires inside { hearing.old.next ≤ length hearing.old.frames }
    ensures talks { (errand : Job) → Talks errand result frame.now (Waiting awaited) (stage_after errand awaited) hearing.old hearing.new
        (record { left = L.left link.old; sent = L.sent link.old; counts = L.counts link.old })
        (record { left = L.left link.new; sent = L.sent link.new; counts = L.counts link.new }) }
    ensures inside { OnOk result (hearing.new.next ≤ length hearing.new.frames) }
{
    send_all(link, frame)?;
    hearing.reply(alloc, link, awaited)
}

// Shows the cookie, and says the client's name.
fn greet<L: Link>(
    alloc: Global,
    link: &mut L,
    hearing: &mut Hearing,
    cookie: &[u8],
) -> Result<(), ClientEnd>
    requires inside { hearing.old.next ≤ length hearing.old.frames }
    requires cookie { length cookie.now ≡ 256 }
    ensures talks { (errand : Job) → Talks errand result (framed (auth_packet cookie.now) ++ framed name_packet) (Waiting awaits.Version) (λ nothing. Waiting (last_awaited errand)) hearing.old hearing.new
        (record { left = L.left link.old; sent = L.sent link.old; counts = L.counts link.old })
        (record { left = L.left link.new; sent = L.sent link.new; counts = L.counts link.new }) }
    ensures inside { OnOk result (hearing.new.next ≤ length hearing.new.frames) }
{
    let auth = auth_frame(alloc, cookie)?;
    let name = name_frame(alloc)?;
    ask(alloc, link, hearing, auth.as_slice(), Awaited::Version)?;
    ask(alloc, link, hearing, name.as_slice(), Awaited::Client)?;
    Ok(())
}

// The whole dialogue: the inputs of the last reply.
fn converse<L: Link>(
    alloc: Global,
    cookie: &[u8],
    errand: &Errand,
    link: &mut L,
) -> Result<Inputs, ClientEnd>
    requires cookie { length cookie.now ≡ 256 }
    requires errand { IsErrand errand.now }
    ensures { Converses result cookie.now errand.now
        (record { left = L.left link.old; sent = L.sent link.old; counts = L.counts link.old })
        (record { left = L.left link.new; sent = L.sent link.new; counts = L.counts link.new }) }
{
    let command = errand_frame(alloc, errand)?;
    let mut hearing = Hearing::new(alloc);
    greet(alloc, link, &mut hearing, cookie)?;
    ask(
        alloc,
        link,
        &mut hearing,
        command.as_slice(),
        Awaited::of(errand),
    )
}

// Writes the lines of the inputs.
fn print<K: Sink>(alloc: Global, inputs: &Inputs, output: &mut K) -> ClientEnd
    ensures { Prints result inputs.now (K.held output.old) (K.held output.new) (K.faults output.old) (K.faults output.new) }
{
    let Ok(text) = listing(alloc, inputs) else {
        return ClientEnd::Memory;
    };
    match write_all(output, text.as_slice()) {
        Ok(()) => ClientEnd::Ok,
        Err(_) => ClientEnd::WriteFault,
    }
}

/// Does an errand as a client of the server at the other end of the link: shows the cookie, 256 bytes, says its name, sends the errand's
/// command, each after the reply to the one before, and writes what an errand that lists asks for. An end other than `Ok` leaves the link
/// at any place of the dialogue; only after `WriteFault` may the output have gained a part of the list. Takes memory for packets, frames
/// and the list.
#[tactic(auto, using(crate::proofs::Talking::runs_on, crate::proofs::Talking::runs_not))]
pub fn client<L: Link, K: Sink>(
    alloc: Global,
    cookie: &[u8],
    errand: &Errand,
    link: &mut L,
    output: &mut K,
) -> ClientEnd
    requires cookie { length cookie.now ≡ 256 }
    requires errand { IsErrand errand.now }
    ensures { Runs result cookie.now errand.now
        (record { left = L.left link.old; sent = L.sent link.old; counts = L.counts link.old })
        (record { left = L.left link.new; sent = L.sent link.new; counts = L.counts link.new })
        (K.held output.old) (K.held output.new) (K.faults output.old) (K.faults output.new) }
{
    match converse(alloc, cookie, errand, link) {
        Ok(inputs) => print(alloc, &inputs, output),
        Err(end) => end,
    }
}
