// Calls of the link that wait until it is ready.

ghost use Rattle.std.specs.Prelude.{◌≡◌, ◌<◌, length, OnOk, OnErr, IfErr};
ghost use Rattle.px_ends.specs.Visible.{after_adding};
ghost use Rattle.px_ends.specs.Whole.{AddsFront};
ghost use Rattle.px_client.specs.Causes.{Counts, ReceiveGives, SendGives, SendFails};

use crate::end::ClientEnd;
use px_ends::{Link, Recv, Sent};

/// How often in a row the link may answer that it isn't ready.
const PATIENCE: u32 = 1_000_000;

/// Receives some bytes into the front of the buffer: how many. Takes no memory.
pub(crate) fn receive<L: Link>(link: &mut L, buffer: &mut [u8]) -> Result<usize, ClientEnd>
    requires { 0 < length buffer.old }
    ensures bytes { ReceiveGives result buffer.new (L.left link.old) (L.left link.new) }
    ensures other { L.sent link.new ≡ L.sent link.old }
    ensures count { Counts result (L.counts link.old) (L.counts link.new) }
{
    for _ in 0..PATIENCE {
        match link.recv(buffer) {
            Recv::Bytes(count) => return Ok(count),
            Recv::End => return Err(ClientEnd::Gone),
            Recv::Failed => return Err(ClientEnd::Host),
            Recv::NotYet => {}
        }
    }
    Err(ClientEnd::Silent)
}

// Sends some of the bytes, from their front: how many. Takes no memory.
fn send_some<L: Link>(link: &mut L, bytes: &[u8]) -> Result<usize, ClientEnd>
    requires { 0 < length bytes.now }
    ensures bytes { SendGives result bytes.now (L.sent link.old) (L.sent link.new) }
    ensures other { L.left link.new ≡ L.left link.old }
    ensures count { Counts result (L.counts link.old) (L.counts link.new) }
{
    for _ in 0..PATIENCE {
        match link.send(bytes) {
            Sent::Bytes(count) => return Ok(count),
            Sent::Failed => return Err(ClientEnd::Host),
            Sent::NotYet => {}
        }
    }
    Err(ClientEnd::Silent)
}

/// Sends all of the bytes. After an `Err` the link took a front of them. Takes no memory.
pub(crate) fn send_all<L: Link>(link: &mut L, bytes: &[u8]) -> Result<(), ClientEnd>
    ensures ok { OnOk result (L.sent link.new ≡ after_adding (L.sent link.old) bytes.now) }
    ensures err { OnErr result (AddsFront bytes.now (L.sent link.old) (L.sent link.new)) }
    ensures causes { IfErr result SendFails }
    ensures other { L.left link.new ≡ L.left link.old }
    ensures count { Counts result (L.counts link.old) (L.counts link.new) }
{
    let mut sent = 0;
    while sent < bytes.len() {
        sent += send_some(link, &bytes[sent..])?;
    }
    Ok(())
}
