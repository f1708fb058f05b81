// The command `ctl`.
ghost use Rattle.std.specs.Prelude.{◌≡◌, length};
ghost use Rattle.px_client.specs.Errand.{IsErrand};
ghost use Rattle.px_ctl.specs.Control.{Calls, Controls};

use crate::cookie::{COOKIE, read_cookie};
use crate::end::ControlEnd;
use crate::words::ControlWords;
use px_client::{ClientEnd, client};
use px_ends::{Connected, Host, Sink, Source};
use std::alloc::Global;

// Does the errand of the words with a cookie, over a link that the host dials.
fn call<K: Sink, H: Host>(
    alloc: Global,
    cookie: &[u8],
    said: &ControlWords,
    output: &mut K,
    host: &mut H,
) -> ClientEnd
    requires cookie { length cookie.now ≡ 256 }
    requires errand { IsErrand said.now.errand }
    ensures { Calls H.L.left H.L.sent H.L.counts result cookie.now said.now.errand
        (record { held = K.held output.old; faults = K.faults output.old; host = H.now host.old; dialled = H.dialled host.old })
        (record { held = K.held output.new; faults = K.faults output.new; host = H.now host.new; dialled = H.dialled host.new }) }
{
    match host.connect(alloc, said.socket.as_slice()) {
        Connected::Link(mut link) => {
            let end = client(alloc, cookie, &said.errand, &mut link, output);
            host.hang_up(link);
            end
        }
        Connected::NoMemory => ClientEnd::Memory,
        Connected::Failed => ClientEnd::Host,
    }
}

/// Does what the words of `ctl` ask for: reads the cookie, which the input must be, connects to the server's socket, and does the errand as a client of
/// it: see [`px_client::client`]. The host takes the link back.
pub fn control<S: Source, K: Sink, H: Host>(
    alloc: Global,
    said: &ControlWords,
    input: &mut S,
    output: &mut K,
    host: &mut H,
) -> ControlEnd
    requires { IsErrand said.now.errand }
    ensures { Controls H.L.left H.L.sent H.L.counts result said.now.errand (S.left input.old) (S.left input.new) (S.faults input.old) (S.faults input.new)
        (record { held = K.held output.old; faults = K.faults output.old; host = H.now host.old; dialled = H.dialled host.old })
        (record { held = K.held output.new; faults = K.faults output.new; host = H.now host.new; dialled = H.dialled host.new }) }
{
    let mut buffer = [0; COOKIE + 1];
    if let Err(end) = read_cookie(input, &mut buffer) {
        return end;
    }
    ControlEnd::Ended(call(alloc, &buffer[..COOKIE], said, output, host))
}
