// A client's connection, which receives and sends, and its sending half.
ghost use Rattle.std.specs.Prelude.{◌≡◌, ℕ, ◌<◌, List, Option, length};
ghost use Rattle.px_ends.specs.Links.{LinkCounts, RecvGives, RecvCounts, SendTakes, SendCounts};

/// What a receive answers.
#[derive(Clone, Copy, Debug, PartialEq, Eq)]
pub enum Recv {
    /// This many bytes, at least one, moved into the front of the buffer.
    Bytes(usize),
    /// The peer has closed, and nothing is left.
    End,
    /// The link isn't ready. Nothing moved.
    NotYet,
    /// The receive failed. Nothing moved.
    Failed,
}

/// What a send answers.
#[derive(Clone, Copy, Debug, PartialEq, Eq)]
pub enum Sent {
    /// This many bytes, at least one, were taken from the front of those given.
    Bytes(usize),
    /// The link isn't ready. Nothing was taken.
    NotYet,
    /// The send failed, or there is no room. Nothing was taken.
    Failed,
}

/// The sending half of a connection, for other threads with something for its client. What goes through it reaches the client after all
/// that went through the connection before, and the other way round. Own.
pub trait Outlet {
    /// The bytes that were sent through it, where they are visible.
    ghost sent: { Self → Option (List ℕ) };

    /// How often its calls failed or found it not ready. No count falls.
    ghost counts: { Self → LinkCounts };

    /// Takes the first of these bytes, or none.
    fn send(&mut self, bytes: &[u8]) -> Sent
        requires { 0 < length bytes.now }
        ensures bytes { SendTakes result bytes.now (sent self.old) (sent self.new) }
        ensures count { SendCounts result (counts self.old) (counts self.new) };

    /// Ends both halves: the client finds the end after all that it was sent, and nothing more is received from it.
    fn shut(&mut self)
        ensures bytes { sent self.new ≡ sent self.old }
        ensures count { counts self.new ≡ counts self.old };
}

/// A connection to a client.
pub trait Link {
    /// The bytes that are still to be received, where they are visible.
    ghost left: { Self → Option (List ℕ) };

    /// The bytes that were sent, where they are visible.
    ghost sent: { Self → Option (List ℕ) };

    /// How often its calls failed, answered the end, or found it not ready. No count falls.
    ghost counts: { Self → LinkCounts };

    /// Moves received bytes into the front of the buffer, in order.
    fn recv(&mut self, buffer: &mut [u8]) -> Recv
        requires { 0 < length buffer.old }
        ensures bytes { RecvGives result buffer.new (left self.old) (left self.new) }
        ensures other { sent self.new ≡ sent self.old }
        ensures count { RecvCounts result (counts self.old) (counts self.new) };

    /// Takes the first of these bytes, or none.
    fn send(&mut self, bytes: &[u8]) -> Sent
        requires { 0 < length bytes.now }
        ensures bytes { SendTakes result bytes.now (sent self.old) (sent self.new) }
        ensures other { left self.new ≡ left self.old }
        ensures count { SendCounts result (counts self.old) (counts self.new) };
}
