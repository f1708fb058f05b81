//! What a mailbox may carry.
ghost use Rattle.std.specs.Prelude.{List, []};

/// A type of items that go through a mailbox (PulseAudio: the messages of a `pa_asyncmsgq`). Under each key some lists of items are lawful, and the
/// empty list always is.
pub trait Letter {
    /// The key under which one mailbox's items are lawful.
    type Key: Drop + Send;

    /// The lists that are lawful under a key.
    ghost lawful: { Self.Key → List Self → Type 0 };

    /// The empty list is lawful under each key.
    ghost begins: { (key : Self.Key) → lawful key [] };
}
