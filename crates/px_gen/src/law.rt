//! The sizes of the sessions.

ghost use Rattle.std.specs.Prelude.{◌≡◌, ◌+◌, ◌*◌, ◌++◌, ℕ, length};
ghost use Rattle.px_gen.specs.Generator.{opening, steps, generated};

/// A session without steps has 1,952 bytes, whatever its number; and a session has 14 events, and two for each step. The function does
/// nothing: its contract is the law.
pub fn sizes_of_sessions()
    ensures bytes { (number : ℕ) → length (generated number 0) ≡ 1952 }
    ensures events { (number count : ℕ) → length (opening ++ steps count number) ≡ 14 + 2 * count }
{}
