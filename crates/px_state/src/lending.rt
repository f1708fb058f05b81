//! A law of messages that are handed out and put back.

ghost use Rattle.px_state.specs.State.{State};
ghost use Rattle.px_state.specs.Lending.{IsUndone};

/// A message that was handed out and is put back leaves the state as it was, where the stream that it names was in the `way`
/// that such a message expects. It does nothing: its contract is the law. Source: own.
pub fn put_back_undoes_handing_out<P>()
    ensures { (state : State P) → IsUndone state }
{}
