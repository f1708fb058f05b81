//! A law of the core's history.

ghost use Rattle.std.specs.Prelude.{◌≡◌, ℕ, List, length};
ghost use Rattle.std.specs.List.{sum_by};
ghost use Rattle.px_annals.specs.declared.entry.CoreEntry.{CoreEntry};
ghost use Rattle.px_annals.specs.declared.stream.PlainStream.{PlainStream};
ghost use Rattle.px_state.specs.State.{State};
ghost use Rattle.px_core.specs.Hearing.{posted_by_steps};
ghost use Rattle.px_core_cell.specs.History.{sink_at, steps_in, AreExact, named_in};
ghost use Rattle.px_core_cell.specs.Parcel.{spec_of};

/// Exact entries hand exactly as many messages to a sink as they name for it. It does nothing: its contract is the law.
/// Source: own.
pub fn entries_name_what_left()
    ensures { (began : State PlainStream) (entries : List CoreEntry) (index : ℕ) → AreExact began entries
        → length (posted_by_steps spec_of (sink_at index) began (steps_in entries)) ≡ sum_by (λ e. named_in index (CoreEntry.step e)) entries }
{}
