//! Laws of the core's definitions: the invariants of its state, and the messages that are handed to a sink.
ghost use Rattle.std.specs.Prelude.{◌≡◌, ◌≢◌, ℕ, ◌+◌, ◌<◌, ◌≤◌, List, [], ◌∷◌, ◌++◌, None, Some, map, flat_map, take, drop, replicate, slice_get, Contains, Err};
ghost use Rattle.std.specs.List.{AllByRecursion};
ghost use Rattle.px_types.specs.declared.ids.ConnId.{ConnId};
ghost use Rattle.px_types.specs.declared.ids.SinkId.{SinkId};
ghost use Rattle.px_header.specs.declared.header.Header.{Header};
ghost use Rattle.px_header.specs.declared.header.SinkSpec.{SinkSpec};
ghost use Rattle.px_header.specs.HeaderRules.{IsHeader};
ghost use Rattle.px_model.specs.Frame.{SampleSpec};
ghost use Rattle.px_model.specs.Orderly.{IsOrderly, inputs_left_by};
ghost use Rattle.px_msg.specs.declared.message.Msg.{Msg};
ghost use Rattle.px_msg.specs.declared.notice.Notice.{Notice};
ghost use Rattle.px_msg.specs.declared.notice.Notice.TheVariants.{Detached};
ghost use Rattle.px_msg.specs.View.{sample_spec, message_of};
ghost use Rattle.px_reply.specs.Front.{refusal};
ghost use Rattle.px_outcome.specs.declared.input.Connection.{Connection};
ghost use Rattle.px_outcome.specs.declared.input.Input.{Input};
ghost use Rattle.px_outcome.specs.declared.input.Standing.TheVariants.{Settled, Moving, Leaving};
ghost use Rattle.px_outcome.specs.declared.input.Way.TheVariants.{Left};
ghost use Rattle.px_state.specs.declared.effect.Effect.{Effect};
ghost use Rattle.px_state.specs.Effect.{sent, closed_at};
ghost use Rattle.px_state.specs.Change.{marked, with_connection};
ghost use Rattle.px_state.specs.State.{State, new_state};
ghost use Rattle.px_core.specs.Connecting.{going_on};
ghost use Rattle.px_core.specs.Notice.{IsNews};
ghost use Rattle.px_core.specs.Misfit.{IsAbout, Answers, Misfits};
ghost use Rattle.px_core.specs.Answering.{IsAnswered};
ghost use Rattle.px_outcome.specs.declared.waiting.Waiting.{Waiting};
ghost use Rattle.px_core.specs.HandedOver.{IsHandedOver, IsGrouped, others_than, with_settled, IsBrought};
ghost use Rattle.px_core.specs.Missing.{sink_named_in, input_named_in};
ghost use Rattle.px_core.specs.Command.{handle};
ghost use Rattle.px_cmd.specs.declared.command.Command.{Command};
ghost use Rattle.px_types.specs.declared.error_code.ErrorCode.TheVariants.{NoEntity};
ghost use Rattle.px_outcome.specs.declared.refusal.Refusal.TheVariants.{Code};
ghost use Rattle.px_outcome.specs.declared.target.Target.{Target};
ghost use Rattle.px_outcome.specs.declared.target.Named.TheVariants.{Sink};
ghost use Rattle.px_state.specs.Out.{Roomy, waiting_for, next_for, handed_out, put_back, sent_by, unsent_by};
ghost use Rattle.px_core.specs.Step.{Step, connect, notice, out, sender_of, stepped, effects_of, stepped_by, effects_by};
ghost use Rattle.px_core.specs.Orderly.{specs_of, inputs_there, IsOrderlyState};
ghost use Rattle.px_core.specs.Consistency.{IsConsistent, IsPosted, IsStep, Spares, handed_out_by, messages_out};
ghost use Rattle.px_core.specs.Indexed.{IsIndexed, GivesNoneAgain};
ghost use Rattle.px_core.specs.Parcels.{given_in, Carries, AllCarry, IsNewOrAmong};
ghost use Rattle.px_core.specs.Hearing.{posted_by_steps};
ghost use Rattle.px_subscribe.specs.Became.{SayWhatBecame};
ghost use Rattle.px_state.specs.Events.{step_events};
ghost use Rattle.px_core.specs.Heard.{IsOwn, SayOfClients, infos_of, given_by, events_of, mask_on, heard, sent_events, sent_to, own_effects};
ghost use Rattle.px_core.specs.Ending.{ends_of, goes_on, begins_of, begins_by};

/// A new state has the core's invariants, and every step preserves them; `spec_of` reads a parcel's sample spec. So the
/// messages queued for a sink are always orderly from the inputs that it has. It does nothing: its contract is the law.
/// Source: own.
pub fn states_are_consistent<P>()
    ensures new { (spec_of : P → SampleSpec) (header : Header) → IsHeader header → IsConsistent spec_of (new_state header) }
    ensures step { (spec_of : P → SampleSpec) (state : State P) (s : Step P) → IsStep s → IsConsistent spec_of state
        → IsConsistent spec_of (stepped spec_of state s) }
    ensures steps { (spec_of : P → SampleSpec) (state : State P) (steps : List (Step P)) → AllByRecursion IsStep steps
        → IsConsistent spec_of state → IsConsistent spec_of (stepped_by spec_of state steps) }
    ensures orderly { (spec_of : P → SampleSpec) (state : State P) → IsConsistent spec_of state → IsOrderlyState spec_of state }
    ensures back { (spec_of : P → SampleSpec) (state : State P) (sink : SinkId) (m : Msg P) → IsConsistent spec_of state
        → next_for state sink ≡ Some m → IsConsistent spec_of (put_back sink m (handed_out sink state)) }
{}

/// A sink has the inputs that the messages handed to it leave there. Of its queue, the first messages are handed to it, in
/// order, the others stay queued, and nothing else changes which inputs the sink has. It does nothing: its contract is the
/// law. Source: own.
pub fn sinks_have_what_was_posted<P>()
    ensures messages { (spec_of : P → SampleSpec) (state : State P) (sink : SinkId) (n : ℕ) → IsConsistent spec_of state
        → messages_out n sink state ≡ take n (waiting_for state sink) }
    ensures others { (spec_of : P → SampleSpec) (state : State P) (sink : SinkId) (n : ℕ) → IsConsistent spec_of state
        → waiting_for (handed_out_by n sink state) sink ≡ drop n (waiting_for state sink) }
    ensures inputs { (spec_of : P → SampleSpec) (state : State P) (sink : SinkId) (n : ℕ) → IsConsistent spec_of state
        → inputs_there (handed_out_by n sink state) sink
        ≡ inputs_left_by spec_of (inputs_there state sink) (map (message_of (λ p. p)) (take n (waiting_for state sink))) }
    ensures consistent { (spec_of : P → SampleSpec) (state : State P) (sink : SinkId) (n : ℕ) → IsConsistent spec_of state
        → IsConsistent spec_of (handed_out_by n sink state) }
    ensures spared { (spec_of : P → SampleSpec) (state : State P) (s : Step P) (sink : SinkId) → IsStep s → Spares sink s
        → IsConsistent spec_of state → inputs_there (stepped spec_of state s) sink ≡ inputs_there state sink }
    ensures put_back { (spec_of : P → SampleSpec) (state : State P) (sink : SinkId) (m : Msg P) → IsConsistent spec_of state
        → next_for state sink ≡ Some m → put_back sink m (handed_out sink state) ≡ state }
    ensures all_back { (spec_of : P → SampleSpec) (core : Roomy P) (sink : SinkId) (n : ℕ) → IsConsistent spec_of core.state
        → unsent_by sink (messages_out n sink core.state) (sent_by n sink core) ≡ core }
{}

/// All messages that a sink is handed over any steps, in order, are orderly from the inputs that it had, and leave there
/// those that the core knows to be there; from a new state they are orderly from none. No step changes the sinks. It does
/// nothing: its contract is the law. Source: own.
pub fn sinks_hear_what_is_orderly<P>()
    ensures orderly { (spec_of : P → SampleSpec) (state : State P) (steps : List (Step P)) (sink : SinkId) (s : SinkSpec)
        → slice_get state.sinks sink.0 ≡ Some s → AllByRecursion IsStep steps → IsConsistent spec_of state
        → IsOrderly spec_of (sample_spec s.spec) (inputs_there state sink)
        (map (message_of (λ p. p)) (posted_by_steps spec_of sink state steps)) }
    ensures inputs { (spec_of : P → SampleSpec) (state : State P) (steps : List (Step P)) (sink : SinkId) (s : SinkSpec)
        → slice_get state.sinks sink.0 ≡ Some s → AllByRecursion IsStep steps → IsConsistent spec_of state
        → inputs_there (stepped_by spec_of state steps) sink
        ≡ inputs_left_by spec_of (inputs_there state sink) (map (message_of (λ p. p)) (posted_by_steps spec_of sink state steps)) }
    ensures new { (spec_of : P → SampleSpec) (header : Header) (steps : List (Step P)) (sink : SinkId) (s : SinkSpec)
        → IsHeader header → slice_get header.sinks sink.0 ≡ Some s → AllByRecursion IsStep steps
        → IsOrderly spec_of (sample_spec s.spec) (specs_of [])
        (map (message_of (λ p. p)) (posted_by_steps spec_of sink (new_state header) steps)) }
    ensures posted { (spec_of : P → SampleSpec) (state : State P) (steps : List (Step P)) (sink : SinkId) (s : SinkSpec)
        → slice_get state.sinks sink.0 ≡ Some s → AllByRecursion IsStep steps → IsConsistent spec_of state
        → AllByRecursion IsPosted (posted_by_steps spec_of sink state steps) }
    ensures sinks { (spec_of : P → SampleSpec) (state : State P) (steps : List (Step P))
        → (stepped_by spec_of state steps).sinks ≡ state.sinks }
{}

/// Each stream that a message brings to a sink, queued or handed to it, is a new one, or one that a notice among the steps
/// gave up: of that very input, in that very parcel. It does nothing: its contract is the law. Source: own.
pub fn parcels_are_those_given_up<P>()
    ensures waiting { (spec_of : P → SampleSpec) (header : Header) (steps : List (Step P)) → IsHeader header
        → AllByRecursion IsStep steps
        → AllCarry (IsNewOrAmong (flat_map given_in steps)) (stepped_by spec_of (new_state header) steps) }
    ensures posted { (spec_of : P → SampleSpec) (header : Header) (steps : List (Step P)) (sink : SinkId) → IsHeader header
        → AllByRecursion IsStep steps
        → AllByRecursion (Carries (IsNewOrAmong (flat_map given_in steps))) (posted_by_steps spec_of sink (new_state header) steps) }
{}

/// The indices of clients rise in the order of connecting; each connection has its client, and each client its connection;
/// the indices of a connection's live streams rise, and the inputs that they are of name its client. So each client is the
/// one with its index, below the number given, and its info is the one found there. No index is given again: a client or an
/// input with one that was given before was there before, and is of the same connection. It does nothing: its contract is
/// the law. Source: own.
pub fn indices_are_given_once<P>()
    ensures new { (header : Header) → IsIndexed {P = P} (new_state header) }
    ensures step { (spec_of : P → SampleSpec) (state : State P) (s : Step P) → IsStep s → IsConsistent spec_of state → IsIndexed state
        → IsIndexed (stepped spec_of state s) }
    ensures steps { (spec_of : P → SampleSpec) (state : State P) (steps : List (Step P)) → AllByRecursion IsStep steps
        → IsConsistent spec_of state → IsIndexed state → IsIndexed (stepped_by spec_of state steps) }
    ensures own { (state : State P) → IsIndexed state → AllByRecursion (IsOwn state) state.names.clients }
    ensures again { (spec_of : P → SampleSpec) (state : State P) (steps : List (Step P)) → AllByRecursion IsStep steps
        → IsConsistent spec_of state → GivesNoneAgain state (stepped_by spec_of state steps) }
{}

/// The messages that a sink is handed by some steps followed by others; by steps that hand it nothing; and by those that do
/// nothing else. It does nothing: its contract is the law. Source: own.
pub fn sinks_hear_step_by_step<P>()
    ensures joined { (spec_of : P → SampleSpec) (state : State P) (earlier later : List (Step P)) (sink : SinkId)
        → posted_by_steps spec_of sink state (earlier ++ later)
        ≡ posted_by_steps spec_of sink state earlier ++ posted_by_steps spec_of sink (stepped_by spec_of state earlier) later }
    ensures spared { (spec_of : P → SampleSpec) (state : State P) (steps : List (Step P)) (sink : SinkId)
        → AllByRecursion (Spares sink) steps → posted_by_steps spec_of sink state steps ≡ [] }
    ensures posted { (spec_of : P → SampleSpec) (state : State P) (sink : SinkId) (n : ℕ) → IsConsistent spec_of state
        → posted_by_steps spec_of sink state (replicate n (out sink)) ≡ take n (waiting_for state sink) }
    ensures after { (spec_of : P → SampleSpec) (state : State P) (sink : SinkId) (n : ℕ)
        → stepped_by spec_of state (replicate n (out sink)) ≡ handed_out_by n sink state }
{}

/// The server ends a connection only where it was live and no longer is, or where it isn't accepted as it connects: so at
/// most once each time that a client connects whose number isn't in use. It does nothing: its contract is the law. Source:
/// own.
pub fn connections_end_once<P>()
    ensures step { (spec_of : P → SampleSpec) (state : State P) (s : Step P) (conn : ConnId) → IsConsistent spec_of state
        → ends_of conn (effects_of spec_of state s) + goes_on (stepped spec_of state s).connections conn
        ≤ goes_on state.connections conn + begins_of conn state s }
    ensures steps { (spec_of : P → SampleSpec) (state : State P) (steps : List (Step P)) (conn : ConnId)
        → AllByRecursion IsStep steps → IsConsistent spec_of state
        → ends_of conn (effects_by spec_of state steps) + goes_on (stepped_by spec_of state steps).connections conn
        ≤ goes_on state.connections conn + begins_by spec_of conn state steps }
{}

/// Whatever is sent by a connection that doesn't exist, or has ended, has no effect and changes nothing; nor does a client
/// that connects with a number in use. A step whose first effect is an error has no other effect and changes nothing. One
/// that breaks a rule of the protocol marks its own connection, and changes nothing else. It does nothing: its contract is
/// the law. Source: own.
pub fn refusals_change_nothing<P>()
    ensures ended { (spec_of : P → SampleSpec) (state : State P) (s : Step P) (conn : ConnId) → sender_of s ≡ Some conn
        → going_on state.connections conn ≡ None
        → (stepped spec_of state s ≡ state) × (effects_of spec_of state s ≡ []) }
    ensures known { (spec_of : P → SampleSpec) (state : State P) (conn : ConnId) (c : Connection)
        → Contains state.connections c → c.conn.0 ≡ conn.0
        → (stepped spec_of state (connect conn) ≡ state) × (effects_of spec_of state (connect conn) ≡ []) }
    ensures refused { (spec_of : P → SampleSpec) (state : State P) (s : Step P) (conn : ConnId) (tag code : ℕ)
        (more : List Effect) → effects_of spec_of state s ≡ sent conn (refusal tag code) ∷ more
        → stepped spec_of state s ≡ state }
    ensures alone { (spec_of : P → SampleSpec) (state : State P) (s : Step P) (conn : ConnId) (tag code : ℕ)
        (more : List Effect) → effects_of spec_of state s ≡ sent conn (refusal tag code) ∷ more → more ≡ [] }
    ensures broken { (spec_of : P → SampleSpec) (state : State P) (s : Step P) (conn : ConnId) (fault at : ℕ)
        → effects_of spec_of state s ≡ closed_at conn fault at ∷ [] → stepped spec_of state s ≡ with_connection conn marked state }
{}

/// A sink's notice that doesn't fit has no effect and changes nothing, and nor does news of an input that has ended. The sink
/// of a settled input was handed no message to detach its stream since the input came there. It does nothing: its contract is
/// the law. Source: own.
pub fn misfits_change_nothing<P>()
    ensures misfits { (spec_of : P → SampleSpec) (state : State P) (sink : SinkId) (n : Notice P) → IsConsistent spec_of state
        → Misfits spec_of state sink n
        → (stepped spec_of state (notice sink n) ≡ state) × (effects_of spec_of state (notice sink n) ≡ []) }
    ensures ended { (spec_of : P → SampleSpec) (state : State P) (sink : SinkId) (n : Notice P) (x : Input)
        → IsConsistent spec_of state → IsNews n → IsAbout state sink n x → x.standing ≡ Leaving
        → (stepped spec_of state (notice sink n) ≡ state) × (effects_of spec_of state (notice sink n) ≡ []) }
    ensures settled { (spec_of : P → SampleSpec) (state : State P) (x : Input) → IsConsistent spec_of state
        → Contains state.inputs x → x.standing ≡ Settled → x.way ≢ Left }
{}

/// A stream that a sink hands over, where the sink was handed the message to detach it and the parcel fits: an input that has
/// ended goes, and no other; one that moves is settled on its new sink, to which its parcel is posted. Every input is in the
/// group of the sink that it is on. A notice that answers a request that waits: that one waits no longer, and all others do. It
/// does nothing: its contract is the law. Source: own.
pub fn what_fits_acts<P>()
    ensures grouped { (spec_of : P → SampleSpec) (state : State P) (x : Input) → IsConsistent spec_of state
        → Contains state.inputs x → IsGrouped state x }
    ensures ended { (spec_of : P → SampleSpec) (state : State P) (sink : SinkId) (x : Input) (parcel : P)
        → IsConsistent spec_of state → IsHandedOver spec_of state sink x parcel → x.standing ≡ Leaving
        → (stepped spec_of state (notice sink (Detached x.index parcel))).inputs ≡ others_than x.index state.inputs }
    ensures moved { (spec_of : P → SampleSpec) (state : State P) (sink to : SinkId) (x : Input) (parcel : P)
        → IsConsistent spec_of state → IsHandedOver spec_of state sink x parcel → x.standing ≡ Moving to
        → (stepped spec_of state (notice sink (Detached x.index parcel))).inputs ≡ with_settled to x.index state.inputs }
    ensures brought { (spec_of : P → SampleSpec) (state : State P) (sink to : SinkId) (x : Input) (parcel : P)
        → IsConsistent spec_of state → IsHandedOver spec_of state sink x parcel → x.standing ≡ Moving to
        → IsBrought to x.index parcel state (stepped spec_of state (notice sink (Detached x.index parcel))) }
    ensures answered { (spec_of : P → SampleSpec) (state : State P) (sink : SinkId) (n : Notice P) (x : Input) (w : Waiting)
        → IsConsistent spec_of state → IsAbout state sink n x → Contains state.waiting w → Answers n w
        → IsAnswered state.waiting (stepped spec_of state (notice sink n)).waiting w }
{}

/// A command that names a sink, or a live input, that is there isn't answered NOENTITY for want of a group of volumes, or of a
/// member. It does nothing: its contract is the law. Source: own.
pub fn what_is_there_is_found<P>()
    ensures sink { (spec_of : P → SampleSpec) (state : State P) (me : Connection) (tag : ℕ) (command : Command) (target : Target)
        → IsConsistent spec_of state → sink_named_in state command ≡ Some (Sink target)
        → handle state me tag command ≢ Err (Code NoEntity) }
    ensures input { (spec_of : P → SampleSpec) (state : State P) (me : Connection) (tag : ℕ) (command : Command) (x : Input)
        → IsConsistent spec_of state → input_named_in command ≡ Some x.index.0 → Contains state.inputs x
        → x.standing ≢ Leaving → handle state me tag command ≢ Err (Code NoEntity) }
{}

/// After the other effects of a step, each live connection is sent, in order, the subscription events of its mask, as it is
/// after the step, and no other connection is sent any: those between the infos before the step and the infos after it.
/// About a sink, an input or a client that has come, has gone, or whose info differs there is the one event that says so,
/// and about others none; about each client that is there before or after, it is the one by its own info. It does nothing:
/// its contract is the law. Source: own.
pub fn subscribers_hear_what_became<P>()
    ensures effects { (spec_of : P → SampleSpec) (state : State P) (s : Step P)
        → effects_of spec_of state s ≡ own_effects spec_of state s ++ step_events state (stepped spec_of state s) }
    ensures sent { (spec_of : P → SampleSpec) (state : State P) (s : Step P) (conn : ConnId) → IsStep s → IsConsistent spec_of state
        → sent_to conn (step_events state (stepped spec_of state s))
        ≡ sent_events conn (heard (mask_on (stepped spec_of state s) conn) (events_of state (stepped spec_of state s))) }
    ensures each { (before after : State P) → SayWhatBecame (given_by after) (infos_of before) (infos_of after) }
    ensures clients { (spec_of : P → SampleSpec) (state : State P) (s : Step P) → IsStep s → IsConsistent spec_of state
        → IsIndexed state → SayOfClients state (stepped spec_of state s) }
{}
