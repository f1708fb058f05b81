//! Laws of orderly messages: what they leave at a sink, and one list followed by another.
ghost use Rattle.std.specs.Prelude.{◌≡◌, ◌++◌, List, ℕ, flat_map};
ghost use Rattle.px_model.specs.Frame.{SampleSpec};
ghost use Rattle.px_model.specs.Stream.{Stream};
ghost use Rattle.px_model.specs.Message.{Message};
ghost use Rattle.px_model.specs.Orderly.{Inputs, IsOrderly, inputs_left_by};
ghost use Rattle.px_model.specs.Mix.{Samples};
ghost use Rattle.px_model.specs.Sink.{Sink, specs_of};
ghost use Rattle.px_model.specs.Turn.{turned, stopped_turn, BringsStream};
ghost use Rattle.px_model.specs.Deciding.{Entry, messages_of, IsOrderlyHistory};
ghost use Rattle.std.specs.List.{AllByRecursion};

/// The inputs that a turn's messages leave are those of the sink after the turn. Lists of messages in sequence are orderly exactly where each list is
/// orderly from the inputs that the lists before it left. So what is orderly from no inputs is orderly turn by turn. Source: own.
pub fn orderly_messages_go_on()
    ensures turn { (samples : Samples) (sink : Sink) (n : ℕ) (messages : List (Message Stream))
        → inputs_left_by Stream.spec (specs_of sink.inputs) messages
        ≡ specs_of (turned samples sink n messages).inputs }
    ensures stop { (sink : Sink) (messages : List (Message Stream))
        → inputs_left_by Stream.spec (specs_of sink.inputs) messages
        ≡ specs_of (stopped_turn sink messages).inputs }
    ensures joins { (sink : SampleSpec) (inputs : Inputs) (earlier later : List (Message Stream))
        → IsOrderly Stream.spec sink inputs earlier
        → IsOrderly Stream.spec sink (inputs_left_by Stream.spec inputs earlier) later
        → IsOrderly Stream.spec sink inputs (earlier ++ later) }
    ensures begins { (sink : SampleSpec) (inputs : Inputs) (earlier later : List (Message Stream))
        → IsOrderly Stream.spec sink inputs (earlier ++ later)
        → IsOrderly Stream.spec sink inputs earlier }
    ensures goes_on { (sink : SampleSpec) (inputs : Inputs) (earlier later : List (Message Stream))
        → IsOrderly Stream.spec sink inputs (earlier ++ later)
        → IsOrderly Stream.spec sink (inputs_left_by Stream.spec inputs earlier) later }
    ensures history { (samples : Samples) (sink : Sink) (history : List Entry)
        → IsOrderly Stream.spec sink.spec (specs_of sink.inputs) (flat_map messages_of history)
        → AllByRecursion BringsStream (flat_map messages_of history)
        → IsOrderlyHistory samples sink history }
{}
