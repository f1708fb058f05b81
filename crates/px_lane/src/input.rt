// An input of a sink.
use px_stream::Stream;
use px_types::InputId;

/// A stream with its index as a sink input.
#[derive(Debug, Drop)]
pub struct Input {
    pub index: InputId,
    pub stream: Stream,
}
