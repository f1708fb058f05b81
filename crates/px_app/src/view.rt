//! What a replay shows of a session.

ghost use Rattle.std.specs.Prelude.{◌≡◌, bytes_eq};
ghost use Rattle.std.specs.List.{position};
ghost use Rattle.px_app.specs.View.{shown_of, lens_of};

use px_header::SinkSpec;

/// What a replay shows of a session. Own: PulseAudio records no sessions.
#[derive(Clone, Copy, Debug)]
pub enum View<'a> {
    /// Each effect and each turn's frames, as records, and then the end byte.
    Records,
    /// The bytes that the sink with this name has played, and nothing else.
    Raw(&'a str),
    /// Lines of text after the last event: the number of events, of frames of packets sent and of connections closed, and the frame counts of each
    /// sink.
    Summary,
}

/// A view of a session whose sinks are known.
#[derive(Clone, Copy, Debug)]
pub(crate) enum Lens {
    /// All records.
    Records,
    /// The bytes of the sink with this index.
    Raw(usize),
    /// The summary.
    Summary,
}

// The index of the sink with a name.
fn place_of(sinks: &[SinkSpec], name: &[u8]) -> Option<usize>
    ensures { result ≡ position (λ s. bytes_eq s.name name.now) sinks.now }
{
    sinks.iter().position(|s| s.name.as_slice() == name)
}

/// The lens for a view of a session with these sinks, or `None` where no sink has the view's name. Takes no memory.
pub(crate) fn lens_of(view: View<'_>, sinks: &[SinkSpec]) -> Option<Lens>
    ensures { result ≡ lens_of (shown_of view.entry) sinks.now }
{
    match view {
        View::Records => Some(Lens::Records),
        View::Raw(name) => match place_of(sinks, name.as_bytes()) {
            Some(place) => Some(Lens::Raw(place)),
            None => None,
        },
        View::Summary => Some(Lens::Summary),
    }
}
