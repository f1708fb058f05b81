// How long a stream has been playing or silent.
ghost use Rattle.std.specs.Prelude.{◌≡◌, ◌≤◌};
ghost use Rattle.px_model.specs.Going.{run_after, playing_on, quiet_on};

use px_model::Run;

/// The run after `frames` frames of the sink, of which the stream gave the first `given`. Takes no memory.
pub(crate) fn run_after(run: Run, given: u64, frames: u64) -> Run
    requires { given ≤ frames }
    ensures { result ≡ run_after run given frames }
{
    if given == frames {
        playing_on(run, frames)
    } else {
        quiet_on(run, given, frames)
    }
}

fn playing_on(run: Run, frames: u64) -> Run
    ensures { result ≡ playing_on run frames }
{
    match run {
        Run::Playing(played) => Run::Playing(played.saturating_add(frames)),
        Run::Quiet(_) => Run::Playing(frames),
    }
}

fn quiet_on(run: Run, given: u64, frames: u64) -> Run
    requires { given ≤ frames }
    ensures { result ≡ quiet_on run given frames }
{
    match run {
        Run::Playing(_) => Run::Quiet(frames - given),
        Run::Quiet(silent) if given == 0 => Run::Quiet(silent.saturating_add(frames)),
        Run::Quiet(_) => Run::Quiet(frames - given),
    }
}
