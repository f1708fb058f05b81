//! Steps of the core that can be made again where they found no memory: those that own nothing.

ghost use Rattle.px_core_cell.specs.Step.{IsAsked};

use px_core_cell::CoreStep;
use px_types::{ConnId, SinkId};

/// A step that can be made again.
#[derive(Clone, Copy, Debug)]
pub(crate) enum RetryableStep {
    Connect(ConnId),
    Close(ConnId),
    Cut(ConnId),
    Notice(SinkId),
}

/// The core's step of it.
pub(crate) fn core_step_of(step: RetryableStep) -> CoreStep
    ensures { IsAsked result }
{
    match step {
        RetryableStep::Connect(conn) => CoreStep::Connect(conn),
        RetryableStep::Close(conn) => CoreStep::Close(conn),
        RetryableStep::Cut(conn) => CoreStep::Cut(conn),
        RetryableStep::Notice(sink) => CoreStep::Notice(sink),
    }
}
