//! Recorded sessions and output records: which bytes are a session, and where and why others are refused, read from any source in any
//! pieces and written in their one spelling. A session has one of two forms, `PRS1` and `PRS2`: the second has wider counts, longer
//! pieces of bytes, and events that stop a sink. It exports `Reader`, `Form`, `Header`, `Event` and what they are made of, `OutRecord`,
//! and the writers.
#![tactic(auto)]

mod event;
mod event_reading;
mod fault;
mod form;
mod found;
mod header_reading;
mod held;
mod law;
mod output;
mod place;
mod reader;
mod supply;
mod waiting;
mod writer;

pub use event::{Event, Step};
pub use fault::{Cause, ReadError, WriteError};
pub use form::Form;
pub use law::{
    first_form_in_second, one_reading, reading_in_steps, refusals_are_final, refusals_at_the_end,
};
pub use output::OutRecord;
pub use px_header::{Header, SinkSpec, SinkSpecs};
pub use reader::Reader;
pub use writer::{write_effect, write_end, write_event, write_header};
