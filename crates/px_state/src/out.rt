//! Hands messages to the sinks, and puts them back in their queue. Own: PulseAudio's `pa_asyncmsgq` holds its messages
//! itself.

ghost use Rattle.std.specs.Prelude.{◌≡◌, ◌<◌, length};
ghost use Rattle.px_state.specs.Out.{inputs_past, inputs_before, waiting_for, next_for, sent, unsent, room_for};
ghost use Rattle.px_state.specs.Tables.{state_of, core_of, rooms_of};

use crate::queues;
use crate::tables::Tables;
use px_input_table::InputTable;
use px_msg::Msg;
use px_outcome::Way;
use px_types::SinkId;

// Updates the `way` of the input that a message names, when it is handed out.
fn pass<P>(inputs: &mut InputTable, msg: &Msg<P>)
    ensures { inputs.new.items ≡ inputs_past msg.now inputs.old.items }
{
    match msg {
        Msg::New(stream) => inputs.set_way(stream.input, Way::There),
        Msg::Attach { input, .. } => inputs.set_way(*input, Way::There),
        Msg::Detach { input } => inputs.set_way(*input, Way::Left),
        _ => {}
    }
}

// Restores the `way` of the input that a message names, when it is put back.
fn pass_back<P>(inputs: &mut InputTable, msg: &Msg<P>)
    ensures { inputs.new.items ≡ inputs_before msg.now inputs.old.items }
{
    match msg {
        Msg::New(stream) => inputs.set_way(stream.input, Way::Coming),
        Msg::Attach { input, .. } => inputs.set_way(*input, Way::Coming),
        Msg::Detach { input } => inputs.set_way(*input, Way::There),
        _ => {}
    }
}

/// The number of messages queued for a sink; 0 for an unknown one. Takes no memory.
pub fn outgoing<P>(tables: &Tables<P>, sink: SinkId) -> usize
    ensures { result ≡ length (waiting_for (state_of tables.now) sink) }
{
    queues::count(&tables.posted, sink)
}

/// Removes and returns the first message queued for a sink. Takes no memory.
pub fn hand_out<P>(tables: &mut Tables<P>, sink: SinkId) -> Option<Msg<P>>
    ensures next { result ≡ next_for (state_of tables.old) sink }
    ensures after { core_of tables.new ≡ sent sink (core_of tables.old) }
{
    match queues::take_first(&mut tables.posted, sink) {
        None => None,
        Some(msg) => {
            pass(&mut tables.inputs, &msg);
            Some(msg)
        }
    }
}

/// Puts a message that was handed out back at the front of the queue. Takes no memory.
pub fn put_back<P: Drop>(tables: &mut Tables<P>, sink: SinkId, msg: Msg<P>)
    requires { 0 < room_for sink (rooms_of tables.old.posted.items) }
    ensures after { core_of tables.new ≡ unsent sink msg (core_of tables.old) }
{
    pass_back(&mut tables.inputs, &msg);
    queues::put_first(&mut tables.posted, sink, msg);
}
