//! A copy of the parts of the server's state that infos and subscriptions read.

ghost use Rattle.std.specs.Prelude.{◌≡◌, ◌++◌, ◌∷◌, [], List, IfOk, OnOk, cond, nat_lt, set, length};
ghost use Rattle.px_names.specs.Clients.{is_on, change_first as change_client, without_first as without_client, with_list};
ghost use Rattle.px_outcome.specs.declared.change.Change.{Change};
ghost use Rattle.px_msg.specs.declared.message.Msg.{Msg};
ghost use Rattle.px_names.specs.InputLists.{with_list_of, without_list_of};
ghost use Rattle.px_flat.specs.FlatVolume.{FlatGroup};
ghost use Rattle.px_outcome.specs.Input.{has_index, has_number, input_of};
ghost use Rattle.px_input_table.specs.Connections.{with_streams};
ghost use Rattle.px_input_table.specs.Lists.{change_first, drop_first};
ghost use Rattle.px_subscribe.specs.Scene.{scene_at, left_of, sent_of, come_of, inputs_noted, inputs_posted_if_there, scene_changed, clients_changed, inputs_changed, scene_after, scene_arrived, scene_joined};

use crate::copies::{
    copy_clients, copy_connections, copy_groups, copy_inputs, copy_list, copy_lists,
};
use px_flat::Group;
use px_input_table::{arrive, depart, input_of, leave, set_attr};
use px_msg::Msg;
use px_names::{Client, InputLists, Names, SourceName, copied_source};
use px_outcome::{Change, Connection, Input, Standing};
use px_sinks::set_group;
use px_tag::PropList;
use px_types::{ConnId, InputId, Mem, NoMemory, SinkId};
use std::alloc::Global;
use std::marker::Model;

/// The parts of the server's state that infos and subscriptions read, at one moment: the clients with their masks, the
/// default sink, the name of the default source, the connections, the inputs with their property lists, and the groups of volumes. Changes can be made to it
/// before they are made to the state.
#[derive(Drop)]
pub struct Scene {
    pub(crate) clients: Vec<Client>,
    sinks: usize,
    pub(crate) fallback: SinkId,
    pub(crate) source: Option<SourceName>,
    pub(crate) connections: Vec<Connection>,
    pub(crate) inputs: Vec<Input>,
    pub(crate) lists: InputLists,
    pub(crate) groups: Vec<Group>,
    pub(crate) inputs_made: u32,
}

impl Model for Scene {
    ghost use Rattle.px_subscribe.specs.Scene.{Scene as Seen};

    ghost Value = { Seen };

    ghost view = { λ s. record {
      clients = s.clients.items;
      sinks = s.sinks;
      fallback = s.fallback;
      source = s.source;
      connections = s.connections.items;
      inputs = s.inputs.items;
      lists = s.lists.items;
      groups = s.groups.items;
      inputs_made = s.inputs_made;
    } };
}

// ---- one change

fn name(clients: &mut [Client], conn: ConnId, list: &PropList) -> Mem<()>
    ensures { OnOk result (clients.new ≡ change_client (is_on conn) (with_list list.now) clients.old) }
{
    let list = copy_list(list)?;
    px_names::set_list(clients, conn, list);
    Ok(())
}

fn describe(lists: &mut InputLists, index: InputId, list: &PropList) -> Mem<()>
    ensures { OnOk result (lists.new.items ≡ with_list_of index list.now lists.old.items) }
{
    let list = copy_list(list)?;
    lists.reserve(1)?;
    lists.set(index, list);
    Ok(())
}

fn regroup(alloc: Global, groups: &mut Vec<Group>, sink: SinkId, group: &Group) -> Mem<()>
    ensures { OnOk result (groups.new.items ≡ set groups.old.items sink.0 group.now) }
{
    match group.copy(alloc) {
        Ok(copy) => {
            set_group(groups, sink, copy);
            Ok(())
        }
        Err(_) => Err(NoMemory),
    }
}

// The input with an index.
fn found(inputs: &[Input], index: InputId) -> Option<Input>
    ensures { result ≡ input_of inputs.now index }
{
    match input_of(inputs, index) {
        None => None,
        Some(x) => Some(*x),
    }
}

fn end(inputs: &mut Vec<Input>, index: InputId)
    ensures { inputs.new.items ≡ left_of (input_of inputs.old.items index) inputs.old.items }
{
    match found(inputs.as_slice(), index) {
        None => {}
        Some(x) => match x.standing {
            Standing::Settled | Standing::Moving(_) => leave(inputs, x.index),
            Standing::Leaving => {}
        },
    }
}

fn send(inputs: &mut Vec<Input>, index: InputId, to: SinkId)
    ensures { inputs.new.items ≡ sent_of to (input_of inputs.old.items index) inputs.old.items }
{
    match found(inputs.as_slice(), index) {
        None => {}
        Some(x) => match x.standing {
            Standing::Settled => depart(inputs, x.index, to),
            Standing::Moving(_) | Standing::Leaving => {}
        },
    }
}

fn bring(inputs: &mut Vec<Input>, index: InputId)
    ensures { inputs.new.items ≡ come_of (input_of inputs.old.items index) inputs.old.items }
{
    match found(inputs.as_slice(), index) {
        None => {}
        Some(x) => match x.standing {
            Standing::Moving(to) => arrive(inputs, x.index, to),
            Standing::Settled | Standing::Leaving => {}
        },
    }
}

fn note<P>(inputs: &mut Vec<Input>, index: InputId, msg: &Msg<P>)
    ensures { inputs.new.items ≡ inputs_noted index msg.now inputs.old.items }
{
    match msg {
        Msg::Attr { attr, .. } => set_attr(inputs, index, *attr),
        _ => {}
    }
}

fn note_by_index<P>(inputs: &mut Vec<Input>, index: InputId, msg: &Msg<P>)
    ensures { inputs.new.items ≡ inputs_posted_if_there (input_of inputs.old.items index) msg.now inputs.old.items }
{
    match found(inputs.as_slice(), index) {
        None => {}
        Some(x) => match x.standing {
            Standing::Settled | Standing::Moving(_) => note(inputs, x.index, msg),
            Standing::Leaving => {}
        },
    }
}

fn remove_input(inputs: &mut Vec<Input>, lists: &mut InputLists, index: InputId)
    ensures inputs { inputs.new.items ≡ drop_first (has_index index) inputs.old.items }
    ensures lists { lists.new.items ≡ without_list_of index lists.old.items }
{
    px_input_table::remove(inputs, index);
    lists.remove(index);
}

impl Scene {
    /// The scene of these parts of the state.
    pub fn of(
        alloc: Global,
        names: &Names,
        connections: &[Connection],
        inputs: &[Input],
        lists: &InputLists,
        groups: &[Group],
        inputs_made: u32,
    ) -> Mem<Scene>
        ensures { IfOk result (λ scene. scene ≡ scene_at names.now connections.now inputs.now lists.now.items groups.now inputs_made) }
    {
        Ok(Scene {
            clients: copy_clients(alloc, names.clients())?,
            sinks: names.sinks().as_slice().len(),
            fallback: names.default(),
            source: copied_source(alloc, names.source())?,
            connections: copy_connections(alloc, connections)?,
            inputs: copy_inputs(alloc, inputs)?,
            lists: copy_lists(lists)?,
            groups: copy_groups(alloc, groups)?,
            inputs_made,
        })
    }

    // Makes an existing sink the default sink.
    fn make_default(&mut self, sink: SinkId)
        ensures { self.new ≡ record self.old { fallback = cond (nat_lt sink.0 self.old.sinks) sink self.old.fallback } }
    {
        if usize::from(sink.0) < self.sinks {
            self.fallback = sink;
        }
    }

    // Adds an input, the last of the `inputs` ever made, whose connection then has `streams` streams.
    fn insert_input(&mut self, input: Input, streams: u32, inputs: u32) -> Mem<()>
        ensures { OnOk result (self.new ≡ record self.old { connections = change_first (has_number input.conn) (with_streams streams) self.old.connections; inputs = self.old.inputs ++ input ∷ []; inputs_made = inputs }) }
    {
        let conn = input.conn;
        self.inputs.push(input)?;
        px_input_table::set_streams(&mut self.connections, conn, streams);
        self.inputs_made = inputs;
        Ok(())
    }

    // Removes a connection, and its client with it.
    fn forget(&mut self, conn: ConnId)
        ensures { self.new ≡ record self.old { connections = drop_first (has_number conn) self.old.connections; clients = without_client (is_on conn) self.old.clients } }
    {
        px_input_table::forget(&mut self.connections, conn);
        px_names::forget(&mut self.clients, conn);
    }

    // Makes a change's part on clients, on their connections and on the default sink.
    fn change_clients<P>(&mut self, change: &Change<Msg<P>, Group>) -> Mem<()>
        ensures { OnOk result (self.new ≡ clients_changed self.old change.now) }
    {
        match change {
            Change::Authed(conn, version) => {
                px_input_table::set_version(&mut self.connections, *conn, *version);
            }
            Change::Named(conn, list) => name(&mut self.clients, *conn, list)?,
            Change::Masked(conn, mask) => px_names::set_mask(&mut self.clients, *conn, *mask),
            Change::Defaulted(sink) => self.make_default(*sink),
            Change::Ended { conn, .. } => px_input_table::mark(&mut self.connections, *conn),
            Change::Forgotten(conn) => self.forget(*conn),
            _ => {}
        }
        Ok(())
    }

    // Makes a change's part on inputs and on groups.
    fn change_inputs<P>(&mut self, alloc: Global, change: &Change<Msg<P>, Group>) -> Mem<()>
        ensures { OnOk result (self.new ≡ inputs_changed self.old change.now) }
    {
        match change {
            Change::Made {
                input,
                streams,
                inputs,
                ..
            } => self.insert_input(*input, *streams, *inputs)?,
            Change::Described(index, list) => describe(&mut self.lists, *index, list)?,
            Change::Leaves(index) => end(&mut self.inputs, *index),
            Change::Moves(index, to) => send(&mut self.inputs, *index, *to),
            Change::Arrives(index, _) => self.arrive(*index),
            Change::Posted(index, msg) => note_by_index(&mut self.inputs, *index, msg),
            Change::Regrouped(sink, group, _) => {
                regroup(alloc, &mut self.groups, *sink, group)?;
            }
            Change::Gone(index) => remove_input(&mut self.inputs, &mut self.lists, *index),
            _ => {}
        }
        Ok(())
    }

    // Makes one change. Where there is no memory for it, part of it may be made.
    fn change<P>(&mut self, alloc: Global, change: &Change<Msg<P>, Group>) -> Mem<()>
        ensures { OnOk result (self.new ≡ scene_changed self.old change.now) }
    {
        self.change_clients(change)?;
        self.change_inputs(alloc, change)
    }

    /// Settles a moving input on the sink that it moves to. Takes no memory.
    pub(crate) fn arrive(&mut self, index: InputId)
        ensures { self.new ≡ scene_arrived index self.old }
    {
        bring(&mut self.inputs, index);
    }

    /// Adds a client that connects. Where there is no memory for it, part of it may be added.
    pub(crate) fn join(&mut self, alloc: Global, conn: ConnId, client: u32) -> Mem<()>
        ensures { OnOk result (self.new ≡ scene_joined conn client self.old) }
    {
        self.connections.push(Connection {
            conn,
            client,
            version: None,
            streams: 0,
            marked: false,
        })?;
        self.clients.push(Client {
            conn,
            index: client,
            mask: 0,
            list: PropList::new(alloc),
        })?;
        Ok(())
    }

    // Makes one change of several.
    fn change_one<P>(&mut self, alloc: Global, change: &Change<Msg<P>, Group>) -> Mem<()>
        ensures { OnOk result ((more : List (Change (Msg P) FlatGroup)) → scene_after self.new more ≡ scene_after self.old (change.now ∷ more)) }
    {
        self.change(alloc, change)
    }

    /// Makes the changes, in order. Where there is no memory for them, some may be made.
    pub(crate) fn make<P>(&mut self, alloc: Global, changes: &[Change<Msg<P>, Group>]) -> Mem<()>
        ensures { OnOk result (self.new ≡ scene_after self.old changes.now) }
    {
        for change in changes {
            self.change_one(alloc, change)?;
        }
        Ok(())
    }

    /// Settles a moving input on the sink that it moves to, and then makes the changes.
    pub(crate) fn arrive_and_make<P>(
        &mut self,
        alloc: Global,
        input: InputId,
        later: &[Change<Msg<P>, Group>],
    ) -> Mem<()>
        ensures { OnOk result (self.new ≡ scene_after (scene_arrived input self.old) later.now) }
    {
        self.arrive(input);
        self.make(alloc, later)?;
        Ok(())
    }
}
