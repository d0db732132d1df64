//! The connections of a server, by their endpoints.

ghost use Rattle.std.specs.Prelude.{◌≡◌, ◌≢◌, ◌≤◌, ◌<◌, ℕ, true, false, IfOk, OnErr, OnOk, Some, None, length};
ghost use Rattle.fidl_names.specs.declared.limits.TheConstants as limit;
ghost use Rattle.std.specs.FinMap as finite;
ghost use Rattle.std.specs.Option.{option_map};
ghost use Rattle.conn_rules.specs.Births as births;
ghost use Rattle.conn_rules.specs.Births.{fresh};
ghost use Rattle.conn_rules.specs.Answers.{nothing_told};
ghost use Rattle.conn_rules.specs.Served.{KeepsHolds, told_by};
ghost use Rattle.conn_rules.specs.Shared.{CanBeBound};
ghost use Rattle.io_messages.specs.Asked.{asked};
ghost use Rattle.io_messages.specs.Requests.{request_of};
ghost use Rattle.request_reader.specs.Parts.{AsksPart};
ghost use Rattle.vfs_journal.specs.Handles.{numbers_of};
ghost use Rattle.vfs_journal.specs.Serving.{Moment, outcome_of_read};
ghost use Rattle.vfs_server.specs.Steps.{Answers, AreNamed, CanServe, CanTell, IsAskedAt, IsPartServed, IsPassedOver, done_with};

use crate::asking::Asking;
use crate::conn::Conn;
use crate::deed::Deed;
use crate::message::Message;
use conn_rules::{Birth, Changes};
use fidl_names::NoMemory;
use fidl_wire::{Ordinals, Out};
use io_messages::{Protocol, Request};
use link_frames::Outbox;
use node_graph::{Graph, NodeRef};
use std::alloc::Global;
use std::collections::HashMap;
use std::marker::Model;

/// Connections, each at its endpoint.
#[derive(Drop)]
pub(crate) struct Connections {
    kept: HashMap<u32, Conn>,
}

impl Model for Connections {
    ghost use Rattle.vfs_server.specs.Codes.{connections_code};
    ghost use Rattle.std.specs.FinMap as finite;
    ghost use Rattle.std.specs.Ordering.{nat_cmp};
    ghost use Rattle.conn_rules.specs.Births as births;
    ghost use Rattle.vfs_server.specs.Steps.{AreOfTheirKinds, seen_in};

    ghost Value = { finite.FinMap nat_cmp births.Connection };

    ghost coded = { connections_code };

    ghost view = { λ connections. finite.from_entries (seen_in connections.kept.entries) };

    ghost invariant = { λ connections. AreOfTheirKinds connections.kept.entries };
}

impl Connections {
    /// None.
    pub fn new(alloc: Global) -> Connections
        ensures { result ≡ finite.empty }
    {
        Connections {
            kept: HashMap::new(alloc),
        }
    }

    /// How many there are.
    pub fn len(&self) -> usize
        ensures { result ≡ finite.len self.now }
    {
        self.kept.len()
    }

    /// Puts one that is just bound at an endpoint that has none.
    pub fn insert(&mut self, alloc: Global, endpoint: u32, birth: Birth) -> Result<(), NoMemory>
        requires watcher { birth.protocol ≢ Protocol.Watcher }
        requires free { finite.get self.old endpoint ≡ None }
        ensures inserted { OnOk result (self.new ≡ finite.insert self.old endpoint (record { birth = birth; position = fresh })) }
        ensures unchanged { OnErr result (self.new ≡ self.old) }
    {
        let conn = Conn::new(alloc, birth)?;
        self.kept.insert(endpoint, conn)?;
        Ok(())
    }

    /// Takes out the one of an endpoint, if it has one, and tells the node that it was to.
    pub fn remove(&mut self, endpoint: u32) -> Option<NodeRef>
        ensures given { result ≡ option_map (λ connection. connection.birth.node) (finite.get self.old endpoint) }
        ensures removed { self.new ≡ finite.remove self.old endpoint }
    {
        let conn = self.kept.remove(&endpoint)?;
        Some(conn.node())
    }

    /// Serves a message on the one of the endpoint that is asked. No other changes. What watchers are to be
    /// told is put into the changes. Where it has none, the message is passed over.
    #[inline(always)]
    pub fn serve<'a>(
        &mut self,
        asking: &Asking<'_>,
        message: &Message<'a>,
        graph: &mut Graph,
        out: &mut Out,
        outbox: &mut Outbox,
        changes: &mut Changes<'a>,
    ) -> Result<Deed<'a>, NoMemory>
        requires can { (connection : births.Connection) → finite.get self.old asking.now.endpoint ≡ Some connection → CanServe asking.now graph.old connection }
        requires short { length message.now.bytes.now ≤ limit.MAX_BYTES }
        requires none { told_by changes.old ≡ nothing_told }
        ensures served { (old : births.Connection) → finite.get self.old asking.now.endpoint ≡ Some old →
            (new : births.Connection) × KeepsHolds old new graph.old graph.new × (self.new ≡ finite.insert self.old asking.now.endpoint new)
            × IfOk result (λ deed. CanTell asking.now message.now.handles.now (done_with deed changes.new) new outbox.old outbox.new)
            × ((server : ℕ) (moment : Moment) → IsAskedAt server asking.now graph.old old moment →
            AreNamed asking.now.tokens.now (numbers_of message.now.handles.now) moment.directory →
            IfOk result (λ deed. Answers moment (outcome_of_read moment (request_of old.birth.protocol message.now.bytes.now message.now.handles.now)) (done_with deed changes.new) new graph.old graph.new outbox.old outbox.new)) }
        ensures passed_over { finite.get self.old asking.now.endpoint ≡ None → IfOk result (λ deed. IsPassedOver (done_with deed changes.new)) }
        ensures unchanged { finite.get self.old asking.now.endpoint ≡ None → (self.new ≡ self.old) × (graph.new ≡ graph.old) × (outbox.new ≡ outbox.old) }
        ensures no_memory { OnErr result (outbox.new ≡ outbox.old) }
    {
        let Some(connection) = self.kept.get_mut(&asking.endpoint) else {
            return Ok(Deed::Stays);
        };
        connection.serve(asking, message, graph, out, outbox, changes)
    }

    /// Serves the request for a part of a file on the one of an endpoint, where that is to a file, and tells whether
    /// it did: its reply stands in the output then. No other changes. Otherwise nothing is done.
    #[inline(always)]
    pub fn read(
        &mut self,
        ordinals: &Ordinals,
        endpoint: u32,
        graph: &mut Graph,
        txid: u32,
        request: &Request<'_>,
        out: &mut Out,
    ) -> bool
        requires node { (connection : births.Connection) → finite.get self.old endpoint ≡ Some connection → CanBeBound graph.old connection.birth }
        requires part { AsksPart (asked request.now) }
        requires txid { 0 < txid }
        ensures read { (old : births.Connection) → finite.get self.old endpoint ≡ Some old → result ≡ true →
            (old.birth.protocol ≡ Protocol.File)
            × (new : births.Connection) × IsPartServed old (asked request.now) txid out.new new graph.old graph.new × (self.new ≡ finite.insert self.old endpoint new) }
        ensures reads { (old : births.Connection) → finite.get self.old endpoint ≡ Some old → old.birth.protocol ≡ Protocol.File → result ≡ true }
        ensures there { finite.get self.old endpoint ≡ None → result ≡ false }
        ensures unchanged { result ≡ false → (self.new ≡ self.old) × (graph.new ≡ graph.old) }
    {
        let Some(connection) = self.kept.get_mut(&endpoint) else {
            return false;
        };
        connection.read(ordinals, graph, txid, request, out)
    }
}
