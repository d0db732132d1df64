//! References to nodes.

ghost use Rattle.std.specs.Prelude.{◌≡◌, ◌≢◌, ℕ, true, Option};
ghost use Rattle.io_messages.specs.Asked.{asked, method_of};
ghost use Rattle.io_messages.specs.Protocols.{has_method};
ghost use Rattle.io_messages.specs.Requests.{has_txid};
ghost use Rattle.io_messages.specs.Shapes.{is_one_way};
ghost use Rattle.node_graph.specs.Graph.{StandsFor};
ghost use Rattle.node_graph.specs.Tree.{Tree};
ghost use Rattle.conn_rules.specs.Acts.{act_of};
ghost use Rattle.conn_rules.specs.Births.{fresh};
ghost use Rattle.conn_rules.specs.Contexts.{context_of};
ghost use Rattle.conn_rules.specs.Served.{HasNothing, IsServed, KeepsHolds};
ghost use Rattle.conn_rules.specs.Shared.{CanBeBound};

use conn_rules::{Birth, Room, Served, fail, method_refusal, serve_node};
use fidl_wire::{Ordinals, Out};
use io_messages::{Protocol, Request};
use node_graph::{Graph, NodeRef};
use std::marker::Model;

/// A reference to a node of any kind but a mount. It has the methods of every node, and answers
/// BAD_HANDLE to those of directories and files.
#[derive(Drop)]
pub struct NodeConn {
    birth: Birth,
}

impl Model for NodeConn {
    ghost use Rattle.conn_rules.specs.Births.{Connection, fresh};
    ghost use Rattle.conn_rules.specs.Codes.{connection_code};

    ghost Value = { Connection };

    ghost coded = { connection_code };

    ghost view = { λ conn. record { birth = conn.birth; position = fresh } };
}

impl NodeConn {
    /// A reference that was just bound.
    pub fn new(birth: Birth) -> NodeConn
        ensures birth { result.birth ≡ birth }
        ensures position { result.position ≡ fresh }
    {
        NodeConn { birth }
    }

    /// The node that it refers to.
    pub fn node(&self) -> NodeRef
        ensures { result ≡ self.now.birth.node }
    {
        self.birth.node
    }

    /// Serves a request to the reference, which writes its reply into the empty output. Its node is
    /// one that the graph keeps, and the message's transaction id is 0 exactly where the method has
    /// no reply. What is answered is said by the rows of the protocol. It takes no memory.
    pub fn serve(
        &mut self,
        ordinals: &Ordinals,
        graph: &mut Graph,
        room: Room,
        txid: u32,
        request: &Request<'_>,
        out: &mut Out,
    ) -> Served
        requires can { CanBeBound graph.old self.old.birth }
        requires protocol { self.old.birth.protocol ≡ Protocol.Node }
        requires method { has_method Protocol.Node (method_of (asked request.now)) ≡ true }
        requires txid { has_txid (is_one_way (method_of (asked request.now))) txid ≡ true }
        requires empty { HasNothing out.old }
        ensures serves { (tree : Tree) (directory : ℕ → Option ℕ) → StandsFor graph.old tree →
            result ≢ Served.NoMemory →
            IsServed (act_of (context_of self.old room tree directory) (asked request.now)) txid
            result out.new self.new graph.old graph.new }
        ensures holds { KeepsHolds self.old self.new graph.old graph.new }
        ensures memory { result ≢ Served.NoMemory }
    {
        let method = request.method();
        match method_refusal(&self.birth, method) {
            Some(status) => fail(ordinals, txid, method, status, out),
            None => serve_node(&self.birth, ordinals, graph, room, txid, request, out),
        }
    }
}
