ghost use Rattle.std.specs.Prelude.{◌≡◌, ◌≢◌, ◌<◌, ◌^◌, ℕ, true, Option, Some};
ghost use Rattle.std.specs.Option.{option_map};
ghost use Rattle.io_messages.specs.Asked.{asked, method_of};
ghost use Rattle.io_messages.specs.Protocols.{has_method};
ghost use Rattle.io_messages.specs.Requests.{has_txid};
ghost use Rattle.io_messages.specs.Shapes.{is_one_way};
ghost use Rattle.node_graph.specs.declared.nodes.NodeKind.TheVariants.{Directory};
ghost use Rattle.node_graph.specs.Graph.{Names, StandsFor, kind_at, number_of};
ghost use Rattle.node_graph.specs.Tree.{Tree};
ghost use Rattle.conn_rules.specs.Acts.{act_of, row_act};
ghost use Rattle.conn_rules.specs.Births.{born, connection_with, fresh};
ghost use Rattle.conn_rules.specs.Contexts.{context_of, context_with};
ghost use Rattle.conn_rules.specs.Served.{HasNothing, IsUntouched, KeepsHolds, takes_memory};
ghost use Rattle.conn_rules.specs.Shared.{CanBeBound};
ghost use Rattle.dir_conn.specs.Opened.{Keeps};
ghost use Rattle.dir_conn.specs.Served.{IsDirServed, directory_named, standing_at};

use crate::link::link;
use crate::listing::{list, rewind};
use crate::open::open;
use crate::rename::rename;
use crate::served::{DirServed, of_node};
use crate::token::get_token;
use crate::unlink::unlink;
use crate::watch::watch;
use conn_rules::{Birth, Room, fail, method_refusal, serve_node};
use dirents::Place;
use fidl_wire::{Ordinals, Out};
use io_messages::{Protocol, Request};
use node_graph::{Graph, NodeRef};
use std::marker::Model;

/// A connection to a directory. Contracts see its birth and its position. The name behind which its
/// listing goes on makes it large, so a table of connections keeps it in a box of its own.
#[derive(Drop)]
pub struct DirConn {
    birth: Birth,
    place: Place,
}

impl Model for DirConn {
    ghost use Rattle.conn_rules.specs.Births.{Connection};
    ghost use Rattle.conn_rules.specs.Codes.{connection_code};
    ghost use Rattle.dir_conn.specs.Served.{standing_at};

    ghost Value = { Connection };

    ghost coded = { connection_code };

    ghost view = { λ conn. record { birth = conn.birth; position = standing_at conn.place } };
}

impl DirConn {
    /// A connection that was just bound.
    pub fn new(birth: Birth) -> DirConn
        ensures birth { result.birth ≡ birth }
        ensures position { result.position ≡ fresh }
    {
        DirConn {
            birth,
            place: Place::Start,
        }
    }

    /// The directory that it is to.
    pub fn node(&self) -> NodeRef
        ensures { result ≡ self.now.birth.node }
    {
        self.birth.node
    }

    /// Serves a request of this server's tree; what it does is said by the rows of the protocol.
    /// `target` is the directory that the request's token names, `None` for a token of another
    /// server and for a request without one. Of the endpoint that a request carries, the answer
    /// tells what becomes; every other answer stands in the output as a message.
    ///
    /// Want of memory is answered to Link, Rename and an Open that creates alone, where nothing
    /// else refuses them; connection, graph and output are then as they were.
    pub fn serve<'a>(
        &mut self,
        ordinals: &Ordinals,
        graph: &mut Graph,
        room: Room,
        target: Option<NodeRef>,
        txid: u32,
        request: Request<'a>,
        out: &mut Out,
    ) -> DirServed<'a>
        requires can { CanBeBound graph.old self.old.birth }
        requires protocol { self.old.birth.protocol ≡ Protocol.Directory }
        requires target { (node : NodeRef) → target ≡ Some node →
            Names graph.old node × (kind_at graph.old (number_of node) ≡ Some Directory) }
        requires made { graph.old.made < 2 ^ 63 }
        requires method { has_method Protocol.Directory (method_of (asked request)) ≡ true }
        requires txid { has_txid (is_one_way (method_of (asked request))) txid ≡ true }
        requires empty { HasNothing out.old }
        ensures serves { (tree : Tree) (directory : ℕ → Option ℕ) → StandsFor graph.old tree →
            directory_named directory (asked request.entry) ≡ option_map number_of target →
            result ≢ DirServed.NoMemory →
            IsDirServed (act_of (context_of self.old room tree directory) (asked request.entry))
            txid result out.new self.new graph.old graph.new }
        ensures holds { KeepsHolds self.old self.new graph.old graph.new }
        // Only a change that takes memory finds it wanting.
        ensures memory { (tree : Tree) (directory : ℕ → Option ℕ) → StandsFor graph.old tree →
            directory_named directory (asked request.entry) ≡ option_map number_of target →
            result ≡ DirServed.NoMemory →
            takes_memory (act_of (context_of self.old room tree directory)
            (asked request.entry)).change ≡ true }
        ensures untouched { result ≡ DirServed.NoMemory →
            IsUntouched out.new self.old self.new graph.old graph.new }
    {
        let method = request.method();
        match method_refusal(&self.birth, method) {
            Some(status) => of_node(fail(ordinals, txid, method, status, out)),
            None => serve_row(
                &self.birth,
                &mut self.place,
                ordinals,
                graph,
                room,
                target,
                txid,
                request,
                out,
            ),
        }
    }
}

/// Serves a request that isn't refused for its method.
fn serve_row<'a>(
    birth: &Birth,
    place: &mut Place,
    ordinals: &Ordinals,
    graph: &mut Graph,
    room: Room,
    target: Option<NodeRef>,
    txid: u32,
    request: Request<'a>,
    out: &mut Out,
) -> DirServed<'a>
    requires can { CanBeBound graph.old birth.now }
    requires target { (node : NodeRef) → target ≡ Some node →
        Names graph.old node × (kind_at graph.old (number_of node) ≡ Some Directory) }
    requires made { graph.old.made < 2 ^ 63 }
    requires protocol { birth.now.protocol ≡ Protocol.Directory }
    requires method { has_method Protocol.Directory (method_of (asked request)) ≡ true }
    requires txid { has_txid (is_one_way (method_of (asked request))) txid ≡ true }
    requires empty { HasNothing out.old }
    ensures served { (tree : Tree) (directory : ℕ → Option ℕ) → StandsFor graph.old tree →
        directory_named directory (asked request.entry) ≡ option_map number_of target →
        result ≢ DirServed.NoMemory →
        IsDirServed (row_act
        (context_with (born birth.now) (standing_at place.old) room tree directory)
        (asked request.entry)) txid result out.new
        (connection_with birth.now (standing_at place.new)) graph.old graph.new }
    ensures keeps { Keeps graph.old graph.new }
    ensures memory { (tree : Tree) (directory : ℕ → Option ℕ) → StandsFor graph.old tree →
        directory_named directory (asked request.entry) ≡ option_map number_of target →
        result ≡ DirServed.NoMemory →
        takes_memory (row_act
        (context_with (born birth.now) (standing_at place.old) room tree directory)
        (asked request.entry)).change ≡ true }
    ensures untouched { result ≡ DirServed.NoMemory → graph.new ≡ graph.old }
    ensures stays { result ≡ DirServed.NoMemory → place.new ≡ place.old }
    ensures empty { result ≡ DirServed.NoMemory → HasNothing out.new }
{
    match request {
        Request::OpenPath { path, flags, .. } => open(birth, graph, room, path, flags),
        Request::ReadDirents { max_bytes } => {
            list(birth, place, ordinals, graph, txid, max_bytes, out)
        }
        Request::Rewind => rewind(birth, place, ordinals, txid, out),
        Request::GetToken => get_token(birth, ordinals, room, txid, out),
        Request::Rename { src, dst, .. } => {
            rename(birth, ordinals, graph, target, txid, src, dst, out)
        }
        Request::Link { src, dst, .. } => {
            link(birth, ordinals, graph, target, txid, src, dst, out)
        }
        Request::Unlink { name, flags } => unlink(birth, ordinals, graph, txid, name, flags, out),
        Request::Watch { mask, options, .. } => {
            watch(birth, ordinals, room, txid, mask, options, out)
        }
        _ => of_node(serve_node(birth, ordinals, graph, room, txid, &request, out)),
    }
}
