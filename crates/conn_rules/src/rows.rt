//! What the connections of all nodes do alike.

ghost use Rattle.std.specs.Prelude.{◌≡◌, ◌≢◌, ◌<◌, ◌≤◌, ℕ, true, Option, Some, length};
ghost use Rattle.fidl_names.specs.declared.methods.Method.TheVariants as method;
ghost use Rattle.fidl_wire.specs.Numbers.{padded};
ghost use Rattle.fidl_wire.specs.Written.{Written};
ghost use Rattle.io_messages.specs.Asked.{asked, method_of};
ghost use Rattle.io_messages.specs.Protocols.{home_of};
ghost use Rattle.io_messages.specs.Replies.{answered, payload};
ghost use Rattle.io_messages.specs.ReplyWriting.{PayloadFits};
ghost use Rattle.io_messages.specs.ReplyWriting as writing;
ghost use Rattle.io_messages.specs.Requests.{has_txid};
ghost use Rattle.io_messages.specs.Shapes.{is_one_way, shape_of};
ghost use Rattle.io_messages.specs.declared.replies.Shape.TheVariants as shape;
ghost use Rattle.node_graph.specs.Graph.{Kept, StandsFor};
ghost use Rattle.node_graph.specs.Tree.{Tree};
ghost use Rattle.conn_rules.specs.Acts.{clone_act, is_of_every_node, row_act};
ghost use Rattle.conn_rules.specs.Answers.{closes, failure_of, only, replies};
ghost use Rattle.conn_rules.specs.Births.{Connection, Position, born, clone_of, connection_with};
ghost use Rattle.conn_rules.specs.Contexts.{context_with};
ghost use Rattle.conn_rules.specs.Nodes.{attributes_of, protocol_name};
ghost use Rattle.conn_rules.specs.Served.{HasNothing, IsAnswered};
ghost use Rattle.conn_rules.specs.Shared.{CanBeBound, can_fail};

use crate::births::{Birth, Room};
use crate::node_attributes::attributes;
use crate::served::Served;
use fidl_names::{Method, Status};
use fidl_wire::{Ordinals, Out};
use io_messages::{Failing, Protocol, Reply, Request, failing_of, write_bytes, write_reply};
use node_graph::Graph;

/// Replies, into an empty output.
pub fn reply(ordinals: &Ordinals, txid: u32, reply: Reply<'_>, out: &mut Out) -> Served
    requires empty { HasNothing out.old }
    requires txid { 0 < txid }
    requires has { writing.HasReply (answered reply) }
    requires fits { PayloadFits (answered reply) }
    ensures kind { result ≡ Served.Reply }
    ensures served { (connection : Connection) (graph : Kept) →
        IsAnswered (only connection.position (replies (answered reply.entry))) txid result out.new
        connection graph }
{
    write_reply(ordinals, txid, reply, out);
    Served::Reply
}

/// Replies to a Read or a ReadAt with these bytes, into an empty output.
#[inline(always)]
pub fn reply_with(
    ordinals: &Ordinals,
    txid: u32,
    method: Method,
    bytes: &[u8],
    out: &mut Out,
) -> Served
    requires empty { HasNothing out.old }
    requires txid { 0 < txid }
    requires shape { shape_of method ≡ Some shape.Bytes }
    requires fits { PayloadFits (payload method bytes.now) }
    ensures kind { result ≡ Served.Reply }
    ensures served { (connection : Connection) (graph : Kept) →
        IsAnswered (only connection.position (replies (payload method bytes.now))) txid result
        out.new connection graph }
{
    write_bytes(ordinals, txid, method, bytes, out);
    Served::Reply
}

/// A request of this method fails: in its reply, or on the endpoint that it carries where it has
/// no reply.
pub fn fail(ordinals: &Ordinals, txid: u32, method: Method, status: Status, out: &mut Out) -> Served
    requires empty { HasNothing out.old }
    requires txid { has_txid (is_one_way method) txid ≡ true }
    requires form { can_fail method ≡ true }
    requires status { status ≢ Status.Ok }
    ensures served { (connection : Connection) (graph : Kept) →
        IsAnswered (only connection.position (failure_of method status)) txid result out.new
        connection graph }
    ensures memory { result ≢ Served.NoMemory }
    ensures lives { (last : Status) → result ≢ Served.End last }
{
    match failing_of(method) {
        Failing::Epitaph => Served::Refused(status),
        Failing::Reply => reply(ordinals, txid, Reply::Fails(method, status), out),
        Failing::Never => unreachable!(),
    }
}

/// Serves Close: the reply, and then the endpoint ends.
fn serve_close(ordinals: &Ordinals, txid: u32, out: &mut Out) -> Served
    requires empty { HasNothing out.old }
    requires txid { 0 < txid }
    ensures served { (connection : Connection) (graph : Kept) →
        IsAnswered (only connection.position closes) txid result out.new connection graph }
    ensures kind { result ≡ Served.ReplyEnd }
{
    write_reply(ordinals, txid, Reply::Done(Method::Close), out);
    Served::ReplyEnd
}

/// Serves Clone: the endpoint that it carries is bound like the connection, unless the server has
/// as many connections as it may.
fn serve_clone(birth: &Birth, room: Room) -> Served
    ensures served { (position : Position) (tree : Tree) (directory : ℕ → Option ℕ) (txid : ℕ)
        (out : Written) (graph : Kept) →
        HasNothing out → CanBeBound graph birth.now →
        IsAnswered (clone_act (context_with (born birth.now) position room tree directory)) txid
        result out (connection_with birth.now position) graph }
    ensures clone { (found : Birth) → result ≡ Served.Bind found → found ≡ clone_of birth.now }
    ensures memory { result ≢ Served.NoMemory }
    ensures lives { (last : Status) → result ≢ Served.End last }
{
    if room.is_full() {
        return Served::Refused(Status::NoResources);
    }
    Served::Bind(birth.of_clone())
}

/// Serves Query: the name of the connection's protocol.
fn serve_query(ordinals: &Ordinals, txid: u32, protocol: Protocol, out: &mut Out) -> Served
    requires empty { HasNothing out.old }
    requires txid { 0 < txid }
    ensures served { (connection : Connection) (graph : Kept) →
        IsAnswered (only connection.position
        (replies (payload method.Query (protocol_name protocol)))) txid result out.new connection
        graph }
    ensures kind { result ≡ Served.Reply }
{
    reply(
        ordinals,
        txid,
        Reply::Payload(Method::Query, protocol_name(protocol)),
        out,
    )
}

/// Serves a method that every node has: Clone, Close, Query, GetAttributes or Sync.
pub fn serve_node(
    birth: &Birth,
    ordinals: &Ordinals,
    graph: &Graph,
    room: Room,
    txid: u32,
    request: &Request<'_>,
    out: &mut Out,
) -> Served
    requires can { CanBeBound graph.now birth.now }
    requires home { is_of_every_node (home_of (method_of (asked request.now))) ≡ true }
    requires txid { has_txid (is_one_way (method_of (asked request.now))) txid ≡ true }
    requires empty { HasNothing out.old }
    ensures served { (position : Position) (tree : Tree) (directory : ℕ → Option ℕ) →
        StandsFor graph.now tree →
        IsAnswered (row_act (context_with (born birth.now) position room tree directory)
        (asked request.now)) txid result out.new (connection_with birth.now position) graph.now }
    ensures clone { (found : Birth) → result ≡ Served.Bind found → found ≡ clone_of birth.now }
    ensures memory { result ≢ Served.NoMemory }
    ensures lives { (last : Status) → result ≢ Served.End last }
{
    match request {
        Request::Clone { .. } => serve_clone(birth, room),
        Request::Close => serve_close(ordinals, txid, out),
        Request::Query => serve_query(ordinals, txid, birth.protocol, out),
        Request::GetAttributes { query } => {
            let found = attributes(graph, birth.node, *query);
            reply(ordinals, txid, Reply::Attributes(found), out)
        }
        Request::Sync => reply(ordinals, txid, Reply::Done(Method::Sync), out),
        _ => unreachable!(),
    }
}

/// The name by which Query tells a protocol.
#[tactic(auto, unfolding(fidl_wire::specs::Numbers::padding_after))]
fn protocol_name(protocol: Protocol) -> &'static [u8]
    ensures name { result.now ≡ protocol_name protocol }
    ensures short { padded (length result.now) ≤ 24 }
{
    match protocol {
        Protocol::Directory => b"fuchsia.io/Directory",
        Protocol::File => b"fuchsia.io/File",
        Protocol::Node => b"fuchsia.io/Node",
        Protocol::Echo => b"fuchsia.io/Node",
        Protocol::Watcher => b"fuchsia.io/Node",
    }
}
