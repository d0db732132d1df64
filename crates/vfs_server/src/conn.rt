//! The connections to all kinds of node, as one.

ghost use Rattle.std.specs.Prelude.{◌≡◌, ◌≢◌, ℕ, IfOk, Option};
ghost use Rattle.io_messages.specs.Asked.{asked};
ghost use Rattle.node_graph.specs.Graph.{StandsFor};
ghost use Rattle.node_graph.specs.Tree.{Tree};
ghost use Rattle.conn_rules.specs.Births.{fresh};
ghost use Rattle.conn_rules.specs.Served.{HasNothing, KeepsHolds};
ghost use Rattle.vfs_server.specs.Steps.{Acts, CanServe, IsOfItsKind, IsRequestTo, NamesAsThere, act_asked, connection_of, given_by, of_other, told_in};
ghost use Rattle.vfs_server.specs.Given as gives;
ghost use Rattle.conn_rules.specs.Answers.{nothing_told};

use crate::asking::Asking;
use conn_rules::{Birth, Changes, Served};
use dir_conn::{DirConn, DirServed};
use fidl_names::{NoMemory, Status};
use fidl_wire::Out;
use file_conn::{FileConn, NodeConn, echo};
use io_messages::{Protocol, Request};
use node_graph::{Graph, NodeRef};
use std::alloc::Global;

/// A connection, by what it is to. To the service that echoes it has a birth alone. One to a directory
/// is large, and so lies in a box.
#[derive(Drop)]
pub(crate) enum Conn {
    Directory(Box<DirConn>),
    File(FileConn),
    Node(NodeConn),
    Echo(Birth),
}

impl Conn {
    /// A connection that was just bound.
    pub fn new(alloc: Global, birth: Birth) -> Result<Conn, NoMemory>
        requires watcher { birth.protocol ≢ Protocol.Watcher }
        ensures birth { IfOk result (λ conn. (connection_of conn).birth ≡ birth) }
        ensures position { IfOk result (λ conn. (connection_of conn).position ≡ fresh) }
        ensures kind { IfOk result IsOfItsKind }
    {
        match birth.protocol {
            Protocol::Directory => Ok(Conn::Directory(Box::new(alloc, DirConn::new(birth))?)),
            Protocol::File => Ok(Conn::File(FileConn::new(birth))),
            Protocol::Node => Ok(Conn::Node(NodeConn::new(birth))),
            Protocol::Echo => Ok(Conn::Echo(birth)),
            Protocol::Watcher => unreachable!(),
        }
    }

    /// The protocol.
    pub fn protocol(&self) -> Protocol
        requires kind { IsOfItsKind self.now }
        ensures { result ≡ (connection_of self.now).birth.protocol }
    {
        match self {
            Conn::Directory(_) => Protocol::Directory,
            Conn::File(_) => Protocol::File,
            Conn::Node(_) => Protocol::Node,
            Conn::Echo(_) => Protocol::Echo,
        }
    }

    /// The node that it is bound to.
    pub fn node(&self) -> NodeRef
        ensures { result ≡ (connection_of self.now).birth.node }
    {
        match self {
            Conn::Directory(conn) => conn.node(),
            Conn::File(conn) => conn.node(),
            Conn::Node(conn) => conn.node(),
            Conn::Echo(birth) => birth.node,
        }
    }

    /// Serves a request. A directory that its token names is looked up among the server's tokens. The answer is as a
    /// directory's connection gives it, but that the connection's own endpoint may end with a status.
    pub fn answer<'a>(
        &mut self,
        asking: &Asking<'_>,
        graph: &mut Graph,
        txid: u32,
        request: &Request<'a>,
        out: &mut Out,
    ) -> Result<DirServed<'a>, Status>
        requires kind { IsOfItsKind self.old }
        requires can { CanServe asking.now graph.old (connection_of self.old) }
        requires request { IsRequestTo (connection_of self.old).birth.protocol txid (asked request.now) }
        requires empty { HasNothing out.old }
        ensures acts { (tree : Tree) (directory : ℕ → Option ℕ) → StandsFor graph.old tree →
            NamesAsThere asking.now.tokens.now directory (asked request.now) → given_by result ≢ gives.NoMemory →
            Acts (act_asked asking.now (connection_of self.old) tree directory (asked request.now)) txid (given_by result) (told_in result) out.new (connection_of self.new) graph.old graph.new }
        ensures holds { KeepsHolds (connection_of self.old) (connection_of self.new) graph.old graph.new }
        ensures kind { IsOfItsKind self.new }
    {
        let ordinals = asking.ordinals;
        let room = asking.room(self, graph, request);
        match self {
            Conn::Directory(conn) => {
                let target = asking.tokens.target(request);
                Ok(conn.serve(ordinals, graph, room, target, txid, *request, out))
            }
            Conn::File(conn) => as_directory(conn.serve(ordinals, graph, room, txid, request, out)),
            // Copies are lent here, so that a request to a file need not lie in memory.
            Conn::Node(conn) => {
                let request = *request;
                as_directory(conn.serve(ordinals, graph, room, txid, &request, out))
            }
            Conn::Echo(_) => {
                let request = *request;
                as_directory(echo(ordinals, txid, &request, out))
            }
        }
    }
}

/// What a connection gives at which no name comes or goes, as a directory's would; or the status with which its own
/// endpoint ends.
fn as_directory<'a>(served: Served) -> Result<DirServed<'a>, Status>
    ensures given { given_by result ≡ of_other served }
    ensures told { told_in result ≡ nothing_told }
{
    match served {
        Served::Reply => Ok(DirServed::Reply(Changes::none())),
        Served::ReplyEnd => Ok(DirServed::ReplyEnd),
        Served::Bind(birth) => Ok(DirServed::Bind(birth, Changes::none())),
        Served::Refused(status) => Ok(DirServed::Refused(status)),
        Served::End(status) => Err(status),
        Served::NoMemory => Ok(DirServed::NoMemory),
    }
}
