ghost use Rattle.std.specs.Prelude.{◌≡◌, ◌≢◌, ℕ, true, Option};
ghost use Rattle.io_messages.specs.Asked.{asked, method_of};
ghost use Rattle.io_messages.specs.Protocols.{has_method};
ghost use Rattle.io_messages.specs.Requests.{has_txid};
ghost use Rattle.io_messages.specs.Shapes.{is_one_way};
ghost use Rattle.node_graph.specs.Graph.{StandsFor};
ghost use Rattle.node_graph.specs.Tree.{Tree};
ghost use Rattle.conn_rules.specs.Acts.{act_of, row_act};
ghost use Rattle.conn_rules.specs.Births.{fresh};
ghost use Rattle.conn_rules.specs.Contexts.{context_of};
ghost use Rattle.conn_rules.specs.Served.{HasNothing, IsServed, IsUntouched, KeepsHolds};
ghost use Rattle.conn_rules.specs.Served.{takes_memory};
ghost use Rattle.conn_rules.specs.Shared.{CanBeBound};

use conn_rules::{Birth, Room, Served, fail, method_refusal, serve_node};
use fidl_wire::{Ordinals, Out};
use io_messages::{Protocol, Request};
use node_graph::{Graph, NodeRef};
use std::marker::Model;

/// A connection to a file. Its position is a number of bytes below 2^63.
#[derive(Drop)]
pub struct FileConn {
    pub(crate) birth: Birth,
    pub(crate) position: u64,
}

impl Model for FileConn {
    ghost use Rattle.std.specs.Prelude.{◌<◌, ◌^◌};
    ghost use Rattle.dirents.specs.declared.place.Place.TheVariants.{Start};
    ghost use Rattle.conn_rules.specs.Births.{Connection};
    ghost use Rattle.conn_rules.specs.Codes.{connection_code};

    ghost Value = { Connection };

    ghost coded = { connection_code };

    ghost view = { λ c.
        record { birth = c.birth; position = record { offset = c.position; place = Start } } };

    ghost invariant = { λ c. c.position < 2 ^ 63 };
}

impl FileConn {
    /// A connection that was just bound: it reads from the file's start.
    pub fn new(birth: Birth) -> FileConn
        ensures birth { result.birth ≡ birth }
        ensures position { result.position ≡ fresh }
    {
        FileConn { birth, position: 0 }
    }

    /// The file that it is to.
    pub fn node(&self) -> NodeRef
        ensures { result ≡ self.now.birth.node }
    {
        self.birth.node
    }

    /// Serves a request to the connection, which writes its reply into the empty output. Its file
    /// is one that the graph keeps, and the message's transaction id is 0 exactly where the method
    /// has no reply. What is answered, where the connection then stands and how the file changes is
    /// said by the rows of the protocol.
    ///
    /// Want of memory is answered to Write, WriteAt and Resize alone, where nothing else refuses
    /// them; connection, graph and output are then as they were.
    #[inline(always)]
    pub fn serve(
        &mut self,
        ordinals: &Ordinals,
        graph: &mut Graph,
        room: Room,
        txid: u32,
        request: &Request<'_>,
        out: &mut Out,
    ) -> Served
        requires can { CanBeBound graph.old self.old.birth }
        requires protocol { self.old.birth.protocol ≡ Protocol.File }
        requires method { has_method Protocol.File (method_of (asked request.now)) ≡ true }
        requires txid { has_txid (is_one_way (method_of (asked request.now))) txid ≡ true }
        requires empty { HasNothing out.old }
        ensures serves { (tree : Tree) (directory : ℕ → Option ℕ) → StandsFor graph.old tree →
            result ≢ Served.NoMemory →
            IsServed (act_of (context_of self.old room tree directory) (asked request.now)) txid
            result out.new self.new graph.old graph.new }
        ensures holds { KeepsHolds self.old self.new graph.old graph.new }
        // Only what leaves bytes in the file takes memory.
        ensures memory { (tree : Tree) (directory : ℕ → Option ℕ) → StandsFor graph.old tree →
            result ≡ Served.NoMemory →
            takes_memory
            (act_of (context_of self.old room tree directory) (asked request.now)).change ≡ true }
        ensures untouched { result ≡ Served.NoMemory →
            IsUntouched out.new self.old self.new graph.old graph.new }
    {
        let method = request.method();
        match method_refusal(&self.birth, method) {
            Some(status) => fail(ordinals, txid, method, status, out),
            None => self.serve_row(ordinals, graph, room, txid, request, out),
        }
    }

    /// Serves a request whose method is not refused.
    #[inline(always)]
    fn serve_row(
        &mut self,
        ordinals: &Ordinals,
        graph: &mut Graph,
        room: Room,
        txid: u32,
        request: &Request<'_>,
        out: &mut Out,
    ) -> Served
        requires can { CanBeBound graph.old self.old.birth }
        requires protocol { self.old.birth.protocol ≡ Protocol.File }
        requires method { has_method Protocol.File (method_of (asked request.now)) ≡ true }
        requires txid { has_txid (is_one_way (method_of (asked request.now))) txid ≡ true }
        requires empty { HasNothing out.old }
        ensures serves { (tree : Tree) (directory : ℕ → Option ℕ) → StandsFor graph.old tree →
            result ≢ Served.NoMemory →
            IsServed (row_act (context_of self.old room tree directory) (asked request.now)) txid
            result out.new self.new graph.old graph.new }
        ensures holds { KeepsHolds self.old self.new graph.old graph.new }
        ensures memory { (tree : Tree) (directory : ℕ → Option ℕ) → StandsFor graph.old tree →
            result ≡ Served.NoMemory →
            takes_memory
            (row_act (context_of self.old room tree directory) (asked request.now)).change ≡ true }
        ensures untouched { result ≡ Served.NoMemory →
            IsUntouched out.new self.old self.new graph.old graph.new }
    {
        match request {
            Request::Read { count } => self.read(ordinals, graph, txid, *count, out),
            Request::ReadAt { count, offset } => {
                self.read_at(ordinals, graph, txid, *count, *offset, out)
            }
            Request::Write { bytes } => self.write(ordinals, graph, txid, bytes, out),
            Request::WriteAt { bytes, offset } => {
                self.write_at(ordinals, graph, txid, bytes, *offset, out)
            }
            Request::Seek { origin, offset } => {
                self.seek(ordinals, graph, txid, *origin, *offset, out)
            }
            Request::Resize { length } => self.resize(ordinals, graph, txid, *length, out),
            _ => {
                // A copy is lent, so that the request itself need not lie in memory.
                let request = *request;
                serve_node(&self.birth, ordinals, graph, room, txid, &request, out)
            }
        }
    }
}
