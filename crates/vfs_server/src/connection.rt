//! The serving of what is sent to a connection.

ghost use Rattle.std.specs.Prelude.{◌≡◌, ◌≤◌, ◌<◌, ◌≢◌, ℕ, true, false, OnErr, IfOk, length};
ghost use Rattle.fidl_names.specs.declared.limits.TheConstants as limit;
ghost use Rattle.io_messages.specs.Asked.{asked};
ghost use Rattle.io_messages.specs.Requests.{request_of};
ghost use Rattle.request_reader.specs.Parts.{AsksPart};
ghost use Rattle.conn_rules.specs.Served.{HasNothing, KeepsHolds, told_by};
ghost use Rattle.conn_rules.specs.Answers.{nothing_told};
ghost use Rattle.conn_rules.specs.Shared.{CanBeBound};
ghost use Rattle.vfs_journal.specs.Handles.{numbers_of};
ghost use Rattle.vfs_journal.specs.Serving.{Moment, outcome_of_read};
ghost use Rattle.vfs_server.specs.Steps.{Answers, AreNamed, CanServe, CanTell, IsAskedAt, IsOfItsKind, IsPartServed, connection_of, done_with};

use crate::answers::{Asker, answer, answer_fault, object_of};
use crate::asking::Asking;
use crate::conn::Conn;
use crate::deed::Deed;
use crate::message::Message;
use conn_rules::{Changes, Room};
use fidl_names::NoMemory;
use fidl_wire::{Ordinals, Out};
use file_conn::FileConn;
use io_messages::{Protocol, Request};
use link_frames::Outbox;
use node_graph::Graph;
use request_reader::read_request;

impl Conn {
    /// Serves a message: the frames of the answer are written, and the call tells what is to be done then. What
    /// watchers are to be told is put into the changes.
    ///
    /// For want of memory no frame is written.
    #[inline(never)]
    pub fn serve<'a>(
        &mut self,
        asking: &Asking<'_>,
        message: &Message<'a>,
        graph: &mut Graph,
        out: &mut Out,
        outbox: &mut Outbox,
        changes: &mut Changes<'a>,
    ) -> Result<Deed<'a>, NoMemory>
        requires kind { IsOfItsKind self.old }
        requires can { CanServe asking.now graph.old (connection_of self.old) }
        requires none { told_by changes.old ≡ nothing_told }
        requires short { length message.now.bytes.now ≤ limit.MAX_BYTES }
        ensures answers { (server : ℕ) (moment : Moment) → IsAskedAt server asking.now graph.old (connection_of self.old) moment →
            AreNamed asking.now.tokens.now (numbers_of message.now.handles.now) moment.directory →
            IfOk result (λ deed. Answers moment (outcome_of_read moment (request_of (connection_of self.old).birth.protocol message.now.bytes.now message.now.handles.now)) (done_with deed changes.new) (connection_of self.new) graph.old graph.new outbox.old outbox.new) }
        ensures tells { IfOk result (λ deed. CanTell asking.now message.now.handles.now (done_with deed changes.new) (connection_of self.new) outbox.old outbox.new) }
        ensures holds { KeepsHolds (connection_of self.old) (connection_of self.new) graph.old graph.new }
        ensures kind { IsOfItsKind self.new }
        ensures no_memory { OnErr result (outbox.new ≡ outbox.old) }
    {
        out.clear();
        match read_request(
            asking.ordinals,
            self.protocol(),
            message.bytes,
            message.handles,
        ) {
            Ok((txid, request)) => {
                let given = self.answer(asking, graph, txid, &request, out);
                let asker = Asker {
                    endpoint: asking.endpoint,
                    node: self.node(),
                    object: object_of(&request),
                };
                answer(asking.ordinals, &asker, given, out, outbox, changes)
            }
            Err(fault) => answer_fault(asking, fault, out, outbox),
        }
    }

    /// Serves the request for a part of a file, where it is a connection to one, and tells whether it did: its reply
    /// stands in the output then. On any other connection nothing is done.
    #[inline(always)]
    pub fn read(
        &mut self,
        ordinals: &Ordinals,
        graph: &mut Graph,
        txid: u32,
        request: &Request<'_>,
        out: &mut Out,
    ) -> bool
        requires kind { IsOfItsKind self.old }
        requires node { CanBeBound graph.old (connection_of self.old).birth }
        requires part { AsksPart (asked request.now) }
        requires txid { 0 < txid }
        ensures file { result ≡ true → (connection_of self.old).birth.protocol ≡ Protocol.File }
        ensures reads { (connection_of self.old).birth.protocol ≡ Protocol.File → result ≡ true }
        ensures served { result ≡ true → IsPartServed (connection_of self.old) (asked request.now) txid out.new (connection_of self.new) graph.old graph.new }
        ensures kind { IsOfItsKind self.new }
        ensures unchanged { result ≡ false → (self.new ≡ self.old) × (graph.new ≡ graph.old) }
    {
        let Conn::File(conn) = self else {
            return false;
        };
        out.clear();
        serve_part(conn, ordinals, graph, txid, request, out);
        true
    }
}

/// Serves the request for a part of a file on a connection to it: its reply stands in the output.
#[inline(always)]
fn serve_part(
    conn: &mut FileConn,
    ordinals: &Ordinals,
    graph: &mut Graph,
    txid: u32,
    request: &Request<'_>,
    out: &mut Out,
)
    requires can { CanBeBound graph.old conn.old.birth }
    requires protocol { conn.old.birth.protocol ≡ Protocol.File }
    requires part { AsksPart (asked request.now) }
    requires txid { 0 < txid }
    requires empty { HasNothing out.old }
    ensures { IsPartServed conn.old (asked request.now) txid out.new conn.new graph.old graph.new }
{
    // The graph stands for a tree, over which a part is read without memory.
    let _root = graph.root();
    // It looks at nothing that is in use.
    let room = Room {
        connections: 0,
        watchers: 0,
        token: None,
    };
    // Each method has a call of its own, in which the compiler knows it.
    match request {
        Request::Read { .. } => {
            conn.serve(ordinals, graph, room, txid, request, out);
        }
        Request::ReadAt { .. } => {
            conn.serve(ordinals, graph, room, txid, request, out);
        }
        _ => unreachable!(),
    }
}
