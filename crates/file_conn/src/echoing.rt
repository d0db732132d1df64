//! The service that echoes.

ghost use Rattle.std.specs.Prelude.{◌≡◌, ◌≢◌, ℕ, true, Option, IsTrue};
ghost use Rattle.std.specs.Str.{IsUtf8};
ghost use Rattle.io_messages.specs.Asked.{asked, method_of};
ghost use Rattle.io_messages.specs.Protocols.{has_method};
ghost use Rattle.io_messages.specs.Replies.{payload};
ghost use Rattle.io_messages.specs.ReplyWriting.{PayloadFits};
ghost use Rattle.io_messages.specs.Requests.{has_txid};
ghost use Rattle.io_messages.specs.Shapes.{is_one_way};
ghost use Rattle.io_rights.specs.declared.operations.Operation.TheVariants as op;
ghost use Rattle.io_rights.specs.Operations.{is_within, single};
ghost use Rattle.node_graph.specs.Graph.{Kept};
ghost use Rattle.node_graph.specs.Tree.{Tree};
ghost use Rattle.conn_rules.specs.declared.births.Room.{Room};
ghost use Rattle.conn_rules.specs.Acts.{act_of};
ghost use Rattle.conn_rules.specs.Births.{Connection};
ghost use Rattle.conn_rules.specs.Contexts.{context_of};
ghost use Rattle.conn_rules.specs.Served.{HasNothing, IsAnswered};
ghost use Rattle.file_conn.specs.Texts.{text_of};

use conn_rules::{Served, reply};
use fidl_names::Method;
use fidl_wire::{Ordinals, Out};
use io_messages::{Protocol, Reply, Request};

/// Serves EchoString, the one method of the service: its reply, which is written into the empty
/// output, has the same text, which is UTF-8 and fits into a message. Each connection to the
/// service has the right to connect. It takes no memory.
pub fn echo(ordinals: &Ordinals, txid: u32, request: &Request<'_>, out: &mut Out) -> Served
    requires method { has_method Protocol.Echo (method_of (asked request.now)) ≡ true }
    requires txid { has_txid (is_one_way (method_of (asked request.now))) txid ≡ true }
    requires empty { HasNothing out.old }
    requires text { IsUtf8 (text_of (asked request.now)) }
    requires fits { PayloadFits (payload Method.EchoString (text_of (asked request.now))) }
    ensures serves { (connection : Connection) (graph : Kept) (room : Room) (tree : Tree)
        (directory : ℕ → Option ℕ) →
        connection.birth.protocol ≡ Protocol.Echo →
        IsTrue (is_within (single op.Connect) connection.birth.rights) →
        result ≢ Served.NoMemory →
        IsAnswered (act_of (context_of connection room tree directory) (asked request.now)) txid
        result out.new connection graph }
    ensures memory { result ≢ Served.NoMemory }
{
    match request {
        Request::EchoString { value } => reply(
            ordinals,
            txid,
            Reply::Payload(Method::EchoString, value),
            out,
        ),
        _ => unreachable!(),
    }
}
