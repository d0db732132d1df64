//! What a GetToken does.

ghost use Rattle.std.specs.Prelude.{◌≡◌, ◌≢◌, ℕ, true, false, Option};
ghost use Rattle.io_messages.specs.Requests.{has_txid};
ghost use Rattle.node_graph.specs.Graph.{Kept};
ghost use Rattle.node_graph.specs.Tree.{Tree};
ghost use Rattle.conn_rules.specs.Births.{Position, born, connection_with};
ghost use Rattle.conn_rules.specs.Contexts.{context_with};
ghost use Rattle.conn_rules.specs.NameRows.{token_act};
ghost use Rattle.conn_rules.specs.Served.{HasNothing};
ghost use Rattle.dir_conn.specs.Served.{IsDirServed};

use crate::served::{DirServed, of_node};
use conn_rules::{Birth, Room, fail, reply};
use fidl_names::{Method, Status};
use fidl_wire::{Ordinals, Out};
use io_messages::Reply;

/// Gives the server's next token, where there is one.
pub(crate) fn get_token<'a>(
    birth: &Birth,
    ordinals: &Ordinals,
    room: Room,
    txid: u32,
    out: &mut Out,
) -> DirServed<'a>
    requires txid { has_txid false txid ≡ true }
    requires empty { HasNothing out.old }
    ensures served { (tree : Tree) (position : Position) (directory : ℕ → Option ℕ) (graph : Kept) →
        IsDirServed (token_act (context_with (born birth.now) position room tree directory)) txid
        result out.new (connection_with birth.now position) graph
        graph }
    ensures memory { result ≢ DirServed.NoMemory }
{
    match room.token {
        Some(number) => of_node(reply(ordinals, txid, Reply::Token(number), out)),
        None => of_node(fail(ordinals, txid, Method::GetToken, Status::NoResources, out)),
    }
}
