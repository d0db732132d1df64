//! What a Watch does.

ghost use Rattle.std.specs.Prelude.{◌≡◌, ◌≢◌, ℕ, true, false, Option, IfSome};
ghost use Rattle.io_messages.specs.Requests.{has_txid};
ghost use Rattle.node_graph.specs.Graph.{Kept};
ghost use Rattle.node_graph.specs.Tree.{Tree};
ghost use Rattle.conn_rules.specs.Births.{Position, born, connection_with};
ghost use Rattle.conn_rules.specs.Contexts.{context_with};
ghost use Rattle.conn_rules.specs.NameRows.{watch_act, watch_refusals};
ghost use Rattle.conn_rules.specs.Served.{HasNothing};
ghost use Rattle.fidl_names.specs.First.{first_of};
ghost use Rattle.dir_conn.specs.Served.{IsDirServed};

use crate::served::{DirServed, of_node};
use conn_rules::{Birth, Room, fail, reply};
use fidl_names::{MAX_WATCHERS, Method, Status};
use fidl_wire::{Ordinals, Out};
use io_messages::Reply;

// The bits of the five events that a watcher can ask for.
const EVERY_EVENT: u32 = 31;

/// Lets the endpoint of the request watch the directory, unless that is refused.
pub(crate) fn watch<'a>(
    birth: &Birth,
    ordinals: &Ordinals,
    room: Room,
    txid: u32,
    mask: u32,
    options: u32,
    out: &mut Out,
) -> DirServed<'a>
    requires txid { has_txid false txid ≡ true }
    requires empty { HasNothing out.old }
    ensures served { (tree : Tree) (position : Position) (directory : ℕ → Option ℕ) (graph : Kept) →
        IsDirServed (watch_act (context_with (born birth.now) position room tree directory) mask
        options) txid result out.new
        (connection_with birth.now position) graph graph }
    ensures memory { result ≢ DirServed.NoMemory }
{
    match refusal(room, mask, options) {
        Some(status) => of_node(fail(ordinals, txid, Method::Watch, status, out)),
        None => {
            reply(ordinals, txid, Reply::Settled(Method::Watch), out);
            DirServed::WatchBy(mask)
        }
    }
}

/// Why a Watch is refused: for what it asks, and then for want of a place.
fn refusal(room: Room, mask: u32, options: u32) -> Option<Status>
    ensures first { result ≡ first_of (watch_refusals room mask options) }
    ensures status { IfSome result (λ status. status ≢ Status.Ok) }
{
    if mask == 0 || mask > EVERY_EVENT || options != 0 {
        return Some(Status::InvalidArgs);
    }
    if room.watchers >= MAX_WATCHERS || room.is_full() {
        return Some(Status::NoResources);
    }
    None
}
