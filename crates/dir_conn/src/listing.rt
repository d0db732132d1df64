//! What a ReadDirents and a Rewind do.

ghost use Rattle.std.specs.Prelude.{◌≡◌, ◌≢◌, ◌==◌, ◌&&◌, ℕ, true, false, Option, Some};
ghost use Rattle.io_messages.specs.Requests.{has_txid};
ghost use Rattle.node_graph.specs.declared.nodes.NodeKind.TheVariants.{Directory};
ghost use Rattle.node_graph.specs.Graph.{Kept, Names, StandsFor, kind_at, number_of};
ghost use Rattle.node_graph.specs.Tree.{Tree};
ghost use Rattle.conn_rules.specs.declared.births.Room.{Room};
ghost use Rattle.conn_rules.specs.Births.{born, connection_with};
ghost use Rattle.conn_rules.specs.Contexts.{context_with};
ghost use Rattle.conn_rules.specs.Listings.{listing_act, rewind_act};
ghost use Rattle.conn_rules.specs.Served.{HasNothing};
ghost use Rattle.dir_conn.specs.Served.{IsDirServed, standing_at};

use crate::served::{DirServed, of_node};
use conn_rules::{Birth, Changes, fail, reply};
use dirents::{Packed, Place, measure, pack};
use fidl_names::{MAX_CHUNK, Method, Status};
use fidl_wire::{Ordinals, Out};
use io_messages::{Reply, begin_listing};
use node_graph::Graph;

/// Lists the directory from a place on, in at most so many bytes. The place goes behind what was
/// listed.
pub(crate) fn list<'a>(
    birth: &Birth,
    place: &mut Place,
    ordinals: &Ordinals,
    graph: &Graph,
    txid: u32,
    most: u64,
    out: &mut Out,
) -> DirServed<'a>
    requires named { Names graph.now birth.now.node }
    requires kind { kind_at graph.now (number_of birth.now.node) ≡ Some Directory }
    requires txid { has_txid false txid ≡ true }
    requires empty { HasNothing out.old }
    ensures served { (tree : Tree) (room : Room) (directory : ℕ → Option ℕ) →
        StandsFor graph.now tree →
        IsDirServed (listing_act
        (context_with (born birth.now) (standing_at place.old) room tree directory) most) txid
        result out.new
        (connection_with birth.now (standing_at place.new)) graph.now graph.now }
    ensures memory { result ≢ DirServed.NoMemory }
{
    if most > MAX_CHUNK {
        let status = Status::InvalidArgs;
        return of_node(fail(ordinals, txid, Method::ReadDirents, status, out));
    }
    let found = measure(graph, birth.node, place, most as usize);
    if is_stuck(&found) {
        let status = Status::BufferTooSmall;
        return of_node(fail(ordinals, txid, Method::ReadDirents, status, out));
    }
    begin_listing(ordinals, txid, found.bytes, out);
    let packed = pack(graph, birth.node, place, most as usize, out);
    out.pad();
    *place = packed.next;
    DirServed::Reply(Changes::none())
}

/// More entries follow, and none of them fits.
fn is_stuck(found: &Packed) -> bool
    ensures { result ≡ (found.now.more && (found.now.count == 0)) }
{
    found.more && found.count == 0
}

/// The listing begins anew.
pub(crate) fn rewind<'a>(
    birth: &Birth,
    place: &mut Place,
    ordinals: &Ordinals,
    txid: u32,
    out: &mut Out,
) -> DirServed<'a>
    requires txid { has_txid false txid ≡ true }
    requires empty { HasNothing out.old }
    ensures served { (tree : Tree) (room : Room) (directory : ℕ → Option ℕ) (graph : Kept) →
        IsDirServed (rewind_act
        (context_with (born birth.now) (standing_at place.old) room tree directory)) txid result
        out.new
        (connection_with birth.now (standing_at place.new)) graph graph }
    ensures memory { result ≢ DirServed.NoMemory }
{
    *place = Place::Start;
    of_node(reply(ordinals, txid, Reply::Settled(Method::Rewind), out))
}
