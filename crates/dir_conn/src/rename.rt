//! What a Rename does.

ghost use Rattle.std.specs.Prelude.{◌≡◌, ◌∷◌, ℕ, true, false, Option, Some, if◌then◌else◌};
ghost use Rattle.std.specs.Option.{option_map};
ghost use Rattle.io_messages.specs.Requests.{has_txid};
ghost use Rattle.node_graph.specs.declared.nodes.NodeKind.TheVariants.{Directory};
ghost use Rattle.node_graph.specs.Graph.{Names, kind_at, number_of};
ghost use Rattle.path_walk.specs.Names.{IsName};
ghost use Rattle.conn_rules.specs.declared.births.Room.{Room};
ghost use Rattle.conn_rules.specs.Answers.{added, gone, nothing_told, removed};
ghost use Rattle.conn_rules.specs.Births.{born};
ghost use Rattle.conn_rules.specs.Contexts.{context_with};
ghost use Rattle.conn_rules.specs.NameRows.{rename_act, rename_into};
ghost use Rattle.conn_rules.specs.Served.{HasNothing, key_at, told_by};
ghost use Rattle.dir_conn.specs.Tried.{IsTried};

use crate::served::{DirServed, of_node};
use crate::two_names::{directory_for, refused};
use conn_rules::{At, Birth, Changes, fail, reply};
use fidl_names::Method;
use fidl_wire::{Ordinals, Out};
use io_messages::Reply;
use node_graph::{Graph, Moved, NodeRef};

/// Moves a name into the directory of a token.
pub(crate) fn rename<'a>(
    birth: &Birth,
    ordinals: &Ordinals,
    graph: &mut Graph,
    target: Option<NodeRef>,
    txid: u32,
    src: &'a [u8],
    dst: &'a [u8],
    out: &mut Out,
) -> DirServed<'a>
    requires named { Names graph.old birth.now.node }
    requires kind { kind_at graph.old (number_of birth.now.node) ≡ Some Directory }
    requires target { (node : NodeRef) → target ≡ Some node →
        Names graph.old node × (kind_at graph.old (number_of node) ≡ Some Directory) }
    requires txid { has_txid false txid ≡ true }
    requires empty { HasNothing out.old }
    ensures tried { (room : Room) (directory : ℕ → Option ℕ) (token : ℕ) →
        directory token ≡ option_map number_of target →
        IsTried (λ tree position. rename_act
        (context_with (born birth.now) position room tree directory) src.now token dst.now)
        birth.now txid result
        out.new graph.old graph.new }
{
    match directory_for(src, dst, target) {
        Ok(into) => rename_into(birth, ordinals, graph, into, txid, src, dst, out),
        Err(status) => of_node(fail(ordinals, txid, Method::Rename, status, out)),
    }
}

/// Moves a name into this directory, unless the graph refuses it.
fn rename_into<'a>(
    birth: &Birth,
    ordinals: &Ordinals,
    graph: &mut Graph,
    into: NodeRef,
    txid: u32,
    src: &'a [u8],
    dst: &'a [u8],
    out: &mut Out,
) -> DirServed<'a>
    requires named { Names graph.old birth.now.node }
    requires kind { kind_at graph.old (number_of birth.now.node) ≡ Some Directory }
    requires named_into { Names graph.old into }
    requires kind_into { kind_at graph.old (number_of into) ≡ Some Directory }
    requires name { IsName dst.now }
    requires txid { has_txid false txid ≡ true }
    requires empty { HasNothing out.old }
    ensures tried { (room : Room) (directory : ℕ → Option ℕ) →
        IsTried (λ tree position. rename_into
        (context_with (born birth.now) position room tree directory) src.now dst.now
        (Some (number_of into)))
        birth.now txid result out.new graph.old graph.new }
{
    let dir = graph.number(birth.node);
    let place = graph.number(into);
    match graph.rename(birth.node, src, into, dst) {
        Ok(moved) => {
            reply(ordinals, txid, Reply::Done(Method::Rename), out);
            DirServed::Reply(moved_name(
                At { dir, name: src },
                At {
                    dir: place,
                    name: dst,
                },
                moved,
            ))
        }
        Err(fault) => refused(ordinals, txid, Method::Rename, fault, out),
    }
}

/// A name is gone from its place and new at another, and the directory is gone that stood there.
/// Nothing is told of a name that is what it was.
fn moved_name<'a>(from: At<'a>, to: At<'a>, moved: Moved) -> Changes<'a>
    ensures told { told_by result
        ≡ (if moved.changed then removed (key_at from.entry) ∷ added (key_at to.entry) ∷ gone
        moved.replaced else nothing_told) }
{
    if !moved.changed {
        return Changes::none();
    }
    Changes {
        removed: Some(from),
        added: Some(to),
        deleted: moved.replaced,
    }
}
