//! What an Unlink does.

ghost use Rattle.std.specs.Prelude.{◌≡◌, ◌≢◌, ◌∷◌, ◌||◌, ℕ, true, false, nat_lt, Option, Some};
ghost use Rattle.std.specs.Prelude.{IfOk, IfErr, OnOk, OnErr};
ghost use Rattle.std.specs.Result.{result_err};
ghost use Rattle.fidl_names.specs.First.{first_of};
ghost use Rattle.io_messages.specs.Requests.{has_txid};
ghost use Rattle.node_graph.specs.declared.nodes.NodeKind.TheVariants.{Directory};
ghost use Rattle.node_graph.specs.Graph.{Leads, Names, StandsFor, kind_at, number_of};
ghost use Rattle.node_graph.specs.Refusals.{directory_behind};
ghost use Rattle.node_graph.specs.Tree.{Tree, cut};
ghost use Rattle.conn_rules.specs.declared.births.Room.{Room};
ghost use Rattle.conn_rules.specs.Answers.{gone, removed};
ghost use Rattle.conn_rules.specs.Births.{Position, born, connection_with};
ghost use Rattle.conn_rules.specs.Contexts.{context_with};
ghost use Rattle.conn_rules.specs.NameRows.{is_bad_name, name_in, unlink_act, unlink_refusals};
ghost use Rattle.conn_rules.specs.Served.{HasNothing, told_by};
ghost use Rattle.dir_conn.specs.Opened.{Keeps};
ghost use Rattle.dir_conn.specs.Served.{IsDirServed};

use crate::served::{DirServed, of_node};
use conn_rules::{At, Birth, Changes, fail, fault_status, reply};
use fidl_names::{Method, Status};
use fidl_wire::{Ordinals, Out};
use io_messages::Reply;
use node_graph::{Graph, NodeRef};
use path_walk::check_name;

/// Takes a name out of the directory; bit 0 of the flags asks for the name of a directory.
pub(crate) fn unlink<'a>(
    birth: &Birth,
    ordinals: &Ordinals,
    graph: &mut Graph,
    txid: u32,
    name: &'a [u8],
    flags: u64,
    out: &mut Out,
) -> DirServed<'a>
    requires named { Names graph.old birth.now.node }
    requires kind { kind_at graph.old (number_of birth.now.node) ≡ Some Directory }
    requires txid { has_txid false txid ≡ true }
    requires empty { HasNothing out.old }
    ensures served { (tree : Tree) (position : Position) (room : Room) (directory : ℕ → Option ℕ) →
        StandsFor graph.old tree →
        IsDirServed (unlink_act (context_with (born birth.now) position room tree directory)
        name.now flags) txid result out.new
        (connection_with birth.now position) graph.old graph.new }
    ensures keeps { Keeps graph.old graph.new }
    ensures memory { result ≢ DirServed.NoMemory }
{
    let dir = graph.number(birth.node);
    match take_out(graph, birth.node, name, flags) {
        Ok(directory) => {
            reply(ordinals, txid, Reply::Done(Method::Unlink), out);
            DirServed::Reply(lost_name(dir, name, directory))
        }
        Err(status) => of_node(fail(ordinals, txid, Method::Unlink, status, out)),
    }
}

/// A name is gone, and the directory that it led to, if it led to one.
fn lost_name<'a>(dir: u64, name: &'a [u8], directory: Option<u64>) -> Changes<'a>
    ensures told { told_by result ≡ removed (name_in dir name.now) ∷ gone directory }
{
    Changes {
        removed: Some(At { dir, name }),
        added: None,
        deleted: directory,
    }
}

/// Takes a name out, and answers the number of the directory that went with it, unless it is
/// refused.
fn take_out(
    graph: &mut Graph,
    directory: NodeRef,
    name: &[u8],
    flags: u64,
) -> Result<Option<u64>, Status>
    requires named { Names graph.old directory }
    requires directory { kind_at graph.old (number_of directory) ≡ Some Directory }
    ensures refusal { (tree : Tree) → StandsFor graph.old tree →
        result_err result ≡ first_of
        (unlink_refusals tree (name_in (number_of directory) name.now) flags) }
    ensures failure { IfErr result (λ status. status ≢ Status.Ok) }
    ensures unchanged { OnErr result (graph.new ≡ graph.old) }
    ensures change { OnOk result
        (Leads graph.old graph.new (cut (name_in (number_of directory) name.now))) }
    ensures gone { IfOk result
        (λ gone. (tree : Tree) → StandsFor graph.old tree →
        gone ≡ directory_behind tree (name_in (number_of directory) name.now)) }
    ensures keeps { Keeps graph.old graph.new }
{
    if is_bad(name, flags) {
        return Err(Status::InvalidArgs);
    }
    match graph.unlink(directory, name, flags == 1) {
        Ok(gone) => Ok(gone),
        Err(fault) => Err(fault_status(fault)),
    }
}

/// The name is none, or a flag has no meaning.
fn is_bad(name: &[u8], flags: u64) -> bool
    ensures { result ≡ (is_bad_name name.now || nat_lt 1 flags) }
{
    check_name(name).is_err() || flags > 1
}
