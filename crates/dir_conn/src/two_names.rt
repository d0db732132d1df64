//! What Link and Rename do alike: both give a name in the directory of a token.

ghost use Rattle.std.specs.Prelude.{◌≡◌, ◌≢◌, ◌||◌, true, Some, IfOk, IfErr};
ghost use Rattle.std.specs.Option.{option_map};
ghost use Rattle.std.specs.Result.{result_err};
ghost use Rattle.io_messages.specs.Requests.{has_txid};
ghost use Rattle.io_messages.specs.Shapes.{is_one_way};
ghost use Rattle.node_graph.specs.Graph.{Kept, number_of};
ghost use Rattle.path_walk.specs.Names.{IsName};
ghost use Rattle.conn_rules.specs.Answers.{failure_of, only};
ghost use Rattle.conn_rules.specs.Births.{Connection};
ghost use Rattle.conn_rules.specs.NameRows.{is_bad_name, two_names_refusal};
ghost use Rattle.conn_rules.specs.Refusals.{fault_status};
ghost use Rattle.conn_rules.specs.Served.{HasNothing};
ghost use Rattle.conn_rules.specs.Shared.{can_fail};
ghost use Rattle.dir_conn.specs.Served.{IsDirServed};

use crate::served::{DirServed, of_node};
use conn_rules::{fail, fault_status};
use fidl_names::{Method, Status};
use fidl_wire::{Ordinals, Out};
use node_graph::{GraphFault, NodeRef};
use path_walk::check_name;

/// The directory in which the second name is to stand, unless one of the names is none, or the
/// token names no directory of this server.
pub(crate) fn directory_for(
    src: &[u8],
    dst: &[u8],
    target: Option<NodeRef>,
) -> Result<NodeRef, Status>
    ensures refusal { result_err result
        ≡ two_names_refusal src.now dst.now (option_map number_of target) }
    ensures failure { IfErr result (λ status. status ≢ Status.Ok) }
    ensures target { IfOk result (λ into. target ≡ Some into) }
    ensures name { IfOk result (λ _. IsName dst.now) }
{
    if check_name(src).is_err() || check_name(dst).is_err() {
        return Err(Status::InvalidArgs);
    }
    match target {
        Some(into) => Ok(into),
        None => Err(Status::NotFound),
    }
}

/// What a request answers that the graph refuses: it fails with the fault's status, and want of
/// memory is answered as such.
pub(crate) fn refused<'a>(
    ordinals: &Ordinals,
    txid: u32,
    method: Method,
    fault: GraphFault,
    out: &mut Out,
) -> DirServed<'a>
    requires empty { HasNothing out.old }
    requires txid { has_txid (is_one_way method) txid ≡ true }
    requires form { can_fail method ≡ true }
    ensures fails { (connection : Connection) (graph : Kept) → result ≢ DirServed.NoMemory →
        IsDirServed (only connection.position (failure_of method (fault_status fault))) txid result
        out.new connection graph graph }
    ensures wants { result ≡ DirServed.NoMemory → fault ≡ GraphFault.NoMemory }
    ensures wanting { fault ≡ GraphFault.NoMemory → result ≡ DirServed.NoMemory }
    ensures empty { result ≡ DirServed.NoMemory → HasNothing out.new }
{
    match fault {
        GraphFault::NoMemory => DirServed::NoMemory,
        _ => of_node(fail(ordinals, txid, method, fault_status(fault), out)),
    }
}
