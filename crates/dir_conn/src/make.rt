//! What an Open does whose last name is missing.

ghost use Rattle.std.specs.Prelude.{◌≡◌, ◌<◌, ◌^◌, false, None, [], ◌∷◌};
ghost use Rattle.fidl_names.specs.First.{first_of};
ghost use Rattle.node_graph.specs.Graph.{Names, create_refusal, number_of};
ghost use Rattle.node_graph.specs.Tree.{name_in};
ghost use Rattle.conn_rules.specs.Answers.{added};
ghost use Rattle.conn_rules.specs.Nodes.{is_mount};
ghost use Rattle.conn_rules.specs.Opens.{connects_without_right, kind_made, making, act_at};
ghost use Rattle.conn_rules.specs.Served.{told_by};
ghost use Rattle.dir_conn.specs.Opened.{IsOpened, absent_refusal, absent_refusals};
ghost use Rattle.conn_rules.specs.Walks.{at_nothing};
ghost use Rattle.dir_conn.specs.Reaches.{IsMissing};

use crate::arrive::birth_for;
use crate::served::DirServed;
use conn_rules::{At, Changes, Room, fault_status};
use fidl_names::{MAX_NAMES, NoMemory, Status};
use io_flags::{Flag, OpenFlags};
use io_rights::Rights;
use node_graph::{Graph, GraphFault, NodeKind, NodeRef};

/// Makes the node that an Open misses and binds it, unless it is refused.
pub(crate) fn make<'a>(
    graph: &mut Graph,
    flags: OpenFlags,
    room: Room,
    directory: NodeRef,
    name: &'a [u8],
    limit: Rights,
) -> DirServed<'a>
    requires missing { IsMissing graph.old flags directory name.now limit }
    requires made { graph.old.made < 2 ^ 63 }
    ensures opened { IsOpened
        (λ tree position. act_at position room tree flags
        (at_nothing (number_of directory) name.now limit)) result graph.old graph.new }
{
    match refusal(graph, flags, room, directory) {
        Some(status) => DirServed::Refused(status),
        None => bind_made(graph, flags, directory, name, limit),
    }
}

/// Why a missing node isn't made: the first reason.
fn refusal(graph: &Graph, flags: OpenFlags, room: Room, directory: NodeRef) -> Option<Status>
    requires named { Names graph.now directory }
    ensures { result ≡ first_of (absent_refusals graph.now.edges room flags (number_of directory)) }
{
    if !flags.creates() {
        return Some(Status::NotFound);
    }
    if let Some(fault) = absent_fault(graph, directory) {
        return Some(fault_status(fault));
    }
    if room.is_full() {
        return Some(Status::NoResources);
    }
    None
}

/// Why the graph makes no node at a name that is missing. The walk looked the name up, so it isn't
/// looked up again.
fn absent_fault(graph: &Graph, directory: NodeRef) -> Option<GraphFault>
    requires named { Names graph.now directory }
    ensures { result ≡ absent_refusal graph.now.edges (number_of directory) }
{
    if graph.removed(directory) {
        return Some(GraphFault::Removed);
    }
    if graph.names() as usize >= MAX_NAMES {
        return Some(GraphFault::NoSpace);
    }
    None
}

/// Makes a node with this name, through which all rights pass, and binds it.
fn bind_made<'a>(
    graph: &mut Graph,
    flags: OpenFlags,
    directory: NodeRef,
    name: &'a [u8],
    limit: Rights,
) -> DirServed<'a>
    requires missing { IsMissing graph.old flags directory name.now limit }
    requires made { graph.old.made < 2 ^ 63 }
    requires free { create_refusal graph.old.edges (name_in (number_of directory) name.now) ≡ None }
    ensures opened { IsOpened
        (λ tree position. making position tree flags limit (name_in (number_of directory) name.now))
        result graph.old graph.new }
{
    let kind = kind_made(flags);
    let dir = graph.number(directory);
    match graph.make(directory, name, kind, Rights::all(), &[]) {
        Ok(node) => DirServed::Bind(birth_for(flags, node, kind, limit), new_name(dir, name)),
        Err(NoMemory) => DirServed::NoMemory,
    }
}

/// A name is new.
pub(crate) fn new_name<'a>(dir: u64, name: &'a [u8]) -> Changes<'a>
    ensures told { told_by result ≡ added (name_in dir name.now) ∷ [] }
{
    Changes {
        removed: None,
        added: Some(At { dir, name }),
        deleted: None,
    }
}

/// The kind that the flags ask for.
fn kind_made(flags: OpenFlags) -> NodeKind
    ensures value { result ≡ kind_made flags }
    ensures crossed { is_mount result ≡ false }
    ensures connects { connects_without_right flags result ≡ false }
{
    if flags.has(Flag::ProtocolDirectory) {
        NodeKind::Directory
    } else {
        NodeKind::File
    }
}
