//! What an Open does that leads to a node.

ghost use Rattle.std.specs.Prelude.{◌≡◌, ◌&&◌, not, true, false, [], Some, None, IsTrue};
ghost use Rattle.fidl_names.specs.First.{first_of};
ghost use Rattle.io_flags.specs.Grants.{explicit_rights, granted, granted_kind};
ghost use Rattle.io_flags.specs.Words.{has};
ghost use Rattle.io_rights.specs.declared.operations.Operation.TheVariants as op;
ghost use Rattle.io_rights.specs.Operations.{is_within, single};
ghost use Rattle.node_graph.specs.declared.nodes.NodeKind.TheVariants.{File};
ghost use Rattle.node_graph.specs.Graph.{Leads, Names, StandsFor, kind_at, number_of};
ghost use Rattle.node_graph.specs.Tree.{Tree, fill, is_linked};
ghost use Rattle.conn_rules.specs.Births.{born};
ghost use Rattle.conn_rules.specs.Nodes.{is_file, is_mount};
ghost use Rattle.conn_rules.specs.Opens.{arrival, arrival_refusals, birth_for};
ghost use Rattle.conn_rules.specs.Opens.{connects_without_right, flag_of, is_other_kind};
ghost use Rattle.conn_rules.specs.Opens.{marks_file, other_kind_status, protocol_of, truncation};
ghost use Rattle.conn_rules.specs.Opens.{act_at};
ghost use Rattle.conn_rules.specs.Shared.{is_spoken_at};
ghost use Rattle.dir_conn.specs.Opened.{IsOpened, Keeps};
ghost use Rattle.conn_rules.specs.Walks.{at_node};
ghost use Rattle.dir_conn.specs.Reaches.{IsReached};

use crate::served::DirServed;
use conn_rules::{Birth, Changes, Room};
use fidl_names::Status;
use io_flags::{Flag, OpenFlags, explicit, grant};
use io_messages::Protocol;
use io_rights::{Operation, Rights};
use node_graph::{Graph, NodeKind, NodeRef};

/// Binds the node that an Open leads to, unless it is refused.
pub(crate) fn bind<'a>(
    graph: &mut Graph,
    flags: OpenFlags,
    room: Room,
    node: NodeRef,
    kind: NodeKind,
    limit: Rights,
) -> DirServed<'a>
    requires reached { IsReached graph.old flags node kind limit }
    ensures opened { IsOpened
        (λ tree position. act_at position room tree flags (at_node (number_of node) limit)) result
        graph.old graph.new }
{
    match refusal(flags, room, kind) {
        Some(status) => DirServed::Refused(status),
        None => bind_arrived(graph, flags, node, kind, limit),
    }
}

/// Binds a node, and empties it first where the flags ask for it.
fn bind_arrived<'a>(
    graph: &mut Graph,
    flags: OpenFlags,
    node: NodeRef,
    kind: NodeKind,
    limit: Rights,
) -> DirServed<'a>
    requires reached { IsReached graph.old flags node kind limit }
    requires file { has flags Flag.FileTruncate ≡ true → is_file kind ≡ true }
    requires connects { connects_without_right flags kind ≡ false }
    ensures opened { IsOpened (λ tree position. arrival position flags limit (number_of node) kind)
        result graph.old graph.new }
{
    truncate(graph, flags, node);
    DirServed::Bind(birth_for(flags, node, kind, limit), Changes::none())
}

/// Empties the file, where the flags ask for it.
fn truncate(graph: &mut Graph, flags: OpenFlags, node: NodeRef)
    requires named { Names graph.old node }
    requires file { has flags Flag.FileTruncate ≡ true →
        kind_at graph.old (number_of node) ≡ Some File }
    requires linked { has flags Flag.FileTruncate ≡ true →
        is_linked graph.old.edges (number_of node) ≡ true }
    ensures change { Leads graph.old graph.new (truncation flags (number_of node)) }
    ensures keeps { Keeps graph.old graph.new }
    ensures same { (tree : Tree) → StandsFor graph.old tree →
        Names graph.new node
        × (kind_at graph.new (number_of node) ≡ kind_at graph.old (number_of node)) }
{
    if flags.has(Flag::FileTruncate) {
        empty(graph, node);
    }
}

/// Empties a file, which takes no memory.
fn empty(graph: &mut Graph, node: NodeRef)
    requires named { Names graph.old node }
    requires file { kind_at graph.old (number_of node) ≡ Some File }
    ensures change { Leads graph.old graph.new (fill (number_of node) []) }
    ensures keeps { Keeps graph.old graph.new }
{
    match graph.resize(node, 0) {
        Ok(()) => {}
        Err(_) => unreachable!(),
    }
}

/// Why a node that is there isn't opened: the first reason.
fn refusal(flags: OpenFlags, room: Room, kind: NodeKind) -> Option<Status>
    ensures { result ≡ first_of (arrival_refusals room flags kind) }
{
    if flags.has(Flag::MustCreate) {
        return Some(Status::AlreadyExists);
    }
    if is_other_kind(flags, kind) {
        return Some(other_kind_status(flags));
    }
    if marks_other_than_file(flags, kind) {
        return Some(Status::NotFile);
    }
    if connects_without_right(flags, kind) {
        return Some(Status::AccessDenied);
    }
    if room.is_full() {
        return Some(Status::NoResources);
    }
    None
}

/// The flags ask for protocols, and for none that the node has.
fn is_other_kind(flags: OpenFlags, kind: NodeKind) -> bool
    ensures { result ≡ is_other_kind flags kind }
{
    flags.has_protocol() && !(flags.has(Flag::ProtocolNode) || flags.has(flag_of(kind)))
}

/// The protocol flag of a kind of node.
fn flag_of(kind: NodeKind) -> Flag
    ensures { result ≡ flag_of kind }
{
    match kind {
        NodeKind::Directory => Flag::ProtocolDirectory,
        NodeKind::File => Flag::ProtocolFile,
        NodeKind::Service => Flag::ProtocolService,
        NodeKind::Mount(_) => Flag::ProtocolDirectory,
    }
}

/// What an Open is refused with that asks for other protocols.
fn other_kind_status(flags: OpenFlags) -> Status
    ensures { result ≡ other_kind_status flags }
{
    if flags.is_alone(Flag::ProtocolDirectory) {
        Status::NotDir
    } else if flags.is_alone(Flag::ProtocolFile) {
        Status::NotFile
    } else {
        Status::WrongType
    }
}

/// A flag for files alone stands in an Open that leads to another node.
fn marks_other_than_file(flags: OpenFlags, kind: NodeKind) -> bool
    ensures { result ≡ (marks_file flags && not (is_file kind)) }
{
    (flags.has(Flag::FileAppend) || flags.has(Flag::FileTruncate))
        && !matches!(kind, NodeKind::File)
}

/// A service is to be connected to without the right to it.
fn connects_without_right(flags: OpenFlags, kind: NodeKind) -> bool
    ensures { result ≡ connects_without_right flags kind }
{
    matches!(kind, NodeKind::Service)
        && !flags.has(Flag::ProtocolNode)
        && !Rights::of(Operation::Connect).within(explicit(flags))
}

/// The node with the rights that the flags get under the limit.
pub(crate) fn birth_for(flags: OpenFlags, node: NodeRef, kind: NodeKind, limit: Rights) -> Birth
    requires explicit { IsTrue (is_within (explicit_rights flags) limit) }
    requires crossed { is_mount kind ≡ false }
    requires connects { connects_without_right flags kind ≡ false }
    ensures birth { born result ≡ birth_for flags limit (number_of node) kind }
    ensures node { result.node ≡ node }
    ensures announce { result.announce ≡ has flags Flag.SendRepresentation }
    ensures spoken { is_spoken_at result.protocol kind ≡ true }
    ensures connects { result.protocol ≡ Protocol.Echo →
        IsTrue (is_within (single op.Connect) result.rights) }
{
    Birth {
        node,
        rights: granted(flags, limit),
        protocol: protocol_of(flags, kind),
        append: flags.has(Flag::FileAppend),
        announce: flags.has(Flag::SendRepresentation),
    }
}

/// The rights that the flags get under a limit that has those that they name.
fn granted(flags: OpenFlags, limit: Rights) -> Rights
    requires explicit { IsTrue (is_within (explicit_rights flags) limit) }
    ensures { result ≡ granted_kind flags (granted flags limit) }
{
    grant(flags, limit, limit).unwrap()
}

/// The protocol of a connection to a node of this kind.
fn protocol_of(flags: OpenFlags, kind: NodeKind) -> Protocol
    requires crossed { is_mount kind ≡ false }
    ensures protocol { result ≡ protocol_of flags kind }
    ensures spoken { is_spoken_at result kind ≡ true }
{
    if flags.has(Flag::ProtocolNode) {
        return Protocol::Node;
    }
    match kind {
        NodeKind::Directory => Protocol::Directory,
        NodeKind::File => Protocol::File,
        NodeKind::Service => Protocol::Echo,
        NodeKind::Mount(_) => Protocol::Node,
    }
}
