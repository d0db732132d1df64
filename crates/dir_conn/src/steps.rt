ghost use Rattle.std.specs.Prelude.{◌≡◌, ◌≢◌, ℕ, ◌+◌, false, List, [], ◌∷◌, None, Some, IfSome};
ghost use Rattle.std.specs.Prelude.{length, IsTrue, if◌then◌else◌};
ghost use Rattle.std.specs.FinMap as finite;
ghost use Rattle.std.specs.Option.{option_map};
ghost use Rattle.io_flags.specs.Grants.{explicit_rights};
ghost use Rattle.io_rights.specs.Operations.{is_within, meet};
ghost use Rattle.node_graph.specs.Ends.{end_of};
ghost use Rattle.node_graph.specs.declared.nodes.NodeKind.TheVariants.{Directory};
ghost use Rattle.node_graph.specs.Graph.{Kept, number_of, Names, kind_at, StandsFor};
ghost use Rattle.node_graph.specs.Tree.{Tree};
ghost use Rattle.path_walk.specs.Names.{IsName};
ghost use Rattle.conn_rules.specs.Nodes.{edge_at, is_mount, kind_here};
ghost use Rattle.conn_rules.specs.Walks.{Walk, walk, last_by_kind, inner_by_kind, reach};
ghost use Rattle.dir_conn.specs.Reaches.{reached, leading, IsKept, Stands, Arrived, GoesOn};

use fidl_names::Status;
use io_flags::{OpenFlags, asked, explicit};
use io_rights::{Operation, Rights};
use node_graph::{Entry, Graph, NodeKind, NodeRef};
use path_walk::Path;

/// Where the names of a path lead, with what the masks leave of the rights.
#[derive(Drop)]
pub(crate) enum Walked<'a> {
    Arrives {
        node: NodeRef,
        kind: NodeKind,
        limit: Rights,
    },
    Missing {
        directory: NodeRef,
        name: &'a [u8],
        limit: Rights,
    },
    Crosses {
        mount: u32,
        rest: Path<'a>,
        limit: Rights,
    },
    Stops(Status),
}

/// A directory on the way, and what the masks so far leave of the rights.
#[derive(Clone, Copy)]
pub(crate) struct Spot {
    pub directory: NodeRef,
    pub limit: Rights,
}

/// What one name does: the walk goes on in a directory with the names that are left, or it ends.
#[derive(Drop)]
pub(crate) enum Step<'a> {
    Enters(Spot, Path<'a>),
    Ends(Walked<'a>),
}

/// Takes the first name of a path.
pub(crate) fn take_name<'a>(graph: &Graph, flags: OpenFlags, spot: Spot, path: Path<'a>) -> Step<'a>
    requires stands { Stands graph.now flags spot }
    ensures leads { (tree : Tree) → StandsFor graph.now tree →
        leading result (walk tree flags)
        ≡ reach spot.limit (walk tree flags path.entry (number_of spot.directory)) }
    ensures goes_on { GoesOn graph.now flags (length path.entry) result }
{
    let name = match path.first() {
        Some(name) => name,
        None => return Step::Ends(stay(spot)),
    };
    let rest = path.rest();
    match rest.first() {
        None => Step::Ends(take_last(graph, flags, spot, name, rest)),
        Some(_) => take_inner(graph, flags, spot, name, rest),
    }
}

/// A path without names leads to the directory itself.
fn stay<'a>(spot: Spot) -> Walked<'a>
    ensures value { result ≡ Walked.Arrives spot.directory Directory spot.limit }
{
    Walked::Arrives {
        node: spot.directory,
        kind: NodeKind::Directory,
        limit: spot.limit,
    }
}

/// Takes the last name, which alone may be missing.
fn take_last<'a>(
    graph: &Graph,
    flags: OpenFlags,
    spot: Spot,
    name: &'a [u8],
    end: Path<'a>,
) -> Walked<'a>
    requires valid { IsName name.now }
    requires stands { Stands graph.now flags spot }
    requires end { end ≡ [] }
    ensures leads { (tree : Tree) → StandsFor graph.now tree →
        reached result ≡ reach spot.limit
        (walk tree flags (name.now ∷ []) (number_of spot.directory)) }
    ensures arrived { Arrived graph.now flags result }
{
    match look(graph, spot.directory, name) {
        None => Walked::Missing {
            directory: spot.directory,
            name,
            limit: spot.limit,
        },
        Some(found) => last_name(flags, found, spot.limit, end),
    }
}

/// Takes a name that others follow.
fn take_inner<'a>(
    graph: &Graph,
    flags: OpenFlags,
    spot: Spot,
    name: &[u8],
    rest: Path<'a>,
) -> Step<'a>
    requires stands { Stands graph.now flags spot }
    requires more { rest ≢ [] }
    ensures leads { (tree : Tree) → StandsFor graph.now tree →
        leading result (walk tree flags)
        ≡ reach spot.limit (walk tree flags (name.now ∷ rest.entry) (number_of spot.directory)) }
    ensures goes_on { GoesOn graph.now flags (length rest.entry + 1) result }
{
    match look(graph, spot.directory, name) {
        None => Step::Ends(Walked::Stops(Status::NotFound)),
        Some(found) => inner_name(flags, found, spot.limit, rest),
    }
}

/// What the last name leads to. A mount wants what the flags ask for, any other node what they
/// name.
fn last_name<'a>(flags: OpenFlags, found: Entry, limit: Rights, end: Path<'a>) -> Walked<'a>
    requires end { end ≡ [] }
    ensures leads { reached result ≡ reach limit (last_by_kind flags (end_of found) found.kind) }
    ensures arrived { (graph : Kept) → IsKept graph found →
        IsTrue (is_within (explicit_rights flags) limit) → Arrived graph flags result }
{
    match found.kind {
        NodeKind::Mount(mount) => {
            let left = limit.meet(found.mask);
            cross(asked(flags), found.mask, mount, end, left)
        }
        NodeKind::Directory | NodeKind::File | NodeKind::Service => arrive(flags, found, limit),
    }
}

/// A node is reached where the mask of its name has the rights that the flags name.
#[tactic(auto, using(io_rights::proofs::OperationSets::within_meet))]
fn arrive<'a>(flags: OpenFlags, found: Entry, limit: Rights) -> Walked<'a>
    requires crossed { is_mount found.kind ≡ false }
    ensures leads { result ≡ if is_within (explicit_rights flags) found.mask
        then Walked.Arrives found.node found.kind (meet limit found.mask)
        else Walked.Stops Status.AccessDenied }
    ensures arrived { (graph : Kept) → IsKept graph found →
        IsTrue (is_within (explicit_rights flags) limit) → Arrived graph flags result }
{
    if explicit(flags).within(found.mask) {
        Walked::Arrives {
            node: found.node,
            kind: found.kind,
            limit: limit.meet(found.mask),
        }
    } else {
        Walked::Stops(Status::AccessDenied)
    }
}

/// A mount is passed where its mask has the rights that are wanted.
fn cross<'a>(wanted: Rights, mask: Rights, mount: u32, rest: Path<'a>, limit: Rights) -> Walked<'a>
    ensures { result ≡ if is_within wanted mask
        then Walked.Crosses mount rest.entry limit
        else Walked.Stops Status.AccessDenied }
{
    if wanted.within(mask) {
        Walked::Crosses { mount, rest, limit }
    } else {
        Walked::Stops(Status::AccessDenied)
    }
}

/// What a name before the last leads to: it wants TRAVERSE and what the flags ask for, and leads to
/// a directory or a mount.
fn inner_name<'a>(flags: OpenFlags, found: Entry, limit: Rights, rest: Path<'a>) -> Step<'a>
    ensures leads { (onward : List (List ℕ) → ℕ → Walk) →
        leading result onward
        ≡ reach limit (inner_by_kind flags rest.entry (end_of found) found.kind
        (onward rest.entry (number_of found.node))) }
    ensures goes_on { (graph : Kept) → IsKept graph found →
        IsTrue (is_within (explicit_rights flags) limit) →
        GoesOn graph flags (length rest.entry + 1) result }
{
    let wanted = Rights::of(Operation::Traverse).join(asked(flags));
    let left = limit.meet(found.mask);
    match found.kind {
        NodeKind::Directory => {
            if wanted.within(found.mask) {
                let spot = Spot {
                    directory: found.node,
                    limit: left,
                };
                Step::Enters(spot, rest)
            } else {
                Step::Ends(Walked::Stops(Status::AccessDenied))
            }
        }
        NodeKind::Mount(mount) => Step::Ends(cross(wanted, found.mask, mount, rest, left)),
        NodeKind::File | NodeKind::Service => Step::Ends(Walked::Stops(Status::NotDir)),
    }
}

/// What a name of a directory leads to.
fn look(graph: &Graph, directory: NodeRef, name: &[u8]) -> Option<Entry>
    requires named { Names graph.now directory }
    requires directory { kind_at graph.now (number_of directory) ≡ Some Directory }
    ensures edge { (tree : Tree) → StandsFor graph.now tree →
        edge_at tree (record { directory = number_of directory; name = name.now })
        ≡ option_map end_of result }
    ensures absent { result ≡ None →
        finite.get graph.now.edges (record { directory = number_of directory; name = name.now })
        ≡ None }
    ensures row { IfSome result
        (λ found. (tree : Tree) → StandsFor graph.now tree →
        kind_here tree (number_of found.node) ≡ found.kind) }
    ensures kept { IfSome result (IsKept graph.now) }
{
    graph.lookup(directory, name)
}
