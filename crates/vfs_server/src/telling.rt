//! What watchers are told of a serving, behind its answer.

ghost use Rattle.std.specs.Prelude.{◌≡◌, ◌++◌, [], ℕ, true, OnErr, OnOk};
ghost use Rattle.link_frames.specs.Frames.{spellings};
ghost use Rattle.conn_rules.specs.Answers.{nothing_told};
ghost use Rattle.conn_rules.specs.Served.{told_by};
ghost use Rattle.node_graph.specs.declared.nodes.NodeRef.{NodeRef};
ghost use Rattle.node_graph.specs.Tree.{Edges};
ghost use Rattle.vfs_server.specs.Binding.{IsDirectory};
ghost use Rattle.vfs_server.specs.Steps.{CanBeTold, IsTold, done_with};
ghost use Rattle.vfs_server.specs.Watched.{first_of};
ghost use Rattle.vfs_journal.specs.Output.{Begins};

use crate::deed::Deed;
use crate::watching::Watching;
use conn_rules::Changes;
use fidl_names::NoMemory;
use link_frames::Outbox;
use node_graph::{Graph, NodeRef};
use watch_events::snapshot;

/// Tells watchers of a deed and of changes: a new one of the names that are there, and those of a directory of its
/// changes. Most requests tell nothing. For want of memory a part of that is written.
#[inline(always)]
pub(crate) fn tell(
    watching: &Watching,
    graph: &Graph,
    deed: &Deed<'_>,
    changes: &Changes<'_>,
    outbox: &mut Outbox,
) -> Result<(), NoMemory>
    requires can { CanBeTold graph.now (done_with deed.now changes.now) }
    ensures told { OnOk result (IsTold watching.now graph.now (done_with deed.now changes.now) outbox.old outbox.new) }
    ensures front { OnErr result (Begins outbox.old outbox.new) }
{
    if is_silent(deed, changes) {
        return Ok(());
    }
    put_first(graph, deed, outbox)?;
    watching.tell(changes, outbox)
}

/// Whether nothing is to be told: no name came or went, no directory is gone, and nobody begins to watch.
#[inline(always)]
fn is_silent(deed: &Deed<'_>, changes: &Changes<'_>) -> bool
    ensures none { result ≡ true → told_by changes.now ≡ nothing_told }
    ensures first { result ≡ true → (edges : Edges) → first_of edges deed.now ≡ [] }
{
    match deed {
        Deed::Watches { .. } => false,
        _ => are_none(changes),
    }
}

/// Whether no name came or went, and no directory is gone.
#[inline(always)]
fn are_none(changes: &Changes<'_>) -> bool
    ensures { result ≡ true → told_by changes.now ≡ nothing_told }
{
    changes.removed.is_none() && changes.added.is_none() && changes.deleted.is_none()
}

/// Writes what a new watcher is told of the names in its directory, if there is one.
#[inline(always)]
fn put_first(graph: &Graph, deed: &Deed<'_>, outbox: &mut Outbox) -> Result<(), NoMemory>
    requires directory { (object mask : ℕ) (directory : NodeRef) → deed.now ≡ Deed.Watches object directory mask → IsDirectory graph.now directory }
    ensures told { OnOk result (outbox.new ≡ outbox.old ++ spellings (first_of graph.now.edges deed.now)) }
    ensures front { OnErr result (Begins outbox.old outbox.new) }
{
    match deed {
        Deed::Watches {
            object,
            directory,
            mask,
        } => put_names(graph, *object, *directory, *mask, outbox),
        _ => Ok(()),
    }
}

/// Writes the names in a directory to a new watcher. Few messages come here, and it takes much of the stack.
#[inline(never)]
fn put_names(
    graph: &Graph,
    object: u32,
    directory: NodeRef,
    mask: u32,
    outbox: &mut Outbox,
) -> Result<(), NoMemory>
    requires directory { IsDirectory graph.now directory }
    ensures told { OnOk result (outbox.new ≡ outbox.old ++ spellings (first_of graph.now.edges (Deed.Watches object directory mask))) }
    ensures front { OnErr result (Begins outbox.old outbox.new) }
{
    snapshot(object, mask, graph.names_after(directory, None), outbox)
}
