ghost use Rattle.std.specs.Prelude.{◌≡◌, ◌≤◌, ◌⊎◌, ℕ, Bool, true, List, length, Some, None};
ghost use Rattle.std.specs.FinMap as finite;
ghost use Rattle.io_rights.specs.Operations.{OperationSet};
ghost use Rattle.node_graph.specs.declared.nodes.NodeKind.TheVariants.{Directory, File};
ghost use Rattle.node_graph.specs.Tree.{Tree, Edges, EdgeKey, NodeRow, Below, row_of, kind_of, make, cut, fill, after, bare_tree, IsSound};
ghost use Rattle.node_graph.specs.Refusals.{lies_within};
ghost use Rattle.node_graph.specs.Graph.{create_refusal, unlink_refusal, link_refusal, link_change, rename_refusal, rename_change, write_refusal, write_change, resize_refusal, resized};

use fidl_names::{MAX_FILE, MAX_NAME};

/// A server begins with a sound tree, and each change that `create`, `make`, `unlink`, `link`,
/// `rename`, `write_at` and `resize` make where they don't refuse keeps a tree sound.
pub fn changes_keep_trees_sound()
    ensures begun { IsSound bare_tree }
    ensures made { (tree : Tree) (key : EdgeKey) (row : NodeRow) (mask : OperationSet) →
        IsSound tree → create_refusal tree.edges key ≡ None → kind_of tree key.directory ≡ Some Directory → 1 ≤ length key.name → length key.name ≤ MAX_NAME → length row.bytes ≤ MAX_FILE →
        IsSound (after tree (make key row mask)) }
    ensures unlinked { (tree : Tree) (key : EdgeKey) (must_be_dir : Bool) →
        IsSound tree → unlink_refusal tree key must_be_dir ≡ None → IsSound (after tree (cut key)) }
    ensures linked { (tree : Tree) (from to : EdgeKey) →
        IsSound tree → link_refusal tree from to ≡ None → kind_of tree to.directory ≡ Some Directory → 1 ≤ length to.name → length to.name ≤ MAX_NAME →
        IsSound (after tree (link_change tree from to)) }
    ensures renamed { (tree : Tree) (from to : EdgeKey) →
        IsSound tree → rename_refusal tree from to ≡ None → kind_of tree to.directory ≡ Some Directory → 1 ≤ length to.name → length to.name ≤ MAX_NAME →
        IsSound (after tree (rename_change from to)) }
    ensures written { (tree : Tree) (number : ℕ) (old : List ℕ) (offset : ℕ) (bytes : List ℕ) →
        IsSound tree → row_of tree.nodes number ≡ Some (record { kind = File; bytes = old }) → write_refusal offset bytes ≡ None →
        IsSound (after tree (write_change number old offset bytes)) }
    ensures resized { (tree : Tree) (number : ℕ) (old : List ℕ) (size : ℕ) →
        IsSound tree → row_of tree.nodes number ≡ Some (record { kind = File; bytes = old }) → resize_refusal size ≡ None →
        IsSound (after tree (fill number (resized old size))) }
{}

/// Climbing finds what is above a node in a sound tree, and nothing else: in no sound tree is a way up
/// longer than there are names.
pub fn climbing_finds_what_is_above()
    ensures found { (tree : Tree) (number above : ℕ) →
        IsSound tree → Below tree.edges number above → lies_within (finite.len tree.edges) tree.edges number above ≡ true }
    ensures nothing_else { (times : ℕ) (edges : Edges) (number above : ℕ) →
        lies_within times edges number above ≡ true → (number ≡ above) ⊎ Below edges number above }
{}
