//! The nodes of a server by their paths.

ghost use Rattle.std.specs.Prelude.{◌≡◌, IsSome, Some};
ghost use Rattle.std.specs.BTreeMap.{get};
ghost use Rattle.session_start.specs.Places.{path_cmp};

use node_graph::NodeRef;
use std::collections::BTreeMap;

/// The node to which each path leads.
pub type Places<'a> = BTreeMap<&'a [u8], NodeRef>;

/// The node to which a path leads.
pub fn node_at<'a>(places: &Places<'a>, path: &'a [u8]) -> NodeRef
    requires { IsSome (get path_cmp places.now path) }
    ensures { get path_cmp places.now path.entry ≡ Some result }
{
    match places.get(&path) {
        Some(node) => *node,
        None => unreachable!(),
    }
}
