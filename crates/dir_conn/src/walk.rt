ghost use Rattle.std.specs.Prelude.{◌≡◌};
ghost use Rattle.node_graph.specs.Graph.{number_of, StandsFor};
ghost use Rattle.node_graph.specs.Tree.{Tree};
ghost use Rattle.conn_rules.specs.Walks.{walk, reach};
ghost use Rattle.dir_conn.specs.Reaches.{reached, Stands, Arrived};

use crate::steps::{Spot, Step, Walked, take_name};
use io_flags::OpenFlags;
use node_graph::Graph;
use path_walk::Path;

/// Where the names of a path lead from a directory.
pub(crate) fn walk<'a>(graph: &Graph, flags: OpenFlags, start: Spot, path: Path<'a>) -> Walked<'a>
    requires stands { Stands graph.now flags start }
    ensures leads { (tree : Tree) → StandsFor graph.now tree →
        reached result ≡ reach start.limit
        (walk tree flags path.entry (number_of start.directory)) }
    ensures arrived { Arrived graph.now flags result }
{
    let mut spot = start;
    let mut path = path;
    loop {
        match take_name(graph, flags, spot, path) {
            Step::Enters(next, rest) => {
                spot = next;
                path = rest;
            }
            Step::Ends(end) => return end,
        }
    }
}
