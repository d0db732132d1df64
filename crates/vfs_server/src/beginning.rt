//! What a server begins with.

ghost use Rattle.std.specs.Prelude.{◌≡◌, ◌<◌, [], IfOk, length};
ghost use Rattle.session_start.specs.Places.{Stands};
ghost use Rattle.session_start.specs.Accepted.{AreAccepted};
ghost use Rattle.session_start.specs.Numbering.{named_of};
ghost use Rattle.vfs_journal.specs.Starts.{start_of};
ghost use Rattle.vfs_journal.specs.View.{view_of};
ghost use Rattle.vfs_server.specs.Holding.{HoldsAt};

use crate::firsts::bind_firsts;
use crate::server::Server;
use fidl_names::NoMemory;
use node_graph::Graph;
use session_start::{Grown, Places, Start, grow};
use std::alloc::Global;

/// Makes the server of an accepted start with this index.
pub(crate) fn begin(alloc: Global, start: &Start, index: u32) -> Result<Server, NoMemory>
    requires within { index < length start.now.servers }
    ensures holds { IfOk result (HoldsAt (view_of (start_of start.now) [])) }
    ensures index { IfOk result (λ server. server.index ≡ index) }
{
    let Grown { graph, places } = grow(alloc, start, index)?;
    begin_over(alloc, start, index, graph, &places)
}

// Makes the server over its graph, of which nothing is held yet.
fn begin_over<'a>(
    alloc: Global,
    start: &'a Start,
    index: u32,
    graph: Graph,
    places: &Places<'a>,
) -> Result<Server, NoMemory>
    requires within { index < length start.now.servers }
    requires accepted { AreAccepted start.now }
    requires stands { Stands (named_of start.now index) graph places.now }
    ensures holds { IfOk result (HoldsAt (view_of (start_of start.now) [])) }
    ensures index { IfOk result (λ server. server.index ≡ index) }
{
    let mut server = Server::new(alloc, index, graph);
    bind_firsts(start, index, places, &mut server)?;
    Ok(server)
}
