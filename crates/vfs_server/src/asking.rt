ghost use Rattle.std.specs.Prelude.{◌≡◌};
ghost use Rattle.io_messages.specs.Asked.{asked};
ghost use Rattle.node_graph.specs.Graph.{Names, number_of};
ghost use Rattle.vfs_server.specs.Steps.{connection_of, looked_at, room_for};

use crate::conn::Conn;
use crate::tokens::Tokens;
use crate::watching::Watching;
use conn_rules::Room;
use fidl_wire::Ordinals;
use io_messages::Request;
use node_graph::Graph;

/// What every step of a serving reads: the names' ordinals, the endpoint that is served, how many
/// connections are in use, who watches, which directories tokens name, and the next token.
#[derive(Clone, Copy)]
pub(crate) struct Asking<'a> {
    pub ordinals: &'a Ordinals,
    pub endpoint: u32,
    pub connections: u32,
    pub watching: &'a Watching,
    pub tokens: &'a Tokens,
    pub token: Option<u32>,
}

impl Asking<'_> {
    /// What is in use, as a request on a connection looks at it. Who watches its node is counted for a Watch
    /// alone.
    pub fn room(&self, conn: &Conn, graph: &Graph, request: &Request<'_>) -> Room
        requires node { Names graph.now (connection_of conn.now).birth.node }
        ensures { result ≡ looked_at (asked request.now) (room_for self.now (number_of (connection_of conn.now).birth.node)) }
    {
        let watchers = match request {
            Request::Watch { .. } => self.watching.count(graph.number(conn.node())),
            _ => 0,
        };
        Room {
            connections: self.connections,
            watchers,
            token: self.token,
        }
    }
}
