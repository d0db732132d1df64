ghost use Rattle.std.specs.Prelude.{◌≡◌, ◌≢◌, ℕ};
ghost use Rattle.fidl_wire.specs.Written.{Written};
ghost use Rattle.node_graph.specs.Graph.{Kept};
ghost use Rattle.conn_rules.specs.Answers.{Act};
ghost use Rattle.conn_rules.specs.Births.{Connection};
ghost use Rattle.conn_rules.specs.Served.{IsAnswered};
ghost use Rattle.dir_conn.specs.Served.{IsDirServed};

use conn_rules::{Birth, Changes, Served};
use fidl_names::Status;
use io_flags::OpenFlags;
use path_walk::Path;

/// What a connection to a directory makes of a request. Where names came or went, the watchers of
/// their directories are to be told.
#[derive(Drop)]
pub enum DirServed<'a> {
    /// The reply stands in the output.
    Reply(Changes<'a>),
    /// The reply to Close stands in the output, and the endpoint ends behind it.
    ReplyEnd,
    /// The endpoint that the request carries is to be bound.
    Bind(Birth, Changes<'a>),
    /// The reply to Watch stands in the output, and the endpoint that the request carries is to
    /// watch the directory, with this mask.
    WatchBy(u32),
    /// The Open goes on behind a mount, by the mount's index, with these flags and the names that
    /// are left.
    Forward {
        mount: u32,
        flags: OpenFlags,
        rest: Path<'a>,
    },
    /// The endpoint that the request carries ends with this status.
    Refused(Status),
    /// Memory is wanting, and nothing was done.
    NoMemory,
}

/// The answer of a request that is served alike on every node.
pub(crate) fn of_node<'a>(served: Served) -> DirServed<'a>
    requires lives { (last : Status) → served ≢ Served.End last }
    ensures served { (act : Act) (txid : ℕ) (out : Written) (connection : Connection) (graph : Kept)
        →
        IsAnswered act txid served out connection graph →
        IsDirServed act txid result out connection graph graph }
    ensures memory { served ≢ Served.NoMemory → result ≢ DirServed.NoMemory }
{
    match served {
        Served::Reply => DirServed::Reply(Changes::none()),
        Served::ReplyEnd => DirServed::ReplyEnd,
        Served::Bind(found) => DirServed::Bind(found, Changes::none()),
        Served::Refused(status) => DirServed::Refused(status),
        Served::NoMemory => DirServed::NoMemory,
        Served::End(_) => unreachable!(),
    }
}
