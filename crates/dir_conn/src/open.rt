ghost use Rattle.std.specs.Prelude.{◌≡◌, ◌<◌, ◌^◌, ℕ, Option, Some, IsTrue};
ghost use Rattle.io_flags.specs.Grants.{explicit_rights, onward};
ghost use Rattle.io_rights.specs.Operations.{is_within};
ghost use Rattle.node_graph.specs.declared.nodes.NodeKind.TheVariants.{Directory};
ghost use Rattle.node_graph.specs.Graph.{Names, kind_at, number_of};
ghost use Rattle.conn_rules.specs.Births.{born};
ghost use Rattle.conn_rules.specs.Contexts.{context_with};
ghost use Rattle.conn_rules.specs.Opens.{open_act, act_at};
ghost use Rattle.conn_rules.specs.Walks.{walk, reach};
ghost use Rattle.dir_conn.specs.Opened.{IsOpened};
ghost use Rattle.dir_conn.specs.Reaches.{reached, Arrived};

use crate::arrive::bind;
use crate::entry::enter;
use crate::make::make;
use crate::served::DirServed;
use crate::steps::{Spot, Walked};
use crate::walk::walk;
use conn_rules::{Birth, Room};
use io_flags::{OpenFlags, forwarded};
use io_rights::Rights;
use node_graph::Graph;
use path_walk::Path;

/// Opens the node at a path: binds it, sends the Open on behind a mount, or refuses it.
pub(crate) fn open<'a>(
    birth: &Birth,
    graph: &mut Graph,
    room: Room,
    text: &'a [u8],
    word: u64,
) -> DirServed<'a>
    requires kept { Names graph.old birth.now.node }
    requires made { graph.old.made < 2 ^ 63 }
    requires kind { kind_at graph.old (number_of birth.now.node) ≡ Some Directory }
    ensures opened { (directory : ℕ → Option ℕ) →
        IsOpened (λ tree position. open_act
        (context_with (born birth.now) position room tree directory) text.now word) result graph.old
        graph.new }
{
    match enter(birth, text, word) {
        Err(status) => DirServed::Refused(status),
        Ok(entered) => follow(birth, graph, room, entered.flags, entered.path),
    }
}

/// Walks the path of an Open that was refused by none of the tests before.
fn follow<'a>(
    birth: &Birth,
    graph: &mut Graph,
    room: Room,
    flags: OpenFlags,
    path: Path<'a>,
) -> DirServed<'a>
    requires kept { Names graph.old birth.now.node }
    requires made { graph.old.made < 2 ^ 63 }
    requires kind { kind_at graph.old (number_of birth.now.node) ≡ Some Directory }
    requires explicit { IsTrue (is_within (explicit_rights flags) birth.now.rights) }
    ensures opened { IsOpened
        (λ tree position. act_at position room tree flags
        (reach birth.now.rights (walk tree flags path.entry (number_of birth.now.node)))) result
        graph.old graph.new }
{
    let start = Spot {
        directory: birth.node,
        limit: birth.rights,
    };
    let end = walk(graph, flags, start, path);
    answer(graph, flags, room, end)
}

/// What is answered at the end of a walk.
fn answer<'a>(graph: &mut Graph, flags: OpenFlags, room: Room, end: Walked<'a>) -> DirServed<'a>
    requires made { graph.old.made < 2 ^ 63 }
    requires arrived { Arrived graph.old flags end }
    ensures opened { IsOpened (λ tree position. act_at position room tree flags (reached end.entry))
        result graph.old graph.new }
{
    match end {
        Walked::Arrives { node, kind, limit } => bind(graph, flags, room, node, kind, limit),
        Walked::Missing {
            directory,
            name,
            limit,
        } => make(graph, flags, room, directory, name, limit),
        Walked::Crosses { mount, rest, limit } => DirServed::Forward {
            mount,
            flags: onward(flags, limit),
            rest,
        },
        Walked::Stops(status) => DirServed::Refused(status),
    }
}

/// The flags that go on behind a mount, under the rights that are left there.
fn onward(flags: OpenFlags, limit: Rights) -> OpenFlags
    ensures { result ≡ onward flags limit }
{
    forwarded(flags, limit, limit)
}
