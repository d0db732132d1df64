ghost use Rattle.std.specs.Prelude.{◌≡◌, IfOk};
ghost use Rattle.session_start.specs.Accepted.{AreAccepted};
ghost use Rattle.tree_file.specs.Generated.{client_of_first, directory_of, generated_lists, mount_of_second};

use fidl_names::NoMemory;
use io_rights::Rights;
use node_graph::NodeKind;
use session_start::{Bytes, Client, Mount, Node, Start, StartLists};
use std::alloc::Global;

/// The start of the generated workload: two servers with a directory `d` each, the second server
/// mounted at `m` of the first, and endpoint 1 at the root of the first, all with all rights.
pub fn generated_start(alloc: Global) -> Result<Start, NoMemory>
    ensures start { IfOk result (λ start. start ≡ generated_lists) }
    ensures accepted { IfOk result AreAccepted }
{
    Ok(Start::new(generated_lists(alloc)?))
}

fn generated_lists(alloc: Global) -> Result<StartLists, NoMemory>
    ensures { IfOk result (λ lists. lists ≡ generated_lists) }
{
    let mut lists = StartLists::new(alloc);
    lists.servers.push(Bytes::copy(alloc, b"a")?)?;
    lists.servers.push(Bytes::copy(alloc, b"b")?)?;
    lists.nodes.push(directory_of(alloc, 0)?)?;
    lists.nodes.push(directory_of(alloc, 1)?)?;
    lists.mounts.push(mount_of_second(alloc)?)?;
    lists.clients.push(client_of_first(alloc)?)?;
    Ok(lists)
}

fn directory_of(alloc: Global, server: u32) -> Result<Node, NoMemory>
    ensures { IfOk result (λ node. node ≡ directory_of server) }
{
    Ok(Node {
        server,
        path: Bytes::copy(alloc, b"d")?,
        kind: NodeKind::Directory,
        rights: Rights::all(),
        bytes: Bytes::new(Vec::new(alloc)),
    })
}

fn mount_of_second(alloc: Global) -> Result<Mount, NoMemory>
    ensures { IfOk result (λ mount. mount ≡ mount_of_second) }
{
    let path = Bytes::copy(alloc, b"m")?;
    let at = Bytes::copy(alloc, b".")?;
    Ok(Mount {
        server: 0,
        path,
        target: 1,
        at,
        rights: Rights::all(),
    })
}

fn client_of_first(alloc: Global) -> Result<Client, NoMemory>
    ensures { IfOk result (λ client. client ≡ client_of_first) }
{
    Ok(Client {
        endpoint: 1,
        server: 0,
        path: Bytes::copy(alloc, b".")?,
        rights: Rights::all(),
    })
}
