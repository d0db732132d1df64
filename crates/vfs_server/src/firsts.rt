//! What is bound at a server when it begins.

ghost use Rattle.std.specs.Prelude.{◌≡◌, ◌<◌, ◌+◌, ◌++◌, ◌∷◌, ℕ, List, [], OnOk, length};
ghost use Rattle.session_start.specs.Accepted.{AreAccepted};
ghost use Rattle.session_start.specs.Items.{Lists};
ghost use Rattle.vfs_journal.specs.Starts.{Bound};
ghost use Rattle.vfs_server.specs.Beginning.{HoldsJust, IsNextBound, begins_with, begun, bound_among, clients_among};

use crate::server::Server;
use conn_rules::Birth;
use fidl_names::{NoMemory, end_of_mount};
use io_messages::Protocol;
use io_rights::Rights;
use session_start::{Places, Start, node_at};

// Binds an endpoint as the next one that a server begins with: at the directory of a path.
fn bind_at<'a>(
    places: &Places<'a>,
    endpoint: u32,
    path: &'a [u8],
    rights: Rights,
    server: &mut Server,
) -> Result<(), NoMemory>
    requires next { (lists : Lists) × (index : ℕ) × (bounds : List Bound) × IsNextBound lists index bounds (begun lists index endpoint path.now rights) server.old places.now }
    ensures { (lists : Lists) (index : ℕ) (bounds : List Bound) → IsNextBound lists index bounds (begun lists index endpoint path.entry.now rights) server.old places.now →
        OnOk result (HoldsJust lists index (bounds ++ begun lists index endpoint path.entry.now rights ∷ []) server.new places.now) }
{
    let birth = Birth {
        node: node_at(places, path),
        rights,
        protocol: Protocol::Directory,
        append: false,
        announce: false,
    };
    server.bind(endpoint, birth)
}

// Binds the first connection with this index, where it is to the server.
fn bind_client<'a>(
    start: &'a Start,
    index: u32,
    item: u32,
    places: &Places<'a>,
    server: &mut Server,
) -> Result<(), NoMemory>
    requires accepted { AreAccepted start.now }
    requires there { index < length start.now.servers }
    requires within { item < length start.now.clients }
    requires holds { HoldsJust start.now index (clients_among start.now index item) server.old places.now }
    ensures { OnOk result (HoldsJust start.now index (clients_among start.now index (item + 1)) server.new places.now) }
{
    let client = start.client_at(item);
    if client.server != index {
        return Ok(());
    }
    bind_at(places, client.endpoint, client.path, client.rights, server)
}

// Binds the end of the mount with this index, where that goes on at the server.
fn bind_end<'a>(
    start: &'a Start,
    index: u32,
    item: u32,
    places: &Places<'a>,
    server: &mut Server,
) -> Result<(), NoMemory>
    requires accepted { AreAccepted start.now }
    requires there { index < length start.now.servers }
    requires within { item < length start.now.mounts }
    requires holds { HoldsJust start.now index (bound_among start.now index item) server.old places.now }
    ensures { OnOk result (HoldsJust start.now index (bound_among start.now index (item + 1)) server.new places.now) }
{
    let mount = start.mount_at(item);
    if mount.target != index {
        return Ok(());
    }
    let endpoint = end_of_mount(item);
    bind_at(places, endpoint, mount.at, mount.rights, server)
}

// Binds the first connections to a server, in the order of the file.
fn bind_clients<'a>(
    start: &'a Start,
    index: u32,
    places: &Places<'a>,
    server: &mut Server,
) -> Result<(), NoMemory>
    requires accepted { AreAccepted start.now }
    requires there { index < length start.now.servers }
    requires holds { HoldsJust start.now index [] server.old places.now }
    ensures { OnOk result (HoldsJust start.now index (clients_among start.now index (length start.now.clients)) server.new places.now) }
{
    for item in 0..start.clients() {
        bind_client(start, index, item, places, server)?;
    }
    Ok(())
}

// Binds the ends of the mounts that go on at a server, behind its first connections.
fn bind_ends<'a>(
    start: &'a Start,
    index: u32,
    places: &Places<'a>,
    server: &mut Server,
) -> Result<(), NoMemory>
    requires accepted { AreAccepted start.now }
    requires there { index < length start.now.servers }
    requires holds { HoldsJust start.now index (clients_among start.now index (length start.now.clients)) server.old places.now }
    ensures { OnOk result (HoldsJust start.now index (begins_with start.now index) server.new places.now) }
{
    for item in 0..start.mounts() {
        bind_end(start, index, item, places, server)?;
    }
    Ok(())
}

/// Binds all that a server begins with: its first connections, and the ends of the mounts that go on at it.
pub(crate) fn bind_firsts<'a>(
    start: &'a Start,
    index: u32,
    places: &Places<'a>,
    server: &mut Server,
) -> Result<(), NoMemory>
    requires accepted { AreAccepted start.now }
    requires there { index < length start.now.servers }
    requires holds { HoldsJust start.now index [] server.old places.now }
    ensures { OnOk result (HoldsJust start.now index (begins_with start.now index) server.new places.now) }
{
    bind_clients(start, index, places, server)?;
    bind_ends(start, index, places, server)
}
