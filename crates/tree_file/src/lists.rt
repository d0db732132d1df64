ghost use Rattle.std.specs.Prelude.{◌≡◌, ◌≤◌, [], Ok, length, map, IfOk, OnOk, IfErr};
ghost use Rattle.toml.specs.View.{view};
ghost use Rattle.session_start.specs.Lent.{mount_item, client_item};
ghost use Rattle.tree_file.specs.Rules.{items_at, read_servers, read_nodes, read_mounts, read_clients, servers_of, rule_4, rule_5, rule_6, rule_7};
ghost use Rattle.tree_file.specs.Faults.{Breaks};

use crate::faults::{TreeFault, broken};
use crate::reading::{client_of, mount_of, read_node, read_server};
use fidl_names::{MAX_SERVERS, NoMemory};
use session_start::{Bytes, Client, Mount, Node, StartClient, StartMount};
use std::alloc::Global;
use std::collections::BTreeSet;
use toml::Value;

/// The items of the list at a key.
#[tactic(auto, unfolding(crate::specs::Rules::items_at))]
pub fn items_at<'a>(document: &'a Value, key: &str) -> &'a [Value]
    ensures { map view result.now ≡ items_at key.now (view document.now) }
{
    let Some(value) = document.get(key) else {
        return &[];
    };
    match value.as_array() {
        Some(items) => items.as_slice(),
        None => &[],
    }
}

/// Puts the servers' names where there are none yet.
pub fn read_servers(
    alloc: Global,
    document: &Value,
    names: &mut Vec<Bytes>,
) -> Result<(), TreeFault>
    requires { names.old.items ≡ [] }
    ensures read { OnOk result (read_servers (view document.now) ≡ Ok names.new.items) }
    ensures few { OnOk result (length names.new.items ≤ MAX_SERVERS) }
    ensures refused { IfErr result (Breaks 4 (rule_4 (view document.now))) }
{
    let values = items_at(document, "server");
    for value in values {
        match read_server(alloc, names, value)? {
            Some(name) => names.push(name)?,
            None => return Err(broken(4, names.len())),
        }
    }
    Ok(())
}

/// Puts the nodes of all servers where there are none yet.
pub fn read_nodes(
    alloc: Global,
    names: &[Bytes],
    document: &Value,
    nodes: &mut Vec<Node>,
) -> Result<(), TreeFault>
    requires servers { servers_of (view document.now) ≡ names.now }
    requires few { length names.now ≤ MAX_SERVERS }
    requires none { nodes.old.items ≡ [] }
    ensures read { OnOk result (read_nodes (view document.now) ≡ Ok nodes.new.items) }
    ensures refused { IfErr result (Breaks 5 (rule_5 (view document.now))) }
{
    let values = items_at(document, "node");
    for value in values {
        match read_node(alloc, names, value)? {
            Some(node) => nodes.push(node)?,
            None => return Err(broken(5, nodes.len())),
        }
    }
    Ok(())
}

// A lent mount as one of its own.
fn keep_mount(alloc: Global, mount: &StartMount<'_>) -> Result<Mount, NoMemory>
    ensures { IfOk result (λ kept. kept ≡ mount_item mount.now) }
{
    let path = Bytes::copy(alloc, mount.path)?;
    let at = Bytes::copy(alloc, mount.at)?;
    Ok(Mount {
        server: mount.server,
        path,
        target: mount.target,
        at,
        rights: mount.rights,
    })
}

// A lent first connection as one of its own.
fn keep_client(alloc: Global, client: &StartClient<'_>) -> Result<Client, NoMemory>
    ensures { IfOk result (λ kept. kept ≡ client_item client.now) }
{
    Ok(Client {
        endpoint: client.endpoint,
        server: client.server,
        path: Bytes::copy(alloc, client.path)?,
        rights: client.rights,
    })
}

/// Puts the mounts of all servers where there are none yet.
pub fn read_mounts(
    alloc: Global,
    names: &[Bytes],
    document: &Value,
    mounts: &mut Vec<Mount>,
) -> Result<(), TreeFault>
    requires servers { servers_of (view document.now) ≡ names.now }
    requires few { length names.now ≤ MAX_SERVERS }
    requires none { mounts.old.items ≡ [] }
    ensures read { OnOk result (read_mounts (view document.now) ≡ Ok mounts.new.items) }
    ensures refused { IfErr result (Breaks 6 (rule_6 (view document.now))) }
{
    let values = items_at(document, "mount");
    for value in values {
        match mount_of(names, value) {
            Some(mount) => mounts.push(keep_mount(alloc, &mount)?)?,
            None => return Err(broken(6, mounts.len())),
        }
    }
    Ok(())
}

/// Puts the first connections where there are none yet.
pub fn read_clients(
    alloc: Global,
    names: &[Bytes],
    document: &Value,
    clients: &mut Vec<Client>,
) -> Result<(), TreeFault>
    requires servers { servers_of (view document.now) ≡ names.now }
    requires few { length names.now ≤ MAX_SERVERS }
    requires none { clients.old.items ≡ [] }
    ensures read { OnOk result (read_clients (view document.now) ≡ Ok clients.new.items) }
    ensures refused { IfErr result (Breaks 7 (rule_7 (view document.now))) }
{
    let values = items_at(document, "client");
    let mut endpoints = BTreeSet::new(alloc);
    for value in values {
        match client_of(names, &endpoints, value) {
            Some(client) => {
                endpoints.insert(client.endpoint)?;
                clients.push(keep_client(alloc, &client)?)?;
            }
            None => return Err(broken(7, clients.len())),
        }
    }
    Ok(())
}
