ghost use Rattle.std.specs.Prelude.{◌≡◌, ◌++◌, ◌&&◌, [], ◌∷◌, None, List, map, length, nat_le, true, All, IfOk, OnOk, IfErr, ◌≤◌};
ghost use Rattle.fidl_names.specs.Numbers.{AreBytes};
ghost use Rattle.session_start.specs.Items.{NodeItem};
ghost use Rattle.session_start.specs.RulesOnLists.{Place, found_among, is_directory, fits_in, node_place, mount_place, first_failing, node_fits, mount_fits, client_fits, bytes_fit, names_held, connections_held, names_fit, connections_fit};
ghost use Rattle.tree_file.specs.Kept.{Stands};
ghost use Rattle.tree_file.specs.Faults.{Breaks};

use crate::faults::{TreeFault, broken};
use fidl_names::{MAX_CONNECTIONS, MAX_FILE, MAX_NAMES, MAX_SERVERS, NoMemory};
use node_graph::NodeKind;
use path_walk::{is_dot, parent_of};
use session_start::{Bytes, Client, Mount, Node};
use std::collections::BTreeMap;

/// Whether a directory stands at each path of each server.
pub type Places<'a> = BTreeMap<(u32, &'a [u8]), bool>;

// Whether what stands at a path of a server is a directory; `None` where nothing stands there.
fn found_among<'a>(places: &Places<'a>, server: u32, path: &'a [u8]) -> Option<bool>
    ensures { (listed : List Place) → Stands places.now listed → result ≡ found_among listed server path.now }
{
    places.get(&(server, path)).copied()
}

// Whether the path is that of a directory.
#[tactic(auto, unfolding(session_start::specs::RulesOnLists::is_directory))]
fn is_directory<'a>(places: &Places<'a>, server: u32, path: &'a [u8]) -> bool
    ensures { (listed : List Place) → Stands places.now listed → result ≡ is_directory listed server path.now }
{
    if is_dot(path) {
        return true;
    }
    found_among(places, server, path).unwrap_or(false)
}

// Whether the path is free and its parent is a directory.
fn fits_in<'a>(places: &Places<'a>, server: u32, path: &'a [u8]) -> bool
    ensures { (listed : List Place) → Stands places.now listed → result ≡ fits_in listed server path.now }
{
    if !is_directory(places, server, parent_of(path)) {
        return false;
    }
    found_among(places, server, path).is_none()
}

// Puts what stands at a path where it fits, and tells whether it does.
fn place<'a>(
    places: &mut Places<'a>,
    server: u32,
    path: &'a [u8],
    directory: bool,
) -> Result<bool, NoMemory>
    ensures { IfOk result (λ fits. (listed : List Place) → Stands places.old listed → (fits ≡ fits_in listed server path.now)
        × (fits ≡ true → Stands places.new (listed ++ record { server = server; path = path.now; directory = directory } ∷ []))) }
{
    if !fits_in(places, server, path) {
        return Ok(false);
    }
    places.insert((server, path), directory)?;
    Ok(true)
}

fn place_node<'a>(places: &mut Places<'a>, node: &'a Node) -> Result<bool, NoMemory>
    ensures { IfOk result (λ fits. (listed : List Place) → Stands places.old listed → (fits ≡ fits_in listed node.now.server node.now.path)
        × (fits ≡ true → Stands places.new (listed ++ node_place node.now ∷ []))) }
{
    let path = node.path.as_slice();
    let directory = matches!(node.kind, NodeKind::Directory);
    place(places, node.server, path, directory)
}

/// Puts all nodes, each in a directory before it.
pub fn add_nodes<'a>(places: &mut Places<'a>, nodes: &'a [Node]) -> Result<(), TreeFault>
    requires { Stands places.old [] }
    ensures fit { OnOk result (first_failing node_fits [] nodes.now ≡ None) }
    ensures placed { OnOk result (Stands places.new (map node_place nodes.now)) }
    ensures refused { IfErr result (Breaks 8 (first_failing node_fits [] nodes.now)) }
{
    for (item, node) in nodes.iter().enumerate() {
        if !place_node(places, node)? {
            return Err(broken(8, item));
        }
    }
    Ok(())
}

// A mount fits where what it goes on at is a directory, too.
fn place_mount<'a>(places: &mut Places<'a>, mount: &'a Mount) -> Result<bool, NoMemory>
    ensures { IfOk result (λ fits. (listed : List Place) → Stands places.old listed
        → (fits ≡ (fits_in listed mount.now.server mount.now.path && is_directory listed mount.now.target mount.now.at))
        × (fits ≡ true → Stands places.new (listed ++ mount_place mount.now ∷ []))) }
{
    let path = mount.path.as_slice();
    let at = mount.at.as_slice();
    if !is_directory(places, mount.target, at) {
        return Ok(false);
    }
    place(places, mount.server, path, false)
}

/// Puts all mounts among the nodes, each in a directory and on one.
pub fn add_mounts<'a>(places: &mut Places<'a>, mounts: &'a [Mount]) -> Result<(), TreeFault>
    ensures fit { OnOk result ((nodes : List NodeItem) → Stands places.old (map node_place nodes) → first_failing (mount_fits nodes) [] mounts.now ≡ None) }
    ensures placed { OnOk result ((nodes : List NodeItem) → Stands places.old (map node_place nodes)
        → Stands places.new (map node_place nodes ++ map mount_place mounts.now)) }
    ensures refused { IfErr result (λ fault. (nodes : List NodeItem) → Stands places.old (map node_place nodes)
        → Breaks 9 (first_failing (mount_fits nodes) [] mounts.now) fault) }
{
    for (item, mount) in mounts.iter().enumerate() {
        if !place_mount(places, mount)? {
            return Err(broken(9, item));
        }
    }
    Ok(())
}

// Whether the client's path is that of a directory.
fn client_fits<'a>(places: &Places<'a>, client: &'a Client) -> bool
    ensures { (listed : List Place) → Stands places.now listed → result ≡ is_directory listed client.now.server client.now.path }
{
    let path = client.path.as_slice();
    is_directory(places, client.server, path)
}

/// The first client whose path is that of no directory.
pub fn misplaced_client<'a>(places: &Places<'a>, clients: &'a [Client]) -> Option<usize>
    ensures { (listed : List Place) → Stands places.now listed → result ≡ first_failing (client_fits listed) [] clients.now }
{
    for (item, client) in clients.iter().enumerate() {
        if !client_fits(places, client) {
            return Some(item);
        }
    }
    None
}

fn is_small(node: &Node) -> bool
    ensures small { result ≡ nat_le (length node.now.bytes) MAX_FILE }
    ensures bytes { AreBytes node.now.bytes }
{
    let bytes = node.bytes.as_slice();
    bytes.len() <= MAX_FILE
}

/// The first node with more bytes than a file may have. Where there is none, what is in all nodes are bytes.
pub fn large_node(nodes: &[Node]) -> Option<usize>
    ensures first { result ≡ first_failing bytes_fit [] nodes.now }
    ensures bytes { result ≡ None → All (λ node. AreBytes node.bytes) nodes.now }
{
    for (item, node) in nodes.iter().enumerate() {
        if !is_small(node) {
            return Some(item);
        }
    }
    None
}

// How many nodes and mounts a server has.
fn names_held(nodes: &[Node], mounts: &[Mount], server: u32) -> usize
    ensures { result ≡ names_held nodes.now mounts.now server }
{
    let held = nodes.iter().filter(|node| node.server == server).count();
    held + mounts.iter().filter(|mount| mount.server == server).count()
}

// How many connections a server has at the start.
fn connections_held(mounts: &[Mount], clients: &[Client], server: u32) -> usize
    ensures { result ≡ connections_held mounts.now clients.now server }
{
    let held = clients
        .iter()
        .filter(|client| client.server == server)
        .count();
    held + mounts.iter().filter(|mount| mount.target == server).count()
}

fn has_few_names(nodes: &[Node], mounts: &[Mount], server: u32) -> bool
    ensures { result ≡ nat_le (names_held nodes.now mounts.now server) MAX_NAMES }
{
    names_held(nodes, mounts, server) <= MAX_NAMES
}

fn has_few_connections(mounts: &[Mount], clients: &[Client], server: u32) -> bool
    ensures { result ≡ nat_le (connections_held mounts.now clients.now server) MAX_CONNECTIONS }
{
    connections_held(mounts, clients, server) <= MAX_CONNECTIONS as usize
}

/// The first server with more nodes and mounts than it may have.
pub fn crowded_server(names: &[Bytes], nodes: &[Node], mounts: &[Mount]) -> Option<usize>
    requires { length names.now ≤ MAX_SERVERS }
    ensures { result ≡ first_failing (names_fit nodes.now mounts.now) [] names.now }
{
    for server in 0..names.len() {
        if !has_few_names(nodes, mounts, server as u32) {
            return Some(server);
        }
    }
    None
}

/// The first server with more connections at the start than it may have.
pub fn busy_server(names: &[Bytes], mounts: &[Mount], clients: &[Client]) -> Option<usize>
    requires { length names.now ≤ MAX_SERVERS }
    ensures { result ≡ first_failing (connections_fit mounts.now clients.now) [] names.now }
{
    for server in 0..names.len() {
        if !has_few_connections(mounts, clients, server as u32) {
            return Some(server);
        }
    }
    None
}
