ghost use Rattle.std.specs.Prelude.{◌≡◌, ◌<◌, ◌≤◌, List, length, if◌then◌else◌, None, IfOk, IfSome};
ghost use Rattle.std.specs.List.{list_all};
ghost use Rattle.std.specs.Option.{option_copied, option_and_then, option_map};
ghost use Rattle.toml.specs.Data.{as_str};
ghost use Rattle.toml.specs.View.{view};
ghost use Rattle.node_graph.specs.Refusals.{is_file};
ghost use Rattle.session_start.specs.Items.{ClientItem};
ghost use Rattle.session_start.specs.Lent.{mount_item, client_item};
ghost use Rattle.tree_file.specs.Texts.{only, kind_of, is_digit, hex_of};
ghost use Rattle.tree_file.specs.Reading.{index_of, server_at, path_at, place_at, rights_at, is_new_name, server_of, kind_at, bytes_at, is_new_endpoint, endpoint_at, endpoint_from, node_of, mount_of, client_of};
ghost use Rattle.tree_file.specs.Kept.{HasEndpoints};

use crate::fields::{has_only, text_at};
use fidl_names::{MAX_SERVERS, NoMemory, is_client};
use hex::FromHexError;
use io_rights::{Rights, read_rights};
use node_graph::NodeKind;
use path_walk::{Path, check_name, is_dot};
use session_start::{Bytes, Node, StartClient, StartMount};
use std::alloc::Global;
use std::collections::BTreeSet;
use toml::Value;

/// The index of a name among the servers' names.
#[tactic(auto, unfolding(crate::specs::Reading::index_of))]
pub fn index_of(names: &[Bytes], name: &[u8]) -> Option<usize>
    ensures place { result ≡ index_of names.now name.now }
    ensures bound { IfSome result (λ place. place < length names.now) }
{
    names.iter().position(|known| known.as_slice() == name)
}

// The server that is named at a key.
#[tactic(auto, unfolding(crate::specs::Reading::server_at))]
fn server_at(names: &[Bytes], key: &str, value: &Value) -> Option<u32>
    requires { length names.now ≤ MAX_SERVERS }
    ensures { result ≡ server_at names.now key.now (view value.now) }
{
    let name = text_at(value, key)?;
    let place = index_of(names, name.as_bytes())?;
    Some(place as u32)
}

// The path at a key.
#[tactic(auto, unfolding(crate::specs::Reading::path_at))]
fn path_at<'a>(key: &str, value: &'a Value) -> Option<&'a [u8]>
    ensures { option_copied result ≡ path_at key.now (view value.now) }
{
    let text = text_at(value, key)?.as_bytes();
    if Path::check(text).is_ok() {
        Some(text)
    } else {
        None
    }
}

// The path at a key that isn't `.`.
#[tactic(auto, unfolding(crate::specs::Reading::place_at))]
fn place_at<'a>(key: &str, value: &'a Value) -> Option<&'a [u8]>
    ensures { option_copied result ≡ place_at key.now (view value.now) }
{
    let path = path_at(key, value)?;
    if is_dot(path) { None } else { Some(path) }
}

// The rights of an item: all nine where none are given.
#[tactic(auto, unfolding(crate::specs::Reading::rights_at))]
fn rights_at(value: &Value) -> Option<Rights>
    ensures { result ≡ rights_at (view value.now) }
{
    match value.get("rights") {
        Some(found) => read_rights(found.as_str()?.as_bytes()),
        None => Some(Rights::all()),
    }
}

// What a kind's word stands for.
#[tactic(auto, unfolding(crate::specs::Texts::kind_of))]
fn kind_of(word: &str) -> Option<NodeKind>
    ensures { result ≡ kind_of word.now }
{
    if word == "dir" {
        Some(NodeKind::Directory)
    } else if word == "file" {
        Some(NodeKind::File)
    } else if word == "service" {
        Some(NodeKind::Service)
    } else {
        None
    }
}

#[tactic(auto, unfolding(crate::specs::Reading::kind_at))]
fn kind_at(value: &Value) -> Option<NodeKind>
    ensures { result ≡ kind_at (view value.now) }
{
    let word = text_at(value, "kind")?;
    kind_of(word)
}

// The number of an endpoint of a client.
#[tactic(auto, unfolding(crate::specs::Reading::endpoint_at))]
fn endpoint_at(value: &Value) -> Option<u32>
    ensures { result ≡ endpoint_at (view value.now) }
{
    let number = value.get("endpoint")?.as_integer()?;
    endpoint_from(number)
}

// The endpoint of a number, where it is a client's.
fn endpoint_from(number: i64) -> Option<u32>
    ensures { result ≡ endpoint_from number }
{
    let endpoint = u32::try_from(number).ok()?;
    if is_client(endpoint) {
        Some(endpoint)
    } else {
        None
    }
}

// The bytes that pairs of digits stand for.
#[tactic(auto, unfolding(crate::specs::Texts::hex_of))]
fn hex_of(alloc: Global, text: &str) -> Result<Option<Bytes>, NoMemory>
    ensures { IfOk result (λ found. found ≡ hex_of text.now) }
{
    if !all_digits(text.as_bytes()) {
        return Ok(None);
    }
    match hex::decode(alloc, text.as_bytes()) {
        Ok(bytes) => Ok(Some(Bytes::new(bytes))),
        Err(FromHexError::OutOfMemory) => Err(NoMemory),
        Err(_) => Ok(None),
    }
}

fn all_digits(text: &[u8]) -> bool
    ensures { result ≡ list_all is_digit text.now }
{
    text.iter().all(is_digit)
}

// Whether the byte is one of 0 to 9 and a to f.
fn is_digit(byte: &u8) -> bool
    ensures { result ≡ is_digit byte.now }
{
    (*byte >= b'0' && *byte <= b'9') || (*byte >= b'a' && *byte <= b'f')
}

fn is_file(kind: NodeKind) -> bool
    ensures { result ≡ is_file kind }
{
    match kind {
        NodeKind::File => true,
        _ => false,
    }
}

// A file's bytes, from its text or its pairs of digits.
#[tactic(auto, unfolding(crate::specs::Reading::bytes_at))]
fn bytes_at(alloc: Global, kind: NodeKind, value: &Value) -> Result<Option<Bytes>, NoMemory>
    ensures { IfOk result (λ found. found ≡ bytes_at kind (view value.now)) }
{
    match (value.get("text"), value.get("hex")) {
        (None, None) => Ok(Some(Bytes::new(Vec::new(alloc)))),
        (Some(text), None) => bytes_of_text(alloc, kind, text),
        (None, Some(digits)) => bytes_of_hex(alloc, kind, digits),
        (Some(_), Some(_)) => Ok(None),
    }
}

fn bytes_of_text(alloc: Global, kind: NodeKind, text: &Value) -> Result<Option<Bytes>, NoMemory>
    ensures { IfOk result (λ found. found ≡ (if is_file kind then as_str (view text.now) else None)) }
{
    if !is_file(kind) {
        return Ok(None);
    }
    match text.as_str() {
        Some(text) => Ok(Some(Bytes::copy(alloc, text.as_bytes())?)),
        None => Ok(None),
    }
}

fn bytes_of_hex(alloc: Global, kind: NodeKind, digits: &Value) -> Result<Option<Bytes>, NoMemory>
    ensures { IfOk result (λ found. found ≡ (if is_file kind then option_and_then hex_of (as_str (view digits.now)) else None)) }
{
    if !is_file(kind) {
        return Ok(None);
    }
    match digits.as_str() {
        Some(text) => hex_of(alloc, text),
        None => Ok(None),
    }
}

// Whether a server may have this name behind the earlier ones.
fn is_new_name(earlier: &[Bytes], name: &[u8]) -> bool
    ensures { result ≡ is_new_name earlier.now name.now }
{
    earlier.len() < MAX_SERVERS && check_name(name).is_ok() && index_of(earlier, name).is_none()
}

/// The name of a server behind the earlier ones; `None` where it breaks the rule of servers.
#[tactic(auto, unfolding(crate::specs::Reading::server_of))]
pub fn read_server(
    alloc: Global,
    earlier: &[Bytes],
    value: &Value,
) -> Result<Option<Bytes>, NoMemory>
    ensures { IfOk result (λ found. found ≡ server_of earlier.now (view value.now)) }
{
    if !has_only(value, &["name"]) {
        return Ok(None);
    }
    match text_at(value, "name") {
        Some(name) if is_new_name(earlier, name.as_bytes()) => Ok(Some(Bytes::copy(
            alloc,
            name.as_bytes(),
        )?)),
        _ => Ok(None),
    }
}

/// The node that an item stands for; `None` where it breaks the rule of nodes.
#[tactic(auto, unfolding(crate::specs::Reading::node_of))]
pub fn read_node(alloc: Global, names: &[Bytes], value: &Value) -> Result<Option<Node>, NoMemory>
    requires { length names.now ≤ MAX_SERVERS }
    ensures { IfOk result (λ found. found ≡ node_of names.now (view value.now)) }
{
    if !has_only(value, &["server", "path", "kind", "rights", "text", "hex"]) {
        return Ok(None);
    }
    let Some(server) = server_at(names, "server", value) else {
        return Ok(None);
    };
    let Some(path) = place_at("path", value) else {
        return Ok(None);
    };
    let Some(kind) = kind_at(value) else {
        return Ok(None);
    };
    let Some(rights) = rights_at(value) else {
        return Ok(None);
    };
    let Some(bytes) = bytes_at(alloc, kind, value)? else {
        return Ok(None);
    };
    let path = Bytes::copy(alloc, path)?;
    Ok(Some(Node {
        server,
        path,
        kind,
        rights,
        bytes,
    }))
}

/// The mount that an item stands for; `None` where it breaks the rule of mounts.
#[tactic(auto, unfolding(crate::specs::Reading::mount_of))]
pub fn mount_of<'a>(names: &[Bytes], value: &'a Value) -> Option<StartMount<'a>>
    requires { length names.now ≤ MAX_SERVERS }
    ensures { option_map mount_item result ≡ mount_of names.now (view value.now) }
{
    if !has_only(value, &["server", "path", "target", "at", "rights"]) {
        return None;
    }
    Some(StartMount {
        server: server_at(names, "server", value)?,
        path: place_at("path", value)?,
        target: server_at(names, "target", value)?,
        at: path_at("at", value)?,
        rights: rights_at(value)?,
    })
}

// The number of an endpoint that no earlier client has.
fn new_endpoint_at(taken: &BTreeSet<u32>, value: &Value) -> Option<u32>
    ensures { (earlier : List ClientItem) → HasEndpoints taken.now earlier → result ≡ only (is_new_endpoint earlier) (endpoint_at (view value.now)) }
{
    let endpoint = endpoint_at(value)?;
    if taken.contains(&endpoint) {
        None
    } else {
        Some(endpoint)
    }
}

/// The first connection that an item stands for, where these are the endpoints of those before it;
/// `None` where it breaks the rule of clients.
#[tactic(auto, unfolding(crate::specs::Reading::client_of))]
pub fn client_of<'a>(
    names: &[Bytes],
    taken: &BTreeSet<u32>,
    value: &'a Value,
) -> Option<StartClient<'a>>
    requires { length names.now ≤ MAX_SERVERS }
    ensures { (earlier : List ClientItem) → HasEndpoints taken.now earlier → option_map client_item result ≡ client_of names.now earlier (view value.now) }
{
    if !has_only(value, &["endpoint", "server", "path", "rights"]) {
        return None;
    }
    Some(StartClient {
        endpoint: new_endpoint_at(taken, value)?,
        server: server_at(names, "server", value)?,
        path: path_at("path", value)?,
        rights: rights_at(value)?,
    })
}
