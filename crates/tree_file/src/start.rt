ghost use Rattle.std.specs.Prelude.{◌≡◌, ◌≤◌, [], ◌∷◌, Some, None, codes, length, IfOk, IfErr, OnOk};
ghost use Rattle.std.specs.List.{list_all};
ghost use Rattle.toml.specs.Data.{get};
ghost use Rattle.toml.specs.View.{view};
ghost use Rattle.session_start.specs.Accepted.{AreAccepted, HasFilesOfBytes};
ghost use Rattle.session_start.specs.RulesOnLists.{first_broken, rules_on_counts, rules_on_lists, rules_on_places};
ghost use Rattle.tree_file.specs.Fields.{is_table};
ghost use Rattle.tree_file.specs.Rules.{document_of, broken_in, is_versioned, is_version_one, has_lists, has_all_tables, has_items, has_tables, lists_of, rule_2, rule_3, rules_on_form, first_failure, start_from};
ghost use Rattle.tree_file.specs.Faults.{IsFirst};
ghost use Rattle.tree_file.specs.Kept.{Stands};

use crate::faults::{TreeFault, broken};
use crate::fields::has_only;
use crate::lists;
use crate::rules::{self, Places};
use fidl_names::MAX_SERVERS;
use session_start::{Start, StartLists};
use std::alloc::Global;
use std::collections::BTreeMap;
use toml::Value;

// The document that a text is.
fn read_document(alloc: Global, text: &[u8]) -> Result<Value, TreeFault>
    ensures read { IfOk result (λ document. document_of text.now ≡ Some (view document)) }
    ensures refused { IfErr result (IsFirst (first_failure text.now)) }
{
    match toml::table_from_slice(alloc, text) {
        Ok(table) => Ok(Value::Table(table)),
        Err(fault) => {
            if fault.is_memory() {
                Err(TreeFault::NoMemory)
            } else {
                Err(TreeFault::Rule { rule: 1, item: 0 })
            }
        }
    }
}

// Whether the document has a document's keys and the version 1.
#[tactic(auto, unfolding(crate::specs::Rules::is_versioned))]
fn is_versioned(document: &Value) -> bool
    ensures { result ≡ is_versioned (view document.now) }
{
    has_only(document, &["version", "server", "node", "mount", "client"])
        && is_version_one(document)
}

fn is_version_one(document: &Value) -> bool
    ensures { result ≡ is_version_one (get (codes "version") (view document.now)) }
{
    let Some(version) = document.get("version") else {
        return false;
    };
    match version.as_integer() {
        Some(number) => number == 1,
        None => false,
    }
}

fn are_tables(values: &[Value]) -> bool
    ensures { result ≡ list_all (λ value. is_table (view value)) values.now }
{
    values.iter().all(Value::is_table)
}

// Whether there is no value at the key, or an array of tables.
#[tactic(auto, unfolding(crate::specs::Rules::has_tables))]
fn has_tables(document: &Value, key: &str) -> bool
    ensures { result ≡ has_tables key.now (view document.now) }
{
    let Some(value) = document.get(key) else {
        return true;
    };
    match value.as_array() {
        Some(items) => are_tables(items.as_slice()),
        None => false,
    }
}

fn has_all_tables(document: &Value) -> bool
    ensures { result ≡ has_all_tables (view document.now) }
{
    has_tables(document, "server")
        && has_tables(document, "node")
        && has_tables(document, "mount")
        && has_tables(document, "client")
}

fn has_items(document: &Value, key: &str) -> bool
    ensures { result ≡ has_items key.now (view document.now) }
{
    !lists::items_at(document, key).is_empty()
}

// Whether each list is one of tables, and those of servers and clients have some.
#[tactic(auto, unfolding(crate::specs::Rules::has_lists))]
fn has_lists(document: &Value) -> bool
    ensures { result ≡ has_lists (view document.now) }
{
    has_all_tables(document) && has_items(document, "server") && has_items(document, "client")
}

// The rules on the document's keys and on what stands at them.
fn check_form(document: &Value) -> Result<(), TreeFault>
    ensures hold { OnOk result (first_broken 2 (rule_2 (view document.now) ∷ rule_3 (view document.now) ∷ []) ≡ None) }
    ensures refused { IfErr result (IsFirst (first_broken 2 (rule_2 (view document.now) ∷ rule_3 (view document.now) ∷ []))) }
{
    if !is_versioned(document) {
        return Err(broken(2, 0));
    }
    if !has_lists(document) {
        return Err(broken(3, 0));
    }
    Ok(())
}

// Puts the lists of a document that keeps the rules on each item by itself where there are none yet.
fn read_lists(alloc: Global, document: &Value, parts: &mut StartLists) -> Result<(), TreeFault>
    requires { parts.old ≡ record { servers = []; nodes = []; mounts = []; clients = [] } }
    ensures lists { OnOk result (parts.new ≡ lists_of (view document.now)) }
    ensures few { OnOk result (length parts.new.servers ≤ MAX_SERVERS) }
    ensures hold { OnOk result (first_broken 2 (rules_on_form (view document.now)) ≡ None) }
    ensures refused { IfErr result (IsFirst (first_broken 2 (rules_on_form (view document.now)))) }
{
    check_form(document)?;
    lists::read_servers(alloc, document, &mut parts.servers)?;
    lists::read_nodes(alloc, &parts.servers, document, &mut parts.nodes)?;
    lists::read_mounts(alloc, &parts.servers, document, &mut parts.mounts)?;
    lists::read_clients(alloc, &parts.servers, document, &mut parts.clients)
}

// The rules on where the items stand.
fn check_places(alloc: Global, parts: &StartLists) -> Result<(), TreeFault>
    ensures hold { OnOk result (first_broken 8 (rules_on_places parts.now) ≡ None) }
    ensures refused { IfErr result (IsFirst (first_broken 8 (rules_on_places parts.now))) }
{
    let mut places = BTreeMap::new(alloc);
    check_placed(&mut places, parts)
}

// The same, with what stands at each path put where nothing does yet.
fn check_placed<'a>(places: &mut Places<'a>, parts: &'a StartLists) -> Result<(), TreeFault>
    requires { Stands places.old [] }
    ensures hold { OnOk result (first_broken 8 (rules_on_places parts.now) ≡ None) }
    ensures refused { IfErr result (IsFirst (first_broken 8 (rules_on_places parts.now))) }
{
    rules::add_nodes(places, &parts.nodes)?;
    rules::add_mounts(places, &parts.mounts)?;
    match rules::misplaced_client(places, &parts.clients) {
        Some(item) => Err(broken(10, item)),
        None => Ok(()),
    }
}

// The rules on how much there is.
fn check_counts(parts: &StartLists) -> Result<(), TreeFault>
    requires { length parts.now.servers ≤ MAX_SERVERS }
    ensures bytes { OnOk result (HasFilesOfBytes parts.now) }
    ensures hold { OnOk result (first_broken 11 (rules_on_counts parts.now) ≡ None) }
    ensures refused { IfErr result (IsFirst (first_broken 11 (rules_on_counts parts.now))) }
{
    if let Some(item) = rules::large_node(&parts.nodes) {
        return Err(broken(11, item));
    }
    if let Some(item) = rules::crowded_server(&parts.servers, &parts.nodes, &parts.mounts) {
        return Err(broken(12, item));
    }
    if let Some(item) = rules::busy_server(&parts.servers, &parts.mounts, &parts.clients) {
        return Err(broken(13, item));
    }
    Ok(())
}

// The rules on the lists as a whole.
fn check_lists(alloc: Global, parts: &StartLists) -> Result<(), TreeFault>
    requires { length parts.now.servers ≤ MAX_SERVERS }
    ensures bytes { OnOk result (HasFilesOfBytes parts.now) }
    ensures hold { OnOk result (first_broken 8 (rules_on_lists parts.now) ≡ None) }
    ensures refused { IfErr result (IsFirst (first_broken 8 (rules_on_lists parts.now))) }
{
    check_places(alloc, parts)?;
    check_counts(parts)
}

// The start of a document, or the first rule behind the first that it breaks.
fn start_in(alloc: Global, document: &Value) -> Result<Start, TreeFault>
    ensures start { IfOk result (λ start. start ≡ lists_of (view document.now)) }
    ensures sound { OnOk result (broken_in (view document.now) ≡ None) }
    ensures accepted { IfOk result AreAccepted }
    ensures refused { IfErr result (IsFirst (broken_in (view document.now))) }
{
    let mut parts = StartLists::new(alloc);
    read_lists(alloc, document, &mut parts)?;
    check_lists(alloc, &parts)?;
    Ok(Start::new(parts))
}

/// The start that a tree file stands for, or the first rule that it breaks, with the first item that
/// fails it. Rule 1 is that it is TOML 1.1, nested no deeper than 80. What is accepted keeps the rules of a tree, and a start is
/// sound (`starts_are_sound`).
pub fn start_of(alloc: Global, text: &[u8]) -> Result<Start, TreeFault>
    ensures start { IfOk result (λ start. start_from text.now ≡ Some start) }
    ensures sound { OnOk result (first_failure text.now ≡ None) }
    ensures accepted { IfOk result AreAccepted }
    ensures refused { IfErr result (IsFirst (first_failure text.now)) }
{
    let document = read_document(alloc, text)?;
    start_in(alloc, &document)
}
