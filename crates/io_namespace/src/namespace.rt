ghost use Rattle.std.specs.Prelude.{◌≡◌, ◌<◌, ◌≤◌, ℕ, List, None, Some, length, drop, map, IfOk, IfErr, IfSome, OnOk, OnErr};
ghost use Rattle.std.specs.FinMap as finite;
ghost use Rattle.std.specs.Option.{option_map};
ghost use Rattle.io_namespace.specs.Cleaning.{clean};
ghost use Rattle.io_namespace.specs.Entries.{IsWith, Same, reached, resolved};
ghost use Rattle.io_namespace.specs.Faults.{IsFirst, add_fault, resolve_fault};
ghost use Rattle.io_namespace.specs.Kept.{end_of, node_behind, table_of};
ghost use Rattle.io_namespace.specs.Steps.{Grows};

use crate::checks::check_text;
use crate::cleaning::clean;
use crate::edges::Edges;
use crate::faults::NameFault;
use crate::resolved::{PathText, Resolved};
use fidl_names::NoMemory;
use std::alloc::Global;
use std::marker::Model;

/// A table from prefixes of absolute paths to endpoints.
///
/// It is kept as a tree of steps, so that adding a prefix or resolving a path looks once at each of its steps, whatever else is there.
#[derive(Drop)]
pub struct Namespace {
    alloc: Global,
    edges: Edges,
    ends: Vec<Option<u32>>,
}

impl Model for Namespace {
    ghost use Rattle.io_namespace.specs.Kept.{IsTree, Kept, kept_code};

    ghost Value = { Kept };

    ghost coded = { kept_code };

    ghost view = { λ n. record { edges = n.edges; ends = n.ends.items } };

    ghost invariant = { λ n. IsTree n.edges n.ends.items };
}

impl Namespace {
    /// The table without an entry.
    pub fn new(alloc: Global) -> Namespace
        ensures { (prefix : List (List ℕ)) → table_of result prefix ≡ None }
    {
        Namespace {
            alloc,
            edges: Edges::new(alloc),
            ends: Vec::new(alloc),
        }
    }

    /// Adds an entry. The first of Relative, TooLong, NotUtf8, BadName and Exists that holds is its fault. Where there is one nothing has changed.
    pub fn add(&mut self, prefix: &[u8], endpoint: u32) -> Result<(), NameFault>
        ensures good { OnOk result (add_fault (table_of self.old) prefix.now ≡ None) }
        ensures added { OnOk result (IsWith (table_of self.old) (clean prefix.now) endpoint (table_of self.new)) }
        ensures refused { IfErr result (IsFirst (add_fault (table_of self.old) prefix.now)) }
        ensures same { OnErr result (Same (table_of self.old) (table_of self.new)) }
    {
        check_text(prefix)?;
        let steps = clean(self.alloc, prefix)?;
        let node = self.node_at(&steps)?;
        if self.ends[node].is_some() {
            return Err(NameFault::Exists);
        }
        self.ends[node] = Some(endpoint);
        Ok(())
    }

    /// Where a path leads: over the endpoint of the longest clean prefix that was added, and by what of the clean path is behind that. The first of
    /// Relative, TooLong, NotUtf8, BadName and Unreachable that holds is its fault.
    pub fn resolve(&self, alloc: Global, path: &[u8]) -> Result<Resolved, NameFault>
        ensures good { OnOk result (resolve_fault (table_of self.now) path.now ≡ None) }
        ensures found { IfOk result (λ found. resolved (table_of self.now) (clean path.now) ≡ Some (found.endpoint, found.rest)) }
        ensures refused { IfErr result (IsFirst (resolve_fault (table_of self.now) path.now)) }
    {
        check_text(path)?;
        let steps = clean(alloc, path)?;
        let Some((endpoint, used)) = self.longest(&steps)? else {
            return Err(NameFault::Unreachable);
        };
        let rest = PathText::of(alloc, &steps[used..])?;
        Ok(Resolved { endpoint, rest })
    }

    // The endpoint of the longest prefix of these steps that was added, and how many steps that has.
    fn longest(&self, steps: &[&[u8]]) -> Result<Option<(u32, usize)>, NoMemory>
        ensures found { IfOk result (λ found. reached (table_of self.now) (map (λ step. step.now) steps.now)
            ≡ option_map (λ f. (f.0, drop f.1 (map (λ step. step.now) steps.now))) found) }
        ensures within { IfOk result (λ found. IfSome found (λ f. f.1 ≤ length steps.now)) }
    {
        let mut node = 0;
        let mut found = end_behind(self.end_at(0), 0);
        for i in 0..steps.len() {
            let Some(next) = self.edges.get(node, steps[i])? else {
                return Ok(found);
            };
            node = next;
            found = end_behind(self.end_at(node), i + 1).or(found);
        }
        Ok(found)
    }

    // The endpoint of a node, if an entry ends there.
    fn end_at(&self, node: usize) -> Option<u32>
        ensures { result ≡ end_of self.now.ends node }
    {
        if node < self.ends.len() {
            self.ends[node]
        } else {
            None
        }
    }

    // The node of a prefix, which is made where it isn't there.
    fn node_at(&mut self, steps: &[&[u8]]) -> Result<usize, NoMemory>
        ensures node { IfOk result (λ node. node_behind self.new.edges 0 (map (λ step. step.now) steps.now) ≡ Some node) }
        ensures within { IfOk result (λ node. node < length self.new.ends) }
        ensures same { Same (table_of self.old) (table_of self.new) }
    {
        self.plant()?;
        let mut node = 0;
        for i in 0..steps.len() {
            node = self.next_node(node, steps[i])?;
        }
        Ok(node)
    }

    // Makes the root where it isn't there.
    fn plant(&mut self) -> Result<(), NoMemory>
        ensures root { OnOk result (0 < length self.new.ends) }
        ensures same { Same (table_of self.old) (table_of self.new) }
    {
        if self.ends.is_empty() {
            self.ends.push(None)?;
        }
        Ok(())
    }

    // The node one step behind another.
    fn next_node(&mut self, node: usize, step: &[u8]) -> Result<usize, NoMemory>
        requires { node < length self.old.ends }
        ensures next { IfOk result (λ next. finite.get self.new.edges (node, step.now) ≡ Some next) }
        ensures within { IfOk result (λ next. next < length self.new.ends) }
        ensures grows { Grows self.old self.new }
        ensures same { Same (table_of self.old) (table_of self.new) }
    {
        if let Some(next) = self.edges.get(node, step)? {
            return Ok(next);
        }
        let next = self.ends.len();
        self.ends.push(None)?;
        self.edges.put(node, step, next)?;
        Ok(next)
    }
}

// An endpoint, and how many steps lead to it.
fn end_behind(endpoint: Option<u32>, used: usize) -> Option<(u32, usize)>
    ensures { result ≡ option_map (λ e. (e, used)) endpoint }
{
    match endpoint {
        Some(endpoint) => Some((endpoint, used)),
        None => None,
    }
}
