ghost use Rattle.std.specs.Prelude.{◌≡◌, IfOk, OnOk, OnErr};
ghost use Rattle.std.specs.FinMap as finite;

use fidl_names::NoMemory;
use std::alloc::Global;
use std::collections::BTreeMap;
use std::marker::Model;

/// The next node by a node's number and a step.
#[derive(Drop)]
pub(crate) struct Edges {
    alloc: Global,
    nodes: BTreeMap<(usize, Vec<u8>), usize>,
}

impl Model for Edges {
    ghost use Rattle.std.specs.Prelude.{map};
    ghost use Rattle.std.specs.FinMap as finite;
    ghost use Rattle.io_namespace.specs.Kept.{EdgeMap, edges_code};

    ghost Value = { EdgeMap };

    ghost coded = { edges_code };

    ghost view = { λ e. finite.from_entries (map (λ x. ((x.0.0, x.0.1.items), x.1)) e.nodes.entries) };
}

impl Edges {
    pub(crate) fn new(alloc: Global) -> Edges
        ensures { result ≡ finite.empty }
    {
        Edges {
            alloc,
            nodes: BTreeMap::new(alloc),
        }
    }

    /// The node behind a step.
    pub(crate) fn get(&self, node: usize, step: &[u8]) -> Result<Option<usize>, NoMemory>
        ensures { IfOk result (λ next. next ≡ finite.get self.now (node, step.now)) }
    {
        let key = (node, Vec::from_slice(self.alloc, step)?);
        Ok(self.nodes.get(&key).copied())
    }

    /// Puts a node behind a step.
    pub(crate) fn put(&mut self, node: usize, step: &[u8], next: usize) -> Result<(), NoMemory>
        ensures put { OnOk result (self.new ≡ finite.insert self.old (node, step.now) next) }
        ensures same { OnErr result (self.new ≡ self.old) }
    {
        let step = Vec::from_slice(self.alloc, step)?;
        self.nodes.insert((node, step), next)?;
        Ok(())
    }
}
