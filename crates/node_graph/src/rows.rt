ghost use Rattle.std.specs.Prelude.{◌≡◌, ◌+◌, ◌-◌, ◌^◌, ◌<◌, ◌≤◌, List, length, OnOk, OnErr};
ghost use Rattle.node_graph.specs.Cell.{Cell};
ghost use Rattle.node_graph.specs.Graph.{resized, overwritten};
ghost use Rattle.node_graph.specs.Rows.{is_needed};

use crate::nodes::{NodeKind, NodeRef};
use fidl_names::NoMemory;
use std::marker::Model;

// A node's row with its holds, how many names lead to it, and the directory that a directory's name
// stands in.
#[derive(Drop)]
pub struct Node {
    number: u64,
    kind: NodeKind,
    bytes: Vec<u8>,
    holds: u32,
    links: u32,
    parent: NodeRef,
}

impl Model for Node {
    ghost use Rattle.node_graph.specs.Cell.{Cell};

    ghost Value = { Cell };

    ghost view = { λ node. record { number = node.number; kind = node.kind; bytes = node.bytes.items; holds = node.holds; links = node.links; parent = node.parent } };
}

impl Node {
    pub fn new(number: u64, kind: NodeKind, bytes: Vec<u8>, links: u32, parent: NodeRef) -> Node
        ensures { result ≡ record { number = number; kind = kind; bytes = bytes.items; holds = 0; links = links; parent = parent } }
    {
        Node {
            number,
            kind,
            bytes,
            holds: 0,
            links,
            parent,
        }
    }

    pub fn kind(&self) -> NodeKind
        ensures { result ≡ self.now.kind }
    {
        self.kind
    }

    pub fn bytes(&self) -> &[u8]
        ensures { result.now ≡ self.now.bytes }
    {
        &self.bytes
    }

    pub fn links(&self) -> u32
        ensures { result ≡ self.now.links }
    {
        self.links
    }

    pub fn parent(&self) -> NodeRef
        ensures { result ≡ self.now.parent }
    {
        self.parent
    }

    // Whether it is the root, linked or held.
    pub fn is_needed(&self) -> bool
        ensures { result ≡ is_needed self.now }
    {
        let is_root = self.number == 1;
        let is_linked = self.links > 0;
        is_root || is_linked || self.holds > 0
    }

    pub fn hold(&mut self)
        requires { self.old.holds < 2 ^ 32 - 1 }
        ensures { self.new ≡ record self.old { holds = self.old.holds + 1 } }
    {
        self.holds += 1;
    }

    pub fn release(&mut self)
        requires { 0 < self.old.holds }
        ensures { self.new ≡ record self.old { holds = self.old.holds - 1 } }
    {
        self.holds -= 1;
    }

    // One name more leads to it.
    pub fn link(&mut self)
        requires { self.old.links < 2 ^ 32 - 1 }
        ensures { self.new ≡ record self.old { links = self.old.links + 1 } }
    {
        self.links += 1;
    }

    // One name less leads to it.
    pub fn unlink(&mut self)
        requires { 0 < self.old.links }
        ensures { self.new ≡ record self.old { links = self.old.links - 1 } }
    {
        self.links -= 1;
    }

    pub fn set_parent(&mut self, parent: NodeRef)
        ensures { self.new ≡ record self.old { parent = parent } }
    {
        self.parent = parent;
    }

    // A gap before the offset is filled with zeros.
    pub fn write(&mut self, offset: usize, bytes: &[u8]) -> Result<(), NoMemory>
        requires { offset + length bytes.now < 2 ^ 63 }
        ensures written { OnOk result (self.new ≡ record self.old { bytes = overwritten self.old.bytes offset bytes.now }) }
        ensures unchanged { OnErr result (self.new ≡ self.old) }
    {
        let end = offset + bytes.len();
        self.bytes.resize(self.bytes.len().max(end), 0)?;
        self.bytes[offset..end].copy_from_slice(bytes);
        Ok(())
    }

    pub fn resize(&mut self, size: usize) -> Result<(), NoMemory>
        ensures resized { OnOk result (self.new ≡ record self.old { bytes = resized self.old.bytes size }) }
        ensures unchanged { OnErr result (self.new ≡ self.old) }
        ensures shorter { OnErr result (length self.old.bytes < size) }
    {
        self.bytes.resize(size, 0)?;
        Ok(())
    }
}
