//! The tokens that name directories of a server.

ghost use Rattle.std.specs.Prelude.{◌≡◌, None, OnErr, OnOk};
ghost use Rattle.std.specs.FinMap as finite;
ghost use Rattle.io_messages.specs.Asked.{asked};
ghost use Rattle.vfs_server.specs.Steps.{target_in};

use fidl_names::NoMemory;
use io_messages::Request;
use node_graph::NodeRef;
use std::alloc::Global;
use std::collections::BTreeMap;
use std::marker::Model;

/// Directories, each by the token that names it.
#[derive(Drop)]
pub(crate) struct Tokens {
    named: BTreeMap<u32, NodeRef>,
}

impl Model for Tokens {
    ghost use Rattle.std.specs.FinMap as finite;
    ghost use Rattle.std.specs.Ordering.{nat_cmp};
    ghost use Rattle.node_graph.specs.declared.nodes.NodeRef.{NodeRef};
    ghost use Rattle.vfs_server.specs.Codes.{tokens_code};

    ghost Value = { finite.FinMap nat_cmp NodeRef };

    ghost coded = { tokens_code };

    ghost view = { λ tokens. finite.from_entries tokens.named.entries };
}

impl Tokens {
    /// None.
    pub fn new(alloc: Global) -> Tokens
        ensures { result ≡ finite.empty }
    {
        Tokens {
            named: BTreeMap::new(alloc),
        }
    }

    /// The directory that a token names.
    pub fn get(&self, token: u32) -> Option<NodeRef>
        ensures { result ≡ finite.get self.now token }
    {
        self.named.get(&token).copied()
    }

    /// The directory that the token of a request names here; none where it has no token.
    pub fn target(&self, request: &Request<'_>) -> Option<NodeRef>
        ensures { result ≡ target_in self.now (asked request.now) }
    {
        self.get(request.token()?)
    }

    /// Lets a token that names nothing name a directory.
    pub fn insert(&mut self, token: u32, directory: NodeRef) -> Result<(), NoMemory>
        requires free { finite.get self.old token ≡ None }
        ensures inserted { OnOk result (self.new ≡ finite.insert self.old token directory) }
        ensures unchanged { OnErr result (self.new ≡ self.old) }
    {
        self.named.insert(token, directory)?;
        Ok(())
    }

    /// Takes out what a token names.
    pub fn remove(&mut self, token: u32) -> Option<NodeRef>
        ensures named { result ≡ finite.get self.old token }
        ensures removed { self.new ≡ finite.remove self.old token }
    {
        self.named.remove(&token)
    }
}
