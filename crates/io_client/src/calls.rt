// The calls that wait, and the endpoints that are watched.

ghost use Rattle.std.specs.Prelude.{◌≡◌, None, OnOk, OnErr, IfOk, is_some};
ghost use Rattle.std.specs.FinMap as finite;
ghost use Rattle.std.specs.FinSet as set;
ghost use Rattle.io_client.specs.Latest.{method_there, with_latest};

use fidl_names::{Method, NoMemory};
use std::alloc::Global;
use std::collections::{BTreeMap, BTreeSet};
use std::marker::Model;

/// The method of a call, if it waits there.
fn method_there(call: Option<((u32, u32), Method)>, endpoint: u32, txid: u32) -> Option<Method>
    ensures { result ≡ method_there call (endpoint, txid) }
{
    let (key, method) = call?;
    if key == (endpoint, txid) {
        Some(method)
    } else {
        None
    }
}

/// Puts a call, if there is one, into the table of the others.
fn put_back(
    call: Option<((u32, u32), Method)>,
    others: &mut BTreeMap<(u32, u32), Method>,
) -> Result<(), NoMemory>
    ensures put { OnOk result (finite.from_entries others.new.entries ≡ with_latest call (finite.from_entries others.old.entries)) }
    ensures no_memory { OnErr result (others.new.entries ≡ others.old.entries) }
{
    match call {
        None => Ok(()),
        Some((key, method)) => {
            others.insert(key, method)?;
            Ok(())
        }
    }
}

/// The methods of the calls that wait, by endpoint and transaction id. The one that was made last stands beside the
/// table of the others, since it is mostly answered before the next is made.
#[derive(Drop)]
pub(crate) struct Waiting {
    latest: Option<((u32, u32), Method)>,
    others: BTreeMap<(u32, u32), Method>,
}

impl Model for Waiting {
    ghost use Rattle.std.specs.Prelude.{◌≡◌, ⊤, None, Some};
    ghost use Rattle.std.specs.FinMap as finite;
    ghost use Rattle.fidl_names.specs.declared.methods.Method.{Method};
    ghost use Rattle.io_client.specs.Calls.{call_cmp};
    ghost use Rattle.io_client.specs.Codes.{waiting_code};
    ghost use Rattle.io_client.specs.Latest.{IsApart, with_latest};

    ghost Value = { finite.FinMap call_cmp Method };

    ghost coded = { waiting_code };

    ghost view = { λ w. with_latest w.latest (finite.from_entries w.others.entries) };

    ghost invariant = { λ w. IsApart w.latest (finite.from_entries w.others.entries) };
}

impl Waiting {
    pub(crate) fn new(alloc: Global) -> Waiting
        ensures { result ≡ finite.empty }
    {
        Waiting {
            latest: None,
            others: BTreeMap::new(alloc),
        }
    }

    /// How many calls wait.
    pub(crate) fn len(&self) -> usize
        ensures { result ≡ finite.len self.now }
    {
        match self.latest {
            Some(_) => self.others.len() + 1,
            None => self.others.len(),
        }
    }

    /// The method of the call that waits there.
    pub(crate) fn at(&self, endpoint: u32, txid: u32) -> Option<Method>
        ensures { result ≡ finite.get self.now (endpoint, txid) }
    {
        match method_there(self.latest, endpoint, txid) {
            Some(method) => Some(method),
            None => self.others.get(&(endpoint, txid)).copied(),
        }
    }

    /// A call waits where none did.
    pub(crate) fn add(&mut self, endpoint: u32, txid: u32, method: Method) -> Result<(), NoMemory>
        requires { finite.get self.old (endpoint, txid) ≡ None }
        ensures added { OnOk result (self.new ≡ finite.insert self.old (endpoint, txid) method) }
        ensures no_memory { OnErr result (self.new ≡ self.old) }
    {
        put_back(self.latest, &mut self.others)?;
        self.latest = Some(((endpoint, txid), method));
        Ok(())
    }

    /// The call that waits there, if one does, waits no more.
    pub(crate) fn remove(&mut self, endpoint: u32, txid: u32)
        ensures { self.new ≡ finite.remove self.old (endpoint, txid) }
    {
        match method_there(self.latest, endpoint, txid) {
            Some(_) => self.latest = None,
            None => {
                let _ = self.others.remove(&(endpoint, txid));
            }
        }
    }
}

/// The endpoints that get messages to watchers.
#[derive(Drop)]
pub(crate) struct Watched {
    endpoints: BTreeSet<u32>,
}

impl Model for Watched {
    ghost use Rattle.std.specs.FinSet as set;
    ghost use Rattle.std.specs.Coded.{coded_ℕ};
    ghost use Rattle.std.specs.Ordering.{nat_cmp};

    ghost Value = { set.FinSet nat_cmp };

    ghost coded = { set.code coded_ℕ };

    ghost view = { λ w. set.from_list w.endpoints.keys };
}

impl Watched {
    pub(crate) fn new(alloc: Global) -> Watched
        ensures { result ≡ set.empty }
    {
        Watched {
            endpoints: BTreeSet::new(alloc),
        }
    }

    /// Whether an endpoint is watched.
    pub(crate) fn has(&self, endpoint: u32) -> bool
        ensures { result ≡ set.contains self.now endpoint }
    {
        self.endpoints.contains(&endpoint)
    }

    /// An endpoint is watched.
    pub(crate) fn add(&mut self, endpoint: u32) -> Result<(), NoMemory>
        ensures added { OnOk result (self.new ≡ set.insert self.old endpoint) }
        ensures no_memory { OnErr result (self.new ≡ self.old) }
    {
        self.endpoints.insert(endpoint)?;
        Ok(())
    }
}
