//! Endpoints that die with others.

ghost use Rattle.std.specs.Prelude.{◌≡◌, ◌≢◌, ◌≤◌, ◌^◌, ◌++◌, [], ◌∷◌, AllPairs, IfOk, OnOk, OnErr, length, not, slice_get, take};
ghost use Rattle.link_admission.specs.Numbering.{among};
ghost use Rattle.message_queues.specs.Steps.{Adds, Gathers, IsListed, with_number};

use crate::parcel::Sent;
use fidl_names::{NoMemory, is_client};
use std::alloc::Global;
use std::collections::BTreeSet;
use std::marker::Model;

/// Who died, and the tokens that what was dropped carried.
#[derive(Drop)]
pub struct Buried {
    pub dead: Vec<u32>,
    pub tokens: Vec<u32>,
}

/// Endpoints, each once, in the order in which they were found, and the tokens that what waits on them carries. Those
/// behind the first are a set too: mostly one dies alone, and takes no memory there.
#[derive(Drop)]
pub(crate) struct Dying {
    found: Vec<u32>,
    later: BTreeSet<u32>,
    tokens: Vec<u32>,
}

impl Model for Dying {
    ghost use Rattle.std.specs.Prelude.{◌++◌, take};
    ghost use Rattle.message_queues.specs.Steps.{Doomed, IsListed};

    ghost Value = { Doomed };

    ghost view = { λ dying. record { found = dying.found.items; tokens = dying.tokens.items } };

    ghost invariant = { λ dying. IsListed dying.found.items (take 1 dying.found.items ++ dying.later.keys) };
}

impl Dying {
    /// These endpoints, of which there is at most one.
    pub(crate) fn with(alloc: Global, found: Vec<u32>) -> Dying
        requires { length found.items ≤ 1 }
        ensures found { result.found ≡ found.items }
        ensures tokens { result.tokens ≡ [] }
    {
        Dying {
            found,
            later: BTreeSet::new(alloc),
            tokens: Vec::new(alloc),
        }
    }

    /// These endpoints, each once. A list of at most one is itself what was found so far, so that who dies alone
    /// takes no memory here.
    pub(crate) fn of(alloc: Global, firsts: Vec<u32>) -> Result<Dying, NoMemory>
        ensures found { IfOk result (λ dying. Adds firsts.items [] dying.found) }
        ensures tokens { IfOk result (λ dying. dying.tokens ≡ []) }
    {
        if firsts.len() <= 1 {
            return Ok(Dying::with(alloc, firsts));
        }
        let mut dying = Dying::with(alloc, Vec::new(alloc));
        dying.add_all(&firsts)?;
        Ok(dying)
    }

    /// The endpoint at an index.
    pub(crate) fn get(&self, index: usize) -> Option<u32>
        ensures endpoint { result ≡ slice_get self.now.found index }
        ensures few { length self.now.found ≤ 2 ^ 32 }
    {
        self.found.get(index).copied()
    }

    /// Adds an endpoint that isn't there yet.
    fn add(&mut self, endpoint: u32) -> Result<(), NoMemory>
        ensures { OnOk result (self.new ≡ record self.old { found = with_number self.old.found endpoint }) }
    {
        self.found.reserve(1)?;
        if is_new(&self.found, &mut self.later, endpoint)? {
            self.found.push(endpoint)?;
        }
        Ok(())
    }

    /// Adds those of these endpoints that aren't there yet.
    fn add_all(&mut self, endpoints: &[u32]) -> Result<(), NoMemory>
        ensures found { OnOk result (Adds endpoints.now self.old.found self.new.found) }
        ensures tokens { OnOk result (self.new.tokens ≡ self.old.tokens) }
    {
        for endpoint in endpoints {
            self.add(*endpoint)?;
        }
        Ok(())
    }

    /// Adds the endpoints and the tokens that an entry carries.
    pub(crate) fn add_carried(&mut self, sent: &Sent) -> Result<(), NoMemory>
        ensures { OnOk result (Gathers (sent.now ∷ []) self.old self.new) }
    {
        for handle in sent.parcel.handles() {
            let number = handle.number();
            if is_client(number) {
                self.add(number)?;
            } else {
                self.tokens.push(number)?;
            }
        }
        Ok(())
    }

    /// Adds what these entries carry.
    pub(crate) fn add_all_carried(&mut self, entries: &[Sent]) -> Result<(), NoMemory>
        ensures { OnOk result (Gathers entries.now self.old self.new) }
    {
        for sent in entries {
            self.add_carried(sent)?;
        }
        Ok(())
    }

    /// All of them.
    pub(crate) fn into_buried(self) -> Buried
        ensures dead { result.dead.items ≡ self.found }
        ensures tokens { result.tokens.items ≡ self.tokens }
        ensures once { AllPairs (λ one other. one ≢ other) result.dead.items }
    {
        Buried {
            dead: self.found,
            tokens: self.tokens,
        }
    }
}

/// Whether an endpoint is none of those that were found. One behind the first is put into the set.
fn is_new(found: &Vec<u32>, later: &mut BTreeSet<u32>, endpoint: u32) -> Result<bool, NoMemory>
    requires { IsListed found.now.items (take 1 found.now.items ++ later.old.keys) }
    ensures new { IfOk result (λ is_new. is_new ≡ not (among endpoint found.now.items)) }
    ensures listed { OnOk result (IsListed (with_number found.now.items endpoint) (take 1 (with_number found.now.items endpoint) ++ later.new.keys)) }
    ensures err { OnErr result (later.new.keys ≡ later.old.keys) }
{
    match found.first() {
        None => Ok(true),
        Some(first) if *first == endpoint => Ok(false),
        Some(_) => Ok(later.insert(endpoint)?),
    }
}
