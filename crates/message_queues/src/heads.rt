//! The first entries of the endpoints that are bound at one server, in order.

ghost use Rattle.std.specs.Prelude.{◌≡◌, true, IfOk, IsSomeAnd, OnOk, OnErr, replicate, slice_get};
ghost use Rattle.std.specs.FinMap as finite;
ghost use Rattle.message_queues.specs.Steps.{AreBefore, IsLeast, IsRising, heads_with, older, without_place};

use fidl_names::NoMemory;
use std::alloc::Global;
use std::collections::{BTreeMap, VecDeque};
use std::marker::Model;

/// For each place of a first entry the endpoint on which it waits. Who comes in order of places stands in line,
/// and mostly leaves it in order. Where one comes or leaves out of turn, those of the line before it are put
/// among the others, each of them once.
#[derive(Drop)]
pub(crate) struct Heads {
    line: VecDeque<(u64, u32)>,
    others: BTreeMap<u64, u32>,
}

impl Model for Heads {
    ghost use Rattle.std.specs.FinMap as finite;
    ghost use Rattle.std.specs.Coded.{coded_ℕ};
    ghost use Rattle.message_queues.specs.Steps.{Heads as Seen, IsRising, heads_with};

    ghost Value = { Seen };

    ghost coded = { finite.code coded_ℕ coded_ℕ };

    ghost view = { λ heads. heads_with heads.line.items (finite.from_entries heads.others.entries) };

    ghost invariant = { λ heads. IsRising heads.line.items };
}

impl Heads {
    pub(crate) fn new(alloc: Global) -> Heads
        ensures { result ≡ finite.empty }
    {
        Heads {
            line: VecDeque::new(alloc),
            others: BTreeMap::new(alloc),
        }
    }

    /// The heads of each of so many servers, with nothing in order yet.
    pub(crate) fn of_each(alloc: Global, servers: u32) -> Result<Vec<Heads>, NoMemory>
        ensures { IfOk result (λ heads. heads.items ≡ replicate servers finite.empty) }
    {
        let mut heads = Vec::with_capacity(alloc, servers as usize)?;
        for _ in 0..servers {
            heads.push(Heads::new(alloc))?;
        }
        Ok(heads)
    }

    #[inline(always)]
    pub(crate) fn put(&mut self, place: u64, endpoint: u32) -> Result<(), NoMemory>
        ensures put { OnOk result (self.new ≡ finite.insert self.old place endpoint) }
        ensures err { OnErr result (self.new ≡ self.old) }
    {
        if is_last(&self.line, place) {
            self.line.push_back((place, endpoint))?;
            return Ok(());
        }
        put_among(&mut self.line, &mut self.others, place, endpoint)
    }

    #[inline(always)]
    pub(crate) fn remove(&mut self, place: u64)
        ensures { self.new ≡ finite.remove self.old place }
    {
        if self.others.is_empty() && is_first(&self.line, place) {
            self.line.pop_front();
            return;
        }
        remove_among(&mut self.line, &mut self.others, place);
    }

    /// The endpoint at one place is at another from now on.
    pub(crate) fn advance(&mut self, place: u64, next: u64, endpoint: u32) -> Result<(), NoMemory>
        ensures put { OnOk result (self.new ≡ finite.remove (finite.insert self.old next endpoint) place) }
        ensures err { OnErr result (self.new ≡ self.old) }
    {
        self.put(next, endpoint)?;
        self.remove(place);
        Ok(())
    }

    /// The least place, and the endpoint there.
    pub(crate) fn oldest(&self) -> Option<(u64, u32)>
        ensures { IsLeast self.now result }
    {
        older(first_of(&self.line), least_of(&self.others))
    }
}

/// The first of a line.
fn first_of(line: &VecDeque<(u64, u32)>) -> Option<(u64, u32)>
    ensures { result ≡ slice_get line.now.items 0 }
{
    line.front().copied()
}

/// Whether the first of a line stands at a place.
fn is_first(line: &VecDeque<(u64, u32)>, place: u64) -> bool
    ensures { result ≡ true → IsSomeAnd (slice_get line.now.items 0) (λ first. first.0 ≡ place) }
{
    match line.front() {
        Some(first) => first.0 == place,
        None => false,
    }
}

/// Whether a place is behind those of a line.
fn is_last(line: &VecDeque<(u64, u32)>, place: u64) -> bool
    requires { IsRising line.now.items }
    ensures { result ≡ true → AreBefore place line.now.items }
{
    match line.back() {
        Some(last) => last.0 < place,
        None => true,
    }
}

/// Puts those of a line that are before a place among the others, or for want of memory the first of them.
fn let_by(line: &mut VecDeque<(u64, u32)>, others: &mut BTreeMap<u64, u32>, place: u64)
    requires { IsRising line.old.items }
    ensures same { heads_with line.new.items (finite.from_entries others.new.entries) ≡ heads_with line.old.items (finite.from_entries others.old.entries) }
    ensures rising { IsRising line.new.items }
{
    for _ in 0..line.len() {
        let Some((first, endpoint)) = first_of(line) else {
            return;
        };
        if first >= place {
            return;
        }
        let Ok(_) = others.insert(first, endpoint) else {
            return;
        };
        line.pop_front();
    }
}

/// Takes out of a line what stands at a place. Only where memory was wanting others stand before it.
fn cut(line: &mut VecDeque<(u64, u32)>, place: u64)
    requires { IsRising line.old.items }
    ensures cut { line.new.items ≡ without_place place line.old.items }
    ensures rising { IsRising line.new.items }
{
    let Some((first, _)) = first_of(line) else {
        return;
    };
    if first > place {
        return;
    }
    if first == place {
        line.pop_front();
        return;
    }
    line.retain(|head| head.0 != place);
}

/// Puts an endpoint at a place among the others, which is the only one there.
fn put_among(
    line: &mut VecDeque<(u64, u32)>,
    others: &mut BTreeMap<u64, u32>,
    place: u64,
    endpoint: u32,
) -> Result<(), NoMemory>
    requires { IsRising line.old.items }
    ensures put { OnOk result (heads_with line.new.items (finite.from_entries others.new.entries) ≡ finite.insert (heads_with line.old.items (finite.from_entries others.old.entries)) place endpoint) }
    ensures err { OnErr result (heads_with line.new.items (finite.from_entries others.new.entries) ≡ heads_with line.old.items (finite.from_entries others.old.entries)) }
    ensures rising { IsRising line.new.items }
{
    let_by(line, others, place);
    others.insert(place, endpoint)?;
    cut(line, place);
    Ok(())
}

/// Takes out what stands at a place, if anything does, wherever that is.
fn remove_among(line: &mut VecDeque<(u64, u32)>, others: &mut BTreeMap<u64, u32>, place: u64)
    requires { IsRising line.old.items }
    ensures removed { heads_with line.new.items (finite.from_entries others.new.entries) ≡ finite.remove (heads_with line.old.items (finite.from_entries others.old.entries)) place }
    ensures rising { IsRising line.new.items }
{
    let_by(line, others, place);
    cut(line, place);
    others.remove(&place);
}

/// The least place of a map, and the endpoint there.
fn least_of(others: &BTreeMap<u64, u32>) -> Option<(u64, u32)>
    ensures { IsLeast (finite.from_entries others.now.entries) result }
{
    match others.first_key_value() {
        Some((place, endpoint)) => Some((*place, *endpoint)),
        None => None,
    }
}

/// Of two first entries the older one.
pub(crate) fn older(one: Option<(u64, u32)>, other: Option<(u64, u32)>) -> Option<(u64, u32)>
    ensures { result ≡ older one other }
{
    match (one, other) {
        (Some(first), Some(second)) if second.0 < first.0 => other,
        (Some(_), _) => one,
        (None, _) => other,
    }
}
