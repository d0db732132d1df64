//! The names of a copy. A message changes them only once each name that it puts in has its seat, so that want of memory changes
//! nothing.

ghost use Rattle.std.specs.Prelude.{◌≡◌, ◌&&◌, ℕ, List, true, if◌then◌else◌, IsTrue, OnOk, All, Some, is_some};
ghost use Rattle.std.specs.BTreeMap.{IsOrdered};
ghost use Rattle.std.specs.Cmp.Lexicographic.{slice_cmp};
ghost use Rattle.std.specs.Ordering.{nat_cmp};
ghost use Rattle.std.specs.Str.{bytes_eq};
ghost use Rattle.watch_events.specs.Events.{AreEvents, Event, event_of};
ghost use Rattle.dir_mirror.specs.Seats.{after_events, change_of, is_there, names_of, seat_of};

use fidl_names::NoMemory;
use std::alloc::Global;
use std::collections::BTreeMap;
use watch_events::{Seen, read_events};

/// Names, in the order of their bytes, each with whether it is there. Between messages all are.
pub(crate) type Seats = BTreeMap<Vec<u8>, bool>;

/// That a name came.
const ADDED: u8 = 1;

/// That one went.
const REMOVED: u8 = 2;

/// That one is there.
const EXISTING: u8 = 3;

/// Whether its name is there behind the event, if it tells of that.
fn change_of(one: &Seen<'_>) -> Option<bool>
    ensures { result ≡ change_of (event_of one.now) }
{
    if one.name == b".".as_slice() {
        return None;
    }
    match one.event {
        ADDED | EXISTING => Some(true),
        REMOVED => Some(false),
        _ => None,
    }
}

/// Gives a seat to each name that the events of a message put in. No name comes or goes.
pub(crate) fn seat_all(alloc: Global, seats: &mut Seats, bytes: &[u8]) -> Result<(), NoMemory>
    requires ordered { IsOrdered (λ a b. slice_cmp nat_cmp a.items b.items) seats.old }
    ensures ordered { IsOrdered (λ a b. slice_cmp nat_cmp a.items b.items) seats.new }
    ensures names { names_of (λ key. key.items) seats.new.entries ≡ names_of (λ key. key.items) seats.old.entries }
    ensures there { (name : List ℕ) → is_there (λ key. key.items) seats.new name ≡ is_there (λ key. key.items) seats.old name }
    ensures seated { (events : List Event) (rest : List ℕ) → AreEvents bytes.now events rest →
        OnOk result (All (λ one. change_of one ≡ Some true → IsTrue (is_some (seat_of (λ key. key.items) seats.new one.name))) events) }
{
    for one in read_events(bytes) {
        if change_of(&one) == Some(true) {
            seat(alloc, seats, one.name)?;
        }
    }
    Ok(())
}

/// Gives a name a seat.
fn seat(alloc: Global, seats: &mut Seats, name: &[u8]) -> Result<(), NoMemory>
    requires ordered { IsOrdered (λ a b. slice_cmp nat_cmp a.items b.items) seats.old }
    ensures ordered { IsOrdered (λ a b. slice_cmp nat_cmp a.items b.items) seats.new }
    ensures names { names_of (λ key. key.items) seats.new.entries ≡ names_of (λ key. key.items) seats.old.entries }
    ensures there { (other : List ℕ) → is_there (λ key. key.items) seats.new other ≡ is_there (λ key. key.items) seats.old other }
    ensures kept { (other : List ℕ) → IsTrue (is_some (seat_of (λ key. key.items) seats.old other)) → IsTrue (is_some (seat_of (λ key. key.items) seats.new other)) }
    ensures seated { OnOk result (IsTrue (is_some (seat_of (λ key. key.items) seats.new name.now))) }
{
    if seats.contains_key(name) {
        return Ok(());
    }
    let name = Vec::from_slice(alloc, name)?;
    seats.insert(name, false)?;
    Ok(())
}

/// Puts names in and takes them out, as the events of a message say, one after the other.
pub(crate) fn mark_all(seats: &mut Seats, bytes: &[u8])
    requires ordered { IsOrdered (λ a b. slice_cmp nat_cmp a.items b.items) seats.old }
    requires seated { (events : List Event) (rest : List ℕ) → AreEvents bytes.now events rest →
        All (λ one. change_of one ≡ Some true → IsTrue (is_some (seat_of (λ key. key.items) seats.old one.name))) events }
    ensures ordered { IsOrdered (λ a b. slice_cmp nat_cmp a.items b.items) seats.new }
    ensures told { (events : List Event) (rest : List ℕ) → AreEvents bytes.now events rest →
        (name : List ℕ) → is_there (λ key. key.items) seats.new name ≡ after_events (is_there (λ key. key.items) seats.old name) events name }
{
    for one in read_events(bytes) {
        if let Some(there) = change_of(&one) {
            mark(seats, one.name, there);
        }
    }
}

/// Says of a name that has a seat whether it is there. One that has none isn't there.
fn mark(seats: &mut Seats, name: &[u8], there: bool)
    requires ordered { IsOrdered (λ a b. slice_cmp nat_cmp a.items b.items) seats.old }
    ensures ordered { IsOrdered (λ a b. slice_cmp nat_cmp a.items b.items) seats.new }
    ensures marked { (other : List ℕ) → seat_of (λ key. key.items) seats.new other ≡
        (if bytes_eq name.now other && is_some (seat_of (λ key. key.items) seats.old other) then Some there else seat_of (λ key. key.items) seats.old other) }
{
    if let Some(seat) = seats.get_mut(name) {
        *seat = there;
    }
}

/// Takes away the seats of names that the events of a message tell of and that aren't there. No name comes or goes.
pub(crate) fn sweep_all(seats: &mut Seats, bytes: &[u8])
    requires ordered { IsOrdered (λ a b. slice_cmp nat_cmp a.items b.items) seats.old }
    ensures ordered { IsOrdered (λ a b. slice_cmp nat_cmp a.items b.items) seats.new }
    ensures names { names_of (λ key. key.items) seats.new.entries ≡ names_of (λ key. key.items) seats.old.entries }
{
    for one in read_events(bytes) {
        if let Some(false) = seats.get(one.name) {
            seats.remove(one.name);
        }
    }
}
