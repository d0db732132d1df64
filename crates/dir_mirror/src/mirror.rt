ghost use Rattle.std.specs.Prelude.{◌≡◌, ◌++◌, ◌∷◌, [], List, false, IfSome, IsNone, IsOk, OnOk, OnErr, Err};
ghost use Rattle.std.specs.List.{list_any};
ghost use Rattle.std.specs.Iterator.{YieldsFirstBy, item_count};
ghost use Rattle.link_frames.specs.Frames.{Frame};
ghost use Rattle.link_frames.specs.Views.{frame_of};
ghost use Rattle.watch_events.specs.Events.{Event};
ghost use Rattle.dir_mirror.specs.Copies.{AreGood, HasBadEvents, HasGoodEvents, Mirrors, behind_other, is_deletion, is_message_on};
ghost use Rattle.dir_mirror.specs.Steps.{TakesEvents};
ghost use Rattle.dir_mirror.specs.declared.mirror.MirrorFault.TheVariants as fault;

use crate::seats::{Seats, mark_all, seat_all, sweep_all};
use fidl_names::NoMemory;
use link_frames::{FrameKind, FrameView};
use std::alloc::Global;
use std::collections::BTreeMap;
use std::collections::btree_map::Iter;
use std::marker::Model;
use watch_events::read_events;

/// That the directory is gone.
const DELETED: u8 = 0;

/// The last event that there is.
const IDLE: u8 = 4;

/// Why a frame isn't taken.
#[derive(Clone, Copy, Debug)]
pub enum MirrorFault {
    /// A message on the endpoint isn't whole events, or has one over 4.
    BadEvents,
    NoMemory,
}

/// A copy of the directory that a watcher's endpoint is told of. Contracts see it as its endpoint, its names in the order of
/// their bytes, and whether it has ended.
#[derive(Drop)]
pub struct Mirror {
    alloc: Global,
    endpoint: u32,
    seats: Seats,
    ended: bool,
}

impl Model for Mirror {
    ghost use Rattle.std.specs.BTreeMap.{IsOrdered};
    ghost use Rattle.std.specs.Cmp.Lexicographic.{slice_cmp};
    ghost use Rattle.std.specs.Ordering.{nat_cmp};
    ghost use Rattle.dir_mirror.specs.Copies.{Copy, copy_code};
    ghost use Rattle.dir_mirror.specs.Seats.{names_of};

    ghost Value = { Copy };

    ghost coded = { copy_code };

    ghost view = { λ mirror. record { endpoint = mirror.endpoint; names = names_of (λ name. name.items) mirror.seats.entries; ended = mirror.ended } };

    ghost invariant = { λ mirror. IsOrdered (λ a b. slice_cmp nat_cmp a.items b.items) mirror.seats };
}

impl Mirror {
    /// A copy without names, for the frames on this endpoint.
    pub fn new(alloc: Global, endpoint: u32) -> Mirror
        ensures endpoint { result.endpoint ≡ endpoint }
        ensures empty { Mirrors result [] }
    {
        Mirror {
            alloc,
            endpoint,
            seats: BTreeMap::new(alloc),
            ended: false,
        }
    }

    /// Takes the next frame. A Message on the endpoint is read as events, whatever it is; a Close frame on it ends the copy, and
    /// other frames say nothing. Only a message on the endpoint may have a fault, and behind one the copy is as it was.
    pub fn take(&mut self, frame: FrameView<'_>) -> Result<(), MirrorFault>
        ensures endpoint { self.new.endpoint ≡ self.old.endpoint }
        ensures taken { (frames : List Frame) → Mirrors self.old frames →
            OnOk result (Mirrors self.new (frames ++ frame_of frame.entry ∷ [])) }
        ensures heard { is_message_on self.old.endpoint (frame_of frame.entry) ≡ false → IsOk result }
        ensures others { is_message_on self.old.endpoint (frame_of frame.entry) ≡ false →
            self.new ≡ behind_other self.old (frame_of frame.entry) }
        ensures good { OnOk result (HasGoodEvents self.old.endpoint (frame_of frame.entry)) }
        ensures bad { result ≡ Err fault.BadEvents → HasBadEvents self.old.endpoint (frame_of frame.entry) }
        ensures told { HasBadEvents self.old.endpoint (frame_of frame.entry) → result ≡ Err fault.BadEvents }
        ensures unchanged { OnErr result (self.new ≡ self.old) }
    {
        if frame.endpoint != self.endpoint {
            return Ok(());
        }
        match frame.kind {
            FrameKind::Message => self.take_message(frame.bytes),
            FrameKind::Close => {
                self.ended = true;
                Ok(())
            }
            FrameKind::Turn | FrameKind::Pick | FrameKind::Refused => Ok(()),
        }
    }

    // Seats that no name came to are taken away again, so that the memory is that of the directory.
    fn take_message(&mut self, bytes: &[u8]) -> Result<(), MirrorFault>
        ensures endpoint { self.new.endpoint ≡ self.old.endpoint }
        ensures taken { (events : List Event) → AreGood bytes.now events → OnOk result (TakesEvents self.old events self.new) }
        ensures good { OnOk result ((events : List Event) × AreGood bytes.now events) }
        ensures bad { result ≡ Err fault.BadEvents → (events : List Event) → AreGood bytes.now events → ⊥ }
        ensures told { ((events : List Event) → AreGood bytes.now events → ⊥) → result ≡ Err fault.BadEvents }
        ensures unchanged { OnErr result (self.new ≡ self.old) }
    {
        let Some(deleted) = read_message(bytes) else {
            return Err(MirrorFault::BadEvents);
        };
        if let Err(NoMemory) = seat_all(self.alloc, &mut self.seats, bytes) {
            sweep_all(&mut self.seats, bytes);
            return Err(MirrorFault::NoMemory);
        }
        mark_all(&mut self.seats, bytes);
        sweep_all(&mut self.seats, bytes);
        self.ended |= deleted;
        Ok(())
    }

    /// The names, in the order of their bytes.
    pub fn names(&self) -> MirrorNames<'_>
        ensures { result ≡ self.now.names }
    {
        MirrorNames {
            seats: self.seats.iter(),
        }
    }

    /// Whether the directory was said to be gone, or a Close frame came.
    pub fn ended(&self) -> bool
        ensures { result ≡ self.now.ended }
    {
        self.ended
    }
}

/// Whether one of the events of a message says that the directory is gone. `None` exactly where the message isn't whole events that
/// there are.
fn read_message(bytes: &[u8]) -> Option<bool>
    ensures good { IfSome result (λ deleted. (events : List Event) × AreGood bytes.now events × (deleted ≡ list_any is_deletion events)) }
    ensures bad { IsNone result → (events : List Event) → AreGood bytes.now events → ⊥ }
{
    let (mut known, mut deleted) = (true, false);
    let mut events = read_events(bytes);
    while let Some(one) = events.next() {
        known &= one.event <= IDLE;
        deleted |= one.event == DELETED;
    }
    if known && events.whole() {
        Some(deleted)
    } else {
        None
    }
}

/// The names of a copy that weren't given yet, in the order of their bytes.
#[derive(Drop)]
pub struct MirrorNames<'a> {
    seats: Iter<'a, Vec<u8>, bool>,
}

impl<'a> Model for MirrorNames<'a> {
    ghost use Rattle.std.specs.Prelude.{ℕ, List};
    ghost use Rattle.dir_mirror.specs.Seats.{names_of};

    ghost Value = { List (List ℕ) };

    ghost view = { λ listing. names_of (λ name. name.items) listing.seats };
}

impl<'a> Iterator for MirrorNames<'a> {
    type Item = &'a [u8];

    ghost next_gives = { YieldsFirstBy (λ name. name.now) (λ names. names) };

    ghost remaining = { item_count (λ names. names) };

    fn next(&mut self) -> Option<&'a [u8]> {
        while let Some((name, there)) = self.seats.next() {
            if *there {
                return Some(name.as_slice());
            }
        }
        None
    }
}
