// The standings of all numbers of endpoints that were used.

ghost use Rattle.std.specs.Prelude.{◌≡◌, ◌≤◌, ◌<◌, ◌+◌, ◌==◌, ◌&&◌, if◌then◌else◌, ℕ, true, [], ◌∷◌, Some, None, IsSome, IsOk, OnOk, OnErr, unwrap_or, take, length, count_by};
ghost use Rattle.link_admission.specs.Tables.{value_at, ChangesAt, weight};
ghost use Rattle.link_admission.specs.Pages.{noted};
ghost use Rattle.fidl_names.specs.HandleNumber.{is_client, is_mount_end};
ghost use Rattle.link_admission.specs.Numbering.{among};

use crate::kinds::Standing;
use crate::pages::Pages;
use fidl_names::{FIRST_MOUNT_END, MAX_LIVE, NoMemory, end_of_mount, is_client};
use link_frames::HandleBytes;
use std::alloc::Global;
use std::marker::Model;

/// The standings of all numbers, with the number of live endpoints.
#[derive(Drop)]
pub(crate) struct Standings {
    pages: Pages,
    live: usize,
}

impl Model for Standings {
    ghost use Rattle.std.specs.Prelude.{◌≡◌, ◌≤◌};
    ghost use Rattle.fidl_names.specs.declared.limits.TheConstants as limit;
    ghost use Rattle.link_admission.specs.Tables.{Counted, counted_code};
    ghost use Rattle.link_admission.specs.Pages.{live_in};

    ghost Value = { Counted };

    ghost coded = { counted_code };

    ghost view = { λ s. record { entries = s.pages; live = s.live } };

    ghost invariant = { λ s. (s.live ≡ live_in s.pages) × (s.live ≤ limit.MAX_LIVE) };
}

/// One for a live endpoint.
fn weight(standing: Standing) -> usize
    ensures { result ≡ weight standing }
{
    usize::from(standing.is_live())
}

impl Standings {
    ghost use Rattle.link_frames.specs.Views.{handle_numbers};
    ghost use Rattle.link_admission.specs.Tables.{AreNew, AreEachOnce, Makes, TakesBack};

    pub(crate) fn new(alloc: Global) -> Standings
        ensures unused { (q : ℕ) → value_at result.entries q ≡ None }
        ensures live { result.live ≡ 0 }
    {
        Standings {
            pages: Pages::new(alloc),
            live: 0,
        }
    }

    /// The standing of a number.
    pub(crate) fn at(&self, number: u32) -> Standing
        ensures { result ≡ unwrap_or (value_at self.now.entries number) Standing.Unused }
    {
        self.pages.at(number)
    }

    /// How many endpoints are live.
    pub(crate) fn live(&self) -> usize
        ensures live { result ≡ self.now.live }
        ensures few { result ≤ MAX_LIVE }
    {
        self.live
    }

    /// Makes a live endpoint of a number that was never used.
    pub(crate) fn make(&mut self, number: u32) -> Result<(), NoMemory>
        requires unused { value_at self.old.entries number ≡ None }
        requires few { self.old.live < MAX_LIVE }
        ensures made { OnOk result (ChangesAt number (Some Standing.Live) self.old.entries self.new.entries) }
        ensures live { OnOk result (self.new.live ≡ self.old.live + 1) }
        ensures err { OnErr result (self.new ≡ self.old) }
    {
        self.pages.put(number, Standing::Live)?;
        self.live += 1;
        Ok(())
    }

    /// Gives an endpoint another standing, one that is live only where it was.
    pub(crate) fn change(&mut self, number: u32, standing: Standing)
        requires known { IsSome (value_at self.old.entries number) }
        requires no_more { weight standing ≤ weight (unwrap_or (value_at self.old.entries number) Standing.Unused) }
        ensures changed { ChangesAt number (noted standing) self.old.entries self.new.entries }
        ensures live { self.new.live + weight (unwrap_or (value_at self.old.entries number) Standing.Unused)
            ≡ self.old.live + weight standing }
    {
        let was = self.pages.replace(number, standing);
        self.live -= weight(was) - weight(standing);
    }

    /// Forgets a number.
    fn take_back(&mut self, number: u32)
        ensures { ChangesAt number None self.old.entries self.new.entries }
    {
        let was = self.pages.replace(number, Standing::Unused);
        self.live -= weight(was);
    }

    /// Makes a live endpoint where the number is a client's.
    fn make_client(&mut self, number: u32) -> Result<(), NoMemory>
        requires unused { is_client number ≡ true → value_at self.old.entries number ≡ None }
        requires few { self.old.live + count_by is_client (number ∷ []) ≤ MAX_LIVE }
        ensures made { OnOk result (Makes (number ∷ []) self.old.entries self.new.entries) }
        ensures live { OnOk result (self.new.live ≡ self.old.live + count_by is_client (number ∷ [])) }
        ensures err { OnErr result (self.new ≡ self.old) }
    {
        if !is_client(number) {
            return Ok(());
        }
        self.make(number)
    }

    /// Forgets the client numbers among the first so many handles.
    fn take_back_all(&mut self, handles: HandleBytes<'_>, count: usize)
        requires { count ≤ length (handle_numbers handles) }
        ensures { TakesBack (take count (handle_numbers handles.entry)) self.old.entries self.new.entries }
    {
        for i in 0..count {
            let number = handles.at(i);
            if is_client(number) {
                self.take_back(number);
            }
        }
    }

    /// Makes live endpoints of the client numbers among the handles, or for want of memory nothing.
    pub(crate) fn make_all(&mut self, handles: HandleBytes<'_>) -> Result<(), NoMemory>
        requires new { AreNew self.old.entries (handle_numbers handles) }
        requires few { self.old.live + count_by is_client (handle_numbers handles) ≤ MAX_LIVE }
        ensures made { OnOk result (Makes (handle_numbers handles.entry) self.old.entries self.new.entries) }
        ensures live { OnOk result (self.new.live ≡ self.old.live + count_by is_client (handle_numbers handles.entry)) }
        ensures err { OnErr result (self.new ≡ self.old) }
        ensures some { handle_numbers handles.entry ≡ [] → IsOk result }
    {
        let _ = &self.pages;
        for i in 0..handles.len() {
            if let Err(fault) = self.make_client(handles.at(i)) {
                self.take_back_all(handles, i);
                let _ = &self.pages;
                return Err(fault);
            }
        }
        Ok(())
    }

    /// Makes live endpoints of these numbers.
    pub(crate) fn make_firsts(&mut self, firsts: &[u32]) -> Result<(), NoMemory>
        requires unused { (q : ℕ) → value_at self.old.entries q ≡ None }
        requires none { self.old.live ≡ 0 }
        requires distinct { AreEachOnce firsts.now }
        requires few { length firsts.now ≤ MAX_LIVE }
        ensures made { OnOk result ((q : ℕ) → value_at self.new.entries q
            ≡ (if among q firsts.now then Some Standing.Live else None)) }
        ensures live { OnOk result (self.new.live ≡ length firsts.now) }
    {
        for first in firsts {
            self.make(*first)?;
        }
        Ok(())
    }

    /// Makes live endpoints of the first so many numbers of mount ends.
    pub(crate) fn make_mounts(&mut self, mounts: u32) -> Result<(), NoMemory>
        requires unused { (q : ℕ) → FIRST_MOUNT_END ≤ q → value_at self.old.entries q ≡ None }
        requires few { self.old.live + mounts ≤ MAX_LIVE }
        ensures made { OnOk result ((q : ℕ) → value_at self.new.entries q
            ≡ (if is_mount_end mounts q then Some Standing.Live else value_at self.old.entries q)) }
        ensures live { OnOk result (self.new.live ≡ self.old.live + mounts) }
    {
        for i in 0..mounts {
            self.make(end_of_mount(i))?;
        }
        Ok(())
    }
}
