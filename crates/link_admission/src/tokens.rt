// The tokens that are held by the clients or travel in waiting messages.

ghost use Rattle.std.specs.Prelude.{◌≡◌, ◌≤◌, ◌<◌, ◌+◌, ◌^◌, ◌||◌, if◌then◌else◌, ℕ, true, false, Some, None, IsSome, OnOk, OnErr, unwrap_or, nat_le};
ghost use Rattle.std.specs.FinMap as map;
ghost use Rattle.link_admission.specs.Tables.{value_at, ChangesAt};
ghost use Rattle.fidl_names.specs.HandleNumber.{is_client};
ghost use Rattle.link_admission.specs.Numbering.{among};

use fidl_names::{FIRST_TOKEN, MAX_TOKENS, NoMemory, is_client};
use link_frames::HandleBytes;
use std::alloc::Global;
use std::collections::BTreeMap;
use std::marker::Model;

/// The tokens that are out: whether each is held, or else travels.
#[derive(Drop)]
pub(crate) struct Tokens {
    table: BTreeMap<u32, bool>,
    next: u64,
}

impl Model for Tokens {
    ghost use Rattle.std.specs.Prelude.{length};
    ghost use Rattle.std.specs.FinMap as map;
    ghost use Rattle.link_admission.specs.Tables.{Numbered, KeepsNumbers, numbered_code};

    ghost Value = { Numbered };

    ghost coded = { numbered_code };

    ghost view = { λ t. record { entries = map.from_entries t.table.entries; out = length t.table.entries; next = t.next } };

    ghost invariant = { λ t. KeepsNumbers (map.from_entries t.table.entries) t.next };
}

impl Tokens {
    ghost use Rattle.link_frames.specs.Views.{handle_numbers};
    ghost use Rattle.link_admission.specs.Tables.{Travels};

    pub(crate) fn new(alloc: Global) -> Tokens
        ensures entries { result.entries ≡ map.empty }
        ensures out { result.out ≡ 0 }
        ensures next { result.next ≡ FIRST_TOKEN }
    {
        Tokens {
            table: BTreeMap::new(alloc),
            next: u64::from(FIRST_TOKEN),
        }
    }

    /// Whether the clients hold this token.
    pub(crate) fn holds(&self, number: u32) -> bool
        ensures { result ≡ unwrap_or (value_at self.now.entries number) false }
    {
        self.table.get(&number).copied().unwrap_or(false)
    }

    /// The number that the next token gets: none where so many tokens are out as can, or the last number was given.
    pub(crate) fn next(&self) -> Option<u32>
        ensures { result ≡ (if nat_le MAX_TOKENS self.now.out || nat_le (2 ^ 32) self.now.next
            then None else Some self.now.next) }
    {
        if self.table.len() >= MAX_TOKENS as usize || self.next > u64::from(u32::MAX) {
            return None;
        }
        Some(self.next as u32)
    }

    /// Gives the next token.
    pub(crate) fn give(&mut self) -> Result<(), NoMemory>
        requires { self.old.next < 2 ^ 32 }
        ensures given { OnOk result (ChangesAt self.old.next (Some true) self.old.entries self.new.entries) }
        ensures count { OnOk result (self.new.out ≡ self.old.out + 1) }
        ensures next { OnOk result (self.new.next ≡ self.old.next + 1) }
        ensures err { OnErr result (self.new ≡ self.old) }
    {
        self.table.insert(self.next as u32, true)?;
        self.next += 1;
        Ok(())
    }

    /// Lets a token travel.
    fn send(&mut self, number: u32)
        requires { IsSome (value_at self.old.entries number) }
        ensures changed { ChangesAt number (Some false) self.old.entries self.new.entries }
        ensures count { self.new.out ≡ self.old.out }
        ensures next { self.new.next ≡ self.old.next }
    {
        if let Some(held) = self.table.get_mut(&number) {
            *held = false;
        }
    }

    /// Lets the tokens among the handles travel.
    pub(crate) fn send_all(&mut self, handles: HandleBytes<'_>)
        requires { (q : ℕ) → is_client q ≡ false → among q (handle_numbers handles) ≡ true → IsSome (value_at self.old.entries q) }
        ensures changed { Travels (handle_numbers handles.entry) self.old.entries self.new.entries }
        ensures count { self.new.out ≡ self.old.out }
        ensures next { self.new.next ≡ self.old.next }
    {
        for i in 0..handles.len() {
            let number = handles.at(i);
            if !is_client(number) {
                self.send(number);
            }
        }
    }

    /// Forgets a token that is out.
    pub(crate) fn forget(&mut self, number: u32)
        requires { IsSome (value_at self.old.entries number) }
        ensures changed { ChangesAt number None self.old.entries self.new.entries }
        ensures count { self.new.out + 1 ≡ self.old.out }
        ensures next { self.new.next ≡ self.old.next }
    {
        self.table.remove(&number);
    }
}
