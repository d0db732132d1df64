ghost use Rattle.std.specs.Prelude.{ℕ, ◌≡◌, ◌<◌, ◌≤◌, ◌↔◌, ◌⊎◌, List, [], ◌∷◌, ◌++◌, length, vec_len, IfOk, OnOk, OnErr, IsSomeAnd};
ghost use Rattle.std.specs.FinMap.{empty, get, insert};
ghost use Rattle.host_io.specs.Calls.{no_calls, IsListed};
ghost use Rattle.host_io.specs.Causes.{NeverFalls, Rose};
ghost use Rattle.host_io.specs.MemFiles.{IsReadOf, told_of, after_answer};
ghost use Rattle.host_io.specs.Told.{IsAllOf, IsLongerThan};
ghost use Rattle.host_io.specs.declared.files.FileFault.TheVariants as fault;

use crate::calls::Calls;
use crate::file_map::FileMap;
use crate::files::{FileFault, Files};
use fidl_names::NoMemory;
use std::alloc::Global;
use std::marker::Model;

/// Files in memory, reads of which fail at listed calls.
#[derive(Drop)]
pub struct MemFiles {
    files: FileMap,
    calls: Calls,
    overlong: u64,
}

impl Model for MemFiles {
    ghost use Rattle.host_io.specs.MemFiles.{FilesState, files_code};

    ghost Value = { FilesState };

    ghost coded = { files_code };

    ghost view = { λ f. record { files = f.files; calls = f.calls; overlong = f.overlong } };
}

impl MemFiles {
    /// No files, and no call that fails.
    pub fn new(alloc: Global) -> MemFiles
        ensures { result ≡ record { files = empty; calls = no_calls []; overlong = 0 } }
    {
        MemFiles {
            files: FileMap::new(alloc),
            calls: Calls::new(Vec::new(alloc)),
            overlong: 0,
        }
    }

    /// Puts a file there, in place of one that has the name already.
    pub fn put(&mut self, name: &str, bytes: &[u8]) -> Result<(), NoMemory>
        ensures ok { OnOk result (self.new ≡ record self.old {
          files = insert self.old.files name.now bytes.now;
        }) }
        ensures err { OnErr result (self.new ≡ self.old) }
    {
        self.files.put(name, bytes)
    }

    /// Makes the read of this number fail. Reads are counted from 0, and none after 2^64 - 1 are
    /// told apart.
    pub fn fail_at(&mut self, call: u64) -> Result<(), NoMemory>
        ensures ok { OnOk result (self.new ≡ record self.old {
          calls = record self.old.calls { failing = self.old.calls.failing ++ call ∷ [] };
        }) }
        ensures err { OnErr result (self.new ≡ self.old) }
    {
        self.calls.list(call)
    }
}

impl Files for MemFiles {
    ghost told = { λ f name. told_of (get f.files name) };

    ghost faults = { λ f name. f.calls.faults };

    ghost overlong = { λ f name. f.overlong };

    ghost reads = { λ name old new. IsReadOf name old new };

    fn read_all(&mut self, alloc: Global, name: &str, limit: usize) -> Result<Vec<u8>, FileFault>
        ensures bound { IfOk result (λ bytes. vec_len bytes ≤ limit) }
        ensures whole { IfOk result (λ bytes.
            IsAllOf (told_of (get self.old.files name.now)) bytes.items) }
        ensures stays { (other : List ℕ) →
            told_of (get self.new.files other) ≡ told_of (get self.old.files other) }
        ensures once { IsReadOf name.now self.old self.new }

        ensures faults_stay { NeverFalls (λ _. self.old.calls.faults) (λ _. self.new.calls.faults) }
        ensures overlong_stays { NeverFalls (λ _. self.old.overlong) (λ _. self.new.overlong) }

        ensures failed { result ≡ Err fault.Failed →
            Rose self.old.calls.faults self.new.calls.faults }
        ensures too_large { result ≡ Err fault.TooLarge →
            Rose self.old.overlong self.new.overlong
            × IsLongerThan limit (told_of (get self.old.files name.now)) }

        ensures found { IfOk result (λ bytes. get self.old.files name.now ≡ Some bytes.items) }
        ensures fails { (result ≡ Err fault.Failed) ↔
            (IsListed self.old.calls ⊎ (get self.old.files name.now ≡ None)) }
        ensures too_long { (result ≡ Err fault.TooLarge) ↔
            (¬ IsListed self.old.calls
            × IsSomeAnd (get self.old.files name.now) (λ bytes. limit < length bytes)) }
        ensures counted { self.new ≡ after_answer result self.old }
    {
        if self.calls.count() {
            self.calls.fail();
            return Err(FileFault::Failed);
        }
        let Some(bytes) = self.files.get(name) else {
            self.calls.fail();
            return Err(FileFault::Failed);
        };
        if limit < bytes.len() {
            self.overlong = self.overlong.saturating_add(1);
            return Err(FileFault::TooLarge);
        }
        Ok(Vec::from_slice(alloc, bytes)?)
    }
}
