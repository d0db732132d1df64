ghost use Rattle.std.specs.Prelude.{ℕ, ◌≡◌, ◌<◌, ◌≤◌, List, IfOk, vec_len};
ghost use Rattle.host_io.specs.Causes.{NeverFalls, Rose};
ghost use Rattle.host_io.specs.Told.{Told, IsAllOf, IsLongerThan};
ghost use Rattle.host_io.specs.declared.files.FileFault.TheVariants as fault;

use std::alloc::{AllocError, Global};

/// Why a file wasn't read.
#[derive(Clone, Copy, Debug)]
pub enum FileFault {
    /// The file is missing, or couldn't be read.
    Failed,
    /// It is longer than the limit that was asked for.
    TooLarge,
    NoMemory,
}

impl From<AllocError> for FileFault {
    ghost from_gives = { λ _ e. e ≡ fault.NoMemory };

    fn from(_e: AllocError) -> FileFault {
        FileFault::NoMemory
    }
}

/// Files by name.
pub trait Files {
    /// What the object tells of the file of a name.
    ghost told: { Self → List ℕ → Told };

    /// The count of failures at a name. It never falls, for any name.
    ghost faults: { Self → List ℕ → ℕ };

    /// The count of files of a name that were longer than the limit. It never falls, for any name.
    ghost overlong: { Self → List ℕ → ℕ };

    /// One read of a name leads from the first object to the second. Nothing is known of two reads,
    /// so code over any files shows this by one read of that name alone.
    ghost reads: { List ℕ → Self → Self → Type 0 };

    /// All the bytes of a file, which are at most `limit`. A missing file is a failure.
    fn read_all(&mut self, alloc: Global, name: &str, limit: usize) -> Result<Vec<u8>, FileFault>
        ensures bound { IfOk result (λ bytes. vec_len bytes ≤ limit) }
        ensures whole { IfOk result (λ bytes. IsAllOf (told self.old name.now) bytes.items) }
        ensures stays { (other : List ℕ) → told self.new other ≡ told self.old other }
        ensures once { reads name.now self.old self.new }

        ensures faults_stay { NeverFalls (faults self.old) (faults self.new) }
        ensures overlong_stays { NeverFalls (overlong self.old) (overlong self.new) }

        ensures failed { result ≡ Err fault.Failed →
            Rose (faults self.old name.now) (faults self.new name.now) }
        ensures too_large { result ≡ Err fault.TooLarge →
            Rose (overlong self.old name.now) (overlong self.new name.now)
            × IsLongerThan limit (told self.old name.now) };
}
