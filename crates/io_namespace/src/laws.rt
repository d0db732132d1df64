ghost use Rattle.std.specs.Prelude.{◌≡◌, ◌++◌, ℕ, List, Option, Some, None, All, true, false};
ghost use Rattle.io_namespace.specs.Cleaning.{clean, is_step, is_up, surviving};
ghost use Rattle.io_namespace.specs.Entries.{IsLongest, Table, reached};

/// The laws of clean paths: they have no empty step, no `.` and no `..`; so what is left of one behind a prefix never leads out of that prefix, and
/// nothing of one goes when it is cleaned again.
pub fn clean_laws()
    ensures steps { (text : List ℕ) → All (λ step. is_step step ≡ true) (clean text) }
    ensures down { (text : List ℕ) → All (λ step. is_up step ≡ false) (clean text) }
    ensures inside { (text : List ℕ) (prefix rest : List (List ℕ)) → clean text ≡ prefix ++ rest → All (λ step. is_up step ≡ false) rest }
    ensures again { (text : List ℕ) → surviving (clean text) ≡ clean text }
{}

/// The laws of resolving: what is reached is the entry of the longest prefix that has one, and nothing is reached exactly where no prefix has one.
pub fn resolving_laws()
    ensures longest { (table : Table) (path : List (List ℕ)) (endpoint : ℕ) (rest : List (List ℕ)) →
        reached table path ≡ Some (endpoint, rest) → IsLongest table path endpoint rest }
    ensures none { (table : Table) (path : List (List ℕ)) → reached table path ≡ None →
        (prefix behind : List (List ℕ)) → path ≡ prefix ++ behind → table prefix ≡ None }
{}
