//! Laws of verdicts. They compute nothing: what they say is in their clauses.

ghost use Rattle.std.specs.Prelude.{◌≡◌, ◌^◌, ℕ, List};
ghost use Rattle.vfs_journal.specs.Starts.{Start};
ghost use Rattle.link_audit.specs.Verdicts.{IsVerdict};
ghost use Rattle.link_audit.specs.declared.verdicts.Verdict.{Verdict};

use crate::auditing::MAX_RECORDING;

/// A recording has one verdict: it is lawful in one way and at no record unlawful, or unlawful at one first record and for one first reason.
pub fn one_verdict()
    ensures { (start : Start) (recording : List ℕ) (one other : Verdict) → IsVerdict start recording one → IsVerdict start recording other →
        one ≡ other }
{}

/// The number of the limit of a recording, which definitions cite by its name.
pub fn limit_has_its_number()
    ensures { MAX_RECORDING ≡ 2 ^ 24 }
{}
