ghost use Rattle.std.specs.Prelude.{◌≡◌};
ghost use Rattle.tree_file.specs.declared.faults.TreeFault.TheVariants.{Rule};

use fidl_names::NoMemory;
use std::alloc::AllocFailed;
use thiserror::Error;

/// Why a text has no start: the first rule that it breaks, counted from 1, with the first item of
/// that rule's list that fails, counted from 0; or want of memory.
#[derive(Clone, Copy, Debug, Error)]
pub enum TreeFault {
    #[error("tree refused: rule {rule} item {item}")]
    Rule { rule: u32, item: u64 },
    #[error("out of memory")]
    NoMemory,
}

impl From<NoMemory> for TreeFault {
    ghost use Rattle.tree_file.specs.declared.faults.TreeFault.TheVariants as fault;

    ghost from_gives = { λ _ given. given ≡ fault.NoMemory };

    fn from(_e: NoMemory) -> TreeFault {
        TreeFault::NoMemory
    }
}

impl<T: Drop> From<AllocFailed<T>> for TreeFault {
    ghost use Rattle.tree_file.specs.declared.faults.TreeFault.TheVariants as fault;

    ghost from_gives = { λ _ given. given ≡ fault.NoMemory };

    fn from(_e: AllocFailed<T>) -> TreeFault {
        TreeFault::NoMemory
    }
}

// The fault of a rule at an item.
pub(crate) fn broken(rule: u32, item: usize) -> TreeFault
    ensures { result ≡ Rule rule item }
{
    TreeFault::Rule {
        rule,
        item: item as u64,
    }
}
