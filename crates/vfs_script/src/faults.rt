ghost use Rattle.std.specs.Prelude.{◌≡◌};

use fidl_names::NoMemory;
use std::alloc::AllocFailed;
use thiserror::Error;

/// Why a text is no script: its first bad line, counted from 1, or 0 where no line says the mode;
/// or want of memory.
#[derive(Clone, Copy, Debug, Error)]
pub enum ScriptFault {
    #[error("script refused: line {0}")]
    Line(u64),
    #[error("out of memory")]
    NoMemory,
}

impl From<NoMemory> for ScriptFault {
    ghost use Rattle.vfs_script.specs.declared.faults.ScriptFault.TheVariants as fault;

    ghost from_gives = { λ _ given. given ≡ fault.NoMemory };

    fn from(_e: NoMemory) -> ScriptFault {
        ScriptFault::NoMemory
    }
}

impl<T: Drop> From<AllocFailed<T>> for ScriptFault {
    ghost use Rattle.vfs_script.specs.declared.faults.ScriptFault.TheVariants as fault;

    ghost from_gives = { λ _ given. given ≡ fault.NoMemory };

    fn from(_e: AllocFailed<T>) -> ScriptFault {
        ScriptFault::NoMemory
    }
}
