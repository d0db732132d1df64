use fidl_names::NoMemory;
use host_io::Failed;

/// Why a transcript isn't written whole.
#[derive(Clone, Copy)]
pub enum TranscriptFault {
    /// The sink failed.
    Failed,
    NoMemory,
}

impl From<NoMemory> for TranscriptFault {
    ghost use Rattle.std.specs.Prelude.{◌≡◌};
    ghost use Rattle.script_session.specs.declared.faults.TranscriptFault.TheVariants as fault;

    ghost from_gives = { λ _ given. given ≡ fault.NoMemory };

    fn from(_e: NoMemory) -> TranscriptFault {
        TranscriptFault::NoMemory
    }
}

impl From<Failed> for TranscriptFault {
    ghost use Rattle.std.specs.Prelude.{◌≡◌};
    ghost use Rattle.script_session.specs.declared.faults.TranscriptFault.TheVariants as fault;

    ghost from_gives = { λ _ given. given ≡ fault.Failed };

    fn from(_e: Failed) -> TranscriptFault {
        TranscriptFault::Failed
    }
}
