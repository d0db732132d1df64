ghost use Rattle.std.specs.Prelude.{◌≡◌};
ghost use Rattle.io_namespace.specs.declared.faults.NameFault.TheVariants as fault;

use fidl_names::NoMemory;

/// Why a prefix isn't added, or a path isn't resolved.
#[derive(Clone, Copy, Debug)]
pub enum NameFault {
    /// The text has no `/` in front.
    Relative,
    /// It has more than 4,095 bytes.
    TooLong,
    /// It isn't UTF-8.
    NotUtf8,
    /// A part of it has more than 255 bytes, or a zero byte.
    BadName,
    /// A prefix was added that means the same.
    Exists,
    /// No prefix was added that the path is below.
    Unreachable,
    NoMemory,
}

impl From<NoMemory> for NameFault {
    ghost from_gives = { λ _ told. told ≡ fault.NoMemory };

    fn from(_e: NoMemory) -> NameFault {
        NameFault::NoMemory
    }
}
