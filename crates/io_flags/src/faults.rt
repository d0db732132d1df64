ghost use Rattle.std.specs.Prelude.{◌≡◌};
ghost use Rattle.io_flags.specs.Faults.{status_of};

use fidl_names::Status;

/// What is wrong with a flag word.
#[derive(Clone, Copy, Debug)]
pub enum FlagFault {
    /// A bit without a name is set.
    UnknownBit,
    /// MAYBE_CREATE and MUST_CREATE are both set.
    BothCreate,
    /// PROTOCOL_SYMLINK or UNNAMED_TEMPORARY is set.
    Unsupported,
    /// A create flag stands beside protocol flags other than DIRECTORY alone or FILE alone.
    CreateKind,
    /// FILE_APPEND or FILE_TRUNCATE stands beside protocol flags without FILE.
    FileFlags,
    /// FILE_TRUNCATE stands without PERM_WRITE_BYTES.
    TruncateRight,
    /// PROTOCOL_NODE stands beside another protocol flag.
    NodeAlone,
}

impl FlagFault {
    /// What an Open with this fault is refused with.
    pub fn status(self) -> Status
        ensures { result ≡ status_of self }
    {
        match self {
            FlagFault::Unsupported => Status::NotSupported,
            FlagFault::UnknownBit
            | FlagFault::BothCreate
            | FlagFault::CreateKind
            | FlagFault::FileFlags
            | FlagFault::TruncateRight
            | FlagFault::NodeAlone => Status::InvalidArgs,
        }
    }
}
