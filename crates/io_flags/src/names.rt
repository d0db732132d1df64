ghost use Rattle.std.specs.Prelude.{◌≡◌, ◌^◌, ◌<◌};
ghost use Rattle.io_flags.specs.Words.{place};

use io_rights::Operation;

/// The flags of an Open, after those of `fuchsia.io`; the names and the bits are this project's own.
#[derive(Clone, Copy)]
pub enum Flag {
    /// PERM_CONNECT, PERM_READ_BYTES and so on: the right to this operation.
    Perm(Operation),
    /// PERM_INHERIT_WRITE
    InheritWrite,
    /// PERM_INHERIT_EXECUTE
    InheritExecute,
    /// PROTOCOL_SERVICE
    ProtocolService,
    /// PROTOCOL_NODE
    ProtocolNode,
    /// PROTOCOL_DIRECTORY
    ProtocolDirectory,
    /// PROTOCOL_FILE
    ProtocolFile,
    /// PROTOCOL_SYMLINK
    ProtocolSymlink,
    /// MAYBE_CREATE
    MaybeCreate,
    /// MUST_CREATE
    MustCreate,
    /// UNNAMED_TEMPORARY
    UnnamedTemporary,
    /// FILE_APPEND
    FileAppend,
    /// FILE_TRUNCATE
    FileTruncate,
    /// SEND_REPRESENTATION
    SendRepresentation,
}

impl Flag {
    /// The place of its bit in a word.
    pub fn place(self) -> u32
        ensures place { result ≡ place self }
        ensures small { result < 64 }
    {
        match self {
            Flag::Perm(operation) => operation.bit(),
            Flag::InheritWrite => 13,
            Flag::InheritExecute => 14,
            Flag::ProtocolService => 32,
            Flag::ProtocolNode => 33,
            Flag::ProtocolDirectory => 34,
            Flag::ProtocolFile => 35,
            Flag::ProtocolSymlink => 36,
            Flag::MaybeCreate => 40,
            Flag::MustCreate => 41,
            Flag::UnnamedTemporary => 42,
            Flag::FileAppend => 44,
            Flag::FileTruncate => 45,
            Flag::SendRepresentation => 48,
        }
    }
}
