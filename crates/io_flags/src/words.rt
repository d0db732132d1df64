ghost use Rattle.std.specs.Prelude.{◌≡◌, count_by};
ghost use Rattle.io_flags.specs.Words.{holds, flags_of, protocols, has, has_unnamed_bit, has_protocol, is_alone, creates};
ghost use Rattle.io_flags.specs.Faults.{makes_twice, is_unsupported, makes_no_kind, marks_no_file, truncates_without_right, mixes_node};

use crate::names::Flag;
use io_rights::Operation;

// The bits that have a name.
const NAMED: u64 = 0x0001_371f_0000_61ff;

const PROTOCOLS: [Flag; 5] = [
    Flag::ProtocolService,
    Flag::ProtocolNode,
    Flag::ProtocolDirectory,
    Flag::ProtocolFile,
    Flag::ProtocolSymlink,
];

pub(crate) fn has(word: u64, flag: Flag) -> bool
    ensures { result ≡ has word flag }
{
    word >> flag.place() & 1 == 1
}

pub(crate) fn has_unnamed_bit(word: u64) -> bool
    ensures { result ≡ has_unnamed_bit word }
{
    word & !NAMED != 0
}

pub(crate) fn has_protocol(word: u64) -> bool
    ensures { result ≡ has_protocol word }
{
    PROTOCOLS.iter().any(|flag| has(word, *flag))
}

fn protocol_count(word: u64) -> usize
    ensures { result ≡ count_by (holds (flags_of word)) protocols }
{
    PROTOCOLS.iter().filter(|flag| has(word, **flag)).count()
}

// Whether this protocol flag is set, and no other.
pub(crate) fn is_alone(word: u64, flag: Flag) -> bool
    ensures { result ≡ is_alone word flag }
{
    has(word, flag) && protocol_count(word) == 1
}

pub(crate) fn creates(word: u64) -> bool
    ensures { result ≡ creates word }
{
    has(word, Flag::MaybeCreate) || has(word, Flag::MustCreate)
}

pub(crate) fn makes_twice(word: u64) -> bool
    ensures { result ≡ makes_twice (flags_of word) }
{
    has(word, Flag::MaybeCreate) && has(word, Flag::MustCreate)
}

pub(crate) fn is_unsupported(word: u64) -> bool
    ensures { result ≡ is_unsupported (flags_of word) }
{
    has(word, Flag::ProtocolSymlink) || has(word, Flag::UnnamedTemporary)
}

pub(crate) fn makes_no_kind(word: u64) -> bool
    ensures { result ≡ makes_no_kind (flags_of word) }
{
    creates(word)
        && !(is_alone(word, Flag::ProtocolDirectory) || is_alone(word, Flag::ProtocolFile))
}

pub(crate) fn marks_no_file(word: u64) -> bool
    ensures { result ≡ marks_no_file (flags_of word) }
{
    (has(word, Flag::FileAppend) || has(word, Flag::FileTruncate))
        && has_protocol(word)
        && !has(word, Flag::ProtocolFile)
}

pub(crate) fn truncates_without_right(word: u64) -> bool
    ensures { result ≡ truncates_without_right (flags_of word) }
{
    has(word, Flag::FileTruncate) && !has(word, Flag::Perm(Operation::WriteBytes))
}

pub(crate) fn mixes_node(word: u64) -> bool
    ensures { result ≡ mixes_node (flags_of word) }
{
    has(word, Flag::ProtocolNode) && !is_alone(word, Flag::ProtocolNode)
}
