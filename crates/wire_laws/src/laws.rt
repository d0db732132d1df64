//! Laws of the format, for every header and every layout. They compute nothing: what they say is in
//! their clauses.

ghost use Rattle.fidl_wire.specs.Names.{AreDistinct, MethodsHaveTheirOwn, EventHasItsOwn};
ghost use Rattle.wire_laws.specs.Laws.{AbsentEnvelopesAreZero, EpitaphsAreReadOnce, FaultsAreMeant, FaultsAreMeantOnce, HeadersAreRead, MeantFaultsAreAnswered, ReadsWhatIsSpelled, SpelledWhereRead, SpelledOnce, SpellingIsSpelled, SpellingIsRead, SpellingIsShortest, WrittenEpitaphsAreRead};

/// A body is read as a value exactly where the message's bytes and handles spell that value, each
/// cell at its place and with nothing left over.
pub fn body_is_read_where_spelled()
    ensures reads { ReadsWhatIsSpelled }
    ensures spelled { SpelledWhereRead }
{}

/// Bytes and handles spell at most one value of a layout.
pub fn body_is_spelled_once()
    ensures { SpelledOnce }
{}

/// A fault of a body is what its reason says of the bytes and handles at its offset. What stands before
/// it is spelled, and nothing that stands there spells what the layout has next. A body has at most one
/// such fault, and that is the one that is answered.
pub fn body_fault_is_meant()
    ensures meant { FaultsAreMeant }
    ensures answered { MeantFaultsAreAnswered }
    ensures once { FaultsAreMeantOnce }
{}

/// What is written for a value, behind any header, is spelled by the grammar and reads as it.
pub fn spelling_is_read()
    ensures spelled { SpellingIsSpelled }
    ensures read { SpellingIsRead }
{}

/// The spelling of a value is the shortest of all bytes that spell it. In its tables the envelope of a member that
/// isn't given is zero.
pub fn spelling_is_shortest()
    ensures shortest { SpellingIsShortest }
    ensures zero { AbsentEnvelopesAreZero }
{}

/// A header that was written is read back, whatever follows it.
pub fn written_header_is_read()
    ensures { HeadersAreRead }
{}

/// What is written for a status is an epitaph, which is read as that status.
pub fn written_epitaph_is_read()
    ensures { WrittenEpitaphsAreRead }
{}

/// Bytes are at most one epitaph.
pub fn epitaph_is_read_once()
    ensures { EpitaphsAreReadOnce }
{}

/// Where no two names have equal ordinals, each method and the event have one of their own.
pub fn names_have_their_own()
    ensures methods { AreDistinct → MethodsHaveTheirOwn }
    ensures event { AreDistinct → EventHasItsOwn }
{}
