ghost use Rattle.dirents.specs.Reading.{BytesHaveEntries, EntriesAreReadOnce, FirstIsGiven, NoneIsGiven, WrittenEntriesAreRead};

/// A law: bytes are at most one list of entries and one rest.
pub fn entries_are_read_once()
    ensures { EntriesAreReadOnce }
{}

/// A law: any bytes are entries and a rest.
pub fn bytes_have_entries()
    ensures { BytesHaveEntries }
{}

/// A law: `Entries` gives these entries in order.
pub fn entries_are_given_in_order()
    ensures first { FirstIsGiven }
    ensures none { NoneIsGiven }
{}

/// A law: entries as they are written are these entries, and nothing is left.
pub fn written_entries_are_read()
    ensures { WrittenEntriesAreRead }
{}
