//! Laws of what a session writes, over every lawful journal.

ghost use Rattle.fidl_wire.specs.Names.{AreDistinct};
ghost use Rattle.frame_laws.specs.Laws.{PartsAreReadBack, SessionsAreReadBack};

/// What a lawful journal writes behind the output of another is read as the frames that it has more; where no two names have equal
/// ordinals.
pub fn parts_are_read_back()
    ensures { AreDistinct → PartsAreReadBack }
{}

/// The output of a session over an accepted tree whose files are bytes is read as the frames that were written, in either mode, before its
/// last drain and behind it; where no two names have equal ordinals.
pub fn sessions_are_read_back()
    ensures { AreDistinct → SessionsAreReadBack }
{}
