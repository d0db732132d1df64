// What an audit says.

ghost use Rattle.std.specs.Prelude.{◌≡◌};
ghost use Rattle.link_audit.specs.Verdicts.{text_of};

/// What an audit says of a recording. Records are counted from 0.
#[derive(Clone, Copy, Debug)]
pub enum Verdict {
    /// It is lawful, and has so many records.
    Lawful { records: u32 },
    /// The first record at which it isn't, and the first reason.
    Unlawful { place: u32, why: Why },
}

/// Why a recording isn't lawful at a record. Where several reasons hold, the first is told.
#[derive(Clone, Copy, Debug)]
pub enum Why {
    /// No record stands there: an unknown tag, a frame that can't stand in such a record, too few bytes or none before an End came, or bytes
    /// behind an End.
    BadRecord,
    /// Another frame is to go out there, or none.
    WrongFrame,
    /// Frames are still to go out there.
    MissingFrame,
    /// Nothing on that endpoint can be served there.
    NothingToServe,
    /// Something waits at the end.
    StillWaiting,
}

impl Why {
    /// The reason in words.
    pub fn text(self) -> &'static str
        ensures { result.now ≡ text_of self }
    {
        match self {
            Why::BadRecord => "bad record",
            Why::WrongFrame => "wrong frame",
            Why::MissingFrame => "missing frame",
            Why::NothingToServe => "nothing to serve",
            Why::StillWaiting => "still waiting",
        }
    }
}
