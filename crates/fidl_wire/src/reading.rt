//! Where the reading of a body stands, and what it finds of a union. The definitions speak of these, and `Body`
//! reads by them.

/// What lies out of line.
#[derive(Clone, Copy)]
pub struct Outside {
    /// The offset in the message at which the next object begins.
    pub out: usize,
    /// How many handles are left.
    pub left: usize,
}

/// The envelope of a branch whose value is being read.
#[derive(Clone, Copy)]
pub struct Opened {
    /// Its offset in the message.
    pub at: usize,
    /// Where its value ends, by the bytes that it counts.
    pub until: usize,
    /// How many handles are left then, by the handles that it counts.
    pub left: usize,
}

/// A union's ordinal, and the value of its branch where that stands in the envelope: a word whose
/// bytes behind those of the value are zero. Otherwise the branch is the object that follows.
#[derive(Clone, Copy)]
pub struct Branch {
    pub ordinal: u64,
    pub inlined: Option<u32>,
}
