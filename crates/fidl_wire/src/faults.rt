ghost use Rattle.std.specs.Prelude.{◌≡◌};

/// Why bytes and handles are not a message.
#[derive(Clone, Copy, Debug)]
pub enum WireWhat {
    /// The header or the padded primary object passes the message's end.
    Short,
    Magic,
    Version,
    /// The flag for a message whose bytes stand elsewhere.
    Overflow,
    /// A transaction id of the wrong kind.
    Txid,
    /// A byte of padding that is not zero.
    Padding,
    /// Neither present nor absent, or absent where that may not be.
    Presence,
    /// Out-of-line bytes that pass the message's end.
    Count,
    Utf8,
    Envelope,
    /// A union's or a method's ordinal that is not known.
    Ordinal,
    Handles,
    /// Bytes behind the last object.
    Trailing,
    /// A status or an error's number that may not stand there.
    Value,
}

/// The first fault of a message: its reason, and the offset in the message of the first byte of
/// the field or of the padding that is wrong. For `Short`, and for handles that are left over,
/// the offset is the message's length.
#[derive(Clone, Copy, Debug)]
pub struct WireFault {
    pub at: usize,
    pub what: WireWhat,
}

impl WireFault {
    /// The fault of this reason at this offset.
    pub fn new(at: usize, what: WireWhat) -> WireFault
        ensures { result ≡ record { at = at; what = what } }
    {
        WireFault { at, what }
    }
}
