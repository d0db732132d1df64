// The small types of frames.

ghost use Rattle.std.specs.Prelude.{◌≡◌};
ghost use Rattle.link_frames.specs.Refusals.{status_of};

use fidl_names::Status;

/// What a frame is for.
#[derive(Clone, Copy, Debug)]
pub enum FrameKind {
    Message,
    Close,
    Turn,
    Pick,
    Refused,
}

/// Why a fixed part is bad.
#[derive(Clone, Copy, Debug)]
pub enum FrameReason {
    /// No kind of this side has that number.
    Kind,
    /// The zero field isn't zero.
    Zero,
    /// More handles than a message may have.
    Handles,
    /// More bytes than a message may have.
    Bytes,
    /// The kind doesn't have so many handles or bytes.
    Shape,
}

/// Which way a stream of frames goes.
#[derive(Clone, Copy)]
pub enum Side {
    /// To the servers: no Refused frames.
    ToServers,
    /// Either way: every kind.
    Any,
}

/// Whether waiting entries are served after each frame, or by Turn and Pick frames alone.
#[derive(Clone, Copy, PartialEq, Eq)]
pub enum Mode {
    Auto,
    Given,
}

/// Why a frame isn't admitted.
#[derive(Clone, Copy, Debug)]
pub enum Refusal {
    PeerClosed,
    BadHandle,
    ShouldWait,
    NoResources,
}

impl Refusal {
    /// The status that tells it to the client.
    pub fn status(self) -> Status
        ensures { result ≡ status_of self }
    {
        match self {
            Refusal::PeerClosed => Status::PeerClosed,
            Refusal::BadHandle => Status::BadHandle,
            Refusal::ShouldWait => Status::ShouldWait,
            Refusal::NoResources => Status::NoResources,
        }
    }
}
