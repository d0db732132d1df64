ghost use Rattle.std.specs.Prelude.{◌≡◌, IfSome, IsNone, ◌≢◌};
ghost use Rattle.fidl_names.specs.StatusNumber.{number_of};

/// What a call answers, by the numbers of Zircon's `zx_status_t`.
#[derive(Clone, Copy, Debug, PartialEq, Eq)]
pub enum Status {
    Ok,
    Internal,
    NotSupported,
    NoResources,
    NoMemory,
    InvalidArgs,
    BadHandle,
    WrongType,
    OutOfRange,
    BufferTooSmall,
    BadState,
    ShouldWait,
    PeerClosed,
    NotFound,
    AlreadyExists,
    AccessDenied,
    NotDir,
    NotFile,
    FileBig,
    NoSpace,
    NotEmpty,
}

impl Status {
    /// The number that stands for it in a message.
    pub fn number(self) -> i32
        ensures { result ≡ number_of self }
    {
        match self {
            Status::Ok => 0,
            Status::Internal => -1,
            Status::NotSupported => -2,
            Status::NoResources => -3,
            Status::NoMemory => -4,
            Status::InvalidArgs => -10,
            Status::BadHandle => -11,
            Status::WrongType => -12,
            Status::OutOfRange => -14,
            Status::BufferTooSmall => -15,
            Status::BadState => -20,
            Status::ShouldWait => -22,
            Status::PeerClosed => -24,
            Status::NotFound => -25,
            Status::AlreadyExists => -26,
            Status::AccessDenied => -30,
            Status::NotDir => -51,
            Status::NotFile => -52,
            Status::FileBig => -53,
            Status::NoSpace => -54,
            Status::NotEmpty => -55,
        }
    }

    /// The status that a number stands for; `None` exactly where it stands for none.
    pub fn from_number(number: i32) -> Option<Status>
        ensures found { IfSome result (λ status. number_of status ≡ number) }
        ensures none { IsNone result → (status : Status) → number_of status ≢ number }
    {
        match number {
            0 => Some(Status::Ok),
            -1 => Some(Status::Internal),
            -2 => Some(Status::NotSupported),
            -3 => Some(Status::NoResources),
            -4 => Some(Status::NoMemory),
            -10 => Some(Status::InvalidArgs),
            -11 => Some(Status::BadHandle),
            -12 => Some(Status::WrongType),
            -14 => Some(Status::OutOfRange),
            -15 => Some(Status::BufferTooSmall),
            -20 => Some(Status::BadState),
            -22 => Some(Status::ShouldWait),
            -24 => Some(Status::PeerClosed),
            -25 => Some(Status::NotFound),
            -26 => Some(Status::AlreadyExists),
            -30 => Some(Status::AccessDenied),
            -51 => Some(Status::NotDir),
            -52 => Some(Status::NotFile),
            -53 => Some(Status::FileBig),
            -54 => Some(Status::NoSpace),
            -55 => Some(Status::NotEmpty),
            _ => None,
        }
    }
}
