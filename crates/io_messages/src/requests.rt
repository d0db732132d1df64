ghost use Rattle.std.specs.Prelude.{◌≡◌};
ghost use Rattle.io_messages.specs.Asked.{asked, method_of};
ghost use Rattle.io_messages.specs.Tokens.{token_of};

use fidl_names::Method;
use fidl_wire::WireFault;

/// What a client asks, with the texts and bytes that its message lends. A handle is its number.
#[derive(Clone, Copy, Debug)]
pub enum Request<'a> {
    /// The endpoint is to be bound like the one that the request comes on.
    Clone {
        request: u32,
    },
    Close,
    Query,
    /// The bits of the attributes that are asked for.
    GetAttributes {
        query: u64,
    },
    Sync,
    /// Opens the node at a path of UTF-8 for the endpoint `object`.
    OpenPath {
        path: &'a [u8],
        flags: u64,
        attributes: Option<u64>,
        object: u32,
    },
    ReadDirents {
        max_bytes: u64,
    },
    Rewind,
    GetToken,
    /// Moves the name `src` to the name `dst` of the directory that the token is of.
    Rename {
        src: &'a [u8],
        token: u32,
        dst: &'a [u8],
    },
    Link {
        src: &'a [u8],
        token: u32,
        dst: &'a [u8],
    },
    /// A message without flags stands for flags of 0.
    Unlink {
        name: &'a [u8],
        flags: u64,
    },
    Watch {
        mask: u32,
        options: u32,
        watcher: u32,
    },
    Read {
        count: u64,
    },
    ReadAt {
        count: u64,
        offset: u64,
    },
    Write {
        bytes: &'a [u8],
    },
    WriteAt {
        bytes: &'a [u8],
        offset: u64,
    },
    Seek {
        origin: u32,
        offset: i64,
    },
    Resize {
        length: u64,
    },
    EchoString {
        value: &'a [u8],
    },
}

impl<'a> Request<'a> {
    /// The method that it asks for.
    pub fn method(&self) -> Method
        ensures { result ≡ method_of (asked self.now) }
    {
        match self {
            Request::Clone { .. } => Method::Clone,
            Request::Close => Method::Close,
            Request::Query => Method::Query,
            Request::GetAttributes { .. } => Method::GetAttributes,
            Request::Sync => Method::Sync,
            Request::OpenPath { .. } => Method::OpenPath,
            Request::ReadDirents { .. } => Method::ReadDirents,
            Request::Rewind => Method::Rewind,
            Request::GetToken => Method::GetToken,
            Request::Rename { .. } => Method::Rename,
            Request::Link { .. } => Method::Link,
            Request::Unlink { .. } => Method::Unlink,
            Request::Watch { .. } => Method::Watch,
            Request::Read { .. } => Method::Read,
            Request::ReadAt { .. } => Method::ReadAt,
            Request::Write { .. } => Method::Write,
            Request::WriteAt { .. } => Method::WriteAt,
            Request::Seek { .. } => Method::Seek,
            Request::Resize { .. } => Method::Resize,
            Request::EchoString { .. } => Method::EchoString,
        }
    }

    /// The number of the token that it carries, which names the directory of its second name.
    pub fn token(&self) -> Option<u32>
        ensures { result ≡ token_of (asked self.now) }
    {
        match self {
            Request::Rename { token, .. } | Request::Link { token, .. } => Some(*token),
            _ => None,
        }
    }
}

/// Why a message is no request of a protocol.
#[derive(Clone, Copy, Debug)]
pub enum RequestFault {
    /// The first fault of its header, its transaction id or its fields.
    Malformed(WireFault),
    /// An ordinal that the protocol does not have, without the flexible bit.
    UnknownStrict,
    /// An ordinal that the protocol does not have, flexible, with the transaction id 0.
    UnknownOneWay,
    /// An ordinal that the protocol does not have, flexible, with another transaction id.
    UnknownTwoWay { txid: u32, ordinal: u64 },
}

impl From<WireFault> for RequestFault {
    ghost use Rattle.std.specs.Prelude.{◌≡◌};
    ghost use Rattle.io_messages.specs.declared.requests.RequestFault.TheVariants.{Malformed};

    ghost from_gives = { λ fault e. e ≡ Malformed fault };

    fn from(fault: WireFault) -> RequestFault {
        RequestFault::Malformed(fault)
    }
}

/// A message would have more than `MAX_BYTES` bytes.
#[derive(Clone, Copy)]
pub struct TooLong;
