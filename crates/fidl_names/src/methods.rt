/// A handle as it comes with a message: one end of a channel, or a directory's token.
#[derive(Clone, Copy, Debug, PartialEq, Eq)]
pub enum Handle {
    Endpoint(u32),
    Token(u32),
}

/// The methods of this profile of `fuchsia.io`. The variant of Open is `OpenPath`.
#[derive(Clone, Copy, Debug, PartialEq, Eq)]
pub enum Method {
    Clone,
    Close,
    Query,
    GetAttributes,
    Sync,
    OpenPath,
    ReadDirents,
    Rewind,
    GetToken,
    Rename,
    Link,
    Unlink,
    Watch,
    Read,
    ReadAt,
    Write,
    WriteAt,
    Seek,
    Resize,
    EchoString,
}
