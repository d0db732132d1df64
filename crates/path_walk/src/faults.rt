/// What is wrong with a path, or with a single name.
#[derive(Clone, Copy, Debug)]
pub enum PathFault {
    /// The path has no byte.
    Empty,
    /// The path has more than 4,095 bytes.
    TooLong,
    /// The path isn't UTF-8.
    NotUtf8,
    /// A byte is zero.
    ZeroByte,
    /// A name has no byte.
    EmptyName,
    /// A name has more than 255 bytes.
    NameTooLong,
    /// A name is `.` or `..`.
    DotName,
    /// A single name holds a `/`; it never comes from a path.
    Slash,
}
