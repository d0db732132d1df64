ghost use Rattle.std.specs.Prelude.{◌≡◌};
ghost use Rattle.io_messages.specs.Shapes.{shape_of, is_one_way};

use fidl_names::{Method, Status};

/// The attributes of a node that were asked for and are known.
#[derive(Clone, Copy, Debug)]
pub struct Attributes {
    pub protocols: Option<u64>,
    pub abilities: Option<u64>,
    pub content_size: Option<u64>,
    pub link_count: Option<u64>,
    pub id: Option<u64>,
}

/// What a server answers, with the bytes that its message lends. A handle is its number.
#[derive(Clone, Copy, Debug)]
pub enum Reply<'a> {
    /// The empty success of Close, Sync, Unlink, Rename or Resize.
    Done(Method),
    /// A status other than `Ok`.
    Fails(Method, Status),
    /// The number that Write, WriteAt or Seek answers.
    Number(Method, u64),
    /// The bytes that Query, ReadDirents, Read, ReadAt or EchoString answers.
    Payload(Method, &'a [u8]),
    /// The status `Ok` alone, of Rewind, Link or Watch.
    Settled(Method),
    /// The token that GetToken answers.
    Token(u32),
    /// What GetAttributes answers.
    Attributes(Attributes),
    /// The framework's error, that the ordinal is not known.
    Unknown(u64),
}

/// The shape of a method's reply: a result is a union of its success and an error's number, and
/// every other reply a struct.
#[derive(Clone, Copy, Debug, PartialEq, Eq)]
pub enum Shape {
    /// A result without fields.
    Done,
    /// A result with a number.
    Number,
    /// A result with a list of bytes.
    Bytes,
    /// A result with the two tables of the attributes.
    Attributes,
    /// A list of bytes.
    Vector,
    /// A string.
    Text,
    /// A status, and a list of bytes.
    Listing,
    /// A status.
    Settled,
    /// A status, and a token where that is `Ok`.
    Token,
}

/// The branch of a result that is its success.
pub const SUCCESS: u64 = 1;

/// The branch of a result that is its error, whose number is that of a status.
pub const ERROR: u64 = 2;

/// Where the ordinal of a method stands in a message, in bytes from its beginning.
pub const ORDINAL_PLACE: usize = 8;

/// The framework's error: a union with the ordinal 3, and in its envelope the number -2.
pub const FRAMEWORK_ORDINAL: u64 = 3;

pub const FRAMEWORK_ENVELOPE: u64 = 0x0001_0000_ffff_fffe;

/// The shape of a method's reply; `None` for a one-way method, which has none.
pub fn shape_of(method: Method) -> Option<Shape>
    ensures { result ≡ shape_of method }
{
    match method {
        Method::Clone => None,
        Method::Close => Some(Shape::Done),
        Method::Query => Some(Shape::Vector),
        Method::GetAttributes => Some(Shape::Attributes),
        Method::Sync => Some(Shape::Done),
        Method::OpenPath => None,
        Method::ReadDirents => Some(Shape::Listing),
        Method::Rewind => Some(Shape::Settled),
        Method::GetToken => Some(Shape::Token),
        Method::Rename => Some(Shape::Done),
        Method::Link => Some(Shape::Settled),
        Method::Unlink => Some(Shape::Done),
        Method::Watch => Some(Shape::Settled),
        Method::Read => Some(Shape::Bytes),
        Method::ReadAt => Some(Shape::Bytes),
        Method::Write => Some(Shape::Number),
        Method::WriteAt => Some(Shape::Number),
        Method::Seek => Some(Shape::Number),
        Method::Resize => Some(Shape::Done),
        Method::EchoString => Some(Shape::Text),
    }
}

/// The method has no reply.
pub fn is_one_way(method: Method) -> bool
    ensures { result ≡ is_one_way method }
{
    shape_of(method).is_none()
}
