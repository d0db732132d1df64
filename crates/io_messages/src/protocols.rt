ghost use Rattle.std.specs.Prelude.{◌≡◌};
ghost use Rattle.io_messages.specs.Protocols.{home_of, has, has_method};

use fidl_names::Method;

/// What is spoken on an endpoint.
#[derive(Clone, Copy, Debug, PartialEq, Eq)]
pub enum Protocol {
    Directory,
    File,
    /// A reference to a node, which reads the methods of directories and of files.
    Node,
    Echo,
    /// A watcher's end, which has no method.
    Watcher,
}

/// Where a method belongs.
#[derive(Clone, Copy)]
pub enum Home {
    EveryNode,
    Directories,
    Files,
    Echoes,
}

/// Where a method belongs.
fn home_of(method: Method) -> Home
    ensures { result ≡ home_of method }
{
    match method {
        Method::Clone => Home::EveryNode,
        Method::Close => Home::EveryNode,
        Method::Query => Home::EveryNode,
        Method::GetAttributes => Home::EveryNode,
        Method::Sync => Home::EveryNode,
        Method::OpenPath => Home::Directories,
        Method::ReadDirents => Home::Directories,
        Method::Rewind => Home::Directories,
        Method::GetToken => Home::Directories,
        Method::Rename => Home::Directories,
        Method::Link => Home::Directories,
        Method::Unlink => Home::Directories,
        Method::Watch => Home::Directories,
        Method::Read => Home::Files,
        Method::ReadAt => Home::Files,
        Method::Write => Home::Files,
        Method::WriteAt => Home::Files,
        Method::Seek => Home::Files,
        Method::Resize => Home::Files,
        Method::EchoString => Home::Echoes,
    }
}

/// The protocol has what belongs there.
fn has(protocol: Protocol, home: Home) -> bool
    ensures { result ≡ has protocol home }
{
    match (protocol, home) {
        (Protocol::Directory, Home::EveryNode | Home::Directories) => true,
        (Protocol::File, Home::EveryNode | Home::Files) => true,
        (Protocol::Node, Home::EveryNode | Home::Directories | Home::Files) => true,
        (Protocol::Echo, Home::Echoes) => true,
        _ => false,
    }
}

/// The protocol has the method. A node reference has all methods of directories and of files; a
/// watcher's end has none.
pub fn has_method(protocol: Protocol, method: Method) -> bool
    ensures { result ≡ has_method protocol method }
{
    has(protocol, home_of(method))
}
