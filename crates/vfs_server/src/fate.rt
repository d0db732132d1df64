use io_flags::OpenFlags;
use path_walk::Path;

/// What became of endpoints and tokens when a message was served, by their numbers.
#[derive(Drop)]
pub enum Fate<'a> {
    /// Nothing: the endpoint that was served stays.
    Stays,
    /// The endpoint that was served ends.
    Ends,
    /// The endpoint `object`, which the message carried, is bound at the server, as a watcher or another.
    Binds {
        object: u32,
    },
    /// The endpoint `object`, which the message carried, ends.
    Refuses {
        object: u32,
    },
    /// The Open goes on to the end of a mount, by the mount's index, with the endpoint `object`, which it carried,
    /// these flags and the names that are left of its path.
    Forwards {
        mount: u32,
        object: u32,
        flags: OpenFlags,
        rest: Path<'a>,
    },
    /// The endpoint that was served stays, and its client has this token, which names a directory of the server.
    Gives {
        token: u32,
    },
}
