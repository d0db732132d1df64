use conn_rules::Birth;
use io_flags::OpenFlags;
use node_graph::NodeRef;
use path_walk::Path;

/// What a connection did with a message, and what the server is to do then with endpoints and tokens.
#[derive(Drop)]
pub(crate) enum Deed<'a> {
    /// Nothing: the endpoint stays.
    Stays,
    /// The endpoint that was served ends.
    Ends,
    /// The endpoint `object`, which the request carried, is to be bound.
    Binds {
        object: u32,
        birth: Birth,
    },
    /// The endpoint `object`, which the request carried, is to watch a directory, for the events of a mask.
    Watches {
        object: u32,
        directory: NodeRef,
        mask: u32,
    },
    /// The endpoint `object`, which the request carried, ends.
    Refuses {
        object: u32,
    },
    /// The Open goes on to the end of a mount, by the mount's index, with the endpoint `object`, these flags and
    /// the names that are left.
    Forwards {
        mount: u32,
        object: u32,
        flags: OpenFlags,
        rest: Path<'a>,
    },
    /// The endpoint stays, and the client has a token that is to name a directory of this server.
    Gives {
        token: u32,
        directory: NodeRef,
    },
}
