/// The most servers of a tree file.
pub const MAX_SERVERS: usize = 8;

/// The most names that a server's tree has, over all its directories.
pub const MAX_NAMES: usize = 4096;

/// The most bytes of a name.
pub const MAX_NAME: usize = 255;

/// The most bytes of a path.
pub const MAX_PATH: usize = 4095;

/// The most bytes of a file that is served.
pub const MAX_FILE: usize = 65536;

/// The most connections of a server, watchers and mount ends included.
pub const MAX_CONNECTIONS: u32 = 4096;

/// The most watchers of a directory.
pub const MAX_WATCHERS: u32 = 64;

/// The most entries that wait, over all servers.
pub const MAX_WAITING: u32 = 4096;

/// The most tokens that are held by clients or travel in a message.
pub const MAX_TOKENS: u32 = 4096;

/// The most live endpoints, mount ends included.
pub const MAX_LIVE: usize = 65536;

/// The most bytes of a message.
pub const MAX_BYTES: usize = 65536;

/// The most handles of a message.
pub const MAX_HANDLES: usize = 64;

/// The most bytes that one Read, ReadAt, Write, WriteAt or ReadDirents may ask for or carry, and that one message to a watcher has.
pub const MAX_CHUNK: u64 = 8192;

/// The most bytes of a tree file or a script.
pub const MAX_TEXT: usize = 1_048_576;

/// The most bytes that one session takes: 2^40.
pub const MAX_INPUT: u64 = 1_099_511_627_776;

/// The most bytes that one call reads from the outside.
pub const MAX_PIECE: usize = 65536;

/// The most places that one accepted frame takes of a world's journal: its own, one for its serving,
/// and two for each of the at most 2,048 names of a path, at any of which a mount may stand.
pub const FRAME_PLACES: u64 = 4098;

/// The most frames that a world hears: 2^48. A session's input of 2^40 bytes has fewer.
pub const MAX_FRAMES: u64 = 281_474_976_710_656;

/// The most places of a world's journal: 2^61, which is more than all frames take, and far from the
/// end of a `u64`.
pub const MAX_PLACES: u64 = 2_305_843_009_213_693_952;

/// The number of the first mount end. Clients make endpoints from the numbers below it, from 1 on; a mount's end is this and the
/// mount's index.
pub const FIRST_MOUNT_END: u32 = 0x4000_0000;

/// The number of the first token, which ends the numbers of endpoints.
pub const FIRST_TOKEN: u32 = 0x8000_0000;
