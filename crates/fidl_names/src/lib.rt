// The words that every layer speaks: methods, statuses, handles, limits, numbers as bytes, and want of memory.
#![tactic(auto)]

mod handles;
mod laws;
mod limits;
mod memory;
mod methods;
mod statuses;
#[cfg(test)]
mod tests;
mod words;

pub use handles::{end_of_mount, is_client};
pub use laws::limits_have_their_numbers;
pub use limits::{
    FIRST_MOUNT_END, FIRST_TOKEN, FRAME_PLACES, MAX_BYTES, MAX_CHUNK, MAX_CONNECTIONS, MAX_FILE,
    MAX_FRAMES, MAX_HANDLES, MAX_INPUT, MAX_LIVE, MAX_NAME, MAX_NAMES, MAX_PATH, MAX_PIECE,
    MAX_PLACES, MAX_SERVERS, MAX_TEXT, MAX_TOKENS, MAX_WAITING, MAX_WATCHERS,
};
pub use memory::NoMemory;
pub use methods::{Handle, Method};
pub use statuses::Status;
pub use words::{long_array, u16_at, u32_at, u64_at, word_array};
