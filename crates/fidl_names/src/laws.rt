ghost use Rattle.std.specs.Prelude.{◌≡◌, ◌^◌};

use crate::limits::{
    FIRST_MOUNT_END, FIRST_TOKEN, FRAME_PLACES, MAX_BYTES, MAX_CHUNK, MAX_CONNECTIONS, MAX_FILE,
    MAX_FRAMES, MAX_HANDLES, MAX_INPUT, MAX_LIVE, MAX_NAME, MAX_NAMES, MAX_PATH, MAX_PIECE,
    MAX_PLACES, MAX_SERVERS, MAX_TEXT, MAX_TOKENS, MAX_WAITING, MAX_WATCHERS,
};

/// The numbers of the limits, of the first mount end and of the first token, which the definitions
/// cite by these names. It computes nothing: what it says is in its clauses.
pub fn limits_have_their_numbers()
    ensures servers { MAX_SERVERS ≡ 8 }
    ensures names { MAX_NAMES ≡ 4096 }
    ensures name { MAX_NAME ≡ 255 }
    ensures path { MAX_PATH ≡ 4095 }
    ensures file { MAX_FILE ≡ 65536 }
    ensures connections { MAX_CONNECTIONS ≡ 4096 }
    ensures watchers { MAX_WATCHERS ≡ 64 }
    ensures waiting { MAX_WAITING ≡ 4096 }
    ensures tokens { MAX_TOKENS ≡ 4096 }
    ensures live { MAX_LIVE ≡ 65536 }
    ensures bytes { MAX_BYTES ≡ 65536 }
    ensures handles { MAX_HANDLES ≡ 64 }
    ensures chunk { MAX_CHUNK ≡ 8192 }
    ensures text { MAX_TEXT ≡ 2 ^ 20 }
    ensures input { MAX_INPUT ≡ 2 ^ 40 }
    ensures piece { MAX_PIECE ≡ 65536 }
    ensures frame_places { FRAME_PLACES ≡ 4098 }
    ensures frames { MAX_FRAMES ≡ 2 ^ 48 }
    ensures places { MAX_PLACES ≡ 2 ^ 61 }
    ensures first_mount_end { FIRST_MOUNT_END ≡ 2 ^ 30 }
    ensures first_token { FIRST_TOKEN ≡ 2 ^ 31 }
{}
