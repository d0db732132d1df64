ghost use Rattle.std.specs.Prelude.{◌≡◌, ◌≤◌, ◌<◌, length, MatchOption};
ghost use Rattle.node_graph.specs.Short.{IsKeyOf, packed};

/// The most bytes of a short name: behind a one they fit in a number.
pub const SHORT: usize = 15;

/// A short name in a directory as two numbers, by which it is found.
#[derive(Clone, Copy, PartialEq, Eq, Hash)]
pub struct ShortName {
    directory: u64,
    packed: u128,
}

impl ShortName {
    // `None` where the name is longer.
    pub fn of(directory: u64, name: &[u8]) -> Option<ShortName>
        ensures { MatchOption result (SHORT < length name.now) (λ key. IsKeyOf key directory name.now) }
    {
        if name.len() > SHORT {
            return None;
        }
        Some(ShortName {
            directory,
            packed: packed(name),
        })
    }
}

// The bytes of a name behind a one, which tells how many they are.
fn packed(name: &[u8]) -> u128
    requires { length name.now ≤ SHORT }
    ensures { result ≡ packed name.now }
{
    let mut number = 1;
    for byte in name {
        number = number * 256 + u128::from(*byte);
    }
    number
}
