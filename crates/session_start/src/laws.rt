ghost use Rattle.session_start.specs.Sound.{StartsAreSound};

/// The law of starts: what keeps the rules of a tree is sound. The tree of each server is; each mount
/// has one edge, whose mask is its end's rights; first connections and mount targets stand on
/// directories; servers are in range, and there are few of them, of their names and of their
/// connections; endpoints are distinct numbers of clients; each node stands in the root or in a
/// directory before it, and no two at one path.
pub fn starts_are_sound()
    ensures { StartsAreSound }
{}
