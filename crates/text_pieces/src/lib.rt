//! What stands between certain bytes of a text, piece by piece: the lines of a file, the words of a line, the parts of a path.
#![tactic(auto)]

mod pieces;

pub use pieces::Pieces;
