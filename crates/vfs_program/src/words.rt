ghost use Rattle.std.specs.Prelude.{◌≡◌, ◌∷◌, [], ℕ, codes, decimal, map, string_bytes, IfSome, IsNone, IsTrue, ◌↔◌};
ghost use Rattle.workload.specs.Workload.{IsRounds};
ghost use Rattle.vfs_program.specs.Words.{Means, MeanNothing, command_seen, mode_word};

use itoa::Buffer;
use link_frames::Mode;
use workload::MAX_ROUNDS;

/// What the words ask for.
#[derive(Clone, Copy)]
pub enum Command<'a> {
    File { name: &'a str },
    Serve { tree: &'a str, mode: Mode },
    Run { tree: &'a str, script: &'a str },
    Check { tree: &'a str },
    Show,
    Make { rounds: u32 },
}

/// Reads the words by their exact shape. `None` exactly where they have none.
pub fn command_of(words: &[String]) -> Option<Command<'_>>
    ensures meant { IfSome result (λ command. Means (map string_bytes words.now) (command_seen command)) }
    ensures none { IsNone result → MeanNothing (map string_bytes words.now) }
{
    match words {
        [only] => command_of_one(only),
        [first, second] => command_of_two(first, second),
        [first, second, third] => command_of_three(first, second, third),
        _ => None,
    }
}

// The command that so many words ask for.
fn command_of_one(only: &String) -> Option<Command<'_>>
    ensures meant { IfSome result (λ command. Means (string_bytes only.now ∷ []) (command_seen command)) }
    ensures none { IsNone result → MeanNothing (string_bytes only.now ∷ []) }
{
    if is_word(only, "show") {
        Some(Command::Show)
    } else {
        None
    }
}

fn command_of_two<'a>(first: &String, second: &'a String) -> Option<Command<'a>>
    ensures meant { IfSome result (λ command. Means (string_bytes first.now ∷ string_bytes second.now ∷ []) (command_seen command)) }
    ensures none { IsNone result → MeanNothing (string_bytes first.now ∷ string_bytes second.now ∷ []) }
{
    if is_word(first, "file") {
        Some(Command::File {
            name: second.as_str(),
        })
    } else if is_word(first, "check") {
        Some(Command::Check {
            tree: second.as_str(),
        })
    } else if is_word(first, "make") {
        let rounds = rounds_of(second)?;
        Some(Command::Make { rounds })
    } else {
        None
    }
}

fn command_of_three<'a>(
    first: &String,
    second: &'a String,
    third: &'a String,
) -> Option<Command<'a>>
    ensures meant { IfSome result (λ command. Means (string_bytes first.now ∷ string_bytes second.now ∷ string_bytes third.now ∷ []) (command_seen command)) }
    ensures none { IsNone result → MeanNothing (string_bytes first.now ∷ string_bytes second.now ∷ string_bytes third.now ∷ []) }
{
    if is_word(first, "serve") {
        let mode = mode_of(third)?;
        Some(Command::Serve {
            tree: second.as_str(),
            mode,
        })
    } else if is_word(first, "run") {
        Some(Command::Run {
            tree: second.as_str(),
            script: third.as_str(),
        })
    } else {
        None
    }
}

fn is_word(word: &String, text: &str) -> bool
    ensures { IsTrue result ↔ (string_bytes word.now ≡ text.now) }
{
    word.as_str() == text
}

/// The mode that a word says.
fn mode_of(word: &String) -> Option<Mode>
    ensures said { IfSome result (λ mode. string_bytes word.now ≡ mode_word mode) }
    ensures none { IsNone result → (mode : Mode) → string_bytes word.now ≡ mode_word mode → ⊥ }
{
    if is_word(word, "auto") {
        return Some(Mode::Auto);
    }
    if is_word(word, "given") {
        return Some(Mode::Given);
    }
    None
}

/// The number of rounds that a word says: 1 to 10,000, written as it is printed.
fn rounds_of(word: &String) -> Option<u32>
    ensures said { IfSome result (λ rounds. (string_bytes word.now ≡ decimal rounds) × IsRounds rounds) }
    ensures none { IsNone result → (rounds : ℕ) → string_bytes word.now ≡ decimal rounds → IsRounds rounds → ⊥ }
{
    let rounds = word.as_str().parse::<u32>().ok()?;
    let mut digits = Buffer::new();
    let is_printed = is_word(word, digits.format(rounds));
    if is_printed && rounds >= 1 && rounds <= MAX_ROUNDS {
        Some(rounds)
    } else {
        None
    }
}
