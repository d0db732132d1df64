ghost use Rattle.std.specs.Prelude.{◌≡◌, ◌∷◌, [], ℕ, decimal, map, string_bytes, IfSome, IsNone};
ghost use Rattle.mirror_program.specs.Words.{IsEndpoint, Means, MeanNothing};

use fidl_names::is_client;
use itoa::Buffer;

/// The endpoint that the words say: one of a client's, written as it is printed. `None` exactly where they say none.
pub(crate) fn endpoint_of(words: &[String]) -> Option<u32>
    ensures meant { IfSome result (λ endpoint. Means (map string_bytes words.now) endpoint) }
    ensures none { IsNone result → MeanNothing (map string_bytes words.now) }
{
    match words {
        [only] => endpoint_in(only),
        _ => None,
    }
}

fn endpoint_in(word: &String) -> Option<u32>
    ensures said { IfSome result (λ endpoint. (string_bytes word.now ≡ decimal endpoint) × IsEndpoint endpoint) }
    ensures none { IsNone result → (endpoint : ℕ) → string_bytes word.now ≡ decimal endpoint → IsEndpoint endpoint → ⊥ }
{
    let endpoint = word.as_str().parse::<u32>().ok()?;
    let mut digits = Buffer::new();
    let is_printed = word.as_str() == digits.format(endpoint);
    if is_printed && is_client(endpoint) {
        Some(endpoint)
    } else {
        None
    }
}
