ghost use Rattle.std.specs.Prelude.{◌≡◌, map, string_bytes, IfSome, IsNone};
ghost use Rattle.frames_program.specs.Words.{MeanNothing, Means};

/// The file of the script. `None` exactly where the words have another shape.
pub(crate) fn name_of(words: &[String]) -> Option<&str>
    ensures meant { IfSome result (λ script. Means (map string_bytes words.now) script.now) }
    ensures none { IsNone result → MeanNothing (map string_bytes words.now) }
{
    match words {
        [script] => Some(script.as_str()),
        _ => None,
    }
}
