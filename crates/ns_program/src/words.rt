ghost use Rattle.std.specs.Prelude.{◌≡◌, map, string_bytes, IfSome, IsNone};
ghost use Rattle.ns_program.specs.Words.{MeanNothing, Means};

/// The files of the table and of the script. `None` exactly where the words have another shape.
pub(crate) fn names_of(words: &[String]) -> Option<(&str, &str)>
    ensures meant { IfSome result (λ names. Means (map string_bytes words.now) (record { table = names.0.now; script = names.1.now })) }
    ensures none { IsNone result → MeanNothing (map string_bytes words.now) }
{
    match words {
        [table, script] => Some((table.as_str(), script.as_str())),
        _ => None,
    }
}
