ghost use Rattle.std.specs.Prelude.{◌≡◌, map, string_bytes};
ghost use Rattle.std.specs.BTreeMap.{keys};
ghost use Rattle.std.specs.List.{list_any, list_all};
ghost use Rattle.std.specs.Option.{option_copied};
ghost use Rattle.std.specs.Str.{bytes_eq};
ghost use Rattle.toml.specs.View.{view};
ghost use Rattle.tree_file.specs.Fields.{has_only, text_at};

use toml::{Table, Value};

// Whether the table has no other keys than these.
fn knows_all(table: &Table, known: &[&str]) -> bool
    ensures { result ≡ list_all (λ key. list_any (λ one. bytes_eq one.now (string_bytes key)) known.now) (keys table.now) }
{
    table.keys().all(|key| known.contains(&key.as_str()))
}

/// Whether the value is a table with no other keys than these.
#[tactic(auto, unfolding(crate::specs::Fields::has_only))]
pub fn has_only(value: &Value, known: &[&str]) -> bool
    ensures { result ≡ has_only (map (λ one. one.now) known.now) (view value.now) }
{
    match value.as_table() {
        Some(table) => knows_all(table, known),
        None => false,
    }
}

/// The string at a key of a table.
#[tactic(auto, unfolding(crate::specs::Fields::text_at))]
pub fn text_at<'a>(value: &'a Value, key: &str) -> Option<&'a str>
    ensures { option_copied result ≡ text_at key.now (view value.now) }
{
    match value.get(key) {
        Some(found) => found.as_str(),
        None => None,
    }
}
