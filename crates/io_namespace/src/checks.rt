// The rules of a text, tried one by one.

ghost use Rattle.std.specs.Prelude.{◌≡◌};
ghost use Rattle.std.specs.List.{list_any};
ghost use Rattle.std.specs.Result.{result_err};
ghost use Rattle.fidl_names.specs.First.{first_of};
ghost use Rattle.io_namespace.specs.Cleaning.{parts};
ghost use Rattle.io_namespace.specs.Faults.{is_absolute, is_bad_part, text_causes};

use crate::faults::NameFault;
use fidl_names::{MAX_NAME, MAX_PATH};
use text_pieces::Pieces;

/// Tests a prefix or a path by itself. The first of Relative, TooLong, NotUtf8 and BadName that holds is its fault.
pub(crate) fn check_text(text: &[u8]) -> Result<(), NameFault>
    ensures { result_err result ≡ first_of (text_causes text.now) }
{
    if !is_absolute(text) {
        return Err(NameFault::Relative);
    }
    if text.len() > MAX_PATH {
        return Err(NameFault::TooLong);
    }
    if str::from_utf8(text).is_err() {
        return Err(NameFault::NotUtf8);
    }
    if has_bad_part(text) {
        return Err(NameFault::BadName);
    }
    Ok(())
}

/// Whether a text has a `/` in front.
pub fn is_absolute(text: &[u8]) -> bool
    ensures { result ≡ is_absolute text.now }
{
    !text.is_empty() && text[0] == b'/'
}

fn has_bad_part(text: &[u8]) -> bool
    ensures { result ≡ list_any is_bad_part (parts text.now) }
{
    let mut parts = Pieces::new(b'/', text);
    while let Some(part) = parts.next() {
        if is_bad_part(part) {
            return true;
        }
    }
    false
}

fn is_bad_part(part: &[u8]) -> bool
    ensures { result ≡ is_bad_part part.now }
{
    part.len() > MAX_NAME || part.contains(&0)
}
