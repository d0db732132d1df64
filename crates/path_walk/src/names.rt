ghost use Rattle.std.specs.Prelude.{◌≡◌, false, [], ◌∷◌};
ghost use Rattle.std.specs.Result.{result_err};
ghost use Rattle.fidl_names.specs.First.{first_of};
ghost use Rattle.path_walk.specs.Names.{slash, holds, name_fault, length_faults, dot_fault};

use crate::faults::PathFault;
use fidl_names::MAX_NAME;

/// Tests a single name: 1 to 255 bytes without a zero byte or a `/`, and neither `.` nor `..`. The
/// first of EmptyName, NameTooLong, ZeroByte, Slash and DotName that holds is its fault.
pub fn check_name(text: &[u8]) -> Result<(), PathFault>
    ensures { result_err result ≡ name_fault text.now }
{
    check_length(text)?;
    if text.contains(&0) {
        return Err(PathFault::ZeroByte);
    }
    if text.contains(&b'/') {
        return Err(PathFault::Slash);
    }
    check_dots(text)
}

/// Tests a name that is known to hold neither a zero byte nor a slash.
pub(crate) fn check_piece(text: &[u8]) -> Result<(), PathFault>
    requires no_zero { holds 0 text.now ≡ false }
    requires no_slash { holds slash text.now ≡ false }
    ensures { result_err result ≡ name_fault text.now }
{
    check_length(text)?;
    check_dots(text)
}

fn check_length(text: &[u8]) -> Result<(), PathFault>
    ensures { result_err result ≡ first_of (length_faults text.now) }
{
    if text.is_empty() {
        return Err(PathFault::EmptyName);
    }
    if text.len() > MAX_NAME {
        return Err(PathFault::NameTooLong);
    }
    Ok(())
}

fn check_dots(text: &[u8]) -> Result<(), PathFault>
    ensures { result_err result ≡ dot_fault text.now }
{
    if matches!(text, [b'.'] | [b'.', b'.']) {
        return Err(PathFault::DotName);
    }
    Ok(())
}
