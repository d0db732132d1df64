ghost use Rattle.std.specs.Prelude.{◌≡◌, ℕ, ◌==◌, ◌+◌, ◌<◌, ◌≤◌, List, true, false, All, IfOk, IfSome, IsOkAnd, length, drop, slice_get, None};
ghost use Rattle.std.specs.List.{slice_split, position_or_len};
ghost use Rattle.std.specs.Option.{option_copied};
ghost use Rattle.std.specs.Result.{result_err};
ghost use Rattle.fidl_names.specs.First.{first_of};
ghost use Rattle.path_walk.specs.Names.{slash, holds, IsName};
ghost use Rattle.path_walk.specs.Paths.{text_of, IsPath, names_of, text_faults, name_faults, path_fault};

use crate::faults::PathFault;
use crate::names::check_piece;
use crate::parts::is_dot;
use fidl_names::{MAX_NAME, MAX_PATH};
use memchr::memchr;
use std::marker::Model;

/// A path. Contracts see it as its list of names, which is empty for `.`.
#[derive(Drop)]
pub struct Path<'a> {
    text: &'a [u8],
    // The place of the first slash, or the text's length.
    end: usize,
}

impl<'a> Model for Path<'a> {
    ghost use Rattle.std.specs.Prelude.{◌≡◌, ◌==◌, ◌≤◌, ℕ, List, None, length};
    ghost use Rattle.std.specs.List.{position_or_len};
    ghost use Rattle.path_walk.specs.Names.{slash};
    ghost use Rattle.path_walk.specs.Paths.{names_of, path_fault};

    ghost Value = { List (List ℕ) };

    ghost view = { λ path. names_of path.text.now };

    ghost invariant = { λ path. (path_fault path.text.now ≡ None) × ((path.end ≡ position_or_len (λ byte. byte == slash) path.text.now) × (path.end ≤ length path.text.now)) };
}

impl<'a> Path<'a> {
    /// Tests a text: 1 to 4,095 bytes of UTF-8 that are `.`, or names joined by a single `/` with none at
    /// either end. The first of Empty, TooLong, NotUtf8 and ZeroByte that holds of the whole text is
    /// its fault, and then that of its first bad name, EmptyName, NameTooLong or DotName.
    pub fn check(text: &'a [u8]) -> Result<Path<'a>, PathFault>
        ensures path { IfOk result (IsPath text.now) }
        ensures each_path { (names : List (List ℕ)) → IsPath text.now names → IsOkAnd result (λ path. path ≡ names) }
        ensures fault { result_err result ≡ path_fault text.now }
    {
        if is_plain(text) {
            return Ok(Path::of_one(text));
        }
        check_whole(text)?;
        Ok(Path::of_checked(text))
    }

    // A text that is known to be a path.
    fn of_checked(text: &'a [u8]) -> Path<'a>
        requires { path_fault text.now ≡ None }
        ensures { result ≡ names_of text.now }
    {
        let end = until_slash(text);
        Path { text, end }
    }

    // The same of one without a slash.
    fn of_one(text: &'a [u8]) -> Path<'a>
        requires path { path_fault text.now ≡ None }
        requires one { position_or_len (λ byte. byte == slash) text.now ≡ length text.now }
        ensures { result ≡ names_of text.now }
    {
        Path {
            text,
            end: text.len(),
        }
    }

    /// The text, of 1 to 4,095 bytes of UTF-8.
    pub fn as_bytes(&self) -> &'a [u8]
        ensures text { result.now ≡ text_of self.now }
        ensures path { IsPath result.now self.now }
    {
        self.text
    }

    /// The first name, a part of the text; `None` for `.`.
    pub fn first(&self) -> Option<&'a [u8]>
        ensures head { option_copied result ≡ slice_get self.now 0 }
        ensures name { IfSome result (λ name. IsName name.now) }
    {
        if is_dot(self.text) {
            return None;
        }
        Some(&self.text[..self.end])
    }

    /// The path of the names after the first; `.` after the last.
    pub fn rest(&self) -> Path<'a>
        ensures { result ≡ drop 1 self.now }
    {
        if self.end == self.text.len() {
            return Path::of_one(b".");
        }
        Path::of_checked(behind(self.text, self.end))
    }
}

// Whether a text is one name of ASCII bytes, with no dot at its head. Most paths are, and are told in one pass.
fn is_plain(text: &[u8]) -> bool
    ensures path { result ≡ true → path_fault text.now ≡ None }
    ensures one { result ≡ true → position_or_len (λ byte. byte == slash) text.now ≡ length text.now }
{
    if text.is_empty() || text.len() > MAX_NAME || text[0] == b'.' {
        return false;
    }
    for i in 0..text.len() {
        let byte = text[i];
        if byte == 0 || byte == b'/' || byte >= 0x80 {
            return false;
        }
    }
    true
}

// The rules, tried one by one. Few paths come here, so that where most are told stays small.
#[inline(never)]
fn check_whole(text: &[u8]) -> Result<(), PathFault>
    ensures { result_err result ≡ path_fault text.now }
{
    check_text(text)?;
    if is_dot(text) {
        return Ok(());
    }
    check_pieces(text)
}

// The rules on the whole text.
fn check_text(text: &[u8]) -> Result<(), PathFault>
    ensures { result_err result ≡ first_of (text_faults text.now) }
{
    if text.is_empty() {
        return Err(PathFault::Empty);
    }
    if text.len() > MAX_PATH {
        return Err(PathFault::TooLong);
    }
    if str::from_utf8(text).is_err() {
        return Err(PathFault::NotUtf8);
    }
    if text.contains(&0) {
        return Err(PathFault::ZeroByte);
    }
    Ok(())
}

// The rules on each name, in turn.
fn check_pieces(text: &[u8]) -> Result<(), PathFault>
    requires { holds 0 text.now ≡ false }
    ensures { result_err result ≡ first_of (name_faults (slice_split (λ byte. byte == slash) text.now)) }
{
    let mut rest = text;
    loop {
        let end = until_slash(rest);
        check_piece(&rest[..end])?;
        if end == rest.len() {
            return Ok(());
        }
        rest = behind(rest, end);
    }
}

// The place of the first slash, or the text's length.
fn until_slash(text: &[u8]) -> usize
    ensures place { result ≡ position_or_len (λ byte. byte == slash) text.now }
    ensures within { result ≤ length text.now }
{
    memchr(b'/', text).unwrap_or(text.len())
}

// What stands behind this place.
fn behind(text: &[u8], place: usize) -> &[u8]
    requires { place < length text.now }
    ensures { result.now ≡ drop (place + 1) text.now }
{
    &text[place + 1..]
}

/// The laws of paths: a text is the path of one list of names at most, and `path_fault` tells exactly
/// which texts are paths.
pub fn path_laws()
    ensures unique { (a b : List (List ℕ)) → All IsName a → All IsName b → text_of a ≡ text_of b → a ≡ b }
    ensures sound { (text : List ℕ) → path_fault text ≡ None → IsPath text (names_of text) }
    ensures complete { (text : List ℕ) (names : List (List ℕ)) →
        IsPath text names → (path_fault text ≡ None) × (names_of text ≡ names) }
{}
