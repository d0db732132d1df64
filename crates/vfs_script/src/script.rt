ghost use Rattle.std.specs.Prelude.{◌≡◌, ◌≤◌, ◌<◌, ◌+◌, ◌↔◌, [], ◌∷◌, IsTrue, length, false, None, Some, is_none, slice_get, IfNone, IfSome, IfOk, IfErr, OnOk, OnErr};
ghost use Rattle.std.specs.Option.{option_or};
ghost use Rattle.std.specs.Str.{IsUtf8, is_utf8};
ghost use Rattle.fidl_names.specs.First.{cause_if, first_of};
ghost use Rattle.link_frames.specs.Frames.{spellings};
ghost use Rattle.io_messages.specs.Shapes.{is_one_way};
ghost use Rattle.vfs_script.specs.Kept.{kept_with};
ghost use Rattle.vfs_script.specs.Noting.{IsFree, with_noted};
ghost use Rattle.vfs_script.specs.Scripts.{IsFirstBad, bad_heads, bad_in, bad_line, bad_lines, behind_mode, calls_of, count_calls, frames_of, heads, is_skipped, lines_of, mode_in, mode_of, script_mode, spoken_in};

use crate::calls::Call;
use crate::faults::ScriptFault;
use crate::frames::Frames;
use fidl_names::{MAX_TEXT, NoMemory};
use fidl_wire::{Ordinals, is_utf8};
use io_client::{Client, ClientFault};
use link_frames::{Mode, Outbox};
use std::alloc::Global;
use std::marker::Model;
use text_pieces::Pieces;

/// A script: its mode, its frames, and beside each frame the call that it makes, if any.
pub struct Script {
    mode: Mode,
    frames: Outbox,
    calls: Vec<Option<Call>>,
}

// Who owns a script lets go of it by one call, and not of each part by another.
impl Drop for Script {
    fn drop(self) {
        let Script {
            mode: _mode,
            frames: _frames,
            calls: _calls,
        } = self;
    }
}

impl Model for Script {
    ghost use Rattle.std.specs.Prelude.{◌≡◌, ◌≤◌, ◌+◌, length};
    ghost use Rattle.fidl_names.specs.declared.limits.TheConstants as limit;
    ghost use Rattle.vfs_script.specs.Kept.{ScriptValue};
    ghost use Rattle.vfs_script.specs.Scripts.{AreCalls};

    ghost Value = { ScriptValue };

    ghost view = { λ s. record { mode = s.mode; bytes = s.frames; calls = s.calls.items } };

    ghost invariant = { λ s. AreCalls 0 s.calls.items × (length s.calls.items ≤ limit.MAX_TEXT + 1) };
}

impl Script {
    /// Whether entries are served after each frame, or by Turn and Pick frames alone.
    pub fn mode(&self) -> Mode
        ensures { result ≡ self.now.mode }
    {
        self.mode
    }

    /// The frames, one after another.
    pub fn frames(&self) -> &[u8]
        ensures { result.now ≡ self.now.bytes }
    {
        self.frames.as_bytes()
    }

    /// How many frames there are.
    pub fn len(&self) -> u32
        ensures { result ≡ length self.now.calls }
    {
        self.calls.len() as u32
    }

    /// Whether there is no frame.
    pub fn is_empty(&self) -> bool
        ensures { IsTrue result ↔ (self.now.calls ≡ []) }
    {
        self.calls.is_empty()
    }

    /// How many frames make a call.
    pub fn calls(&self) -> u32
        ensures { result ≡ count_calls self.now.calls }
    {
        count_calls(&self.calls)
    }

    /// Lets a client wait for the call that frame `i` makes, counted from 0, if it makes one. For
    /// want of memory nothing has changed.
    ///
    /// The caller sees to it that there is such a frame, and that no call with its endpoint and
    /// transaction id waits. No two calls of a script have one.
    pub fn note(&self, i: u32, client: &mut Client) -> Result<(), NoMemory>
        requires frame { i < length self.now.calls }
        requires free { IsFree client.old (slice_get self.now.calls i) }
        ensures noted { OnOk result (client.new ≡ with_noted client.old (slice_get self.now.calls i)) }
        ensures no_memory { OnErr result (client.new ≡ client.old) }
    {
        let Some(call) = self.call_at(i) else {
            return Ok(());
        };
        match client.note(call.endpoint, call.txid, call.method, call.watcher) {
            Ok(()) => Ok(()),
            Err(ClientFault::NoMemory) => Err(NoMemory),
            Err(_) => unreachable!(),
        }
    }

    /// The call that frame `i` makes.
    fn call_at(&self, i: u32) -> Option<Call>
        requires { i < length self.now.calls }
        ensures found { slice_get self.now.calls i ≡ Some result }
        ensures txid { IfSome result (λ call. 0 < call.txid) }
        ensures two_way { IfSome result (λ call. is_one_way call.method ≡ false) }
    {
        self.calls[i as usize]
    }
}

/// What a text says as a script: lines of words. `Line` is the first bad line, counted from 1, and
/// 0 where the first line that is neither empty nor begins with `#` isn't `auto` or `given`.
///
/// The caller sees to it that the text has at most 1,048,576 bytes.
pub fn script_of(alloc: Global, ordinals: &Ordinals, text: &[u8]) -> Result<Script, ScriptFault>
    requires { length text.now ≤ MAX_TEXT }
    ensures mode { IfOk result (λ script. script_mode text.now ≡ Some script.mode) }
    ensures frames { IfOk result (λ script. script.bytes ≡ spellings (frames_of text.now)) }
    ensures calls { IfOk result (λ script. script.calls ≡ calls_of text.now) }
    ensures good { OnOk result (bad_line text.now ≡ None) }
    ensures refused { IfErr result (IsFirstBad (bad_line text.now)) }
{
    let mut lines = Lines::new(text);
    let mode = read_mode(&mut lines)?;
    let kept = read_lines(alloc, ordinals, &mut lines)?;
    let (frames, calls) = kept.into_parts();
    Ok(Script {
        mode,
        frames,
        calls,
    })
}

fn count_calls(calls: &[Option<Call>]) -> u32
    requires { length calls.now ≤ MAX_TEXT + 1 }
    ensures { result ≡ count_calls calls.now }
{
    let mut count = 0;
    for call in calls {
        if call.is_some() {
            count += 1;
        }
    }
    count
}

/// The lines of a text that are left, each with its number. Where the whole text is UTF-8 no line
/// is tested.
#[derive(Drop)]
struct Lines<'a> {
    number: u32,
    pieces: Pieces<'a>,
    is_text: bool,
}

impl<'a> Model for Lines<'a> {
    ghost use Rattle.std.specs.Prelude.{List, ◌+◌, ◌≤◌, ◌<◌, IsTrue, length};
    ghost use Rattle.fidl_names.specs.declared.limits.TheConstants as limit;
    ghost use Rattle.vfs_script.specs.Parsed.{AreTexts};
    ghost use Rattle.vfs_script.specs.Scripts.{Numbered, numbered_from};

    ghost Value = { List Numbered };

    ghost view = { λ l. numbered_from l.number l.pieces };

    ghost invariant = { λ l. (0 < l.number) × (l.number + length l.pieces ≤ limit.MAX_TEXT + 2) × (IsTrue l.is_text → AreTexts l.pieces) };
}

impl<'a> Lines<'a> {
    fn new(text: &'a [u8]) -> Lines<'a>
        requires { length text.now ≤ MAX_TEXT }
        ensures lines { result ≡ lines_of text.now }
        ensures few { length result ≤ MAX_TEXT + 1 }
    {
        Lines {
            number: 1,
            pieces: Pieces::new(b'\n', text),
            is_text: is_utf8(text),
        }
    }

    /// The next line, its number, and whether it is UTF-8.
    fn next(&mut self) -> Option<(u32, &'a [u8], bool)>
        ensures none { IfNone result ((self.old ≡ []) × (self.new ≡ [])) }
        ensures line { IfSome result (λ line. self.old ≡ record { number = line.0; bytes = line.1.now } ∷ self.new) }
        ensures number { IfSome result (λ line. 0 < line.0) }
        ensures utf8 { IfSome result (λ line. line.2 ≡ is_utf8 line.1.now) }
        ensures text { IfSome result (λ line. IsTrue line.2 → IsUtf8 line.1.now) }
    {
        let line = self.pieces.next()?;
        let number = self.number;
        self.number += 1;
        let is_text = is_line_text(self.is_text, line);
        Some((number, line, is_text))
    }
}

// Whether a line is UTF-8, where it may be known.
fn is_line_text(is_known: bool, line: &[u8]) -> bool
    requires { IsTrue is_known → IsUtf8 line.now }
    ensures utf8 { result ≡ is_utf8 line.now }
    ensures text { IsTrue result → IsUtf8 line.now }
{
    is_known || is_utf8(line)
}

fn is_skipped(line: &[u8]) -> bool
    ensures { result ≡ is_skipped line.now }
{
    line.is_empty() || line[0] == b'#'
}

#[tactic(auto, unfolding(crate::specs::Scripts::mode_of))]
fn mode_of(word: &[u8]) -> Option<Mode>
    ensures { result ≡ mode_of word.now }
{
    if word == b"auto".as_slice() {
        Some(Mode::Auto)
    } else if word == b"given".as_slice() {
        Some(Mode::Given)
    } else {
        None
    }
}

// Reads up to the mode line, and past it.
fn read_mode(lines: &mut Lines<'_>) -> Result<Mode, ScriptFault>
    ensures mode { IfOk result (λ mode. mode_in lines.old ≡ Some mode) }
    ensures heads { OnOk result (bad_heads (heads lines.old) ≡ None) }
    ensures left { OnOk result (lines.new ≡ behind_mode lines.old) }
    ensures refused { IfErr result (IsFirstBad (bad_in lines.old)) }
{
    let mut bad = None;
    while let Some((number, line, _)) = lines.next() {
        if !is_skipped(line) {
            return said_mode(mode_of(line), bad);
        }
        bad = first_bad(bad, number, line);
    }
    Err(ScriptFault::Line(0))
}

// The first line in front of the mode line that isn't UTF-8, with one more line.
fn first_bad(bad: Option<u32>, number: u32, line: &[u8]) -> Option<u32>
    ensures { result ≡ option_or bad (bad_heads (record { number = number; bytes = line.now } ∷ [])) }
{
    match bad {
        Some(bad) => Some(bad),
        None if is_utf8(line) => None,
        None => Some(number),
    }
}

// The mode that was said, where no line in front of it was bad.
fn said_mode(mode: Option<Mode>, bad: Option<u32>) -> Result<Mode, ScriptFault>
    ensures mode { IfOk result (λ said. mode ≡ Some said) }
    ensures heads { OnOk result (bad ≡ None) }
    ensures refused { IfErr result (IsFirstBad (first_of (cause_if (is_none mode) 0 ∷ bad ∷ []))) }
{
    let Some(mode) = mode else {
        return Err(ScriptFault::Line(0));
    };
    match bad {
        None => Ok(mode),
        Some(number) => Err(ScriptFault::Line(u64::from(number))),
    }
}

// Reads the lines behind the mode line.
fn read_lines(
    alloc: Global,
    ordinals: &Ordinals,
    lines: &mut Lines<'_>,
) -> Result<Frames, ScriptFault>
    ensures good { OnOk result (bad_lines lines.old ≡ None) }
    ensures kept { IfOk result (λ frames. frames ≡ kept_with (record { bytes = []; calls = [] }) (spoken_in lines.old)) }
    ensures refused { IfErr result (IsFirstBad (bad_lines lines.old)) }
{
    let mut frames = Frames::new(alloc, ordinals)?;
    while let Some((number, line, is_text)) = lines.next() {
        read_line(number, line, is_text, &mut frames)?;
    }
    Ok(frames)
}

// Reads a line behind the mode line, of which is known whether it is UTF-8.
fn read_line(
    number: u32,
    line: &[u8],
    is_text: bool,
    frames: &mut Frames,
) -> Result<(), ScriptFault>
    requires number { 0 < number }
    requires utf8 { is_text ≡ is_utf8 line.now }
    requires text { IsTrue is_text → IsUtf8 line.now }
    ensures good { OnOk result (bad_lines (record { number = number; bytes = line.now } ∷ []) ≡ None) }
    ensures kept { OnOk result (frames.new ≡ kept_with frames.old (spoken_in (record { number = number; bytes = line.now } ∷ []))) }
    ensures refused { IfErr result (IsFirstBad (bad_lines (record { number = number; bytes = line.now } ∷ []))) }
{
    if !is_text {
        return Err(ScriptFault::Line(u64::from(number)));
    }
    if is_skipped(line) {
        return Ok(());
    }
    frames.take_line(number, line)
}
