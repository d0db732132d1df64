ghost use Rattle.std.specs.Prelude.{◌≡◌, ◌++◌, codes, decimal};
ghost use Rattle.std.specs.List.{flat_map};
ghost use Rattle.run_status.specs.Notes.{line_of, note_of, word_of};
ghost use Rattle.run_status.specs.Outside.{sink_told};
ghost use Rattle.run_status.specs.Texts.{Tells, Writes};

use crate::statuses::Status;
use crate::texts::pass_on;
use host_io::{Failed, Sink, write_whole};
use itoa::Buffer;
use link_frames::FrameReason;

/// A note of any program, by its form. Numbers are written in decimal.
pub enum Note {
    /// A text, with its line end if it has one.
    Line(&'static str),
    /// A text and a number, with a line end behind them.
    Number(&'static str, u64),
    /// A text, a number, a text and a number, with a line end behind them.
    TwoNumbers(&'static str, u64, &'static str, u64),
    /// The line of the bad frame at an offset of the input, with the first reason against it.
    Reason(u64, FrameReason),
}

/// Tells the note of a status, and passes it on. Where that fails nothing else changes.
pub fn tell<N: Sink>(notes: &mut N, status: Status)
    ensures { Tells (note_of status) (sink_told N.written N.flushed N.faults notes.old) (sink_told N.written N.flushed N.faults notes.new) }
{
    tell_note(notes, note_of(status));
}

/// Tells a note, and passes it on: for a program that has statuses of its own. Where that fails nothing else changes.
pub fn tell_note<N: Sink>(notes: &mut N, note: Note)
    ensures { Tells (line_of note) (sink_told N.written N.flushed N.faults notes.old) (sink_told N.written N.flushed N.faults notes.new) }
{
    let _ = write_note(notes, note);
}

/// What is told of a status.
fn note_of(status: Status) -> Note
    ensures { line_of result ≡ note_of status }
{
    match status {
        Status::Done => Note::Line(""),
        Status::Usage => Note::Line(USAGE),
        Status::TreeRefused { rule, item } => {
            Note::TwoNumbers("tree refused: rule ", u64::from(rule), " item ", item)
        }
        Status::ScriptRefused { line } => Note::Number("script refused: line ", line),
        Status::ReadFault => Note::Line("read failed\n"),
        Status::WriteFault => Note::Line("write failed\n"),
        Status::FileFault => Note::Line("file failed\n"),
        Status::FileTooLarge => Note::Line("file too large\n"),
        Status::InputTooLong => Note::Line("input too long\n"),
        Status::Collision { first, second } => {
            Note::TwoNumbers(
                "ordinals collide: ",
                u64::from(first),
                " ",
                u64::from(second),
            )
        }
        Status::NoMemory => Note::Line("no memory\n"),
        Status::BadFrame { at, reason } => Note::Reason(at, reason),
        Status::Truncated { at } => Note::Number("input ends inside the frame at ", at),
    }
}

fn write_note<N: Sink>(notes: &mut N, note: Note) -> Result<(), Failed>
    ensures { Writes (line_of note) (sink_told N.written N.flushed N.faults notes.old) (sink_told N.written N.flushed N.faults notes.new) result }
{
    match note {
        Note::Line(text) => pass_on(notes, text.as_bytes()),
        Note::Number(text, number) => write_number(notes, text, number),
        Note::TwoNumbers(text, number, between, second) => {
            write_two_numbers(notes, text, number, between, second)
        }
        Note::Reason(at, reason) => write_reason(notes, at, reason),
    }
}

const USAGE: &str =
    "usage: vfs file NAME | serve TREE auto | serve TREE given | run TREE SCRIPT | check TREE | show | make N\n";

/// Writes a line of a text and a number.
fn write_number<N: Sink>(notes: &mut N, text: &str, number: u64) -> Result<(), Failed>
    ensures { Writes (text.now ++ decimal number ++ codes "\n") (sink_told N.written N.flushed N.faults notes.old) (sink_told N.written N.flushed N.faults notes.new) result }
{
    let mut digits = Buffer::new();
    write_parts(notes, &[text, digits.format(number), "\n"])
}

/// Writes a line of a text, a number, a text and a number.
fn write_two_numbers<N: Sink>(
    notes: &mut N,
    text: &str,
    number: u64,
    between: &str,
    second: u64,
) -> Result<(), Failed>
    ensures { Writes (text.now ++ decimal number ++ between.now ++ decimal second ++ codes "\n") (sink_told N.written N.flushed N.faults notes.old) (sink_told N.written N.flushed N.faults notes.new) result }
{
    let (mut first, mut other) = (Buffer::new(), Buffer::new());
    write_parts(
        notes,
        &[
            text,
            first.format(number),
            between,
            other.format(second),
            "\n",
        ],
    )
}

/// Writes the line of a bad frame.
fn write_reason<N: Sink>(notes: &mut N, at: u64, reason: FrameReason) -> Result<(), Failed>
    ensures { Writes (codes "bad frame at " ++ decimal at ++ codes ": " ++ word_of reason ++ codes "\n") (sink_told N.written N.flushed N.faults notes.old) (sink_told N.written N.flushed N.faults notes.new) result }
{
    let mut digits = Buffer::new();
    write_parts(
        notes,
        &[
            "bad frame at ",
            digits.format(at),
            ": ",
            word_of(reason),
            "\n",
        ],
    )
}

/// Writes the parts of a line, and passes them on.
fn write_parts<N: Sink>(notes: &mut N, parts: &[&str]) -> Result<(), Failed>
    ensures { Writes (flat_map (λ part. part.now) parts.now) (sink_told N.written N.flushed N.faults notes.old) (sink_told N.written N.flushed N.faults notes.new) result }
{
    for part in parts {
        if let Err(Failed) = write_whole(notes, part.as_bytes()) {
            return Err(Failed);
        }
    }
    notes.flush()
}

/// The word of a reason.
fn word_of(reason: FrameReason) -> &'static str
    ensures { result.now ≡ word_of reason }
{
    match reason {
        FrameReason::Kind => "kind",
        FrameReason::Zero => "zero",
        FrameReason::Handles => "handles",
        FrameReason::Bytes => "bytes",
        FrameReason::Shape => "shape",
    }
}
