// Frames as lines of text.

ghost use Rattle.std.specs.Prelude.{◌≡◌, ◌++◌, ◌≤◌, codes, decimal, length, take, OnErr, OnOk};
ghost use Rattle.std.specs.Fmt.{signed_decimal};
ghost use Rattle.std.specs.Int.{w32, cast_signed};
ghost use Rattle.link_frames.specs.declared.kinds.Side.TheVariants as side;
ghost use Rattle.link_frames.specs.Frames.{HasShape, IsFrame};
ghost use Rattle.link_frames.specs.Numbers.{word_in};
ghost use Rattle.link_frames.specs.Views.{frame_of, handle_numbers};
ghost use Rattle.vfs_script.specs.Transcripts.{bytes_text, counts_line, frame_line, handles_text, label_of, label_with, name_of, told_of};

use crate::outtext::Outtext;
use byteorder::{ByteOrder, LittleEndian};
use fidl_names::{MAX_BYTES, Method, NoMemory};
use fidl_wire::{EPITAPH_ORDINAL, HEADER_SIZE, MAGIC, Ordinals};
use itoa::Buffer;
use link_frames::{FrameKind, FrameView, HandleBytes, word_in};

/// What stands in front of the handles of a message without a label of its own.
const RAW: &[u8] = b" message raw ";

/// Appends the line of a frame, with its end; for want of memory nothing.
///
/// The caller sees to it that the frame is sound.
pub fn print_frame(
    ordinals: &Ordinals,
    frame: FrameView<'_>,
    to: &mut Outtext,
) -> Result<(), NoMemory>
    requires { IsFrame side.Any (frame_of frame) }
    ensures line { OnOk result (to.new ≡ to.old ++ frame_line (frame_of frame.entry)) }
    ensures no_memory { OnErr result (to.new ≡ to.old) }
{
    let len = to.len();
    let printed = put_line(ordinals, frame, to);
    if printed.is_err() {
        to.truncate(len);
    }
    printed
}

/// Appends the last line of a transcript, with its end: how many calls there were, and how many of
/// them were answered. For want of memory it appends nothing.
pub fn print_counts(calls: u32, answered: u32, to: &mut Outtext) -> Result<(), NoMemory>
    ensures line { OnOk result (to.new ≡ to.old ++ counts_line calls answered) }
    ensures no_memory { OnErr result (to.new ≡ to.old) }
{
    let len = to.len();
    let printed = put_counts(calls, answered, to);
    if printed.is_err() {
        to.truncate(len);
    }
    printed
}

#[tactic(auto, unfolding(crate::specs::Transcripts::counts_line))]
fn put_counts(calls: u32, answered: u32, to: &mut Outtext) -> Result<(), NoMemory>
    ensures put { OnOk result (to.new ≡ to.old ++ counts_line calls answered) }
    ensures grows { take (length to.old) to.new ≡ to.old }
{
    put_labelled(b"calls ", calls, to)?;
    put_labelled(b" answered ", answered, to)?;
    to.put_byte(b'\n')
}

// A number behind its label.
fn put_labelled(label: &[u8], number: u32, to: &mut Outtext) -> Result<(), NoMemory>
    ensures put { OnOk result (to.new ≡ to.old ++ label.now ++ decimal number) }
    ensures grows { take (length to.old) to.new ≡ to.old }
{
    to.put(label)?;
    put_number(number, to)
}

fn put_number(number: u32, to: &mut Outtext) -> Result<(), NoMemory>
    ensures put { OnOk result (to.new ≡ to.old ++ decimal number) }
    ensures grows { take (length to.old) to.new ≡ to.old }
{
    let mut digits = Buffer::new();
    to.put(digits.format(number).as_bytes())
}

fn put_signed(number: i32, to: &mut Outtext) -> Result<(), NoMemory>
    ensures put { OnOk result (to.new ≡ to.old ++ signed_decimal number) }
    ensures grows { take (length to.old) to.new ≡ to.old }
{
    let mut digits = Buffer::new();
    to.put(digits.format(number).as_bytes())
}

#[tactic(auto, unfolding(crate::specs::Transcripts::frame_line))]
fn put_line(ordinals: &Ordinals, frame: FrameView<'_>, to: &mut Outtext) -> Result<(), NoMemory>
    requires { HasShape frame.kind (length (handle_numbers frame.handles)) (length frame.bytes.now) }
    ensures put { OnOk result (to.new ≡ to.old ++ frame_line (frame_of frame.entry)) }
    ensures grows { take (length to.old) to.new ≡ to.old }
{
    put_number(frame.endpoint, to)?;
    put_told(ordinals, frame, to)?;
    to.put_byte(b'\n')
}

fn put_told(ordinals: &Ordinals, frame: FrameView<'_>, to: &mut Outtext) -> Result<(), NoMemory>
    requires { HasShape frame.kind (length (handle_numbers frame.handles)) (length frame.bytes.now) }
    ensures put { OnOk result (to.new ≡ to.old ++ told_of frame.entry.kind (handle_numbers frame.entry.handles) frame.entry.bytes.now) }
    ensures grows { take (length to.old) to.new ≡ to.old }
{
    match frame.kind {
        FrameKind::Message => put_message(ordinals, frame.handles, frame.bytes, to),
        FrameKind::Close => to.put(b" close"),
        FrameKind::Turn => put_turn(frame.bytes, to),
        FrameKind::Pick => to.put(b" pick"),
        FrameKind::Refused => put_refused(frame.bytes, to),
    }
}

fn put_message(
    ordinals: &Ordinals,
    handles: HandleBytes<'_>,
    bytes: &[u8],
    to: &mut Outtext,
) -> Result<(), NoMemory>
    requires { length bytes.now ≤ MAX_BYTES }
    ensures put { OnOk result (to.new ≡ to.old ++ told_of FrameKind.Message (handle_numbers handles.entry) bytes.now) }
    ensures grows { take (length to.old) to.new ≡ to.old }
{
    to.put(front_of(ordinals, bytes))?;
    put_handles(handles, to)?;
    to.put_byte(b' ')?;
    put_bytes(bytes, to)
}

fn put_turn(bytes: &[u8], to: &mut Outtext) -> Result<(), NoMemory>
    requires { 4 ≤ length bytes.now }
    ensures put { OnOk result (to.new ≡ to.old ++ codes " turn " ++ decimal (word_in bytes.now)) }
    ensures grows { take (length to.old) to.new ≡ to.old }
{
    put_labelled(b" turn ", word_in(bytes), to)
}

fn put_refused(bytes: &[u8], to: &mut Outtext) -> Result<(), NoMemory>
    requires { 4 ≤ length bytes.now }
    ensures put { OnOk result (to.new ≡ to.old ++ codes " refused " ++ signed_decimal (cast_signed w32 (word_in bytes.now))) }
    ensures grows { take (length to.old) to.new ≡ to.old }
{
    to.put(b" refused ")?;
    put_signed(word_in(bytes).cast_signed(), to)
}

// Handles in decimal, joined by commas; `-` for none.
#[tactic(auto, unfolding(crate::specs::Transcripts::handles_text))]
fn put_handles(handles: HandleBytes<'_>, to: &mut Outtext) -> Result<(), NoMemory>
    ensures put { OnOk result (to.new ≡ to.old ++ handles_text (handle_numbers handles.entry)) }
    ensures grows { take (length to.old) to.new ≡ to.old }
{
    if handles.is_empty() {
        return to.put_byte(b'-');
    }
    put_number(handles.at(0), to)?;
    for place in 1..handles.len() {
        put_labelled(b",", handles.at(place), to)?;
    }
    Ok(())
}

// Bytes as hexadecimal digits; `-` for none.
fn put_bytes(bytes: &[u8], to: &mut Outtext) -> Result<(), NoMemory>
    requires { length bytes.now ≤ MAX_BYTES }
    ensures put { OnOk result (to.new ≡ to.old ++ bytes_text bytes.now) }
    ensures grows { take (length to.old) to.new ≡ to.old }
{
    if bytes.is_empty() {
        return to.put_byte(b'-');
    }
    to.put_digits(bytes)
}

// What stands in the line of a message in front of its handles: it tells the label.
#[tactic(auto, unfolding(crate::specs::Transcripts::label_of, fidl_names::specs::Numbers::number_at))]
fn front_of(ordinals: &Ordinals, bytes: &[u8]) -> &'static [u8]
    ensures { result.now ≡ codes " message " ++ label_of bytes.now ++ codes " " }
{
    if bytes.len() < HEADER_SIZE || bytes[7] != MAGIC {
        return RAW;
    }
    front_with(ordinals, LittleEndian::read_u64(&bytes[8..]))
}

fn front_with(ordinals: &Ordinals, ordinal: u64) -> &'static [u8]
    ensures { result.now ≡ codes " message " ++ label_with ordinal ++ codes " " }
{
    if ordinal == EPITAPH_ORDINAL {
        return b" message epitaph ";
    }
    if ordinal == ordinals.event() {
        return b" message OnRepresentation ";
    }
    match ordinals.method(ordinal) {
        Some(method) => front_by(method),
        None => RAW,
    }
}

// The same by the name of a method.
fn front_by(method: Method) -> &'static [u8]
    ensures { result.now ≡ codes " message " ++ name_of method ++ codes " " }
{
    match method {
        Method::Clone => b" message Clone ",
        Method::Close => b" message Close ",
        Method::Query => b" message Query ",
        Method::GetAttributes => b" message GetAttributes ",
        Method::Sync => b" message Sync ",
        Method::OpenPath => b" message Open ",
        Method::ReadDirents => b" message ReadDirents ",
        Method::Rewind => b" message Rewind ",
        Method::GetToken => b" message GetToken ",
        Method::Rename => b" message Rename ",
        Method::Link => b" message Link ",
        Method::Unlink => b" message Unlink ",
        Method::Watch => b" message Watch ",
        Method::Read => b" message Read ",
        Method::ReadAt => b" message ReadAt ",
        Method::Write => b" message Write ",
        Method::WriteAt => b" message WriteAt ",
        Method::Seek => b" message Seek ",
        Method::Resize => b" message Resize ",
        Method::EchoString => b" message EchoString ",
    }
}
