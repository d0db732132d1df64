// Frames to be written.

ghost use Rattle.std.specs.Prelude.{◌≡◌, ◌≤◌, ◌+◌, ◌*◌, ◌++◌, ◌↔◌, [], IsTrue, length, take, map, OnOk, OnErr, IfOk};
ghost use Rattle.fidl_names.specs.HandleNumber.{number_of_handle};
ghost use Rattle.link_frames.specs.Frames.{HasShape, fixed_part, spelling, spelled_len, frame_with};
ghost use Rattle.link_frames.specs.Numbers.{word_of};
ghost use Rattle.link_frames.specs.Refusals.{refused_frame};
ghost use Rattle.std.specs.List.{flat_map};

use crate::fixed::{FIXED_LEN, MAX_FRAME_LEN, number_of};
use crate::kinds::{FrameKind, Refusal};
use fidl_names::{Handle, MAX_BYTES, MAX_HANDLES, NoMemory, word_array};
use std::alloc::Global;
use std::marker::Model;

/// Frames to be written, one after another.
#[derive(Drop)]
pub struct Outbox {
    frames: FrameRoom,
}

impl Model for Outbox {
    ghost use Rattle.std.specs.Prelude.{List, ℕ};

    ghost Value = { List ℕ };

    ghost view = { λ o. o.frames.bytes };
}

impl Outbox {
    /// An empty outbox.
    pub fn new(alloc: Global) -> Outbox
        ensures { result ≡ [] }
    {
        Outbox {
            frames: FrameRoom::none(alloc),
        }
    }

    /// The spellings of the frames.
    pub fn as_bytes(&self) -> &[u8]
        ensures { result.now ≡ self.now }
    {
        self.frames.as_bytes()
    }

    /// The number of bytes.
    pub fn len(&self) -> usize
        ensures { result ≡ length self.now }
    {
        self.frames.len
    }

    /// Whether there is nothing to be written.
    pub fn is_empty(&self) -> bool
        ensures { IsTrue result ↔ (self.now ≡ []) }
    {
        self.as_bytes().is_empty()
    }

    /// Forgets the frames.
    pub fn clear(&mut self)
        ensures { self.new ≡ [] }
    {
        self.frames.clear();
    }

    /// Cuts back to an earlier length.
    pub fn truncate(&mut self, len: usize)
        ensures { self.new ≡ take len self.old }
    {
        self.frames.truncate(len);
    }
}

/// Frames to be written, gathered in room that was taken for them.
#[derive(Drop)]
pub struct FrameRoom {
    /// The frames, up to `len`, and what earlier ones left behind them.
    room: Vec<u8>,
    len: usize,
}

impl Model for FrameRoom {
    ghost use Rattle.std.specs.Prelude.{◌≤◌, length, take};
    ghost use Rattle.link_frames.specs.Gathering.{Gathered};

    ghost Value = { Gathered };

    ghost view = { λ r. record { bytes = take r.len r.room.items; size = length r.room.items } };

    ghost invariant = { λ r. r.len ≤ length r.room.items };
}

impl FrameRoom {
    /// Room for so many bytes, taken at once.
    pub fn new(alloc: Global, size: usize) -> Result<FrameRoom, NoMemory>
        ensures { IfOk result (λ r. (r.bytes ≡ []) × (r.size ≡ size)) }
    {
        let room = vec![in alloc; 0; size]?;
        Ok(FrameRoom { room, len: 0 })
    }

    /// No room yet.
    fn none(alloc: Global) -> FrameRoom
        ensures { result.bytes ≡ [] }
    {
        FrameRoom {
            room: Vec::new(alloc),
            len: 0,
        }
    }

    /// The spellings of the frames.
    pub fn as_bytes(&self) -> &[u8]
        ensures { result.now ≡ self.now.bytes }
    {
        &self.room[..self.len]
    }

    /// How many bytes there is room for yet.
    pub fn room(&self) -> usize
        ensures { length self.now.bytes + result ≡ self.now.size }
    {
        self.room.len() - self.len
    }

    /// Forgets the frames, and keeps the room.
    pub fn clear(&mut self)
        ensures { self.new ≡ record self.old { bytes = [] } }
    {
        self.len = 0;
    }

    /// Appends the whole frame. It takes no memory.
    #[inline(always)]
    pub fn put_frame(&mut self, endpoint: u32, kind: FrameKind, handles: &[u32], bytes: &[u8])
        requires shape { HasShape kind (length handles.now) (length bytes.now) }
        requires room { length self.old.bytes + spelled_len (length handles.now) (length bytes.now) ≤ self.old.size }
        ensures written { self.new ≡ record self.old {
          bytes = self.old.bytes ++ spelling (frame_with endpoint kind handles.now bytes.now);
        } }
        ensures len { length self.new.bytes ≡
            length self.old.bytes + spelled_len (length handles.now) (length bytes.now) }
    {
        self.put_fixed_part(endpoint, kind, handles.len(), bytes.len());
        self.put_words(handles);
        self.put_bytes(bytes);
    }

    /// Appends the frame that tells on this endpoint why a frame is refused. It takes no memory.
    pub fn put_refused(&mut self, endpoint: u32, why: Refusal)
        requires room { length self.old.bytes + spelled_len 0 4 ≤ self.old.size }
        ensures written { self.new ≡ record self.old { bytes = self.old.bytes ++ spelling (refused_frame endpoint why) } }
    {
        let number = word_array(why.status().number().cast_unsigned());
        self.put_frame(endpoint, FrameKind::Refused, &[], &number);
    }

    /// Takes room for so many bytes more, where there isn't.
    #[inline(always)]
    fn reserve(&mut self, more: usize) -> Result<(), NoMemory>
        requires { more ≤ MAX_FRAME_LEN }
        ensures room { OnOk result (length self.old.bytes + more ≤ self.new.size) }
        ensures bytes { self.new.bytes ≡ self.old.bytes }
    {
        let end = self.len + more;
        if self.room.len() < end {
            self.room.resize(end, 0)?;
        }
        Ok(())
    }

    /// Cuts back to an earlier length.
    fn truncate(&mut self, len: usize)
        ensures { self.new ≡ record self.old { bytes = take len self.old.bytes } }
    {
        self.len = self.len.min(len);
    }

    /// Appends bytes.
    #[inline]
    fn put_bytes(&mut self, part: &[u8])
        requires { length self.old.bytes + length part.now ≤ self.old.size }
        ensures bytes { self.new.bytes ≡ self.old.bytes ++ part.now }
        ensures len { length self.new.bytes ≡ length self.old.bytes + length part.now }
        ensures size { self.new.size ≡ self.old.size }
    {
        let end = self.len + part.len();
        self.room[self.len..end].copy_from_slice(part);
        self.len = end;
    }

    /// Appends a number of 32 bits.
    fn put_word(&mut self, word: u32)
        requires { length self.old.bytes + 4 ≤ self.old.size }
        ensures bytes { self.new.bytes ≡ self.old.bytes ++ word_of word }
        ensures len { length self.new.bytes ≡ length self.old.bytes + 4 }
        ensures size { self.new.size ≡ self.old.size }
    {
        self.put_bytes(&word_array(word));
    }

    /// Appends a fixed part.
    #[inline]
    fn put_fixed_part(&mut self, endpoint: u32, kind: FrameKind, handles: usize, bytes: usize)
        requires few_handles { handles ≤ MAX_HANDLES }
        requires few_bytes { bytes ≤ MAX_BYTES }
        requires room { length self.old.bytes + FIXED_LEN ≤ self.old.size }
        ensures bytes { self.new.bytes ≡ self.old.bytes ++ fixed_part endpoint kind handles bytes }
        ensures len { length self.new.bytes ≡ length self.old.bytes + FIXED_LEN }
        ensures size { self.new.size ≡ self.old.size }
    {
        self.put_bytes(&fixed_array(endpoint, kind, handles, bytes));
    }

    /// Appends numbers of 32 bits.
    #[inline]
    fn put_words(&mut self, words: &[u32])
        requires { length self.old.bytes + 4 * length words.now ≤ self.old.size }
        ensures bytes { self.new.bytes ≡ self.old.bytes ++ flat_map word_of words.now }
        ensures len { length self.new.bytes ≡ length self.old.bytes + 4 * length words.now }
        ensures size { self.new.size ≡ self.old.size }
    {
        for word in words {
            self.put_word(*word);
        }
    }

    /// Appends the numbers of handles.
    #[inline]
    fn put_handles(&mut self, handles: &[Handle])
        requires { length self.old.bytes + 4 * length handles.now ≤ self.old.size }
        ensures bytes { self.new.bytes ≡ self.old.bytes ++ flat_map word_of (map number_of_handle handles.now) }
        ensures len { length self.new.bytes ≡ length self.old.bytes + 4 * length handles.now }
        ensures size { self.new.size ≡ self.old.size }
    {
        for handle in handles {
            self.put_word(handle.number());
        }
    }
}

/// The bytes of a frame with so many handles and bytes.
pub fn spelled_len(handles: usize, bytes: usize) -> usize
    requires few_handles { handles ≤ MAX_HANDLES }
    requires few_bytes { bytes ≤ MAX_BYTES }
    ensures { result ≡ spelled_len handles bytes }
{
    FIXED_LEN + 4 * handles + bytes
}

/// Appends the whole frame, or for want of memory nothing.
pub fn write_frame(
    to: &mut Outbox,
    endpoint: u32,
    kind: FrameKind,
    handles: &[u32],
    bytes: &[u8],
) -> Result<(), NoMemory>
    requires { HasShape kind (length handles.now) (length bytes.now) }
    ensures written { OnOk result (to.new ≡ to.old ++ spelling (frame_with endpoint kind handles.now bytes.now)) }
    ensures no_memory { OnErr result (to.new ≡ to.old) }
{
    to.frames.reserve(spelled_len(handles.len(), bytes.len()))?;
    to.frames.put_frame(endpoint, kind, handles, bytes);
    Ok(())
}

/// Appends the frame that tells on this endpoint why a frame is refused, or for want of memory nothing.
pub fn write_refused(to: &mut Outbox, endpoint: u32, why: Refusal) -> Result<(), NoMemory>
    ensures written { OnOk result (to.new ≡ to.old ++ spelling (refused_frame endpoint why)) }
    ensures no_memory { OnErr result (to.new ≡ to.old) }
{
    to.frames.reserve(spelled_len(0, 4))?;
    to.frames.put_refused(endpoint, why);
    Ok(())
}

/// Appends the whole frame of a message with these handles, or for want of memory nothing.
#[inline(always)]
pub fn write_message(
    to: &mut Outbox,
    endpoint: u32,
    handles: &[Handle],
    bytes: &[u8],
) -> Result<(), NoMemory>
    requires few_handles { length handles.now ≤ MAX_HANDLES }
    requires few_bytes { length bytes.now ≤ MAX_BYTES }
    ensures written { OnOk result (to.new ≡ to.old ++ spelling (frame_with endpoint FrameKind.Message (map number_of_handle handles.now) bytes.now)) }
    ensures no_memory { OnErr result (to.new ≡ to.old) }
{
    to.frames.reserve(spelled_len(handles.len(), bytes.len()))?;
    to.frames
        .put_fixed_part(endpoint, FrameKind::Message, handles.len(), bytes.len());
    to.frames.put_handles(handles);
    to.frames.put_bytes(bytes);
    Ok(())
}

/// A fixed part, as it is put at once.
#[tactic(auto, unfolding(fidl_names::specs::Numbers::number_bytes))]
#[inline]
fn fixed_array(endpoint: u32, kind: FrameKind, handles: usize, bytes: usize) -> [u8; 12]
    requires few_handles { handles ≤ MAX_HANDLES }
    requires few_bytes { bytes ≤ MAX_BYTES }
    ensures { result ≡ fixed_part endpoint kind handles bytes }
{
    let e = word_array(endpoint);
    let b = word_array(bytes as u32);
    let handles = handles as u8;
    [
        e[0],
        e[1],
        e[2],
        e[3],
        number_of(kind),
        handles,
        0,
        0,
        b[0],
        b[1],
        b[2],
        b[3],
    ]
}
