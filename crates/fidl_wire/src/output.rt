ghost use Rattle.std.specs.Prelude.{◌≡◌, ◌+◌, ◌≤◌, List, [], ◌∷◌, ◌++◌, length, IfOk};
ghost use Rattle.std.specs.Int.{w32, cast_unsigned};
ghost use Rattle.fidl_wire.specs.Headers.{header_bytes, flags_of};
ghost use Rattle.fidl_names.specs.Numbers.{number_bytes};
ghost use Rattle.fidl_wire.specs.Numbers.{padded};
ghost use Rattle.fidl_wire.specs.Written.{Written, padded_bytes};

use crate::headers::{FLEXIBLE_BIT, Header, MAGIC, VERSION_BIT};
use crate::padding::padding_after;
use fidl_names::{Handle, MAX_BYTES, MAX_HANDLES, NoMemory, long_array, word_array};
use std::alloc::Global;
use std::marker::Model;

/// Room for the longest message, and for eight zeros behind it.
const ROOM: usize = MAX_BYTES + 8;

/// A message that is being written, of at most `MAX_BYTES` bytes and `MAX_HANDLES` handles. The room
/// for all of them is taken when it is made, so that no other call takes memory. The caller of each
/// call that appends knows that the message still fits.
#[derive(Drop)]
pub struct Out {
    /// The message, up to `len`, and what earlier ones left behind it.
    room: Vec<u8>,
    len: usize,
    handles: Vec<Handle>,
}

impl Model for Out {
    ghost use Rattle.std.specs.Prelude.{length, take, vec_capacity};
    ghost use Rattle.fidl_wire.specs.Written.{Written, HasRoom};

    ghost Value = { Written };

    ghost view = { λ o. record { bytes = take o.len o.room.items; handles = o.handles.items } };

    ghost invariant = { λ o. HasRoom o.len (length o.room.items) (length o.handles.items) (vec_capacity o.handles) };
}

/// The dynamic flags of a header.
#[inline]
fn dynamic_flags(flexible: bool) -> u8
    ensures { result ≡ flags_of flexible }
{
    if flexible { FLEXIBLE_BIT } else { 0 }
}

/// A header, as it is put at once.
#[tactic(auto, unfolding(fidl_names::specs::Numbers::number_bytes))]
#[inline]
fn header_array(header: Header) -> [u8; 16]
    ensures { result ≡ header_bytes header }
{
    let t = word_array(header.txid);
    let o = long_array(header.ordinal);
    let flags = dynamic_flags(header.flexible);
    [
        t[0],
        t[1],
        t[2],
        t[3],
        VERSION_BIT,
        0,
        flags,
        MAGIC,
        o[0],
        o[1],
        o[2],
        o[3],
        o[4],
        o[5],
        o[6],
        o[7],
    ]
}

impl Out {
    /// An empty message, with room for the longest one.
    pub fn new(alloc: Global) -> Result<Out, NoMemory>
        ensures empty { IfOk result (λ out. out ≡ record { bytes = []; handles = [] }) }
        ensures len { IfOk result (λ out. length out.bytes ≡ 0) }
    {
        Ok(Out {
            room: vec![in alloc; 0; ROOM]?,
            len: 0,
            handles: Vec::with_capacity(alloc, MAX_HANDLES)?,
        })
    }

    /// Appends a header.
    #[inline(always)]
    pub fn begin(&mut self, header: Header)
        requires { length self.old.bytes + 16 ≤ MAX_BYTES }
        ensures bytes { self.new.bytes ≡ self.old.bytes ++ header_bytes header }
        ensures len { length self.new.bytes ≡ length self.old.bytes + 16 }
        ensures handles { self.new.handles ≡ self.old.handles }
    {
        self.put_bytes(&header_array(header));
    }

    /// Appends four bytes.
    pub fn put_u32(&mut self, v: u32)
        requires { length self.old.bytes + 4 ≤ MAX_BYTES }
        ensures bytes { self.new.bytes ≡ self.old.bytes ++ number_bytes 4 v }
        ensures len { length self.new.bytes ≡ length self.old.bytes + 4 }
        ensures handles { self.new.handles ≡ self.old.handles }
    {
        self.put_bytes(&word_array(v));
    }

    /// Appends four bytes, the number's bits.
    pub fn put_i32(&mut self, v: i32)
        requires { length self.old.bytes + 4 ≤ MAX_BYTES }
        ensures bytes { self.new.bytes ≡ self.old.bytes ++ number_bytes 4 (cast_unsigned w32 v) }
        ensures len { length self.new.bytes ≡ length self.old.bytes + 4 }
        ensures handles { self.new.handles ≡ self.old.handles }
    {
        self.put_u32(v.cast_unsigned());
    }

    /// Appends eight bytes.
    pub fn put_u64(&mut self, v: u64)
        requires { length self.old.bytes + 8 ≤ MAX_BYTES }
        ensures bytes { self.new.bytes ≡ self.old.bytes ++ number_bytes 8 v }
        ensures len { length self.new.bytes ≡ length self.old.bytes + 8 }
        ensures handles { self.new.handles ≡ self.old.handles }
    {
        self.put_bytes(&long_array(v));
    }

    /// Appends the bytes.
    #[inline(always)]
    pub fn put_bytes(&mut self, v: &[u8])
        requires { length self.old.bytes + length v.now ≤ MAX_BYTES }
        ensures bytes { self.new.bytes ≡ self.old.bytes ++ v.now }
        ensures len { length self.new.bytes ≡ length self.old.bytes + length v.now }
        ensures handles { self.new.handles ≡ self.old.handles }
    {
        let end = self.len + v.len();
        self.room[self.len..end].copy_from_slice(v);
        self.len = end;
    }

    /// Appends the zeros that bring the number of bytes to a multiple of eight. There is always room
    /// for them.
    #[tactic(auto, unfolding(crate::specs::Numbers::padding_after))]
    #[inline(always)]
    pub fn pad(&mut self)
        ensures bytes { self.new.bytes ≡ padded_bytes self.old.bytes }
        ensures len { length self.new.bytes ≡ padded (length self.old.bytes) }
        ensures handles { self.new.handles ≡ self.old.handles }
    {
        // Eight are written at once, and those counted that belong to the message.
        let zeros = [0; 8];
        let len = self.len;
        self.room[len..len + 8].copy_from_slice(&zeros);
        self.len = len + padding_after(len);
    }

    /// Appends a handle.
    pub fn put_handle(&mut self, h: Handle)
        requires { length self.old.handles + 1 ≤ MAX_HANDLES }
        ensures handles { self.new.handles ≡ self.old.handles ++ h ∷ [] }
        ensures len { length self.new.handles ≡ length self.old.handles + 1 }
        ensures bytes { self.new.bytes ≡ self.old.bytes }
    {
        self.handles.push(h).unwrap();
    }

    /// Empties it.
    pub fn clear(&mut self)
        ensures empty { self.new ≡ record { bytes = []; handles = [] } }
        ensures len { length self.new.bytes ≡ 0 }
    {
        self.len = 0;
        self.handles.clear();
    }

    /// The bytes that were written.
    pub fn as_bytes(&self) -> &[u8]
        ensures bytes { result.now ≡ self.now.bytes }
        ensures bound { length result.now ≤ MAX_BYTES }
    {
        &self.room[..self.len]
    }

    /// The handles that were written.
    pub fn handles(&self) -> &[Handle]
        ensures handles { result.now ≡ self.now.handles }
        ensures bound { length result.now ≤ MAX_HANDLES }
    {
        self.handles.as_slice()
    }
}
