ghost use Rattle.std.specs.Prelude.{◌≡◌, ◌+◌, ◌%◌, ◌<◌, ◌≤◌, ◌==◌, true, false, [], ◌∷◌, Some, None, IsSome, IfSome, option_map, length, replicate, Ok, Err, IfOk, IfErr, OnOk, OnErr};
ghost use Rattle.std.specs.Int.{w32, w64, cast_unsigned};
ghost use Rattle.fidl_wire.specs.Layout.{number, pad, handle, text, vector, table, a_number, a_vector, num, blank, held, seq, members, is_kind};
ghost use Rattle.fidl_wire.specs.Cursor.{Cursor, start_of, outside_of};
ghost use Rattle.fidl_wire.specs.Told.{all_told};
ghost use Rattle.fidl_wire.specs.Within.{IsPart};
ghost use Rattle.fidl_wire.specs.Headers.{fault};
ghost use Rattle.fidl_wire.specs.declared.faults.WireWhat.TheVariants.{Handles};
ghost use Rattle.fidl_wire.specs.Reading.{before_list, check, all_blank, inline_at, count_at, list_cell, cell_at, inlined_word, object_at, branch_of, ordinal_at, finish_of, closed, is_whole};

use crate::blanks::check_blank;
use crate::envelopes::{bytes_at, check_handles, enter, handles_at, is_inlined};
use crate::faults::{WireFault, WireWhat};
use crate::headers::HEADER_SIZE;
use crate::kinds::{HandleKind, Member, MemberKind, is_kind};
use crate::padding::padding_after;
use crate::reading::{Branch, Opened, Outside};
use crate::tables::{forget, has_required, have_room, members};
use crate::texts::may_stand;
use fidl_names::{Handle, u32_at, u64_at};
use std::marker::Model;

/// A cursor over a message, behind its header. Each call reads the next field of the inline object
/// and what the field has out of line, lends parts of the message, and takes no memory. A call
/// that answers a fault leaves the cursor as it was.
#[derive(Drop)]
pub struct Body<'a, 'h> {
    bytes: &'a [u8],
    handles: &'h [Handle],
    place: usize,
    end: usize,
    out: usize,
    opened: Option<Opened>,
}

impl<'a, 'h> Model for Body<'a, 'h> {
    ghost use Rattle.fidl_wire.specs.Cursor.{Cursor};
    ghost use Rattle.fidl_wire.specs.Within.{IsWithin};

    ghost Value = { Cursor };

    ghost view = { λ b. record { message = b.bytes.now; handles = b.handles.now; place = b.place; end = b.end; out = b.out; opened = b.opened } };

    ghost invariant = { λ b. IsWithin (record { message = b.bytes.now; handles = b.handles.now; place = b.place; end = b.end; out = b.out; opened = b.opened }) };
}

impl<'a, 'h> Body<'a, 'h> {
    /// A cursor behind the header of a whole message, before a primary object of `inline` bytes.
    /// `Short` where fewer bytes follow the header than that object padded to 8.
    pub fn new(
        bytes: &'a [u8],
        handles: &'h [Handle],
        inline: usize,
    ) -> Result<Body<'a, 'h>, WireFault>
        ensures { result ≡ start_of bytes.now handles.now inline }
    {
        let short = WireFault::new(bytes.len(), WireWhat::Short);
        if bytes.len() < HEADER_SIZE {
            return Err(short);
        }
        let room = bytes.len() - HEADER_SIZE;
        let padding = padding_after(inline);
        if inline > room || padding > room - inline {
            return Err(short);
        }
        Ok(Body {
            bytes,
            handles,
            place: HEADER_SIZE,
            end: HEADER_SIZE + inline,
            out: HEADER_SIZE + (inline + padding),
            opened: None,
        })
    }

    /// The next field, a `u32`.
    #[tactic(auto, unfolding(crate::specs::Reading::cell_at))]
    pub fn get_u32(&mut self) -> Result<u32, WireFault>
        ensures value { IfOk result (λ x. cell_at (number 4) self.old ≡ Ok (num x, self.new)) }
        ensures fault { IfErr result (λ e. cell_at (number 4) self.old ≡ Err e) }
        ensures unchanged { OnErr result (self.new ≡ self.old) }
    {
        let at = self.inline_place(4)?;
        self.place += 4;
        Ok(u32_at(self.bytes, at))
    }

    /// The next field, an `i32`.
    pub fn get_i32(&mut self) -> Result<i32, WireFault>
        ensures value { IfOk result (λ x. cell_at (number 4) self.old ≡ Ok (num (cast_unsigned w32 x), self.new)) }
        ensures fault { IfErr result (λ e. cell_at (number 4) self.old ≡ Err e) }
        ensures unchanged { OnErr result (self.new ≡ self.old) }
    {
        Ok(self.get_u32()?.cast_signed())
    }

    /// The next field, a `u64`.
    #[tactic(auto, unfolding(crate::specs::Reading::cell_at))]
    pub fn get_u64(&mut self) -> Result<u64, WireFault>
        ensures value { IfOk result (λ x. cell_at (number 8) self.old ≡ Ok (num x, self.new)) }
        ensures fault { IfErr result (λ e. cell_at (number 8) self.old ≡ Err e) }
        ensures unchanged { OnErr result (self.new ≡ self.old) }
    {
        let at = self.inline_place(8)?;
        self.place += 8;
        Ok(u64_at(self.bytes, at))
    }

    /// The next field, an `i64`.
    pub fn get_i64(&mut self) -> Result<i64, WireFault>
        ensures value { IfOk result (λ x. cell_at (number 8) self.old ≡ Ok (num (cast_unsigned w64 x), self.new)) }
        ensures fault { IfErr result (λ e. cell_at (number 8) self.old ≡ Err e) }
        ensures unchanged { OnErr result (self.new ≡ self.old) }
    {
        Ok(self.get_u64()?.cast_signed())
    }

    /// Passes `size` bytes between two fields; `Padding` at the first that is not zero.
    #[tactic(auto, unfolding(crate::specs::Reading::cell_at))]
    #[inline(always)]
    pub fn pad(&mut self, size: usize) -> Result<(), WireFault>
        ensures value { OnOk result (cell_at (pad size) self.old ≡ Ok (blank, self.new)) }
        ensures fault { IfErr result (λ e. cell_at (pad size) self.old ≡ Err e) }
        ensures unchanged { OnErr result (self.new ≡ self.old) }
    {
        let at = self.inline_place(size)?;
        self.check_pad(at, size)?;
        self.place += size;
        Ok(())
    }

    /// So many bytes from a place on are zero.
    #[inline(always)]
    fn check_pad(&self, at: usize, size: usize) -> Result<(), WireFault>
        requires { at + size ≤ length self.now.message }
        ensures { result ≡ all_blank self.now.message at (at + size) }
    {
        check_blank(self.bytes, at, at + size)
    }

    /// The next handle, of either kind. `Presence` where the word is neither of the two, or absent
    /// and not `nullable`; `Handles` where none is left.
    pub fn handle(&mut self, nullable: bool) -> Result<Option<Handle>, WireFault>
        ensures value { IfOk result (λ h. cell_at (handle HandleKind.AnyHandle nullable) self.old ≡ Ok (held h, self.new)) }
        ensures fault { IfErr result (λ e. cell_at (handle HandleKind.AnyHandle nullable) self.old ≡ Err e) }
        ensures unchanged { OnErr result (self.new ≡ self.old) }
    {
        self.held(HandleKind::AnyHandle, nullable)
    }

    /// The next handle, which has to be there and an endpoint: its number. `Handles` at its word
    /// where it is a token.
    pub fn endpoint(&mut self) -> Result<u32, WireFault>
        ensures value { IfOk result (λ n. cell_at (handle HandleKind.AnEndpoint false) self.old ≡ Ok (held (Some (Handle.Endpoint n)), self.new)) }
        ensures fault { IfErr result (λ e. cell_at (handle HandleKind.AnEndpoint false) self.old ≡ Err e) }
        ensures unchanged { OnErr result (self.new ≡ self.old) }
    {
        match self.held(HandleKind::AnEndpoint, false)? {
            Some(Handle::Endpoint(number)) => Ok(number),
            _ => unreachable!(),
        }
    }

    /// The next handle, a token: its number. `Handles` at its word where it is an endpoint.
    pub fn token(&mut self, nullable: bool) -> Result<Option<u32>, WireFault>
        ensures value { IfOk result (λ n. cell_at (handle HandleKind.AToken nullable) self.old ≡ Ok (held (option_map Handle.Token n), self.new)) }
        ensures fault { IfErr result (λ e. cell_at (handle HandleKind.AToken nullable) self.old ≡ Err e) }
        ensures unchanged { OnErr result (self.new ≡ self.old) }
    {
        match self.held(HandleKind::AToken, nullable)? {
            None => Ok(None),
            Some(Handle::Token(number)) => Ok(Some(number)),
            Some(Handle::Endpoint(_)) => unreachable!(),
        }
    }

    /// The next handle, which has to be of this kind, else `Handles`.
    #[tactic(auto, unfolding(crate::specs::Reading::cell_at))]
    fn held(&mut self, kind: HandleKind, nullable: bool) -> Result<Option<Handle>, WireFault>
        ensures value { IfOk result (λ h. cell_at (handle kind nullable) self.old ≡ Ok (held h, self.new)) }
        ensures kind { IfOk result (λ h. IfSome h (λ x. is_kind kind x ≡ true)) }
        ensures present { IfOk result (λ h. nullable ≡ false → IsSome h) }
        ensures fault { IfErr result (λ e. cell_at (handle kind nullable) self.old ≡ Err e) }
        ensures unchanged { OnErr result (self.new ≡ self.old) }
    {
        let at = self.inline_place(4)?;
        let word = u32_at(self.bytes, at);
        if word == 0 && nullable {
            self.place += 4;
            return Ok(None);
        }
        if word != u32::MAX {
            return Err(WireFault::new(at, WireWhat::Presence));
        }
        let (first, rest) = match self.handles {
            [first, rest @ ..] => (*first, rest),
            [] => return Err(WireFault::new(at, WireWhat::Handles)),
        };
        if !is_kind(kind, first) {
            return Err(WireFault::new(at, WireWhat::Handles));
        }
        self.handles = rest;
        self.place += 4;
        Ok(Some(first))
    }

    /// The next field, a string: the part of the message with its bytes, which are UTF-8.
    #[tactic(auto, unfolding(crate::specs::Reading::cell_at))]
    pub fn string(&mut self) -> Result<&'a [u8], WireFault>
        ensures value { IfOk result (λ part. cell_at text self.old ≡ Ok (seq part.now, self.new)) }
        ensures part { IfOk result (λ part. IsPart part.now self.old) }
        ensures fault { IfErr result (λ e. cell_at text self.old ≡ Err e) }
        ensures unchanged { OnErr result (self.new ≡ self.old) }
    {
        self.list(true)
    }

    /// The next field, a vector of bytes: the part of the message that has them.
    #[tactic(auto, unfolding(crate::specs::Reading::cell_at))]
    pub fn bytes(&mut self) -> Result<&'a [u8], WireFault>
        ensures value { IfOk result (λ part. cell_at vector self.old ≡ Ok (seq part.now, self.new)) }
        ensures part { IfOk result (λ part. IsPart part.now self.old) }
        ensures fault { IfErr result (λ e. cell_at vector self.old ≡ Err e) }
        ensures unchanged { OnErr result (self.new ≡ self.old) }
    {
        self.list(false)
    }

    /// A list of bytes. `Presence`, `Count`, `Utf8` and `Padding` are tried in this order.
    fn list(&mut self, is_text: bool) -> Result<&'a [u8], WireFault>
        ensures value { IfOk result (λ part. list_cell is_text self.old ≡ Ok (part.now, self.new)) }
        ensures part { IfOk result (λ part. IsPart part.now self.old) }
        ensures fault { IfErr result (λ e. list_cell is_text self.old ≡ Err e) }
        ensures unchanged { OnErr result (self.new ≡ self.old) }
    {
        let at = self.inline_place(16)?;
        let count = self.count_at(at)?;
        let padding = padding_after(count);
        let room = self.bytes.len() - self.out;
        if count > room || padding > room - count {
            return Err(WireFault::new(at, WireWhat::Count));
        }
        let end = self.out + count;
        let part = &self.bytes[self.out..end];
        if !may_stand(is_text, part) {
            return Err(WireFault::new(at, WireWhat::Utf8));
        }
        check_blank(self.bytes, end, end + padding)?;
        self.place += 16;
        self.out = end + padding;
        Ok(part)
    }

    /// A vector of bytes whose inline part stands at a place out of line, and where it ends.
    pub(crate) fn list_at(bytes: &'a [u8], at: usize) -> Result<(&'a [u8], usize), WireFault>
        requires aligned { at % 8 ≡ 0 }
        requires room { at + 16 ≤ length bytes.now }
        ensures value { IfOk result (λ r. (behind : Cursor) × (list_cell false (before_list bytes.now at) ≡ Ok (r.0.now, behind)) × (behind.out ≡ r.1)) }
        ensures placed { IfOk result (λ r. (r.1 ≤ length bytes.now) × (r.1 % 8 ≡ 0)) }
        ensures fault { IfErr result (λ e. list_cell false (before_list bytes.now at) ≡ Err e) }
    {
        let mut list = Body {
            bytes,
            handles: &[],
            place: at,
            end: at + 16,
            out: at + 16,
            opened: None,
        };
        let part = list.list(false)?;
        Ok((part, list.out))
    }

    /// The next field, a table. Member k is what `kinds[k - 1]` says, and what it has goes to
    /// `values[k - 1]`, `None` where it is absent or not known. Members that are not known are
    /// skipped by their counts, and their handles are passed. `Envelope` at the table's count where
    /// a member is absent that has to be there. After a fault `values` says nothing.
    #[tactic(auto, unfolding(crate::specs::Reading::cell_at))]
    pub fn table(
        &mut self,
        kinds: &[MemberKind],
        values: &mut [Option<Member<'a>>],
    ) -> Result<(), WireFault>
        requires { length values.old ≡ length kinds.now }
        ensures value { OnOk result (cell_at (table kinds.now) self.old ≡ Ok (members (all_told values.new), self.new)) }
        ensures fault { IfErr result (λ e. cell_at (table kinds.now) self.old ≡ Err e) }
        ensures unchanged { OnErr result (self.new ≡ self.old) }
    {
        forget(values);
        self.table_into(kinds, values)
    }

    /// The same, where `values` has nothing yet.
    #[tactic(auto, unfolding(crate::specs::Reading::cell_at))]
    fn table_into(
        &mut self,
        kinds: &[MemberKind],
        values: &mut [Option<Member<'a>>],
    ) -> Result<(), WireFault>
        requires { all_told values.old ≡ replicate (length kinds.now) None }
        ensures value { OnOk result (cell_at (table kinds.now) self.old ≡ Ok (members (all_told values.new), self.new)) }
        ensures fault { IfErr result (λ e. cell_at (table kinds.now) self.old ≡ Err e) }
        ensures unchanged { OnErr result (self.new ≡ self.old) }
    {
        let at = self.inline_place(16)?;
        let count = self.count_at(at)?;
        let first = self.out;
        if !have_room(first, count, self.bytes.len()) {
            return Err(WireFault::new(at, WireWhat::Count));
        }
        let start = Outside {
            out: first + 8 * count,
            left: self.handles.len(),
        };
        let rest = members(self.bytes, kinds, first, count, start, values)?;
        if !has_required(kinds, values) {
            return Err(WireFault::new(at, WireWhat::Envelope));
        }
        self.place += 16;
        self.out = rest.out;
        self.handles = &self.handles[self.handles.len() - rest.left..];
        Ok(())
    }

    /// The next field, a table whose member 1 alone is known, a number of eight bytes that may be absent.
    pub fn table_u64(&mut self) -> Result<Option<u64>, WireFault>
        ensures value { IfOk result (λ x. cell_at (table (MemberKind.Number false ∷ [])) self.old ≡ Ok (members (option_map a_number x ∷ []), self.new)) }
        ensures fault { IfErr result (λ e. cell_at (table (MemberKind.Number false ∷ [])) self.old ≡ Err e) }
        ensures unchanged { OnErr result (self.new ≡ self.old) }
    {
        let mut values = [None];
        self.table_into(&[MemberKind::Number { required: false }], &mut values)?;
        match values[0] {
            None => Ok(None),
            Some(Member::Number(number)) => Ok(Some(number)),
            Some(Member::Bytes(_)) => unreachable!(),
        }
    }

    /// The next field, a table whose member 1 alone is known, a vector of bytes that has to be there: the part of
    /// the message that has them. `Envelope` at the table's count where it is absent.
    pub fn table_bytes(&mut self) -> Result<&'a [u8], WireFault>
        ensures value { IfOk result (λ part. cell_at (table (MemberKind.Bytes true ∷ [])) self.old ≡ Ok (members (Some (a_vector part.now) ∷ []), self.new)) }
        ensures fault { IfErr result (λ e. cell_at (table (MemberKind.Bytes true ∷ [])) self.old ≡ Err e) }
        ensures unchanged { OnErr result (self.new ≡ self.old) }
    {
        let mut values = [None];
        self.table_into(&[MemberKind::Bytes { required: true }], &mut values)?;
        match values[0] {
            Some(Member::Bytes(part)) => Ok(part),
            Some(Member::Number(_)) => unreachable!(),
            None => unreachable!(),
        }
    }

    /// The ordinal of the union that is the next field, which is not passed.
    #[tactic(auto, unfolding(crate::specs::Reading::ordinal_at))]
    pub fn peek(&self) -> Result<u64, WireFault>
        ensures { result ≡ ordinal_at self.now }
    {
        let at = self.inline_place(16)?;
        Ok(u64_at(self.bytes, at))
    }

    /// The next field, a union whose branch has `size` bytes. At most four stand in the envelope,
    /// and are answered. More are out of line: the body goes on in an object of that size, and
    /// `finish` compares the envelope's counts with what was read. One branch at a time is open.
    #[tactic(auto, unfolding(crate::specs::Reading::branch_of))]
    pub fn branch(&mut self, size: usize) -> Result<Branch, WireFault>
        requires { self.old.opened ≡ None }
        ensures value { IfOk result (λ b. branch_of size self.old ≡ Ok (b, self.new)) }
        ensures fault { IfErr result (λ e. branch_of size self.old ≡ Err e) }
        ensures unchanged { OnErr result (self.new ≡ self.old) }
    {
        let at = self.inline_place(16)?;
        let ordinal = u64_at(self.bytes, at);
        if size > 4 {
            self.enter_branch(at, size)?;
            return Ok(Branch {
                ordinal,
                inlined: None,
            });
        }
        let word = self.inlined_word(at + 8, size)?;
        self.place += 16;
        Ok(Branch {
            ordinal,
            inlined: Some(word),
        })
    }

    /// The word in the envelope at a place, of which the first `size` bytes are the value.
    fn inlined_word(&self, at: usize, size: usize) -> Result<u32, WireFault>
        requires envelope { at + 8 ≤ length self.now.message }
        requires size { size ≤ 4 }
        ensures { result ≡ inlined_word size at self.now }
    {
        if !is_inlined(self.bytes, at) {
            return Err(WireFault::new(at, WireWhat::Envelope));
        }
        check_handles(self.bytes, at, self.outside())?;
        check_blank(self.bytes, at + size, at + 4)?;
        if handles_at(self.bytes, at) != 0 {
            return Err(WireFault::new(at, WireWhat::Envelope));
        }
        Ok(u32_at(self.bytes, at))
    }

    /// Goes on in an object of `size` bytes, the branch of the union at a place.
    fn enter_branch(&mut self, at: usize, size: usize) -> Result<(), WireFault>
        requires union { at + 16 ≤ self.old.end }
        requires within { at + 16 ≤ length self.old.message }
        requires size { 4 < size }
        ensures value { OnOk result (object_at size at self.old ≡ Ok self.new) }
        ensures fault { IfErr result (λ e. object_at size at self.old ≡ Err e) }
        ensures unchanged { OnErr result (self.new ≡ self.old) }
    {
        let message = self.bytes;
        let envelope = at + 8;
        let padding = padding_after(size);
        enter(message, envelope, size, self.outside())?;
        check_blank(message, self.end, self.end + padding_after(self.end))?;
        self.opened = Some(Opened {
            at: envelope,
            until: self.out + bytes_at(message, envelope),
            left: self.handles.len() - handles_at(message, envelope),
        });
        self.place = self.out;
        self.end = self.out + size;
        self.out += size + padding;
        Ok(())
    }

    /// What lies out of line.
    fn outside(&self) -> Outside
        ensures { result ≡ outside_of self.now }
    {
        Outside {
            out: self.out,
            left: self.handles.len(),
        }
    }

    /// The count of the list whose inline part stands at a place, and is there.
    fn count_at(&self, at: usize) -> Result<usize, WireFault>
        requires { at + 16 ≤ length self.now.message }
        ensures { result ≡ count_at at self.now }
    {
        if u64_at(self.bytes, at + 8) != u64::MAX {
            return Err(WireFault::new(at, WireWhat::Presence));
        }
        Ok(u64_at(self.bytes, at) as usize)
    }

    /// The end of the message. `Envelope` where a branch took other bytes or handles than its
    /// envelope counts; then `Padding` behind the object; then `Trailing` and `Handles` where bytes
    /// or handles are left over. Fields of the object that weren't read aren't looked at.
    #[tactic(auto, unfolding(crate::specs::Reading::finish_of))]
    #[inline(always)]
    pub fn finish(self) -> Result<(), WireFault>
        ensures { result ≡ finish_of self.entry }
    {
        self.check_branch()?;
        check_blank(self.bytes, self.end, self.end + padding_after(self.end))?;
        if self.out < self.bytes.len() {
            return Err(WireFault::new(self.out, WireWhat::Trailing));
        }
        self.check_left()
    }

    /// No handle is left over.
    #[inline(always)]
    fn check_left(&self) -> Result<(), WireFault>
        ensures { result ≡ check (length self.now.handles == 0) (fault (length self.now.message) Handles) }
    {
        let left = self.handles.len();
        if left != 0 {
            return Err(WireFault::new(self.bytes.len(), WireWhat::Handles));
        }
        Ok(())
    }

    /// The value of an open branch took what its envelope counts.
    fn check_branch(&self) -> Result<(), WireFault>
        ensures { result ≡ closed self.now.opened self.now }
    {
        match self.opened {
            None => Ok(()),
            Some(opened) => {
                if self.ends(opened) {
                    return Ok(());
                }
                Err(WireFault::new(opened.at, WireWhat::Envelope))
            }
        }
    }

    /// What was read ends where the envelope says.
    fn ends(&self, opened: Opened) -> bool
        ensures { result ≡ is_whole self.now opened }
    {
        self.out == opened.until && self.handles.len() == opened.left
    }

    /// Where the next `size` inline bytes begin.
    fn inline_place(&self, size: usize) -> Result<usize, WireFault>
        ensures value { result ≡ inline_at size self.now }
        ensures place { IfOk result (λ at. at ≡ self.now.place) }
        ensures room { IfOk result (λ at. at + size ≤ self.now.end) }
        ensures within { IfOk result (λ at. at + size ≤ length self.now.message) }
    {
        if size > self.end - self.place {
            return Err(WireFault::new(self.bytes.len(), WireWhat::Short));
        }
        Ok(self.place)
    }
}
