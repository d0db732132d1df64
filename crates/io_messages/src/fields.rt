ghost use Rattle.std.specs.Prelude.{◌≡◌, ◌+◌, ◌%◌, ◌<◌, ◌≤◌, ◌++◌, length, take, option_map, MatchOption};
ghost use Rattle.fidl_wire.specs.Layout.{a_number};
ghost use Rattle.fidl_wire.specs.Told.{all_told, told};
ghost use Rattle.fidl_wire.specs.Written.{padded_bytes};
ghost use Rattle.fidl_wire.specs.Spelling.{given, member_part, members_part, object_bytes, count_bytes};
ghost use Rattle.io_messages.specs.Fields.{part_of, parts_of, part_size, parts_size, slot_of, slots_of};

use fidl_names::{Handle, MAX_BYTES, MAX_HANDLES};
use fidl_wire::{Member, Out, padding_after};

/// What marks a list or a handle as present.
const PRESENT: u64 = u64::MAX;

/// The bytes of a number in a table, as its envelope counts them.
const NUMBER_SIZE: u64 = 8;

/// The most bytes of a message behind its header.
const MOST_BODY: usize = MAX_BYTES - 16;

/// What is written in a field.
#[derive(Clone, Copy)]
pub enum Field<'a, 'b> {
    Word(u32),
    Long(u64),
    /// Four bytes between two fields.
    Blank,
    Held(Handle),
    /// No handle.
    Absent,
    /// A string or a vector of bytes.
    Bytes(&'a [u8]),
    /// A table, by its members from the first on.
    Table(&'b [Option<Member<'a>>]),
}

/// A member that is a number, or absent.
pub fn number_member(number: Option<u64>) -> Option<Member<'static>>
    ensures { option_map told result ≡ option_map a_number number }
{
    match number {
        None => None,
        Some(x) => Some(Member::Number(x)),
    }
}

/// Appends an object behind a multiple of eight bytes: its fields, their padding, and what they have
/// out of line. `out` has room.
pub fn put_object(out: &mut Out, fields: &[Field<'_, '_>])
    requires aligned { length out.old.bytes % 8 ≡ 0 }
    requires bytes { length out.old.bytes + length (object_bytes (parts_of fields.now)) ≤ MAX_BYTES }
    requires handles { length out.old.handles + length (parts_of fields.now).handles ≤ MAX_HANDLES }
    ensures bytes { out.new.bytes ≡ out.old.bytes ++ object_bytes (parts_of fields.now) }
    ensures handles { out.new.handles ≡ out.old.handles ++ (parts_of fields.now).handles }
{
    put_all_inline(out, fields);
    out.pad();
    put_all_outside(out, fields);
    put_all_handles(out, fields);
}

/// How many bytes the fields have, without the padding behind them; `None` where a message can't
/// have so many.
pub fn size_of(fields: &[Field<'_, '_>]) -> Option<usize>
    ensures { MatchOption result (MAX_BYTES < 16 + parts_size fields.now) (λ n. (n ≡ parts_size fields.now) × (16 + n ≤ MAX_BYTES)) }
{
    let mut room = MOST_BODY;
    for field in fields {
        room = room_behind(*field, room)?;
    }
    Some(MOST_BODY - room)
}

/// What is left of so many bytes behind a field.
fn room_behind(field: Field<'_, '_>, room: usize) -> Option<usize>
    requires { room ≤ MAX_BYTES }
    ensures { MatchOption result (room < part_size field.entry) (λ left. left + part_size field.entry ≡ room) }
{
    match field {
        Field::Word(_) => room.checked_sub(4),
        Field::Long(_) => room.checked_sub(8),
        Field::Blank => room.checked_sub(4),
        Field::Held(_) => room.checked_sub(4),
        Field::Absent => room.checked_sub(4),
        Field::Bytes(bytes) => {
            if bytes.len() > room {
                return None;
            }
            room.checked_sub(16 + bytes.len() + padding_after(bytes.len()))
        }
        Field::Table(members) => room_behind_table(members, room),
    }
}

/// What is left of so many bytes behind a table.
fn room_behind_table(members: &[Option<Member<'_>>], room: usize) -> Option<usize>
    requires { room ≤ MAX_BYTES }
    ensures { MatchOption result (room < 16 + slots_of (given (all_told members.now))) (λ left. left + (16 + slots_of (given (all_told members.now))) ≡ room) }
{
    let left = room.checked_sub(16)?;
    room_behind_members(&members[..given_count(members)], left)
}

/// What is left of so many bytes behind the envelopes of these members and what they hold.
fn room_behind_members(members: &[Option<Member<'_>>], room: usize) -> Option<usize>
    requires { room ≤ MAX_BYTES }
    ensures { MatchOption result (room < slots_of (all_told members.now)) (λ left. left + slots_of (all_told members.now) ≡ room) }
{
    let mut left = room;
    for member in members {
        left = room_behind_member(*member, left)?;
    }
    Some(left)
}

fn room_behind_member(member: Option<Member<'_>>, room: usize) -> Option<usize>
    requires { room ≤ MAX_BYTES }
    ensures { MatchOption result (room < slot_of (option_map told member.entry)) (λ left. left + slot_of (option_map told member.entry) ≡ room) }
{
    match member {
        None => room.checked_sub(8),
        Some(Member::Number(_)) => room.checked_sub(16),
        Some(Member::Bytes(bytes)) => {
            if bytes.len() > room {
                return None;
            }
            room.checked_sub(24 + bytes.len() + padding_after(bytes.len()))
        }
    }
}

/// How many members there are up to the last that is given.
fn given_count(members: &[Option<Member<'_>>]) -> usize
    ensures bound { result ≤ length members.now }
    ensures given { all_told (take result members.now) ≡ given (all_told members.now) }
{
    let mut count = 0;
    for (i, member) in members.iter().enumerate() {
        if member.is_some() {
            count = i + 1;
        }
    }
    count
}

/// Appends what stands in the object.
fn put_inline(out: &mut Out, field: Field<'_, '_>)
    requires { length out.old.bytes + length (part_of field).inline ≤ MAX_BYTES }
    ensures bytes { out.new.bytes ≡ out.old.bytes ++ (part_of field.entry).inline }
    ensures handles { out.new.handles ≡ out.old.handles }
{
    match field {
        Field::Word(x) => out.put_u32(x),
        Field::Long(x) => out.put_u64(x),
        Field::Blank => out.put_u32(0),
        Field::Held(_) => out.put_u32(u32::MAX),
        Field::Absent => out.put_u32(0),
        Field::Bytes(bytes) => put_count(out, bytes.len()),
        Field::Table(members) => put_count(out, given_count(members)),
    }
}

/// Appends the count of a list that is present.
pub fn put_count(out: &mut Out, count: usize)
    requires { length out.old.bytes + 16 ≤ MAX_BYTES }
    ensures bytes { out.new.bytes ≡ out.old.bytes ++ count_bytes count }
    ensures len { length out.new.bytes ≡ length out.old.bytes + 16 }
    ensures handles { out.new.handles ≡ out.old.handles }
{
    out.put_u64(count as u64);
    out.put_u64(PRESENT);
}

/// Appends what stands out of line.
fn put_outside(out: &mut Out, field: Field<'_, '_>)
    requires aligned { length out.old.bytes % 8 ≡ 0 }
    requires room { length out.old.bytes + length (part_of field).outside ≤ MAX_BYTES }
    ensures bytes { out.new.bytes ≡ out.old.bytes ++ (part_of field.entry).outside }
    ensures handles { out.new.handles ≡ out.old.handles }
{
    match field {
        Field::Bytes(bytes) => put_padded(out, bytes),
        Field::Table(members) => {
            let given = &members[..given_count(members)];
            put_envelopes(out, given);
            put_members(out, given);
        }
        _ => {}
    }
}

/// Appends bytes and the padding behind them.
#[inline(always)]
pub fn put_padded(out: &mut Out, bytes: &[u8])
    requires aligned { length out.old.bytes % 8 ≡ 0 }
    requires room { length out.old.bytes + length (padded_bytes bytes.now) ≤ MAX_BYTES }
    ensures bytes { out.new.bytes ≡ out.old.bytes ++ padded_bytes bytes.now }
    ensures handles { out.new.handles ≡ out.old.handles }
{
    out.put_bytes(bytes);
    out.pad();
}

/// Appends the envelopes of members.
fn put_envelopes(out: &mut Out, members: &[Option<Member<'_>>])
    requires room { length out.old.bytes + length (members_part (all_told members.now)).inline ≤ MAX_BYTES }
    requires held { length (members_part (all_told members.now)).outside ≤ MAX_BYTES }
    ensures bytes { out.new.bytes ≡ out.old.bytes ++ (members_part (all_told members.now)).inline }
    ensures handles { out.new.handles ≡ out.old.handles }
{
    for member in members {
        put_envelope(out, *member);
    }
}

fn put_envelope(out: &mut Out, member: Option<Member<'_>>)
    requires room { length out.old.bytes + length (member_part (option_map told member)).inline ≤ MAX_BYTES }
    requires held { length (member_part (option_map told member)).outside ≤ MAX_BYTES }
    ensures bytes { out.new.bytes ≡ out.old.bytes ++ (member_part (option_map told member.entry)).inline }
    ensures handles { out.new.handles ≡ out.old.handles }
{
    match member {
        None => out.put_u64(0),
        Some(Member::Number(_)) => out.put_u64(NUMBER_SIZE),
        Some(Member::Bytes(bytes)) => {
            out.put_u32((16 + bytes.len() + padding_after(bytes.len())) as u32);
            out.put_u32(0);
        }
    }
}

/// Appends what members hold.
fn put_members(out: &mut Out, members: &[Option<Member<'_>>])
    requires aligned { length out.old.bytes % 8 ≡ 0 }
    requires room { length out.old.bytes + length (members_part (all_told members.now)).outside ≤ MAX_BYTES }
    ensures bytes { out.new.bytes ≡ out.old.bytes ++ (members_part (all_told members.now)).outside }
    ensures handles { out.new.handles ≡ out.old.handles }
{
    for member in members {
        put_member(out, *member);
    }
}

fn put_member(out: &mut Out, member: Option<Member<'_>>)
    requires aligned { length out.old.bytes % 8 ≡ 0 }
    requires room { length out.old.bytes + length (member_part (option_map told member)).outside ≤ MAX_BYTES }
    ensures bytes { out.new.bytes ≡ out.old.bytes ++ (member_part (option_map told member.entry)).outside }
    ensures handles { out.new.handles ≡ out.old.handles }
{
    match member {
        None => {}
        Some(Member::Number(number)) => out.put_u64(number),
        Some(Member::Bytes(bytes)) => put_list(out, bytes),
    }
}

/// Appends a list of bytes: its count, and the bytes with their padding.
fn put_list(out: &mut Out, bytes: &[u8])
    requires aligned { length out.old.bytes % 8 ≡ 0 }
    requires room { length out.old.bytes + length (count_bytes (length bytes.now) ++ padded_bytes bytes.now) ≤ MAX_BYTES }
    ensures bytes { out.new.bytes ≡ out.old.bytes ++ (count_bytes (length bytes.now) ++ padded_bytes bytes.now) }
    ensures handles { out.new.handles ≡ out.old.handles }
{
    put_count(out, bytes.len());
    put_padded(out, bytes);
}

fn put_all_inline(out: &mut Out, fields: &[Field<'_, '_>])
    requires { length out.old.bytes + length (parts_of fields.now).inline ≤ MAX_BYTES }
    ensures bytes { out.new.bytes ≡ out.old.bytes ++ (parts_of fields.now).inline }
    ensures handles { out.new.handles ≡ out.old.handles }
{
    for field in fields {
        put_inline(out, *field);
    }
}

fn put_all_outside(out: &mut Out, fields: &[Field<'_, '_>])
    requires aligned { length out.old.bytes % 8 ≡ 0 }
    requires room { length out.old.bytes + length (parts_of fields.now).outside ≤ MAX_BYTES }
    ensures bytes { out.new.bytes ≡ out.old.bytes ++ (parts_of fields.now).outside }
    ensures handles { out.new.handles ≡ out.old.handles }
{
    for field in fields {
        put_outside(out, *field);
    }
}

fn put_all_handles(out: &mut Out, fields: &[Field<'_, '_>])
    requires { length out.old.handles + length (parts_of fields.now).handles ≤ MAX_HANDLES }
    ensures handles { out.new.handles ≡ out.old.handles ++ (parts_of fields.now).handles }
    ensures bytes { out.new.bytes ≡ out.old.bytes }
{
    for field in fields {
        put_held(out, *field);
    }
}

/// Appends the field's handle, where it has one.
fn put_held(out: &mut Out, field: Field<'_, '_>)
    requires { length out.old.handles + length (part_of field).handles ≤ MAX_HANDLES }
    ensures handles { out.new.handles ≡ out.old.handles ++ (part_of field.entry).handles }
    ensures bytes { out.new.bytes ≡ out.old.bytes }
{
    if let Field::Held(handle) = field {
        out.put_handle(handle);
    }
}
