ghost use Rattle.std.specs.Prelude.{◌≡◌, ◌+◌, ◌-◌, ◌==◌, ◌≤◌, ◌%◌, length, nat_le, max, option_map, Ok, Err, Some, IfOk, IfErr, OnOk};
ghost use Rattle.fidl_wire.specs.Numbers.{padded};
ghost use Rattle.fidl_wire.specs.Within.{IsPlaced};
ghost use Rattle.fidl_wire.specs.Reading.{bytes_at, handles_at, flags_at, is_absent, is_inlined, is_outside, enough_handles, entered, skipped, number_member, bytes_member, member_at};
ghost use Rattle.fidl_wire.specs.Layout.{a_number, a_vector};
ghost use Rattle.fidl_wire.specs.Told.{told};

use crate::cursor::Body;
use crate::faults::{WireFault, WireWhat};
use crate::kinds::{Member, MemberKind};
use crate::padding::padding_after;
use crate::reading::Outside;
use fidl_names::{u16_at, u32_at, u64_at};

/// The bytes that the envelope at a place counts.
pub fn bytes_at(message: &[u8], at: usize) -> usize
    requires { at + 8 ≤ length message.now }
    ensures { result ≡ bytes_at at message.now }
{
    u32_at(message, at) as usize
}

/// The handles that it counts.
pub fn handles_at(message: &[u8], at: usize) -> usize
    requires { at + 8 ≤ length message.now }
    ensures { result ≡ handles_at at message.now }
{
    u16_at(message, at + 4) as usize
}

fn flags_at(message: &[u8], at: usize) -> u16
    requires { at + 8 ≤ length message.now }
    ensures { result ≡ flags_at at message.now }
{
    u16_at(message, at + 6)
}

fn is_absent(message: &[u8], at: usize) -> bool
    requires { at + 8 ≤ length message.now }
    ensures { result ≡ is_absent at message.now }
{
    u64_at(message, at) == 0
}

/// Its value stands in its first four bytes.
pub fn is_inlined(message: &[u8], at: usize) -> bool
    requires { at + 8 ≤ length message.now }
    ensures { result ≡ is_inlined at message.now }
{
    flags_at(message, at) == 1
}

fn has_no_flag(message: &[u8], at: usize) -> bool
    requires { at + 8 ≤ length message.now }
    ensures { result ≡ (flags_at at message.now == 0) }
{
    flags_at(message, at) == 0
}

/// Its value stands out of line.
fn is_outside(message: &[u8], at: usize) -> bool
    requires { at + 8 ≤ length message.now }
    ensures { result ≡ is_outside at message.now }
{
    let bytes = bytes_at(message, at);
    has_no_flag(message, at) && bytes != 0 && bytes % 8 == 0
}

/// As many handles are left as it counts.
pub fn check_handles(message: &[u8], at: usize, outside: Outside) -> Result<(), WireFault>
    requires { at + 8 ≤ length message.now }
    ensures { result ≡ enough_handles at message.now outside }
{
    if handles_at(message, at) > outside.left {
        return Err(WireFault::new(at, WireWhat::Handles));
    }
    Ok(())
}

/// The bytes that it counts, and an object of so many bytes with its padding, lie within so many.
fn has_room(bytes: usize, size: usize, room: usize) -> bool
    ensures { result ≡ nat_le (max bytes (padded size)) room }
{
    bytes <= room && size <= room && padding_after(size) <= room - size
}

/// The tests of an envelope whose value, of at least `size` bytes, stands out of line.
pub fn enter(message: &[u8], at: usize, size: usize, outside: Outside) -> Result<(), WireFault>
    requires envelope { at + 8 ≤ length message.now }
    requires within { outside.out ≤ length message.now }
    ensures value { result ≡ entered at size message.now outside }
    ensures room { OnOk result (outside.out + padded size ≤ length message.now) }
{
    if !is_outside(message, at) {
        return Err(WireFault::new(at, WireWhat::Envelope));
    }
    let room = message.len() - outside.out;
    if !has_room(bytes_at(message, at), size, room) {
        return Err(WireFault::new(at, WireWhat::Envelope));
    }
    check_handles(message, at, outside)
}

/// How many of so many handles are left behind those that the envelope at a place counts.
fn left_behind(message: &[u8], at: usize, left: usize) -> usize
    requires envelope { at + 8 ≤ length message.now }
    requires enough { handles_at at message.now ≤ left }
    ensures { result ≡ left - handles_at at message.now }
{
    left - handles_at(message, at)
}

/// Passes a member by its counts.
fn skip(message: &[u8], at: usize, outside: Outside) -> Result<Outside, WireFault>
    requires envelope { at + 8 ≤ length message.now }
    requires placed { IsPlaced (length message.now) outside }
    ensures value { result ≡ skipped at message.now outside }
    ensures placed { IfOk result (λ rest. IsPlaced (length message.now) rest) }
    ensures left { IfOk result (λ rest. rest.left ≤ outside.left) }
{
    if is_inlined(message, at) {
        check_handles(message, at, outside)?;
        return Ok(Outside {
            out: outside.out,
            left: left_behind(message, at, outside.left),
        });
    }
    enter(message, at, 0, outside)?;
    Ok(Outside {
        out: outside.out + bytes_at(message, at),
        left: left_behind(message, at, outside.left),
    })
}

/// A member that is a number of eight bytes.
fn number(message: &[u8], at: usize, outside: Outside) -> Result<(u64, Outside), WireFault>
    requires envelope { at + 8 ≤ length message.now }
    requires placed { IsPlaced (length message.now) outside }
    ensures value { IfOk result (λ r. number_member at message.now outside ≡ Ok (Some (a_number r.0), r.1)) }
    ensures fault { IfErr result (λ e. number_member at message.now outside ≡ Err e) }
    ensures placed { IfOk result (λ r. IsPlaced (length message.now) r.1) }
    ensures left { IfOk result (λ r. r.1.left ≤ outside.left) }
{
    enter(message, at, 8, outside)?;
    if bytes_at(message, at) != 8 || handles_at(message, at) != 0 {
        return Err(WireFault::new(at, WireWhat::Envelope));
    }
    let value = u64_at(message, outside.out);
    Ok((
        value,
        Outside {
            out: outside.out + 8,
            left: outside.left,
        },
    ))
}

/// A member that is a vector of bytes: the part of the message that has them.
fn bytes<'a>(
    message: &'a [u8],
    at: usize,
    outside: Outside,
) -> Result<(&'a [u8], Outside), WireFault>
    requires envelope { at + 8 ≤ length message.now }
    requires placed { IsPlaced (length message.now) outside }
    ensures value { IfOk result (λ r. bytes_member at message.now outside ≡ Ok (Some (a_vector r.0.now), r.1)) }
    ensures fault { IfErr result (λ e. bytes_member at message.now outside ≡ Err e) }
    ensures placed { IfOk result (λ r. IsPlaced (length message.now) r.1) }
    ensures left { IfOk result (λ r. r.1.left ≤ outside.left) }
{
    enter(message, at, 16, outside)?;
    let (part, out) = Body::list_at(message, outside.out)?;
    if outside.out + bytes_at(message, at) != out || handles_at(message, at) != 0 {
        return Err(WireFault::new(at, WireWhat::Envelope));
    }
    Ok((
        part,
        Outside {
            out,
            left: outside.left,
        },
    ))
}

/// The member in the envelope at a place: what it has where it is known and there.
#[tactic(auto, unfolding(crate::specs::Reading::member_at))]
pub fn member<'a>(
    message: &'a [u8],
    at: usize,
    kind: MemberKind,
    outside: Outside,
) -> Result<(Option<Member<'a>>, Outside), WireFault>
    requires envelope { at + 8 ≤ length message.now }
    requires placed { IsPlaced (length message.now) outside }
    ensures value { IfOk result (λ r. member_at kind at message.now outside ≡ Ok (option_map told r.0, r.1)) }
    ensures fault { IfErr result (λ e. member_at kind at message.now outside ≡ Err e) }
    ensures placed { IfOk result (λ r. IsPlaced (length message.now) r.1) }
    ensures left { IfOk result (λ r. r.1.left ≤ outside.left) }
{
    if is_absent(message, at) {
        return Ok((None, outside));
    }
    match kind {
        MemberKind::Unknown => Ok((None, skip(message, at, outside)?)),
        MemberKind::Number { .. } => {
            let (value, rest) = number(message, at, outside)?;
            Ok((Some(Member::Number(value)), rest))
        }
        MemberKind::Bytes { .. } => {
            let (part, rest) = bytes(message, at, outside)?;
            Ok((Some(Member::Bytes(part)), rest))
        }
    }
}
