ghost use Rattle.std.specs.Prelude.{◌≡◌, ◌+◌, ◌*◌, ◌≤◌, drop, length, nat_le, option_map, Ok, Err, None, IfOk, IfErr, replicate, slice_set};
ghost use Rattle.fidl_wire.specs.Within.{IsPlaced};
ghost use Rattle.fidl_wire.specs.Layout.{has_required, next_kind};
ghost use Rattle.fidl_wire.specs.Reading.{members_at};
ghost use Rattle.fidl_wire.specs.Told.{all_told, told};

use crate::envelopes::member;
use crate::faults::WireFault;
use crate::kinds::{Member, MemberKind};
use crate::reading::Outside;

/// The members of `count` envelopes, the first of them at `first`: what those have that are known
/// and there. The others are passed.
pub fn members<'a>(
    message: &'a [u8],
    kinds: &[MemberKind],
    first: usize,
    count: usize,
    start: Outside,
    values: &mut [Option<Member<'a>>],
) -> Result<Outside, WireFault>
    requires none { all_told values.old ≡ replicate (length kinds.now) None }
    requires envelopes { first + 8 * count ≤ length message.now }
    requires placed { IsPlaced (length message.now) start }
    ensures value { IfOk result (λ rest. members_at kinds.now first count message.now start ≡ Ok (all_told values.new, rest)) }
    ensures fault { IfErr result (λ e. members_at kinds.now first count message.now start ≡ Err e) }
    ensures placed { IfOk result (λ rest. IsPlaced (length message.now) rest) }
    ensures left { IfOk result (λ rest. rest.left ≤ start.left) }
{
    let mut outside = start;
    for i in 0..count {
        let kind = kind_at(kinds, i);
        let (value, rest) = member(message, first + 8 * i, kind, outside)?;
        put(values, i, value);
        outside = rest;
    }
    Ok(outside)
}

/// So many envelopes from a place on lie within the length.
pub fn have_room(first: usize, count: usize, length: usize) -> bool
    requires { first ≤ length }
    ensures { result ≡ nat_le (first + 8 * count) length }
{
    count <= (length - first) / 8
}

/// What the member of that index is.
fn kind_at(kinds: &[MemberKind], i: usize) -> MemberKind
    ensures { result ≡ next_kind (drop i kinds.now) }
{
    if i < kinds.len() {
        return kinds[i];
    }
    MemberKind::Unknown
}

/// Each member that has to be there is.
pub fn has_required(kinds: &[MemberKind], values: &[Option<Member<'_>>]) -> bool
    requires { length kinds.now ≡ length values.now }
    ensures { result ≡ has_required kinds.now (all_told values.now) }
{
    for i in 0..kinds.len() {
        if values[i].is_none() && kinds[i].is_required() {
            return false;
        }
    }
    true
}

/// Sets the member of that index, where the layout speaks of it.
fn put<'a>(values: &mut [Option<Member<'a>>], i: usize, value: Option<Member<'a>>)
    ensures { all_told values.new ≡ slice_set (all_told values.old) i (option_map told value.entry) }
{
    if i < values.len() {
        values[i] = value;
    }
}

/// No member was read yet.
pub fn forget(values: &mut [Option<Member<'_>>])
    ensures { all_told values.new ≡ replicate (length values.old) None }
{
    for value in values.iter_mut() {
        *value = None;
    }
}
