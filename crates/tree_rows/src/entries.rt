//! Bytes and the entries that they are, as far as whole entries stand in front.

ghost use Rattle.std.specs.Prelude.{◌≤◌};

use dirents::{
    Entries, bytes_have_entries, entries_are_given_in_order, entries_are_read_once,
    written_entries_are_read,
};
use std::alloc::Global;
use std::test::Fail;
use test_rows::{Row, Table, all_hold};

// How the bytes end | the bytes | the first entry's number | its type | its name | the second's | .. | .. | whether none are left
const READ: &[u8] = b"
nothing            | -                                                | -                  | -   | -        | -                  | - | -    | whole
whole              | 01[00*7]01042e                                   | 1                  | 4   | 2e       | -                  | - | -    | whole
two whole          | 01[00*7]01042e0201000000000080020861ff           | 1                  | 4   | 2e       | 0x8000000000000102 | 8 | 61ff | whole
without a name     | 07[00*7]0010                                     | 7                  | 16  | -        | -                  | - | -    | whole
the largest        | [ff*10][61*255]                                  | 0xffffffffffffffff | 255 | [61*255] | -                  | - | -    | whole
cut in the head    | 01[00*7]00                                       | -                  | -   | -        | -                  | - | -    | cut
cut in the name    | 01[00*7]03046162                                 | -                  | -   | -        | -                  | - | -    | cut
one, cut in a head | 01[00*7]01042e02[00*7]                           | 1                  | 4   | 2e       | -                  | - | -    | cut
one, cut in a name | 01[00*7]01042e02[00*7]020861                     | 1                  | 4   | 2e       | -                  | - | -    | cut
two, cut in a name | 01[00*7]01042e02[00*7]01086103[00*7]ff08[63*254] | 1                  | 4   | 2e       | 2                  | 8 | 61   | cut
";

#[derive(Drop)]
struct Read;

// Whether the next entry is the one that stands from a cell on; the last is followed by none.
fn gives(alloc: Global, entries: &mut Entries<'_>, row: &Row<'_>, at: usize) -> bool
    requires { at ≤ 5 }
{
    match (entries.next(), row.number(at)) {
        (Some(entry), Some(ino)) => {
            entry.ino == ino
                && row.number(at + 1) == Some(u64::from(entry.kind))
                && row.has_bytes(alloc, at + 2, entry.name)
        }
        (None, None) => true,
        _ => false,
    }
}

impl Table for Read {
    fn holds(&mut self, alloc: Global, row: &Row<'_>) -> bool {
        let Some(bytes) = row.bytes(alloc, 1) else {
            return false;
        };
        let mut entries = Entries::new(&bytes);
        gives(alloc, &mut entries, row, 2)
            && gives(alloc, &mut entries, row, 5)
            && entries.next().is_none()
            && entries.whole() == row.is(8, "whole")
    }
}

#[test]
fn entries_are_read_as_far_as_they_are_whole(rt: HostRuntime) -> Result<(), Fail> {
    all_hold(rt.alloc(), READ, &mut Read)?;
    bytes_have_entries();
    entries_are_given_in_order();
    entries_are_read_once();
    written_entries_are_read();
    Ok(())
}
