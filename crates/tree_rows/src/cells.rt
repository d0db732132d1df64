//! What the cells of rows say, and words that say nothing.
use std::alloc::Global;
use std::test::Fail;
use test_rows::{Row, Table, all_hold};

/// A name, how a word is read, the word, and what it is read as.
const CELLS: &[u8] = b"
# a note
a number | number | 31 | Some(31)
  in hexadecimal digits|number|0x1f|Some(31)

the largest | number | 18446744073709551615 | Some(18446744073709551615)
another number | not | 1 | Some(2)
no number | number | - | None
no digit | number | 0x | None
too large | number | 18446744073709551616 | None
below zero | number | -1 | None
numbers | numbers | 1,0x10,3 | Some([1, 16, 3])
no numbers | numbers | - | Some([])
nothing between commas | numbers | 1,,2 | None
no word | numbers | | None
bytes, and a run | bytes | 0aff[61*3]00 | Some(x'0aff[61*3]00')
bytes as their list | bytes | 6869 | Some([104, 105])
bytes as a text | bytes | 6869 | Some('hi')
no bytes | bytes | - | Some([])
half a byte | bytes | 0 | None
no digits of a byte | bytes | 0g | None
a run without a number | bytes | [61] | None
a run without its end | bytes | [61*2 | None
";

#[derive(Drop)]
struct Cells;

impl Table for Cells {
    fn holds(&mut self, alloc: Global, row: &Row<'_>) -> bool {
        if row.is(1, "number") {
            row.says(alloc, 3, &row.number(2))
        } else if row.is(1, "not") {
            !row.says(alloc, 3, &row.number(2))
        } else if row.is(1, "numbers") {
            row.says(alloc, 3, &row.numbers(alloc, 2))
        } else {
            row.is(1, "bytes") && row.says(alloc, 3, &row.bytes(alloc, 2))
        }
    }
}

#[test]
fn cells_are_read(rt: HostRuntime) -> Result<(), Fail> {
    all_hold(rt.alloc(), CELLS, &mut Cells)
}
