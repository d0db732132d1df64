//! Words of flags: the faults of those that are refused, what others are granted, and the words that go on.
use io_flags::{OpenFlags, forwarded, grant, laws_of_flags, words_are_sets};
use io_rights::{Rights, read_rights};
use std::alloc::Global;
use std::test::Fail;
use test_rows::{Row, Table, all_hold};

// A fault | words that have it
const FAULTY: &[u8] = b"
UnknownBit    | 0x200,0x400,0x800,0x1000,0x8000,0x10000,0x80000000,0x2000000000,0x8000000000,0x80000000000,0x400000000000,0x800000000000,0x2000000000000,0x8000000000000000,0xffffffffffffffff,0x30800000200
BothCreate    | 0x30800000000,0x30000000000,0x70000000000,0x31000000000
Unsupported   | 0x1000000000,0x40000000000,0x40800000000,0x11000000000,0x50000000000,0x1200000000
CreateKind    | 0x10000000000,0x20000000000,0x10c00000000,0x20100000000,0x20200000000,0x10a00000000,0x110100000000
FileFlags     | 0x110400000000,0x100400000000,0x200400000004,0x100200000000,0x100100000000,0x200400000000,0x100600000000
TruncateRight | 0x200000000000,0x200800000000,0x200000002002,0x220800000000,0x200a00000000
NodeAlone     | 0x600000000,0xa00000000,0x300000000,0x100a00000000
";

// A word | the connection's rights | the masks | what is granted | the word that goes on
const GRANTED: &[u8] = b"
0x0             | crwxguetm | crwxguetm | -         | 0x0
0x6             | crwxguetm | crwxguetm | rw        | 0x6
0x6             | crwxguetm | rg        | none      | 0x6
0x6             | rg        | crwxguetm | none      | 0x6
0x2             | rw        | rx        | r         | 0x2
0x1ff           | crwxguetm | crwxguetm | crwxguetm | 0x1ff
0x2             | crwxguetm | -         | none      | 0x2
0x0             | -         | -         | -         | 0x0
0x2002          | crwxguetm | crwxguetm | rwum      | 0x2002
0x2002          | crwxguetm | rg        | r         | 0x2
0x2002          | crwxguetm | rwu       | r         | 0x2
0x2002          | crwxguetm | rwm       | r         | 0x2
0x2002          | crwxguetm | rum       | r         | 0x2
0x2002          | rwu       | rwum      | r         | 0x2
0x2000          | wum       | wum       | wum       | 0x2000
0x2000          | crwxguetm | wum       | wum       | 0x2000
0x4002          | crwxguetm | crwxguetm | rx        | 0x4002
0x4002          | crwxguetm | rwum      | r         | 0x2
0x4000          | x         | x         | x         | 0x4000
0x4000          | x         | -         | -         | 0x0
0x6002          | crwxguetm | crwxguetm | rwxum     | 0x6002
0x6002          | crwxguetm | rx        | rx        | 0x4002
0x6002          | crwxguetm | rwum      | rwum      | 0x2002
0x6002          | crwxguetm | rget      | r         | 0x2
0x2004          | crwxguetm | rwu       | w         | 0x4
0x2004          | crwxguetm | rg        | none      | 0x4
0x200000000     | crwxguetm | crwxguetm | -         | 0x200000000
0x200000010     | crwxguetm | crwxguetm | g         | 0x200000010
0x200000012     | crwxguetm | crwxguetm | g         | 0x200000012
0x200000002     | crwxguetm | crwxguetm | -         | 0x200000002
0x200000012     | crwxguetm | g         | none      | 0x200000012
0x200002010     | crwxguetm | crwxguetm | g         | 0x200002010
0x200002000     | crwxguetm | rw        | -         | 0x200000000
0x20800000006   | crwxguetm | crwxguetm | rw        | 0x20800000006
0x20800002002   | crwxguetm | rw        | r         | 0x20800000002
0x1000400006002 | crwxguetm | wxum      | none      | 0x1000400006002
0x1100800004002 | crwxguetm | r         | r         | 0x1100800000002
";

#[derive(Drop)]
struct Faulty;

impl Table for Faulty {
    fn holds(&mut self, alloc: Global, row: &Row<'_>) -> bool {
        let Some(words) = row.numbers(alloc, 1) else {
            return false;
        };
        for word in &words {
            match OpenFlags::check(*word) {
                Err(fault) if row.says(alloc, 0, &fault) => {}
                _ => return false,
            }
        }
        true
    }
}

#[derive(Drop)]
struct Granted;

// The rights of a cell.
fn rights(row: &Row<'_>, at: usize) -> Option<Rights> {
    read_rights(row.cell(at)?.as_bytes())
}

// Whether a word is granted what the row says, and goes on as it says.
fn is_granted(row: &Row<'_>, word: u64, have: Rights, masks: Rights) -> bool {
    match OpenFlags::check(word) {
        Ok(flags) => {
            grant(flags, have, masks) == rights(row, 3)
                && row.number(4) == Some(forwarded(flags, have, masks).word())
        }
        Err(_) => false,
    }
}

impl Table for Granted {
    fn holds(&mut self, _: Global, row: &Row<'_>) -> bool {
        match (row.number(0), rights(row, 1), rights(row, 2)) {
            (Some(word), Some(have), Some(masks)) => is_granted(row, word, have, masks),
            _ => false,
        }
    }
}

#[test]
fn words_have_their_faults_and_rights(rt: HostRuntime) -> Result<(), Fail> {
    all_hold(rt.alloc(), FAULTY, &mut Faulty)?;
    all_hold(rt.alloc(), GRANTED, &mut Granted)?;
    laws_of_flags();
    words_are_sets();
    Ok(())
}
