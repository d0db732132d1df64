//! What reads and writes of pieces and reads of files answer in memory, and which calls of the system's streams are tried again.
ghost use Rattle.std.specs.Prelude.{◌≡◌, ◌++◌, OnOk};

use host_io::{
    Failed, Files, MemFiles, MemSink, MemSource, Sink, Source, StdSink, StdSource, write_whole,
};
use std::alloc::Global;
use std::io;
use std::io::{ErrorKind, Read, Write};
use std::test::Fail;
use test_rows::{Row, Table, all_hold};

/// A name, and
///
/// - `reads`, the pieces of a source of "hello", the read that fails, and what four reads into four bytes answer, each with these bytes;
/// - `writes`, a sink's room, its pieces and the call that fails; what a write of "hello", a flush, and two more writes of "hello" answer; and
///   what is written then; or `wholes`, the same with two writes of "hello" that are whole;
/// - `file`, a file's name, the most bytes and what is read, where `a` holds "hello", `b` nothing, and the read of number 3 fails;
/// - `source` or `sink`, and what two reads, or two writes of "hello" and two flushes, of a stream with interrupted calls answer.
const ROWS: &[u8] = b"
a read for all | reads | 9 | 9 | [(Ok(4), 'hell'), (Ok(1), x'6f[00*3]'), (Ok(0), x'[00*4]'), (Ok(0), x'[00*4]')]
pieces of two | reads | 2 | 1 | [(Ok(2), x'6865[00*2]'), (Err(Failed), x'[00*4]'), (Ok(2), x'6c6c[00*2]'), (Ok(1), x'6f[00*3]')]
pieces of three | reads | 3 | 2 | [(Ok(3), x'68656c00'), (Ok(2), x'6c6f[00*2]'), (Err(Failed), x'[00*4]'), (Ok(0), x'[00*4]')]
pieces of one | reads | 0 | 0 | [(Err(Failed), x'[00*4]'), (Ok(1), x'68[00*3]'), (Ok(1), x'65[00*3]'), (Ok(1), x'6c[00*3]')]
a write for all | writes | 15 | 9 | 9 | (Ok(5), Ok(()), Ok(5), Ok(5)) | 'hellohellohello'
writes of two | writes | 15 | 2 | 1 | (Ok(2), Err(Failed), Ok(2), Ok(2)) | 'hehehe'
a write that fails | writes | 7 | 9 | 0 | (Err(Failed), Ok(()), Ok(5), Ok(2)) | 'hellohe'
a write of one | writes | 1 | 0 | 9 | (Ok(1), Ok(()), Err(Failed), Err(Failed)) | 'h'
no room for all | wholes | 8 | 3 | - | (Ok(()), Err(Failed)) | 'hellohel'
all of a file | file | a | 5 | Ok('hello')
too many bytes | file | a | 4 | Err(TooLarge)
an empty file | file | b | 0 | Ok([])
a read that fails | file | b | 5 | Err(Failed)
no such file | file | c | 5 | Err(Failed)
more than a file has | file | a | 9 | Ok('hello')
interrupted reads | source | (Ok(3), Err(Failed))
interrupted writes | sink | (Ok(2), Err(Failed), Ok(()), Err(Failed))
";

#[derive(Drop)]
struct Streams {
    files: MemFiles,
}

impl Table for Streams {
    fn holds(&mut self, alloc: Global, row: &Row<'_>) -> bool {
        if row.is(1, "reads") {
            are_reads(alloc, row)
        } else if row.is(1, "writes") || row.is(1, "wholes") {
            are_writes(alloc, row)
        } else if row.is(1, "file") {
            is_read(alloc, row, &mut self.files)
        } else if row.is(1, "source") {
            is_source(alloc, row)
        } else {
            row.is(1, "sink") && is_sink(alloc, row)
        }
    }
}

fn size(row: &Row<'_>, at: usize) -> Option<usize> {
    match row.number(at) {
        Some(number) => Some(number as usize),
        None => None,
    }
}

/// What a read into four bytes answers, and these bytes.
fn read(source: &mut MemSource) -> (Result<usize, Failed>, [u8; 4]) {
    let mut buffer = [0; 4];
    let answer = source.read(&mut buffer);
    (answer, buffer)
}

fn are_reads(alloc: Global, row: &Row<'_>) -> bool {
    let Some(piece) = size(row, 2) else {
        return false;
    };
    let Some(failing) = row.numbers(alloc, 3) else {
        return false;
    };
    let Ok(bytes) = b"hello".to_vec(alloc) else {
        return false;
    };
    let mut source = MemSource::new(bytes, piece, failing);
    let answers = [
        read(&mut source),
        read(&mut source),
        read(&mut source),
        read(&mut source),
    ];
    row.says(alloc, 4, &answers)
}

// What a generic call says of the sink's bytes, the sink itself tells.
fn append(sink: &mut MemSink, bytes: &[u8]) -> Result<(), Failed>
    ensures { OnOk result (sink.new.written ≡ sink.old.written ++ bytes.now) }
{
    write_whole(sink, bytes)
}

/// The sink of a row. Nothing for want of memory.
fn sink_of(alloc: Global, row: &Row<'_>) -> Option<MemSink> {
    let (Some(room), Some(piece)) = (size(row, 2), size(row, 3)) else {
        return None;
    };
    let failing = row.numbers(alloc, 4)?;
    MemSink::new(alloc, room, piece, failing).ok()
}

fn are_writes(alloc: Global, row: &Row<'_>) -> bool {
    match sink_of(alloc, row) {
        Some(mut sink) => are_taken(alloc, row, &mut sink) && row.says(alloc, 6, &sink.written()),
        None => false,
    }
}

fn are_taken(alloc: Global, row: &Row<'_>, sink: &mut MemSink) -> bool {
    if row.is(1, "wholes") {
        let (first, second) = (append(sink, b"hello"), append(sink, b"hello"));
        return row.says(alloc, 5, &(first, second));
    }
    let (first, flush) = (sink.write(b"hello"), sink.flush());
    let (second, third) = (sink.write(b"hello"), sink.write(b"hello"));
    row.says(alloc, 5, &(first, flush, second, third))
}

/// Nothing for want of memory.
fn put_files(files: &mut MemFiles) -> Option<()> {
    files.put("a", b"in place of this").ok()?;
    files.put("b", b"").ok()?;
    files.put("a", b"hello").ok()?;
    files.fail_at(3).ok()
}

fn is_read(alloc: Global, row: &Row<'_>, files: &mut MemFiles) -> bool {
    match (row.cell(2), size(row, 3)) {
        (Some(name), Some(limit)) => row.says(alloc, 4, &files.read_all(alloc, name, limit)),
        _ => false,
    }
}

// A stream whose calls answer these in turn, the last first, and then fail.
#[derive(Drop)]
struct Answers(Vec<Option<usize>>);

impl Answers {
    fn next(&mut self) -> io::Result<usize> {
        match self.0.pop() {
            Some(Some(n)) => Ok(n),
            Some(None) => Err(io::Error::from(ErrorKind::Interrupted)),
            None => Err(io::Error::from(ErrorKind::BrokenPipe)),
        }
    }
}

impl Read for Answers {
    fn read(&mut self, buffer: &mut [u8]) -> io::Result<usize> {
        let n = self.next()?;
        Ok(n.min(buffer.len()))
    }
}

impl Write for Answers {
    fn write(&mut self, piece: &[u8]) -> io::Result<usize> {
        let n = self.next()?;
        Ok(n.min(piece.len()))
    }

    fn flush(&mut self) -> io::Result<()> {
        self.next()?;
        Ok(())
    }
}

fn is_source(alloc: Global, row: &Row<'_>) -> bool {
    let Ok(answers) = [Some(3), None, None].to_vec(alloc) else {
        return false;
    };
    let mut buffer = [0; 4];
    let mut source = StdSource::new(Answers(answers));
    let (first, second) = (source.read(&mut buffer), source.read(&mut buffer));
    row.says(alloc, 2, &(first, second))
}

fn is_sink(alloc: Global, row: &Row<'_>) -> bool {
    let Ok(answers) = [Some(1), None, Some(0), Some(2), None].to_vec(alloc) else {
        return false;
    };
    let mut sink = StdSink::new(Answers(answers));
    let (first, second) = (sink.write(b"hello"), sink.write(b"hello"));
    let (third, fourth) = (sink.flush(), sink.flush());
    row.says(alloc, 2, &(first, second, third, fourth))
}

#[test]
fn streams_answer_as_their_rows_say(rt: HostRuntime) -> Result<(), Fail> {
    let mut files = MemFiles::new(rt.alloc());
    assert!(rt; put_files(&mut files).is_some());
    all_hold(rt.alloc(), ROWS, &mut Streams { files })
}
