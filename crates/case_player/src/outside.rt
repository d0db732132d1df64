use crate::counted::Counted;
use anyhow::{Context, Result};
use fidl_names::NoMemory;
use host_io::{MemFiles, MemSink, MemSource};
use run_status::Status;
use std::alloc::Global;
use std::fs;
use vfs_program::run_words;

const USAGE: &str =
    "usage: vfs file NAME | serve TREE auto | serve TREE given | run TREE SCRIPT | check TREE | show | make N";

/// The call of a file, a read, and a write or a flush that fails, counted from 0, if one does.
#[derive(Clone, Copy)]
pub struct Failing {
    pub file: Option<u64>,
    pub read: Option<u64>,
    pub write: Option<u64>,
}

impl Failing {
    pub fn none() -> Failing {
        Failing {
            file: None,
            read: None,
            write: None,
        }
    }
}

/// The most bytes of a read, how many bytes may be written, and the most of a write.
#[derive(Clone, Copy)]
pub struct Sizes {
    pub read: usize,
    pub room: usize,
    pub write: usize,
}

/// What is given to a run: the files `held` and `input`, and what its reads give.
#[derive(Clone, Copy)]
pub struct Given<'a> {
    pub held: &'a [u8],
    pub input: &'a [u8],
    pub source: &'a [u8],
}

/// What a run has outside, in memory: its files, its input, and where its output and its note go.
#[derive(Drop)]
pub struct Outside {
    pub files: Counted<MemFiles>,
    pub source: Counted<MemSource>,
    pub sink: Counted<MemSink>,
    notes: MemSink,
}

impl Outside {
    /// The output.
    pub fn output(&self) -> &[u8] {
        self.sink.object().written()
    }

    /// How a run with this status ended: its note, `-` for none, and its exit status.
    pub fn end(&self, alloc: Global, status: Status) -> Result<String> {
        let note = match str::from_utf8(self.notes.written())?.trim() {
            "" => "-",
            USAGE => "usage",
            note => note,
        };
        Ok(format!(in alloc; "{note} | {}", status.exit_code())?)
    }
}

fn files_of(alloc: Global, given: Given<'_>, failing: Option<u64>) -> Result<MemFiles, NoMemory> {
    let mut files = MemFiles::new(alloc);
    files.put("held", given.held)?;
    files.put("input", given.input)?;
    if let Some(call) = failing {
        files.fail_at(call)?;
    }
    Ok(files)
}

fn source_of(
    alloc: Global,
    bytes: &[u8],
    size: usize,
    failing: Option<u64>,
) -> Result<MemSource, NoMemory> {
    let failing = list_of(alloc, failing)?;
    Ok(MemSource::new(Vec::from_slice(alloc, bytes)?, size, failing))
}

fn sink_of(alloc: Global, sizes: Sizes, failing: Option<u64>) -> Result<MemSink, NoMemory> {
    let failing = list_of(alloc, failing)?;
    Ok(MemSink::new(alloc, sizes.room, sizes.write, failing)?)
}

fn list_of(alloc: Global, number: Option<u64>) -> Result<Vec<u64>, NoMemory> {
    let mut list = Vec::new(alloc);
    if let Some(number) = number {
        list.push(number)?;
    }
    Ok(list)
}

/// What a run has outside as it begins.
pub fn outside_of(
    alloc: Global,
    given: Given<'_>,
    sizes: Sizes,
    failing: Failing,
) -> Result<Outside, NoMemory> {
    let notes = MemSink::new(alloc, 1000, 1000, Vec::new(alloc))?;
    let sink = sink_of(alloc, sizes, failing.write)?;
    let source = source_of(alloc, given.source, sizes.read, failing.read)?;
    let files = files_of(alloc, given, failing.file)?;
    Ok(Outside {
        files: Counted::new(files),
        source: Counted::new(source),
        sink: Counted::new(sink),
        notes,
    })
}

/// The words of a text with spaces between them, where `-` says none.
fn words_in(alloc: Global, text: &str) -> Result<Vec<String>> {
    let mut words = Vec::new(alloc);
    for word in text.split(' ') {
        if word != "-" {
            words.push(String::from_str(alloc, word)?)?;
        }
    }
    Ok(words)
}

/// Runs the program on words. What it wrote is in what was outside.
pub fn run(alloc: Global, words: &str, outside: &mut Outside) -> Result<Status> {
    let words = words_in(alloc, words)?;
    Ok(run_words(
        alloc,
        &words,
        &mut outside.files,
        &mut outside.source,
        &mut outside.sink,
        &mut outside.notes,
    ))
}

/// The tree file of a name.
pub fn tree(rt: &HostRuntime, name: &str) -> Result<String> {
    let path = format!(in rt.alloc(); "trees/{name}.toml")?;
    fs::read_to_string(rt, path.as_str()).context("a tree file can't be read")
}
