// The program `vfs`: it hands its words, the files, its streams and its notes to `run_words`, and ends with the status's number.
#![tactic(auto)]

use host_io::{DirFiles, StdSink, StdSource};
use run_status::words_of;
use std::process::ExitCode;
use vfs_program::run_words;

fn main(rt: HostRuntime) -> ExitCode {
    let words = match words_of(&rt) {
        Ok(words) => words,
        Err(fault) => return ExitCode::from(fault.exit_code()),
    };
    let mut files = DirFiles::new(&rt);
    let mut source = StdSource::new(rt.stdin());
    let mut sink = StdSink::new(rt.stdout());
    let mut notes = StdSink::new(rt.stderr());
    let status = run_words(
        rt.alloc(),
        words.as_slice(),
        &mut files,
        &mut source,
        &mut sink,
        &mut notes,
    );
    ExitCode::from(status.exit_code())
}
