// The program `frames`: it hands its words, the files, standard output and its notes to `frames_words`, and ends with the status's number.
#![tactic(auto)]

use frames_program::frames_words;
use host_io::{DirFiles, StdSink};
use run_status::words_of;
use std::process::ExitCode;

fn main(rt: HostRuntime) -> ExitCode {
    let words = match words_of(&rt) {
        Ok(words) => words,
        Err(fault) => return ExitCode::from(fault.exit_code()),
    };
    let mut files = DirFiles::new(&rt);
    let mut sink = StdSink::new(rt.stdout());
    let mut notes = StdSink::new(rt.stderr());
    let status = frames_words(
        rt.alloc(),
        words.as_slice(),
        &mut files,
        &mut sink,
        &mut notes,
    );
    ExitCode::from(status.exit_code())
}
