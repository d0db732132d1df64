//! The words of a process, and how it ends without them: for the `main` of any program.

ghost use Rattle.std.specs.Prelude.{◌≡◌};
ghost use Rattle.run_status.specs.Notes.{exit_without};

use std::env;
use std::io::ErrorKind;
use std::rt::Env;

/// Why the words of a process can't be had.
#[derive(Clone, Copy)]
pub enum NoWords {
    /// They aren't UTF-8, or the system doesn't tell them.
    NotText,
    NoMemory,
}

impl NoWords {
    /// The exit status of the process.
    pub fn exit_code(&self) -> u8
        ensures { result ≡ exit_without self.now }
    {
        match self {
            NoWords::NotText => 12,
            NoWords::NoMemory => 10,
        }
    }
}

/// The words of the process behind the program's name.
pub fn words_of<R: Env + AllocGlobal>(rt: &R) -> Result<Vec<String>, NoWords> {
    let mut words = match env::args(rt) {
        Ok(words) => words,
        Err(error) if error.kind() == ErrorKind::OutOfMemory => return Err(NoWords::NoMemory),
        Err(_) => return Err(NoWords::NotText),
    };
    let _name = words.next();
    match words.collect(rt.alloc()) {
        Ok(words) => Ok(words),
        Err(_) => Err(NoWords::NoMemory),
    }
}
