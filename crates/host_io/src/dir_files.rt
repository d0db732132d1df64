ghost use Rattle.std.specs.Prelude.{◌≡◌, ◌≤◌, vec_len, IfOk};
ghost use Rattle.host_io.specs.Causes.{NeverFalls, Rose};
ghost use Rattle.host_io.specs.FileCounts.{IsOneRead, after_read};
ghost use Rattle.host_io.specs.Told.{Untold};
ghost use Rattle.host_io.specs.declared.files.FileFault.TheVariants as fault;

use crate::files::{FileFault, Files};
use std::alloc::Global;
use std::fs::File;
use std::io::{ErrorKind, Read};
use std::marker::Model;
use std::{io, rt};

/// Files of the system, whose names are paths from the working directory. It tells no bytes. A
/// contract sees its counts, which are one for all names.
#[derive(Drop)]
pub struct DirFiles<R: rt::Files> {
    system: R,
    faults: u64,
    overlong: u64,
}

impl<R: rt::Files> Model for DirFiles<R> {
    ghost use Rattle.host_io.specs.FileCounts.{FileCounts};

    ghost Value = { FileCounts };

    ghost view = { λ f. record { faults = f.faults; overlong = f.overlong } };
}

impl<R: rt::Files> DirFiles<R> {
    pub fn new(system: R) -> DirFiles<R>
        ensures { result ≡ record { faults = 0; overlong = 0 } }
    {
        DirFiles {
            system,
            faults: 0,
            overlong: 0,
        }
    }
}

impl<R: rt::Files> Files for DirFiles<R> {
    ghost told = { λ f name. Untold };

    ghost faults = { λ f name. f.faults };

    ghost overlong = { λ f name. f.overlong };

    ghost reads = { λ name old new. IsOneRead old new };

    /// Reads at most one byte more than the limit. A directory is a failure.
    fn read_all(&mut self, alloc: Global, name: &str, limit: usize) -> Result<Vec<u8>, FileFault>
        ensures bound { IfOk result (λ bytes. vec_len bytes ≤ limit) }
        ensures once { IsOneRead self.old self.new }

        ensures faults_stay { NeverFalls (λ _. self.old.faults) (λ _. self.new.faults) }
        ensures overlong_stays { NeverFalls (λ _. self.old.overlong) (λ _. self.new.overlong) }

        ensures failed { result ≡ Err fault.Failed → Rose self.old.faults self.new.faults }
        ensures too_large { result ≡ Err fault.TooLarge → Rose self.old.overlong self.new.overlong }

        ensures counted { self.new ≡ after_read result self.old }
    {
        let result = read_at_most(&self.system, alloc, name, limit);
        match &result {
            Err(FileFault::Failed) => self.faults = self.faults.saturating_add(1),
            Err(FileFault::TooLarge) => self.overlong = self.overlong.saturating_add(1),
            _ => {}
        }
        result
    }
}

fn read_at_most<R: rt::Files>(
    system: &R,
    alloc: Global,
    name: &str,
    limit: usize,
) -> Result<Vec<u8>, FileFault>
    ensures { IfOk result (λ bytes. vec_len bytes ≤ limit) }
{
    let file = File::open(system, name).map_err(fault_of)?;
    let mut bytes = Vec::new(alloc);
    file.take((limit as u64).saturating_add(1))
        .read_to_end(&mut bytes)
        .map_err(fault_of)?;
    if bytes.len() > limit {
        return Err(FileFault::TooLarge);
    }
    Ok(bytes)
}

fn fault_of(error: io::Error) -> FileFault {
    match error.kind() {
        ErrorKind::OutOfMemory => FileFault::NoMemory,
        _ => FileFault::Failed,
    }
}
