//! Objects in memory whose calls are counted, so that a run can be played once for each call that
//! it makes.

use host_io::{Failed, FileFault, Files, Sink, Source};
use std::alloc::Global;

/// An object, and how many of its calls were made, those that failed too.
#[derive(Drop)]
pub struct Counted<T: Drop> {
    object: T,
    calls: u64,
}

impl<T: Drop> Counted<T> {
    pub fn new(object: T) -> Counted<T> {
        Counted { object, calls: 0 }
    }

    pub fn object(&self) -> &T {
        &self.object
    }

    pub fn calls(&self) -> u64 {
        self.calls
    }
}

impl<F: Files + Drop> Files for Counted<F> {
    ghost told = { λ counted name. F.told counted.object name };

    ghost faults = { λ counted name. F.faults counted.object name };

    ghost overlong = { λ counted name. F.overlong counted.object name };

    ghost reads = { λ name old new. F.reads name old.object new.object };

    fn read_all(&mut self, alloc: Global, name: &str, limit: usize) -> Result<Vec<u8>, FileFault> {
        self.calls = self.calls.saturating_add(1);
        self.object.read_all(alloc, name, limit)
    }
}

impl<S: Source + Drop> Source for Counted<S> {
    ghost left = { λ counted. S.left counted.object };

    ghost last = { λ counted. S.last counted.object };

    ghost faults = { λ counted. S.faults counted.object };

    fn read(&mut self, buffer: &mut [u8]) -> Result<usize, Failed> {
        self.calls = self.calls.saturating_add(1);
        self.object.read(buffer)
    }
}

impl<K: Sink + Drop> Sink for Counted<K> {
    ghost written = { λ counted. K.written counted.object };

    ghost flushed = { λ counted. K.flushed counted.object };

    ghost faults = { λ counted. K.faults counted.object };

    fn write(&mut self, piece: &[u8]) -> Result<usize, Failed> {
        self.calls = self.calls.saturating_add(1);
        self.object.write(piece)
    }

    fn flush(&mut self) -> Result<(), Failed> {
        self.calls = self.calls.saturating_add(1);
        self.object.flush()
    }
}
