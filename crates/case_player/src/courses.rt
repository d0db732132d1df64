//! Courses of runs, frame by frame. A part that begins with `== NAME` has lines of these forms:
//!
//! - `words WORDS`: the words of the runs;
//! - `held BYTES` and `script BYTES`: the files `held` and `input`, empty where nothing is said;
//! - `hears BYTES`: the next frame of the input;
//! - `writes BYTES`: what is written for it, or before any frame;
//! - `owes BYTES`: what an end of the input there would write behind that;
//! - `fails each call`: it is played for each beginning of its input too, and with each call
//!   failing once.
//!
//! Each is played whole in several cuts.

use crate::outside::{Failing, Given, Outside, Sizes, outside_of, run};
use crate::spelling::{bytes, digits};
use crate::tally::{Tally, is_skipped};
use anyhow::{Context, Result, bail};
use std::alloc::Global;

/// The most bytes of a read and of a write, where each call fails once.
const CUTS: [(usize, usize); 2] = [(36, 50), (100_000, 13)];

/// The most bytes of a read, where nothing fails.
const PIECES: [usize; 5] = [1, 7, 13, 36, 100_000];

/// All at once.
const WHOLE: Sizes = Sizes {
    read: 100_000,
    room: 100_000,
    write: 100_000,
};

/// Where a course stands behind some frames: how many bytes these have, how many bytes are written
/// for them, and what an end would add.
#[derive(Drop)]
struct Stand {
    taken: usize,
    written: usize,
    owed: Vec<u8>,
}

/// A course, with its whole input, the whole output but for what ends would add, and whether each
/// of its calls fails once.
#[derive(Drop)]
struct Course<'a> {
    name: &'a str,
    words: &'a str,
    held: Vec<u8>,
    script: Vec<u8>,
    input: Vec<u8>,
    output: Vec<u8>,
    stands: Vec<Stand>,
    fails: bool,
}

/// How a run has to end: what it may write at most, how many bytes of that it writes at least, and
/// its note with its status.
#[derive(Drop)]
struct Wanted {
    output: Vec<u8>,
    least: usize,
    end: String,
}

/// What came of a run: what it had outside, and its note with its status.
#[derive(Drop)]
struct Run {
    outside: Outside,
    end: String,
}

/// Plays the courses of a text.
pub fn play_courses(rt: &HostRuntime, text: &str) -> Result<Tally> {
    let mut tally = Tally::new();
    for part in text.split("\n== ").skip(1) {
        let course = course_in(rt, part)?;
        course.play(rt, &mut tally)?;
    }
    Ok(tally)
}

fn course_in<'a>(rt: &HostRuntime, part: &'a str) -> Result<Course<'a>> {
    let (name, lines) = part.split_once('\n').context("a course has no lines")?;
    let mut course = begun(rt.alloc(), name)?;
    for line in lines.lines() {
        if !is_skipped(line) {
            course.say(rt, line)?;
        }
    }
    Ok(course)
}

/// A course of which nothing is said yet.
fn begun(alloc: Global, name: &str) -> Result<Course<'_>> {
    let mut stands = Vec::new(alloc);
    stands.push(Stand {
        taken: 0,
        written: 0,
        owed: Vec::new(alloc),
    })?;
    Ok(Course {
        name,
        words: "-",
        held: Vec::new(alloc),
        script: Vec::new(alloc),
        input: Vec::new(alloc),
        output: Vec::new(alloc),
        stands,
        fails: false,
    })
}

impl<'a> Course<'a> {
    /// Says more of it.
    fn say(&mut self, rt: &HostRuntime, line: &'a str) -> Result<()> {
        let (form, said) = line.split_once(' ').context("a line of a course ends")?;
        if form == "words" {
            self.words = said;
            return Ok(());
        }
        if line == "fails each call" {
            self.fails = true;
            return Ok(());
        }
        let said = bytes(rt, said)?;
        match form {
            "held" => self.held = said,
            "script" => self.script = said,
            "hears" => self.hear(rt.alloc(), &said)?,
            "writes" => self.write(&said)?,
            "owes" => self.owe(said)?,
            _ => bail!("no line of a course"),
        }
        Ok(())
    }

    fn hear(&mut self, alloc: Global, frame: &[u8]) -> Result<()> {
        self.input.extend_from_slice(frame)?;
        self.stands.push(Stand {
            taken: self.input.len(),
            written: self.output.len(),
            owed: Vec::new(alloc),
        })?;
        Ok(())
    }

    fn write(&mut self, bytes: &[u8]) -> Result<()> {
        self.output.extend_from_slice(bytes)?;
        let written = self.output.len();
        let here = self.stands.last_mut().context("a course stands nowhere")?;
        here.written = written;
        Ok(())
    }

    fn owe(&mut self, bytes: Vec<u8>) -> Result<()> {
        let here = self.stands.last_mut().context("a course stands nowhere")?;
        here.owed = bytes;
        Ok(())
    }
}

/// What is written.
impl Course<'_> {
    /// Where it stands behind the whole frames of the first so many bytes.
    fn stand_at(&self, len: usize) -> Result<&Stand> {
        let mut here = self.stands.first().context("a course stands nowhere")?;
        for stand in self.stands.iter() {
            if stand.taken <= len {
                here = stand;
            }
        }
        Ok(here)
    }

    /// What is written for these frames, without what an end adds.
    fn so_far(&self, alloc: Global, len: usize) -> Result<Vec<u8>> {
        let written = self.stand_at(len)?.written;
        let front = self.output.get(..written).context("a course is no list")?;
        Ok(Vec::from_slice(alloc, front)?)
    }

    /// The same with it.
    fn by_end(&self, alloc: Global, len: usize) -> Result<Vec<u8>> {
        let mut output = self.so_far(alloc, len)?;
        output.extend_from_slice(&self.stand_at(len)?.owed)?;
        Ok(output)
    }

    /// How a run ends whose input has so many bytes.
    fn wanted_at_end(&self, alloc: Global, len: usize) -> Result<Wanted> {
        let output = self.by_end(alloc, len)?;
        let at = self.stand_at(len)?.taken;
        let end = if at == len {
            String::from_str(alloc, "- | 0")?
        } else {
            format!(in alloc; "input ends inside the frame at {at} | 7")?
        };
        Ok(Wanted {
            least: output.len(),
            output,
            end,
        })
    }

    /// How a run ends that took so many bytes before a read failed.
    fn wanted_at_read(&self, alloc: Global, len: usize) -> Result<Wanted> {
        let output = self.so_far(alloc, len)?;
        Ok(Wanted {
            least: output.len(),
            output,
            end: String::from_str(alloc, "read failed | 3")?,
        })
    }

    /// How a run ends whose output failed behind so many reads of at most `read` bytes: what was
    /// owed before the last of them is written, and nothing is that isn't owed.
    fn wanted_at_write(&self, alloc: Global, reads: u64, read: usize) -> Result<Wanted> {
        let early = taken_by(reads.saturating_sub(1), read);
        let output = if early >= self.input.len() {
            self.by_end(alloc, self.input.len())?
        } else {
            self.so_far(alloc, taken_by(reads, read))?
        };
        Ok(Wanted {
            output,
            least: self.stand_at(early)?.written,
            end: String::from_str(alloc, "write failed | 4")?,
        })
    }
}

/// The runs.
impl Course<'_> {
    fn play(&self, rt: &HostRuntime, tally: &mut Tally) -> Result<()> {
        for read in PIECES {
            self.play_beginning(rt, self.input.len(), read, tally)?;
        }
        if self.fails {
            for len in 0..self.input.len() {
                self.play_beginning(rt, len, WHOLE.read, tally)?;
            }
            for (read, write) in CUTS {
                let sizes = Sizes {
                    read,
                    write,
                    ..WHOLE
                };
                self.play_faults(rt, sizes, tally)?;
            }
        }
        Ok(())
    }

    /// So many bytes of the input, by pieces of one size.
    fn play_beginning(
        &self,
        rt: &HostRuntime,
        len: usize,
        read: usize,
        tally: &mut Tally,
    ) -> Result<()> {
        let sizes = Sizes { read, ..WHOLE };
        let run = self.run(rt, len, sizes, Failing::none())?;
        let wanted = self.wanted_at_end(rt.alloc(), len)?;
        let what = format!(in rt.alloc(); "{len} bytes by {read}")?;
        self.judge(rt, tally, &what, &run, &wanted)
    }

    /// Each call that a run makes fails once.
    fn play_faults(&self, rt: &HostRuntime, sizes: Sizes, tally: &mut Tally) -> Result<()> {
        let run = self.run(rt, self.input.len(), sizes, Failing::none())?;
        for call in 0..run.outside.files.calls() {
            self.play_file_fault(rt, sizes, call, tally)?;
        }
        for call in 0..run.outside.source.calls() {
            self.play_read_fault(rt, sizes, call, tally)?;
        }
        for call in 0..run.outside.sink.calls() {
            self.play_write_fault(rt, sizes, call, tally)?;
        }
        Ok(())
    }

    fn play_file_fault(
        &self,
        rt: &HostRuntime,
        sizes: Sizes,
        call: u64,
        tally: &mut Tally,
    ) -> Result<()> {
        let failing = Failing {
            file: Some(call),
            ..Failing::none()
        };
        let run = self.run(rt, self.input.len(), sizes, failing)?;
        let wanted = Wanted {
            output: Vec::new(rt.alloc()),
            least: 0,
            end: String::from_str(rt.alloc(), "file failed | 5")?,
        };
        let what = format!(in rt.alloc(); "file {call} fails, by {}", sizes.read)?;
        self.judge(rt, tally, &what, &run, &wanted)
    }

    fn play_read_fault(
        &self,
        rt: &HostRuntime,
        sizes: Sizes,
        call: u64,
        tally: &mut Tally,
    ) -> Result<()> {
        let failing = Failing {
            read: Some(call),
            ..Failing::none()
        };
        let run = self.run(rt, self.input.len(), sizes, failing)?;
        let wanted = self.wanted_at_read(rt.alloc(), taken_by(call, sizes.read))?;
        let what = format!(in rt.alloc(); "read {call} fails, by {}", sizes.read)?;
        self.judge(rt, tally, &what, &run, &wanted)
    }

    /// A write or a flush fails.
    fn play_write_fault(
        &self,
        rt: &HostRuntime,
        sizes: Sizes,
        call: u64,
        tally: &mut Tally,
    ) -> Result<()> {
        let failing = Failing {
            write: Some(call),
            ..Failing::none()
        };
        let run = self.run(rt, self.input.len(), sizes, failing)?;
        let wanted = self.wanted_at_write(rt.alloc(), run.outside.source.calls(), sizes.read)?;
        let what = format!(in rt.alloc(); "call {call} of the sink fails, by {}", sizes.read)?;
        self.judge(rt, tally, &what, &run, &wanted)
    }

    /// One run over the first so many bytes of the input.
    fn run(&self, rt: &HostRuntime, len: usize, sizes: Sizes, failing: Failing) -> Result<Run> {
        let source = self.input.get(..len).context("an input is too short")?;
        let given = Given {
            held: &self.held,
            input: &self.script,
            source,
        };
        let outside = outside_of(rt.alloc(), given, sizes, failing);
        let mut outside = outside.ok().context("no memory")?;
        let status = run(rt.alloc(), self.words, &mut outside)?;
        let end = outside.end(rt.alloc(), status)?;
        Ok(Run { outside, end })
    }

    /// Counts a run, which holds where it ends as wanted.
    fn judge(
        &self,
        rt: &HostRuntime,
        tally: &mut Tally,
        what: &str,
        run: &Run,
        wanted: &Wanted,
    ) -> Result<()> {
        let alloc = rt.alloc();
        let output = run.outside.output();
        let is_wanted = wanted.output.starts_with(output) && wanted.least <= output.len();
        let meant = if is_wanted { output } else { &wanted.output };
        let wanted = format!(in alloc; "{} | {}", digits(alloc, meant)?, wanted.end)?;
        let came = format!(in alloc; "{} | {}", digits(alloc, output)?, run.end)?;
        let name = format!(in alloc; "{}, {what}", self.name)?;
        tally.count(rt, &name, &wanted, &came)
    }
}

/// How many bytes so many reads of at most `read` bytes take.
fn taken_by(reads: u64, read: usize) -> usize {
    usize::try_from(reads)
        .unwrap_or(usize::MAX)
        .saturating_mul(read)
}
