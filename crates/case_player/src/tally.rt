use anyhow::Result;
use std::fmt;

/// How many rows of a file hold, and how many don't. It is shown as `N hold`, or `N hold, M
/// differ`.
#[derive(Clone, Copy)]
pub struct Tally {
    hold: u32,
    differ: u32,
}

impl Tally {
    pub fn new() -> Tally {
        Tally { hold: 0, differ: 0 }
    }

    /// Whether there is a row, and all hold.
    pub fn is_whole(&self) -> bool {
        self.hold > 0 && self.differ == 0
    }

    /// Counts a row. Where it doesn't hold, that is told.
    pub fn count(&mut self, rt: &HostRuntime, name: &str, wanted: &str, came: &str) -> Result<()> {
        if came == wanted {
            self.hold = self.hold.saturating_add(1);
            return Ok(());
        }
        self.differ = self.differ.saturating_add(1);
        println!(rt; "{name}\n    wanted {wanted}\n    came   {came}")?;
        Ok(())
    }
}

impl fmt::Display for Tally {
    fn fmt<W: fmt::Write>(&self, f: &mut fmt::Formatter<W>) -> fmt::Result {
        match self.differ {
            0 => write!(f, "{} hold", self.hold),
            differ => write!(f, "{} hold, {differ} differ", self.hold),
        }
    }
}

/// Whether a line says nothing: it is empty, or begins with `#`.
pub fn is_skipped(line: &str) -> bool {
    line.is_empty() || line.starts_with('#')
}
