ghost use Rattle.std.specs.Prelude.{◌≡◌, map, IfOk};
ghost use Rattle.path_walk.specs.Paths.{text_of};

use fidl_names::NoMemory;
use std::alloc::Global;
use std::marker::Model;

/// Where a path leads: over which endpoint, and by which path from there.
#[derive(Drop)]
pub struct Resolved {
    pub endpoint: u32,
    pub rest: PathText,
}

/// A path of `fuchsia.io`. Contracts see it as its bytes.
#[derive(Drop)]
pub struct PathText {
    bytes: Vec<u8>,
}

impl Model for PathText {
    ghost use Rattle.std.specs.Prelude.{List, ℕ};

    ghost Value = { List ℕ };

    ghost view = { λ p. p.bytes.items };
}

impl PathText {
    /// The bytes.
    pub fn as_bytes(&self) -> &[u8]
        ensures { result.now ≡ self.now }
    {
        &self.bytes
    }

    // The path of these steps: `.` for none, else the steps joined by `/`.
    pub(crate) fn of(alloc: Global, steps: &[&[u8]]) -> Result<PathText, NoMemory>
        ensures { IfOk result (λ path. path ≡ text_of (map (λ step. step.now) steps.now)) }
    {
        let mut bytes = Vec::new(alloc);
        if steps.is_empty() {
            bytes.push(b'.')?;
            return Ok(PathText { bytes });
        }
        bytes.extend_from_slice(steps[0])?;
        for i in 1..steps.len() {
            bytes.push(b'/')?;
            bytes.extend_from_slice(steps[i])?;
        }
        Ok(PathText { bytes })
    }
}
