//! Plays the files of cases that its arguments name, and says of each how many of them hold. It ends
//! with status 1 where a case doesn't hold, or a file isn't of its form or has no case.
#![tactic(auto)]

use anyhow::{Result, ensure};
use case_player::play_file;
use std::env;

fn main(rt: HostRuntime) -> Result<()> {
    let mut names = env::args(&rt)?;
    let _program = names.next();
    let mut all_hold = true;
    for name in names {
        all_hold &= holds(&rt, &name)?;
    }
    ensure!(all_hold, "not all hold");
    Ok(())
}

/// Whether all cases of a file hold, as it then says.
fn holds(rt: &HostRuntime, name: &str) -> Result<bool> {
    match play_file(rt, name) {
        Ok(tally) => {
            println!(rt; "{name}: {tally}")?;
            Ok(tally.is_whole())
        }
        Err(error) => {
            println!(rt; "{name}: {error}")?;
            Ok(false)
        }
    }
}
