//! Rows of worlds that are spent where memory is wanting, with `|` between their cells: a name, a
//! tree file's name, and frames. A world over that hears the frames in mode auto. Where it answers
//! that memory is wanting, each further call has to answer that it is spent, and to leave what was
//! written, what waits and how many nodes are kept. With ample memory all frames are heard, and the
//! row holds too.

use crate::spelling::{bytes, digits};
use crate::tally::{Tally, is_skipped};
use crate::worlds::begin;
use anyhow::{Context, Result, bail, ensure};
use link_frames::{Mode, Outbox, Reading, Side, frame_at};
use vfs_world::{World, WorldFault};

/// Plays the rows of a text.
pub fn play_spent(rt: &HostRuntime, text: &str) -> Result<Tally> {
    let mut tally = Tally::new();
    for line in text.lines() {
        if !is_skipped(line) {
            let (name, rest) = line.split_once(" | ").context("a row has no tree")?;
            let (tree, frames) = rest.split_once(" | ").context("a row has no frames")?;
            let mut world = begin(rt, tree)?;
            let frames = bytes(rt, frames)?;
            let came = heard(rt, &mut world, &frames)?;
            tally.count(rt, name, "holds", came)?;
        }
    }
    Ok(tally)
}

/// The world hears frames, up to one for which memory is wanting.
fn heard(rt: &HostRuntime, world: &mut World, frames: &[u8]) -> Result<&'static str> {
    let mut outbox = Outbox::new(rt.alloc());
    let mut rest = frames;
    for _ in 0..frames.len() {
        if rest.is_empty() {
            break;
        }
        let Reading::Whole { frame, size } = frame_at(Side::ToServers, rest) else {
            bail!("no frame");
        };
        ensure!(world.frames() < 1 << 48, "too many frames");
        let begun = outbox.len();
        match world.hear(Mode::Auto, frame, &mut outbox) {
            Ok(()) => rest = &rest[size..],
            Err(WorldFault::Spent) => return Ok("a world is spent too early"),
            Err(WorldFault::NoMemory) if outbox.len() != begun => return Ok("a part is written"),
            Err(WorldFault::NoMemory) => return stays(rt, world, rest, &mut outbox),
        }
    }
    Ok("holds")
}

/// Whether each call answers that the world is spent, and changes nothing.
fn stays(
    rt: &HostRuntime,
    world: &mut World,
    frames: &[u8],
    outbox: &mut Outbox,
) -> Result<&'static str> {
    let before = state(rt, world, outbox)?;
    for call in 0..5 {
        if !is_spent(world, call, frames, outbox)? {
            return Ok("a call answers something else");
        }
        if state(rt, world, outbox)? != before {
            return Ok("a call changes something");
        }
    }
    Ok("holds")
}

/// Whether a call answers that the world is spent.
fn is_spent(world: &mut World, call: u32, frames: &[u8], outbox: &mut Outbox) -> Result<bool> {
    let Reading::Whole { frame, .. } = frame_at(Side::ToServers, frames) else {
        bail!("no frame");
    };
    ensure!(world.frames() < 1 << 48, "too many frames");
    let fault = match call {
        0 => world.hear(Mode::Auto, frame, outbox).err(),
        1 => world.accept(frame, outbox).err(),
        2 => world.turn(0, 1, outbox).err(),
        3 => world.pick(1, outbox).err(),
        _ => world.drain(outbox).err(),
    };
    Ok(matches!(fault, Some(WorldFault::Spent)))
}

/// What is written, how many frames wait, and how many nodes the first server keeps.
fn state(rt: &HostRuntime, world: &World, outbox: &Outbox) -> Result<String> {
    let alloc = rt.alloc();
    ensure!(world.servers() > 0, "no server");
    let (waiting, kept) = (world.waiting(), world.kept(0));
    let written = digits(alloc, outbox.as_bytes())?;
    Ok(format!(in alloc; "{written} | {waiting} | {kept}")?)
}
