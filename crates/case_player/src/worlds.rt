//! Rows of worlds, with `|` between their cells: a name; what is done; what that answers; how many
//! frames wait behind it; and how many nodes the first server keeps. A world begins anew over each
//! tree file that a line `tree NAME` names. What is done is
//!
//! - `send FRAMES`: each is accepted; `hear FRAMES`: each is heard in mode auto; or `drain`: all
//!   that waits is served. They answer what is written, as `spelling` says bytes;
//! - `turn SERVER N`, which serves at most N, or `pick ENDPOINT`: how many it served, and behind a
//!   space what is written.

use crate::numbers::number;
use crate::outside::tree;
use crate::spelling::{bytes, digits};
use crate::tally::{Tally, is_skipped};
use anyhow::{Context, Result, bail, ensure};
use fidl_wire::Ordinals;
use link_frames::{Mode, Outbox, Reading, Side, frame_at};
use session_start::Start;
use std::alloc::Global;
use tree_file::start_of;
use vfs_world::{Picked, World};

/// How a world takes frames.
#[derive(Clone, Copy)]
enum Way {
    Accept,
    Hear,
}

/// Plays the rows of a text.
pub fn play_worlds(rt: &HostRuntime, text: &str) -> Result<Tally> {
    let mut tally = Tally::new();
    for part in text.split("\ntree ").skip(1) {
        play_world(rt, part, &mut tally)?;
    }
    Ok(tally)
}

/// Plays the rows behind the name of a tree file, by the world over that.
fn play_world(rt: &HostRuntime, part: &str, tally: &mut Tally) -> Result<()> {
    let (name, rows) = part.split_once('\n').context("a world has no rows")?;
    let mut world = begin(rt, name)?;
    play_rows(rt, &mut world, rows, tally)
}

/// Plays the rows of a world.
fn play_rows(rt: &HostRuntime, world: &mut World, rows: &str, tally: &mut Tally) -> Result<()> {
    for line in rows.lines() {
        if !is_skipped(line) {
            let (name, deed, wanted) = cells_in(line).context("a row has too few cells")?;
            tally.count(rt, name, wanted, &came(rt, world, deed)?)?;
        }
    }
    Ok(())
}

fn cells_in(line: &str) -> Option<(&str, &str, &str)> {
    let (name, rest) = line.split_once(" | ")?;
    let (deed, wanted) = rest.split_once(" | ")?;
    Some((name, deed, wanted))
}

/// The world over the tree file of a name.
pub fn begin(rt: &HostRuntime, name: &str) -> Result<World> {
    let text = tree(rt, name)?;
    let start = start_of(rt.alloc(), text.as_bytes());
    let start = start.ok().context("a tree is refused")?;
    world_of(rt.alloc(), &start)
}

fn world_of(alloc: Global, start: &Start) -> Result<World> {
    let ordinals = Ordinals::new().ok().context("ordinals collide")?;
    let world = World::new(alloc, ordinals, start);
    world.ok().context("no memory")
}

/// What comes of a deed, in the way in which rows say it.
fn came(rt: &HostRuntime, world: &mut World, deed: &str) -> Result<String> {
    let alloc = rt.alloc();
    let answer = answer(rt, world, deed)?;
    ensure!(world.servers() > 0, "no server");
    let (waiting, kept) = (world.waiting(), world.kept(0));
    Ok(format!(in alloc; "{answer} | {waiting} | {kept}")?)
}

/// Does what a row says, and tells what that answers and what is written.
fn answer(rt: &HostRuntime, world: &mut World, deed: &str) -> Result<String> {
    let alloc = rt.alloc();
    let mut outbox = Outbox::new(alloc);
    let served = done(rt, world, deed, &mut outbox)?;
    let written = digits(alloc, outbox.as_bytes())?;
    match served {
        Some(served) => Ok(format!(in alloc; "{served} {written}")?),
        None => Ok(written),
    }
}

/// Does what a row says, and tells how many frames a Turn or a Pick served.
fn done(
    rt: &HostRuntime,
    world: &mut World,
    deed: &str,
    outbox: &mut Outbox,
) -> Result<Option<u32>> {
    let (word, said) = deed.split_once(' ').unwrap_or((deed, "-"));
    match word {
        "turn" => Ok(Some(turn(world, said, outbox)?)),
        "pick" => Ok(Some(pick(world, number(said)?, outbox)?)),
        "send" => take(world, &bytes(rt, said)?, Way::Accept, outbox),
        "hear" => take(world, &bytes(rt, said)?, Way::Hear, outbox),
        "drain" => drain(world, outbox),
        _ => bail!("no such deed"),
    }
}

fn turn(world: &mut World, said: &str, outbox: &mut Outbox) -> Result<u32> {
    let (server, most) = said.split_once(' ').context("a turn has no count")?;
    let served = world.turn(number(server)?, number(most)?, outbox);
    served.ok().context("no memory")
}

fn pick(world: &mut World, endpoint: u32, outbox: &mut Outbox) -> Result<u32> {
    let picked = world.pick(endpoint, outbox).ok().context("no memory")?;
    Ok(match picked {
        Picked::Served => 1,
        Picked::Idle => 0,
    })
}

fn drain(world: &mut World, outbox: &mut Outbox) -> Result<Option<u32>> {
    world.drain(outbox).ok().context("no memory")?;
    Ok(None)
}

/// The world takes frames.
fn take(world: &mut World, frames: &[u8], way: Way, outbox: &mut Outbox) -> Result<Option<u32>> {
    let mut rest = frames;
    for _ in 0..frames.len() {
        if rest.is_empty() {
            break;
        }
        let Reading::Whole { frame, size } = frame_at(Side::ToServers, rest) else {
            bail!("no frame");
        };
        ensure!(world.frames() < 1 << 48, "too many frames");
        let taken = match way {
            Way::Accept => world.accept(frame, outbox),
            Way::Hear => world.hear(Mode::Auto, frame, outbox),
        };
        taken.ok().context("no memory")?;
        rest = &rest[size..];
    }
    Ok(None)
}
