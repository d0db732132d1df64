// How all numbers of endpoints stand, kept by pages of numbers that follow one another. The pages of low numbers, which
// clients mostly pick, stand in one row, and all others in rows of rows: none is searched for.

ghost use Rattle.std.specs.Prelude.{◌≡◌, ◌/◌, ◌<◌, ◌⊎◌, ℕ, None, IsSome, OnOk, OnErr, length, unwrap_or};
ghost use Rattle.link_admission.specs.Tables.{value_at, ChangesAt};
ghost use Rattle.link_admission.specs.Pages.{Gives, in_far, in_near, noted};

use crate::kinds::Standing;
use crate::levels::{page_at, put_at, replace_at};
use crate::page::{PAGE_LEN, Page, page_of};
use fidl_names::NoMemory;
use std::alloc::Global;
use std::marker::Model;

/// Numbers below this one are near. Their pages take at most 64 KiB.
const NEAR: u32 = 131_072;

/// How a near number stands.
fn at_near(near: &Vec<Page>, number: u32) -> Standing
    ensures { result ≡ in_near near.now.items number }
{
    match near.get(page_of(number) as usize) {
        Some(page) => page.at(number),
        None => Standing::Unused,
    }
}

/// How a far number stands.
fn at_far(far: &Vec<Vec<Vec<Page>>>, number: u32) -> Standing
    ensures { result ≡ in_far far.now.items number }
{
    page_at(far, page_of(number)).at(number)
}

/// Gives a near number a standing.
fn put_near(near: &mut Vec<Page>, number: u32, standing: Standing) -> Result<(), NoMemory>
    ensures put { OnOk result (Gives number standing (in_near near.old.items) (in_near near.new.items)) }
    ensures err { OnErr result (near.new.items ≡ near.old.items) }
{
    let index = page_of(number) as usize;
    if index >= near.len() {
        near.resize(index + 1, Page::new())?;
    }
    replace_near(near, number, standing);
    Ok(())
}

/// Gives a far number a standing.
fn put_far(
    far: &mut Vec<Vec<Vec<Page>>>,
    alloc: Global,
    number: u32,
    standing: Standing,
) -> Result<(), NoMemory>
    ensures put { OnOk result (Gives number standing (in_far far.old.items) (in_far far.new.items)) }
    ensures err { OnErr result ((q : ℕ) → in_far far.new.items q ≡ in_far far.old.items q) }
{
    let index = page_of(number);
    let mut page = page_at(far, index);
    page.replace(number, standing);
    put_at(far, alloc, index, page)
}

/// Gives a near number that has a page another standing, or forgets any, and gives back how it stood.
fn replace_near(near: &mut Vec<Page>, number: u32, standing: Standing) -> Standing
    requires known { (number / PAGE_LEN < length near.old.items) ⊎ (standing ≡ Standing.Unused) }
    ensures was { result ≡ in_near near.old.items number }
    ensures is { Gives number standing (in_near near.old.items) (in_near near.new.items) }
{
    let index = page_of(number) as usize;
    if index >= near.len() {
        return Standing::Unused;
    }
    let mut page = near[index];
    let was = page.replace(number, standing);
    near[index] = page;
    was
}

/// Gives a far number that was used another standing, or forgets any, and gives back how it stood.
fn replace_far(far: &mut Vec<Vec<Vec<Page>>>, number: u32, standing: Standing) -> Standing
    requires known { IsSome (noted (in_far far.old.items number)) ⊎ (standing ≡ Standing.Unused) }
    ensures was { result ≡ in_far far.old.items number }
    ensures is { Gives number standing (in_far far.old.items) (in_far far.new.items) }
{
    let index = page_of(number);
    let mut page = page_at(far, index);
    if page.is_unused() {
        return Standing::Unused;
    }
    let was = page.replace(number, standing);
    replace_at(far, index, page);
    was
}

/// The standings of all numbers that were used.
#[derive(Drop)]
pub(crate) struct Pages {
    alloc: Global,
    near: Vec<Page>,
    far: Vec<Vec<Vec<Page>>>,
}

impl Model for Pages {
    ghost use Rattle.std.specs.Coded.{coded_ℕ};
    ghost use Rattle.std.specs.Prelude.{◌^◌};
    ghost use Rattle.std.specs.FinMap as map;
    ghost use Rattle.link_admission.specs.Standings.{standing_code};
    ghost use Rattle.link_admission.specs.declared.kinds.Standing.{Standing};
    ghost use Rattle.link_admission.specs.Tables.{Table};
    ghost use Rattle.link_admission.specs.Pages.{noted_below, in_pages};

    ghost Value = { Table Standing };

    ghost coded = { map.code coded_ℕ standing_code };

    ghost view = { λ p. noted_below (in_pages p.near.items p.far.items) (2 ^ 32) };
}

impl Pages {
    pub(crate) fn new(alloc: Global) -> Pages
        ensures { (q : ℕ) → value_at result q ≡ None }
    {
        Pages {
            alloc,
            near: Vec::new(alloc),
            far: Vec::new(alloc),
        }
    }

    /// The standing of a number.
    pub(crate) fn at(&self, number: u32) -> Standing
        ensures { result ≡ unwrap_or (value_at self.now number) Standing.Unused }
    {
        if number < NEAR {
            return at_near(&self.near, number);
        }
        at_far(&self.far, number)
    }

    /// Gives any number a standing.
    pub(crate) fn put(&mut self, number: u32, standing: Standing) -> Result<(), NoMemory>
        ensures put { OnOk result (ChangesAt number (noted standing) self.old self.new) }
        ensures err { OnErr result (self.new ≡ self.old) }
    {
        if number < NEAR {
            return put_near(&mut self.near, number, standing);
        }
        put_far(&mut self.far, self.alloc, number, standing)
    }

    /// Gives a number that was used another standing, or forgets any number, and gives back how it stood.
    pub(crate) fn replace(&mut self, number: u32, standing: Standing) -> Standing
        requires known { IsSome (value_at self.old number) ⊎ (standing ≡ Standing.Unused) }
        ensures was { result ≡ unwrap_or (value_at self.old number) Standing.Unused }
        ensures is { ChangesAt number (noted standing) self.old self.new }
    {
        if number < NEAR {
            return replace_near(&mut self.near, number, standing);
        }
        replace_far(&mut self.far, number, standing)
    }
}
