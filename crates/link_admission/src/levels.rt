// Pages by their indexes, in rows, rows of rows, and a row of these. Each row is made when one of its pages is first
// needed, so that scattered numbers take little room, and all that there are no more than their pages.

ghost use Rattle.std.specs.Prelude.{◌≡◌, ◌≢◌, ◌<◌, ◌%◌, ◌/◌, ℕ, OnOk, OnErr, length};
ghost use Rattle.link_admission.specs.Pages.{Puts, in_levels, in_row, in_rows, row_at, unused_page};

use crate::page::Page;
use fidl_names::NoMemory;
use std::alloc::Global;

/// How many pages a row has.
const ROW_LEN: u32 = 128;

/// How many pages all rows of a row of rows have.
const BRANCH_LEN: u32 = 131_072;

/// The page at an index of a row.
fn page_in_row(row: &Vec<Page>, index: u32) -> Page
    ensures { result ≡ in_row row.now.items index }
{
    match row.get(index as usize) {
        Some(page) => *page,
        None => Page::new(),
    }
}

/// The page at an index of a row of rows.
fn page_in_rows(rows: &Vec<Vec<Page>>, index: u32) -> Page
    ensures { result ≡ in_rows rows.now.items index }
{
    match rows.get((index / ROW_LEN) as usize) {
        Some(row) => page_in_row(row, index % ROW_LEN),
        None => Page::new(),
    }
}

/// The page at an index.
pub(crate) fn page_at(levels: &Vec<Vec<Vec<Page>>>, index: u32) -> Page
    ensures { result ≡ in_levels levels.now.items index }
{
    match levels.get((index / BRANCH_LEN) as usize) {
        Some(rows) => page_in_rows(rows, index % BRANCH_LEN),
        None => Page::new(),
    }
}

/// Puts a page in a row.
fn put_in_row(row: &mut Vec<Page>, index: u32, page: Page) -> Result<(), NoMemory>
    requires { index < ROW_LEN }
    ensures put { OnOk result (Puts index page (in_row row.old.items) (in_row row.new.items)) }
    ensures err { OnErr result (row.new.items ≡ row.old.items) }
{
    if index as usize >= row.len() {
        row.resize(ROW_LEN as usize, Page::new())?;
    }
    row[index as usize] = page;
    Ok(())
}

/// Makes rows up to the one at an index, without any page.
fn make_rows<T: Drop>(rows: &mut Vec<Vec<T>>, alloc: Global, index: u32) -> Result<(), NoMemory>
    ensures made { OnOk result (index < length rows.new.items) }
    ensures same { (i : ℕ) → row_at rows.new.items i ≡ row_at rows.old.items i }
{
    for _ in rows.len()..index as usize + 1 {
        rows.push(Vec::new(alloc))?;
    }
    Ok(())
}

/// Puts a page in a row of rows.
fn put_in_rows(
    rows: &mut Vec<Vec<Page>>,
    alloc: Global,
    index: u32,
    page: Page,
) -> Result<(), NoMemory>
    ensures put { OnOk result (Puts index page (in_rows rows.old.items) (in_rows rows.new.items)) }
    ensures err { OnErr result ((k : ℕ) → in_rows rows.new.items k ≡ in_rows rows.old.items k) }
{
    let place = index / ROW_LEN;
    make_rows(rows, alloc, place)?;
    put_in_row(&mut rows[place as usize], index % ROW_LEN, page)
}

/// Puts a page at an index.
pub(crate) fn put_at(
    levels: &mut Vec<Vec<Vec<Page>>>,
    alloc: Global,
    index: u32,
    page: Page,
) -> Result<(), NoMemory>
    ensures put { OnOk result (Puts index page (in_levels levels.old.items) (in_levels levels.new.items)) }
    ensures err { OnErr result ((k : ℕ) → in_levels levels.new.items k ≡ in_levels levels.old.items k) }
{
    let place = index / BRANCH_LEN;
    make_rows(levels, alloc, place)?;
    put_in_rows(&mut levels[place as usize], alloc, index % BRANCH_LEN, page)
}

/// Puts a page in a row in the place of one with used numbers.
fn replace_in_row(row: &mut Vec<Page>, index: u32, page: Page)
    requires { in_row row.old.items index ≢ unused_page }
    ensures { Puts index page (in_row row.old.items) (in_row row.new.items) }
{
    row[index as usize] = page;
}

/// Puts a page in a row of rows in the place of one with used numbers.
fn replace_in_rows(rows: &mut Vec<Vec<Page>>, index: u32, page: Page)
    requires { in_rows rows.old.items index ≢ unused_page }
    ensures { Puts index page (in_rows rows.old.items) (in_rows rows.new.items) }
{
    replace_in_row(&mut rows[(index / ROW_LEN) as usize], index % ROW_LEN, page);
}

/// Puts a page at an index in the place of one with used numbers.
pub(crate) fn replace_at(levels: &mut Vec<Vec<Vec<Page>>>, index: u32, page: Page)
    requires { in_levels levels.old.items index ≢ unused_page }
    ensures { Puts index page (in_levels levels.old.items) (in_levels levels.new.items) }
{
    replace_in_rows(
        &mut levels[(index / BRANCH_LEN) as usize],
        index % BRANCH_LEN,
        page,
    );
}
