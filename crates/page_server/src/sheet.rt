//! The pages of a sheet of a disk in memory. They lie in rows, so that none is moved when another comes.
ghost use Rattle.std.specs.Prelude.{◌≡◌, ◌<◌, ◌≤◌, [], length, map, OnOk, OnErr, option_copied};
ghost use Rattle.page_server.specs.Disk.{written};
ghost use Rattle.page_server.specs.Sheets.{in_row, lying};

use std::alloc::{AllocError, Global};
use std::marker::Model;

/// How many slots that are neighbours have their rows in one sheet. So many first rows have the first pages of
/// their processes.
pub const NEIGHBOURS: u32 = 64;

// How many pages a row has.
const ROW: usize = 8;

/// Pages by their places in a sheet.
#[derive(Drop)]
pub struct Sheet {
    rows: Vec<Vec<Option<[u8; 256]>>>,
}

impl Model for Sheet {
    ghost use Rattle.std.specs.Prelude.{map};
    ghost use Rattle.page_server.specs.Sheets.{Rows};

    ghost Value = { Rows };

    ghost view = { λ s. map (λ r. r.items) s.rows.items };
}

impl Sheet {
    /// No pages. Takes no memory.
    pub fn new(alloc: Global) -> Self
        ensures { result ≡ [] }
    {
        Sheet {
            rows: Vec::new(alloc),
        }
    }

    /// Puts a page in its place. After want of memory every page is as it was.
    pub fn put(&mut self, at: u32, page: &[u8; 256]) -> Result<(), AllocError>
        ensures ok { OnOk result (lying self.new ≡ written (lying self.old) at page.now) }
        ensures err { OnErr result (lying self.new ≡ lying self.old) }
    {
        let at = at as usize;
        let row = at / ROW;
        make_row(&mut self.rows, row)?;
        put_in_row(&mut self.rows[row], at % ROW, room_of(row), page)
    }

    /// The page in a place.
    pub fn get(&self, at: u32) -> Option<&[u8; 256]>
        ensures { option_copied result ≡ lying self.now at }
    {
        let at = at as usize;
        match self.rows.get(at / ROW) {
            Some(row) => page_in_row(row, at % ROW),
            None => None,
        }
    }
}

// Makes the rows up to this one. They take no memory before they have a page.
fn make_row(rows: &mut Vec<Vec<Option<[u8; 256]>>>, row: usize) -> Result<(), AllocError>
    ensures there { OnOk result (row < length rows.new.items) }
    ensures same { lying (map (λ r. r.items) rows.new.items) ≡ lying (map (λ r. r.items) rows.old.items) }
{
    while rows.len() <= row {
        let alloc = *rows.allocator();
        rows.push(Vec::new(alloc))?;
    }
    Ok(())
}

// The room that a row takes at its first page. A process may have one page and no more; one that has more than
// eight may have many.
fn room_of(row: usize) -> usize {
    if row < NEIGHBOURS as usize { 1 } else { ROW }
}

fn put_in_row(
    row: &mut Vec<Option<[u8; 256]>>,
    at: usize,
    room: usize,
    page: &[u8; 256],
) -> Result<(), AllocError>
    requires { at < 8 }
    ensures ok { OnOk result (in_row row.new.items ≡ written (in_row row.old.items) at page.now) }
    ensures err { OnErr result (in_row row.new.items ≡ in_row row.old.items) }
{
    match row.get_mut(at) {
        Some(place) => {
            *place = Some(*page);
            Ok(())
        }
        None => add_to_row(row, at, room, page),
    }
}

// Puts a page behind those of a row.
fn add_to_row(
    row: &mut Vec<Option<[u8; 256]>>,
    at: usize,
    room: usize,
    page: &[u8; 256],
) -> Result<(), AllocError>
    requires number { at < 8 }
    requires behind { length row.old.items ≤ at }
    ensures ok { OnOk result (in_row row.new.items ≡ written (in_row row.old.items) at page.now) }
    ensures err { OnErr result (in_row row.new.items ≡ in_row row.old.items) }
{
    make_room(row, room)?;
    row.resize(at, None)?;
    row.push(Some(*page))?;
    Ok(())
}

// Takes this room, if the row has no page.
fn make_room(row: &mut Vec<Option<[u8; 256]>>, room: usize) -> Result<(), AllocError>
    ensures { row.new.items ≡ row.old.items }
{
    if row.is_empty() {
        row.reserve_exact(room)?;
    }
    Ok(())
}

fn page_in_row(row: &[Option<[u8; 256]>], at: usize) -> Option<&[u8; 256]>
    ensures { option_copied result ≡ in_row row.now at }
{
    match row.get(at) {
        Some(Some(page)) => Some(page),
        _ => None,
    }
}
