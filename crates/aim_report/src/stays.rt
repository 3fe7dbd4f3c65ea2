//! The lines of the tiles on which a driver was.

ghost use Rattle.std.specs.Prelude.{◌≡◌, ◌++◌, ◌∷◌, [], List, map, OnOk, IfOk};
ghost use Rattle.aim_messages.specs.Texts.{spaced};
ghost use Rattle.aim_messages.specs.Writing.{added};
ghost use Rattle.aim_geometry.specs.Cells as rules;
ghost use Rattle.aim_safety.specs.Tiles.{EntersBy, cell_of};
ghost use Rattle.aim_report.specs.Stays.{goes_on, stay_of, stays, stays_after, stays_behind};
ghost use Rattle.aim_report.specs.Reports.{stay_line, stay_lines, stay_words, tile_lines};

use crate::NoMemory;
use aim_driver::LogItem;
use aim_layout::Layout;
use aim_messages::{Entry, Text};
use aim_safety::{Cell, occupied};
use std::alloc::Global;

/// The longest run of neighbouring steps in which a driver is on a tile: `first` and `last` are steps.
#[derive(Clone, Copy)]
pub struct Stay {
    pub row: u8,
    pub col: u8,
    pub first: u32,
    pub last: u32,
}

impl Stay {
    // The stay of a single step.
    fn of(cell: &Cell) -> Stay
        ensures { result ≡ stay_of (cell_of cell.now) }
    {
        Stay {
            row: cell.row,
            col: cell.col,
            first: cell.step,
            last: cell.step,
        }
    }

    // Whether the cell is the same tile in the next step.
    fn goes_on(&self, cell: &Cell) -> bool
        ensures { result ≡ goes_on self.now (cell_of cell.now) }
    {
        self.row == cell.row && self.col == cell.col && cell.step.checked_sub(1) == Some(self.last)
    }
}

// Adds the words of a stay.
fn put_words(text: &mut Text, vehicle: u32, stay: &Stay)
    requires { text.old ≡ [] }
    ensures { text.new ≡ added [] (stay_words vehicle stay.now) }
{
    text.word(b"tiles");
    text.number(vehicle);
    text.number(stay.row);
    text.number(stay.col);
    text.number(stay.first);
    text.number(stay.last);
}

// Appends the text of a stay.
fn put_text(out: &mut Vec<u8>, vehicle: u32, stay: &Stay) -> Result<(), NoMemory>
    ensures { OnOk result (out.new.items ≡ out.old.items ++ spaced (stay_words vehicle stay.now)) }
{
    let mut text = Text::new();
    put_words(&mut text, vehicle, stay);
    out.extend_from_slice(text.line())
}

// Appends the line of a stay.
fn put_stay(out: &mut Vec<u8>, vehicle: u32, stay: &Stay) -> Result<(), NoMemory>
    ensures { OnOk result (out.new.items ≡ out.old.items ++ stay_line vehicle stay.now) }
{
    put_text(out, vehicle, stay)?;
    Ok(out.push(b'\n')?)
}

// Appends the line of the stay so far where the cell doesn't go on with it, and gives the stay that has the cell.
fn put_next(
    out: &mut Vec<u8>,
    vehicle: u32,
    stay: Option<Stay>,
    cell: &Cell,
) -> Result<Stay, NoMemory>
    ensures { IfOk result (λ next. (cells : List rules.Cell) →
        out.new.items ++ stay_lines vehicle (stays_after next cells) ≡
        out.old.items ++ stay_lines vehicle (stays_behind stay (cell_of cell.now ∷ cells))) }
{
    match stay {
        None => Ok(Stay::of(cell)),
        Some(stay) if stay.goes_on(cell) => Ok(Stay {
            last: cell.step,
            ..stay
        }),
        Some(stay) => {
            put_stay(out, vehicle, &stay)?;
            Ok(Stay::of(cell))
        }
    }
}

// Appends the line of the stay, if there is one.
fn put_last(out: &mut Vec<u8>, vehicle: u32, stay: Option<Stay>) -> Result<(), NoMemory>
    ensures { OnOk result (out.new.items ≡ out.old.items ++ stay_lines vehicle (stays_behind stay [])) }
{
    match stay {
        None => Ok(()),
        Some(stay) => put_stay(out, vehicle, &stay),
    }
}

// Appends the lines of the stays of cells.
fn put_stays(out: &mut Vec<u8>, vehicle: u32, cells: &[Cell]) -> Result<(), NoMemory>
    ensures { OnOk result (out.new.items ≡ out.old.items ++ stay_lines vehicle (stays (map cell_of cells.now))) }
{
    let mut stay = None;
    for cell in cells {
        stay = Some(put_next(out, vehicle, stay, cell)?);
    }
    put_last(out, vehicle, stay)
}

/// Appends the lines of the tiles on which the driver of a log was, by row, column and step. Where memory runs out, it
/// is not said what was appended.
pub fn put_tiles(
    alloc: Global,
    out: &mut Vec<u8>,
    layout: &Layout,
    journal: &[Entry],
    vehicle: u32,
    log: &[LogItem],
) -> Result<(), NoMemory>
    requires { EntersBy 2147483648 log.now }
    ensures { OnOk result (out.new.items ≡
        out.old.items ++ tile_lines layout.now journal.now vehicle log.now) }
{
    let cells = occupied(alloc, layout, journal, log)?;
    put_stays(out, vehicle, &cells)
}
