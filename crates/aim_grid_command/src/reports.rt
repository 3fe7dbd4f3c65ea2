//! The printed text of a run over several crossings.

ghost use Rattle.std.specs.Prelude.{◌≡◌, ◌++◌, ◌≤◌, All, IfOk, OnOk, length, map};
ghost use Rattle.std.specs.List.{sum_by};
ghost use Rattle.aim_messages.specs.Texts.{spaced};
ghost use Rattle.aim_script.specs.Decided.{printed};
ghost use Rattle.aim_layout.specs.Valid.{IsValid};
ghost use Rattle.aim_safety.specs.Tiles.{EntersBy};
ghost use Rattle.aim_report.specs.Told.{IsItem};
ghost use Rattle.aim_grid.specs.Drove.{Drove};
ghost use Rattle.aim_grid.specs.Runs.{journal_left, logs_left};
ghost use Rattle.aim_grid_command.specs.Texts.{crossing_text, crossing_words, crossings_text, grid_report};
ghost use Rattle.aim_grid_command.specs.Values.{HasValues};

use aim_drive_command::{put_all_tiles, put_logs};
use aim_grid::{Drove, Logged};
use aim_layout::Layout;
use aim_messages::Text;
use aim_report::{NoMemory, entries_fit, items_fit, put_end, put_entries};
use std::alloc::Global;

// Appends the line that begins a crossing.
fn put_head(out: &mut Vec<u8>, crossing: u32) -> Result<(), NoMemory>
    ensures { OnOk result (out.new.items ≡ out.old.items ++ printed (spaced (crossing_words crossing))) }
{
    let mut text = Text::new();
    text.word(b"crossing");
    text.number(crossing);
    out.extend_from_slice(text.line())?;
    Ok(out.push(b'\n')?)
}

// Appends what is printed of one crossing.
fn put_crossing(
    alloc: Global,
    out: &mut Vec<u8>,
    crossing: u32,
    layout: &Layout,
    vehicles: u32,
    drove: &Drove,
) -> Result<(), NoMemory>
    requires few { length drove.now.journal.items ≤ 32769 }
    requires enters { All (λ l. EntersBy 2147483648 l.driver.log) drove.now.logs.items }
    ensures { OnOk result (out.new.items ≡ out.old.items ++ crossing_text vehicles crossing layout.now (journal_left drove.now) (logs_left drove.now)) }
{
    put_head(out, crossing)?;
    put_entries(out, &drove.journal)?;
    put_logs(out, vehicles, &drove.logs)?;
    put_all_tiles(alloc, out, layout, vehicles, drove)
}

// Appends what is printed of the crossings, in the order of their numbers.
fn put_crossings(
    alloc: Global,
    out: &mut Vec<u8>,
    layouts: &[Layout],
    vehicles: u32,
    left: &[Drove],
) -> Result<(), NoMemory>
    requires count { length left.now ≡ length layouts.now }
    requires crossings { length left.now ≤ 8 }
    requires few { All (λ d. length d.journal.items ≤ 32769) left.now }
    requires enters { All (λ d. All (λ l. EntersBy 2147483648 l.driver.log) d.logs.items) left.now }
    ensures { OnOk result (out.new.items ≡
        out.old.items ++ crossings_text vehicles 0 layouts.now (map journal_left left.now) (map logs_left left.now)) }
{
    for (crossing, drove) in left.iter().enumerate() {
        let layout = &layouts[crossing];
        put_crossing(alloc, out, crossing as u32, layout, vehicles, drove)?;
    }
    Ok(())
}

// The number of the entries of all crossings.
fn entries_of(left: &[Drove]) -> u32
    requires crossings { length left.now ≤ 8 }
    requires few { All (λ d. length d.journal.items ≤ 32769) left.now }
    ensures { result ≡ sum_by (λ (d : Drove). length d.journal.items) left.now }
{
    let mut entries = 0;
    for drove in left {
        entries += drove.journal.len() as u32;
    }
    entries
}

// The items of all logs have the values of their types.
fn logs_fit(logs: &[Logged])
    ensures { All (λ l. All IsItem l.driver.log) logs.now }
{
    for logged in logs {
        items_fit(logged.driver.log());
    }
}

// The journal and the logs of a crossing have the values of their types.
fn drove_fits(drove: &Drove)
    ensures { HasValues drove.now }
{
    entries_fit(&drove.journal);
    logs_fit(&drove.logs);
}

// Those of all crossings have.
fn all_fit(left: &[Drove])
    ensures { All HasValues left.now }
{
    for drove in left {
        drove_fits(drove);
    }
}

// Each layout is valid. This is a law: the call does nothing.
fn layouts_are_valid(layouts: &[Layout])
    ensures { All IsValid layouts.now }
{
    for layout in layouts {
        let _ = layout.ground();
    }
}

/// The text that reports a run of so many vehicles over these crossings. Their entries and items have the values of their
/// types, so the text tells them.
pub(crate) fn report_of(
    alloc: Global,
    layouts: &[Layout],
    vehicles: u32,
    left: &[Drove],
) -> Result<Vec<u8>, NoMemory>
    requires count { length left.now ≡ length layouts.now }
    requires crossings { length left.now ≤ 8 }
    requires few { All (λ d. length d.journal.items ≤ 32769) left.now }
    requires enters { All (λ d. All (λ l. EntersBy 2147483648 l.driver.log) d.logs.items) left.now }
    ensures text { IfOk result (λ text. text.items ≡ grid_report layouts.now vehicles (map journal_left left.now) (map logs_left left.now)) }
    ensures values { All HasValues left.now }
    ensures valid { All IsValid layouts.now }
{
    all_fit(left);
    layouts_are_valid(layouts);
    let mut text = Vec::new(alloc);
    put_crossings(alloc, &mut text, layouts, vehicles, left)?;
    put_end(&mut text, entries_of(left))?;
    Ok(text)
}
