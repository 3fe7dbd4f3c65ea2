//! The printed text of a drive.

ghost use Rattle.std.specs.Prelude.{◌≡◌, ◌++◌, ◌≤◌, length, map, All, OnOk, IfOk};
ghost use Rattle.aim_text_entries.specs.Ranges.{IsEntry};
ghost use Rattle.aim_layout.specs.Valid.{IsValid};
ghost use Rattle.aim_safety.specs.Tiles.{EntersBy};
ghost use Rattle.aim_report.specs.Reports.{all_logs, all_tiles, report};
ghost use Rattle.aim_report.specs.Told.{IsItem};
ghost use Rattle.aim_drive.specs.Making.{log_of};
ghost use Rattle.aim_drive_command.specs.Ordered.{in_order, log_among};

use aim_drive::{Drove, Logged};
use aim_driver::LogItem;
use aim_layout::Layout;
use aim_report::{NoMemory, entries_fit, items_fit, put_end, put_entries, put_log, put_tiles};
use std::alloc::Global;

// The log of the vehicle's driver, which is empty where it has none.
fn log_among(logs: &[Logged], vehicle: u32) -> &[LogItem]
    ensures log { result.now ≡ log_among vehicle (map log_of logs.now) }
    ensures enters { All (λ l. EntersBy 2147483648 l.driver.log) logs.now → EntersBy 2147483648 result.now }
{
    for logged in logs {
        if logged.vehicle == vehicle {
            return logged.driver.log();
        }
    }
    &[]
}

/// Appends the logs of all vehicles, in rising order. Where memory runs out, it is not said what was appended.
pub fn put_logs(out: &mut Vec<u8>, vehicles: u32, logs: &[Logged]) -> Result<(), NoMemory>
    ensures { OnOk result (out.new.items ≡ out.old.items ++ all_logs (in_order vehicles (map log_of logs.now))) }
{
    for vehicle in 0..vehicles {
        put_log(out, vehicle, log_among(logs, vehicle))?;
    }
    Ok(())
}

/// Appends the tiles of all vehicles, in rising order. Where memory runs out, it is not said what was appended.
pub fn put_all_tiles(
    alloc: Global,
    out: &mut Vec<u8>,
    layout: &Layout,
    vehicles: u32,
    drove: &Drove,
) -> Result<(), NoMemory>
    requires enters { All (λ l. EntersBy 2147483648 l.driver.log) drove.now.logs.items }
    ensures { OnOk result (out.new.items ≡
        out.old.items ++ all_tiles layout.now drove.now.journal.items (in_order vehicles (map log_of drove.now.logs.items))) }
{
    for vehicle in 0..vehicles {
        let log = log_among(&drove.logs, vehicle);
        put_tiles(alloc, out, layout, &drove.journal, vehicle, log)?;
    }
    Ok(())
}

// The items of all logs have the values of their types.
fn logs_fit(logs: &[Logged])
    ensures { All (λ l. All IsItem l.driver.log) logs.now }
{
    for logged in logs {
        items_fit(logged.driver.log());
    }
}

// Each layout is valid. This is a law: the call does nothing.
fn layout_is_valid(layout: &Layout)
    ensures { IsValid layout.now }
{
    let _ = layout.ground();
}

/// The text that reports a drive of so many vehicles. The drive's entries and items have the values of their types, so the
/// text tells them.
pub(crate) fn report_of(
    alloc: Global,
    layout: &Layout,
    vehicles: u32,
    drove: &Drove,
) -> Result<Vec<u8>, NoMemory>
    requires few { length drove.now.journal.items ≤ 4294967295 }
    requires enters { All (λ l. EntersBy 2147483648 l.driver.log) drove.now.logs.items }
    ensures text { IfOk result (λ text. text.items ≡ report layout.now drove.now.journal.items (in_order vehicles (map log_of drove.now.logs.items))) }
    ensures entries { All IsEntry drove.now.journal.items }
    ensures items { All (λ l. All IsItem l.driver.log) drove.now.logs.items }
    ensures valid { IsValid layout.now }
{
    entries_fit(&drove.journal);
    logs_fit(&drove.logs);
    layout_is_valid(layout);
    let mut text = Vec::new(alloc);
    put_entries(&mut text, &drove.journal)?;
    put_logs(&mut text, vehicles, &drove.logs)?;
    put_all_tiles(alloc, &mut text, layout, vehicles, drove)?;
    put_end(&mut text, drove.journal.len() as u32)?;
    Ok(text)
}
