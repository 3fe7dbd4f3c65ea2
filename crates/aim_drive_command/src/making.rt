//! Generated traffic: the drive script of so many vehicles over twelve lanes, drawn by a generator with a seed.

ghost use Rattle.std.specs.Prelude.{◌≤◌, ◌<◌, IfOk};
ghost use Rattle.aim_drive_script.specs.Fits.{IsFit};
ghost use Rattle.aim_drive_script.specs.Scripts.{IsScriptOf};
ghost use Rattle.aim_drive_command.specs.Traffic.{traffic_lines};

use crate::{layout, plans};
use aim_drive_script::DriveScript;
use aim_report::NoMemory;
use std::alloc::Global;

/// The drive script of generated traffic: so many vehicles over the twelve lanes, drawn by a generator with that seed.
pub fn traffic(alloc: Global, number: u32, count: u32) -> Result<DriveScript, NoMemory>
    requires count { (0 < count) × (count ≤ 256) }
    ensures script { IfOk result (λ s. IsScriptOf (traffic_lines number count) s) }
    ensures fits { IfOk result IsFit }
{
    let plans = plans::drawn(alloc, number, count)?;
    let layout = layout::of_four_arms(alloc)?;
    Ok(DriveScript {
        layout,
        vehicles: count,
        until: 33 * count + 4000,
        plans,
        orders: Vec::new(alloc),
    })
}
