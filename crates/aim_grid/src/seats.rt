//! The seats of one crossing.

ghost use Rattle.std.specs.Prelude.{◌≡◌, ◌<◌, [], length, map, Some, IfOk, OnOk};
ghost use Rattle.aim_grid.specs.Agents.{AgentPass};
ghost use Rattle.aim_grid.specs.Closing.{IsBackAt};
ghost use Rattle.aim_grid.specs.Making.{IsTakenAt, held};

use crate::ManagerPass;
use aim_drive::{Logged, NoMemory};
use aim_driver::Driver;
use std::alloc::Global;

/// What is held at a crossing.
#[derive(Drop)]
pub(crate) struct Seats {
    /// The passes of the vehicles, each while no leg has it.
    pub(crate) passes: Vec<Option<ManagerPass>>,
    pub(crate) operator: ManagerPass,
    /// The logs of the drivers whose legs are over.
    pub(crate) logs: Vec<Logged>,
}

impl Seats {
    /// Those of a new manager.
    pub(crate) fn new(
        alloc: Global,
        passes: Vec<ManagerPass>,
        operator: ManagerPass,
    ) -> Result<Seats, NoMemory>
        ensures passes { IfOk result (λ s. s.passes.items ≡ map (λ p. Some p) passes.items) }
        ensures operator { IfOk result (λ s. s.operator ≡ operator) }
        ensures logs { IfOk result (λ s. s.logs.items ≡ []) }
    {
        let mut held = Vec::with_capacity(alloc, passes.len())?;
        for pass in passes {
            held.push_reserved(Some(pass));
        }
        Ok(Seats {
            passes: held,
            operator,
            logs: Vec::new(alloc),
        })
    }

    /// Takes the pass that is held for the vehicle.
    pub(crate) fn take(&mut self, vehicle: u32) -> ManagerPass
        requires held { (p : AgentPass) × (held self.old vehicle ≡ Some p) }
        ensures pass { held self.old vehicle ≡ Some result }
        ensures rest { IsTakenAt vehicle self.old self.new }
    {
        let Some(pass) = self.passes[vehicle as usize].take() else {
            unreachable!()
        };
        pass
    }

    /// Takes back the pass of a vehicle, and the log of its driver.
    pub(crate) fn give(
        &mut self,
        vehicle: u32,
        driver: Driver,
        pass: ManagerPass,
    ) -> Result<(), NoMemory>
        requires seat { vehicle < length self.old.passes.items }
        ensures { OnOk result (IsBackAt vehicle driver.log pass self.old self.new) }
    {
        self.logs.push(Logged { vehicle, driver })?;
        self.passes[vehicle as usize] = Some(pass);
        Ok(())
    }
}
