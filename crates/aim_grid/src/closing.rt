//! Legs that come back to their crossings, and crossings that are closed.

ghost use Rattle.std.specs.Prelude.{◌≡◌, map, All, Some, IsSome, IfOk, OnOk};
ghost use Rattle.std.specs.List.{AllByRecursion, AllZip};
ghost use Rattle.aim_grid.specs.Legs.{told};
ghost use Rattle.aim_grid.specs.Closing.{AllGive, AreBack, AreLeft, IsLeft, IsSeated, all_gone, gone};

use crate::making::Crossings;
use crate::seats::Seats;
use crate::{Manager, ManagerPass, NoMemory, Traveller};
use aim_drive::Drove;
use aim_driver::Driver;
use std::alloc::Global;

// The passes, all of which are held.
fn all_held(alloc: Global, held: Vec<Option<ManagerPass>>) -> Result<Vec<ManagerPass>, NoMemory>
    requires all { All (λ o. IsSome o) held.items }
    ensures { IfOk result (λ v. held.items ≡ map (λ p. Some p) v.items) }
{
    let mut passes = Vec::with_capacity(alloc, held.len())?;
    for one in held {
        let Some(pass) = one else { unreachable!() };
        passes.push_reserved(pass);
    }
    Ok(passes)
}

// What is left of a crossing.
fn close(alloc: Global, manager: Manager, seats: Seats) -> Result<Drove, NoMemory>
    requires back { AreBack manager seats }
    ensures { IfOk result (λ d. IsLeft manager seats d) }
{
    let Seats {
        passes,
        operator,
        logs,
    } = seats;
    let passes = all_held(alloc, passes)?;
    let journal = manager.close(passes, operator).journal;
    Ok(Drove { journal, logs })
}

impl Crossings {
    // Takes back what is left of a vehicle's legs.
    fn take_legs(
        &mut self,
        vehicle: u32,
        legs: Vec<(u32, Driver, ManagerPass)>,
    ) -> Result<(), NoMemory>
        requires seated { AllByRecursion (IsSeated self.old.seats.items) (map (gone vehicle) (map told legs.items)) }
        ensures managers { self.new.managers.items ≡ self.old.managers.items }
        ensures seats { OnOk result (AllGive (map (gone vehicle) (map told legs.items)) self.old.seats.items self.new.seats.items) }
    {
        for (crossing, driver, pass) in legs {
            self.seats[crossing as usize].give(vehicle, driver, pass)?;
        }
        Ok(())
    }

    /// Takes back what is left of the travellers' legs.
    pub(crate) fn take_back(&mut self, travellers: Vec<Traveller>) -> Result<(), NoMemory>
        requires seated { AllByRecursion (IsSeated self.old.seats.items) (all_gone travellers.items) }
        ensures managers { self.new.managers.items ≡ self.old.managers.items }
        ensures seats { OnOk result (AllGive (all_gone travellers.items) self.old.seats.items self.new.seats.items) }
    {
        for traveller in travellers {
            let vehicle = traveller.vehicle();
            let legs = traveller.into_legs()?;
            self.take_legs(vehicle, legs)?;
        }
        Ok(())
    }

    /// What is left of each crossing.
    pub(crate) fn close(self, alloc: Global) -> Result<Vec<Drove>, NoMemory>
        requires back { AllZip AreBack self.managers.items self.seats.items }
        ensures { IfOk result (λ v. AreLeft self.managers.items self.seats.items v.items) }
    {
        let Crossings { managers, seats } = self;
        let mut left = Vec::with_capacity(alloc, managers.len())?;
        for (manager, seats) in managers.into_iter().zip(seats) {
            left.push_reserved(close(alloc, manager, seats)?);
        }
        Ok(left)
    }
}
