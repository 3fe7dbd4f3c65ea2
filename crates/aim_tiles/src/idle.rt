//! A table that belongs to no ledger.

ghost use Rattle.std.specs.Prelude.{◌≡◌, ◌<◌, ◌≤◌, IfOk};
ghost use Rattle.std.specs.FinSet as set;

use crate::NoMemory;
use crate::counters::Steps;
use crate::tables::Table;
use std::alloc::Global;
use std::marker::{Brand, Model};
use std::sync::ledger::Ledger;

/// A table that belongs to no ledger. No call reads or writes one of its words until it joins one.
#[derive(Drop)]
pub struct IdleTable {
    table: Table<Brand>,
}

impl Model for IdleTable {
    ghost use Rattle.aim_tiles.specs.Cells.{TakenCells, taken_code};

    ghost Value = { TakenCells };

    ghost coded = { taken_code };

    ghost view = { λ t. t.table };
}

impl IdleTable {
    /// A table of `n` rows and columns over so many steps. No cell is taken, and now is 0.
    pub fn new(alloc: Global, n: u32, horizon: u32) -> Result<IdleTable, NoMemory>
        requires some { 0 < n }
        requires few { n ≤ 64 }
        requires ahead { 0 < horizon }
        requires near { horizon ≤ 8192 }
        ensures { IfOk result (λ table. table ≡ record { size = n; horizon = horizon; current = 0; cells = set.empty }) }
    {
        Ok(IdleTable {
            table: Table::new(alloc, n, horizon)?,
        })
    }

    /// Joins a ledger, whose count is needed from now on.
    pub fn join<L: Ledger>(self) -> Table<L>
        ensures { result ≡ self }
    {
        let IdleTable { table } = self;
        table.join_ledger()
    }
}

impl<L: Ledger> Table<L> {
    /// Leaves the ledger. It takes the ledger's one count with it, so no table of that ledger is read or written again,
    /// and no call that is lent the count can take a table out of it.
    pub fn leave(self, steps: Steps<L>) -> IdleTable
        ensures { result ≡ self }
    {
        IdleTable {
            table: self.leave_ledger(steps),
        }
    }
}
