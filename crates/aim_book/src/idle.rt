//! A book that belongs to no ledger.

use crate::IdleDesk;
use crate::book::{Book, OpenFault};
use aim_layout::Layout;
use aim_messages::Entry;
use aim_tiles::Steps;
use std::alloc::Global;
use std::marker::{Brand, Model};
use std::sync::ledger::{Blank, Ledger};

/// A book that belongs to no ledger. No call reads or writes a word of its table until it joins one.
#[derive(Drop)]
pub struct IdleBook {
    layout: Layout,
    vehicles: u32,
    room: u32,
    journal: Vec<Entry>,
    desk: IdleDesk,
}

impl Model for IdleBook {
    ghost use Rattle.std.specs.Prelude.{vec_capacity};
    ghost use Rattle.aim_book.specs.State.{State};

    ghost Value = { State };

    ghost use Rattle.aim_book.specs.Books.{IsBook};
    ghost use Rattle.aim_book.specs.Idle.{joined};

    ghost view = { λ b. record { layout = b.layout; vehicles = b.vehicles; room = b.room; journal = b.journal.items } };

    ghost invariant = { λ b. IsBook b.layout b.vehicles b.room b.journal.items (vec_capacity b.journal) (joined {L = Unit {0}} b.desk) };
}

ghost use Rattle.std.specs.Prelude.{◌≡◌, ◌<◌, ◌≤◌, ◌⊎◌, ◌↔◌, [], IfOk, Err};
ghost use Rattle.aim_messages.specs.declared.entries.TheConstants.{MOST_ENTRIES, MOST_VEHICLES};
ghost use Rattle.aim_rules.specs.Legal.{IsLegal};

impl<L: Ledger> Book<L> {
    /// Leaves the ledger. It takes the ledger's one count with it, so no table of that ledger is read or written again.
    pub fn leave(self, steps: Steps<L>) -> IdleBook
        ensures { result ≡ self }
    {
        let Book {
            layout,
            vehicles,
            room,
            journal,
            desk,
        } = self;
        IdleBook {
            layout,
            vehicles,
            room,
            journal,
            desk: desk.leave(steps),
        }
    }
}

impl IdleBook {
    /// A book with an empty journal, for that many vehicles and that many entries. It takes all its memory here.
    pub fn open(
        alloc: Global,
        layout: Layout,
        vehicles: u32,
        room: u32,
    ) -> Result<IdleBook, OpenFault>
        ensures book { IfOk result (λ b. b ≡ record { layout = layout; vehicles = vehicles; room = room; journal = [] }) }
        ensures legal { IfOk result (λ b. IsLegal b.layout b.vehicles b.journal) }
        ensures vehicles { (result ≡ Err OpenFault.Vehicles) ↔ ((vehicles ≡ 0) ⊎ (MOST_VEHICLES < vehicles)) }
        ensures room { (result ≡ Err OpenFault.Room) ↔ ((0 < vehicles) × (vehicles ≤ MOST_VEHICLES) × ((room ≡ 0) ⊎ (MOST_ENTRIES < room))) }
    {
        opened::<Brand>(alloc, layout, vehicles, room, Blank::new(1))
    }

    /// Joins a ledger, whose count is needed from now on.
    pub fn join<L: Ledger>(self) -> Book<L>
        ensures { result ≡ self }
    {
        let IdleBook {
            layout,
            vehicles,
            room,
            journal,
            desk,
        } = self;
        Book {
            layout,
            vehicles,
            room,
            journal,
            desk: desk.join(),
        }
    }

    /// The journal itself.
    pub fn into_journal(self) -> Vec<Entry>
        ensures journal { result.items ≡ self.journal }
        ensures legal { IsLegal self.layout self.vehicles self.journal }
    {
        self.join::<Brand>().into_journal()
    }

    /// The number of vehicles.
    pub fn vehicles(&self) -> u32
        ensures { result ≡ self.now.vehicles }
    {
        self.vehicles
    }

    /// The layout.
    pub fn layout(&self) -> &Layout
        ensures { result.now ≡ self.now.layout }
    {
        &self.layout
    }
}

// A book that was opened in a ledger, and has left it.
fn opened<L: Ledger>(
    alloc: Global,
    layout: Layout,
    vehicles: u32,
    room: u32,
    blank: Blank,
) -> Result<IdleBook, OpenFault>
    requires name { blank.name ≡ L.name }
    requires parts { blank.parts ≡ L.parts }
    requires some { 0 < blank.parts }
    ensures book { IfOk result (λ b. b ≡ record { layout = layout; vehicles = vehicles; room = room; journal = [] }) }
    ensures vehicles { (result ≡ Err OpenFault.Vehicles) ↔ ((vehicles ≡ 0) ⊎ (MOST_VEHICLES < vehicles)) }
    ensures room { (result ≡ Err OpenFault.Room) ↔ ((0 < vehicles) × (vehicles ≤ MOST_VEHICLES) × ((room ≡ 0) ⊎ (MOST_ENTRIES < room))) }
{
    match Book::<L>::open(alloc, layout, vehicles, room) {
        Ok(book) => Ok(book.leave(Steps::new(blank))),
        Err(fault) => Err(fault),
    }
}
