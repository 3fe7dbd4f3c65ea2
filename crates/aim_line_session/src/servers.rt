//! The manager of a session, and the sheets with which it is asked.

ghost use Rattle.std.specs.Prelude.{◌≡◌, ◌<◌, ◌≤◌, ◌++◌, ◌∷◌, [], ℕ, List, IfOk};
ghost use Rattle.aim_messages.specs.declared.entries.Entry.{Entry};
ghost use Rattle.aim_messages.specs.declared.entries.TheConstants.{LATEST_MOMENT, MOST_ENTRIES, MOST_VEHICLES, OPERATOR};
ghost use Rattle.aim_rules.specs.Journals.{entry_of};
ghost use Rattle.aim_rules.specs.Legal.{IsOfLayout};
ghost use Rattle.aim_line_session.specs.Charted.{Marks};
ghost use Rattle.aim_line_session.specs.Servers.{IsNext, Serves};

use aim_book::{Desk, Shapes};
use aim_layout::Layout;
use aim_messages::{Act, Entry, MOST_ENTRIES, Message, OPERATOR, Order};
use aim_sheets::Pool;
use aim_tiles::Steps;
use std::alloc::{AllocError as NoMemory, Global};
use std::sync::ledger::Ledger;

// How many crossings are kept, so that others that differ in their arrival alone need not be found again.
const SHAPES: u32 = 1024;

/// A manager that answers by its desk, and keeps no journal: its history stands in contracts alone. The sheets in the pool
/// and those that the desk keeps for its vehicles are one for each vehicle, and two: so two are there for every message.
#[derive(Drop)]
pub struct DeskServer<L: Ledger> {
    pub(crate) layout: Layout,
    pub(crate) vehicles: u32,
    pub(crate) entries: u32,
    pub(crate) orders: u32,
    pub(crate) desk: Desk<L>,
    pub(crate) shapes: Shapes,
    pub(crate) pool: Pool,
}

impl<L: Ledger> DeskServer<L> {
    /// A manager that was not asked yet. It takes all of its memory here.
    pub fn open(alloc: Global, layout: Layout, vehicles: u32) -> Result<DeskServer<L>, NoMemory>
        requires { vehicles ≤ MOST_VEHICLES }
        ensures serves { IfOk result (λ s. Serves [] s) }
        ensures layout { IfOk result (λ s. s.layout ≡ layout) }
        ensures vehicles { IfOk result (λ s. s.vehicles ≡ vehicles) }
        ensures orders { IfOk result (λ s. s.orders ≡ 0) }
    {
        let spans = layout.ground().grid().spans;
        let shapes = Shapes::new(alloc, &layout, SHAPES)?;
        let pool = Pool::new(alloc, vehicles + 2, spans)?;
        let desk = Desk::new(alloc, &layout, vehicles, MOST_ENTRIES)?;
        Ok(DeskServer {
            layout,
            vehicles,
            entries: 0,
            orders: 0,
            desk,
            shapes,
            pool,
        })
    }

    /// How many vehicles there are.
    pub fn vehicles(&self) -> u32
        ensures { result ≡ self.now.vehicles }
    {
        self.vehicles
    }

    /// How many entries were made: the position of the next one.
    pub fn entries(&self) -> u32
        ensures { result ≡ self.now.entries }
    {
        self.entries
    }

    /// How many orders were taken.
    pub fn orders(&self) -> u32
        ensures { result ≡ self.now.orders }
    {
        self.orders
    }

    /// The layout.
    pub fn layout(&self) -> &Layout
        ensures { result.now ≡ self.now.layout }
    {
        &self.layout
    }

    /// Answers a message of a vehicle, and gives the entry that this makes behind any history that it serves.
    pub fn serve(
        &mut self,
        vehicle: u32,
        moment: u32,
        message: &Message,
        steps: &mut Steps<L>,
    ) -> Entry
        requires serves { (h : List Entry) × Serves h self.old }
        requires vehicle { vehicle < self.old.vehicles }
        requires moment { moment ≤ LATEST_MOMENT }
        requires room { self.old.entries < 4294967295 }
        ensures entry { (h : List Entry) → Serves h self.old →
            result ≡ entry_of self.old.layout h (record { caller = vehicle; moment = moment; act = Act.Message message.now }) }
        ensures serves { (h : List Entry) → Serves h self.old → Serves (h ++ result ∷ []) self.new }
        ensures next { IsNext 0 self.old self.new }
    {
        let reply = self.desk.serve_message(
            &self.layout,
            vehicle,
            self.entries,
            moment,
            message,
            &mut self.shapes,
            &mut self.pool,
            steps,
        );
        self.entries += 1;
        Entry {
            caller: vehicle,
            moment,
            act: Act::Message(*message),
            reply,
        }
    }

    /// Answers an order of the operator, and gives the entry that this makes behind any history that it serves.
    pub fn operate(&mut self, moment: u32, order: Order, steps: &mut Steps<L>) -> Entry
        requires serves { (h : List Entry) × Serves h self.old }
        requires moment { moment ≤ LATEST_MOMENT }
        requires order { IsOfLayout self.old.layout self.old.vehicles OPERATOR (Act.Order order) }
        requires room { self.old.entries < 4294967295 }
        requires orders { self.old.orders < MOST_ENTRIES }
        ensures entry { (h : List Entry) → Serves h self.old →
            result ≡ entry_of self.old.layout h (record { caller = OPERATOR; moment = moment; act = Act.Order order }) }
        ensures serves { (h : List Entry) → Serves h self.old → Serves (h ++ result ∷ []) self.new }
        ensures next { IsNext 1 self.old self.new }
    {
        let reply = self.desk.operate(&self.layout, moment, order, steps);
        self.entries += 1;
        self.orders += 1;
        Entry {
            caller: OPERATOR,
            moment,
            act: Act::Order(order),
            reply,
        }
    }

    /// The columns of a row that vehicles hold at a step, and those that lanes claim by their greens, one bit each; none
    /// where the step is below the greatest moment.
    pub fn chart_row(&self, row: u8, step: u32) -> (u64, u64)
        requires serves { (h : List Entry) × Serves h self.now }
        requires row { row < self.now.layout.grid.n }
        ensures { (h : List Entry) → Serves h self.now → Marks self.now.layout h row step result.0 result.1 }
    {
        self.desk.chart_row(&self.layout, row, step)
    }
}
