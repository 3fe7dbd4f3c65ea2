//! The book: a layout and the journal of what was asked and answered over it.

use crate::{Desk, Prepared, Shapes};
use aim_layout::Layout;
use aim_messages::{Act, Entry, MOST_ENTRIES, MOST_VEHICLES, Message, OPERATOR, Order, Reply};
use aim_sheets::Pool;
use aim_tiles::Steps;
use std::alloc::{AllocError, Global};
use std::marker::Model;
use std::sync::ledger::Ledger;

/// Why a book isn't opened.
#[derive(Clone, Copy, Debug)]
pub enum OpenFault {
    /// There is no memory for the book.
    NoMemory,
    /// The number of vehicles isn't 1 to 65,536.
    Vehicles,
    /// The journal's room isn't 1 to 262,144 entries.
    Room,
}

/// The journal has as many entries as it has room for.
#[derive(Clone, Copy, PartialEq, Eq)]
pub struct Full;

/// A manager for one thread. Its journal has room for a fixed number of entries, and is always a legal history. All its
/// memory is taken by `open`. The words of its table are counted in the ledger `L`.
#[derive(Drop)]
pub struct Book<L: Ledger> {
    pub(crate) layout: Layout,
    pub(crate) vehicles: u32,
    pub(crate) room: u32,
    pub(crate) journal: Vec<Entry>,
    pub(crate) desk: Desk<L>,
}

impl<L: Ledger> Model for Book<L> {
    ghost use Rattle.std.specs.Prelude.{vec_capacity};
    ghost use Rattle.aim_book.specs.State.{State};

    ghost Value = { State };

    ghost use Rattle.aim_book.specs.Books.{IsBook};

    ghost view = { λ b. record { layout = b.layout; vehicles = b.vehicles; room = b.room; journal = b.journal.items } };

    ghost invariant = { λ b. IsBook b.layout b.vehicles b.room b.journal.items (vec_capacity b.journal) b.desk };
}

impl<L: Ledger> Book<L> {
    ghost use Rattle.std.specs.Prelude.{◌≡◌, ℕ, ◌+◌, ◌*◌, ◌-◌, min, ◌<◌, ◌≤◌, ◌⊎◌, ◌&&◌, not, nat_lt, ◌++◌, ◌∷◌, [], ◌↔◌, length, IfOk, OnErr, IsErr, Err};
    ghost use Rattle.aim_geometry.specs.Cells.{cell_at};
    ghost use Rattle.aim_geometry.specs.Rects.{has_bit};
    ghost use Rattle.aim_messages.specs.declared.entries.TheConstants.{LATEST_MOMENT, MOST_ENTRIES, MOST_VEHICLES, OPERATOR};
    ghost use Rattle.aim_book.specs.Requests.{IsPreparedFor};
    ghost use Rattle.aim_book.specs.Shapes.{ArePreparedFor};
    ghost use Rattle.aim_rules.specs.Answer.{answer};
    ghost use Rattle.aim_rules.specs.History.{now_of, params_of};
    ghost use Rattle.aim_rules.specs.Journals.{entry_of};
    ghost use Rattle.aim_rules.specs.Legal.{IsLegal, IsOfLayout};
    ghost use Rattle.aim_book.specs.Charted.{is_claimed_by_some, is_held};
    ghost use Rattle.aim_book.specs.Costs.{asked_spans, spans_exchanged, starts_tried};
    ghost use Rattle.aim_book.specs.Sheets.{sheets_kept};

    /// A book with an empty journal, for that many vehicles and that many entries. It takes all its memory here.
    pub fn open(
        alloc: Global,
        layout: Layout,
        vehicles: u32,
        room: u32,
    ) -> Result<Book<L>, OpenFault>
        ensures book { IfOk result (λ b. b ≡ record { layout = layout; vehicles = vehicles; room = room; journal = [] }) }
        ensures legal { IfOk result (λ b. IsLegal b.layout b.vehicles b.journal) }
        ensures vehicles { (result ≡ Err OpenFault.Vehicles) ↔ ((vehicles ≡ 0) ⊎ (MOST_VEHICLES < vehicles)) }
        ensures room { (result ≡ Err OpenFault.Room) ↔ ((0 < vehicles) × (vehicles ≤ MOST_VEHICLES) × ((room ≡ 0) ⊎ (MOST_ENTRIES < room))) }
    {
        match new_parts(alloc, &layout, vehicles, room) {
            Ok(Parts { journal, desk }) => Ok(Book {
                layout,
                vehicles,
                room,
                journal,
                desk,
            }),
            Err(fault) => Err(fault),
        }
    }

    /// Answers a message of a vehicle at a moment, and keeps both in the journal. The cells were prepared before: the sheet of
    /// the trial that a fresh Confirm grants is kept, and each sheet that isn't kept comes into `back`.
    pub fn serve(
        &mut self,
        vehicle: u32,
        moment: u32,
        prepared: Prepared,
        back: &mut Pool,
        steps: &mut Steps<L>,
    ) -> Result<Reply, Full>
        requires vehicle { vehicle < self.old.vehicles }
        requires moment { moment ≤ LATEST_MOMENT }
        requires prepared { IsPreparedFor self.old.layout prepared }
        requires count { back.old.count ≤ 1000000 }
        requires room { back.old.room ≡ self.old.layout.grid.spans }
        ensures reply { IfOk result (λ r. r ≡ answer self.old.layout self.old.journal vehicle moment (Act.Message prepared.message)) }
        ensures entry { IfOk result (λ r. self.new
            ≡ record self.old { journal = self.old.journal ++ (record { caller = vehicle; moment = moment; act = Act.Message prepared.message; reply = r }) ∷ [] }) }
        ensures full { IsErr result ↔ (length self.old.journal ≡ self.old.room) }
        ensures err { OnErr result (self.new ≡ self.old) }
        ensures legal { IsLegal self.new.layout self.new.vehicles self.new.journal }
        ensures sheets { back.new.count + sheets_kept vehicle self.new.journal ≡ back.old.count + sheets_kept vehicle self.old.journal + 2 }
        ensures pool { back.new.room ≡ back.old.room }
        ensures cost { steps.new ≤ steps.old + starts_tried self.old.layout (params_of prepared.message.body) * (length prepared.first.spans + length prepared.second.spans)
            + spans_exchanged self.old.layout vehicle self.old.journal self.new.journal
            + self.old.layout.grid.n * min (now_of self.new.journal 0 - now_of self.old.journal 0) self.old.layout.times.horizon }
    {
        if self.journal.len() == self.room as usize {
            prepared.give_back(back);
            return Err(Full);
        }
        Ok(self.answer(vehicle, moment, prepared, back, steps).reply)
    }

    // Answers a message of a vehicle at a moment, and keeps both in the journal, which has room for them.
    fn answer(
        &mut self,
        vehicle: u32,
        moment: u32,
        prepared: Prepared,
        back: &mut Pool,
        steps: &mut Steps<L>,
    ) -> Entry
        requires vehicle { vehicle < self.old.vehicles }
        requires moment { moment ≤ LATEST_MOMENT }
        requires prepared { IsPreparedFor self.old.layout prepared }
        requires count { back.old.count ≤ 1000000 }
        requires room { back.old.room ≡ self.old.layout.grid.spans }
        requires place { length self.old.journal ≡ self.old.room → ⊥ }
        ensures entry { result ≡ entry_of self.old.layout self.old.journal (record { caller = vehicle; moment = moment; act = Act.Message prepared.message }) }
        ensures journal { self.new ≡ record self.old { journal = self.old.journal ++ result ∷ [] } }
        ensures legal { IsLegal self.new.layout self.new.vehicles self.new.journal }
        ensures sheets { back.new.count + sheets_kept vehicle self.new.journal ≡ back.old.count + sheets_kept vehicle self.old.journal + 2 }
        ensures pool { back.new.room ≡ back.old.room }
        ensures cost { steps.new ≤ steps.old + starts_tried self.old.layout (params_of prepared.message.body) * (length prepared.first.spans + length prepared.second.spans)
            + spans_exchanged self.old.layout vehicle self.old.journal self.new.journal
            + self.old.layout.grid.n * min (now_of self.new.journal 0 - now_of self.old.journal 0) self.old.layout.times.horizon }
    {
        let place = self.journal.len() as u32;
        let message = *prepared.message();
        let reply = self.desk.serve(&self.layout, vehicle, place, moment, prepared, back, steps);
        let act = Act::Message(message);
        enter(&mut self.journal, vehicle, moment, act, reply)
    }

    /// Answers a message of a vehicle at a moment, and keeps both in the journal, as `enter_message` does.
    pub fn serve_message(
        &mut self,
        vehicle: u32,
        moment: u32,
        message: &Message,
        shapes: &mut Shapes,
        pool: &mut Pool,
        steps: &mut Steps<L>,
    ) -> Result<Reply, Full>
        requires vehicle { vehicle < self.old.vehicles }
        requires moment { moment ≤ LATEST_MOMENT }
        requires known { ArePreparedFor self.old.layout shapes.old }
        requires two { 2 ≤ pool.old.count }
        requires count { pool.old.count ≤ 1000000 }
        requires room { pool.old.room ≡ self.old.layout.grid.spans }
        ensures reply { IfOk result (λ r. r ≡ answer self.old.layout self.old.journal vehicle moment (Act.Message message.now)) }
        ensures entry { IfOk result (λ r. self.new
            ≡ record self.old { journal = self.old.journal ++ (record { caller = vehicle; moment = moment; act = Act.Message message.now; reply = r }) ∷ [] }) }
        ensures full { IsErr result ↔ (length self.old.journal ≡ self.old.room) }
        ensures err { OnErr result (self.new ≡ self.old) }
        ensures legal { IsLegal self.new.layout self.new.vehicles self.new.journal }
        ensures sheets { pool.new.count + sheets_kept vehicle self.new.journal ≡ pool.old.count + sheets_kept vehicle self.old.journal }
        ensures known { ArePreparedFor self.old.layout shapes.new }
        ensures pool { pool.new.room ≡ pool.old.room }
        ensures cost { steps.new ≤ steps.old + asked_spans self.old.layout (params_of message.now.body)
            + spans_exchanged self.old.layout vehicle self.old.journal self.new.journal
            + self.old.layout.grid.n * min (now_of self.new.journal 0 - now_of self.old.journal 0) self.old.layout.times.horizon }
    {
        let entry = self.enter_message(vehicle, moment, message, shapes, pool, steps)?;
        Ok(entry.reply)
    }

    /// Answers a message of a vehicle at a moment, keeps both in the journal, and gives this entry. Only where the answer
    /// depends on the cells of a crossing they are prepared, in two sheets of the pool, from its shape where that is kept: the
    /// sheet of the trial that a fresh Confirm grants is kept, and each sheet that isn't kept comes into the pool.
    pub fn enter_message(
        &mut self,
        vehicle: u32,
        moment: u32,
        message: &Message,
        shapes: &mut Shapes,
        pool: &mut Pool,
        steps: &mut Steps<L>,
    ) -> Result<Entry, Full>
        requires vehicle { vehicle < self.old.vehicles }
        requires moment { moment ≤ LATEST_MOMENT }
        requires known { ArePreparedFor self.old.layout shapes.old }
        requires two { 2 ≤ pool.old.count }
        requires count { pool.old.count ≤ 1000000 }
        requires room { pool.old.room ≡ self.old.layout.grid.spans }
        ensures entry { IfOk result (λ e. e ≡ entry_of self.old.layout self.old.journal (record { caller = vehicle; moment = moment; act = Act.Message message.now })) }
        ensures journal { IfOk result (λ e. self.new ≡ record self.old { journal = self.old.journal ++ e ∷ [] }) }
        ensures full { IsErr result ↔ (length self.old.journal ≡ self.old.room) }
        ensures err { OnErr result (self.new ≡ self.old) }
        ensures legal { IsLegal self.new.layout self.new.vehicles self.new.journal }
        ensures sheets { pool.new.count + sheets_kept vehicle self.new.journal ≡ pool.old.count + sheets_kept vehicle self.old.journal }
        ensures known { ArePreparedFor self.old.layout shapes.new }
        ensures pool { pool.new.room ≡ pool.old.room }
        ensures cost { steps.new ≤ steps.old + asked_spans self.old.layout (params_of message.now.body)
            + spans_exchanged self.old.layout vehicle self.old.journal self.new.journal
            + self.old.layout.grid.n * min (now_of self.new.journal 0 - now_of self.old.journal 0) self.old.layout.times.horizon }
    {
        let place = self.journal.len();
        if place == self.room as usize {
            return Err(Full);
        }
        let reply = self.desk.serve_message(
            &self.layout,
            vehicle,
            place as u32,
            moment,
            message,
            shapes,
            pool,
            steps,
        );
        let act = Act::Message(*message);
        Ok(enter(&mut self.journal, vehicle, moment, act, reply))
    }

    /// Takes an order of the operator at a moment, and keeps it with its answer in the journal.
    pub fn operate(
        &mut self,
        moment: u32,
        order: Order,
        steps: &mut Steps<L>,
    ) -> Result<Reply, Full>
        requires moment { moment ≤ LATEST_MOMENT }
        requires order { IsOfLayout self.old.layout self.old.vehicles OPERATOR (Act.Order order) }
        ensures reply { IfOk result (λ r. r ≡ answer self.old.layout self.old.journal OPERATOR moment (Act.Order order)) }
        ensures entry { IfOk result (λ r. self.new
            ≡ record self.old { journal = self.old.journal ++ (record { caller = OPERATOR; moment = moment; act = Act.Order order; reply = r }) ∷ [] }) }
        ensures full { IsErr result ↔ (length self.old.journal ≡ self.old.room) }
        ensures err { OnErr result (self.new ≡ self.old) }
        ensures legal { IsLegal self.new.layout self.new.vehicles self.new.journal }
        ensures cost { steps.new ≤ steps.old
            + self.old.layout.grid.n * min (now_of self.new.journal 0 - now_of self.old.journal 0) self.old.layout.times.horizon }
    {
        let entry = self.enter_order(moment, order, steps)?;
        Ok(entry.reply)
    }

    /// Takes an order of the operator at a moment, keeps it with its answer in the journal, and gives this entry.
    pub fn enter_order(
        &mut self,
        moment: u32,
        order: Order,
        steps: &mut Steps<L>,
    ) -> Result<Entry, Full>
        requires moment { moment ≤ LATEST_MOMENT }
        requires order { IsOfLayout self.old.layout self.old.vehicles OPERATOR (Act.Order order) }
        ensures entry { IfOk result (λ e. e ≡ entry_of self.old.layout self.old.journal (record { caller = OPERATOR; moment = moment; act = Act.Order order })) }
        ensures journal { IfOk result (λ e. self.new ≡ record self.old { journal = self.old.journal ++ e ∷ [] }) }
        ensures full { IsErr result ↔ (length self.old.journal ≡ self.old.room) }
        ensures err { OnErr result (self.new ≡ self.old) }
        ensures legal { IsLegal self.new.layout self.new.vehicles self.new.journal }
        ensures cost { steps.new ≤ steps.old
            + self.old.layout.grid.n * min (now_of self.new.journal 0 - now_of self.old.journal 0) self.old.layout.times.horizon }
    {
        if self.journal.len() == self.room as usize {
            return Err(Full);
        }
        let reply = self.desk.operate(&self.layout, moment, order, steps);
        let act = Act::Order(order);
        Ok(enter(&mut self.journal, OPERATOR, moment, act, reply))
    }

    /// The columns of a step's row that vehicles hold, and those that lanes claim by their greens, one bit each; none where
    /// the step is past.
    pub fn chart_row(&self, row: u8, step: u32) -> (u64, u64)
        requires { row < self.now.layout.grid.n }
        ensures held { (col : ℕ) → has_bit result.0 col
            ≡ (not (nat_lt step (now_of self.now.journal 0)) && is_held self.now.layout self.now.journal (cell_at step row col)) }
        ensures claimed { (col : ℕ) → col < 64 → has_bit result.1 col
            ≡ (not (nat_lt step (now_of self.now.journal 0)) && is_claimed_by_some self.now.layout self.now.journal (cell_at step row col)) }
    {
        self.desk.chart_row(&self.layout, row, step)
    }

    /// How many sheets are kept for the vehicle: 1 where it has a fresh Confirm, past or not, that no later fresh CANCEL or
    /// DONE of it names, else 0.
    pub fn kept(&self, vehicle: u32) -> u32
        requires { vehicle < self.now.vehicles }
        ensures { result ≡ sheets_kept vehicle self.now.journal }
    {
        match self.desk.reservations.row(vehicle) {
            Some(_) => 1,
            None => 0,
        }
    }

    /// What was asked and answered, the oldest first.
    pub fn journal(&self) -> &[Entry]
        ensures journal { result.now ≡ self.now.journal }
        ensures legal { IsLegal self.now.layout self.now.vehicles self.now.journal }
    {
        &self.journal
    }

    /// The journal itself.
    pub fn into_journal(self) -> Vec<Entry>
        ensures journal { result.items ≡ self.journal }
        ensures legal { IsLegal self.layout self.vehicles self.journal }
    {
        let Book {
            layout: _,
            vehicles: _,
            room: _,
            journal,
            desk: _,
        } = self;
        journal
    }

    /// The number of vehicles.
    pub fn vehicles(&self) -> u32
        ensures { result ≡ self.now.vehicles }
    {
        self.vehicles
    }

    /// The layout.
    pub fn layout(&self) -> &Layout
        ensures { result.now ≡ self.now.layout }
    {
        &self.layout
    }
}

ghost use Rattle.std.specs.Prelude.{◌≡◌, ℕ, ◌<◌, ◌≤◌, ◌⊎◌, ◌↔◌, ◌++◌, ◌∷◌, [], length, IfOk, Err, vec_capacity};
ghost use Rattle.aim_messages.specs.declared.entries.TheConstants.{MOST_ENTRIES, MOST_VEHICLES};
ghost use Rattle.aim_book.specs.Books.{IsBook};

// Enters what a caller did at a moment, and what it was answered, in a journal that has the room for it.
fn enter(journal: &mut Vec<Entry>, caller: u32, moment: u32, act: Act, reply: Reply) -> Entry
    requires room { length journal.old.items < vec_capacity journal.old }
    ensures entry { result ≡ record { caller = caller; moment = moment; act = act; reply = reply } }
    ensures items { journal.new.items ≡ journal.old.items ++ result ∷ [] }
    ensures capacity { vec_capacity journal.new ≡ vec_capacity journal.old }
{
    let entry = Entry {
        caller,
        moment,
        act,
        reply,
    };
    journal.push_reserved(entry);
    entry
}

// What a book has beside its layout and its numbers.
struct Parts<L: Ledger> {
    journal: Vec<Entry>,
    desk: Desk<L>,
}

// The parts of a new book of so many vehicles and so many entries.
fn allocated<L: Ledger>(
    alloc: Global,
    layout: &Layout,
    vehicles: u32,
    room: u32,
) -> Result<Parts<L>, AllocError>
    requires vehicles { vehicles ≤ MOST_VEHICLES }
    requires room { room ≤ MOST_ENTRIES }
    ensures { IfOk result (λ p. (p.journal.items ≡ []) × IsBook layout.now vehicles room p.journal.items (vec_capacity p.journal) p.desk) }
{
    let journal = Vec::with_capacity(alloc, room as usize)?;
    let desk = Desk::new(alloc, layout, vehicles, room)?;
    Ok(Parts { journal, desk })
}

// The parts of a new book, or why it isn't opened.
fn new_parts<L: Ledger>(
    alloc: Global,
    layout: &Layout,
    vehicles: u32,
    room: u32,
) -> Result<Parts<L>, OpenFault>
    ensures new { IfOk result (λ p. (p.journal.items ≡ []) × IsBook layout.now vehicles room p.journal.items (vec_capacity p.journal) p.desk) }
    ensures vehicles { (result ≡ Err OpenFault.Vehicles) ↔ ((vehicles ≡ 0) ⊎ (MOST_VEHICLES < vehicles)) }
    ensures room { (result ≡ Err OpenFault.Room) ↔ ((0 < vehicles) × (vehicles ≤ MOST_VEHICLES) × ((room ≡ 0) ⊎ (MOST_ENTRIES < room))) }
{
    if vehicles == 0 || vehicles > MOST_VEHICLES {
        return Err(OpenFault::Vehicles);
    }
    if room == 0 || room > MOST_ENTRIES {
        return Err(OpenFault::Room);
    }
    match allocated(alloc, layout, vehicles, room) {
        Ok(parts) => Ok(parts),
        Err(AllocError) => Err(OpenFault::NoMemory),
    }
}
