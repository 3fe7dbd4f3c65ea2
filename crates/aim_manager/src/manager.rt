//! The shared manager.

ghost use Rattle.std.specs.Prelude.{◌≡◌, ◌↔◌, ◌⊎◌, ℕ, ◌+◌, ◌<◌, ◌≤◌, [], ◌∷◌, ◌++◌, length, map, sum_by, Contains, IsPermutation, All, IfOk, Err};
ghost use Rattle.std.specs.List.{range_with_len};
ghost use Rattle.aim_messages.specs.declared.entries.Act.{Act};
ghost use Rattle.aim_messages.specs.declared.entries.TheConstants.{LATEST_MOMENT, MOST_ENTRIES, MOST_VEHICLES, OPERATOR};
ghost use Rattle.aim_requests.specs.Requests.{IsPreparedFor};
ghost use Rattle.aim_book.specs.Sheets.{sheets_kept};
ghost use Rattle.aim_rules.specs.Legal.{IsLegal, IsOfLayout};
ghost use Rattle.aim_turnstile.specs.History.{entries_of};
ghost use Rattle.aim_turnstile.specs.Models.{IsPassOf, IsSamePass, HasPass, new_pass};
ghost use Rattle.aim_manager.specs.Seen.{caller_of, callers, IsServed, Meets};

use crate::keeper::{Ask, Keeper, Told};
use aim_book::laws::sheets_are_those_of_own_entries;
use aim_book::{Full, IdleBook, OpenFault};
use aim_layout::Layout;
use aim_messages::{Entry, OPERATOR, Order, Reply};
use aim_requests::Prepared;
use aim_sheets::Pool;
use aim_turnstile::{Front, NoMemory, Pass, Turnstile};
use std::alloc::Global;
use std::marker::Model;
use std::mem;
use std::sync::Wait;

/// The right to the calls of one vehicle, or to those of the operator.
pub type ManagerPass = Pass<Keeper>;

/// A note of what a pass had seen.
pub type ManagerFront = Front<Keeper>;

/// A manager that threads share. Each caller has a pass. It belongs to no ledger, so several managers are of one type.
///
/// Contracts see its name, its layout, the numbers of its vehicles, and the room of its journal.
#[derive(Drop)]
pub struct Manager {
    turnstile: Turnstile<Keeper>,
    layout: Layout,
}

impl Model for Manager {
    ghost use Rattle.std.specs.Prelude.{◌≡◌};
    ghost use Rattle.aim_turnstile.specs.Models.{TurnstileModel};
    ghost use Rattle.aim_manager.specs.Seen.{callers};
    ghost use Rattle.aim_manager.specs.declared.keeper.BookSetting.{BookSetting};

    ghost Value = { TurnstileModel BookSetting };

    ghost view = { λ m. m.turnstile };

    ghost invariant = { λ m. (m.layout ≡ m.turnstile.setting.layout) × (m.turnstile.numbers ≡ callers m.turnstile.setting.vehicles) };
}

/// A new manager with the passes of its callers.
pub struct Opened {
    pub manager: Manager,
    /// The passes of the vehicles, in the order of their numbers.
    pub passes: Vec<ManagerPass>,
    pub operator: ManagerPass,
}

/// What is left of a manager.
#[derive(Drop)]
pub struct Closed {
    /// All that was asked and answered, the oldest first.
    pub journal: Vec<Entry>,
}

// The numbers of all callers.
fn caller_numbers(alloc: Global, vehicles: u32) -> Result<Vec<u32>, NoMemory>
    ensures { IfOk result (λ numbers. numbers.items ≡ callers vehicles) }
{
    let mut numbers: Vec<u32> = (0..vehicles).collect(alloc)?;
    numbers.push(OPERATOR)?;
    Ok(numbers)
}

// A copy of the book's layout, and the numbers of its callers.
fn copied(alloc: Global, book: &IdleBook) -> Result<(Layout, Vec<u32>), NoMemory>
    ensures layout { IfOk result (λ p. p.0 ≡ book.now.layout) }
    ensures numbers { IfOk result (λ p. p.1.items ≡ callers book.now.vehicles) }
{
    let layout = book.layout().copy()?;
    let numbers = caller_numbers(alloc, book.vehicles())?;
    Ok((layout, numbers))
}

// Takes out the last pass.
fn last_pass(passes: &mut Vec<ManagerPass>) -> ManagerPass
    requires { 0 < length passes.old.items }
    ensures { passes.old.items ≡ passes.new.items ++ result ∷ [] }
{
    let Some(pass) = passes.pop() else {
        unreachable!()
    };
    pass
}

// The manager of a turn, beside a copy of its layout, with the passes of its callers, of which the last is the operator's.
fn seated(turnstile: Turnstile<Keeper>, layout: Layout, mut passes: Vec<ManagerPass>) -> Opened
    requires layout { layout ≡ turnstile.setting.layout }
    requires numbers { turnstile.numbers ≡ callers turnstile.setting.vehicles }
    requires passes { passes.items ≡ map (new_pass turnstile) turnstile.numbers }
    ensures manager { result.manager ≡ turnstile }
    ensures passes { result.passes.items ≡ map (new_pass result.manager) (range_with_len 0 turnstile.setting.vehicles) }
    ensures operator { result.operator ≡ new_pass result.manager OPERATOR }
{
    let operator = last_pass(&mut passes);
    Opened {
        manager: Manager { turnstile, layout },
        passes,
        operator,
    }
}

// Puts the keeper under a turn of these callers, beside a copy of its layout.
fn turned(
    alloc: Global,
    keeper: Keeper,
    layout: Layout,
    numbers: &[u32],
) -> Result<Opened, NoMemory>
    requires empty { keeper.journal ≡ [] }
    requires most { keeper.vehicles ≤ MOST_VEHICLES }
    requires layout { layout ≡ keeper.layout }
    requires numbers { numbers.now ≡ callers keeper.vehicles }
    ensures manager { IfOk result (λ o. o.manager.setting ≡ record { layout = keeper.layout; vehicles = keeper.vehicles; room = keeper.room }) }
    ensures passes { IfOk result (λ o. o.passes.items ≡ map (new_pass o.manager) (range_with_len 0 keeper.vehicles)) }
    ensures operator { IfOk result (λ o. o.operator ≡ new_pass o.manager OPERATOR) }
{
    let (turnstile, passes) = Turnstile::open(alloc, keeper, numbers)?;
    Ok(seated(turnstile, layout, passes))
}

// Puts the keeper under a turn of its callers, beside a copy of its layout.
fn shared(alloc: Global, keeper: Keeper) -> Result<Opened, NoMemory>
    requires empty { keeper.journal ≡ [] }
    requires most { keeper.vehicles ≤ MOST_VEHICLES }
    ensures manager { IfOk result (λ o. o.manager.setting ≡ record { layout = keeper.layout; vehicles = keeper.vehicles; room = keeper.room }) }
    ensures passes { IfOk result (λ o. o.passes.items ≡ map (new_pass o.manager) (range_with_len 0 keeper.vehicles)) }
    ensures operator { IfOk result (λ o. o.operator ≡ new_pass o.manager OPERATOR) }
{
    match copied(alloc, &keeper.book) {
        Ok((layout, numbers)) => turned(alloc, keeper, layout, &numbers),
        Err(no_memory) => {
            drop(keeper);
            Err(no_memory)
        }
    }
}

impl Manager {
    /// A manager with an empty journal, for that many vehicles and that many entries. It takes all its memory here.
    pub fn open(
        alloc: Global,
        layout: Layout,
        vehicles: u32,
        room: u32,
    ) -> Result<Opened, OpenFault>
        ensures manager { IfOk result (λ o. o.manager.setting ≡ record { layout = layout; vehicles = vehicles; room = room }) }
        ensures passes { IfOk result (λ o. o.passes.items ≡ map (new_pass o.manager) (range_with_len 0 vehicles)) }
        ensures operator { IfOk result (λ o. o.operator ≡ new_pass o.manager OPERATOR) }
        ensures vehicles { (result ≡ Err OpenFault.Vehicles) ↔ ((vehicles ≡ 0) ⊎ (MOST_VEHICLES < vehicles)) }
        ensures room { (result ≡ Err OpenFault.Room) ↔ ((0 < vehicles) × (vehicles ≤ MOST_VEHICLES) × ((room ≡ 0) ⊎ (MOST_ENTRIES < room))) }
    {
        let book = IdleBook::open(alloc, layout, vehicles, room)?;
        match shared(alloc, Keeper { book }) {
            Ok(opened) => Ok(opened),
            Err(_) => Err(OpenFault::NoMemory),
        }
    }

    /// Serves a message of the pass's vehicle at a moment, when its turn comes. The cells were prepared before: the sheet
    /// of the trial that a fresh Confirm grants is kept, and each sheet that isn't kept comes into `back`.
    pub fn serve<R: Wait>(
        &self,
        rt: &R,
        pass: &mut ManagerPass,
        moment: u32,
        prepared: Prepared,
        back: &mut Pool,
    ) -> Result<Reply, Full>
        requires own { IsPassOf self.now pass.old }
        requires vehicle { pass.old.number < self.now.setting.vehicles }
        requires moment { moment ≤ LATEST_MOMENT }
        requires prepared { IsPreparedFor self.now.setting.layout prepared }
        requires count { back.old.count ≤ 1000000 }
        requires room { back.old.room ≡ self.now.setting.layout.grid.spans }
        ensures same { IsSamePass pass.old pass.new }
        ensures served { IsServed self.now.setting moment (Act.Message prepared.message) result pass.old pass.new }
        ensures sheets { back.new.count + sheets_kept pass.new.number pass.new.mine ≡ back.old.count + sheets_kept pass.old.number pass.old.mine + 2 }
        ensures pool { back.new.room ≡ back.old.room }
    {
        let empty = Pool::empty(back.room());
        let ask = Ask::Serve {
            moment,
            prepared,
            sheets: mem::replace(back, empty),
        };
        let Told::Served { result, sheets } = self.turnstile.with_turn(rt, pass, ask) else {
            unreachable!()
        };
        *back = sheets;
        sheets_are_those_of_own_entries();
        result
    }

    /// Takes an order of the operator at a moment, when its turn comes.
    pub fn operate<R: Wait>(
        &self,
        rt: &R,
        operator: &mut ManagerPass,
        moment: u32,
        order: Order,
    ) -> Result<Reply, Full>
        requires own { IsPassOf self.now operator.old }
        requires number { operator.old.number ≡ OPERATOR }
        requires moment { moment ≤ LATEST_MOMENT }
        requires order { IsOfLayout self.now.setting.layout self.now.setting.vehicles OPERATOR (Act.Order order) }
        ensures same { IsSamePass operator.old operator.new }
        ensures served { IsServed self.now.setting moment (Act.Order order) result operator.old operator.new }
    {
        let ask = Ask::Operate { moment, order };
        let Told::Operated { result } = self.turnstile.with_turn(rt, operator, ask) else {
            unreachable!()
        };
        result
    }

    /// A note of what the pass has seen.
    pub fn front(&self, pass: &mut ManagerPass) -> ManagerFront
        requires own { pass.old.table ≡ self.now.table }
        ensures pass { pass.new ≡ pass.old }
        ensures front { result ≡ record { table = pass.old.table; setting = pass.old.setting; seen = pass.old.seen } }
    {
        self.turnstile.front(pass)
    }

    /// Lets the pass see what the front shows, so that its next call stands behind all of it.
    pub fn meet(&self, pass: &mut ManagerPass, front: ManagerFront)
        requires own { IsPassOf self.now pass.old }
        requires front { front.table ≡ self.now.table }
        ensures same { IsSamePass pass.old pass.new }
        ensures meets { Meets self.now.setting pass.old front pass.new }
    {
        self.turnstile.meet(pass, front);
    }

    /// The layout.
    pub fn layout(&self) -> &Layout
        ensures { result.now ≡ self.now.setting.layout }
    {
        &self.layout
    }

    /// Ends the turns, where the passes of all callers are there, those of the vehicles in any order. The journal begins
    /// with all that the passes have seen, and of each caller it has exactly its pass's entries. It takes no memory.
    pub fn close(self, passes: Vec<ManagerPass>, operator: ManagerPass) -> Closed
        requires own { All (λ p. p.table ≡ self.table) passes.items × (operator.table ≡ self.table) }
        requires all { length passes.items ≡ self.setting.vehicles }
        ensures legal { IsLegal self.setting.layout self.setting.vehicles result.journal.items }
        ensures fits { length result.journal.items ≤ self.setting.room }
        ensures passes { All (HasPass caller_of result.journal.items) (passes.items ++ operator ∷ []) }
        ensures numbers { IsPermutation (map (λ p. p.number) (passes.items ++ operator ∷ [])) (callers self.setting.vehicles) }
        ensures others { (n : ℕ) → ¬ Contains (callers self.setting.vehicles) n → entries_of caller_of n result.journal.items ≡ [] }
        ensures count { length result.journal.items ≡ sum_by (λ p. length p.mine) (passes.items ++ operator ∷ []) }
    {
        let Manager {
            turnstile,
            layout: _,
        } = self;
        let Keeper { book } = turnstile.close_with(passes, operator);
        let journal = book.into_journal();
        Closed { journal }
    }
}
