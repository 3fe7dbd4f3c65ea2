//! The turnstile: a ticket lock with one history.
ghost use Rattle.std.specs.Prelude.{◌≡◌, ◌≢◌, ℕ, List, [], ◌∷◌, ◌++◌, ◌+◌, ◌^◌, ◌<◌, ◌≤◌, length, map, sum_by, vec_capacity, Contains, IsPermutation, All, AllPairs, IfOk, Some};
ghost use Rattle.aim_turnstile.specs.Turned.{meaning, Rests, Drew, Waits, Came, Entered, Leaves, Left, opening_view, Gathers, Ends};
ghost use Rattle.aim_turnstile.specs.History.{entries_of};
ghost use Rattle.aim_turnstile.specs.Models.{IsPassOf, IsSamePass, MakesCall, HasPass, MeetsFront, PassModel, new_pass};

use crate::NoMemory;
use crate::kept::Kept;
use crate::pass::{Front, Pass};
use crate::rule::{
    Arrive, Chair, Count, Deal, Draw, Gather, Look, Note, Opening, Refresh, ServeNext, TurnTable,
};
use atomic_table::Table;
use std::alloc::Global;
use std::hint;
use std::marker::Model;
use std::snapshot::Snapshot;
use std::sync::{Mutex, Wait};

// The word that has the next ticket to draw.
const TICKET: usize = 0;

// The word that has the ticket whose turn it is.
const SERVING: usize = 1;

// The word that has the length of the history.
const COUNT: usize = 2;

// Takes the kept value out of the slot that the seat has in hand.
fn take<K: Kept>(desk: &TurnTable<K>, seat: &mut Chair<K>) -> K
    requires desk { seat.old.table_id ≡ desk.now.shared.table_id }
    requires held { (k : K) × (seat.old.me.1 ≡ (0, Some k) ∷ []) }
    ensures seat { (seat.new.table_id ≡ seat.old.table_id) × (seat.new.id ≡ seat.old.id) }
    ensures taken { (seat.old.me.1 ≡ (0, Some result) ∷ []) × (seat.new.me ≡ (seat.old.me.0, (0, None) ∷ [])) }
{
    let Some(kept) = desk.shared.exchange(seat, 0, None) else {
        unreachable!()
    };
    kept
}

// Draws a ticket.
fn draw<K: Kept>(desk: &TurnTable<K>, seat: &mut Chair<K>) -> u64
    requires desk { (seat.old.table_id ≡ desk.now.shared.table_id) × (desk.now.shared.table_id.words ≡ 3) }
    requires rests { (number : ℕ) × Rests (meaning K.setting K.entries K.caller_of K.is_lawful)
        (K.setting desk.now.shared.key.kept.value) number seat.old.me }
    ensures seat { (seat.new.table_id ≡ seat.old.table_id) × (seat.new.id ≡ seat.old.id) }
    ensures drew { Drew (meaning K.setting K.entries K.caller_of K.is_lawful) seat.old.me result seat.new.me }
{
    desk.shared.fetch_add::<Draw>(seat, TICKET, 1)
}

// Waits for the ticket's turn, which brings the kept value. Its caller is inside of the door, so the turn comes at once.
fn wait<K: Kept, R: Wait>(rt: &R, desk: &TurnTable<K>, seat: &mut Chair<K>, ticket: u64)
    requires desk { (seat.old.table_id ≡ desk.now.shared.table_id) × (desk.now.shared.table_id.words ≡ 3) }
    requires waits { (number : ℕ) × Waits (meaning K.setting K.entries K.caller_of K.is_lawful)
        (K.setting desk.now.shared.key.kept.value) number ticket seat.old.me }
    ensures seat { (seat.new.table_id ≡ seat.old.table_id) × (seat.new.id ≡ seat.old.id) }
    ensures came { Came (meaning K.setting K.entries K.caller_of K.is_lawful) seat.old.me seat.new.me }
{
    for _ in rt.forever() {
        let serving = desk.shared.load::<Look>(seat, SERVING);
        if serving == ticket {
            return;
        }
        hint::spin_loop();
    }
}

// Draws a ticket, waits for its turn, and takes the kept value.
fn enter<K: Kept, R: Wait>(rt: &R, desk: &TurnTable<K>, seat: &mut Chair<K>, number: u32) -> K
    requires desk { (seat.old.table_id ≡ desk.now.shared.table_id) × (desk.now.shared.table_id.words ≡ 3) }
    requires rests { Rests (meaning K.setting K.entries K.caller_of K.is_lawful)
        (K.setting desk.now.shared.key.kept.value) number seat.old.me }
    ensures seat { (seat.new.table_id ≡ seat.old.table_id) × (seat.new.id ≡ seat.old.id) }
    ensures entered { Entered (meaning K.setting K.entries K.caller_of K.is_lawful)
        (K.setting desk.now.shared.key.kept.value) number seat.old.me result seat.new.me }
{
    let ticket = draw(desk, seat);
    wait(rt, desk, seat, ticket);
    take(desk, seat)
}

// Gives the kept value back, counts the entry if one was made, and serves the next ticket.
fn leave<K: Kept>(desk: &TurnTable<K>, seat: &mut Chair<K>, number: u32, kept: K, made: bool)
    requires desk { (seat.old.table_id ≡ desk.now.shared.table_id) × (desk.now.shared.table_id.words ≡ 3) }
    requires leaves { Leaves (meaning K.setting K.entries K.caller_of K.is_lawful)
        (K.setting desk.now.shared.key.kept.value) number seat.old.me kept made }
    ensures seat { (seat.new.table_id ≡ seat.old.table_id) × (seat.new.id ≡ seat.old.id) }
    ensures left { Left (meaning K.setting K.entries K.caller_of K.is_lawful)
        (K.setting desk.now.shared.key.kept.value) number seat.old.me kept made seat.new.me }
{
    let None = desk.shared.exchange(seat, 0, Some(kept)) else {
        unreachable!()
    };
    if made {
        desk.shared.fetch_add::<Count>(seat, COUNT, 1);
    }
    desk.shared.fetch_add::<ServeNext>(seat, SERVING, 1);
}

// What the rule is told at the opening.
fn opening<K: Kept>(alloc: Global, kept: &K, numbers: &[u32]) -> Result<Opening<K>, NoMemory>
    ensures { IfOk result (λ o. (o.kept.value ≡ kept.now) × (o.numbers.value.items ≡ numbers.now)) }
{
    let list = Vec::from_slice(alloc, numbers)?;
    Ok(Opening {
        kept: Snapshot::of(kept),
        numbers: Snapshot::of(&list),
    })
}

// The one slot, with the kept value in it.
fn one_slot<K: Kept>(alloc: Global, kept: K) -> Result<Vec<Option<K>>, NoMemory>
    ensures { IfOk result (λ slots. slots.items ≡ Some kept ∷ []) }
{
    let mut slots = Vec::with_capacity(alloc, 1)?;
    slots.push_reserved(Some(kept));
    Ok(slots)
}

// The table under the rule that was told so, with the seat that has all numbers to give.
fn ruled<K: Kept>(
    alloc: Global,
    kept: K,
    about: &Opening<K>,
) -> Result<(TurnTable<K>, Chair<K>), NoMemory>
    requires kept { about.now.kept.value ≡ kept }
    requires few { length about.now.numbers.value.items < 2 ^ 64 }
    requires distinct { AllPairs (λ m n. m ≢ n) about.now.numbers.value.items }
    requires empty { K.entries kept ≡ [] }
    ensures counts { IfOk result (λ r. (r.0.shared.table_id.words ≡ 3) × (r.0.shared.table_id.slots ≡ 1)) }
    ensures key { IfOk result (λ r. (r.0.shared.key.kept.value ≡ kept) × (r.0.shared.key.numbers.value.items ≡ about.now.numbers.value.items)) }
    ensures seat { IfOk result (λ r. (r.1.table_id ≡ r.0.shared.table_id) × (r.1.me ≡ (opening_view (K.setting kept) about.now.numbers.value.items, []))) }
{
    let slots = one_slot(alloc, kept)?;
    match Table::new(alloc, &[0, 0, 0], slots, about) {
        Ok(ruled) => Ok(ruled),
        Err(_) => Err(NoMemory),
    }
}

// The table, with the seat that has all numbers to give.
fn laid<K: Kept>(
    alloc: Global,
    kept: K,
    numbers: &[u32],
) -> Result<(TurnTable<K>, Chair<K>), NoMemory>
    requires distinct { AllPairs (λ m n. m ≢ n) numbers.now }
    requires empty { K.entries kept ≡ [] }
    ensures counts { IfOk result (λ r. (r.0.shared.table_id.words ≡ 3) × (r.0.shared.table_id.slots ≡ 1)) }
    ensures key { IfOk result (λ r. (r.0.shared.key.kept.value ≡ kept) × (r.0.shared.key.numbers.value.items ≡ numbers.now)) }
    ensures seat { IfOk result (λ r. (r.1.table_id ≡ r.0.shared.table_id) × (r.1.me ≡ (opening_view (K.setting kept) numbers.now, []))) }
{
    let about = opening(alloc, &kept, numbers)?;
    ruled(alloc, kept, &about)
}

// Deals a pass to each number, in their order, from the seat that has them all to give.
fn deal<K: Kept>(
    desk: &TurnTable<K>,
    mut root: Chair<K>,
    numbers: &[u32],
    mut passes: Vec<Pass<K>>,
) -> Vec<Pass<K>>
    requires desk { (root.table_id ≡ desk.now.shared.table_id) × (desk.now.shared.table_id.words ≡ 3) }
    requires root { root.me ≡ (opening_view (K.setting desk.now.shared.key.kept.value) numbers.now, []) }
    requires room { length numbers.now ≤ vec_capacity passes }
    requires none { passes.items ≡ [] }
    ensures { result.items ≡ map (new_pass (record {
      table = desk.now.shared.table_id;
      setting = K.setting desk.now.shared.key.kept.value;
      numbers = numbers.now;
    })) numbers.now }
{
    for number in numbers {
        let seat = desk.shared.split_seat::<Deal>(&mut root);
        passes.push_reserved(Pass {
            number: *number,
            seat,
        });
    }
    passes
}

// Takes one pass into the seat.
fn take_in<K: Kept>(desk: &TurnTable<K>, main: &mut Chair<K>, pass: Pass<K>)
    requires desk { (main.old.table_id ≡ desk.now.shared.table_id) × (desk.now.shared.table_id.words ≡ 3) }
    requires main { (start : List (PassModel K.Setting K.Entry)) × Gathers (K.setting desk.now.shared.key.kept.value) desk.now.shared.key.numbers.value.items start main.old.me }
    requires own { pass.table ≡ desk.now.shared.table_id }
    ensures seat { (main.new.table_id ≡ main.old.table_id) × (main.new.id ≡ main.old.id) }
    ensures main { (start : List (PassModel K.Setting K.Entry))
        → Gathers (K.setting desk.now.shared.key.kept.value) desk.now.shared.key.numbers.value.items start main.old.me
        → Gathers (K.setting desk.now.shared.key.kept.value) desk.now.shared.key.numbers.value.items (pass ∷ start) main.new.me }
{
    let Pass { number: _, seat } = pass;
    desk.shared.join_seat::<Gather>(main, seat);
}

// Takes all passes into one seat.
fn gather<K: Kept>(desk: &TurnTable<K>, main: &mut Chair<K>, mut passes: Vec<Pass<K>>)
    requires desk { (main.old.table_id ≡ desk.now.shared.table_id) × (desk.now.shared.table_id.words ≡ 3) }
    requires main { (start : List (PassModel K.Setting K.Entry)) × Gathers (K.setting desk.now.shared.key.kept.value) desk.now.shared.key.numbers.value.items start main.old.me }
    requires own { All (λ p. p.table ≡ desk.now.shared.table_id) passes.items }
    ensures seat { (main.new.table_id ≡ main.old.table_id) × (main.new.id ≡ main.old.id) }
    ensures main { (start : List (PassModel K.Setting K.Entry))
        → Gathers (K.setting desk.now.shared.key.kept.value) desk.now.shared.key.numbers.value.items start main.old.me
        → Gathers (K.setting desk.now.shared.key.kept.value) desk.now.shared.key.numbers.value.items (passes.items ++ start) main.new.me }
{
    while let Some(pass) = passes.pop() {
        take_in(desk, main, pass);
    }
}

// Ends the turns, where one seat has taken in the passes of all numbers.
fn finish<K: Kept>(desk: TurnTable<K>, main: Chair<K>) -> K
    requires desk { (main.table_id ≡ desk.shared.table_id) × (desk.shared.table_id.slots ≡ 1) }
    requires main { (ps : List (PassModel K.Setting K.Entry)) × Gathers (K.setting desk.shared.key.kept.value) desk.shared.key.numbers.value.items ps main.me × (length ps ≡ length desk.shared.key.numbers.value.items) }
    ensures { (ps : List (PassModel K.Setting K.Entry))
        → Gathers (K.setting desk.shared.key.kept.value) desk.shared.key.numbers.value.items ps main.me
        → length ps ≡ length desk.shared.key.numbers.value.items
        → Ends (meaning K.setting K.entries K.caller_of K.is_lawful) (K.setting desk.shared.key.kept.value) desk.shared.key.numbers.value.items ps result }
{
    let mut closed = desk.close_with(main);
    let Some(kept) = closed.take(0) else {
        unreachable!()
    };
    closed.free();
    kept
}

/// A value under a turn.
///
/// Contracts see its name, the setting of its value, and the numbers that it was opened with.
#[derive(Drop)]
pub struct Turnstile<K: Kept> {
    desk: TurnTable<K>,

    // Here callers wait, asleep, until nobody else is inside. It says nothing in contracts: the tickets do.
    door: Mutex<()>,
}

impl<K: Kept> Model for Turnstile<K> {
    ghost use Rattle.std.specs.Prelude.{◌≡◌};
    ghost use Rattle.aim_turnstile.specs.Models.{TurnstileModel};

    ghost Value = { TurnstileModel K.Setting };

    ghost view = { λ t. record { table = t.desk.shared.table_id; setting = K.setting t.desk.shared.key.kept.value; numbers = t.desk.shared.key.numbers.value.items } };

    ghost invariant = { λ t. (t.desk.shared.table_id.words ≡ 3) × (t.desk.shared.table_id.slots ≡ 1) };
}

impl<K: Kept> Turnstile<K> {
    /// Puts the value under a turn, with a pass for each number, in the order of the numbers.
    /// Where memory is missing, the value is let go.
    pub fn open(
        alloc: Global,
        kept: K,
        numbers: &[u32],
    ) -> Result<(Turnstile<K>, Vec<Pass<K>>), NoMemory>
        requires some { 0 < length numbers.now }
        requires distinct { AllPairs (λ m n. m ≢ n) numbers.now }
        requires empty { K.entries kept ≡ [] }
        ensures turnstile { IfOk result (λ r. (r.0.setting ≡ K.setting kept) × (r.0.numbers ≡ numbers.now)) }
        ensures passes { IfOk result (λ r. r.1.items ≡ map (new_pass r.0) numbers.now) }
    {
        let passes = Vec::with_capacity(alloc, numbers.len())?;
        let (desk, root) = laid(alloc, kept, numbers)?;
        let passes = deal(&desk, root, numbers, passes);
        let door = Mutex::new(());
        Ok((Turnstile { desk, door }, passes))
    }

    /// Waits for the turn and makes one call. What the pass has seen then ends with the call's entry, if it made one.
    pub fn with_turn<R: Wait>(&self, rt: &R, pass: &mut Pass<K>, call: K::Call) -> K::Answer
        requires own { IsPassOf self.now pass.old }
        requires may_call { K.may_call self.now.setting pass.old.number call }
        ensures same { IsSamePass pass.old pass.new }
        ensures call { MakesCall K.caller_of K.is_lawful K.does self.now.setting call result (K.is_made result) pass.old pass.new }
    {
        let number = pass.number;
        let inside = self.door.lock(rt);
        let kept = enter(rt, &self.desk, &mut pass.seat, number);
        let (kept, answer) = kept.apply(number, call);
        let made = K::made(&answer);
        leave(&self.desk, &mut pass.seat, number, kept, made);
        drop(inside);
        answer
    }

    /// A note of what the pass has seen.
    pub fn front(&self, pass: &mut Pass<K>) -> Front<K>
        requires own { pass.old.table ≡ self.now.table }
        ensures pass { pass.new ≡ pass.old }
        ensures front { result ≡ record { table = pass.old.table; setting = pass.old.setting; seen = pass.old.seen } }
    {
        let seat = self.desk.shared.split_seat::<Note>(&mut pass.seat);
        Front { seat }
    }

    /// Lets the pass see what the front shows, so that its next entry stands behind all of it.
    pub fn meet(&self, pass: &mut Pass<K>, front: Front<K>)
        requires own { IsPassOf self.now pass.old }
        requires front { front.table ≡ self.now.table }
        ensures same { IsSamePass pass.old pass.new }
        ensures meets { MeetsFront K.caller_of K.is_lawful self.now.setting pass.old front pass.new }
    {
        let Front { seat } = front;
        self.desk.shared.join_seat::<Gather>(&mut pass.seat, seat);
        self.desk.shared.load::<Refresh>(&mut pass.seat, SERVING);
    }

    /// Ends the turns, where all passes are there, in any order. The value's history begins with all that the passes
    /// have seen, and of each number it has exactly its pass's entries.
    pub fn close(self, passes: Vec<Pass<K>>) -> K
        requires own { All (λ p. p.table ≡ self.table) passes.items }
        requires all { length passes.items ≡ length self.numbers }
        ensures setting { K.setting result ≡ self.setting }
        ensures lawful { K.is_lawful self.setting (K.entries result) }
        ensures passes { All (HasPass K.caller_of (K.entries result)) passes.items }
        ensures numbers { IsPermutation (map (λ p. p.number) passes.items) self.numbers }
        ensures others { (n : ℕ) → ¬ Contains self.numbers n → entries_of K.caller_of n (K.entries result) ≡ [] }
        ensures count { length (K.entries result) ≡ sum_by (λ p. length p.mine) passes.items }
    {
        let Turnstile { desk, door: _ } = self;
        let (_, mut main) = desk.shared.load_new_seat::<Arrive>(SERVING);
        gather(&desk, &mut main, passes);
        finish(desk, main)
    }

    /// Ends the turns as `close` does, where one pass stands beside the others. It takes no memory, as a push onto
    /// `passes` might.
    pub fn close_with(self, passes: Vec<Pass<K>>, last: Pass<K>) -> K
        requires own { All (λ p. p.table ≡ self.table) passes.items × (last.table ≡ self.table) }
        requires all { length passes.items + 1 ≡ length self.numbers }
        ensures setting { K.setting result ≡ self.setting }
        ensures lawful { K.is_lawful self.setting (K.entries result) }
        ensures passes { All (HasPass K.caller_of (K.entries result)) (passes.items ++ last ∷ []) }
        ensures numbers { IsPermutation (map (λ p. p.number) (passes.items ++ last ∷ [])) self.numbers }
        ensures others { (n : ℕ) → ¬ Contains self.numbers n → entries_of K.caller_of n (K.entries result) ≡ [] }
        ensures count { length (K.entries result) ≡ sum_by (λ p. length p.mine) (passes.items ++ last ∷ []) }
    {
        let Turnstile { desk, door: _ } = self;
        let (_, mut main) = desk.shared.load_new_seat::<Arrive>(SERVING);
        take_in(&desk, &mut main, last);
        gather(&desk, &mut main, passes);
        finish(desk, main)
    }
}
