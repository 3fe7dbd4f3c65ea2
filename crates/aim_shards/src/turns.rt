//! The turns of the quadrants that a call touches.

ghost use Rattle.std.specs.Prelude.{◌≡◌, ◌<◌, ◌≤◌, ◌+◌, ℕ, suc, List, [], ◌∷◌, ◌++◌, length, Some, None};
ghost use Rattle.atomic_table.specs.Table.{rest};
ghost use Rattle.aim_tiles.specs.Sheets.{AreTiles};
ghost use Rattle.aim_shards.specs.Clear.{IsClear};
ghost use Rattle.aim_shards.specs.Sets.{lies_in, part, touched, IsOf};
ghost use Rattle.aim_shards.specs.Claims.{Moves};
ghost use Rattle.aim_shards.specs.Ruled.{working, Suits, Decides, entry_of, with_entry, noted};
ghost use Rattle.aim_shards.specs.Found.{IsFound};
ghost use Rattle.aim_shards.specs.Working.{head_or, entry, Rests, Works, Gives, TurnCame, InHand, TakesOut, IsEmptied, PutsIn, HasRoom, Announces, Notes};

use crate::claims::ClaimEntry;
use crate::quarter::{QuadrantPlan, Quarter};
use crate::rule::{Chair, Draw, Enter, Look, QuadrantTable, ServeNext};
use crate::sets::Quartered;
use aim_sheets::Sheet;
use std::hint;
use std::sync::Wait;

// The word that has the next ticket of all.
const TICKET: usize = 8;

// The word that has the first quadrant's ticket that is served.
const SERVING: usize = 4;

// Waits for the quadrant's turn. Its caller went through the quadrant's door, so the ticket is served at once.
fn enter<R: Wait>(rt: &R, desk: &QuadrantTable, seat: &mut Chair, quadrant: usize)
    requires desk { (seat.old.table_id ≡ desk.now.shared.table_id) × (desk.now.shared.table_id.words ≡ 9) }
    requires quadrant { quadrant < 4 }
    requires works { ((n : ℕ) × (seat.old.me.0 ≡ working seat.old.me.0.terms n seat.old.me.0.held seat.old.me.0.mine)) × (length seat.old.me.0.held ≤ 3) }
    ensures seat { (seat.new.table_id ≡ seat.old.table_id) × (seat.new.id ≡ seat.old.id) }
    ensures came { TurnCame quadrant seat.old.me seat.new.me }
{
    let ticket = desk.shared.fetch_add::<Draw>(seat, quadrant, 1);
    for _ in rt.forever() {
        let serving = desk.shared.load::<Look>(seat, SERVING + quadrant);
        if serving == ticket {
            return;
        }
        hint::spin_loop();
    }
    unreachable!()
}

// Takes the value out of the slot that the seat has in hand.
fn take(desk: &QuadrantTable, seat: &mut Chair, quadrant: usize) -> Quarter
    requires desk { seat.old.table_id ≡ desk.now.shared.table_id }
    requires held { InHand quadrant seat.old.me }
    ensures seat { (seat.new.table_id ≡ seat.old.table_id) × (seat.new.id ≡ seat.old.id) }
    ensures taken { TakesOut quadrant result seat.old.me seat.new.me }
{
    let Some(quarter) = desk.shared.exchange(seat, quadrant, None) else {
        unreachable!()
    };
    quarter
}

// Puts the value back.
fn put(desk: &QuadrantTable, seat: &mut Chair, quadrant: usize, quarter: Quarter)
    requires desk { seat.old.table_id ≡ desk.now.shared.table_id }
    requires held { IsEmptied quadrant seat.old.me }
    ensures seat { (seat.new.table_id ≡ seat.old.table_id) × (seat.new.id ≡ seat.old.id) }
    ensures given { PutsIn quadrant quarter seat.old.me seat.new.me }
{
    let None = desk.shared.exchange(seat, quadrant, Some(quarter)) else {
        unreachable!()
    };
}

// Whether the sheet's cells are free in the quadrant whose slot the seat has in hand.
fn is_free(desk: &QuadrantTable, seat: &mut Chair, quadrant: usize, sheet: &Sheet) -> bool
    requires desk { seat.old.table_id ≡ desk.now.shared.table_id }
    requires held { InHand quadrant seat.old.me }
    requires tiles { (h : InHand quadrant seat.old.me) → AreTiles h.value.table.size sheet.now.spans }
    ensures seat { (seat.new.table_id ≡ seat.old.table_id) × (seat.new.id ≡ seat.old.id) × (seat.new.me ≡ seat.old.me) }
    ensures free { (h : InHand quadrant seat.old.me) → IsClear h.value.table sheet.now.spans result }
{
    let taken = take(desk, seat, quadrant);
    let (quarter, free) = taken.look(sheet);
    put(desk, seat, quadrant, quarter);
    free
}

// Announces in the slot in hand what is about to be entered.
fn announce(desk: &QuadrantTable, seat: &mut Chair, quadrant: usize, plan: QuadrantPlan)
    requires desk { seat.old.table_id ≡ desk.now.shared.table_id }
    requires held { InHand quadrant seat.old.me }
    ensures seat { (seat.new.table_id ≡ seat.old.table_id) × (seat.new.id ≡ seat.old.id) }
    ensures plan { Announces quadrant plan seat.old.me seat.new.me }
{
    let mut quarter = take(desk, seat, quadrant);
    quarter.plan = plan;
    put(desk, seat, quadrant, quarter);
}

// Adds the entry to the list of the quadrant whose slot the seat has in hand. It claims or frees the sheet's cells.
fn note(desk: &QuadrantTable, seat: &mut Chair, quadrant: usize, entry: ClaimEntry, sheet: &Sheet)
    requires desk { seat.old.table_id ≡ desk.now.shared.table_id }
    requires held { HasRoom quadrant sheet.now.spans seat.old.me }
    ensures seat { (seat.new.table_id ≡ seat.old.table_id) × (seat.new.id ≡ seat.old.id) }
    ensures noted { Notes quadrant sheet.now.spans entry seat.old.me seat.new.me }
{
    let quarter = take(desk, seat, quadrant);
    put(desk, seat, quadrant, quarter.note(entry, sheet));
}

/// What was found on the way: whether the cells are free so far, and the last quadrant whose turn came.
#[derive(Clone, Copy)]
pub(crate) struct Found {
    pub free: bool,
    pub last: usize,
}

// Takes the quadrant's turn, where the set touches it.
fn take_turn<R: Wait>(
    rt: &R,
    desk: &QuadrantTable,
    seat: &mut Chair,
    number: u32,
    set: &Quartered,
    quadrant: usize,
    found: Found,
) -> Found
    requires desk { (seat.old.table_id ≡ desk.now.shared.table_id) × (desk.now.shared.table_id.words ≡ 9) }
    requires quadrant { quadrant < 4 }
    requires works { Works number seat.old.me.0.terms seat.old.me.0.mine (touched set.now quadrant) seat.old.me }
    requires found { IsFound set.now quadrant seat.old.me found }
    requires of { IsOf seat.old.me.0.terms.sets set.now }
    ensures seat { (seat.new.table_id ≡ seat.old.table_id) × (seat.new.id ≡ seat.old.id) }
    ensures works { Works number seat.old.me.0.terms seat.old.me.0.mine (touched set.now (suc quadrant)) seat.new.me }
    ensures found { IsFound set.now (suc quadrant) seat.new.me result }
    ensures four { length set.now ≡ 4 }
{
    if !set.touches(quadrant) {
        return found;
    }
    enter(rt, desk, seat, quadrant);
    let free = found.free && is_free(desk, seat, quadrant, set.part(quadrant));
    Found {
        free,
        last: quadrant,
    }
}

// Takes the turns of the quadrants that the set touches, in rising order.
pub(crate) fn take_turns<R: Wait>(
    rt: &R,
    desk: &QuadrantTable,
    seat: &mut Chair,
    number: u32,
    set: &Quartered,
) -> Found
    requires desk { (seat.old.table_id ≡ desk.now.shared.table_id) × (desk.now.shared.table_id.words ≡ 9) }
    requires rests { Rests number seat.old.me }
    requires of { IsOf seat.old.me.0.terms.sets set.now }
    ensures seat { (seat.new.table_id ≡ seat.old.table_id) × (seat.new.id ≡ seat.old.id) }
    ensures works { Works number seat.old.me.0.terms seat.old.me.0.mine (touched set.now 4) seat.new.me }
    ensures found { IsFound set.now 4 seat.new.me result }
    ensures four { length set.now ≡ 4 }
{
    let mut found = Found {
        free: true,
        last: 0,
    };
    for quadrant in 0..4 {
        found = take_turn(rt, desk, seat, number, set, quadrant, found);
    }
    found
}

// Draws the ticket of the entry that the plan announces.
fn draw(
    desk: &QuadrantTable,
    seat: &mut Chair,
    number: u32,
    set: &Quartered,
    last: usize,
    plan: QuadrantPlan,
) -> u32
    requires desk { (seat.old.table_id ≡ desk.now.shared.table_id) × (desk.now.shared.table_id.words ≡ 9) }
    requires works { (qs : List ℕ) × Works number seat.old.me.0.terms seat.old.me.0.mine (last ∷ qs) seat.old.me }
    requires calls { length seat.old.me.0.mine < desk.now.shared.key.calls }
    requires decides { Decides seat.old.me.0.terms.sets number seat.old.me.0.held seat.old.me.0.mine plan }
    requires moves { Moves seat.old.me.0.terms.sets set.now seat.old.me.0.mine plan.act plan.yes }
    ensures seat { (seat.new.table_id ≡ seat.old.table_id) × (seat.new.id ≡ seat.old.id) }
    ensures gives { (qs : List ℕ) → Works number seat.old.me.0.terms seat.old.me.0.mine qs seat.old.me
        → Gives number seat.old.me.0.terms (seat.old.me.0.mine ++ entry result number plan ∷ []) set.now (entry result number plan) qs seat.new.me }
{
    announce(desk, seat, last, plan);
    let ticket = desk.shared.fetch_add::<Enter>(seat, TICKET, 1);
    ticket as u32
}

// Enters the entry and gives the quadrant's turn back, where the set touches it.
fn give_turn(
    desk: &QuadrantTable,
    seat: &mut Chair,
    number: u32,
    set: &Quartered,
    quadrant: usize,
    entry: ClaimEntry,
)
    requires desk { (seat.old.table_id ≡ desk.now.shared.table_id) × (desk.now.shared.table_id.words ≡ 9) }
    requires quadrant { quadrant < 4 }
    requires gives { Gives number seat.old.me.0.terms seat.old.me.0.mine set.now entry (touched set.now (suc quadrant)) seat.old.me }
    requires of { IsOf seat.old.me.0.terms.sets set.now }
    ensures seat { (seat.new.table_id ≡ seat.old.table_id) × (seat.new.id ≡ seat.old.id) }
    ensures gives { Gives number seat.old.me.0.terms seat.old.me.0.mine set.now entry (touched set.now quadrant) seat.new.me }
{
    if !set.touches(quadrant) {
        return;
    }
    note(desk, seat, quadrant, entry, set.part(quadrant));
    desk.shared
        .fetch_add::<ServeNext>(seat, SERVING + quadrant, 1);
}

// Enters the entry and gives all turns back, the last one first.
fn give_turns(
    desk: &QuadrantTable,
    seat: &mut Chair,
    number: u32,
    set: &Quartered,
    entry: ClaimEntry,
)
    requires desk { (seat.old.table_id ≡ desk.now.shared.table_id) × (desk.now.shared.table_id.words ≡ 9) }
    requires gives { Gives number seat.old.me.0.terms seat.old.me.0.mine set.now entry (touched set.now 4) seat.old.me }
    requires of { IsOf seat.old.me.0.terms.sets set.now }
    ensures seat { (seat.new.table_id ≡ seat.old.table_id) × (seat.new.id ≡ seat.old.id) }
    ensures rests { seat.new.me ≡ (working seat.old.me.0.terms number [] seat.old.me.0.mine, []) }
{
    let mut quadrant = 4;
    while quadrant > 0 {
        quadrant -= 1;
        give_turn(desk, seat, number, set, quadrant, entry);
    }
}

// Makes the entry that the plan announces, and gives the turns back.
pub(crate) fn make(
    desk: &QuadrantTable,
    seat: &mut Chair,
    number: u32,
    set: &Quartered,
    last: usize,
    plan: QuadrantPlan,
) -> ClaimEntry
    requires desk { (seat.old.table_id ≡ desk.now.shared.table_id) × (desk.now.shared.table_id.words ≡ 9) }
    requires works { Works number seat.old.me.0.terms seat.old.me.0.mine (touched set.now 4) seat.old.me }
    requires last { last ≡ head_or (touched set.now 4) 0 }
    requires of { IsOf seat.old.me.0.terms.sets set.now }
    requires calls { length seat.old.me.0.mine < desk.now.shared.key.calls }
    requires decides { Decides seat.old.me.0.terms.sets number seat.old.me.0.held seat.old.me.0.mine plan }
    requires moves { Moves seat.old.me.0.terms.sets set.now seat.old.me.0.mine plan.act plan.yes }
    ensures seat { (seat.new.table_id ≡ seat.old.table_id) × (seat.new.id ≡ seat.old.id) }
    ensures entry { result ≡ entry result.ticket number plan }
    ensures made { seat.new.me ≡ (working seat.old.me.0.terms number [] (seat.old.me.0.mine ++ result ∷ []), []) }
{
    let ticket = draw(desk, seat, number, set, last, plan);
    let entry = ClaimEntry {
        ticket,
        caller: number,
        act: plan.act,
        yes: plan.yes,
    };
    give_turns(desk, seat, number, set, entry);
    entry
}
