//! Opening.

ghost use Rattle.std.specs.Prelude.{◌≡◌, ◌≢◌, ◌⊎◌, ◌<◌, ◌≤◌, ◌*◌, ℕ, List, [], ◌∷◌, Some, None, length, map, vec_capacity, All, AllPairs, IfOk, MatchResult};
ghost use Rattle.aim_shards.specs.declared.opening.ShardFault.TheVariants.{NoMemory};
ghost use Rattle.aim_shards.specs.Cuts.{AreCut, AreWithin, half_of};
ghost use Rattle.aim_shards.specs.Models.{count_up, new_pass};
ghost use Rattle.aim_shards.specs.Grid.{AreOnGrid};
ghost use Rattle.aim_shards.specs.Opening.{fault_of};
ghost use Rattle.aim_shards.specs.Ruled.{Suits, opening_view};
ghost use Rattle.aim_shards.specs.Sets.{Quarters};
ghost use Rattle.aim_shards.specs.declared.quarter.Quarter.{Quarter};

use crate::calls::Shards;
use crate::claims::{ClaimAct, ClaimEntry};
use crate::cuts::quarter_all;
use crate::doors::Doors;
use crate::pass::ShardPass;
use crate::quarter::{QuadrantPlan, Quarter};
use crate::rule::{Chair, Deal, Opening, QuadrantTable};
use crate::sets::{Quartered, no_cells};
use aim_sheets::Sheet;
use aim_tiles::IdleTable;
use atomic_table::Table;
use std::alloc::{AllocError, Global};
use std::snapshot::Snapshot;

/// Why shards were not opened.
#[derive(Clone, Copy, Debug)]
pub enum ShardFault {
    /// There is no memory for it.
    NoMemory,
    /// The number of callers isn't 1 to 64.
    Callers,
    /// The number of calls of a caller isn't 1 to 1,024.
    Calls,
    /// There are more than 1,024 sets.
    Sets,
}

/// Shards with a pass for each caller.
pub struct OpenedShards {
    pub shards: Shards,
    pub passes: Vec<ShardPass>,
}

// The first of the causes, other than want of memory.
fn fault_of(callers: u32, calls: u32, sets: usize) -> Option<ShardFault>
    ensures { result ≡ fault_of callers calls sets }
{
    if !(1..=64).contains(&callers) {
        return Some(ShardFault::Callers);
    }
    if !(1..=1024).contains(&calls) {
        return Some(ShardFault::Calls);
    }
    if sets > 1024 {
        return Some(ShardFault::Sets);
    }
    None
}

// The callers' numbers.
fn count_up(alloc: Global, callers: u32) -> Result<Vec<u32>, AllocError>
    ensures { IfOk result (λ v. v.items ≡ count_up callers) }
{
    let mut numbers = Vec::with_capacity(alloc, callers as usize)?;
    for number in 0..callers {
        numbers.push_reserved(number);
    }
    Ok(numbers)
}

// An empty quadrant with room for so many entries.
fn new_quarter(alloc: Global, room: usize, n: u32, horizon: u32) -> Result<Quarter, AllocError>
    requires n { (1 ≤ n) × (n ≤ 64) }
    requires horizon { (1 ≤ horizon) × (horizon ≤ 8192) }
    ensures { IfOk result (λ k. (q : ℕ) (sets : List Quarters) → q < 4 → AreWithin n horizon sets → Suits (record { room = room; sets = sets }) q [] k) }
{
    Ok(Quarter {
        entries: Vec::with_capacity(alloc, room)?,
        table: IdleTable::new(alloc, n, horizon)?,
        plan: QuadrantPlan {
            act: ClaimAct::Free(0),
            yes: false,
        },
    })
}

// The quadrants of a table: four that are empty, with room for so many entries each.
fn four_quarters(
    alloc: Global,
    room: usize,
    n: u32,
    horizon: u32,
) -> Result<Vec<Option<Quarter>>, AllocError>
    requires n { (1 ≤ n) × (n ≤ 64) }
    requires horizon { (1 ≤ horizon) × (horizon ≤ 8192) }
    ensures { IfOk result (λ v. (a : Quarter) × (b : Quarter) × (c : Quarter) × (d : Quarter) × (v.items ≡ Some a ∷ Some b ∷ Some c ∷ Some d ∷ []) × ((k : Quarter) → (k ≡ a) ⊎ (k ≡ b) ⊎ (k ≡ c) ⊎ (k ≡ d) → (q : ℕ) (sets : List Quarters) → q < 4 → AreWithin n horizon sets → Suits (record { room = room; sets = sets }) q [] k)) }
{
    let mut slots = Vec::with_capacity(alloc, 4)?;
    for _ in 0..4u32 {
        slots.push_reserved(Some(new_quarter(alloc, room, n, horizon)?));
    }
    Ok(slots)
}

// The table, with the seat that has all numbers to give.
fn laid(
    alloc: Global,
    n: u32,
    horizon: u32,
    sheets: Snapshot<Vec<Sheet>>,
    sets: &Vec<Quartered>,
    numbers: &Vec<u32>,
    calls: u32,
) -> Result<(QuadrantTable, Chair), AllocError>
    requires n { (1 ≤ n) × (n ≤ 64) }
    requires horizon { (1 ≤ horizon) × (horizon ≤ 8192) }
    requires within { AreWithin n horizon sets.now.items }
    requires distinct { AllPairs (λ m n. m ≢ n) numbers.now.items }
    requires few { (length numbers.now.items ≤ 64) × (calls ≤ 1024) }
    ensures counts { IfOk result (λ r. (r.0.shared.table_id.words ≡ 9) × (r.0.shared.table_id.slots ≡ 4)) }
    ensures grid { IfOk result (λ r. (r.0.shared.key.size ≡ n) × (r.0.shared.key.sheets.value.items ≡ sheets.value.items)) }
    ensures key { IfOk result (λ r. (r.0.shared.key.sets.value.items ≡ sets.now.items) × (r.0.shared.key.numbers.value.items ≡ numbers.now.items) × (r.0.shared.key.calls ≡ calls)) }
    ensures seat { IfOk result (λ r. (r.1.table_id ≡ r.0.shared.table_id) × (r.1.me ≡ (opening_view sets.now.items numbers.now.items calls, []))) }
{
    let room = numbers.len() * calls as usize;
    let slots = four_quarters(alloc, room, n, horizon)?;
    let about = Opening {
        size: n,
        sheets,
        sets: Snapshot::of(sets),
        numbers: Snapshot::of(numbers),
        calls,
    };
    match Table::new(alloc, &[0, 0, 0, 0, 0, 0, 0, 0, 0], slots, &about) {
        Ok(laid) => Ok(laid),
        Err(_) => Err(AllocError),
    }
}

// For each caller room for the entries of its claims that stand.
fn rooms(alloc: Global, callers: usize, calls: usize) -> Result<Vec<Vec<ClaimEntry>>, AllocError>
    ensures count { IfOk result (λ v. length v.items ≡ callers) }
    ensures rooms { IfOk result (λ v. All (λ s. (s.items ≡ []) × (calls ≤ vec_capacity s)) v.items) }
{
    let mut rooms = Vec::with_capacity(alloc, callers)?;
    for _ in 0..callers {
        rooms.push_reserved(Vec::with_capacity(alloc, calls)?);
    }
    Ok(rooms)
}

// Adds a pass for each number, with a seat of its own and one of the rooms.
fn seat_all(
    desk: &QuadrantTable,
    mut root: Chair,
    numbers: &Vec<u32>,
    calls: u32,
    mut standings: Vec<Vec<ClaimEntry>>,
    passes: &mut Vec<ShardPass>,
)
    requires desk { (root.table_id ≡ desk.now.shared.table_id) × (desk.now.shared.table_id.words ≡ 9) }
    requires key { (desk.now.shared.key.numbers.value.items ≡ numbers.now.items) × (desk.now.shared.key.calls ≡ calls) }
    requires root { root.me ≡ (opening_view desk.now.shared.key.sets.value.items numbers.now.items calls, []) }
    requires rooms { (length standings.items ≡ length numbers.now.items) × All (λ s. (s.items ≡ []) × (calls ≤ vec_capacity s)) standings.items }
    requires passes { (passes.old.items ≡ []) × (length numbers.now.items ≤ vec_capacity passes.old) }
    ensures { passes.new.items ≡ map (new_pass (record { table = desk.now.shared.table_id; size = desk.now.shared.key.size; sets = desk.now.shared.key.sheets.value.items; quarters = desk.now.shared.key.sets.value.items; numbers = desk.now.shared.key.numbers.value.items; calls = desk.now.shared.key.calls })) numbers.now.items }
{
    for number in numbers {
        let Some(standing) = standings.pop() else {
            unreachable!()
        };
        let seat = desk.shared.split_seat::<Deal>(&mut root);
        passes.push_reserved(ShardPass {
            number: *number,
            calls,
            made: 0,
            standing,
            seat,
        });
    }
}

// The table, with a pass for each number.
fn seated(
    alloc: Global,
    n: u32,
    horizon: u32,
    sheets: Snapshot<Vec<Sheet>>,
    sets: &Vec<Quartered>,
    numbers: &Vec<u32>,
    calls: u32,
) -> Result<(QuadrantTable, Vec<ShardPass>), AllocError>
    requires n { (1 ≤ n) × (n ≤ 64) }
    requires horizon { (1 ≤ horizon) × (horizon ≤ 8192) }
    requires within { AreWithin n horizon sets.now.items }
    requires distinct { AllPairs (λ m n. m ≢ n) numbers.now.items }
    requires few { (length numbers.now.items ≤ 64) × (calls ≤ 1024) }
    ensures counts { IfOk result (λ r. (r.0.shared.table_id.words ≡ 9) × (r.0.shared.table_id.slots ≡ 4)) }
    ensures grid { IfOk result (λ r. (r.0.shared.key.size ≡ n) × (r.0.shared.key.sheets.value.items ≡ sheets.value.items)) }
    ensures key { IfOk result (λ r. (r.0.shared.key.sets.value.items ≡ sets.now.items) × (r.0.shared.key.numbers.value.items ≡ numbers.now.items) × (r.0.shared.key.calls ≡ calls)) }
    ensures passes { IfOk result (λ r. r.1.items ≡ map (new_pass (record { table = r.0.shared.table_id; size = r.0.shared.key.size; sets = r.0.shared.key.sheets.value.items; quarters = r.0.shared.key.sets.value.items; numbers = r.0.shared.key.numbers.value.items; calls = r.0.shared.key.calls })) numbers.now.items) }
{
    let mut passes = Vec::with_capacity(alloc, numbers.len())?;
    let standings = rooms(alloc, numbers.len(), calls as usize)?;
    let (desk, root) = laid(alloc, n, horizon, sheets, sets, numbers, calls)?;
    seat_all(&desk, root, numbers, calls, standings, &mut passes);
    Ok((desk, passes))
}

impl Shards {
    // Opens shards for callers with these numbers.
    fn opened(
        alloc: Global,
        n: u32,
        horizon: u32,
        sets: Vec<Sheet>,
        numbers: &Vec<u32>,
        calls: u32,
    ) -> Result<OpenedShards, AllocError>
        requires n { (1 ≤ n) × (n ≤ 64) }
        requires horizon { (1 ≤ horizon) × (horizon ≤ 8192) }
        requires grid { AreOnGrid n horizon sets.items }
        requires distinct { AllPairs (λ m n. m ≢ n) numbers.now.items }
        requires few { (length numbers.now.items ≤ 64) × (calls ≤ 1024) }
        ensures shards { IfOk result (λ r. (r.shards.size ≡ n) × (r.shards.sets ≡ sets.items) × (r.shards.numbers ≡ numbers.now.items) × (r.shards.calls ≡ calls)) }
        ensures cut { IfOk result (λ r. AreCut (half_of n) sets.items r.shards.quarters) }
        ensures passes { IfOk result (λ r. r.passes.items ≡ map (new_pass r.shards) numbers.now.items) }
    {
        let sheets = Snapshot::of(&sets);
        let quarters = quarter_all(alloc, n, sets)?;
        let nothing = no_cells(alloc)?;
        match seated(alloc, n, horizon, sheets, &quarters, numbers, calls) {
            Ok((desk, passes)) => {
                let shards = Shards {
                    desk,
                    doors: Doors::new(),
                    quarters,
                    nothing,
                };
                Ok(OpenedShards { shards, passes })
            }
            Err(e) => {
                drop(nothing);
                drop(quarters);
                Err(e)
            }
        }
    }

    /// Opens shards over a grid of `n` rows and columns and steps below the horizon, with a pass for each caller, in the
    /// order of their numbers from 0.
    ///
    /// All memory that calls and the closing need is taken here. Of several causes of a refusal the first is named, and want
    /// of memory comes last.
    pub fn open(
        alloc: Global,
        n: u32,
        horizon: u32,
        sets: Vec<Sheet>,
        callers: u32,
        calls: u32,
    ) -> Result<OpenedShards, ShardFault>
        requires n { (1 ≤ n) × (n ≤ 64) }
        requires horizon { (1 ≤ horizon) × (horizon ≤ 8192) }
        requires grid { AreOnGrid n horizon sets.items }
        ensures faults { MatchResult result (λ _. fault_of callers calls (length sets.items) ≡ None) (λ f. (fault_of callers calls (length sets.items) ≡ Some f) ⊎ ((f ≡ NoMemory) × (fault_of callers calls (length sets.items) ≡ None))) }
        ensures shards { IfOk result (λ r. (r.shards.size ≡ n) × (r.shards.sets ≡ sets.items) × (r.shards.numbers ≡ count_up callers) × (r.shards.calls ≡ calls)) }
        ensures cut { IfOk result (λ r. AreCut (half_of n) sets.items r.shards.quarters) }
        ensures passes { IfOk result (λ r. r.passes.items ≡ map (new_pass r.shards) (count_up callers)) }
    {
        if let Some(fault) = fault_of(callers, calls, sets.len()) {
            return Err(fault);
        }
        let Ok(numbers) = count_up(alloc, callers) else {
            return Err(ShardFault::NoMemory);
        };
        match Shards::opened(alloc, n, horizon, sets, &numbers, calls) {
            Ok(opened) => Ok(opened),
            Err(_) => Err(ShardFault::NoMemory),
        }
    }
}
