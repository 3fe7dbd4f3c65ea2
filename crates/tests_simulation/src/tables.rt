//! The pool and its sheets at work, and the table of taken cells.

ghost use Rattle.std.specs.Prelude.{◌≡◌, ◌<◌};

use aim_sheets::{Pool, Sheet, Span};
use aim_tiles::{IdleTable, Steps, Table, first_meeting};
use std::alloc::Global;
use std::marker::Brand;
use std::process::Abort;
use std::sync::ledger::{Blank, Ledger};
use tests_samples::{Row, claims, is_first, is_put, sheet_of};

const NO_POOL: &str = "no memory for a pool";

#[test]
fn a_pool_of_two(rt: HostRuntime) {
    let mut pool = Pool::new(rt.alloc(), 2, 8).expect(&rt, NO_POOL);
    assert!(rt; pool.count() == 2 && pool.room() == 8);
    let sheet = pool.take().expect(&rt, "no sheet");
    assert!(rt; pool.count() == 1 && sheet.room() == 8 && sheet.spans().is_empty());
    pool.give(sheet);
    assert!(rt; pool.count() == 2);
    drop(pool);
}

// The rows that are put into a sheet of four spans, and whether there is room.
const GIVEN: [(Row, bool); 8] = [
    ((4, 1, 1), true),
    ((2, 7, 2), true),
    ((4, 0, 4), true),
    ((2, 7, 8), true),
    ((3, 9, 16), true),
    ((4, 1, 1 << 63), true),
    ((5, 0, 1), false),
    ((3, 9, 32), true),
];

// What is given, in order, each step and row once.
const PLACED: [Span; 4] = [
    Span {
        step: 2,
        row: 7,
        mask: 10,
    },
    Span {
        step: 3,
        row: 9,
        mask: 48,
    },
    Span {
        step: 4,
        row: 0,
        mask: 4,
    },
    Span {
        step: 4,
        row: 1,
        mask: 1 | 1 << 63,
    },
];

#[test]
fn spans_take_their_places(rt: HostRuntime) {
    let mut pool = Pool::new(rt.alloc(), 1, 4).expect(&rt, NO_POOL);
    let mut sheet = pool.take().expect(&rt, "no sheet");
    drop(pool);
    for (row, has_room) in &GIVEN {
        assert!(rt; is_put(&mut sheet, *row) == *has_room);
    }
    assert!(rt; sheet.spans() == PLACED.as_slice());
    sheet.clear();
    assert!(rt; sheet.spans().is_empty() && sheet.room() == 4);
    drop(sheet);
}

#[test]
fn a_million_sheets_are_dropped(rt: HostRuntime) {
    let pool = Pool::new(rt.alloc(), 1_000_000, 1).expect(&rt, NO_POOL);
    assert!(rt; pool.count() == 1_000_000);
    drop(pool);
    let empty = Pool::empty(3);
    assert!(rt; empty.count() == 0 && empty.room() == 3);
    drop(empty);
}

// Rows of words, and the first place in which they meet.
static WORDS: [(&[u64], &[u64], Option<usize>); 4] = [
    (&[], &[], None),
    (&[1, 2, 4], &[2, 2, 4], Some(1)),
    (&[1; 9], &[2, 2, 2, 2, 2, 2, 2, 2, 1], Some(8)),
    (&[4, 1, 2, 8, 16], &[8, 2, 4, 16, 32], None),
];

#[test]
fn words_that_meet(rt: HostRuntime) {
    for (left, right, want) in &WORDS {
        assert!(rt; left.len() == right.len());
        assert!(rt; first_meeting(left, right) == *want);
    }
}

const TWO_STEPS: [Row; 2] = [(1, 2, 0b0110), (2, 0, 0b1000)];

const THREE_STEPS: [Row; 3] = [(0, 3, 0b1111), (1, 2, 0b1100), (2, 0, 0b1000)];

// The first sheet's cells are taken, some of them go with the second's, and the rest with the time.
fn take_and_release<L: Ledger>(
    rt: &impl Abort,
    table: &mut Table<L>,
    one: &Sheet,
    two: &Sheet,
    steps: &mut Steps<L>,
) {
    assert!(rt; claims(table, one, steps));
    assert!(rt; is_first(table, two, None, steps, Some((1, 2, 2))));
    assert!(rt; is_first(table, two, Some(one), steps, None));
    assert!(rt; table.has_tiles(two));
    table.release(two, steps);
    assert!(rt; is_first(table, one, None, steps, Some((1, 2, 1))));
    assert!(rt; table.now() <= 2);
    table.advance(2, steps);
    assert!(rt; is_first(table, one, None, steps, None));
}

fn come_and_go<L: Ledger>(rt: &impl Abort, alloc: Global, blank: Blank)
    requires name { blank.name ≡ L.name }
    requires parts { blank.parts ≡ L.parts }
    requires some { 0 < blank.parts }
{
    let one = sheet_of(alloc, 8, &TWO_STEPS).expect(rt, "no sheet");
    let two = sheet_of(alloc, 8, &THREE_STEPS).expect(rt, "no sheet");
    let mut steps = Steps::<L>::new(blank);
    let mut table = Table::<L>::new(alloc, 4, 3).expect(rt, "no memory for a table");
    assert!(rt; table.size() == 4 && table.horizon() == 3 && table.now() == 0);
    take_and_release(rt, &mut table, &one, &two, &mut steps);
    drop(table);
    drop(steps);
    drop(one);
    drop(two);
}

#[test]
fn cells_come_and_go(rt: HostRuntime) {
    come_and_go::<Brand>(&rt, rt.alloc(), Blank::new(1));
}

// Claims the sheet in a ledger of the table's own, before which this cell of it is taken.
fn claimed_apart<L: Ledger>(
    rt: &impl Abort,
    table: IdleTable,
    sheet: &Sheet,
    blank: Blank,
    want: Option<(u32, u8, u8)>,
) -> IdleTable
    requires name { blank.name ≡ L.name }
    requires parts { blank.parts ≡ L.parts }
    requires some { 0 < blank.parts }
{
    let mut steps = Steps::<L>::new(blank);
    let mut table = table.join::<L>();
    assert!(rt; is_first(&table, sheet, None, &mut steps, want));
    assert!(rt; claims(&mut table, sheet, &mut steps));
    table.leave(steps)
}

#[test]
fn a_table_joins_ledger_after_ledger(rt: HostRuntime) {
    let sheet = sheet_of(rt.alloc(), 1, &[(1, 2, 0b0110)]).expect(&rt, "no sheet");
    let table = IdleTable::new(rt.alloc(), 4, 3).expect(&rt, "no memory for a table");
    let table = claimed_apart::<Brand>(&rt, table, &sheet, Blank::new(1), None);
    let table = claimed_apart::<Brand>(&rt, table, &sheet, Blank::new(1), Some((1, 2, 1)));
    drop(table);
    drop(sheet);
}
