//! A plain table beside the ring, which has to give the answers that the plain one gives.

ghost use Rattle.std.specs.Prelude.{◌≡◌, ◌<◌};

use aim_sheets::Sheet;
use aim_tiles::{Steps, Table};
use std::alloc::Global;
use std::marker::Brand;
use std::process::Abort;
use std::sync::ledger::{Blank, Ledger};
use tests_samples::{Plain, Random, claims, is_first, sheet_of};

// Time goes on, or the sheet's cells are released or claimed, in both tables.
fn change<L: Ledger>(
    rt: &impl Abort,
    table: &mut Table<L>,
    plain: &mut Plain,
    sheet: &Sheet,
    steps: &mut Steps<L>,
    random: &mut Random,
) {
    assert!(rt; table.has_tiles(sheet));
    let choice = random.below(4);
    if choice == 0 {
        let now = table.now().wrapping_add(random.below(3));
        assert!(rt; table.now() <= now && now <= 1_073_741_824);
        table.advance(now, steps);
        plain.now = now;
    } else if choice == 1 {
        table.release(sheet, steps);
        plain.mark(sheet.spans(), false);
    } else if claims(table, sheet, steps) {
        plain.mark(sheet.spans(), true);
    }
}

// A thousand rounds of both tables, with two sheets. Both have to give the same answer.
fn rounds<L: Ledger>(
    rt: &impl Abort,
    table: &mut Table<L>,
    plain: &mut Plain,
    (sheet, own): (&mut Sheet, &mut Sheet),
    steps: &mut Steps<L>,
) {
    let (size, horizon) = (plain.size, plain.horizon);
    assert!(rt; 0 < size && size <= 64 && 0 < horizon);
    let mut random = Random(size as u64 + horizon as u64);
    for _ in 0..1000 {
        let from = table.now().wrapping_add(random.below(horizon.min(40)));
        random.fill(sheet, size, from);
        random.fill(own, size, from);
        let want = plain.first_taken(sheet.spans(), own.spans());
        assert!(rt; table.has_tiles(own) && is_first(table, sheet, Some(own), steps, want));
        change(rt, table, plain, sheet, steps, &mut random);
    }
}

fn compare<L: Ledger>(rt: &impl Abort, alloc: Global, blank: Blank, sizes: (u32, u32))
    requires name { blank.name ≡ L.name }
    requires parts { blank.parts ≡ L.parts }
    requires some { 0 < blank.parts }
{
    let (size, horizon) = sizes;
    assert!(rt; 0 < size && size <= 64 && 0 < horizon && horizon <= 8192);
    let mut steps = Steps::<L>::new(blank);
    let mut sheet = sheet_of(alloc, 16, &[]).expect(rt, "no first sheet");
    let mut own = sheet_of(alloc, 16, &[]).expect(rt, "no second sheet");
    let mut table = Table::<L>::new(alloc, size, horizon).expect(rt, "no memory for a table");
    let mut plain = Plain::new(alloc, size, horizon).expect(rt, "no memory for a plain table");
    rounds(
        rt,
        &mut table,
        &mut plain,
        (&mut sheet, &mut own),
        &mut steps,
    );
    drop(table);
    drop(plain);
    drop(sheet);
    drop(own);
    drop(steps);
}

#[test]
fn as_the_plain_table(rt: HostRuntime) {
    for sizes in [(1, 1), (3, 5), (48, 40), (64, 8192)] {
        compare::<Brand>(&rt, rt.alloc(), Blank::new(1), sizes);
    }
}
