//! Reservations without a book. What a message changes of them, and lights, a book's journals show.

ghost use Rattle.std.specs.Prelude.{◌≡◌, ◌<◌, ◌≤◌};

use aim_messages::MOST_VEHICLES;
use aim_reservations::{Reservation, Reservations};
use aim_sheets::Sheet;
use aim_tiles::Steps;
use std::alloc::Global;
use std::marker::Brand;
use std::process::Abort;
use std::sync::ledger::{Blank, Ledger};
use tests_samples::{Row, claims, sheet_of};

// Two columns of a row in step 9.
const TWO_TILES: [Row; 1] = [(9, 1, 0b0110)];

// Reservations of two vehicles, of which the second has two tiles by its Confirm 3.
fn reserved<L: Ledger>(rt: &impl Abort, alloc: Global, steps: &mut Steps<L>) -> Reservations<L> {
    let sheet = sheet_of(alloc, 4, &TWO_TILES).expect(rt, "no sheet");
    let mut reservations = Reservations::new(alloc, 4, 1500, 2).expect(
        rt,
        "no memory for reservations",
    );
    assert!(rt; claims(&mut reservations.table, &sheet, steps));
    reservations.rows[1] = Some(Reservation { id: 3, sheet });
    reservations
}

// What the first vehicle finds of them.
fn finds<L: Ledger>(
    rt: &impl Abort,
    reservations: &Reservations<L>,
    sheet: &Sheet,
    steps: &mut Steps<L>,
) -> bool {
    assert!(rt; reservations.rows.len() == 2 && reservations.rows.len() <= MOST_VEHICLES as usize);
    assert!(rt; reservations.table.has_tiles(sheet));
    reservations.first_taken(0, sheet, steps) == Some((9, 1, 1))
        && reservations.holder(0, 9, 1, 2) == Some(1)
        && reservations.mask(9, 1) == 0b0110
        && reservations.row(0).is_none()
        && reservations.lasting(1).is_some()
}

fn look<L: Ledger>(rt: &impl Abort, alloc: Global, blank: Blank)
    requires name { blank.name ≡ L.name }
    requires parts { blank.parts ≡ L.parts }
    requires some { 0 < blank.parts }
{
    let mut steps = Steps::<L>::new(blank);
    let reservations = reserved(rt, alloc, &mut steps);
    let sheet = sheet_of(alloc, 4, &TWO_TILES).expect(rt, "no sheet");
    assert!(rt; finds(rt, &reservations, &sheet, &mut steps));
    drop(sheet);
    let idle = reservations.leave(steps);
    assert!(rt; idle.rows.len() == 2);
    drop(idle);
}

#[test]
fn a_vehicle_finds_the_tiles_of_another(rt: HostRuntime) {
    look::<Brand>(&rt, rt.alloc(), Blank::new(1));
}
