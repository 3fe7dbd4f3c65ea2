//! Prepared requests, and crossings step by step.

use aim_footprint::{
    RowRange, Visit, bad_crossing, has_bad_window, has_windows, is_fast_made, is_judged_fast,
    simulate, steady_steps,
};
use aim_geometry::Times;
use aim_layout::Layout;
use aim_messages::{Body, Field, Message, Params, Turn};
use aim_requests::{NeedsCells, bad_field, may_reach, params_in, prepare};
use aim_sheets::{Pool, Sheet};
use std::process::Abort;
use tests_samples::{CAR, SMALL, TIMES, built};

/// The tiles of row 1 in each step from that one on, as bits.
type Rows = (u32, &'static [u64]);

// Whether there is a sheet with just these tiles, or none where there are no tiles.
fn has_just(sheet: Option<&Sheet>, rows: Rows) -> bool {
    let (mut step, masks) = rows;
    let Some(sheet) = sheet else {
        return masks.is_empty();
    };
    for mask in masks {
        if sheet.mask(step, 1) != *mask {
            return false;
        }
        step = step.wrapping_add(1);
    }
    sheet.spans().len() == masks.len()
}

// The sheets of the message have to have just these tiles, and come back to the pool.
fn check_cells(
    rt: &impl Abort,
    layout: &Layout,
    message: &Message,
    pool: &mut Pool,
    fast: Rows,
    steady: Rows,
) {
    assert!(rt; pool.room() == layout.ground().grid().spans && pool.count() == 2);
    let first = pool.take().expect(rt, "no first sheet");
    let second = pool.take().expect(rt, "no second sheet");
    let cells = prepare(layout, message, first, second);
    assert!(rt; cells.bad().is_none() && cells.message().seq == 1);
    assert!(rt; params_in(&cells.message().body).is_some());
    assert!(rt; cells.steps().steady == 11);
    assert!(rt; has_just(cells.cells_a(), fast));
    assert!(rt; has_just(cells.cells_b(), steady));
    cells.give_back(pool);
    assert!(rt; pool.count() == 2);
}

/// Early, late and edge buffers; the arrival, the greatest speed and the acceleration; and the tiles of the fast trial and
/// of the steady one.
type Case = ([u32; 3], [u32; 3], Rows, Rows);

static CASES: [Case; 5] = [
    (
        [0, 0, 0],
        [10, 500, 0],
        (0, &[]),
        (
            10,
            &[
                0b0001, 0b0011, 0b0011, 0b0111, 0b0111, 0b1110, 0b1110, 0b1100, 0b1100, 0b1000,
                0b1000,
            ],
        ),
    ),
    (
        [1, 1, 2],
        [10, 500, 0],
        (0, &[]),
        (
            8,
            &[
                0b0001, 0b0001, 0b0011, 0b0011, 0b0111, 0b1111, 0b1111, 0b1111, 0b1111, 0b1110,
                0b1100, 0b1100, 0b1000, 0b1000, 0b1000,
            ],
        ),
    ),
    (
        [1, 3, 4],
        [10, 500, 0],
        (0, &[]),
        (
            6,
            &[
                0b0001, 0b0001, 0b0001, 0b0001, 0b0011, 0b1011, 0b1111, 0b1111, 0b1111, 0b1111,
                0b1111, 0b1111, 0b1111, 0b1110, 0b1100, 0b1100, 0b1000, 0b1000, 0b1000,
            ],
        ),
    ),
    (
        [1, 3, 4],
        [2, 500, 0],
        (0, &[]),
        (
            0,
            &[
                0b0001, 0b0001, 0b0011, 0b1011, 0b1111, 0b1111, 0b1111, 0b1111, 0b1111, 0b1111,
                0b1111, 0b1110, 0b1100, 0b1100, 0b1000, 0b1000, 0b1000,
            ],
        ),
    ),
    (
        [0, 0, 0],
        [18, 1000, 250],
        (18, &[0b0001, 0b0011, 0b0111, 0b1111, 0b1110, 0b1100]),
        (
            18,
            &[
                0b0001, 0b0011, 0b0011, 0b0111, 0b0111, 0b1110, 0b1110, 0b1100, 0b1100, 0b1000,
                0b1000,
            ],
        ),
    ),
];

#[test]
fn tiles_are_kept_within_the_buffers_from_step_0(rt: HostRuntime) {
    for case in &CASES {
        let ([early, late, edge], [arrive, max_speed, accel], fast, steady) = *case;
        let times = Times {
            early,
            late,
            edge,
            ..TIMES
        };
        let params = Params {
            arrive,
            latest: arrive,
            max_speed,
            accel,
            ..CAR
        };
        let message = Message {
            seq: 1,
            body: Body::Request(params),
        };
        let layout = built(rt.alloc(), &SMALL, times).expect(&rt, "no layout");
        let mut pool = Pool::new(rt.alloc(), 2, 4096).expect(&rt, "no memory for a pool");
        check_cells(&rt, &layout, &message, &mut pool, fast, steady);
        drop(pool);
        drop(layout);
    }
}

// Wrong numbers: speed, length and width.
const WRONG: [(u32, u32, u32, Option<Field>); 4] = [
    (500, 1000, 700, None),
    (600, 1000, 700, Some(Field::Speed)),
    (500, 0, 700, Some(Field::Length)),
    (500, 1000, 30_001, Some(Field::Width)),
];

#[test]
fn wrong_fields(rt: HostRuntime) {
    let layout = built(rt.alloc(), &SMALL, TIMES).expect(&rt, "no layout");
    for (speed, length, width, wanted) in &WRONG {
        let params = Params {
            speed: *speed,
            length: *length,
            width: *width,
            ..CAR
        };
        assert!(rt; bad_crossing(&layout, &params) == *wanted);
        match bad_field(&layout, &params) {
            Ok(field) => assert!(rt; field == *wanted),
            Err(NeedsCells) => panic!(rt; "a sheet has room"),
        }
    }
    let None = bad_crossing(&layout, &CAR) else {
        panic!(rt; "a good crossing")
    };
    assert!(rt; steady_steps(&layout, &CAR) == 11);
    assert!(rt; may_reach(&layout, &CAR, 20) && !may_reach(&layout, &CAR, 21));
    drop(layout);
}

#[test]
fn without_windows_the_steady_trial_judges(rt: HostRuntime) {
    let layout = built(rt.alloc(), &SMALL, TIMES).expect(&rt, "no layout");
    let faster = Params {
        latest: 9,
        max_speed: 1000,
        accel: 250,
        ..CAR
    };
    assert!(rt; is_fast_made(&faster) && !is_fast_made(&CAR));
    assert!(rt; !has_windows(&layout) && !is_judged_fast(&layout, &faster));
    assert!(rt; !has_bad_window(&layout, &faster) && bad_crossing(&layout, &faster).is_none());
    drop(layout);
}

/// Keeps the mask of row 1 in some steps, and counts the steps.
#[derive(Drop)]
struct Watch {
    steps: u32,
    first: u64,
    middle: u64,
    last: u64,
    rows: (u8, u8),
}

impl Visit for Watch {
    ghost visits = { λ _ _ _ _ _. Unit {0} };

    fn step(&mut self, k: u32, rows: RowRange, masks: &[u64; 64]) {
        self.steps = k.saturating_add(1);
        if k == 0 {
            self.first = masks[1];
        }
        if k == 10 {
            self.middle = masks[1];
        }
        self.last = masks[1];
        self.rows = (rows.first, rows.last);
    }
}

// The turn, how many steps the crossing has, and the mask of row 1 in the first, the eleventh and the last.
const VISITS: [(Turn, u32, u64, u64, u64); 2] = [
    (Turn::Straight, 11, 0b0001, 0b1000, 0b1000),
    (Turn::Left, 23, 0b0001, 0b0110, 0b0001),
];

#[test]
fn a_crossing_is_visited_step_by_step(rt: HostRuntime) {
    let layout = built(rt.alloc(), &SMALL, TIMES).expect(&rt, "no layout");
    assert!(rt; layout.version() == 3);
    for (turn, steps, first, middle, last) in &VISITS {
        let mut watch = Watch {
            steps: 0,
            first: 0,
            middle: 0,
            last: 0,
            rows: (0, 0),
        };
        let params = Params { turn: *turn, ..CAR };
        assert!(rt; simulate(&layout, &params, false, 0, &mut watch) == Ok(*steps));
        assert!(rt; watch.steps == *steps && watch.rows == (1, 1));
        assert!(rt; [watch.first, watch.middle, watch.last] == [*first, *middle, *last]);
    }
    drop(layout);
}
