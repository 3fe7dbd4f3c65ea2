//! What is printed of a drive, and the tiles on which its driver is.

use aim_driver::LogItem;
use aim_messages::{Act, Body, Entry, Message, Reply};
use aim_report::{entries_fit, items_fit, put_end, put_entries, put_log, put_tiles};
use aim_safety::occupied;
use tests_samples::{CAR, PLAIN, WINDOWS, built};

const ASKS: Message = Message {
    seq: 1,
    body: Body::Request(CAR),
};

const CONFIRM: Reply = Reply::Confirm {
    id: 0,
    start: 10,
    early: 1,
    late: 3,
    accelerate: false,
    last: 20,
};

const JOURNAL: [Entry; 1] = [Entry {
    caller: 0,
    moment: 0,
    act: Act::Message(ASKS),
    reply: CONFIRM,
}];

const TEXT: &[u8] =
    b"0 0 0 request 1 0 straight 10 500 500 0 1000 700 car -> confirm 0 10 1 3 steady 20
log 7 sent 0 request 1 0 straight 10 500 500 0 1000 700 car
log 7 got 1 1 confirm 0 10 1 3 steady 20
log 7 entered 9 0
tiles 7 1 0 9 13
tiles 7 1 1 10 15
tiles 7 1 2 12 17
tiles 7 1 3 14 19
end 1
";

#[test]
fn the_text_of_a_drive(rt: HostRuntime) {
    let layout = built(rt.alloc(), &PLAIN, WINDOWS).expect(&rt, "no layout");
    let log = [
        LogItem::Sent {
            step: 0,
            message: ASKS,
        },
        LogItem::Got {
            step: 1,
            seq: 1,
            reply: CONFIRM,
        },
        LogItem::Entered { step: 9, id: 0 },
    ];
    entries_fit(&JOURNAL);
    items_fit(&log);
    let mut text = Vec::new(rt.alloc());
    put_entries(&mut text, &JOURNAL).expect(&rt, "memory for a journal");
    put_log(&mut text, 7, &log).expect(&rt, "memory for a log");
    put_tiles(rt.alloc(), &mut text, &layout, &JOURNAL, 7, &log).expect(&rt, "memory for tiles");
    put_end(&mut text, 1).expect(&rt, "memory for the end");
    assert!(rt; &text[..] == TEXT);
    let cells = occupied(rt.alloc(), &layout, &JOURNAL, &log).expect(&rt, "memory for cells");
    assert!(rt; cells.len() == 23);
    drop(layout);
}
