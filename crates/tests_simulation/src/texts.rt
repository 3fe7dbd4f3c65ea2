//! Texts that are appended to what stands there.

use aim_messages::{
    Act, Body, Entry, Line, Message, Name, NoMemory, OPERATOR, Order, Params, Reason, Reply, Turn,
    entry_text, put_number, write_entry, write_line, write_message, write_reply,
};

const CHANGE: Message = Message {
    seq: 2,
    body: Body::Change(
        0,
        Params {
            lane: 1,
            turn: Turn::Left,
            arrive: 12,
            latest: 12,
            speed: 500,
            max_speed: 1000,
            accel: 250,
            length: 1000,
            width: 700,
            emergency: true,
        },
    ),
};

const REFUSED: Reply = Reply::Reject {
    reason: Reason::Taken {
        row: 1,
        col: 2,
        step: 16,
        by: 3,
    },
    next: 6,
    held: None,
};

const BOTH: Line = Line::Policy {
    name: Name {
        bytes: *b"both\0\0\0\0\0\0\0\0\0\0\0\0",
        len: 4,
    },
    kind: 3,
};

const SWITCH: Entry = Entry {
    caller: OPERATOR,
    moment: 2,
    act: Act::Order(Order::Switch(1)),
    reply: Reply::Switched { from: 1502 },
};

// Appends a number, a message, a reply, a line and an entry.
fn append_all(out: &mut Vec<u8>) -> Result<(), NoMemory> {
    put_number(out, 18_446_744_073_709_551_615)?;
    write_message(&CHANGE, out)?;
    write_reply(&REFUSED, out)?;
    write_line(&BOTH, 3, out)?;
    write_entry(1, &SWITCH, out)
}

#[test]
fn texts_are_appended(rt: HostRuntime) {
    let mut out = Vec::new(rt.alloc());
    assert!(rt; append_all(&mut out).is_ok());
    assert!(rt;
        out.as_slice()
            == b"18446744073709551615change 2 0 1 left 12 500 1000 250 1000 700 emergencyreject taken 1 2 16 3 next 6 held nonepolicy both light-emerg1 operator 2 switch 1 -> switched 1502".as_slice()
    );
    let mut line = [0; 400];
    let len = entry_text(1, &SWITCH, &mut line);
    assert!(rt; &line[..len] == b"1 operator 2 switch 1 -> switched 1502".as_slice());
}
