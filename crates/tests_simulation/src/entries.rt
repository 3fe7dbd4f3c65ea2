//! Entries of journals that come back, as text, and their JSON texts.

use aim_json::write_json_entry;
use aim_messages::{LineKind, write_entry};
use aim_text_entries::read_entry;
use std::alloc::Global;
use std::process::Abort;

// Entries, and their JSON text.
static ENTRIES: [(&[u8], &[u8]); 32] = [
    (
        b"0 0 0 request 1 0 straight 10 500 500 0 1000 700 car -> confirm 0 10 0 0 steady 20",
        b"{\"act\":{\"accel\":0,\"arrive\":10,\"class\":\"car\",\"kind\":\"request\",\"lane\":0,\"length\":1000,\"max\":500,\"seq\":1,\"speed\":500,\"turn\":\"straight\",\"width\":700},\"caller\":0,\"moment\":0,\"position\":0,\"reply\":{\"early\":0,\"id\":0,\"kind\":\"confirm\",\"last\":20,\"late\":0,\"start\":10,\"trial\":\"steady\"}}",
    ),
    (
        b"1 2 3 change 5 0 1 left 40 500 501 9 1000 700 emergency -> confirm 1 40 1 3 fast 50",
        b"{\"act\":{\"accel\":9,\"arrive\":40,\"class\":\"emergency\",\"id\":0,\"kind\":\"change\",\"lane\":1,\"length\":1000,\"max\":501,\"seq\":5,\"speed\":500,\"turn\":\"left\",\"width\":700},\"caller\":2,\"moment\":3,\"position\":1,\"reply\":{\"early\":1,\"id\":1,\"kind\":\"confirm\",\"last\":50,\"late\":3,\"start\":40,\"trial\":\"fast\"}}",
    ),
    (
        b"2 1 7 cancel 2 0 -> reject holds 0 next 5 held 0",
        b"{\"act\":{\"id\":0,\"kind\":\"cancel\",\"seq\":2},\"caller\":1,\"moment\":7,\"position\":2,\"reply\":{\"held\":0,\"kind\":\"reject\",\"next\":5,\"reason\":{\"id\":0,\"kind\":\"holds\"}}}",
    ),
    (
        b"3 1 7 cancel 2 0 -> reject no-reservation next 5 held none",
        b"{\"act\":{\"id\":0,\"kind\":\"cancel\",\"seq\":2},\"caller\":1,\"moment\":7,\"position\":3,\"reply\":{\"held\":null,\"kind\":\"reject\",\"next\":5,\"reason\":{\"kind\":\"no-reservation\"}}}",
    ),
    (
        b"4 1 7 cancel 2 0 -> reject begun 10 next 5 held 2",
        b"{\"act\":{\"id\":0,\"kind\":\"cancel\",\"seq\":2},\"caller\":1,\"moment\":7,\"position\":4,\"reply\":{\"held\":2,\"kind\":\"reject\",\"next\":5,\"reason\":{\"kind\":\"begun\",\"step\":10}}}",
    ),
    (
        b"5 1 7 cancel 2 0 -> reject too-soon 6 next 5 held none",
        b"{\"act\":{\"id\":0,\"kind\":\"cancel\",\"seq\":2},\"caller\":1,\"moment\":7,\"position\":5,\"reply\":{\"held\":null,\"kind\":\"reject\",\"next\":5,\"reason\":{\"kind\":\"too-soon\",\"next\":6}}}",
    ),
    (
        b"6 1 7 cancel 2 0 -> reject late 25 next 5 held 4",
        b"{\"act\":{\"id\":0,\"kind\":\"cancel\",\"seq\":2},\"caller\":1,\"moment\":7,\"position\":6,\"reply\":{\"held\":4,\"kind\":\"reject\",\"next\":5,\"reason\":{\"kind\":\"late\",\"now\":25}}}",
    ),
    (
        b"7 1 7 cancel 2 0 -> reject far 1505 next 5 held none",
        b"{\"act\":{\"id\":0,\"kind\":\"cancel\",\"seq\":2},\"caller\":1,\"moment\":7,\"position\":7,\"reply\":{\"held\":null,\"kind\":\"reject\",\"next\":5,\"reason\":{\"kind\":\"far\",\"reach\":1505}}}",
    ),
    (
        b"8 1 7 cancel 2 0 -> reject distance 18446744073709551615 next 5 held 6",
        b"{\"act\":{\"id\":0,\"kind\":\"cancel\",\"seq\":2},\"caller\":1,\"moment\":7,\"position\":8,\"reply\":{\"held\":6,\"kind\":\"reject\",\"next\":5,\"reason\":{\"d\":18446744073709551615,\"kind\":\"distance\"}}}",
    ),
    (
        b"9 1 7 cancel 2 0 -> reject emergency 1 next 5 held none",
        b"{\"act\":{\"id\":0,\"kind\":\"cancel\",\"seq\":2},\"caller\":1,\"moment\":7,\"position\":9,\"reply\":{\"held\":null,\"kind\":\"reject\",\"next\":5,\"reason\":{\"kind\":\"emergency\",\"lane\":1}}}",
    ),
    (
        b"10 1 7 cancel 2 0 -> reject green 1 2 1531 0 next 5 held 8",
        b"{\"act\":{\"id\":0,\"kind\":\"cancel\",\"seq\":2},\"caller\":1,\"moment\":7,\"position\":10,\"reply\":{\"held\":8,\"kind\":\"reject\",\"next\":5,\"reason\":{\"col\":2,\"kind\":\"green\",\"lane\":0,\"row\":1,\"step\":1531}}}",
    ),
    (
        b"11 1 7 cancel 2 0 -> reject taken 1 2 13 0 next 5 held none",
        b"{\"act\":{\"id\":0,\"kind\":\"cancel\",\"seq\":2},\"caller\":1,\"moment\":7,\"position\":11,\"reply\":{\"held\":null,\"kind\":\"reject\",\"next\":5,\"reason\":{\"by\":0,\"col\":2,\"kind\":\"taken\",\"row\":1,\"step\":13}}}",
    ),
    (
        b"12 1 7 cancel 2 0 -> reject reused 3 next 5 held 10",
        b"{\"act\":{\"id\":0,\"kind\":\"cancel\",\"seq\":2},\"caller\":1,\"moment\":7,\"position\":12,\"reply\":{\"held\":10,\"kind\":\"reject\",\"next\":5,\"reason\":{\"kind\":\"reused\",\"seq\":3}}}",
    ),
    (
        b"13 1 7 cancel 2 0 -> reject bad lane next 5 held none",
        b"{\"act\":{\"id\":0,\"kind\":\"cancel\",\"seq\":2},\"caller\":1,\"moment\":7,\"position\":13,\"reply\":{\"held\":null,\"kind\":\"reject\",\"next\":5,\"reason\":{\"field\":\"lane\",\"kind\":\"bad\"}}}",
    ),
    (
        b"14 1 7 cancel 2 0 -> reject bad turn next 5 held 12",
        b"{\"act\":{\"id\":0,\"kind\":\"cancel\",\"seq\":2},\"caller\":1,\"moment\":7,\"position\":14,\"reply\":{\"held\":12,\"kind\":\"reject\",\"next\":5,\"reason\":{\"field\":\"turn\",\"kind\":\"bad\"}}}",
    ),
    (
        b"15 1 7 cancel 2 0 -> reject bad arrive next 5 held none",
        b"{\"act\":{\"id\":0,\"kind\":\"cancel\",\"seq\":2},\"caller\":1,\"moment\":7,\"position\":15,\"reply\":{\"held\":null,\"kind\":\"reject\",\"next\":5,\"reason\":{\"field\":\"arrive\",\"kind\":\"bad\"}}}",
    ),
    (
        b"16 1 7 cancel 2 0 -> reject bad max next 5 held 14",
        b"{\"act\":{\"id\":0,\"kind\":\"cancel\",\"seq\":2},\"caller\":1,\"moment\":7,\"position\":16,\"reply\":{\"held\":14,\"kind\":\"reject\",\"next\":5,\"reason\":{\"field\":\"max\",\"kind\":\"bad\"}}}",
    ),
    (
        b"17 1 7 cancel 2 0 -> reject bad speed next 5 held none",
        b"{\"act\":{\"id\":0,\"kind\":\"cancel\",\"seq\":2},\"caller\":1,\"moment\":7,\"position\":17,\"reply\":{\"held\":null,\"kind\":\"reject\",\"next\":5,\"reason\":{\"field\":\"speed\",\"kind\":\"bad\"}}}",
    ),
    (
        b"18 1 7 cancel 2 0 -> reject bad accel next 5 held 16",
        b"{\"act\":{\"id\":0,\"kind\":\"cancel\",\"seq\":2},\"caller\":1,\"moment\":7,\"position\":18,\"reply\":{\"held\":16,\"kind\":\"reject\",\"next\":5,\"reason\":{\"field\":\"accel\",\"kind\":\"bad\"}}}",
    ),
    (
        b"19 1 7 cancel 2 0 -> reject bad length next 5 held none",
        b"{\"act\":{\"id\":0,\"kind\":\"cancel\",\"seq\":2},\"caller\":1,\"moment\":7,\"position\":19,\"reply\":{\"held\":null,\"kind\":\"reject\",\"next\":5,\"reason\":{\"field\":\"length\",\"kind\":\"bad\"}}}",
    ),
    (
        b"20 1 7 cancel 2 0 -> reject bad width next 5 held 18",
        b"{\"act\":{\"id\":0,\"kind\":\"cancel\",\"seq\":2},\"caller\":1,\"moment\":7,\"position\":20,\"reply\":{\"held\":18,\"kind\":\"reject\",\"next\":5,\"reason\":{\"field\":\"width\",\"kind\":\"bad\"}}}",
    ),
    (
        b"21 1 7 cancel 2 0 -> reject bad steps next 5 held none",
        b"{\"act\":{\"id\":0,\"kind\":\"cancel\",\"seq\":2},\"caller\":1,\"moment\":7,\"position\":21,\"reply\":{\"held\":null,\"kind\":\"reject\",\"next\":5,\"reason\":{\"field\":\"steps\",\"kind\":\"bad\"}}}",
    ),
    (
        b"22 1 7 cancel 2 0 -> reject bad spans next 5 held 20",
        b"{\"act\":{\"id\":0,\"kind\":\"cancel\",\"seq\":2},\"caller\":1,\"moment\":7,\"position\":22,\"reply\":{\"held\":20,\"kind\":\"reject\",\"next\":5,\"reason\":{\"field\":\"spans\",\"kind\":\"bad\"}}}",
    ),
    (
        b"30 65535 7 done 2 0 -> ack 0",
        b"{\"act\":{\"id\":0,\"kind\":\"done\",\"seq\":2},\"caller\":65535,\"moment\":7,\"position\":30,\"reply\":{\"id\":0,\"kind\":\"ack\"}}",
    ),
    (
        b"31 1 7 cancel 2 0 -> emergency-stop",
        b"{\"act\":{\"id\":0,\"kind\":\"cancel\",\"seq\":2},\"caller\":1,\"moment\":7,\"position\":31,\"reply\":{\"kind\":\"emergency-stop\"}}",
    ),
    (
        b"32 1 7 cancel 2 0 -> stale 4294967295",
        b"{\"act\":{\"id\":0,\"kind\":\"cancel\",\"seq\":2},\"caller\":1,\"moment\":7,\"position\":32,\"reply\":{\"kind\":\"stale\",\"last\":4294967295}}",
    ),
    (
        b"33 operator 2 switch 255 -> switched 1502",
        b"{\"act\":{\"kind\":\"switch\",\"policy\":255},\"caller\":\"operator\",\"moment\":2,\"position\":33,\"reply\":{\"from\":1502,\"kind\":\"switched\"}}",
    ),
    (
        b"34 operator 3 stop -> stopped",
        b"{\"act\":{\"kind\":\"stop\"},\"caller\":\"operator\",\"moment\":3,\"position\":34,\"reply\":{\"kind\":\"stopped\"}}",
    ),
    (
        b"4294967295 1 3 done 1 6 -> reject distance 18446744073709551615 next 6 held 9",
        b"{\"act\":{\"id\":6,\"kind\":\"done\",\"seq\":1},\"caller\":1,\"moment\":3,\"position\":4294967295,\"reply\":{\"held\":9,\"kind\":\"reject\",\"next\":6,\"reason\":{\"d\":18446744073709551615,\"kind\":\"distance\"}}}",
    ),
    (
        b"2 65535 3 cancel 1 2 -> reject taken 1 2 14 300 next 6 held none",
        b"{\"act\":{\"id\":2,\"kind\":\"cancel\",\"seq\":1},\"caller\":65535,\"moment\":3,\"position\":2,\"reply\":{\"held\":null,\"kind\":\"reject\",\"next\":6,\"reason\":{\"by\":300,\"col\":2,\"kind\":\"taken\",\"row\":1,\"step\":14}}}",
    ),
    (
        b"3 0 0 request 1 0 straight 10 500 500 0 1000 700 car 14 -> confirm 3 12 0 0 steady 22",
        b"{\"act\":{\"accel\":0,\"arrive\":10,\"class\":\"car\",\"kind\":\"request\",\"lane\":0,\"latest\":14,\"length\":1000,\"max\":500,\"seq\":1,\"speed\":500,\"turn\":\"straight\",\"width\":700},\"caller\":0,\"moment\":0,\"position\":3,\"reply\":{\"early\":0,\"id\":3,\"kind\":\"confirm\",\"last\":22,\"late\":0,\"start\":12,\"trial\":\"steady\"}}",
    ),
    (
        b"4 2 3 change 5 0 1 left 40 500 501 9 1000 700 emergency 41 -> reject bad latest next 18 held 0",
        b"{\"act\":{\"accel\":9,\"arrive\":40,\"class\":\"emergency\",\"id\":0,\"kind\":\"change\",\"lane\":1,\"latest\":41,\"length\":1000,\"max\":501,\"seq\":5,\"speed\":500,\"turn\":\"left\",\"width\":700},\"caller\":2,\"moment\":3,\"position\":4,\"reply\":{\"held\":0,\"kind\":\"reject\",\"next\":18,\"reason\":{\"field\":\"latest\",\"kind\":\"bad\"}}}",
    ),
];

// The entry of the text has to be written so, and as this JSON text.
fn check_entry(rt: &impl Abort, alloc: Global, text: &[u8], json: &[u8]) {
    let (position, entry) = read_entry(text).expect(rt, "no entry");
    let mut out = Vec::new(alloc);
    assert!(rt; write_entry(position, &entry, &mut out).is_ok());
    assert!(rt; out.as_slice() == text);
    out.clear();
    assert!(rt; write_json_entry(alloc, position, &entry, &mut out).is_ok());
    assert!(rt; out.as_slice() == json);
}

#[test]
fn entries_come_back(rt: HostRuntime) {
    for (text, json) in &ENTRIES {
        check_entry(&rt, rt.alloc(), text, json);
    }
    assert!(rt; read_entry(b"1 65536 2 stop -> stopped").err() == Some(LineKind::Range));
    assert!(rt; read_entry(b"1 1 2 stop -> stopped").err() == Some(LineKind::Words));
}

// Entries whose last step of arrival is none, and the first fault of each.
static LATEST_FAULTS: [(&[u8], LineKind); 4] = [
    (
        b"0 0 0 request 1 0 straight 10 500 500 0 1000 700 car 10 -> ack 0",
        LineKind::Range,
    ),
    (
        b"0 0 0 change 1 9 0 straight 10 500 500 0 1000 700 car 9 -> ack 0",
        LineKind::Range,
    ),
    (
        b"0 0 0 request 1 0 straight 10 500 500 0 1000 700 car 014 -> ack 0",
        LineKind::Number,
    ),
    (b"0 0 0 cancel 1 9 14 -> ack 0", LineKind::Words),
];

#[test]
fn a_last_step_of_arrival_is_above_the_first(rt: HostRuntime) {
    for (text, kind) in &LATEST_FAULTS {
        assert!(rt; read_entry(text).err() == Some(*kind));
    }
}
