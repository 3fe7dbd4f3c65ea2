//! Lines of scripts that come back, as text and as JSON text, and the first fault of texts that are none.
ghost use Rattle.std.specs.Prelude.{◌<◌, ◌≤◌};

use aim_json::{read_json_line, write_json_line};
use aim_messages::{LineKind, write_line};
use aim_text_lines::laws::line_is_spelled_so;
use aim_text_lines::read_line;
use std::alloc::Global;
use std::process::Abort;

// The version of a script, a line of it, and its JSON text.
static FORMS: [(u8, &[u8], &[u8]); 30] = [
    (1, b"aim 1", b"{\"form\":\"aim\",\"n\":1}"),
    (
        1,
        b"grid 4000 4 100 0 450 4096",
        b"{\"form\":\"grid\",\"half\":450,\"n\":4,\"side\":4000,\"spacing\":100,\"spans\":4096,\"static\":0}",
    ),
    (
        1,
        b"times 1500 25 20 1 2",
        b"{\"clearance\":20,\"edge\":2,\"form\":\"times\",\"horizon\":1500,\"internal\":1,\"longest\":25}",
    ),
    (1, b"lanes 2", b"{\"form\":\"lanes\",\"n\":2}"),
    (
        1,
        b"move 0 straight line 0 1500 4000 1500 40",
        b"{\"form\":\"move\",\"lane\":0,\"m\":40,\"shape\":\"line\",\"turn\":\"straight\",\"x0\":0,\"x1\":4000,\"y0\":1500,\"y1\":1500}",
    ),
    (
        1,
        b"move 255 left curve 0 10500 13500 10500 13500 24000 280",
        b"{\"form\":\"move\",\"lane\":255,\"m\":280,\"shape\":\"curve\",\"turn\":\"left\",\"x0\":0,\"x1\":13500,\"x2\":13500,\"y0\":10500,\"y1\":10500,\"y2\":24000}",
    ),
    (
        1,
        b"policy a-very-long-1nm light",
        b"{\"form\":\"policy\",\"kind\":\"light\",\"name\":\"a-very-long-1nm\"}",
    ),
    (
        1,
        b"phase 20 80 0 3 15",
        b"{\"form\":\"phase\",\"green\":80,\"lanes\":[0,3,15],\"red\":20}",
    ),
    (
        1,
        b"vehicles 4294967295",
        b"{\"form\":\"vehicles\",\"n\":4294967295}",
    ),
    (1, b"begin", b"{\"form\":\"begin\"}"),
    (
        1,
        b"0 1073741824 request 1 255 right 10 500 500 0 1000 700 car",
        b"{\"form\":\"event\",\"message\":{\"accel\":0,\"arrive\":10,\"class\":\"car\",\"kind\":\"request\",\"lane\":255,\"length\":1000,\"max\":500,\"seq\":1,\"speed\":500,\"turn\":\"right\",\"width\":700},\"moment\":1073741824,\"vehicle\":0}",
    ),
    (
        1,
        b"7 20 change 3 9 1 left 30 500 501 0 1000 700 emergency",
        b"{\"form\":\"event\",\"message\":{\"accel\":0,\"arrive\":30,\"class\":\"emergency\",\"id\":9,\"kind\":\"change\",\"lane\":1,\"length\":1000,\"max\":501,\"seq\":3,\"speed\":500,\"turn\":\"left\",\"width\":700},\"moment\":20,\"vehicle\":7}",
    ),
    (
        1,
        b"7 20 cancel 3 9",
        b"{\"form\":\"event\",\"message\":{\"id\":9,\"kind\":\"cancel\",\"seq\":3},\"moment\":20,\"vehicle\":7}",
    ),
    (
        1,
        b"7 20 done 3 9",
        b"{\"form\":\"event\",\"message\":{\"id\":9,\"kind\":\"done\",\"seq\":3},\"moment\":20,\"vehicle\":7}",
    ),
    (
        1,
        b"operator 2 switch lights",
        b"{\"form\":\"switch\",\"moment\":2,\"name\":\"lights\"}",
    ),
    (1, b"operator 2 stop", b"{\"form\":\"stop\",\"moment\":2}"),
    (1, b"until 40", b"{\"form\":\"until\",\"step\":40}"),
    (
        1,
        b"plan 0 1 10 3 1 straight 500 501 0 1000 700 car",
        b"{\"accel\":0,\"class\":\"car\",\"first\":1,\"form\":\"plan\",\"lane\":1,\"lead\":10,\"length\":1000,\"max\":501,\"resend\":3,\"speed\":500,\"turn\":\"straight\",\"v\":0,\"width\":700}",
    ),
    (
        1,
        b"change 1 7 12",
        b"{\"form\":\"change\",\"lead\":12,\"step\":7,\"v\":1}",
    ),
    (
        1,
        b"cancel 1 7",
        b"{\"form\":\"cancel\",\"step\":7,\"v\":1}",
    ),
    (1, b"end", b"{\"form\":\"end\"}"),
    (
        3,
        b"times 1500 25 20 1 3 4",
        b"{\"clearance\":20,\"early\":1,\"edge\":4,\"form\":\"times\",\"horizon\":1500,\"late\":3,\"longest\":25}",
    ),
    (
        3,
        b"policy both light-emerg",
        b"{\"form\":\"policy\",\"kind\":\"light-emerg\",\"name\":\"both\"}",
    ),
    (
        3,
        b"plan 0 1 10 3 1 straight 500 501 0 1000 700 car early",
        b"{\"accel\":0,\"class\":\"car\",\"first\":1,\"form\":\"plan\",\"lane\":1,\"lead\":10,\"length\":1000,\"max\":501,\"resend\":3,\"speed\":500,\"turn\":\"straight\",\"v\":0,\"width\":700,\"window\":\"early\"}",
    ),
    (
        3,
        b"up 0 l d 1 255 r",
        b"{\"fates\":[\"l\",\"d\",1,255,\"r\"],\"form\":\"up\",\"v\":0}",
    ),
    (
        3,
        b"down 0 d",
        b"{\"fates\":[\"d\"],\"form\":\"down\",\"v\":0}",
    ),
    (
        4,
        b"7 20 request 3 1 straight 30 500 501 0 1000 700 car",
        b"{\"form\":\"event\",\"message\":{\"accel\":0,\"arrive\":30,\"class\":\"car\",\"kind\":\"request\",\"lane\":1,\"length\":1000,\"max\":501,\"seq\":3,\"speed\":500,\"turn\":\"straight\",\"width\":700},\"moment\":20,\"vehicle\":7}",
    ),
    (
        4,
        b"7 20 request 3 1 straight 30 500 501 0 1000 700 car 31",
        b"{\"form\":\"event\",\"message\":{\"accel\":0,\"arrive\":30,\"class\":\"car\",\"kind\":\"request\",\"lane\":1,\"latest\":31,\"length\":1000,\"max\":501,\"seq\":3,\"speed\":500,\"turn\":\"straight\",\"width\":700},\"moment\":20,\"vehicle\":7}",
    ),
    (
        4,
        b"7 20 change 3 9 1 straight 30 500 501 0 1000 700 emergency 4294967295",
        b"{\"form\":\"event\",\"message\":{\"accel\":0,\"arrive\":30,\"class\":\"emergency\",\"id\":9,\"kind\":\"change\",\"lane\":1,\"latest\":4294967295,\"length\":1000,\"max\":501,\"seq\":3,\"speed\":500,\"turn\":\"straight\",\"width\":700},\"moment\":20,\"vehicle\":7}",
    ),
    (
        4,
        b"policy both light-emerg",
        b"{\"form\":\"policy\",\"kind\":\"light-emerg\",\"name\":\"both\"}",
    ),
];

// The line of the text has to be written as this JSON text.
fn check_written(rt: &impl Abort, alloc: Global, version: u8, text: &[u8], json: &[u8])
    requires { (0 < version) × (version ≤ 4) }
{
    let Ok(line) = read_line(text, version) else {
        panic!(rt; "no line")
    };
    line_is_spelled_so();
    let mut out = Vec::new(alloc);
    assert!(rt; write_json_line(alloc, &line, version, &mut out).is_ok());
    assert!(rt; out.as_slice() == json);
}

/// The JSON text has to be read as the line of this text.
pub fn check_read(rt: &impl Abort, alloc: Global, version: u8, json: &[u8], text: &[u8])
    requires { (0 < version) × (version ≤ 4) }
{
    let Ok(line) = read_json_line(alloc, json, version) else {
        panic!(rt; "no line")
    };
    let mut out = Vec::new(alloc);
    assert!(rt; write_line(&line, version, &mut out).is_ok());
    assert!(rt; out.as_slice() == text);
}

#[test]
fn each_form_comes_back(rt: HostRuntime) {
    for (version, text, json) in &FORMS {
        assert!(rt; 0 < *version && *version <= 4);
        check_written(&rt, rt.alloc(), *version, text, json);
        check_read(&rt, rt.alloc(), *version, json, text);
    }
}

static FAULTS: [(&[u8], LineKind); 26] = [
    (b"", LineKind::Unknown),
    (b"begi", LineKind::Unknown),
    (b" begin", LineKind::Unknown),
    (b"begin ", LineKind::Words),
    (b"0  0 cancel 1 0", LineKind::Words),
    (b"1 0 requ", LineKind::Words),
    (
        b"0 0 request 1 0 straight 10 500 500 0 1000 700 ca",
        LineKind::Words,
    ),
    (
        b"0 0 request 1 0 straight 10 500 500 0 1000 700 car 11",
        LineKind::Words,
    ),
    (b"operator 2 start", LineKind::Words),
    (b"times 1500 25 20 1 3 4", LineKind::Words),
    (b"up 0", LineKind::Words),
    (
        b"phase 20 80 0 1 2 3 4 5 6 7 8 9 10 11 12 13 14 15 16",
        LineKind::Words,
    ),
    (b"policy abcdefghijklmnopq fcfs", LineKind::Words),
    (b"policy Plain fcfs", LineKind::Words),
    (b"policy plain light-emerg", LineKind::Words),
    (b"up 0 x", LineKind::Words),
    (b"00 0 cancel 1 0", LineKind::Number),
    (b"lanes ", LineKind::Number),
    (b"lanes +1", LineKind::Number),
    (b"up 0 007", LineKind::Number),
    (b"0 4294967296 cancel 1 0", LineKind::Range),
    (
        b"0 0 request 1 256 left 10 500 500 0 1000 700 car",
        LineKind::Range,
    ),
    (b"phase 20 80 1 1", LineKind::Range),
    (b"phase 20 80 16", LineKind::Range),
    (b"up 0 0", LineKind::Range),
    (b"up 0 256", LineKind::Range),
];

#[test]
fn first_fault_is_told(rt: HostRuntime) {
    for (text, kind) in &FAULTS {
        assert!(rt; read_line(text, 1).err() == Some(*kind));
    }
}

// Events of version 4 that go on behind their last place, and the first fault of each.
static LATEST_FAULTS: [(&[u8], LineKind); 5] = [
    (b"7 20 cancel 3 9 31", LineKind::Words),
    (
        b"7 20 request 3 1 straight 30 500 501 0 1000 700 car 31 32",
        LineKind::Words,
    ),
    (
        b"7 20 request 3 1 straight 30 500 501 0 1000 700 car late",
        LineKind::Number,
    ),
    (
        b"7 20 request 3 1 straight 30 500 501 0 1000 700 car 30",
        LineKind::Range,
    ),
    (
        b"7 20 change 3 9 1 straight 30 500 501 0 1000 700 car 29",
        LineKind::Range,
    ),
];

#[test]
fn a_last_step_of_arrival_is_above_the_first(rt: HostRuntime) {
    for (text, kind) in &LATEST_FAULTS {
        assert!(rt; read_line(text, 4).err() == Some(*kind));
    }
}
