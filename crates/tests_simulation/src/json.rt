//! JSON texts in other layouts than the one that is written, and those that are no lines.

use crate::lines::check_read;
use aim_json::{JsonFault, read_json_line};

// Members in another order, white space, an escape, and two members of one name.
static LOOSE: [(&[u8], &[u8]); 5] = [
    (b" {\"n\" : 3,\t\"form\":\"aim\" } ", b"aim 3"),
    (
        b"{\"lanes\":[0,3,15],\"green\":80,\"form\":\"phase\",\"red\":20}",
        b"phase 20 80 0 3 15",
    ),
    (b"{\"form\":\"begin\",\"form\":\"end\"}", b"end"),
    (b"{\"form\":\"\\u0065nd\"}", b"end"),
    (
        b"{\"message\":{\"seq\":3,\"kind\":\"done\",\"id\":9},\"moment\":20,\"form\":\"event\",\"vehicle\":7}",
        b"7 20 done 3 9",
    ),
];

#[test]
fn layout_is_free(rt: HostRuntime) {
    for (json, text) in &LOOSE {
        check_read(&rt, rt.alloc(), 1, json, text);
    }
}

// The last two are 127 and 128 brackets deep.
static FAULTS: [(&[u8], JsonFault); 33] = [
    (b"", JsonFault::Json),
    (b"aim 1", JsonFault::Json),
    (b"{\"form\":\"begin\"} {\"form\":\"end\"}", JsonFault::Json),
    (b"{\"form\":\"begin\"", JsonFault::Json),
    (b"{\"form\":\"aim\",\"n\":1e309}", JsonFault::Json),
    (
        b"{\"form\":\"policy\",\"name\":\"\\ud800\",\"kind\":\"fcfs\"}",
        JsonFault::Json,
    ),
    (b"{\"form\":\"aim\",\"n\":01}", JsonFault::Json),
    (b"{\"form\":\"aim\"}", JsonFault::Form),
    (b"{\"form\":\"begin\",\"n\":1}", JsonFault::Form),
    (b"{\"form\":\"aim\",\"n\":\"1\"}", JsonFault::Form),
    (b"{\"form\":\"aim\",\"n\":1.0}", JsonFault::Form),
    (b"{\"form\":\"aim\",\"n\":1e0}", JsonFault::Form),
    (b"{\"form\":\"aim\",\"n\":-0}", JsonFault::Form),
    (b"{\"form\":\"aim\",\"n\":null}", JsonFault::Form),
    (b"{\"form\":\"aim\",\"n\":4294967296}", JsonFault::Form),
    (
        b"{\"form\":\"aim\",\"n\":18446744073709551616}",
        JsonFault::Form,
    ),
    (
        b"{\"form\":\"phase\",\"red\":20,\"green\":80,\"lanes\":[]}",
        JsonFault::Form,
    ),
    (
        b"{\"form\":\"phase\",\"red\":20,\"green\":80,\"lanes\":[3,0]}",
        JsonFault::Form,
    ),
    (
        b"{\"form\":\"phase\",\"red\":20,\"green\":80,\"lanes\":[[0]]}",
        JsonFault::Form,
    ),
    (
        b"{\"form\":\"times\",\"horizon\":1500,\"longest\":25,\"clearance\":20,\"early\":1,\"late\":3,\"edge\":4}",
        JsonFault::Form,
    ),
    (
        b"{\"form\":\"policy\",\"name\":\"both\",\"kind\":\"light-emerg\"}",
        JsonFault::Form,
    ),
    (
        b"{\"form\":\"policy\",\"name\":\"Plain\",\"kind\":\"fcfs\"}",
        JsonFault::Form,
    ),
    (
        b"{\"form\":\"up\",\"v\":0,\"fates\":[\"d\",\"x\"]}",
        JsonFault::Form,
    ),
    (
        b"{\"form\":\"up\",\"v\":0,\"fates\":[256]}",
        JsonFault::Form,
    ),
    (
        b"{\"form\":\"event\",\"vehicle\":7,\"moment\":20,\"message\":{\"kind\":\"done\",\"seq\":3,\"id\":9,\"lane\":0}}",
        JsonFault::Form,
    ),
    (
        b"{\"form\":\"event\",\"vehicle\":7,\"moment\":20,\"message\":{\"kind\":\"done\",\"seq\":3}}",
        JsonFault::Form,
    ),
    (
        b"{\"form\":\"event\",\"vehicle\":7,\"moment\":20,\"message\":\"done\"}",
        JsonFault::Form,
    ),
    (b"{\"form\":\"operator\",\"moment\":2}", JsonFault::Form),
    (b"[]", JsonFault::Form),
    (b"null", JsonFault::Form),
    (b"\"\xff\"", JsonFault::Json),
    (
        b"[[[[[[[[[[[[[[[[[[[[[[[[[[[[[[[[[[[[[[[[[[[[[[[[[[[[[[[[[[[[[[[[[[[[[[[[[[[[[[[[[[[[[[[[[[[[[[[[[[[[[[[[[[[[[[[[[[[[[[[[[[[[[[[]]]]]]]]]]]]]]]]]]]]]]]]]]]]]]]]]]]]]]]]]]]]]]]]]]]]]]]]]]]]]]]]]]]]]]]]]]]]]]]]]]]]]]]]]]]]]]]]]]]]]]]]]]]]]]]]]]]]]]]]]]]]]]]",
        JsonFault::Form,
    ),
    (
        b"[[[[[[[[[[[[[[[[[[[[[[[[[[[[[[[[[[[[[[[[[[[[[[[[[[[[[[[[[[[[[[[[[[[[[[[[[[[[[[[[[[[[[[[[[[[[[[[[[[[[[[[[[[[[[[[[[[[[[[[[[[[[[[[[]]]]]]]]]]]]]]]]]]]]]]]]]]]]]]]]]]]]]]]]]]]]]]]]]]]]]]]]]]]]]]]]]]]]]]]]]]]]]]]]]]]]]]]]]]]]]]]]]]]]]]]]]]]]]]]]]]]]]]]]]]]]]]]]",
        JsonFault::Json,
    ),
];

#[test]
fn faults_are_told(rt: HostRuntime) {
    for (json, fault) in &FAULTS {
        assert!(rt; read_json_line(rt.alloc(), json, 1).err() == Some(*fault));
    }
}
