//! Replays of scripts in both spellings, from bytes to bytes.

use aim_replay_command::{JsonLines, WordLines, replay};
use tests_samples::{sink_of, source_of};

const SCRIPT: &[u8] =
    b"aim 1\ngrid 4000 4 100 0 450 4096\ntimes 1500 25 20 0 0\nlanes 2\nmove 0 straight line 0 1500 4000 1500 40\nmove 1 straight line 2500 0 2500 4000 40\npolicy plain fcfs\nvehicles 8\nbegin\n0 0 request 1 0 straight 10 500 500 0 1000 700 car\n1 0 request 1 1 straight 10 500 500 0 1000 700 car\nend\n";

const JSON_SCRIPT: &[u8] =
    b"{\"form\":\"aim\",\"n\":1}\n{\"form\":\"grid\",\"half\":450,\"n\":4,\"side\":4000,\"spacing\":100,\"spans\":4096,\"static\":0}\n{\"clearance\":20,\"edge\":0,\"form\":\"times\",\"horizon\":1500,\"internal\":0,\"longest\":25}\n{\"form\":\"lanes\",\"n\":2}\n{\"form\":\"move\",\"lane\":0,\"m\":40,\"shape\":\"line\",\"turn\":\"straight\",\"x0\":0,\"x1\":4000,\"y0\":1500,\"y1\":1500}\n{\"form\":\"move\",\"lane\":1,\"m\":40,\"shape\":\"line\",\"turn\":\"straight\",\"x0\":2500,\"x1\":2500,\"y0\":0,\"y1\":4000}\n{\"form\":\"policy\",\"kind\":\"fcfs\",\"name\":\"plain\"}\n{\"form\":\"policy\",\"kind\":\"light\",\"name\":\"lights\"}\n{\"form\":\"phase\",\"green\":80,\"lanes\":[0],\"red\":20}\n{\"form\":\"phase\",\"green\":80,\"lanes\":[1],\"red\":20}\n{\"form\":\"policy\",\"kind\":\"emerg\",\"name\":\"siren\"}\n{\"form\":\"vehicles\",\"n\":8}\n{\"form\":\"begin\"}\n{\"form\":\"switch\",\"moment\":5,\"name\":\"lights\"}\n{\"form\":\"event\",\"message\":{\"accel\":0,\"arrive\":1494,\"class\":\"car\",\"kind\":\"request\",\"lane\":1,\"length\":1000,\"max\":500,\"seq\":1,\"speed\":500,\"turn\":\"straight\",\"width\":700},\"moment\":5,\"vehicle\":0}\n{\"form\":\"event\",\"message\":{\"accel\":0,\"arrive\":1520,\"class\":\"car\",\"kind\":\"request\",\"lane\":1,\"length\":1000,\"max\":500,\"seq\":1,\"speed\":500,\"turn\":\"straight\",\"width\":700},\"moment\":5,\"vehicle\":1}\n{\"form\":\"event\",\"message\":{\"accel\":0,\"arrive\":1530,\"class\":\"car\",\"kind\":\"request\",\"lane\":1,\"length\":1000,\"max\":500,\"seq\":2,\"speed\":500,\"turn\":\"straight\",\"width\":700},\"moment\":100,\"vehicle\":1}\n{\"form\":\"event\",\"message\":{\"accel\":0,\"arrive\":1530,\"class\":\"car\",\"kind\":\"request\",\"lane\":0,\"length\":1000,\"max\":500,\"seq\":1,\"speed\":500,\"turn\":\"straight\",\"width\":700},\"moment\":100,\"vehicle\":2}\n{\"form\":\"end\"}\n";

// What is printed of the first script, with a chart, and behind it what is printed of the second.
const TEXT: &[u8] =
    b"0 0 0 request 1 0 straight 10 500 500 0 1000 700 car -> confirm 0 10 0 0 steady 20\n1 1 0 request 1 1 straight 10 500 500 0 1000 700 car -> reject taken 1 2 13 0 next 5 held none\n....\n....\n.###\n....\nend 2\n{\"act\":{\"kind\":\"switch\",\"policy\":1},\"caller\":\"operator\",\"moment\":5,\"position\":0,\"reply\":{\"from\":1505,\"kind\":\"switched\"}}\n{\"act\":{\"accel\":0,\"arrive\":1494,\"class\":\"car\",\"kind\":\"request\",\"lane\":1,\"length\":1000,\"max\":500,\"seq\":1,\"speed\":500,\"turn\":\"straight\",\"width\":700},\"caller\":0,\"moment\":5,\"position\":1,\"reply\":{\"early\":0,\"id\":1,\"kind\":\"confirm\",\"last\":1504,\"late\":0,\"start\":1494,\"trial\":\"steady\"}}\n{\"act\":{\"accel\":0,\"arrive\":1520,\"class\":\"car\",\"kind\":\"request\",\"lane\":1,\"length\":1000,\"max\":500,\"seq\":1,\"speed\":500,\"turn\":\"straight\",\"width\":700},\"caller\":1,\"moment\":5,\"position\":2,\"reply\":{\"held\":null,\"kind\":\"reject\",\"next\":30,\"reason\":{\"kind\":\"far\",\"reach\":1505}}}\n{\"act\":{\"accel\":0,\"arrive\":1530,\"class\":\"car\",\"kind\":\"request\",\"lane\":1,\"length\":1000,\"max\":500,\"seq\":2,\"speed\":500,\"turn\":\"straight\",\"width\":700},\"caller\":1,\"moment\":100,\"position\":3,\"reply\":{\"held\":null,\"kind\":\"reject\",\"next\":125,\"reason\":{\"col\":2,\"kind\":\"green\",\"lane\":0,\"row\":1,\"step\":1531}}}\n{\"act\":{\"accel\":0,\"arrive\":1530,\"class\":\"car\",\"kind\":\"request\",\"lane\":0,\"length\":1000,\"max\":500,\"seq\":1,\"speed\":500,\"turn\":\"straight\",\"width\":700},\"caller\":2,\"moment\":100,\"position\":4,\"reply\":{\"early\":0,\"id\":4,\"kind\":\"confirm\",\"last\":1540,\"late\":0,\"start\":1530,\"trial\":\"steady\"}}\n{\"end\":5}\n";

#[test]
fn confirmed_refused_and_switched(rt: HostRuntime) {
    let alloc = rt.alloc();
    let mut sink = sink_of(alloc, 8192, &[]).expect(&rt, "memory for the sink");
    let mut source = source_of(alloc, SCRIPT, &[]).expect(&rt, "memory for a script");
    assert!(rt; replay::<WordLines, _, _>(alloc, &mut source, &mut sink, Some(15)) == 0);
    let mut json = source_of(alloc, JSON_SCRIPT, &[]).expect(&rt, "memory for a script");
    assert!(rt; replay::<JsonLines, _, _>(alloc, &mut json, &mut sink, None) == 0);
    assert!(rt; sink.bytes() == TEXT);
}
