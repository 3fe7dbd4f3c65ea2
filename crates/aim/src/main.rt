//! An intersection manager: replays what vehicles asked, and prints what it answers.
#![tactic(auto)]

mod help;
mod program;
mod words;

use aim_agents::Gate;
use aim_io::{StdSink, StdSource};
use std::alloc::Global;
use std::process::ExitCode;
use std::{env, io};

// A gate at which nobody waits.
struct NoGate;

impl Gate for NoGate {
    fn before(&self, _vehicle: u32, _step: u32) {}
}

// The words after the program's name: none where one of them is no text, since such a word is in no table. `None` is where
// memory runs out.
fn words_of(rt: &HostRuntime, alloc: Global) -> Option<Vec<String>> {
    match env::args(rt) {
        Ok(words) => words.skip(1).collect::<Vec<String>>(alloc).ok(),
        Err(error) if error.kind() == io::ErrorKind::OutOfMemory => None,
        Err(_) => Some(Vec::new(alloc)),
    }
}

fn main(rt: HostRuntime) -> ExitCode {
    let alloc = rt.alloc();
    let Some(words) = words_of(&rt, alloc) else {
        return ExitCode::from(7);
    };
    let mut source = StdSource::new(rt.reader());
    let Ok(mut sink) = StdSink::new(alloc, io::writer(&rt)) else {
        return ExitCode::from(7);
    };
    let status = program::run(&rt, alloc, &words, &mut source, &mut sink, &NoGate);
    ExitCode::from(status)
}
