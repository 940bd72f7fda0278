//! The program: it makes the real shelf and sink, calls `run`, and ends with the code of its status.
#![tactic(auto)]

use kasa_choose::{AcrossChooser, ChainChooser, Chooser, ParallelChooser, ViewChooser};
use kasa_edge::{DiskShelf, OutSink};
use kasa_num::NoMemory;
use kasa_top::{Status, run};
use std::process::ExitCode;
use std::rt::Env;
use std::{env, io};

// The words behind the program's name.
fn words<R: Env + AllocGlobal>(rt: &R) -> io::Result<Vec<String>> {
    let mut words = Vec::new(rt.alloc());
    for word in env::args(rt)?.skip(1) {
        words.push(word)?;
    }
    Ok(words)
}

// Boxes the choosers, and does what the words ask for.
fn start(rt: HostRuntime, words: &[String]) -> Result<Status, NoMemory> {
    let alloc = rt.alloc();
    let mut choosers: Vec<Box<dyn Chooser>> = Vec::new(alloc);
    choosers.push(Box::new(alloc, ViewChooser::new(alloc))?)?;
    choosers.push(Box::new(alloc, AcrossChooser::new(alloc))?)?;
    choosers.push(Box::new(alloc, ParallelChooser::new(alloc))?)?;
    choosers.push(Box::new(alloc, ChainChooser::new(alloc))?)?;
    let mut shelf = DiskShelf::new(rt, alloc);
    let mut out = OutSink::new(rt);
    Ok(run(alloc, words, &mut shelf, &mut out, choosers))
}

fn main(rt: HostRuntime) -> ExitCode {
    let words = match words(&rt) {
        Ok(words) => words,
        Err(e) if e.kind() == io::ErrorKind::OutOfMemory => return ExitCode::from(12),
        Err(_) => return ExitCode::from(2),
    };
    match start(rt, words.as_slice()) {
        Ok(status) => ExitCode::from(status.code()),
        Err(NoMemory) => ExitCode::from(12),
    }
}
