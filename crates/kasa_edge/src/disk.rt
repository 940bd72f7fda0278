// The real ones: files by their paths, and standard output. They tell nothing of content.
ghost use Rattle.std.specs.Prelude.{◌≡◌, ◌≤◌, ◌+◌, ◌<◌, ◌^◌, None, IfOk, length};

use crate::{Failed, FetchFault, Shelf, Sink};
use std::alloc::Global;
use std::fs;
use std::io::{self, Read, Write};
use std::rt::Files;

/// Files by their paths. What can't be opened or read, as a folder, is a read fault.
#[derive(Drop)]
pub struct DiskShelf {
    rt: HostRuntime,
    alloc: Global,
    read_faults: u64,
    ghost reads_fit: { read_faults < 2 ^ 64 },
}

impl DiskShelf {
    /// A shelf of the files of this machine. Nothing has failed so far.
    pub fn new(rt: HostRuntime, alloc: Global) -> DiskShelf
        ensures { result.read_faults ≡ 0 }
    {
        DiskShelf {
            rt,
            alloc,
            read_faults: 0,
        }
    }
}

enum Part {
    Some(usize),
    End,
    Failed,
    NoMemory,
}

// Reads the next part of a file behind the bytes that are there, so that at most `most + 1` are.
fn read_part<R: Read>(file: &mut R, bytes: &mut Vec<u8>, most: usize) -> Part
    requires few { length bytes.old.items ≤ most + 1 }
    requires most { most < 2 ^ 31 }
    ensures { length bytes.new.items ≤ most + 1 }
{
    let mut buf = [0u8; 4096];
    let room = most + 1 - bytes.len();
    let want = room.min(4096);
    if want == 0 {
        return Part::End;
    }
    match file.read(&mut buf[..want]) {
        Err(_) => Part::Failed,
        Ok(0) => Part::End,
        Ok(n) => match bytes.extend_from_slice(&buf[..n]) {
            Ok(()) => Part::Some(n),
            Err(_) => Part::NoMemory,
        },
    }
}

// Reads a file to its end, or until there are `most + 1` bytes.
fn read_most<R: Read>(alloc: Global, file: &mut R, most: usize) -> Result<Vec<u8>, FetchFault>
    requires { most < 2 ^ 31 }
    ensures { IfOk result (λ bytes. length bytes.items ≤ most + 1) }
{
    let mut bytes = Vec::new(alloc);
    for _ in 0..u64::MAX {
        match read_part(file, &mut bytes, most) {
            Part::Some(_) => {}
            Part::End => return Ok(bytes),
            Part::Failed => return Err(FetchFault::Failed),
            Part::NoMemory => return Err(FetchFault::NoMemory),
        }
    }
    Err(FetchFault::Failed)
}

impl Shelf for DiskShelf {
    ghost held = { λ _. None };

    ghost read_faults = { λ shelf. shelf.read_faults };

    fn fetch(&mut self, name: &str, most: usize) -> Result<Vec<u8>, FetchFault> {
        let read = match fs::open(&self.rt, name) {
            Ok(mut file) => read_most(self.alloc, &mut file, most),
            Err(_) => Err(FetchFault::Failed),
        };
        if let Err(FetchFault::Failed) = &read {
            self.read_faults = self.read_faults.saturating_add(1);
        }
        read
    }

    ghost read_faults_fit = { λ shelf. shelf.reads_fit };
}

/// Standard output. A write that takes nothing counts as a fault.
#[derive(Drop)]
pub struct OutSink {
    rt: HostRuntime,
    faults: u64,
    ghost count_fits: { faults < 2 ^ 64 },
}

impl OutSink {
    /// The standard output of this program. Nothing has failed so far.
    pub fn new(rt: HostRuntime) -> OutSink
        ensures { result.faults ≡ 0 }
    {
        OutSink { rt, faults: 0 }
    }
}

impl Sink for OutSink {
    ghost taken = { λ _. None };

    ghost faults = { λ sink. sink.faults };

    fn write(&mut self, piece: &[u8]) -> Result<usize, Failed> {
        let written = io::writer(&self.rt).write(piece);
        if let Ok(n) = written {
            if n > 0 {
                return Ok(n);
            }
        }
        self.faults = self.faults.saturating_add(1);
        Err(Failed)
    }

    ghost faults_fit = { λ sink. sink.count_fits };
}
