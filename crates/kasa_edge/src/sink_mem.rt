// A sink in memory, whose writes fail where they are told to.
ghost use Rattle.std.specs.Prelude.{◌≡◌, ◌≤◌, ◌<◌, ◌^◌, ◌++◌, [], Some, OnOk, OnErr, IfOk, IsErr, IsTrue, ◌↔◌, length, take, vec_len, vec_capacity, option_map};
ghost use Rattle.kasa_edge.specs.Causes.{raised};

use crate::calls::is_listed;
use crate::{Failed, Sink};
use kasa_num::NoMemory;
use std::alloc::Global;

/// Keeps what it takes, up to a number of bytes. Its calls of `write` are numbered from 1, failed
/// ones too, and those listed fail. The number stays at 2^64 - 1 once it is there, which no list
/// holds.
#[derive(Drop)]
pub struct SinkMem {
    bytes: Vec<u8>,
    room: usize,
    at_once: usize,
    fails: Vec<u32>,
    calls: u64,
    faults: u64,
    ghost fits: { room ≤ vec_capacity bytes },
    ghost some: { 0 < at_once },
    ghost within: { vec_len bytes ≤ room },
    ghost count_fits: { faults < 2 ^ 64 },
}

impl SinkMem {
    ghost use Rattle.kasa_edge.specs.SinkMem.{taken_of, room_of, at_once_of, fails_of, calls_of, faults_of, IsFailing, SameSettings};

    /// A sink that takes `room` bytes in all and `at_once` bytes in one call at most. It takes all
    /// its memory here.
    pub fn new(
        alloc: Global,
        room: usize,
        at_once: usize,
        fails: Vec<u32>,
    ) -> Result<SinkMem, NoMemory>
        requires { 0 < at_once }
        ensures taken { IfOk result (λ sink. taken_of sink ≡ []) }
        ensures room { IfOk result (λ sink. room_of sink ≡ room) }
        ensures at_once { IfOk result (λ sink. at_once_of sink ≡ at_once) }
        ensures fails { IfOk result (λ sink. fails_of sink ≡ fails.items) }
        ensures calls { IfOk result (λ sink. calls_of sink ≡ 0) }
        ensures faults { IfOk result (λ sink. faults_of sink ≡ 0) }
    {
        Ok(SinkMem {
            bytes: Vec::with_capacity(alloc, room)?,
            room,
            at_once,
            fails,
            calls: 0,
            faults: 0,
        })
    }

    /// The bytes taken. It takes no memory.
    pub fn taken(&self) -> &[u8]
        ensures { result.now ≡ taken_of self.now }
    {
        self.bytes.as_slice()
    }

    // Counts a call, and says whether it is to fail.
    fn is_next_failing(&mut self) -> bool
        ensures listed { IsTrue result ↔ IsFailing self.old }
        ensures calls { calls_of self.new ≡ raised (calls_of self.old) }
        ensures bytes { self.new.bytes ≡ self.old.bytes }
        ensures faults { faults_of self.new ≡ faults_of self.old }
        ensures settings { SameSettings self.old self.new }
    {
        self.calls = self.calls.saturating_add(1);
        self.bytes.len() == self.room || is_listed(&self.fails, self.calls)
    }
}

impl Sink for SinkMem {
    ghost use Rattle.kasa_edge.specs.SinkMem.{taken_of, calls_of, faults_of, IsFailing, taken_len, SameSettings};

    ghost taken = { λ sink. Some (taken_of sink) };

    ghost faults = { λ sink. faults_of sink };

    /// `Failed` comes, and the count of faults rises, exactly where the call is listed or there is
    /// no room.
    fn write(&mut self, piece: &[u8]) -> Result<usize, Failed>
        requires { 0 < length piece.now }
        ensures failed { IsErr result ↔ IsFailing self.old }
        ensures some { IfOk result (λ n. 0 < n) }
        ensures amount { IfOk result (λ n. n ≡ taken_len self.old piece.now) }
        ensures taken { IfOk result (λ n. taken_of self.new ≡ taken_of self.old ++ take n piece.now) }
        ensures ok { OnOk result (faults_of self.new ≡ faults_of self.old) }
        ensures err { OnErr result (taken_of self.new ≡ taken_of self.old) }
        ensures raised { OnErr result (faults_of self.new ≡ raised (faults_of self.old)) }
        ensures calls { calls_of self.new ≡ raised (calls_of self.old) }
        ensures settings { SameSettings self.old self.new }
    {
        if self.is_next_failing() {
            self.faults = self.faults.saturating_add(1);
            return Err(Failed);
        }
        let room = self.room - self.bytes.len();
        let taken = self.at_once.min(piece.len()).min(room);
        self.bytes.extend_from_slice(&piece[..taken]).unwrap();
        Ok(taken)
    }

    ghost faults_fit = { λ sink. sink.count_fits };
}
