// The one public call: words and texts in, a status and the printed text out.
ghost use Rattle.std.specs.Prelude.{◌≡◌, ◌≢◌, ◌≤◌, ◌<◌, ◌+◌, ◌++◌, ◌⊎◌, ℕ, length, map, take, drop, List, IsTrue, ◌↔◌, IfOk, IfErr, OnOk, OnErr, MatchOption, MatchResult, Some, None, option_map, string_bytes, codes};
ghost use Rattle.kasa_edge.specs.Causes.{Rose};
ghost use Rattle.kasa_edge.specs.Shelf.{held_at};
ghost use Rattle.kasa_top.specs.Outcome.{Ends};
ghost use Rattle.kasa_choose.specs.Gathered.{IsGathered};
ghost use Rattle.kasa_top.specs.Fetched.{Fetched};
ghost use Rattle.kasa_top.specs.Sound.{TakesSoundReport};
ghost use Rattle.kasa_report.specs.FaultText.{model_fault_text as fault_text};
ghost use Rattle.kasa_top.specs.Status.{status_text};
ghost use Rattle.kasa_top.specs.Due.{IsDue, IsMadeAndWritten, IsRefused, IsSolved, IsSoundReport, IsUnreported, IsUnsolved, IsWritten};

use crate::Status;
use crate::words::analyse_of;
use kasa_choose::{Chooser, Kind, gather};
use kasa_compile::{ModelFault, read_model};
use kasa_edge::{Failed, FetchFault, Shelf, Sink};
use kasa_fixpoint::solve;
use kasa_num::{NoMemory, Steps};
use kasa_report::{model_fault_text, report};
use kasa_rules::Model;
use kasa_tables::Tables;
use std::alloc::Global;
use std::marker::Brand;
use std::sync::ledger::{Blank, Ledger};

/// The most bytes of a model's text: 4 MiB.
const MOST: usize = 4_194_304;

// The model's text. Of a longer one than is read, one byte too many.
fn fetch_model<S: Shelf>(shelf: &mut S, name: &str) -> Result<Vec<u8>, Status>
    ensures text { IfOk result (λ text. Fetched (S.held shelf.old) name.now text.items) }
    ensures refused { IfErr result (λ status. (status ≡ Status.NoMemory) ⊎ ((status ≡ Status.ReadFault) × (Rose (S.read_faults shelf.old) (S.read_faults shelf.new) ⊎ (held_at (S.held shelf.old) name.now ≡ Some None)))) }
    ensures same { S.held shelf.new ≡ S.held shelf.old }
{
    match shelf.fetch(name, MOST) {
        Ok(text) => Ok(text),
        Err(FetchFault::Failed) => Err(Status::ReadFault),
        Err(FetchFault::NoMemory) => Err(Status::NoMemory),
    }
}

// The least tables of the families that the choosers plan for a model, by steps over a ledger.
fn solve_plans<L: Ledger>(
    blank: Blank,
    alloc: Global,
    model: &Model,
    choosers: Vec<Box<dyn Chooser>>,
    without: &[Kind],
) -> Result<Tables, Status>
    requires name { blank.name ≡ L.name }
    requires parts { blank.parts ≡ L.parts }
    requires some { L.parts ≡ 1 }
    ensures solved { IfOk result (λ tables. IsSolved (IsGathered (λ b. kind b) (λ b. plan b) choosers.items without.now) model.now tables) }
    ensures unsolved { IfErr result (λ status. IsUnsolved (IsGathered (λ b. kind b) (λ b. plan b) choosers.items without.now) model.now status) }
{
    let families = gather(alloc, model, choosers, without)?;
    let mut steps = Steps::<L>::new(blank);
    Ok(solve(alloc, model, families, &mut steps)?)
}

// The report of a model's text.
fn analyse(
    alloc: Global,
    text: &[u8],
    choosers: Vec<Box<dyn Chooser>>,
    without: &[Kind],
) -> Result<Vec<u8>, Status>
    ensures report { IfOk result (λ printed. IsSoundReport (IsGathered (λ b. kind b) (λ b. plan b) choosers.items without.now) text.now printed.items) }
    ensures unreported { IfErr result (λ status. IsUnreported (IsGathered (λ b. kind b) (λ b. plan b) choosers.items without.now) text.now status) }
{
    if text.len() > MOST {
        return Err(Status::TooLong);
    }
    let model = read_model(alloc, text)?;
    let tables = solve_plans::<Brand>(Blank::new(1), alloc, &model, choosers, without)?;
    Ok(report(alloc, &model, &tables)?)
}

// The report that is due, or the status without one.
fn answer<S: Shelf>(
    alloc: Global,
    words: &[String],
    shelf: &mut S,
    choosers: Vec<Box<dyn Chooser>>,
) -> Result<Vec<u8>, Status>
    ensures report { IfOk result (λ printed. IsDue (IsGathered (λ b. kind b) (λ b. plan b) choosers.items) (map string_bytes words.now) (S.held shelf.old) printed.items) }
    ensures refused { IfErr result (λ status. IsRefused (IsGathered (λ b. kind b) (λ b. plan b) choosers.items) (map string_bytes words.now) (S.held shelf.old) (Rose (S.read_faults shelf.old) (S.read_faults shelf.new)) status) }
    ensures same { S.held shelf.new ≡ S.held shelf.old }
{
    let Some((without, name)) = analyse_of(alloc, words)? else {
        return Err(Status::BadWords);
    };
    let text = fetch_model(shelf, name)?;
    analyse(alloc, text.as_slice(), choosers, without.as_slice())
}

// Writes some of what stands at and behind a place.
fn write_from<O: Sink>(out: &mut O, text: &[u8], at: usize) -> Result<usize, Failed>
    requires { at < length text.now }
    ensures some { IfOk result (λ n. 0 < n) }
    ensures within { IfOk result (λ n. at + n ≤ length text.now) }
    ensures taken { IfOk result (λ n. O.taken out.new ≡ option_map (λ t. t ++ take n (drop at text.now)) (O.taken out.old)) }
    ensures err { OnErr result (O.taken out.new ≡ O.taken out.old) }
    ensures failed { OnErr result (Rose (O.faults out.old) (O.faults out.new)) }
    ensures later { O.faults out.old ≤ O.faults out.new }
{
    out.write(&text[at..])
}

// Writes the whole text. It takes no memory. Where a write fails, a part of the text is taken, not all of it.
fn write_all<O: Sink>(out: &mut O, text: &[u8]) -> Result<(), Failed>
    ensures ok { OnOk result (O.taken out.new ≡ option_map (λ t. t ++ text.now) (O.taken out.old)) }
    ensures part { OnErr result ((n : ℕ) × (n < length text.now) × (O.taken out.new ≡ option_map (λ t. t ++ take n text.now) (O.taken out.old))) }
    ensures failed { OnErr result (Rose (O.faults out.old) (O.faults out.new)) }
    ensures later { O.faults out.old ≤ O.faults out.new }
{
    let mut at = 0;
    while at < text.len() {
        let n = write_from(out, text, at)?;
        at += n;
    }
    Ok(())
}

// Writes the text due with a status. A fault of writing wins over every other status.
fn finish<O: Sink>(out: &mut O, text: &[u8], status: Status) -> Status
    requires { status ≢ Status.WriteFault }
    ensures { IsWritten text.now status (Rose (O.faults out.old) (O.faults out.new)) result (O.taken out.old) (O.taken out.new) }
{
    match write_all(out, text) {
        Ok(()) => status,
        Err(Failed) => Status::WriteFault,
    }
}

// Makes the text of a model's fault and writes it.
fn refuse_model<O: Sink>(alloc: Global, out: &mut O, fault: ModelFault) -> Status
    ensures { IsMadeAndWritten (fault_text fault) (Status.BadModel fault) (Rose (O.faults out.old) (O.faults out.new)) result (O.taken out.old) (O.taken out.new) }
{
    match model_fault_text(alloc, &fault) {
        Ok(text) => finish(out, text.as_slice(), Status::BadModel(fault)),
        Err(NoMemory) => Status::NoMemory,
    }
}

// Writes the text of a status that is due without a report.
fn refuse<O: Sink>(alloc: Global, out: &mut O, status: Status) -> Status
    requires { status ≢ Status.WriteFault }
    ensures { IsMadeAndWritten (status_text status) status (Rose (O.faults out.old) (O.faults out.new)) result (O.taken out.old) (O.taken out.new) }
{
    match status {
        Status::NoMemory => Status::NoMemory,
        Status::BadModel(fault) => refuse_model(alloc, out, fault),
        status => finish(out, status.fixed_text(), status),
    }
}

/// Does what the words ask for, over the texts of a shelf, and prints to a sink. `analyse FLAGS MODEL` prints what bonds and
/// states there can be, what agents can never hold together, which rules can never fire, and how large species can become,
/// all by the least closed tables of the families that the choosers plan, but for those whose kind a flag leaves out; they
/// are orthogonal pattern sets after Feret and Ly. The status says how it ended; the text due is made whole before any of
/// it is written.
pub fn run<S: Shelf, O: Sink>(
    alloc: Global,
    words: &[String],
    shelf: &mut S,
    out: &mut O,
    choosers: Vec<Box<dyn Chooser>>,
) -> Status
    ensures ends { Ends (IsGathered (λ b. kind b) (λ b. plan b) choosers.items) (map string_bytes words.now) (S.held shelf.old) (Rose (S.read_faults shelf.old) (S.read_faults shelf.new)) (Rose (O.faults out.old) (O.faults out.new)) result (O.taken out.old) (O.taken out.new) }
    ensures sound { result ≡ Status.Done → TakesSoundReport (IsGathered (λ b. kind b) (λ b. plan b) choosers.items) (map string_bytes words.now) (S.held shelf.old) (O.taken out.old) (O.taken out.new) }
    ensures same { S.held shelf.new ≡ S.held shelf.old }
{
    match answer(alloc, words, shelf, choosers) {
        Ok(text) => finish(out, text.as_slice(), Status::Done),
        Err(status) => refuse(alloc, out, status),
    }
}
