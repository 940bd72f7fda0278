// The texts of faults: of a model, and of a file of tables.
ghost use Rattle.std.specs.Prelude.{◌≡◌, ◌++◌, decimal, IfOk, OnOk};
ghost use Rattle.kasa_report.specs.FaultText.{compile_text, lex_text, model_fault_text as text_of, parse_text, place_text, sig_text, tables_fault_text as text_of_tables, numbered};

use itoa::Buffer;
use kasa_compile::{CompileFault, ModelFault};
use kasa_lexer::LexFault;
use kasa_num::{NoMemory, Place};
use kasa_parser::ParseFault;
use kasa_sig::SigFault;
use kasa_tabfile::TabFault;
use std::alloc::Global;

/// The line of a model's fault, `model LINE:COLUMN: Cause`; nothing where it is want of memory.
pub fn model_fault_text(alloc: Global, fault: &ModelFault) -> Result<Vec<u8>, NoMemory>
    ensures { IfOk result (λ text. text.items ≡ text_of fault.now) }
{
    match fault {
        ModelFault::Lex(fault) => lex_text(alloc, fault),
        ModelFault::Parse(fault) => parse_text(alloc, fault),
        ModelFault::Sig(fault) => sig_text(alloc, fault),
        ModelFault::Compile(fault) => compile_text(alloc, fault),
        ModelFault::NoMemory => Ok(Vec::new(alloc)),
    }
}

/// The line of a fault of a file of tables, `tables LINE: Cause`, or `tables: NoEnd`; nothing where it is want of memory.
pub fn tables_fault_text(alloc: Global, fault: &TabFault) -> Result<Vec<u8>, NoMemory>
    ensures { IfOk result (λ text. text.items ≡ text_of_tables fault.now) }
{
    match fault {
        TabFault::BadLine(number) => numbered_text(alloc, *number, b"BadLine"),
        TabFault::BadFamily(number) => numbered_text(alloc, *number, b"BadFamily"),
        TabFault::FamilyTwice(number) => numbered_text(alloc, *number, b"FamilyTwice"),
        TabFault::TooManyFamilies(number) => numbered_text(alloc, *number, b"TooManyFamilies"),
        TabFault::BadRow(number) => numbered_text(alloc, *number, b"BadRow"),
        TabFault::RowTwice(number) => numbered_text(alloc, *number, b"RowTwice"),
        TabFault::TooManyRows(number) => numbered_text(alloc, *number, b"TooManyRows"),
        TabFault::NoEnd => Ok(Vec::from_slice(alloc, b"tables: NoEnd\n")?),
        TabFault::NoMemory => Ok(Vec::new(alloc)),
    }
}

// The line of a cause at a line.
fn numbered_text(alloc: Global, number: u32, cause: &[u8]) -> Result<Vec<u8>, NoMemory>
    ensures { IfOk result (λ text. text.items ≡ numbered number cause.now) }
{
    let mut text = Vec::from_slice(alloc, b"tables ")?;
    write_number(number, b": ", &mut text)?;
    text.extend_from_slice(cause)?;
    text.push(b'\n')?;
    Ok(text)
}

fn lex_text(alloc: Global, fault: &LexFault) -> Result<Vec<u8>, NoMemory>
    ensures { IfOk result (λ text. text.items ≡ lex_text fault.now) }
{
    match fault {
        LexFault::BadByte(place) => place_text(alloc, *place, b"BadByte"),
        LexFault::UnclosedComment(place) => place_text(alloc, *place, b"UnclosedComment"),
        LexFault::UnclosedQuote(place) => place_text(alloc, *place, b"UnclosedQuote"),
        LexFault::LongName(place) => place_text(alloc, *place, b"LongName"),
        LexFault::NoMemory => Ok(Vec::new(alloc)),
    }
}

fn parse_text(alloc: Global, fault: &ParseFault) -> Result<Vec<u8>, NoMemory>
    ensures { IfOk result (λ text. text.items ≡ parse_text fault.now) }
{
    match fault {
        ParseFault::Unexpected(place) => place_text(alloc, *place, b"Unexpected"),
        ParseFault::Tokens(place) => place_text(alloc, *place, b"Tokens"),
        ParseFault::Intervention(place) => place_text(alloc, *place, b"Intervention"),
        ParseFault::LongLabel(place) => place_text(alloc, *place, b"LongLabel"),
        ParseFault::NoMemory => Ok(Vec::new(alloc)),
    }
}

fn sig_text(alloc: Global, fault: &SigFault) -> Result<Vec<u8>, NoMemory>
    ensures { IfOk result (λ text. text.items ≡ sig_text fault.now) }
{
    match fault {
        SigFault::Twice(place) => place_text(alloc, *place, b"Twice"),
        SigFault::TooManyTypes(place) => place_text(alloc, *place, b"TooManyTypes"),
        SigFault::TooManySites(place) => place_text(alloc, *place, b"TooManySites"),
        SigFault::TooManyStates(place) => place_text(alloc, *place, b"TooManyStates"),
        SigFault::NoMemory => Ok(Vec::new(alloc)),
    }
}

fn compile_text(alloc: Global, fault: &CompileFault) -> Result<Vec<u8>, NoMemory>
    ensures { IfOk result (λ text. text.items ≡ compile_text fault.now) }
{
    match fault {
        CompileFault::UnknownType(place) => place_text(alloc, *place, b"UnknownType"),
        CompileFault::UnknownSite(place) => place_text(alloc, *place, b"UnknownSite"),
        CompileFault::UnknownState(place) => place_text(alloc, *place, b"UnknownState"),
        CompileFault::SiteTwice(place) => place_text(alloc, *place, b"SiteTwice"),
        CompileFault::LabelNotTwice(place) => place_text(alloc, *place, b"LabelNotTwice"),
        CompileFault::TypeMismatch(place) => place_text(alloc, *place, b"TypeMismatch"),
        CompileFault::HalfBond(place) => place_text(alloc, *place, b"HalfBond"),
        CompileFault::BadRight(place) => place_text(alloc, *place, b"BadRight"),
        CompileFault::PartialInit(place) => place_text(alloc, *place, b"PartialInit"),
        CompileFault::TooManyNodes(place) => place_text(alloc, *place, b"TooManyNodes"),
        CompileFault::TooManyRules(place) => place_text(alloc, *place, b"TooManyRules"),
        CompileFault::TooManyInits(place) => place_text(alloc, *place, b"TooManyInits"),
        CompileFault::NoMemory => Ok(Vec::new(alloc)),
    }
}

// The line of a cause at a place.
fn place_text(alloc: Global, place: Place, cause: &[u8]) -> Result<Vec<u8>, NoMemory>
    ensures { IfOk result (λ text. text.items ≡ place_text place cause.now) }
{
    let mut text = Vec::from_slice(alloc, b"model ")?;
    write_number(place.line, b":", &mut text)?;
    write_number(place.column, b": ", &mut text)?;
    text.extend_from_slice(cause)?;
    text.push(b'\n')?;
    Ok(text)
}

fn write_number(number: u32, after: &[u8], out: &mut Vec<u8>) -> Result<(), NoMemory>
    ensures { OnOk result (out.new.items ≡ out.old.items ++ (decimal number ++ after.now)) }
{
    let mut buffer = Buffer::new();
    out.extend_from_slice(buffer.format(number).as_bytes())?;
    out.extend_from_slice(after)?;
    Ok(())
}
