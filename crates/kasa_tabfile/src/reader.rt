// The file of tables, read in parts.
ghost use Rattle.std.specs.Prelude.{◌≤◌, ◌+◌, ◌++◌, [], ℕ, List, IfOk, IfErr, Ok, length};
ghost use Rattle.kasa_num.specs.declared.limits.TheConstants.{MAX_TABLE_BYTES};
ghost use Rattle.kasa_graph.specs.Signature.{TypeEntry};
ghost use Rattle.kasa_tabfile.specs.Outcome.{TablesOf};
ghost use Rattle.kasa_tabfile.specs.Reading.{HasTaken, Fails};

use crate::TabFault;
use crate::reading::Reading;
use kasa_graph::Signature;
use kasa_num::NoMemory;
use kasa_tables::Tables;
use std::alloc::Global;

/// Takes the text of tables part by part. Of the text it keeps the tables so far, and of the line that isn't ended the
/// numbers or local states that it has given (at most sixteen) and seventeen bytes at most.
#[derive(Drop)]
pub struct TableReader<'a> {
    sig: &'a Signature,
    reading: Reading,
}

impl<'a> TableReader<'a> {
    /// A reader that has taken the empty text.
    pub fn new(alloc: Global, sig: &'a Signature) -> Result<TableReader<'a>, NoMemory>
        ensures { IfOk result (λ reader. HasTaken sig.now reader []) }
    {
        Ok(TableReader {
            sig,
            reading: Reading::new(alloc, sig)?,
        })
    }

    /// Takes the next part of the text, of any length: where the reader had taken a text, the new one has taken the text
    /// and the part.
    pub fn feed(self, piece: &[u8]) -> Result<TableReader<'a>, NoMemory>
        requires { (sig : List TypeEntry) × (text : List ℕ) × HasTaken sig self text ×
            (length text + length piece.now ≤ MAX_TABLE_BYTES) }
        ensures { (sig : List TypeEntry) (text : List ℕ) → HasTaken sig self.entry text →
            IfOk result (λ reader. HasTaken sig reader (text ++ piece.now)) }
    {
        let sig = self.sig;
        let mut reading = self.reading;
        reading.feed(sig, piece)?;
        Ok(TableReader { sig, reading })
    }

    /// What the text that it has taken stands for, its tables or its first fault. It takes no memory.
    pub fn finish(self) -> Result<Tables, TabFault>
        ensures { (sig : List TypeEntry) (text : List ℕ) → HasTaken sig self.entry text →
            TablesOf sig text result }
    {
        self.reading.finish()
    }
}

/// The tables that a text stands for, or its first fault.
pub fn read_tables(alloc: Global, sig: &Signature, text: &[u8]) -> Result<Tables, TabFault>
    requires { length text.now ≤ MAX_TABLE_BYTES }
    ensures ok { IfOk result (λ tables. TablesOf sig.now text.now (Ok tables)) }
    ensures err { IfErr result (λ fault. Fails sig.now text.now fault) }
{
    let reader = TableReader::new(alloc, sig)?;
    let reader = reader.feed(text)?;
    reader.finish()
}
