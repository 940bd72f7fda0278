// A reader's state, without the signature that it borrows.
ghost use Rattle.std.specs.Prelude.{◌≡◌, ◌≤◌, ◌<◌, ◌+◌, ◌++◌, ◌∷◌, [], ℕ, List, OnOk, IfOk, Result, length};
ghost use Rattle.kasa_graph.specs.Signature.{TypeEntry};
ghost use Rattle.kasa_families.specs.Table.{Table};
ghost use Rattle.kasa_tabfile.specs.declared.fault.TabFault.{TabFault};
ghost use Rattle.kasa_tabfile.specs.Outcome.{at_end, TablesOf};
ghost use Rattle.kasa_tabfile.specs.Reading.{GoesOn, GivesMore};

use crate::TabFault;
use crate::open_line::OpenLine;
use crate::stage::Stage;
use crate::taking::take_line;
use kasa_graph::Signature;
use kasa_num::NoMemory;
use kasa_tables::Tables;
use std::alloc::Global;

/// What has come of a text.
#[derive(Drop)]
pub(crate) struct Reading {
    pub(crate) stage: Stage,
    pub(crate) tables: Tables,
    /// The line that isn't ended, and its number.
    pub(crate) line: OpenLine,
    pub(crate) number: u32,
    pub(crate) alloc: Global,
}

impl Reading {
    pub(crate) fn new(alloc: Global, sig: &Signature) -> Result<Reading, NoMemory>
        ensures outcome { IfOk result (λ r. (bs : List ℕ) (o : Result (List Table) TabFault) →
            GoesOn sig.now r bs o → TablesOf sig.now bs o) }
        ensures number { IfOk result (λ r. r.number ≡ 1) }
    {
        Ok(Reading {
            stage: Stage::Start,
            tables: Tables::new(alloc, sig, Vec::new(alloc))?,
            line: OpenLine::new(),
            number: 1,
            alloc,
        })
    }

    /// LF has come.
    fn end_line(&mut self, sig: &Signature) -> Result<(), NoMemory>
        requires { self.old.number < 67108866 }
        ensures line { OnOk result (GivesMore sig.now self.old self.new (10 ∷ [])) }
        ensures number { self.new.number ≤ self.old.number + 1 }
    {
        let line = self.line.take(self.alloc)?;
        self.stage = take_line(sig, self.number, self.stage, &mut self.tables, line)?;
        self.number += 1;
        Ok(())
    }

    /// Takes a byte.
    fn push(&mut self, sig: &Signature, b: u8) -> Result<(), NoMemory>
        requires { self.old.number < 67108866 }
        ensures line { OnOk result (GivesMore sig.now self.old self.new (b ∷ [])) }
        ensures number { self.new.number ≤ self.old.number + 1 }
    {
        if let Stage::Failed(_) = self.stage {
            return Ok(());
        }
        if b == b'\n' {
            self.end_line(sig)?;
        } else {
            self.line.push(b);
        }
        Ok(())
    }

    /// Takes the next part of the text.
    pub(crate) fn feed(&mut self, sig: &Signature, part: &[u8]) -> Result<(), NoMemory>
        requires { self.old.number + length part.now < 67108866 }
        ensures line { OnOk result (GivesMore sig.now self.old self.new part.now) }
        ensures number { self.new.number ≤ self.old.number + length part.now }
    {
        for b in part {
            self.push(sig, *b)?;
        }
        Ok(())
    }

    /// The text has ended.
    pub(crate) fn finish(self) -> Result<Tables, TabFault>
        ensures { result ≡ at_end self.number self.stage self.tables self.line.is_blank }
    {
        match self.stage {
            Stage::Start | Stage::Body(_) => Err(TabFault::NoEnd),
            Stage::Ended if self.line.is_blank => Ok(self.tables),
            Stage::Ended => Err(TabFault::BadLine(self.number)),
            Stage::Failed(fault) => Err(fault),
        }
    }
}
