// A system of pairs that yield rows.
ghost use Rattle.std.specs.Prelude.{◌≡◌, ◌<◌, ◌+◌, Err, IfOk};
ghost use Rattle.kasa_worklist.specs.declared.fault.SolveFault.TheVariants.{TooManyRows as too_many_rows};
ghost use Rattle.kasa_worklist.specs.System.{Relations, AreReaders, AreWithinLimit, IsLimitPassed};
ghost use Rattle.kasa_worklist.specs.Turn.{Applies};

use crate::fault::SolveFault;
use kasa_num::Steps;
use std::alloc::Global;
use std::sync::ledger::Ledger;

/// Pairs of a rule and a family, each of which yields rows of its family from tables. Pairs and families have numbers
/// from 0. What the tables hold beside rows, as how far a pair has come, is the system's own.
pub trait System {
    type Tables;

    type Row;

    /// What pairs yield, and what that depends on.
    ghost relations: { Self → Relations Self.Tables Self.Row };

    /// How many pairs there are.
    fn pairs(&self) -> u32
        ensures { result ≡ (relations self.now).pairs };

    /// The pairs that read the family of a pair, each once.
    fn readers(&self, pair: u32) -> &[u32]
        requires { pair < (relations self.now).pairs }
        ensures { AreReaders (relations self.now) ((relations self.now).family pair) result.now };

    /// Puts in what a pair yields from the tables, and says whether a row is new. It adds one step, whatever it answers.
    fn apply<L: Ledger>(
        &self,
        alloc: Global,
        tables: &mut Self::Tables,
        pair: u32,
        steps: &mut Steps<L>,
    ) -> Result<bool, SolveFault>
        requires pair { pair < (relations self.now).pairs }
        requires room { AreWithinLimit (relations self.now) tables.old }
        ensures step { steps.new ≡ steps.old + 1 }
        ensures applies { IfOk result (λ grew.
            Applies (relations self.now) pair tables.old tables.new grew) }
        ensures too_many { result ≡ Err too_many_rows →
            IsLimitPassed (relations self.now) tables.old };
}
