// The least closed tables above some tables, by a worklist.
ghost use Rattle.std.specs.Prelude.{◌≡◌, ◌≤◌, ◌<◌, ◌+◌, Err, true, false, [], IfOk};
ghost use Rattle.kasa_worklist.specs.declared.fault.SolveFault.TheVariants.{TooManyRows as too_many_rows};
ghost use Rattle.kasa_worklist.specs.Counts.{read_count};
ghost use Rattle.kasa_worklist.specs.System.{AreLawful, AreWithinLimit, AreLeastAbove, IsLimitPassed};
ghost use Rattle.kasa_worklist.specs.Turn.{IsTurn, Applies};

use crate::agenda::Agenda;
use crate::fault::SolveFault;
use crate::system::System;
use kasa_num::Steps;
use std::alloc::Global;
use std::sync::ledger::Ledger;

/// Puts into tables what they lack to be closed: they become the least closed tables that have their rows. `TooManyRows`
/// comes exactly where no closed tables with these rows have as few rows as there may be. A step is a call of `apply`:
/// each pair takes one at least, and no more are taken than there are pairs and, for each row in the end, pairs that read
/// the row's family.
pub fn close<S: System, L: Ledger>(
    alloc: Global,
    system: &S,
    tables: &mut S::Tables,
    steps: &mut Steps<L>,
) -> Result<(), SolveFault>
    requires lawful { AreLawful (S.relations system.now) }
    requires room { AreWithinLimit (S.relations system.now) tables.old }
    ensures least { IfOk result (λ _. AreLeastAbove (S.relations system.now) tables.old tables.new) }
    ensures few { IfOk result (λ _. ¬ IsLimitPassed (S.relations system.now) tables.old) }
    ensures too_many { result ≡ Err too_many_rows → IsLimitPassed (S.relations system.now) tables.old }
    ensures at_least { IfOk result (λ _. steps.old + (S.relations system.now).pairs ≤ steps.new) }
    ensures at_most { IfOk result (λ _. steps.new ≤ steps.old + (S.relations system.now).pairs
        + read_count (S.relations system.now) tables.new) }
{
    let mut agenda = Agenda::full(alloc, system.pairs())?;
    while turn(alloc, system, tables, &mut agenda, steps)? {}
    Ok(())
}

// Takes a pair from the list, puts in what it yields, and puts those back that read what is new. Whether there was one.
fn turn<S: System, L: Ledger>(
    alloc: Global,
    system: &S,
    tables: &mut S::Tables,
    agenda: &mut Agenda,
    steps: &mut Steps<L>,
) -> Result<bool, SolveFault>
    requires lawful { AreLawful (S.relations system.now) }
    requires room { AreWithinLimit (S.relations system.now) tables.old }
    requires agenda { agenda.old.size ≡ (S.relations system.now).pairs }
    ensures agenda { IfOk result (λ _. agenda.new.size ≡ (S.relations system.now).pairs) }
    ensures turn { IfOk result (λ more. more ≡ true →
        IsTurn (S.relations system.now) agenda.old.numbers agenda.new.numbers
        tables.old tables.new) }
    ensures step { IfOk result (λ more. more ≡ true → steps.new ≡ steps.old + 1) }
    ensures done { IfOk result (λ more. more ≡ false → agenda.old.numbers ≡ []) }
    ensures tables { IfOk result (λ more. more ≡ false → tables.new ≡ tables.old) }
    ensures agenda_stays { IfOk result (λ more. more ≡ false → agenda.new ≡ agenda.old) }
    ensures steps { IfOk result (λ more. more ≡ false → steps.new ≡ steps.old) }
    ensures too_many { result ≡ Err too_many_rows → IsLimitPassed (S.relations system.now) tables.old }
{
    let Some(pair) = agenda.take() else {
        return Ok(false);
    };
    if apply(alloc, system, tables, pair, steps)? {
        agenda.put_all(system.readers(pair))?;
    }
    Ok(true)
}

// Puts in what a pair yields. Whether a row is new.
fn apply<S: System, L: Ledger>(
    alloc: Global,
    system: &S,
    tables: &mut S::Tables,
    pair: u32,
    steps: &mut Steps<L>,
) -> Result<bool, SolveFault>
    requires pair { pair < (S.relations system.now).pairs }
    requires room { AreWithinLimit (S.relations system.now) tables.old }
    ensures step { steps.new ≡ steps.old + 1 }
    ensures applies { IfOk result (λ grew.
        Applies (S.relations system.now) pair tables.old tables.new grew) }
    ensures too_many { result ≡ Err too_many_rows → IsLimitPassed (S.relations system.now) tables.old }
{
    system.apply(alloc, tables, pair, steps)
}
