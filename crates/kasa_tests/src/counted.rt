// Calls with a counter of steps that nobody reads.
ghost use Rattle.std.specs.Prelude.{◌≡◌, ◌≤◌, Some, length, slice_get, IfOk};
ghost use Rattle.kasa_graph.specs.Lists.{Has, AllDifferent};
ghost use Rattle.kasa_families.specs.declared.family.Family.{Family};
ghost use Rattle.kasa_families.specs.Family.{IsFamily};
ghost use Rattle.kasa_families.specs.Table.{AreTables, families_of};
ghost use Rattle.kasa_columns.specs.Forward.{HasColumns};
ghost use Rattle.kasa_rules.specs.Rule.{IsRuleOver};
ghost use Rattle.kasa_views.specs.View.{IsView};

use kasa_families::{Family, Row};
use kasa_fixpoint::solve;
use kasa_graph::Signature;
use kasa_num::{FamilyNo, NoMemory, Steps};
use kasa_rules::{Model, Rule};
use kasa_tables::Tables;
use kasa_worklist::SolveFault;
use std::alloc::Global;
use std::marker::Brand;
use std::sync::ledger::{Blank, Ledger};

pub(crate) fn results(
    alloc: Global,
    sig: &Signature,
    tables: &Tables,
    rule: &Rule,
    f: FamilyNo,
    most: usize,
) -> Result<Vec<Row>, NoMemory>
    requires tables { AreTables sig.now tables.now }
    requires over { IsRuleOver sig.now rule.now }
    requires view { (family : Family) × (slice_get (families_of tables.now) f ≡ Some family) × IsView family }
    requires most { most ≤ 200000 }
{
    counted_results::<Brand>(Blank::new(1), alloc, sig, tables, rule, f, most)
}

fn counted_results<L: Ledger>(
    blank: Blank,
    alloc: Global,
    sig: &Signature,
    tables: &Tables,
    rule: &Rule,
    f: FamilyNo,
    most: usize,
) -> Result<Vec<Row>, NoMemory>
    requires name { blank.name ≡ L.name }
    requires parts { blank.parts ≡ L.parts }
    requires some { L.parts ≡ 1 }
    requires tables { AreTables sig.now tables.now }
    requires over { IsRuleOver sig.now rule.now }
    requires view { (family : Family) × (slice_get (families_of tables.now) f ≡ Some family) × IsView family }
    requires most { most ≤ 200000 }
{
    let mut steps = Steps::<L>::new(blank);
    kasa_views::results(alloc, sig, tables, rule, f, most, &mut steps)
}

pub(crate) fn new_results(
    alloc: Global,
    sig: &Signature,
    tables: &Tables,
    rule: &Rule,
    f: FamilyNo,
    most: usize,
) -> Result<Vec<Row>, NoMemory>
    requires tables { AreTables sig.now tables.now }
    requires over { IsRuleOver sig.now rule.now }
    requires view { (family : Family) × (slice_get (families_of tables.now) f ≡ Some family) × IsView family }
    requires most { most ≤ 200000 }
{
    counted_new_results::<Brand>(Blank::new(1), alloc, sig, tables, rule, f, most)
}

fn counted_new_results<L: Ledger>(
    blank: Blank,
    alloc: Global,
    sig: &Signature,
    tables: &Tables,
    rule: &Rule,
    f: FamilyNo,
    most: usize,
) -> Result<Vec<Row>, NoMemory>
    requires name { blank.name ≡ L.name }
    requires parts { blank.parts ≡ L.parts }
    requires some { L.parts ≡ 1 }
    requires tables { AreTables sig.now tables.now }
    requires over { IsRuleOver sig.now rule.now }
    requires view { (family : Family) × (slice_get (families_of tables.now) f ≡ Some family) × IsView family }
    requires most { most ≤ 200000 }
{
    let mut steps = Steps::<L>::new(blank);
    kasa_views::new_results(alloc, sig, tables, rule, f, most, &mut steps)
}

pub(crate) fn least_tables(
    alloc: Global,
    model: &Model,
    families: Vec<Family>,
) -> Result<Tables, SolveFault>
    requires valid { (family : Family) → Has families.items family → IsFamily model.now.sig family }
    requires different { AllDifferent families.items }
    requires few { length families.items ≤ 8000 }
    requires columns { (family : Family) → Has families.items family → HasColumns family }
    ensures { IfOk result (λ tables. AreTables model.now.sig tables) }
{
    counted_least_tables::<Brand>(Blank::new(1), alloc, model, families)
}

fn counted_least_tables<L: Ledger>(
    blank: Blank,
    alloc: Global,
    model: &Model,
    families: Vec<Family>,
) -> Result<Tables, SolveFault>
    requires name { blank.name ≡ L.name }
    requires parts { blank.parts ≡ L.parts }
    requires some { L.parts ≡ 1 }
    requires valid { (family : Family) → Has families.items family → IsFamily model.now.sig family }
    requires different { AllDifferent families.items }
    requires few { length families.items ≤ 8000 }
    requires columns { (family : Family) → Has families.items family → HasColumns family }
    ensures { IfOk result (λ tables. AreTables model.now.sig tables) }
{
    let mut steps = Steps::<L>::new(blank);
    solve(alloc, model, families, &mut steps)
}
