// Rows that occur in the inits.
ghost use Rattle.std.specs.Prelude.{◌≡◌, List, Option, Some, slice_get, Err, IfOk};
ghost use Rattle.kasa_graph.specs.declared.mixture.Agent.{Agent};
ghost use Rattle.kasa_lists.specs.Lists.{Has};
ghost use Rattle.kasa_families.specs.declared.family.Family.{Family};
ghost use Rattle.kasa_families.specs.Table.{families_of};
ghost use Rattle.kasa_pre.specs.Closed.{Cover};
ghost use Rattle.kasa_worklist.specs.declared.fault.SolveFault.TheVariants.{TooManyRows as too_many_rows};
ghost use Rattle.kasa_fixpoint.specs.Limit.{PassesLimit};
ghost use Rattle.kasa_fixpoint.specs.Steps.{IsUnderWay, IsStep, HoldsOccurring};

use crate::inserting::insert_all;
use crate::kinds::initial;
use kasa_families::Rows;
use kasa_graph::Mixture;
use kasa_num::FamilyNo;
use kasa_rules::Model;
use kasa_tables::Tables;
use kasa_worklist::SolveFault;
use std::alloc::Global;

// Inserts the rows that occur in an init.
pub(crate) fn insert_inits(
    alloc: Global,
    model: &Model,
    tables: &mut Tables,
) -> Result<(), SolveFault>
    requires under_way { IsUnderWay model.now tables.old }
    ensures step { IfOk result (λ _. IsStep model.now tables.old tables.new) }
    ensures initial { IfOk result (λ _. (m : List (Option Agent)) → Has model.now.inits m → Cover model.now.sig tables.new m) }
    ensures too_many { result ≡ Err too_many_rows → PassesLimit 200000 model.now (families_of tables.old) }
{
    for init in model.inits.as_slice() {
        insert_init(alloc, model, init, tables)?;
    }
    Ok(())
}

fn insert_init(
    alloc: Global,
    model: &Model,
    init: &Mixture,
    tables: &mut Tables,
) -> Result<(), SolveFault>
    requires under_way { IsUnderWay model.now tables.old }
    requires init { Has model.now.inits init.now }
    ensures step { IfOk result (λ _. IsStep model.now tables.old tables.new) }
    ensures initial { IfOk result (λ _. Cover model.now.sig tables.new init.now) }
    ensures too_many { result ≡ Err too_many_rows → PassesLimit 200000 model.now (families_of tables.old) }
{
    for f in 0..tables.families() {
        insert_initial(alloc, model, init, FamilyNo(f as u16), tables)?;
    }
    Ok(())
}

// Inserts the rows of one family.
fn insert_initial(
    alloc: Global,
    model: &Model,
    init: &Mixture,
    f: FamilyNo,
    tables: &mut Tables,
) -> Result<(), SolveFault>
    requires under_way { IsUnderWay model.now tables.old }
    requires init { Has model.now.inits init.now }
    ensures step { IfOk result (λ _. IsStep model.now tables.old tables.new) }
    ensures initial { IfOk result (λ _. (family : Family) →
        slice_get (families_of tables.old) f ≡ Some family →
        HoldsOccurring model.now.sig tables.new family init.now) }
    ensures too_many { result ≡ Err too_many_rows → PassesLimit 200000 model.now (families_of tables.old) }
{
    let Some(family) = tables.family(f) else {
        return Ok(());
    };
    let rows = initial(alloc, &model.sig, init, family)?;
    let _grew = insert_all(tables, f, rows)?;
    Ok(())
}
