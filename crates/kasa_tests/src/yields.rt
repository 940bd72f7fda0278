//! Rows of the view of a beam that rules yield, from least tables and from tables without rows. The helpers test what the calls require.
ghost use Rattle.std.specs.Prelude.{◌≡◌, ◌≤◌, length, Some, slice_get, IsTrue, IfOk};
ghost use Rattle.kasa_graph.specs.Lists.{Has, AllDifferent};
ghost use Rattle.kasa_families.specs.declared.family.Family.{Family};
ghost use Rattle.kasa_families.specs.Family.{IsFamily};
ghost use Rattle.kasa_families.specs.Table.{AreTables, families_of};
ghost use Rattle.kasa_columns.specs.Forward.{HasColumns};
ghost use Rattle.kasa_views.specs.View.{IsView};

use crate::counted::{least_tables, new_results, results};
use crate::worked::{model, rule_at};
use kasa_families::{Family, Local, LocalLink, Locals, Row, Rows, Sites, is_family};
use kasa_graph::Signature;
use kasa_num::{AgentType, FamilyNo, SiteNo};
use kasa_rules::Model;
use kasa_tables::Tables;
use kasa_views::missing;
use std::alloc::Global;
use std::process::Abort;
use std::test::Fail;

// A beam carries two carts, which a rule drops. The other rule makes a beam with one cart, and one without.
const MODEL: &[u8] = b"%agent: Beam(l, r)
%agent: Cart(hook)
%init: 1 Beam(l[1], r[2]), Cart(hook[1]), Cart(hook[2])
'drop' Cart(), Cart() -> ., .
'make' ., ., . -> Beam(l[1], r[.]), Cart(hook[1]), Beam(l[.], r[.])
";

const BEAM: AgentType = AgentType(0);

const CART: AgentType = AgentType(1);

const HOOK: SiteNo = SiteNo(0);

const BEAMS: FamilyNo = FamilyNo(0);

const DROP: usize = 0;

const MAKE: usize = 1;

// ---- its tables

// The view of both sites of a beam.
fn beams(rt: &impl Abort, alloc: Global, sig: &Signature) -> Result<Vec<Family>, Fail>
    ensures valid { IfOk result (λ families. (family : Family) → Has families.items family → IsFamily sig.now family) }
    ensures different { IfOk result (λ families. AllDifferent families.items) }
    ensures few { IfOk result (λ families. length families.items ≤ 8000) }
    ensures columns { IfOk result (λ families. (family : Family) → Has families.items family → HasColumns family) }
{
    let sites = Vec::from_slice(alloc, &[SiteNo(0), SiteNo(1)])?;
    let beams = Family::View {
        agent: BEAM,
        sites: Sites::new(sites),
    };
    assert!(rt; is_family(sig, &beams));
    let mut families = Vec::new(alloc);
    families.push(beams)?;
    Ok(families)
}

fn least(rt: &impl Abort, alloc: Global, model: &Model) -> Result<Tables, Fail>
    ensures { IfOk result (λ tables. AreTables model.now.sig tables) }
{
    Ok(least_tables(alloc, model, beams(rt, alloc, &model.sig)?)?)
}

fn empty(rt: &impl Abort, alloc: Global, model: &Model) -> Result<Tables, Fail>
    ensures { IfOk result (λ tables. AreTables model.now.sig tables) }
{
    let families = beams(rt, alloc, &model.sig)?;
    Ok(Tables::new(alloc, &model.sig, families)?)
}

fn has_view(tables: &Tables) -> bool
    ensures { IsTrue result → (family : Family) × (slice_get (families_of tables.now) 0 ≡ Some family) × IsView family }
{
    match tables.family(BEAMS) {
        None => false,
        Some(family) => is_view(family),
    }
}

fn is_view(family: &Family) -> bool
    ensures { IsTrue result → IsView family.now }
{
    matches!(family, Family::View { .. })
}

// ---- the calls

fn yielded(
    rt: &impl Abort,
    alloc: Global,
    model: &Model,
    tables: &Tables,
    rule: usize,
    most: usize,
) -> Result<Vec<Row>, Fail>
    requires { AreTables model.now.sig tables.now }
{
    assert!(rt; has_view(tables) && most <= 200_000);
    match rule_at(model, rule) {
        None => Err(Fail::new("no rule")),
        Some(rule) => Ok(results(alloc, &model.sig, tables, rule, BEAMS, most)?),
    }
}

fn new_ones(
    rt: &impl Abort,
    alloc: Global,
    model: &Model,
    tables: &Tables,
    rule: usize,
) -> Result<Vec<Row>, Fail>
    requires { AreTables model.now.sig tables.now }
{
    assert!(rt; has_view(tables));
    match rule_at(model, rule) {
        None => Err(Fail::new("no rule")),
        Some(rule) => Ok(new_results(alloc, &model.sig, tables, rule, BEAMS, 10)?),
    }
}

fn first_missing(
    rt: &impl Abort,
    alloc: Global,
    model: &Model,
    tables: &Tables,
    rule: usize,
) -> Result<Option<Row>, Fail>
    requires { AreTables model.now.sig tables.now }
{
    assert!(rt; has_view(tables));
    match rule_at(model, rule) {
        None => Err(Fail::new("no rule")),
        Some(rule) => Ok(missing(alloc, &model.sig, tables, rule, BEAMS)?),
    }
}

// ---- rows

fn row(alloc: Global, l: LocalLink) -> Row {
    let (state, free) = (None, Local::default());
    Row::Locals(Locals::new(alloc, &[Local { state, link: l }, free]))
}

// ---- what is yielded

fn results_end_one_past_the_most(
    rt: &impl Abort,
    alloc: Global,
    model: &Model,
    tables: &Tables,
) -> Result<(), Fail>
    requires { AreTables model.now.sig tables.now }
{
    for (most, want) in [(0, 1), (1, 2), (2, 3), (3, 4), (4, 4), (5, 4)] {
        let rows = yielded(rt, alloc, model, tables, DROP, most)?;
        assert_eq!(rt; rows.len(), want, "at {most}");
    }
    Ok(())
}

// The rule leaves a beam without carts, so the least tables have its row.
fn nothing_is_new(
    rt: &impl Abort,
    alloc: Global,
    model: &Model,
    tables: &Tables,
) -> Result<(), Fail>
    requires { AreTables model.now.sig tables.now }
{
    assert!(rt; tables.has(BEAMS, &row(alloc, LocalLink::Free)));
    assert!(rt; new_ones(rt, alloc, model, tables, DROP)?.is_empty());
    assert!(rt; first_missing(rt, alloc, model, tables, DROP)?.is_none());
    Ok(())
}

#[test]
fn rows_are_yielded_from_least_tables_and_none_is_new(rt: HostRuntime) -> Result<(), Fail> {
    let alloc = rt.alloc();
    let model = model(&rt, alloc, MODEL)?;
    let tables = least(&rt, alloc, &model)?;
    results_end_one_past_the_most(&rt, alloc, &model, &tables)?;
    nothing_is_new(&rt, alloc, &model, &tables)
}

// A beam without carts, and one that has a cart at its first site.
fn are_created(rt: &impl Abort, alloc: Global, rows: &[Row]) {
    assert!(rt; rows.len() == 2);
    assert!(rt; rows.contains(&row(alloc, LocalLink::Free)));
    assert!(rt; rows.contains(&row(alloc, LocalLink::Partner(CART, HOOK))));
}

fn created_beams_are_new(
    rt: &impl Abort,
    alloc: Global,
    model: &Model,
    tables: &Tables,
) -> Result<(), Fail>
    requires { AreTables model.now.sig tables.now }
{
    let new = new_ones(rt, alloc, model, tables, MAKE)?;
    are_created(rt, alloc, &new);
    let first = first_missing(rt, alloc, model, tables, MAKE)?;
    assert!(rt; first == Some(row(alloc, LocalLink::Free)));
    Ok(())
}

#[test]
fn rows_of_created_beams_are_new(rt: HostRuntime) -> Result<(), Fail> {
    let alloc = rt.alloc();
    let model = model(&rt, alloc, MODEL)?;
    let tables = empty(&rt, alloc, &model)?;
    created_beams_are_new(&rt, alloc, &model, &tables)
}
