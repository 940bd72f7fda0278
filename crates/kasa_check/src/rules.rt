// The first row that a rule yields from tables and that they lack.
ghost use Rattle.std.specs.Prelude.{◌≡◌, ◌↔◌, ◌+◌, ◌<◌, length, Some, slice_get, IsTrue, IfOk};
ghost use Rattle.kasa_families.specs.declared.rows.Origin.TheVariants.{Rule as from_rule};
ghost use Rattle.kasa_families.specs.Table.{AreTables};
ghost use Rattle.kasa_rules.specs.Rule.{IsRuleOver};
ghost use Rattle.kasa_rules.specs.Reached.{IsModel};
ghost use Rattle.kasa_pre.specs.Acts.{TouchesOpen, ActsOn};
ghost use Rattle.kasa_check.specs.Lacked.{rule_of};
ghost use Rattle.kasa_check.specs.Search.{IsFirstOf, IsFromRule, IsFrom, IsOf};

use crate::kinds::missing;
use kasa_families::{Family, Missing, Origin, Rows};
use kasa_num::{FamilyNo, NoMemory, RuleNo};
use kasa_pre::{acts_on_all, names_type_of};
use kasa_rules::{Model, Rule};
use std::alloc::Global;

// The first such row of the rules. It tells as well what the model's type keeps.
pub(crate) fn first_of_rules<R: Rows>(
    alloc: Global,
    model: &Model,
    rows: &R,
) -> Result<Option<Missing>, NoMemory>
    requires tables { AreTables model.now.sig (R.tables rows.now) }
    ensures valid { IsModel model.now }
    ensures first { IfOk result (IsFirstOf model.now (R.tables rows.now) IsFromRule) }
{
    let rules = model.rules.as_slice();
    for k in 0..rules.len() {
        let found = first_of_rule(alloc, model, rows, RuleNo(k as u16 + 1), &rules[k])?;
        if found.is_some() {
            return Ok(found);
        }
    }
    Ok(None)
}

// The first one of a rule. Families on which it doesn't act are passed by, since it yields nothing new of them.
fn first_of_rule<R: Rows>(
    alloc: Global,
    model: &Model,
    rows: &R,
    number: RuleNo,
    rule: &Rule,
) -> Result<Option<Missing>, NoMemory>
    requires tables { AreTables model.now.sig (R.tables rows.now) }
    requires ruled { rule_of model.now number ≡ Some rule.now }
    requires over { IsRuleOver model.now.sig rule.now }
    ensures { IfOk result (IsFirstOf model.now (R.tables rows.now) (IsFrom (from_rule number))) }
{
    let on_all = acts_on_all(rule);
    for f in 0..rows.families() {
        let found = first_yielded(alloc, model, rows, number, rule, on_all, FamilyNo(f as u16))?;
        if found.is_some() {
            return Ok(found);
        }
    }
    Ok(None)
}

// The first one of a family, where it is known whether the rule acts on all.
fn first_yielded<R: Rows>(
    alloc: Global,
    model: &Model,
    rows: &R,
    number: RuleNo,
    rule: &Rule,
    on_all: bool,
    f: FamilyNo,
) -> Result<Option<Missing>, NoMemory>
    requires tables { AreTables model.now.sig (R.tables rows.now) }
    requires ruled { rule_of model.now number ≡ Some rule.now }
    requires over { IsRuleOver model.now.sig rule.now }
    requires on_all { IsTrue on_all ↔ TouchesOpen rule.now }
    ensures { IfOk result (IsFirstOf model.now (R.tables rows.now) (IsOf (from_rule number) f)) }
{
    let Some(family) = rows.family(f) else {
        return Ok(None);
    };
    if !acts_on(rule, on_all, family) {
        return Ok(None);
    }
    match missing(alloc, &model.sig, rows, rule, f)? {
        None => Ok(None),
        Some(row) => Ok(Some(Missing {
            origin: Origin::Rule(number),
            family: f,
            row,
        })),
    }
}

// Whether a rule acts on a family, where it is known whether it acts on all.
fn acts_on(rule: &Rule, on_all: bool, family: &Family) -> bool
    requires { IsTrue on_all ↔ TouchesOpen rule.now }
    ensures { IsTrue result ↔ ActsOn rule.now family.now }
{
    on_all || names_type_of(rule, family)
}
