// The section `dead rules`.
ghost use Rattle.std.specs.Prelude.{◌≡◌, ◌++◌, ◌+◌, ◌<◌, ℕ, List, OnOk, codes, length};
ghost use Rattle.kasa_graph.specs.Lists.{Has};
ghost use Rattle.kasa_rules.specs.Rule.{RuleParts, IsRuleOver};
ghost use Rattle.kasa_families.specs.Table.{AreTables};
ghost use Rattle.kasa_report.specs.Section.{line, all_lines, section};
ghost use Rattle.kasa_report.specs.DeadText.{rule_text, quoted};
ghost use Rattle.kasa_report.specs.inner.Written.{AddsDead};

use crate::write::{write_line, write_none, write_number};
use kasa_families::Rows;
use kasa_graph::Signature;
use kasa_num::NoMemory;
use kasa_pre::is_dead;
use kasa_rules::Rule;

/// Appends the section: the rules that tables show dead, by their numbers from 1.
pub(crate) fn write_dead<R: Rows>(
    sig: &Signature,
    rows: &R,
    rules: &[Rule],
    out: &mut Vec<u8>,
) -> Result<(), NoMemory>
    requires tables { AreTables sig.now (R.tables rows.now) }
    requires over { (r : RuleParts) → Has rules.now r → IsRuleOver sig.now r }
    ensures { OnOk result (AddsDead sig.now (R.tables rows.now) rules.now (section (codes "dead rules")) out.old.items out.new.items) }
{
    write_line(b"dead rules", out)?;
    let before = out.len();
    write_rules(sig, rows, rules, out)?;
    write_none(before, out)
}

fn write_rules<R: Rows>(
    sig: &Signature,
    rows: &R,
    rules: &[Rule],
    out: &mut Vec<u8>,
) -> Result<(), NoMemory>
    requires tables { AreTables sig.now (R.tables rows.now) }
    requires over { (r : RuleParts) → Has rules.now r → IsRuleOver sig.now r }
    ensures { OnOk result (AddsDead sig.now (R.tables rows.now) rules.now all_lines out.old.items out.new.items) }
{
    for k in 0..rules.len() {
        let rule = &rules[k];
        if is_dead(sig, rows, rule) {
            write_rule(k as u64 + 1, rule, out)?;
        }
    }
    Ok(())
}

// A rule's number, and its name in quotes.
fn write_rule(number: u64, rule: &Rule, out: &mut Vec<u8>) -> Result<(), NoMemory>
    ensures { OnOk result (out.new.items ≡ out.old.items ++ line (rule_text number rule.now)) }
{
    out.push(b' ')?;
    write_number(number, out)?;
    write_quoted(rule.name(), out)?;
    out.push(b'\n')?;
    Ok(())
}

fn write_quoted(name: &[u8], out: &mut Vec<u8>) -> Result<(), NoMemory>
    ensures { OnOk result (out.new.items ≡ out.old.items ++ quoted name.now) }
{
    if name.is_empty() {
        return Ok(());
    }
    out.extend_from_slice(b" '")?;
    out.extend_from_slice(name)?;
    out.push(b'\'')?;
    Ok(())
}
