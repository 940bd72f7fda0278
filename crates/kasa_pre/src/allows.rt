// Which patterns tables allow, and which rules are dead.
ghost use Rattle.std.specs.Prelude.{◌≡◌, ℕ, ◌<◌, ◌≤◌, List, Option, Some, length, slice_get, IsTrue, ◌↔◌};
ghost use Rattle.std.specs.Bool.{OnTrue, OnFalse};
ghost use Rattle.kasa_graph.specs.declared.mixture.Agent.{Agent};
ghost use Rattle.kasa_graph.specs.declared.pattern.Node.{Node};
ghost use Rattle.kasa_graph.specs.Pattern.{agent_at, Implies, IsPatternOver};
ghost use Rattle.kasa_graph.specs.Mixture.{IsMixtureOver};
ghost use Rattle.kasa_graph.specs.Embedding.{IsEmbedding};
ghost use Rattle.kasa_rules.specs.Rule.{IsRuleOver};
ghost use Rattle.kasa_families.specs.declared.family.Family.{Family};
ghost use Rattle.kasa_families.specs.Family.{family_types};
ghost use Rattle.kasa_families.specs.Spot.{place_of, StandsAt, HasNamedSites};
ghost use Rattle.kasa_families.specs.Table.{AreTables, families_of};
ghost use Rattle.kasa_families.specs.First.{IsLeastFrom, IsCompatibleRow, IsRooted};
ghost use Rattle.kasa_pre.specs.Allowed.{IsAllowed, IsDead};
ghost use Rattle.kasa_pre.specs.Closed.{Cover};
ghost use Rattle.kasa_pre.specs.Spots.{IsAllowedFrom, IsNumberAllowedFrom, AreAllowedFrom};

use crate::spots::spot_from;
use kasa_families::{Family, Rows, Spot};
use kasa_graph::{Pattern, Signature};
use kasa_num::{AgentType, FamilyNo, NodeNo};
use kasa_rules::Rule;

/// Whether tables allow a pattern: at each place of each family's root in it some row is compatible. Where they do, they
/// allow each more general pattern on the same nodes; where they don't, the pattern stands in no mixture whose rows they
/// all hold. It takes no memory.
pub fn allowed<R: Rows>(sig: &Signature, rows: &R, g: &Pattern) -> bool
    requires tables { AreTables sig.now (R.tables rows.now) }
    requires over { IsPatternOver sig.now g.now }
    ensures allowed { IsTrue result ↔ IsAllowed sig.now (R.tables rows.now) g.now }
    ensures general { OnTrue result ((h : List Node) → Implies g.now h → IsAllowed sig.now (R.tables rows.now) h) }
    ensures nowhere { OnFalse result ((m : List (Option Agent)) (cells : List ℕ) → IsMixtureOver sig.now m → Cover sig.now (R.tables rows.now) m → ¬ IsEmbedding g.now m cells) }
{
    for node in 0..g.nodes() {
        if !allowed_from(sig, rows, g, NodeNo(node as u16)) {
            return false;
        }
    }
    true
}

/// Whether a rule is dead: tables don't allow its left pattern. It takes no memory.
pub fn is_dead<R: Rows>(sig: &Signature, rows: &R, rule: &Rule) -> bool
    requires tables { AreTables sig.now (R.tables rows.now) }
    requires over { IsRuleOver sig.now rule.now }
    ensures dead { OnTrue result (IsDead sig.now (R.tables rows.now) rule.now) }
    ensures alive { OnFalse result (IsAllowed sig.now (R.tables rows.now) rule.now.left) }
{
    !allowed(sig, rows, rule.left())
}

// Whether some row is compatible at each place of a root that begins with the node.
fn allowed_from<R: Rows>(sig: &Signature, rows: &R, g: &Pattern, node: NodeNo) -> bool
    requires tables { AreTables sig.now (R.tables rows.now) }
    requires over { IsPatternOver sig.now g.now }
    requires exists { node < length g.now }
    ensures { IsTrue result ↔ AreAllowedFrom sig.now (R.tables rows.now) g.now node }
{
    let agent = g.agent(node);
    let mut from = 0usize;
    while let Some(f) = next_rooted(rows, agent, from) {
        if !has_row_from(sig, rows, g, f, node) {
            return false;
        }
        from = f.0 as usize + 1;
    }
    true
}

// The next family whose root begins with a type.
fn next_rooted<R: Rows>(rows: &R, agent: AgentType, from: usize) -> Option<FamilyNo>
    ensures { IsLeastFrom (IsRooted (R.tables rows.now) agent) from result }
{
    rows.next_rooted(agent, from)
}

// The same for the one place of a family's root that begins with the node, if there is one.
fn has_row_from<R: Rows>(sig: &Signature, rows: &R, g: &Pattern, f: FamilyNo, node: NodeNo) -> bool
    requires tables { AreTables sig.now (R.tables rows.now) }
    requires over { IsPatternOver sig.now g.now }
    requires rooted { (a : ℕ) × (agent_at g.now node ≡ Some a) × IsRooted (R.tables rows.now) a f }
    ensures { IsTrue result ↔ IsNumberAllowedFrom sig.now (R.tables rows.now) g.now node f }
{
    match rows.family(f) {
        None => true,
        Some(family) => match spot_from(sig, g, family, node) {
            None => true,
            Some(spot) => has_row_at(rows, f, g, spot),
        },
    }
}

// Whether some row of the family is compatible where its root stands.
fn has_row_at<R: Rows>(rows: &R, f: FamilyNo, g: &Pattern, spot: Spot) -> bool
    requires { (family : Family) × (slice_get (families_of (R.tables rows.now)) f ≡ Some family) × StandsAt g.now family (place_of g.now family spot) × HasNamedSites g.now family }
    ensures { IsTrue result ↔ ((k : ℕ) × IsCompatibleRow (R.tables rows.now) f g.now spot k) }
{
    rows.first_compatible(f, g, spot, 0).is_some()
}
