// The most general pattern that can have stood before a rule fired.
ghost use Rattle.std.specs.Prelude.{◌≡◌, ◌↔◌, ℕ, ◌+◌, ◌≤◌, List, Option, Some, MatchOption, length, slice_get, IfOk};
ghost use Rattle.kasa_graph.specs.declared.mixture.Agent.{Agent};
ghost use Rattle.kasa_graph.specs.declared.pattern.Node.{Node};
ghost use Rattle.kasa_graph.specs.Pattern.{IsPatternOver};
ghost use Rattle.kasa_graph.specs.Mixture.{IsMixtureOver};
ghost use Rattle.kasa_graph.specs.Embedding.{IsEmbedding};
ghost use Rattle.kasa_rules.specs.Rule.{IsRuleOver};
ghost use Rattle.kasa_rules.specs.Firing.{fire};
ghost use Rattle.kasa_families.specs.Table.{Table};
ghost use Rattle.kasa_pre.specs.Allowed.{IsAllowed};
ghost use Rattle.kasa_pre.specs.Before.{AreFreed, IsBefore, IsMostGeneralBefore, outside_types};
ghost use Rattle.kasa_pre.specs.LiesOn.{AllLieOn, AreJustFreed, cells_before};
ghost use Rattle.kasa_pre.specs.Asked.{StandsExist};

use crate::narrow::{Asked, narrow_all};
use crate::stands::{add_outside, are_stands};
use crate::{FreedBy, Stand};
use kasa_graph::{Pattern, Signature};
use kasa_num::NoMemory;
use kasa_rules::Rule;
use std::alloc::Global;

/// The most general pattern that can have stood before a rule fired, where v stands afterwards, its nodes with the
/// stands, and the side effect made just the listed tests of v true. None exactly where no pattern can have stood.
///
/// Its nodes are the left nodes, and then one for each stand outside, in order. A free test of v that the rule doesn't
/// write and that isn't listed is one of it. Where v lies after a firing on cells of these stands, and the list names
/// just the tests that the firing's side effect made true, the pattern stood on the cells of the firing, followed by
/// those of the nodes outside. Tables allow some pattern that can have stood before exactly where they allow this one; so
/// a rule yields a row exactly where they do for some stands and some list.
pub fn pre(
    alloc: Global,
    sig: &Signature,
    rule: &Rule,
    v: &Pattern,
    spots: &[Stand],
    freed: &[FreedBy],
) -> Result<Option<Pattern>, NoMemory>
    requires rule { IsRuleOver sig.now rule.now }
    requires over { IsPatternOver sig.now v.now }
    requires count { length spots.now ≡ length v.now }
    requires exist { StandsExist rule.now spots.now }
    requires freed { AreFreed rule.now v.now spots.now freed.now }
    requires few { length rule.now.left + length (outside_types v.now spots.now) ≤ 1000 }
    ensures most_general { IfOk result (λ answer. MatchOption answer ((g : List Node) → ¬ IsBefore sig.now rule.now v.now spots.now freed.now g) (λ g. IsMostGeneralBefore sig.now rule.now v.now spots.now freed.now g)) }
    ensures allowed { IfOk result (λ answer. (tables : List Table) → ((h : List Node) × IsBefore sig.now rule.now v.now spots.now freed.now h × IsAllowed sig.now tables h) ↔ ((g : List Node) × (answer ≡ Some g) × IsAllowed sig.now tables g)) }
    ensures stood { IfOk result (λ answer. (cells : List ℕ) (m : List (Option Agent)) (after : List ℕ) → IsMixtureOver sig.now m → IsEmbedding rule.now.left m cells → IsEmbedding v.now (fire rule.now cells m) after → AllLieOn cells (length m) spots.now after → AreJustFreed rule.now cells m v.now after freed.now → (g : List Node) × (answer ≡ Some g) × IsEmbedding g m (cells_before cells spots.now after)) }
{
    if !are_stands(rule, v, spots) {
        return Ok(None);
    }
    let mut g = rule.left().copy_in(alloc)?;
    let places = add_outside(alloc, sig, v, spots, &mut g)?;
    let asked = Asked {
        sig,
        rule,
        v,
        stands: spots,
        freed,
        places: places.as_slice(),
    };
    if narrow_all(&asked, &mut g) {
        Ok(Some(g))
    } else {
        Ok(None)
    }
}
