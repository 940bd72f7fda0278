// First numbers that a search through rows or families finds.
ghost use Rattle.std.specs.Prelude.{◌≡◌, Some, slice_get};
ghost use Rattle.kasa_families.specs.declared.row.Row.{Row};
ghost use Rattle.kasa_families.specs.Family.{family_types};
ghost use Rattle.kasa_families.specs.Spot.{place_of, StandsAt, HasNamedSites};
ghost use Rattle.kasa_families.specs.Compatible.{IsCompatible};
ghost use Rattle.kasa_families.specs.First.{IsLeastFrom};

use crate::compatible::{fits, place_at};
use crate::{Family, Row, Spot};
use kasa_graph::Pattern;
use kasa_num::AgentType;

/// The type of the first node of a family's root. It takes no memory.
pub fn first_type(family: &Family) -> AgentType
    ensures { slice_get (family_types family.now) 0 ≡ Some result }
{
    match family {
        Family::View { agent, .. } => *agent,
        Family::Across { a, .. } => *a,
        Family::Parallel { a, .. } => *a,
        Family::Chain { a, .. } => *a,
    }
}

/// The least number at or after `from` of a row in the list that is compatible with g where the family's root stands, None
/// exactly where there is none. It takes no memory.
pub fn first_among(
    family: &Family,
    rows: &[Row],
    g: &Pattern,
    spot: &Spot,
    from: usize,
) -> Option<usize>
    requires stands { StandsAt g.now family.now (place_of g.now family.now spot.now) }
    requires named { HasNamedSites g.now family.now }
    ensures { IsLeastFrom (λ k. (row : Row) × (slice_get rows.now k ≡ Some row) × IsCompatible g.now family.now (place_of g.now family.now spot.now) row) from result }
{
    let place = place_at(g, family, spot);
    let columns = family.read_columns();
    for k in from..rows.len() {
        if fits(g, family, &place, columns.as_slice(), &rows[k]) {
            return Some(k);
        }
    }
    None
}
