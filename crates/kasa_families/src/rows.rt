// Tables as the crates above see them, and what is said of them.
use crate::{Family, Row, Spot};
use kasa_graph::Pattern;
use kasa_num::{AgentType, FamilyNo, InitNo, RuleNo};

/// Where a row comes from: an init, or a rule.
#[derive(Clone, Copy, PartialEq, Eq, Debug)]
pub enum Origin {
    Init(InitNo),
    Rule(RuleNo),
}

/// A row of a family that an init or a rule gives, and tables don't have.
#[derive(Debug, Drop, PartialEq, Eq)]
pub struct Missing {
    pub origin: Origin,
    pub family: FamilyNo,
    pub row: Row,
}

/// Whether tables have all rows that the inits and the rules of a model give, or else one that they don't have.
#[derive(Debug, Drop, PartialEq, Eq)]
pub enum Verdict {
    Closed,
    Missing(Missing),
}

/// Tables: a list of at most 8,000 different families, each with a list of different rows of its shape, at most 200,000
/// rows in all. Families and rows have numbers from 0. No call takes memory.
pub trait Rows {
    ghost use Rattle.std.specs.Prelude.{◌≡◌, ℕ, List, length, Option, Some, slice_get, option_map, IsTrue, ◌↔◌};
    ghost use Rattle.std.specs.Option.{option_copied, option_map_or};
    ghost use Rattle.kasa_graph.specs.Lists.{Has};
    ghost use Rattle.kasa_families.specs.declared.family.Family.{Family};
    ghost use Rattle.kasa_families.specs.Spot.{place_of, StandsAt, HasNamedSites};
    ghost use Rattle.kasa_families.specs.Table.{Table, families_of, rows_of, AreShapedTables};
    ghost use Rattle.kasa_families.specs.First.{IsLeastFrom, IsCompatibleRow, IsRooted};

    /// The families with their rows.
    ghost tables: { Self → List Table };

    /// How many families there are.
    fn families(&self) -> usize
        ensures count { result ≡ length (tables self.now) }
        ensures shaped { AreShapedTables (tables self.now) };

    /// The family of a number, None exactly where there is none.
    fn family(&self, f: FamilyNo) -> Option<&Family>
        ensures { option_copied result ≡ slice_get (families_of (tables self.now)) f };

    /// How many rows a family has, 0 for an unknown family.
    fn rows(&self, f: FamilyNo) -> usize
        ensures { result ≡ length (rows_of (tables self.now) f) };

    /// The row of a number of a family, None exactly where there is none.
    fn row(&self, f: FamilyNo, k: usize) -> Option<&Row>
        ensures { option_copied result ≡ slice_get (rows_of (tables self.now) f) k };

    /// Whether the family has the row.
    fn has(&self, f: FamilyNo, row: &Row) -> bool
        ensures { IsTrue result ↔ Has (rows_of (tables self.now) f) row.now };

    /// The least number at or after `from` of a row of the family that is compatible with g where the family's root
    /// stands, None exactly where there is none.
    fn first_compatible(&self, f: FamilyNo, g: &Pattern, spot: Spot, from: usize) -> Option<usize>
        requires { (family : Family) × (slice_get (families_of (tables self.now)) f ≡ Some family) × StandsAt g.now family (place_of g.now family spot) × HasNamedSites g.now family }
        ensures { IsLeastFrom (IsCompatibleRow (tables self.now) f g.now spot) from result };

    /// The least number at or after `from` of a family whose root's first node has the type, None exactly where there is
    /// none.
    fn next_rooted(&self, agent: AgentType, from: usize) -> Option<FamilyNo>
        ensures { IsLeastFrom (IsRooted (tables self.now) agent) from result };
}
