//! Laws of families and their rows.

ghost use Rattle.std.specs.Prelude.{◌≡◌, ℕ, List, [], ◌∷◌, Option, IsTrue, ◌↔◌};
ghost use Rattle.std.specs.Ordering.{MatchOrdering};
ghost use Rattle.std.specs.List.Sorted.{IsSorted};
ghost use Rattle.kasa_graph.specs.declared.mixture.Agent.{Agent};
ghost use Rattle.kasa_graph.specs.Signature.{TypeEntry};
ghost use Rattle.kasa_graph.specs.Lists.{AllDifferent};
ghost use Rattle.kasa_graph.specs.Mixture.{IsMixtureOver};
ghost use Rattle.kasa_graph.specs.Embedding.{IsEmbedding};
ghost use Rattle.kasa_families.specs.declared.family.Family.{Family};
ghost use Rattle.kasa_families.specs.declared.row.Row.{Row};
ghost use Rattle.kasa_families.specs.Row.{IsRowBelow, AreAscending};
ghost use Rattle.kasa_families.specs.Family.{IsFamily, root};
ghost use Rattle.kasa_families.specs.Shape.{Shape, IsShape, root_of};
ghost use Rattle.kasa_families.specs.Orthogonal.{ShapeExtendsOnce, ExtendsOnce};
ghost use Rattle.kasa_graph.specs.declared.pattern.Node.{Node};
ghost use Rattle.kasa_graph.specs.Pattern.{blank_node, with_bond};
ghost use Rattle.kasa_families.specs.declared.family.Family.TheVariants.{View, Across, Chain};
ghost use Rattle.kasa_families.specs.declared.row.Local.{Local};
ghost use Rattle.kasa_families.specs.declared.row.Row.TheVariants.{Locals};
ghost use Rattle.kasa_families.specs.Local.{IsLocal, with_local};
ghost use Rattle.kasa_families.specs.Kinds.{with_locals, AreLocals, LocalsAgree};
ghost use Rattle.kasa_families.specs.Row.{IsRow};
ghost use Rattle.kasa_families.specs.Pattern.{row_pattern};
ghost use Rattle.kasa_families.specs.Compatible.{IsCompatible};

use crate::{Family, Row, Sites};

/// Each embedding of a root extends to one of just one valid row's pattern, in just one way.
pub fn root_extends_once()
    ensures { (sig : List TypeEntry) (family : Family) (m : List (Option Agent)) (cells : List ℕ) →
        IsFamily sig family → IsMixtureOver sig m → IsEmbedding (root sig family) m cells →
        ExtendsOnce sig family m cells }
{}

/// The same of any valid shape: a root of nodes with bonds, and the sites of which rows give the local states.
pub fn shape_root_extends_once()
    ensures { (sig : List TypeEntry) (shape : Shape) (m : List (Option Agent)) (cells : List ℕ) →
        IsShape sig shape → IsMixtureOver sig m → IsEmbedding (root_of sig shape) m cells →
        ShapeExtendsOnce sig shape m cells }
{}

/// What roots, the patterns of rows and valid rows are for each kind of family with columns.
pub fn kinds_read()
    ensures view_root { (sig : List TypeEntry) (a : ℕ) (sites : List ℕ) →
        root sig (View a sites) ≡ blank_node sig a ∷ [] }
    ensures view_row { (sig : List TypeEntry) (a : ℕ) (sites : List ℕ) (locals : List Local) →
        row_pattern sig (View a sites) (Locals locals) ≡ with_locals (blank_node sig a ∷ []) 0 sites locals }
    ensures view_valid { (sig : List TypeEntry) (a : ℕ) (sites : List ℕ) (locals : List Local) →
        IsRow sig (View a sites) (Locals locals) ↔ AreLocals sig a sites locals }
    ensures view_agrees { (g : List Node) (a n : ℕ) (sites : List ℕ) (locals : List Local) →
        IsCompatible g (View a sites) (n ∷ []) (Locals locals) ↔ LocalsAgree g n sites locals }
    ensures across_root { (sig : List TypeEntry) (a x p b y q : ℕ) →
        root sig (Across a x p b y q) ≡ with_bond (blank_node sig a ∷ blank_node sig b ∷ []) 0 x 1 y }
    ensures across_row { (sig : List TypeEntry) (a x p b y q : ℕ) (l k : Local) →
        row_pattern sig (Across a x p b y q) (Locals (l ∷ k ∷ [])) ≡ with_local (with_local (with_bond (blank_node sig a ∷ blank_node sig b ∷ []) 0 x 1 y) 0 p l) 1 q k }
    ensures across_valid { (sig : List TypeEntry) (a x p b y q : ℕ) (l k : Local) →
        IsRow sig (Across a x p b y q) (Locals (l ∷ k ∷ [])) ↔ (IsLocal sig a p l × IsLocal sig b q k) }
    ensures chain_root { (sig : List TypeEntry) (a x p b y z c w q : ℕ) →
        root sig (Chain a x p b y z c w q) ≡ with_bond (with_bond (blank_node sig a ∷ blank_node sig b ∷ blank_node sig c ∷ []) 0 x 1 y) 1 z 2 w }
    ensures chain_row { (sig : List TypeEntry) (a x p b y z c w q : ℕ) (l k : Local) →
        row_pattern sig (Chain a x p b y z c w q) (Locals (l ∷ k ∷ [])) ≡ with_local (with_local (with_bond (with_bond (blank_node sig a ∷ blank_node sig b ∷ blank_node sig c ∷ []) 0 x 1 y) 1 z 2 w) 0 p l) 2 q k }
    ensures chain_valid { (sig : List TypeEntry) (a x p b y z c w q : ℕ) (l k : Local) →
        IsRow sig (Chain a x p b y z c w q) (Locals (l ∷ k ∷ [])) ↔ (IsLocal sig a p l × IsLocal sig c q k) }
{}

/// Rows are in a strict total order, which the comparison of rows answers by, so that a sorted list of different rows
/// ascends.
pub fn rows_are_ordered()
    ensures compares { (row other : Row) →
        MatchOrdering (⟦<Row as Ord>⟧.cmp row other) (IsRowBelow row other) (row ≡ other) (IsRowBelow other row) }
    ensures transitive { (first second third : Row) → IsRowBelow first second →
        IsRowBelow second third → IsRowBelow first third }
    ensures strict { (row : Row) → ¬ IsRowBelow row row }
    ensures sorted { (rows : List Row) → IsSorted ⟦<Row as Ord>⟧.cmp rows → AllDifferent rows →
        AreAscending rows }
{}

/// `==` at sites, families and rows is equality.
pub fn equal_is_the_same()
    ensures sites { (sites others : List ℕ) →
        IsTrue (⟦<Sites as PartialEq>⟧.eq sites others) ↔ (sites ≡ others) }
    ensures families { (family other : Family) →
        IsTrue (⟦<Family as PartialEq>⟧.eq family other) ↔ (family ≡ other) }
    ensures rows { (row other : Row) → IsTrue (⟦<Row as PartialEq>⟧.eq row other) ↔ (row ≡ other) }
{}
