// The patterns of roots and of rows.
ghost use Rattle.std.specs.Prelude.{◌≡◌, ℕ, ◌<◌, ◌≤◌, List, [], ◌∷◌, Option, Some, length, map, IfOk, slice_get};
ghost use Rattle.std.specs.List.{AllByRecursion};
ghost use Rattle.kasa_graph.specs.declared.mixture.Agent.{Agent};
ghost use Rattle.kasa_graph.specs.Signature.{TypeEntry};
ghost use Rattle.kasa_graph.specs.Pattern.{link_test, blank_node, with_bond, with_link, HasNodeSite, IsNoBond, IsPatternOver};
ghost use Rattle.kasa_graph.specs.declared.pattern.LinkTest.TheVariants.{Partner};
ghost use Rattle.kasa_graph.specs.Mixture.{IsMixtureOver};
ghost use Rattle.kasa_graph.specs.Embedding.{IsEmbedding};
ghost use Rattle.kasa_families.specs.declared.row.Local.{Local};
ghost use Rattle.kasa_families.specs.declared.family.Family.TheVariants.{Parallel};
ghost use Rattle.kasa_families.specs.Local.{local_state_test, local_link_test, with_local};
ghost use Rattle.kasa_families.specs.Shape.{IsShape, AreApart, ends, with_bonds, root_of, with_columns};
ghost use Rattle.kasa_families.specs.Family.{IsFamily, shape_of, different, root};
ghost use Rattle.kasa_families.specs.Join.{IsOpen, CanJoin};
ghost use Rattle.kasa_families.specs.Row.{IsRow};
ghost use Rattle.kasa_families.specs.Pattern.{row_pattern};
ghost use Rattle.kasa_families.specs.Orthogonal.{ExtendsOnce};

use crate::shape::bond_between;
use crate::{Bond, Family, Local, LocalLink, NodeSite, Row};
use kasa_graph::{LinkTest, Pattern, Signature, StateTest};
use kasa_num::{AgentType, NoMemory, NodeNo, SiteNo, StateNo};
use std::alloc::Global;

const FIRST: NodeNo = NodeNo(0);

/// The pattern that each row of the family refines: an agent, a bond, or an agent with two partners of one type.
///
/// The rows are orthogonal: in each mixture over the signature, each embedding of the root extends to an embedding of
/// just one valid row's pattern, in just one way, as in the orthogonal pattern sets of Feret and Lý.
pub fn root(alloc: Global, sig: &Signature, family: &Family) -> Result<Pattern, NoMemory>
    requires { IsFamily sig.now family.now }
    ensures pattern { IfOk result (λ g. g ≡ root sig.now family.now) }
    ensures over { IfOk result (λ g. IsPatternOver sig.now g) }
    ensures orthogonal { IfOk result (λ g. (m : List (Option Agent)) (cells : List ℕ) → IsMixtureOver sig.now m → IsEmbedding g m cells → ExtendsOnce sig.now family.now m cells) }
{
    rooted(alloc, sig, family)
}

/// The pattern of a row of the family: its root, refined by what the row says. The root's nodes come first.
pub fn pattern(
    alloc: Global,
    sig: &Signature,
    family: &Family,
    row: &Row,
) -> Result<Pattern, NoMemory>
    requires family { IsFamily sig.now family.now }
    requires row { IsRow sig.now family.now row.now }
    ensures pattern { IfOk result (λ g. g ≡ row_pattern sig.now family.now row.now) }
    ensures over { IfOk result (λ g. IsPatternOver sig.now g) }
{
    refined(alloc, sig, family, row)
}

// The root, of whatever kind the family is.
fn rooted(alloc: Global, sig: &Signature, family: &Family) -> Result<Pattern, NoMemory>
    requires { IsFamily sig.now family.now }
    ensures { IfOk result (λ g. g ≡ root sig.now family.now) }
{
    match family {
        Family::Parallel { a, x, u, b, y, w } => asked(alloc, sig, *a, *x, *u, *b, *y, *w),
        _ => shape_root(alloc, sig, family),
    }
}

// The pattern of a row, of whatever kind the family is.
fn refined(alloc: Global, sig: &Signature, family: &Family, row: &Row) -> Result<Pattern, NoMemory>
    requires family { IsFamily sig.now family.now }
    requires row { IsRow sig.now family.now row.now }
    ensures { IfOk result (λ g. g ≡ row_pattern sig.now family.now row.now) }
{
    match row {
        Row::Locals(locals) => {
            let mut g = shape_root(alloc, sig, family)?;
            let columns = family.read_columns();
            put_columns(&mut g, columns.as_slice(), locals.as_slice());
            Ok(g)
        }
        Row::Same => shape_root(alloc, sig, family),
        Row::Different => match family {
            Family::Parallel { a, x, u, b, y, w } => apart(alloc, sig, *a, *x, *u, *b, *y, *w),
            _ => Ok(Pattern::new(alloc)),
        },
    }
}

// The root of the family's shape.
fn shape_root(alloc: Global, sig: &Signature, family: &Family) -> Result<Pattern, NoMemory>
    requires { IsShape sig.now (shape_of family.now) }
    ensures { IfOk result (λ g. g ≡ root_of sig.now (shape_of family.now)) }
{
    let mut g = Pattern::new(alloc);
    for n in 0..family.nodes() {
        if let Some(agent) = family.node_type(n) {
            g.add_node(sig, agent)?;
        }
    }
    put_bonds(&mut g, family);
    Ok(g)
}

// The bonds of the family's shape.
fn put_bonds(g: &mut Pattern, family: &Family)
    requires apart { AreApart (ends (shape_of family.now).bonds) }
    requires unbound { AllByRecursion (IsOpen g.old) (ends (shape_of family.now).bonds) }
    ensures { g.new ≡ with_bonds g.old (shape_of family.now).bonds }
{
    for k in 0..family.bonds() {
        if let Some(bond) = family.bond(k) {
            put_bond(g, bond);
        }
    }
}

// A local state at each column.
fn put_columns(g: &mut Pattern, columns: &[NodeSite], locals: &[Local])
    requires apart { AreApart columns.now }
    requires unbound { AllByRecursion (IsOpen g.old) columns.now }
    requires many { length locals.now ≤ length columns.now }
    ensures { g.new ≡ with_columns g.old columns.now locals.now }
{
    for k in 0..locals.len() {
        put_local(g, columns[k], locals[k]);
    }
}

// A node that asks for two partners of one type: the root of a parallel family.
fn asked(
    alloc: Global,
    sig: &Signature,
    a: AgentType,
    x: SiteNo,
    u: SiteNo,
    b: AgentType,
    y: SiteNo,
    w: SiteNo,
) -> Result<Pattern, NoMemory>
    requires { IsFamily sig.now (Parallel a x u b y w) }
    ensures { IfOk result (λ g. g ≡ root sig.now (Parallel a x u b y w)) }
{
    let mut g = blank(alloc, sig, &[a])?;
    g.set_link(FIRST, x, LinkTest::Partner(b, y));
    g.set_link(FIRST, u, LinkTest::Partner(b, w));
    Ok(g)
}

// A node with bonds to two nodes of one type.
fn apart(
    alloc: Global,
    sig: &Signature,
    a: AgentType,
    x: SiteNo,
    u: SiteNo,
    b: AgentType,
    y: SiteNo,
    w: SiteNo,
) -> Result<Pattern, NoMemory>
    requires { IsShape sig.now (different a x u b y w) }
    ensures { IfOk result (λ g. g ≡ root_of sig.now (different a x u b y w)) }
{
    let mut g = blank(alloc, sig, &[a, b, b])?;
    put_bond(&mut g, bond_between(0, x, 1, y));
    put_bond(&mut g, bond_between(0, u, 2, w));
    Ok(g)
}

// Nodes of the types, without tests.
fn blank(alloc: Global, sig: &Signature, types: &[AgentType]) -> Result<Pattern, NoMemory>
    requires known { (k a : ℕ) → slice_get types.now k ≡ Some a → a < length sig.now }
    requires few { length types.now ≤ 1000 }
    ensures { IfOk result (λ g. g ≡ map (blank_node sig.now) types.now) }
{
    let mut g = Pattern::new(alloc);
    for agent in types {
        g.add_node(sig, *agent)?;
    }
    Ok(g)
}

// A bond.
fn put_bond(g: &mut Pattern, bond: Bond)
    requires { CanJoin g.old bond }
    ensures { g.new ≡ with_bond g.old bond.first.node bond.first.site bond.second.node bond.second.site }
{
    g.join(
        bond.first.node,
        bond.first.site,
        bond.second.node,
        bond.second.site,
    );
}

// The test that a state stands for.
pub(crate) fn state_test_of(state: Option<StateNo>) -> StateTest
    ensures { result ≡ local_state_test state }
{
    match state {
        None => StateTest::Any,
        Some(state) => StateTest::Is(state),
    }
}

// The test that a link stands for.
pub(crate) fn link_test_of(link: LocalLink) -> LinkTest
    ensures { result ≡ local_link_test link }
{
    match link {
        LocalLink::Free => LinkTest::Free,
        LocalLink::Partner(agent, site) => LinkTest::Partner(agent, site),
    }
}

// A local state at a site.
fn put_local(g: &mut Pattern, at: NodeSite, local: Local)
    requires { IsOpen g.old at }
    ensures { g.new ≡ with_local g.old at.node at.site local }
{
    g.set_state(at.node, at.site, state_test_of(local.state));
    g.set_link(at.node, at.site, link_test_of(local.link));
}
