// The rule that two sides say.
ghost use Rattle.std.specs.Prelude.{◌≡◌, ℕ, ◌+◌, ◌<◌, ◌≤◌, List, [], length, map, take, Option, Some, is_none, IfOk, slice_get};
ghost use Rattle.kasa_graph.specs.declared.pattern.Node.{Node};
ghost use Rattle.kasa_graph.specs.Signature.{TypeEntry};
ghost use Rattle.kasa_graph.specs.PatternText.{stands_before};
ghost use Rattle.kasa_graph.specs.Pattern.{types_of, state_test, link_test, blank_node, HasNodeSite, IsPatternOver};
ghost use Rattle.kasa_compile.specs.declared.said.SiteSaid.{SiteSaid as Site};
ghost use Rattle.kasa_compile.specs.declared.said.AgentSaid.{AgentSaid as Said};
ghost use Rattle.kasa_rules.specs.Rule.{IsDraftOver, IsRuleOver};
ghost use Rattle.kasa_rules.specs.Draft.{HasEndSite, HasEndState};
ghost use Rattle.kasa_compile.specs.declared.said.LinkSaid.TheVariants as Link;
ghost use Rattle.kasa_compile.specs.Bonds.{said_at, joined_to};
ghost use Rattle.kasa_compile.specs.Building.{Says, with_state_asked, with_link_asked, IsAsking, IsAsked, IsFurther, MayAsk, IsLinked, MayFree, MayWrite, with_state_due, with_free, with_bond_due, with_link_due, end_before, has_state, state_to_put, link_to_put, CanWrite, IsLater, IsDone, AreAwaiting, IsFresh, IsBare};
ghost use Rattle.kasa_compile.specs.Causes.{half_bonds};
ghost use Rattle.kasa_compile.specs.BondIndex.{AreBondsOf};
ghost use Rattle.kasa_compile.specs.Rule.{link_asked, left_state_test, left_link_test, is_state, end_at, leads_to, link_to_write, link_to_make, type_on_right, rule_of};
ghost use Rattle.kasa_compile.specs.SidesView.{HasShortEnds};
ghost use Rattle.kasa_compile.specs.Valid.{AreSaid, AreJoined, AreSides};

use crate::bonds::Bonds;
use crate::said::{AgentSaid, LinkSaid, SiteSaid};
use crate::sides::{Origin, Sides};
use kasa_graph::{LinkTest, Pattern, Signature, StateTest};
use kasa_num::{AgentType, NoMemory, NodeNo, SiteNo, StateNo};
use kasa_rules::{End, Rule, RuleDraft, Written};
use std::alloc::Global;

// The nodes of these agents, without tests.
fn blank_pattern(alloc: Global, sig: &Signature, agents: &[AgentSaid]) -> Result<Pattern, NoMemory>
    requires said { AreSaid sig.now agents.now }
    requires few { length agents.now ≤ 12 }
    ensures { IfOk result (λ left. left ≡ map (blank_node sig.now) (map (λ a. a.agent) agents.now)) }
{
    let mut left = Pattern::new(alloc);
    for said in agents {
        left.add_node(sig, said.agent)?;
    }
    Ok(left)
}

// How many sites an agent names.
fn count_said(agents: &[AgentSaid], n: usize) -> usize
    requires { n < length agents.now }
    ensures all_said { (i : ℕ) → i < result → (s : Site) × Says agents.now n i s }
    ensures no_more { (i : ℕ) (s : Site) → Says agents.now n i s → i < result }
{
    let said = &agents[n];
    said.sites.items.len()
}

// A site that an agent names.
fn site_said(agents: &[AgentSaid], n: usize, i: usize) -> SiteSaid
    requires { (s : Site) × Says agents.now n i s }
    ensures { Says agents.now n i result }
{
    let said = &agents[n];
    said.sites.items[i]
}

// The link test that a site asks for.
fn asked(agents: &[AgentSaid], bonds: &Bonds, n: usize, said: &SiteSaid) -> LinkTest
    requires known { (sig : List TypeEntry) × AreSaid sig agents.now }
    requires joined { AreJoined agents.now }
    requires few { length agents.now ≤ 12 }
    requires indexed { AreBondsOf agents.now bonds.now }
    requires stands { (i : ℕ) × Says agents.now n i said.now }
    ensures { result ≡ link_asked agents.now (n, said.now.site) said.now.link }
{
    match said.link {
        None | Some(LinkSaid::Any) => LinkTest::Any,
        Some(LinkSaid::Free) => LinkTest::Free,
        Some(LinkSaid::Bound) => LinkTest::Bound,
        Some(LinkSaid::Partner(agent, site)) => LinkTest::Partner(agent, site),
        Some(LinkSaid::Label(number)) => {
            let (m, site) = bonds.joined_to(number, (n, said.site));
            LinkTest::To(NodeNo(m as u16), site)
        }
    }
}

// Puts a state test at a site, if one is given.
fn put_state(left: &mut Pattern, node: NodeNo, site: SiteNo, test: Option<StateTest>)
    requires { HasNodeSite left.old node site }
    ensures { left.new ≡ with_state_asked left.old node site test }
{
    if let Some(test) = test {
        left.set_state(node, site, test);
    }
}

// Puts a link test at a site. A bond is put there with the first of its sites, and stands when its second comes.
fn put_link(left: &mut Pattern, node: NodeNo, site: SiteNo, test: LinkTest)
    requires exists { HasNodeSite left.old node site }
    requires may { MayAsk left.old node site test }
    ensures { left.new ≡ with_link_asked left.old node site test }
{
    match test {
        LinkTest::To(other, at) => {
            if left.link(node, site) == LinkTest::Any {
                left.join(node, site, other, at);
            }
        }
        _ => left.set_link(node, site, test),
    }
}

// The tests of a site that an agent names.
fn ask_site(left: &mut Pattern, agents: &[AgentSaid], bonds: &Bonds, n: usize, i: usize)
    requires few { length agents.now ≤ 12 }
    requires joined { AreJoined agents.now }
    requires indexed { AreBondsOf agents.now bonds.now }
    requires known { (sig : List TypeEntry) × (AreSaid sig agents.now × IsAsking sig agents.now left.old) }
    requires stands { (s : Site) × Says agents.now n i s }
    ensures further { IsFurther agents.now left.old left.new }
    ensures asked { (s : Site) → Says agents.now n i s → IsAsked agents.now left.new n s.site }
{
    let said = site_said(agents, n, i);
    let node = NodeNo(n as u16);
    put_state(left, node, said.site, said.state);
    let test = asked(agents, bonds, n, &said);
    put_link(left, node, said.site, test);
}

// The tests of the sites that an agent names.
fn ask_sites(left: &mut Pattern, agents: &[AgentSaid], bonds: &Bonds, n: usize)
    requires few { length agents.now ≤ 12 }
    requires joined { AreJoined agents.now }
    requires indexed { AreBondsOf agents.now bonds.now }
    requires known { (sig : List TypeEntry) × (AreSaid sig agents.now × IsAsking sig agents.now left.old) }
    requires stands { n < length agents.now }
    ensures further { IsFurther agents.now left.old left.new }
    ensures asked { (i : ℕ) (s : Site) → Says agents.now n i s → IsAsked agents.now left.new n s.site }
{
    for i in 0..count_said(agents, n) {
        ask_site(left, agents, bonds, n, i);
    }
}

// The left pattern of a rule with these agents on the left.
fn left_pattern(
    alloc: Global,
    sig: &Signature,
    agents: &[AgentSaid],
    bonds: &Bonds,
) -> Result<Pattern, NoMemory>
    requires said { AreSaid sig.now agents.now }
    requires joined { AreJoined agents.now }
    requires few { length agents.now ≤ 12 }
    requires indexed { AreBondsOf agents.now bonds.now }
    ensures over { IfOk result (λ left. IsPatternOver sig.now left) }
    ensures types { IfOk result (λ left. types_of left ≡ map (λ a. a.agent) agents.now) }
    ensures states { IfOk result (λ left. (n s : ℕ) (a : Said) → slice_get agents.now n ≡ Some a → state_test left n s ≡ left_state_test (said_at a.sites s)) }
    ensures links { IfOk result (λ left. (n s : ℕ) (a : Said) → slice_get agents.now n ≡ Some a → link_test left n s ≡ left_link_test agents.now n (said_at a.sites s)) }
{
    let mut left = blank_pattern(alloc, sig, agents)?;
    for n in 0..agents.len() {
        ask_sites(&mut left, agents, bonds, n);
    }
    Ok(left)
}

// The end and the site that a label on the right joins to the one at which it stands.
fn joined_end(sides: &Sides, bonds: &Bonds, place: (usize, SiteNo), number: u16) -> (End, SiteNo)
    requires indexed { AreBondsOf sides.now.right bonds.now }
    requires short { HasShortEnds sides.now }
    requires linked { IsLinked sides.now place number }
    ensures { let q = joined_to sides.now.right number place in result ≡ (end_at sides.now.ends q.0, q.1) }
{
    let (other, site) = bonds.joined_to(number, place);
    (end_of(sides, other), site)
}

// The link test leads to this end and site.
fn leads_to(test: LinkTest, end: &End, site: SiteNo) -> bool
    ensures { result ≡ leads_to test «end».now site }
{
    match test {
        LinkTest::To(other, at) => match end {
            End::Left(node) => other.0 == node.0 && at.0 == site.0,
            End::Made(_) => false,
        },
        _ => false,
    }
}

// The link that the k-th agent on the right writes at a site of a kept node.
fn kept_link(
    sides: &Sides,
    bonds: &Bonds,
    test: LinkTest,
    k: usize,
    said: &SiteSaid,
) -> Option<Written>
    requires indexed { AreBondsOf sides.now.right bonds.now }
    requires short { HasShortEnds sides.now }
    requires linked { (number : ℕ) → said.now.link ≡ Some (Link.Label number) → IsLinked sides.now (k, said.now.site) number }
    ensures { result ≡ link_to_write sides.now (k, said.now.site) test said.now.link }
{
    match said.link {
        Some(LinkSaid::Free) => match test {
            LinkTest::Free => None,
            _ => Some(Written::Free),
        },
        Some(LinkSaid::Label(number)) => {
            let (end, site) = joined_end(sides, bonds, (k, said.site), number);
            if leads_to(test, &end, site) {
                None
            } else {
                Some(Written::To(end, site))
            }
        }
        _ => None,
    }
}

// The link that the k-th agent on the right, which is created, has at a site.
fn made_link(sides: &Sides, bonds: &Bonds, k: usize, said: &SiteSaid) -> Written
    requires indexed { AreBondsOf sides.now.right bonds.now }
    requires short { HasShortEnds sides.now }
    requires linked { (number : ℕ) → said.now.link ≡ Some (Link.Label number) → IsLinked sides.now (k, said.now.site) number }
    ensures { result ≡ link_to_make sides.now (k, said.now.site) said.now.link }
{
    match said.link {
        Some(LinkSaid::Label(number)) => {
            let (end, site) = joined_end(sides, bonds, (k, said.site), number);
            Written::To(end, site)
        }
        _ => Written::Free,
    }
}

// The link that the k-th agent on the right gives to a site of this end.
fn link_due(
    sides: &Sides,
    bonds: &Bonds,
    left: &Pattern,
    end: &End,
    k: usize,
    said: &SiteSaid,
) -> Option<Written>
    requires indexed { AreBondsOf sides.now.right bonds.now }
    requires short { HasShortEnds sides.now }
    requires linked { (number : ℕ) → said.now.link ≡ Some (Link.Label number) → IsLinked sides.now (k, said.now.site) number }
    requires exists { (n : ℕ) → «end».now ≡ End.Left n → HasNodeSite left.now n said.now.site }
    ensures { result ≡ link_to_put sides.now left.now «end».now k said.now }
{
    match end {
        End::Left(node) => kept_link(sides, bonds, left.link(*node, said.site), k, said),
        End::Made(_) => Some(made_link(sides, bonds, k, said)),
    }
}

// The state test is this state.
fn is_state(test: StateTest, state: StateNo) -> bool
    ensures { result ≡ is_state test state }
{
    match test {
        StateTest::Any => false,
        StateTest::Is(other) => other.0 == state.0,
    }
}

// A node has this state already by its left test.
fn has_state(left: &Pattern, end: &End, site: SiteNo, state: StateNo) -> bool
    requires exists { (n : ℕ) → «end».now ≡ End.Left n → HasNodeSite left.now n site }
    ensures { result ≡ has_state left.now «end».now site state }
{
    match end {
        End::Left(node) => is_state(left.state(*node, site), state),
        End::Made(_) => false,
    }
}

// The state that a site on the right gives to this end.
fn state_due(left: &Pattern, end: &End, site: SiteNo, test: Option<StateTest>) -> Option<StateNo>
    requires exists { (n : ℕ) → «end».now ≡ End.Left n → HasNodeSite left.now n site }
    ensures { result ≡ state_to_put left.now «end».now site test }
{
    match test? {
        StateTest::Any => None,
        StateTest::Is(state) => {
            if has_state(left, end, site, state) {
                None
            } else {
                Some(state)
            }
        }
    }
}

// One place comes before another.
fn stands_before(n: u16, s: SiteNo, m: u16, t: SiteNo) -> bool
    ensures { result ≡ stands_before n s m t }
{
    n < m || (n == m && s.0 < t.0)
}

// One end comes before another: left nodes before created ones.
fn end_before(e: &End, s: SiteNo, f: &End, t: SiteNo) -> bool
    ensures { result ≡ end_before e.now s f.now t }
{
    match e {
        End::Left(n) => match f {
            End::Left(m) => stands_before(n.0, s, m.0, t),
            End::Made(_) => true,
        },
        End::Made(j) => match f {
            End::Left(_) => false,
            End::Made(k) => stands_before(*j, s, *k, t),
        },
    }
}

// Writes a state at a site, if there is one to write.
fn put_state_due(draft: &mut RuleDraft, end: &End, site: SiteNo, state: Option<StateNo>)
    requires exists { HasEndSite draft.old «end».now site }
    requires known { (u : ℕ) → state ≡ Some u → HasEndState draft.old «end».now site u }
    ensures draft { draft.new ≡ with_state_due draft.old «end».now site state }
    ensures over { (sig : List TypeEntry) → IsDraftOver sig draft.old → IsDraftOver sig draft.new }
{
    if let Some(state) = state {
        draft.write_state(*end, site, state);
    }
}

// Makes a site free that isn't created so.
fn put_free(draft: &mut RuleDraft, end: &End, site: SiteNo)
    requires exists { HasEndSite draft.old «end».now site }
    requires may { MayFree draft.old «end».now site }
    ensures draft { draft.new ≡ with_free draft.old «end».now site }
    ensures over { (sig : List TypeEntry) → IsDraftOver sig draft.old → IsDraftOver sig draft.new }
{
    if let End::Left(node) = end {
        draft.write_free(*node, site);
    }
}

// Writes a bond, if this end is the one that comes first.
fn put_bond(draft: &mut RuleDraft, end: &End, site: SiteNo, other: End, at: SiteNo)
    requires exists { HasEndSite draft.old «end».now site }
    requires may { MayWrite draft.old «end».now site (Some (Written.To other at)) }
    ensures draft { draft.new ≡ with_bond_due draft.old «end».now site other at }
    ensures over { (sig : List TypeEntry) → IsDraftOver sig draft.old → IsDraftOver sig draft.new }
{
    if end_before(end, site, &other, at) {
        draft.write_bond(*end, site, other, at);
    }
}

// Writes a link at a site, if there is one to write. A bond is written at the end that comes first.
fn put_link_due(draft: &mut RuleDraft, end: &End, site: SiteNo, link: Option<Written>)
    requires exists { HasEndSite draft.old «end».now site }
    requires may { MayWrite draft.old «end».now site link }
    ensures draft { draft.new ≡ with_link_due draft.old «end».now site link }
    ensures over { (sig : List TypeEntry) → IsDraftOver sig draft.old → IsDraftOver sig draft.new }
{
    match link {
        None => {}
        Some(Written::Free) => put_free(draft, end, site),
        Some(Written::To(other, at)) => put_bond(draft, end, site, other, at),
    }
}

// What the k-th agent on the right is in the rule.
fn end_of(sides: &Sides, k: usize) -> End
    requires within { k < length sides.now.ends }
    requires short { HasShortEnds sides.now }
    ensures { result ≡ end_at sides.now.ends k }
{
    match sides.origin(k) {
        Origin::Left(n) => End::Left(NodeNo(n as u16)),
        Origin::Made(j) => End::Made(j as u16),
    }
}

// A site that the k-th agent on the right names.
fn right_said(sides: &Sides, k: usize, i: usize) -> SiteSaid
    requires { (s : Site) × Says sides.now.right k i s }
    ensures { Says sides.now.right k i result }
{
    let right = &sides.right;
    site_said(right, k, i)
}

// How many sites it names.
fn right_count(sides: &Sides, k: usize) -> usize
    requires { k < length sides.now.right }
    ensures all_said { (i : ℕ) → i < result → (s : Site) × Says sides.now.right k i s }
    ensures no_more { (i : ℕ) (s : Site) → Says sides.now.right k i s → i < result }
{
    let right = &sides.right;
    count_said(right, k)
}

// Writes what a site that the k-th agent on the right names gives.
fn write_site(
    draft: &mut RuleDraft,
    sides: &Sides,
    bonds: &Bonds,
    left: &Pattern,
    k: usize,
    i: usize,
)
    requires indexed { AreBondsOf sides.now.right bonds.now }
    requires short { HasShortEnds sides.now }
    requires can { (sig : List TypeEntry) × CanWrite sig sides.now left.now draft.old }
    requires waits { AreAwaiting sides.now left.now draft.old k i }
    requires stands { (s : Site) × Says sides.now.right k i s }
    ensures over { (sig : List TypeEntry) → IsDraftOver sig draft.old → IsDraftOver sig draft.new }
    ensures later { (sig : List TypeEntry) → CanWrite sig sides.now left.now draft.old → IsLater sig sides.now left.now draft.old draft.new }
    ensures waits { AreAwaiting sides.now left.now draft.new k (i + 1) }
    ensures done { (sig : List TypeEntry) → CanWrite sig sides.now left.now draft.old → (s : Site) → Says sides.now.right k i s → IsDone sig sides.now left.now draft.new (end_at sides.now.ends k) s.site }
{
    let said = right_said(sides, k, i);
    let end = end_of(sides, k);
    let state = state_due(left, &end, said.site, said.state);
    put_state_due(draft, &end, said.site, state);
    let link = link_due(sides, bonds, left, &end, k, &said);
    put_link_due(draft, &end, said.site, link);
}

// Writes what the sites that the k-th agent on the right names give.
fn write_sites(draft: &mut RuleDraft, sides: &Sides, bonds: &Bonds, left: &Pattern, k: usize)
    requires indexed { AreBondsOf sides.now.right bonds.now }
    requires short { HasShortEnds sides.now }
    requires can { (sig : List TypeEntry) × CanWrite sig sides.now left.now draft.old }
    requires waits { AreAwaiting sides.now left.now draft.old k 0 }
    requires stands { k < length sides.now.right }
    ensures over { (sig : List TypeEntry) → IsDraftOver sig draft.old → IsDraftOver sig draft.new }
    ensures later { (sig : List TypeEntry) → CanWrite sig sides.now left.now draft.old → IsLater sig sides.now left.now draft.old draft.new }
    ensures waits { AreAwaiting sides.now left.now draft.new (k + 1) 0 }
    ensures done { (sig : List TypeEntry) → CanWrite sig sides.now left.now draft.old → (i : ℕ) (s : Site) → Says sides.now.right k i s → IsDone sig sides.now left.now draft.new (end_at sides.now.ends k) s.site }
{
    for i in 0..right_count(sides, k) {
        write_site(draft, sides, bonds, left, k, i);
    }
}

// Writes what all agents on the right give.
fn write_all(draft: &mut RuleDraft, sides: &Sides, bonds: &Bonds, left: &Pattern)
    requires indexed { AreBondsOf sides.now.right bonds.now }
    requires short { HasShortEnds sides.now }
    requires can { (sig : List TypeEntry) × CanWrite sig sides.now left.now draft.old }
    requires waits { AreAwaiting sides.now left.now draft.old 0 0 }
    ensures over { (sig : List TypeEntry) → IsDraftOver sig draft.old → IsDraftOver sig draft.new }
    ensures later { (sig : List TypeEntry) → CanWrite sig sides.now left.now draft.old → IsLater sig sides.now left.now draft.old draft.new }
    ensures done { (sig : List TypeEntry) → CanWrite sig sides.now left.now draft.old → (k i : ℕ) (s : Site) → Says sides.now.right k i s → IsDone sig sides.now left.now draft.new (end_at sides.now.ends k) s.site }
{
    let right = &sides.right;
    for k in 0..right.len() {
        write_sites(draft, sides, bonds, left, k);
    }
}

// The n-th agent on the left doesn't stand on the right.
fn is_deleted(sides: &Sides, n: usize) -> bool
    requires { n < length sides.now.after }
    ensures { (o : Option ℕ) → slice_get sides.now.after n ≡ Some o → result ≡ is_none o }
{
    let after = &sides.after;
    after[n].is_none()
}

// Deletes a node that doesn't stand on the right.
fn delete_agent(draft: &mut RuleDraft, sides: &Sides, n: usize)
    requires few { length sides.now.after ≤ 12 }
    requires within { n < length sides.now.after }
    requires fresh { (name : List ℕ) × (g : List Node) × IsFresh sides.now name g n draft.old }
    ensures over { (sig : List TypeEntry) → IsDraftOver sig draft.old → IsDraftOver sig draft.new }
    ensures made { draft.new.made ≡ draft.old.made }
    ensures fresh { (name : List ℕ) (g : List Node) → IsFresh sides.now name g n draft.old → IsFresh sides.now name g (n + 1) draft.new }
{
    if is_deleted(sides, n) {
        draft.delete(NodeNo(n as u16));
    }
}

// Deletes the nodes that don't stand on the right.
fn delete_agents(draft: &mut RuleDraft, sides: &Sides)
    requires few { length sides.now.after ≤ 12 }
    requires fresh { (name : List ℕ) × (g : List Node) × IsFresh sides.now name g 0 draft.old }
    ensures over { (sig : List TypeEntry) → IsDraftOver sig draft.old → IsDraftOver sig draft.new }
    ensures made { draft.new.made ≡ draft.old.made }
    ensures fresh { (name : List ℕ) (g : List Node) → IsFresh sides.now name g 0 draft.old → IsFresh sides.now name g (length sides.now.after) draft.new }
{
    let after = &sides.after;
    for n in 0..after.len() {
        delete_agent(draft, sides, n);
    }
}

// The type of the j-th agent that is created.
fn made_type(sides: &Sides, j: usize) -> AgentType
    requires within { j < length sides.now.made }
    requires there { (k : ℕ) → slice_get sides.now.made j ≡ Some k → k < length sides.now.right }
    ensures { (k : ℕ) → slice_get sides.now.made j ≡ Some k → result ≡ type_on_right sides.now k }
{
    let (made, right) = (&sides.made, &sides.right);
    right[made[j]].agent
}

// Creates one agent.
fn make_agent(
    draft: &mut RuleDraft,
    sig: &Signature,
    sides: &Sides,
    j: usize,
) -> Result<(), NoMemory>
    requires sides { AreSides sig.now sides.now }
    requires few { length sides.now.right ≤ 12 }
    requires within { j < length sides.now.made }
    requires count { length draft.old.made ≡ j }
    ensures over { IfOk result (λ _. IsDraftOver sig.now draft.old → IsDraftOver sig.now draft.new) }
    ensures count { IfOk result (λ _. length draft.new.made ≡ j + 1) }
    ensures bare { IfOk result (λ _. (name : List ℕ) (g : List Node) → IsBare sig.now sides.now name g (take j sides.now.made) draft.old → IsBare sig.now sides.now name g (take (j + 1) sides.now.made) draft.new) }
{
    let agent = made_type(sides, j);
    draft.make(sig, agent)?;
    Ok(())
}

// Creates the agents on the right that don't stand on the left.
fn make_agents(draft: &mut RuleDraft, sig: &Signature, sides: &Sides) -> Result<(), NoMemory>
    requires sides { AreSides sig.now sides.now }
    requires few { length sides.now.right ≤ 12 }
    requires none { draft.old.made ≡ [] }
    ensures over { IfOk result (λ _. IsDraftOver sig.now draft.old → IsDraftOver sig.now draft.new) }
    ensures bare { IfOk result (λ _. (name : List ℕ) (g : List Node) → IsBare sig.now sides.now name g [] draft.old → IsBare sig.now sides.now name g sides.now.made draft.new) }
{
    let made = &sides.made;
    for j in 0..made.len() {
        make_agent(draft, sig, sides, j)?;
    }
    Ok(())
}

// The draft of a rule with this left pattern, where nothing is written yet.
fn bare_draft(
    alloc: Global,
    sig: &Signature,
    name: &[u8],
    sides: &Sides,
    left: &Pattern,
) -> Result<RuleDraft, NoMemory>
    requires sides { AreSides sig.now sides.now }
    requires few_left { length sides.now.left ≤ 12 }
    requires few_right { length sides.now.right ≤ 12 }
    requires over { IsPatternOver sig.now left.now }
    requires types { types_of left.now ≡ map (λ a. a.agent) sides.now.left }
    ensures over { IfOk result (λ draft. IsDraftOver sig.now draft) }
    ensures bare { IfOk result (λ draft. IsBare sig.now sides.now name.now left.now sides.now.made draft) }
{
    let mut draft = RuleDraft::new(alloc, sig, name, left.copy()?)?;
    delete_agents(&mut draft, sides);
    make_agents(&mut draft, sig, sides)?;
    Ok(draft)
}

/// The rule of these sides, whose labels are indexed, under a name.
pub fn rule(
    alloc: Global,
    sig: &Signature,
    name: &[u8],
    sides: &Sides,
    left: &Bonds,
    right: &Bonds,
) -> Result<Rule, NoMemory>
    requires sides { AreSides sig.now sides.now }
    requires few_left { length sides.now.left ≤ 12 }
    requires few_right { length sides.now.right ≤ 12 }
    requires whole { half_bonds sides.now ≡ [] }
    requires left_bonds { AreBondsOf sides.now.left left.now }
    requires right_bonds { AreBondsOf sides.now.right right.now }
    ensures is { IfOk result (λ rule. rule ≡ rule_of sig.now name.now sides.now) }
    ensures over { IfOk result (λ rule. IsRuleOver sig.now rule) }
{
    let pattern = left_pattern(alloc, sig, &sides.left, left)?;
    let mut draft = bare_draft(alloc, sig, name, sides, &pattern)?;
    write_all(&mut draft, sides, right, &pattern);
    Ok(draft.finish())
}
