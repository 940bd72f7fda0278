// Left nodes of rules, each by itself.
ghost use Rattle.std.specs.Prelude.{◌≡◌, ◌⊎◌, ℕ, ◌<◌, ◌↔◌, ◌∷◌, [], Some, IfOk, length, slice_get};
ghost use Rattle.std.specs.Option.{option_map_or};
ghost use Rattle.kasa_graph.specs.declared.pattern.Node.{Node};
ghost use Rattle.kasa_graph.specs.Lists.{Has};
ghost use Rattle.kasa_graph.specs.declared.pattern.LinkTest.TheVariants.{Any};
ghost use Rattle.kasa_graph.specs.Pattern.{link_test, HasNodeSite, IsPatternOver};
ghost use Rattle.kasa_influence.specs.declared.lone.Lone.{Lone};
ghost use Rattle.kasa_influence.specs.Alone.{unnamed, alone};
ghost use Rattle.kasa_influence.specs.inner.Search.{IsLone, IsLoneOf, Adds, copied};

use kasa_graph::{LinkTest, Pattern, Signature};
use kasa_num::{NoMemory, NodeNo, RuleNo, SiteNo};
use kasa_rules::{Model, Rule};
use std::alloc::Global;

/// A left node of a rule, by itself.
#[derive(Drop)]
pub(crate) struct Lone {
    pub rule: RuleNo,
    pub node: NodeNo,
    pub pattern: Pattern,
}

/// All left nodes of a model's rules, each by itself.
pub(crate) fn lones(alloc: Global, model: &Model) -> Result<Vec<Lone>, NoMemory>
    ensures { IfOk result (λ found. (l : Lone) → Has found.items l ↔ IsLone model.now l) }
{
    let mut found = Vec::new(alloc);
    let rules = model.rules.as_slice();
    for k in 0..rules.len() {
        push_lones(alloc, &model.sig, &rules[k], RuleNo(k as u16), &mut found)?;
    }
    Ok(found)
}

// Appends those of a rule.
fn push_lones(
    alloc: Global,
    sig: &Signature,
    rule: &Rule,
    number: RuleNo,
    found: &mut Vec<Lone>,
) -> Result<(), NoMemory>
    requires { IsPatternOver sig.now rule.now.left }
    ensures { IfOk result (λ _. Adds (IsLoneOf rule.now number) found.old.items found.new.items) }
{
    for node in 0..rule.left().nodes() {
        let node = NodeNo(node as u16);
        let pattern = alone(alloc, sig, rule.left(), node)?;
        found.push(Lone {
            rule: number,
            node,
            pattern,
        })?;
    }
    Ok(())
}

// A node of g by itself.
fn alone(alloc: Global, sig: &Signature, g: &Pattern, node: NodeNo) -> Result<Pattern, NoMemory>
    requires over { IsPatternOver sig.now g.now }
    requires exists { node < length g.now }
    ensures { IfOk result (λ v. (x : Node) → slice_get g.now node ≡ Some x → v ≡ alone g.now x) }
{
    let mut v = Pattern::new(alloc);
    let agent = g.agent(node);
    v.add_node(sig, agent)?;
    for site in 0..sig.sites(agent) {
        copy_tests(g, node, SiteNo(site as u8), &mut v);
    }
    Ok(v)
}

// Gives the first node of v the tests of a node of g at a site.
fn copy_tests(g: &Pattern, node: NodeNo, site: SiteNo, v: &mut Pattern)
    requires from { HasNodeSite g.now node site }
    requires to { HasNodeSite v.old 0 site }
    requires untested { link_test v.old 0 site ≡ Any }
    ensures { v.new ≡ copied g.now node site v.old }
{
    v.set_state(NodeNo(0), site, g.state(node, site));
    v.set_link(NodeNo(0), site, unnamed(g, g.link(node, site)));
}

// A test of g that names no node of g.
fn unnamed(g: &Pattern, link: LinkTest) -> LinkTest
    ensures { result ≡ unnamed g.now link }
{
    match link {
        LinkTest::To(node, site) => {
            if node.0 as usize >= g.nodes() {
                return LinkTest::Bound;
            }
            LinkTest::Partner(g.agent(node), site)
        }
        _ => link,
    }
}
