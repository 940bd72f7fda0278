// What a rule writes at the sites of nodes with stands, and what they show then.
ghost use Rattle.std.specs.Prelude.{◌≡◌, ◌↔◌, ◌<◌, length, IsTrue};
ghost use Rattle.kasa_graph.specs.Signature.{HasSite};
ghost use Rattle.kasa_graph.specs.Pattern.{HasNodeSite};
ghost use Rattle.kasa_rules.specs.Rule.{IsRuleOver, end_type};
ghost use Rattle.kasa_pre.specs.Before.{state_written, link_written};
ghost use Rattle.kasa_pre.specs.Asked.{StandExists, HasStandSite};
ghost use Rattle.kasa_columns.specs.Comes.{link_shown, local_after};
ghost use Rattle.kasa_columns.specs.Outcomes.{link_of_no_site};

use kasa_families::{Local, LocalLink};
use kasa_graph::{Pattern, Signature};
use kasa_num::{AgentType, NodeNo, SiteNo, StateNo};
use kasa_pre::Stand;
use kasa_rules::{End, Rule, Written};

// What the site shows where no side effect frees it.
pub(crate) fn local_after(
    sig: &Signature,
    rule: &Rule,
    stand: &Stand,
    site: SiteNo,
    shown: &Local,
) -> Local
    requires over { IsRuleOver sig.now rule.now }
    requires exists { StandExists rule.now stand.now }
    ensures { result ≡ local_after rule.now stand.now site shown.now }
{
    let state = match state_written(sig, rule, stand, site) {
        Some(state) => Some(state),
        None => shown.state,
    };
    let link = match link_written(sig, rule, stand, site) {
        Some(written) => link_shown(rule, written),
        None => shown.link,
    };
    Local { state, link }
}

// A written link, as its own agent shows it.
pub(crate) fn link_shown(rule: &Rule, written: Written) -> LocalLink
    ensures { result ≡ link_shown rule.now written }
{
    match written {
        Written::Free => LocalLink::Free,
        Written::To(e, site) => match end_type(rule, e) {
            Some(agent) => LocalLink::Partner(agent, site),
            None => LocalLink::Free,
        },
    }
}

// The type of an end of a written bond.
pub(crate) fn end_type(rule: &Rule, e: End) -> Option<AgentType>
    ensures { result ≡ end_type rule.now e }
{
    match e {
        End::Left(n) => {
            if n.0 as usize >= rule.left().nodes() {
                return None;
            }
            Some(rule.left().agent(n))
        }
        End::Made(k) => {
            if k as usize >= rule.made() {
                return None;
            }
            Some(rule.made_type(k))
        }
    }
}

pub(crate) fn has_node_site(g: &Pattern, node: NodeNo, site: SiteNo) -> bool
    requires { node < length g.now }
    ensures { IsTrue result ↔ HasNodeSite g.now node site }
{
    (site.0 as usize) < g.site_tests(node).len()
}

// The agent with the stand has the site.
fn has_site(sig: &Signature, rule: &Rule, stand: &Stand, site: SiteNo) -> bool
    requires over { IsRuleOver sig.now rule.now }
    requires exists { StandExists rule.now stand.now }
    ensures { IsTrue result ↔ HasStandSite rule.now stand.now site }
{
    match *stand {
        Stand::Left(n) => has_node_site(rule.left(), n, site),
        Stand::Made(k) => type_has_site(sig, rule.made_type(k), site),
        Stand::Outside => true,
    }
}

fn type_has_site(sig: &Signature, agent: AgentType, site: SiteNo) -> bool
    ensures { IsTrue result ↔ HasSite sig.now agent site }
{
    (site.0 as usize) < sig.sites(agent)
}

// The state that is written at a site, which may not exist.
pub(crate) fn state_written(
    sig: &Signature,
    rule: &Rule,
    stand: &Stand,
    site: SiteNo,
) -> Option<StateNo>
    requires over { IsRuleOver sig.now rule.now }
    requires exists { StandExists rule.now stand.now }
    ensures { result ≡ state_written rule.now stand.now site }
{
    if !has_site(sig, rule, stand, site) {
        return None;
    }
    match *stand {
        Stand::Left(n) => rule.written_state(n, site),
        Stand::Made(k) => rule.made_state(k, site),
        Stand::Outside => None,
    }
}

/// The link that a rule writes at a site of a node with a stand. At a site that doesn't exist that is none, and at one of a
/// created agent it is free.
pub fn link_written(sig: &Signature, rule: &Rule, stand: &Stand, site: SiteNo) -> Option<Written>
    requires over { IsRuleOver sig.now rule.now }
    requires exists { StandExists rule.now stand.now }
    ensures { result ≡ link_written rule.now stand.now site }
{
    if !has_site(sig, rule, stand, site) {
        return no_link(stand);
    }
    match *stand {
        Stand::Left(n) => rule.written_link(n, site),
        Stand::Made(k) => Some(rule.made_link(k, site)),
        Stand::Outside => None,
    }
}

// What is written at no site: a created agent's is free.
fn no_link(stand: &Stand) -> Option<Written>
    ensures { result ≡ link_of_no_site stand.now }
{
    match *stand {
        Stand::Made(_) => Some(Written::Free),
        _ => None,
    }
}
